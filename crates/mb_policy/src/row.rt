// The rule of a row.
ghost use Rattle.std.specs.Prelude.{◌≡◌, option_map, option_and_then, codes, IfOk};
ghost use Rattle.mb_text.specs.Texts.{KeepsIds};
ghost use Rattle.mb_world.specs.Ids.{Maybe};
ghost use Rattle.mb_world.specs.Image.{side_in};
ghost use Rattle.mb_policy.specs.Rows.{rule_of as rule_of_table, rule_of_row, kind_named, kind_with as kind_of_row, are_one_side as one_side};
ghost use Rattle.mb_policy.specs.Fields.{str_at};
ghost use Rattle.mb_policy.specs.machine.Names.{rule_with_sides};
ghost use Rattle.mb_policy.specs.Rules.{kind_by, rule_by, IsKind, IsRule};
ghost use Rattle.toml.specs.View.{view, table_view};

use crate::fields::{constant_at, id_at, side_at, text_at};
use crate::kind::{KindName, has_its_fields};
use mb_base::{NoMemory, Side, StrId};
use mb_text::Texts;
use mb_world::{Rule, RuleKind};
use std::alloc::Global;
use toml::Table;

// The rule of a row, if it gives one.
pub(crate) fn rule_of(
    alloc: Global,
    sided: bool,
    row: &toml::Value,
    texts: &mut Texts,
) -> Result<Option<Rule>, NoMemory>
    ensures rule { IfOk result (λ rule. option_map (rule_by texts.new) rule ≡ rule_of_row sided (view row.now)) }
    ensures within { IfOk result (Maybe (IsRule texts.new)) }
    ensures kept { KeepsIds texts.old texts.new }
{
    match row.as_table() {
        Some(row) => table_rule(alloc, sided, row, texts),
        None => Ok(None),
    }
}

// The rule of a row that is a table.
fn table_rule(
    alloc: Global,
    sided: bool,
    row: &Table,
    texts: &mut Texts,
) -> Result<Option<Rule>, NoMemory>
    ensures rule { IfOk result (λ rule. option_map (rule_by texts.new) rule
        ≡ rule_of_table sided (table_view row.now)) }
    ensures within { IfOk result (Maybe (IsRule texts.new)) }
    ensures kept { KeepsIds texts.old texts.new }
{
    let name = match kind_name(row) {
        Some(name) => name,
        None => return Ok(None),
    };
    if !has_its_fields(sided, name, row) {
        return Ok(None);
    }
    let label = match id_at(alloc, row, "label", texts)? {
        Some(label) => label,
        None => return Ok(None),
    };
    let kind = match kind_with(alloc, name, row, texts)? {
        Some(kind) => kind,
        None => return Ok(None),
    };
    Ok(with_sides(label, kind, side_at(row, "owner"), side_at(row, "viewer")))
}

// The name of the row's kind.
fn kind_name(row: &Table) -> Option<KindName>
    ensures { result ≡ option_and_then kind_named (str_at (codes "kind") (table_view row.now)) }
{
    match text_at(row, "kind") {
        Some(word) => KindName::of_word(word),
        None => None,
    }
}

// The rule with its sides, unless both are given and are one.
fn with_sides(
    label: StrId,
    kind: RuleKind,
    owner: Option<Option<Side>>,
    viewer: Option<Option<Side>>,
) -> Option<Rule>
    ensures { result ≡ rule_with_sides label kind owner viewer }
{
    match (owner, viewer) {
        (Some(owner), Some(viewer)) if !are_one_side(owner, viewer) => Some(Rule {
            label,
            kind,
            owner,
            viewer,
        }),
        _ => None,
    }
}

fn are_one_side(owner: Option<Side>, viewer: Option<Side>) -> bool
    ensures { result ≡ one_side (side_in owner) (side_in viewer) }
{
    match (owner, viewer) {
        (Some(owner), Some(viewer)) => owner.0 == viewer.0,
        _ => false,
    }
}

// The kind with its key and its constant.
fn kind_with(
    alloc: Global,
    name: KindName,
    row: &Table,
    texts: &mut Texts,
) -> Result<Option<RuleKind>, NoMemory>
    ensures kind { IfOk result (λ kind. option_map (kind_by texts.new) kind ≡ kind_of_row name (table_view row.now)) }
    ensures within { IfOk result (Maybe (IsKind texts.new)) }
    ensures kept { KeepsIds texts.old texts.new }
{
    match name {
        KindName::Hide => hide(alloc, row, texts),
        KindName::ReadOnly => Ok(Some(RuleKind::ReadOnly)),
        KindName::Substitute => substitute(alloc, row, texts),
        KindName::Revoke => Ok(Some(RuleKind::Revoke)),
    }
}

fn hide(alloc: Global, row: &Table, texts: &mut Texts) -> Result<Option<RuleKind>, NoMemory>
    ensures kind { IfOk result (λ kind. option_map (kind_by texts.new) kind
        ≡ kind_of_row KindName.Hide (table_view row.now)) }
    ensures within { IfOk result (Maybe (IsKind texts.new)) }
    ensures kept { KeepsIds texts.old texts.new }
{
    match id_at(alloc, row, "key", texts)? {
        Some(key) => Ok(Some(RuleKind::Hide(key))),
        None => Ok(None),
    }
}

fn substitute(alloc: Global, row: &Table, texts: &mut Texts) -> Result<Option<RuleKind>, NoMemory>
    ensures kind { IfOk result (λ kind. option_map (kind_by texts.new) kind
        ≡ kind_of_row KindName.Substitute (table_view row.now)) }
    ensures within { IfOk result (Maybe (IsKind texts.new)) }
    ensures kept { KeepsIds texts.old texts.new }
{
    let key = match id_at(alloc, row, "key", texts)? {
        Some(key) => key,
        None => return Ok(None),
    };
    match constant_at(alloc, row, "value", texts)? {
        Some(value) => Ok(Some(RuleKind::Substitute(key, value))),
        None => Ok(None),
    }
}
