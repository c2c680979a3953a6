// The rules of the rows.
ghost use Rattle.std.specs.Prelude.{◌≡◌, ◌+◌, ◌<◌, ◌≤◌, All, IfOk, IsSome, length, option_map};
ghost use Rattle.mb_text.specs.Texts.{KeepsIds};
ghost use Rattle.mb_world.specs.Ids.{Maybe};
ghost use Rattle.mb_policy.specs.Policy.{row_within as rule_within, rules_from};
ghost use Rattle.mb_policy.specs.Rules.{rule_by, IsRule};
ghost use Rattle.mb_policy.specs.machine.Answers.{AnswersRows};
ghost use Rattle.toml.specs.View.{view, items_view};

use crate::fault::{PolicyFault, PolicyKind};
use crate::row::rule_of;
use mb_base::NoMemory;
use mb_text::Texts;
use mb_world::Rule;
use std::alloc::Global;

// The most rules of a file.
const MOST_RULES: usize = 1000;

// The rules of the rows, or the first row that gives none.
pub(crate) fn read_rows(
    alloc: Global,
    sided: bool,
    rows: &[toml::Value],
    texts: &mut Texts,
) -> Result<Vec<Rule>, PolicyFault>
    ensures answers { AnswersRows texts.new result (rules_from sided 1 (items_view rows.now)) }
    ensures ids { IfOk result (λ rules. All (IsRule texts.new) rules.items) }
    ensures few { IfOk result (λ rules. length rules.items ≤ 1000) }
    ensures kept { KeepsIds texts.old texts.new }
{
    let mut rules = Vec::new(alloc);
    for place in 0..rows.len() {
        match rule_within_limit(alloc, sided, place, &rows[place], texts)? {
            Some(rule) => rules.push(rule)?,
            None => {
                return Err(PolicyFault::Refused(PolicyKind::Field {
                    row: place as u32 + 1,
                }));
            }
        }
    }
    Ok(rules)
}

// The rule of a row, if it gives one and there are not too many.
fn rule_within_limit(
    alloc: Global,
    sided: bool,
    place: usize,
    row: &toml::Value,
    texts: &mut Texts,
) -> Result<Option<Rule>, NoMemory>
    ensures rule { IfOk result (λ rule. option_map (rule_by texts.new) rule
        ≡ rule_within sided (place + 1) (view row.now)) }
    ensures within { IfOk result (Maybe (IsRule texts.new)) }
    ensures limit { IfOk result (λ rule. IsSome rule → place < 1000) }
    ensures kept { KeepsIds texts.old texts.new }
{
    if place < MOST_RULES {
        rule_of(alloc, sided, row, texts)
    } else {
        Ok(None)
    }
}
