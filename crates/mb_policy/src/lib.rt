//! The policy file: its rules, or what is wrong with it.
#![tactic(auto)]

mod chain;
mod conflict;
mod document;
mod fault;
mod fields;
mod kind;
mod laws;
mod row;
mod rows;
#[cfg(test)]
mod tests;

ghost use Rattle.std.specs.Prelude.{◌≡◌, All, IfOk, IfErr, Ok, Some, map};
ghost use Rattle.mb_text.specs.Texts.{KeepsIds};
ghost use Rattle.mb_policy.specs.Accepted.{AreRules};
ghost use Rattle.mb_policy.specs.Policy.{RulesOf, by_document};
ghost use Rattle.mb_policy.specs.Rules.{IsRule, Refuses, rule_by};
ghost use Rattle.mb_policy.specs.machine.Answers.{AnswersRows};
ghost use Rattle.toml.specs.View.{table_view};

use conflict::conflict;
pub use fault::{PolicyFault, PolicyKind};
use kind::has_top_fields;
pub use laws::rules_of_a_file_fit_a_world;
use mb_text::Texts;
use mb_world::{Rule, Rules};
use rows::read_rows;
use std::alloc::Global;
use toml::Table;

/// The rules that the bytes of a policy file give, their texts taken into the table. `NotToml` goes before `Field`, and
/// that before `Conflict`. The table keeps the ids that it has given, also after a refusal.
pub fn read(alloc: Global, bytes: &[u8], texts: &mut Texts) -> Result<Rules, PolicyFault>
    ensures rules { IfOk result (λ rules. RulesOf bytes.now ≡ Ok (map (rule_by texts.new) rules)) }
    ensures fault { IfErr result (Refuses (RulesOf bytes.now)) }
    ensures ids { IfOk result (λ rules. All (IsRule texts.new) rules) }
    ensures accepted { IfOk result (λ rules. AreRules (map (rule_by texts.new) rules)) }
    ensures kept { KeepsIds texts.old texts.new }
{
    let rows = match rows_of_bytes(alloc, bytes, texts) {
        Ok(rows) => rows,
        Err(fault) => return Err(fault),
    };
    let rules = Rules::new(alloc, rows)?;
    Ok(rules)
}

// The rules that the bytes give.
fn rows_of_bytes(alloc: Global, bytes: &[u8], texts: &mut Texts) -> Result<Vec<Rule>, PolicyFault>
    ensures answers { AnswersRows texts.new result (RulesOf bytes.now) }
    ensures ids { IfOk result (λ rules. All (IsRule texts.new) rules.items) }
    ensures rules { IfOk result (λ rules. AreRules (map (rule_by texts.new) rules.items)) }
    ensures kept { KeepsIds texts.old texts.new }
{
    let file = match toml::table_from_slice(alloc, bytes) {
        Ok(file) => file,
        Err(error) => {
            if error.is_memory() {
                return Err(PolicyFault::NoMemory);
            }
            return Err(PolicyFault::Refused(PolicyKind::NotToml));
        }
    };
    read_file(alloc, &file, texts)
}

// What is wrong with the top level.
const TOP: PolicyFault = PolicyFault::Refused(PolicyKind::Field { row: 0 });

// The rules of a file that is TOML.
fn read_file(alloc: Global, file: &Table, texts: &mut Texts) -> Result<Vec<Rule>, PolicyFault>
    ensures answers { AnswersRows texts.new result (by_document (Some (table_view file.now))) }
    ensures ids { IfOk result (λ rules. All (IsRule texts.new) rules.items) }
    ensures rules { IfOk result (λ rules. AreRules (map (rule_by texts.new) rules.items)) }
    ensures kept { KeepsIds texts.old texts.new }
{
    if !has_top_fields(file) {
        return Err(TOP);
    }
    let sided = match document::sided(file) {
        Some(sided) => sided,
        None => return Err(TOP),
    };
    let rows = match document::rows(file) {
        Some(rows) => rows,
        None => return Err(TOP),
    };
    let rules = match read_rows(alloc, sided, rows, texts) {
        Ok(rules) => rules,
        Err(fault) => return Err(fault),
    };
    match conflict(alloc, &rules, texts)? {
        Some((first, second)) => Err(PolicyFault::Refused(PolicyKind::Conflict { first, second })),
        None => Ok(rules),
    }
}
