// The rules of the policy.
ghost use Rattle.std.specs.Prelude.{◌≡◌, [], IfOk};
ghost use Rattle.mb_world.specs.Data.{labelled};
ghost use Rattle.mb_world.specs.machine.Grouped.{AreGrouped};

use mb_base::{NoMemory, Side, StrId, Value};
use std::alloc::{AllocError, Global};
use std::marker::Model;

/// What a rule does to the objects that it is for.
#[derive(Clone, Copy, Debug, PartialEq, Eq)]
pub enum RuleKind {
    Hide(StrId),
    ReadOnly,
    Substitute(StrId, Value),
    Revoke,
}

/// A rule for the objects of a label that a side owns, as another side sees them. Where it names no owner or no
/// viewer it means every side.
#[derive(Clone, Copy, Debug, PartialEq, Eq)]
pub struct Rule {
    pub label: StrId,
    pub kind: RuleKind,
    pub owner: Option<Side>,
    pub viewer: Option<Side>,
}

/// The rules, in the order of the file. Those for a label are found by a binary search.
#[derive(Debug, Drop)]
pub struct Rules {
    rows: Vec<Rule>,
    // the same rules, by their labels
    grouped: Vec<Rule>,
}

impl Model for Rules {
    ghost use Rattle.std.specs.Prelude.{List};
    ghost use Rattle.mb_world.specs.declared.rule.Rule.{Rule};
    ghost use Rattle.mb_world.specs.machine.Grouped.{AreGrouped};

    ghost Value = { List Rule };

    ghost view = { λ rules. rules.rows.items };

    ghost invariant = { λ rules. AreGrouped rules.rows.items rules.grouped.items };
}

impl Rules {
    /// No rules.
    pub fn none(alloc: Global) -> Rules
        ensures { result ≡ [] }
    {
        Rules {
            rows: Vec::new(alloc),
            grouped: Vec::new(alloc),
        }
    }

    /// These rules. The time is that of a sort.
    pub fn new(alloc: Global, rows: Vec<Rule>) -> Result<Rules, NoMemory>
        ensures { IfOk result (λ rules. rules ≡ rows.items) }
    {
        let grouped = by_label(alloc, &rows)?;
        Ok(Rules { rows, grouped })
    }

    /// The rules, in the order of the file.
    pub fn rows(&self) -> &[Rule]
        ensures { result.now ≡ self.now }
    {
        &self.rows
    }

    /// The rules for a label, in the order of the file.
    pub fn labelled(&self, label: StrId) -> &[Rule]
        ensures { result.now ≡ labelled label self.now }
    {
        let from = self.grouped.partition_point(|rule| rule.label.0 < label.0);
        let to = self.grouped.partition_point(|rule| rule.label.0 <= label.0);
        &self.grouped[from..to]
    }
}

// The rules by their labels, those of one label in the order of the file.
fn by_label(alloc: Global, rows: &[Rule]) -> Result<Vec<Rule>, NoMemory>
    ensures { IfOk result (λ grouped. AreGrouped rows.now grouped.items) }
{
    let mut grouped = copied(alloc, rows)?;
    grouped.sort_by_key(|rule| rule.label.0)?;
    Ok(grouped)
}

fn copied(alloc: Global, rows: &[Rule]) -> Result<Vec<Rule>, AllocError>
    ensures { IfOk result (λ copy. copy.items ≡ rows.now) }
{
    rows.iter().copied().collect(alloc)
}
