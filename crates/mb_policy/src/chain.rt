// Rules linked by the label and the key that they name.
ghost use Rattle.std.specs.Prelude.{◌≡◌, ◌+◌, ◌<◌, ℕ, false, length, slice_get, Some, IfOk};
ghost use Rattle.std.specs.List.{list_any};
ghost use Rattle.mb_world.specs.Image.{side_in};
ghost use Rattle.mb_world.specs.View.{means_side};
ghost use Rattle.mb_policy.specs.Conflicts.{means_pair as pair_meant, all_sides};
ghost use Rattle.mb_policy.specs.machine.Chains.{name_of as rule_name, has_viewer as viewer_of, meet_by, clash as rules_clash, clash_at, AreLinks, Notes};

use indexmap::IndexMap;
use mb_base::{NoMemory, Side, StrId};
use mb_world::{Rule, RuleKind};

// A label and a key of it.
#[derive(Clone, Copy, Debug, PartialEq, Eq, Hash)]
pub(crate) struct Named {
    label: StrId,
    key: StrId,
}

const SIDES: [u8; 8] = [0, 1, 2, 3, 4, 5, 6, 7];

// Notes the rule at its place, and gives the place of the last rule before it of the same name.
pub(crate) fn note(
    latest: &mut IndexMap<Named, usize>,
    rule: &Rule,
    place: usize,
) -> Result<Option<usize>, NoMemory>
    ensures { IfOk result (Notes latest.old.entries latest.new.entries (rule_name rule.now) place) }
{
    match name_of(rule) {
        Some(name) => Ok(latest.insert(name, place)?),
        None => Ok(None),
    }
}

fn name_of(rule: &Rule) -> Option<Named>
    ensures { result ≡ rule_name rule.now }
{
    match rule.kind {
        RuleKind::Hide(key) | RuleKind::Substitute(key, _) => Some(Named {
            label: rule.label,
            key,
        }),
        RuleKind::ReadOnly | RuleKind::Revoke => None,
    }
}

// Whether a rule before that place may conflict with the one there: it follows the links.
pub(crate) fn has_clash(rules: &[Rule], links: &[Option<usize>], place: usize) -> bool
    requires within { place < length rules.now }
    requires linked { length links.now ≡ place + 1 }
    requires links { AreLinks rules.now links.now }
    ensures { result ≡ false → (p : ℕ) → p < place → clash_at rules.now p place ≡ false }
{
    let mut next = links[place];
    'links: loop {
        let earlier = match next {
            Some(earlier) => earlier,
            None => return false,
        };
        if clash(&rules[earlier], &rules[place]) {
            return true;
        }
        next = links[earlier];
    }
}

// Whether the two rules conflict.
pub(crate) fn clash(a: &Rule, b: &Rule) -> bool
    ensures { result ≡ rules_clash a.now b.now }
{
    match (name_of(a), name_of(b)) {
        (Some(one), Some(other)) => one.label.0 == other.label.0
            && one.key.0 == other.key.0
            && meet(a, b),
        _ => false,
    }
}

// Whether both rules mean one owner, as one other side sees its objects.
fn meet(a: &Rule, b: &Rule) -> bool
    ensures { result ≡ meet_by a.now b.now }
{
    SIDES.iter().any(|owner| has_viewer(a, b, *owner))
}

fn has_viewer(a: &Rule, b: &Rule, owner: u8) -> bool
    ensures { result ≡ viewer_of a.now b.now owner }
{
    SIDES.iter().any(|viewer| means_pair(a, owner, *viewer) && means_pair(b, owner, *viewer))
}

// Whether the rule means that owner, and that other side as viewer.
fn means_pair(rule: &Rule, owner: u8, viewer: u8) -> bool
    ensures { result ≡ pair_meant (side_in rule.now.owner) (side_in rule.now.viewer) owner viewer }
{
    owner != viewer && means(rule.owner, owner) && means(rule.viewer, viewer)
}

fn means(side: Option<Side>, number: u8) -> bool
    ensures { result ≡ means_side (side_in side) number }
{
    match side {
        Some(side) => side.0 == number,
        None => true,
    }
}
