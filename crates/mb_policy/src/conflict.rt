// The first two rows that conflict.
ghost use Rattle.std.specs.Prelude.{◌≡◌, ◌+◌, ◌<◌, ◌≤◌, [], All, IfOk, IfSome, length, map};
ghost use Rattle.std.specs.List.{position_from};
ghost use Rattle.mb_text.specs.Texts.{AreDistinct};
ghost use Rattle.mb_policy.specs.Conflicts.{conflict_in, first_pair};
ghost use Rattle.mb_policy.specs.Rules.{rule_by, IsRule};
ghost use Rattle.mb_policy.specs.machine.Chains.{clash as rules_clash, first_clash_at, AreLinks};

use crate::chain::{clash, has_clash, note};
use indexmap::IndexMap;
use mb_base::NoMemory;
use mb_text::Texts;
use mb_world::Rule;
use std::alloc::Global;

// The numbers of the first two rows that conflict, counted from 1. The time is linear in the rows: of rows that name
// one key of one label, as many as there are pairs of sides are looked at before two of them conflict.
pub(crate) fn conflict(
    alloc: Global,
    rules: &[Rule],
    texts: &Texts,
) -> Result<Option<(u32, u32)>, NoMemory>
    requires few { length rules.now ≤ 1000 }
    requires ids { All (IsRule texts.now) rules.now }
    ensures { IfOk result (λ pair. pair ≡ conflict_in (map (rule_by texts.now) rules.now)) }
{
    has_each_once(texts);
    first_conflict(alloc, rules)
}

// A text stands in its table once.
fn has_each_once(texts: &Texts)
    ensures { AreDistinct texts.now }
{
    let _ = texts.find(&[]);
}

// The same by ids.
fn first_conflict(alloc: Global, rules: &[Rule]) -> Result<Option<(u32, u32)>, NoMemory>
    requires { length rules.now ≤ 1000 }
    ensures { IfOk result (λ pair. pair ≡ first_pair rules_clash [] rules.now) }
{
    let mut latest = IndexMap::new(alloc);
    let mut links = Vec::new(alloc);
    for place in 0..rules.len() {
        let link = note(&mut latest, &rules[place], place)?;
        links.push(link)?;
        match first_before(rules, &links, place) {
            Some(first) => return Ok(Some((first as u32, place as u32 + 1))),
            None => {}
        }
    }
    Ok(None)
}

// The number of the first rule that conflicts with the one at that place.
fn first_before(rules: &[Rule], links: &[Option<usize>], place: usize) -> Option<usize>
    requires within { place < length rules.now }
    requires linked { length links.now ≡ place + 1 }
    requires links { AreLinks rules.now links.now }
    ensures first { result ≡ first_clash_at rules.now place }
    ensures before { IfSome result (λ n. n ≤ place) }
{
    if has_clash(rules, links, place) {
        first_against(&rules[..place], &rules[place])
    } else {
        None
    }
}

// The number of the first rule that conflicts with another.
fn first_against(rules: &[Rule], rule: &Rule) -> Option<usize>
    ensures first { result ≡ position_from (λ other. rules_clash other rule.now) 1 rules.now }
    ensures within { IfSome result (λ n. n ≤ length rules.now) }
{
    for place in 0..rules.len() {
        if clash(&rules[place], rule) {
            return Some(place + 1);
        }
    }
    None
}
