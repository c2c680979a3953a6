// The rules on the list of keys that a trap of ownKeys gave.
ghost use Rattle.std.specs.Prelude.{◌≡◌, ◌↔◌, ◌++◌, IsTrue};
ghost use Rattle.std.specs.List.Sorted.{IsSorted};
ghost use Rattle.mb_check.specs.Keys.{is_among, all_among, are_distinct};
ghost use Rattle.mb_check.specs.Rules as rule;
ghost use Rattle.mb_check.specs.Values.{same_key};

use crate::Verdict;
use mb_base::Key;

/// ownKeys (ECMA-262, 10.5.11): the trap gave the keys `said`; the target has the keys `fixed` of properties that
/// aren't configurable, and the keys `loose` of the others. The rules are 21, on keys that stand twice, 22 and 23.
///
/// The answer doesn't depend on the order of the keys in any list. Where each list ascends, the time is n log n in the
/// number of keys, and else up to its square; so sort the lists before the call.
pub fn own_keys(said: &[Key], fixed: &[Key], loose: &[Key], extensible: bool) -> Verdict
    ensures { result ≡ rule.own_keys same_key said.now fixed.now loose.now extensible }
{
    let ascending = is_ascending(said) && is_ascending(fixed) && is_ascending(loose);
    if !are_distinct(said, ascending) {
        Verdict::Broken(21)
    } else if !all_among(fixed, said, ascending) {
        Verdict::Broken(22)
    } else if !extensible
        && !(all_among(loose, said, ascending) && all_own(said, fixed, loose, ascending))
    {
        Verdict::Broken(23)
    } else {
        Verdict::Pass
    }
}

// The keys stand in ascending order.
fn is_ascending<K: Ord>(keys: &[K]) -> bool
    ensures { IsTrue result ↔ IsSorted K.cmp keys.now }
{
    keys.is_sorted()
}

// No key stands twice.
fn are_distinct<K: Ord>(keys: &[K], ascending: bool) -> bool
    requires { IsTrue ascending → IsSorted K.cmp keys.now }
    ensures { result ≡ are_distinct K.eq keys.now }
{
    let mut rest = keys;
    while let Some((key, others)) = rest.split_first() {
        if is_among(key, others, ascending) {
            return false;
        }
        rest = others;
    }
    true
}

// Each key is one of the others.
fn all_among<K: Ord>(keys: &[K], others: &[K], ascending: bool) -> bool
    requires { IsTrue ascending → IsSorted K.cmp others.now }
    ensures { result ≡ all_among K.eq keys.now others.now }
{
    keys.iter().all(|key| is_among(key, others, ascending))
}

// Each key is one of the target's.
fn all_own<K: Ord>(keys: &[K], fixed: &[K], loose: &[K], ascending: bool) -> bool
    requires fixed { IsTrue ascending → IsSorted K.cmp fixed.now }
    requires loose { IsTrue ascending → IsSorted K.cmp loose.now }
    ensures { result ≡ all_among K.eq keys.now (fixed.now ++ loose.now) }
{
    keys.iter().all(|key| is_own(key, fixed, loose, ascending))
}

// The key is one of the target's.
fn is_own<K: Ord>(key: &K, fixed: &[K], loose: &[K], ascending: bool) -> bool
    requires fixed { IsTrue ascending → IsSorted K.cmp fixed.now }
    requires loose { IsTrue ascending → IsSorted K.cmp loose.now }
    ensures { result ≡ is_among K.eq key.now (fixed.now ++ loose.now) }
{
    is_among(key, fixed, ascending) || is_among(key, loose, ascending)
}

// The key is one of the others.
fn is_among<K: Ord>(key: &K, others: &[K], ascending: bool) -> bool
    requires { IsTrue ascending → IsSorted K.cmp others.now }
    ensures { result ≡ is_among K.eq key.now others.now }
{
    if ascending {
        others.binary_search(key).is_ok()
    } else {
        others.contains(key)
    }
}
