// Counts of calls and faults, which stay at their end.
ghost use Rattle.std.specs.Prelude.{◌≡◌, ◌≤◌, IsTrue, false, None, nat_eq};
ghost use Rattle.mb_outer.specs.Causes.{IsRaised};
ghost use Rattle.mb_outer.specs.Counts.{one_more, names_next, next_of, none_above};
ghost use Rattle.std.specs.Map.{keys_of, lookup};

pub(crate) fn count_fault(faults: &mut u64)
    ensures exact { faults.new ≡ one_more faults.old }
    ensures rose { (faults.old ≤ faults.new) × IsRaised faults.old faults.new }
{
    *faults = faults.saturating_add(1);
}

// Counts the call that begins, and tells whether it is to fail. At the end of the count no call
// has a number of its own, so none is.
#[tactic(auto, using(crate::proofs::Numbers::sound_calls))]
pub(crate) fn count_call(calls: &mut u64, failing: &[u64]) -> bool
    ensures exact { calls.new ≡ one_more calls.old }
    ensures fails { result ≡ names_next failing.now calls.old }
    ensures sound { IsTrue (none_above failing.now calls.old) → result ≡ false }
    ensures kept { IsTrue (none_above failing.now calls.old)
        → IsTrue (none_above failing.now calls.new) }
{
    match calls.checked_add(1) {
        Some(number) => {
            *calls = number;
            failing.contains(&number)
        }
        None => false,
    }
}

// Counts the put that begins, and finds what the first pair of its number says.
#[tactic(auto, using(crate::proofs::Numbers::sound_calls))]
pub(crate) fn count_put(puts: &mut u64, failing: &[(u64, usize)]) -> Option<usize>
    ensures exact { puts.new ≡ one_more puts.old }
    ensures cut { result ≡ next_of failing.now puts.old }
    ensures sound { IsTrue (none_above (keys_of failing.now) puts.old) → result ≡ None }
    ensures kept { IsTrue (none_above (keys_of failing.now) puts.old)
        → IsTrue (none_above (keys_of failing.now) puts.new) }
{
    let number = puts.checked_add(1)?;
    *puts = number;
    first_of(failing, number)
}

// What the first pair of that number says.
fn first_of(pairs: &[(u64, usize)], number: u64) -> Option<usize>
    ensures { result ≡ lookup (nat_eq number) pairs.now }
{
    let pair = pairs.iter().find(|pair| pair.0 == number)?;
    Some(pair.1)
}
