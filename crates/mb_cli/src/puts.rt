// Lines, each by one put.
ghost use Rattle.std.specs.Prelude.{◌≡◌, ◌≤◌, ◌++◌, ℕ, List, Some, length};
ghost use Rattle.std.specs.List.{concat};
ghost use Rattle.mb_outer.specs.Causes.{IsRaised};
ghost use Rattle.mb_cli.specs.machine.Lines.{contents_of, IsPrefix};

use mb_outer::{Put, Sink};

// Puts the lines in order. After a failure a prefix of their bytes was put.
pub fn put_lines<K: Sink>(lines: &[Vec<u8>], sink: &mut K) -> Put
    ensures later { K.faults sink.old ≤ K.faults sink.new }
    ensures all { result ≡ Put.All → K.faults sink.new ≡ K.faults sink.old }
    ensures failed { result ≡ Put.Failed → IsRaised (K.faults sink.old) (K.faults sink.new) }
    ensures text { (taken : List ℕ) → K.taken sink.old ≡ Some taken → result ≡ Put.All
        → K.taken sink.new ≡ Some (taken ++ concat (contents_of lines.now)) }
    ensures front { (taken : List ℕ) → K.taken sink.old ≡ Some taken
        → (front : List ℕ) × IsPrefix front (concat (contents_of lines.now))
        × (K.taken sink.new ≡ Some (taken ++ front)) }
    ensures never { (room : ℕ) → K.room sink.old ≡ Some room
        → length (concat (contents_of lines.now)) ≤ room → result ≡ Put.All }
{
    for line in lines {
        match sink.put(line.as_slice()) {
            Put::All => {}
            Put::Failed => return Put::Failed,
        }
    }
    Put::All
}
