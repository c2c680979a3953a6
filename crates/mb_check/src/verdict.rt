// Whether a trap's answer stands.

/// What the rules of one method say of an answer. `Broken` has the number of the first rule that the answer breaks.
#[derive(Clone, Copy, Debug, PartialEq, Eq)]
pub enum Verdict {
    Pass,
    Broken(u8),
}
