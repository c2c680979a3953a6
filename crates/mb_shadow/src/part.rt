// The parts of what is seen.
use mb_base::Key;

/// A part of what is seen through a proxy: the property of one key, or all of it.
#[derive(Clone, Copy, Debug, PartialEq, Eq)]
pub enum Part {
    Key(Key),
    Whole,
}
