// How lines are told.

/// Which lines there are, and how they name sides.
#[derive(Clone, Copy, Debug)]
pub struct Style {
    /// With the entries of the trace.
    pub traced: bool,
    /// By the letters A to H, in place of L and R.
    pub lettered: bool,
}
