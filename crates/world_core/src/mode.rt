//! Which expressions optimisation keeps. It decides what is `removed`, and nothing else.

/// Which expressions are kept for the debugger.
#[derive(Clone, Copy, PartialEq, Eq)]
pub enum Mode {
    /// Those that outputs, enables and registers need.
    Opt,
    /// Those of every name as well.
    Keep,
}
