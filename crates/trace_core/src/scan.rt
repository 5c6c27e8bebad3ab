//! The words of a search through time: which way, for what, and what it found. Searches of several crates answer in these.

/// What a seek answers.
#[derive(Clone, Copy, PartialEq, Eq)]
pub enum Seek {
    /// The cursor stands at the cycle.
    At,
    /// There is no such cycle, and the cursor stands where it stood.
    OutOfRange,
}

/// The direction in which positions are searched.
#[derive(Clone, Copy, PartialEq, Eq)]
pub enum Way {
    Forward,
    Backward,
}

/// What is searched for.
#[derive(Clone, Copy, PartialEq, Eq)]
pub enum Want {
    /// A position where an armed breakpoint matches.
    Breakpoints,
    /// A position with a thread: with this instance as one, where an instance is given.
    Step(Option<u32>),
}

/// What a search for a position answers.
#[derive(Clone, Copy, PartialEq, Eq)]
pub enum Scanned {
    /// The nearest position that matches.
    Hit(i64),
    /// None matches before the end, or before the start where the way is backward.
    Edge,
    /// None matches among those that one search looks at, and there are more.
    Nowhere,
}
