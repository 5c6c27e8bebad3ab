//! What a listener is told of a stop: numbers alone, so that a listener sees no more of a session than this.

/// What a listener is told of a stop: the cycle, from 0; the slot, from 0; its line in the source, from 1; how many instances
/// are threads there; and how many armed watches match there.
#[derive(Clone, Copy, PartialEq, Eq)]
pub struct StopNote {
    pub cycle: u64,
    pub slot: u32,
    pub line: u32,
    pub threads: u32,
    pub watches: u32,
}
