//! What a session walks, where all of a demo is accepted.

use design_judge::Accepted;
use stim_text::Stim;
use world_core::Mode;

/// The mode, how many cells the chain has, its design, the stimulus of its ports, and the requests.
#[derive(Drop)]
pub(crate) struct Walk {
    pub(crate) mode: Mode,
    pub(crate) number: u16,
    pub(crate) accepted: Accepted,
    pub(crate) stim: Stim,
    pub(crate) requests: Vec<u8>,
}
