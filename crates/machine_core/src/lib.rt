//! The machine that a debugger is: what it is asked and what it answers, and the definitions of what each answer is.
//!
//! The machine walks the positions of a world. It is defined in `specs/`: `Positions` has the positions and those that lie ahead, `Matching` what a
//! position matches, `Search` what a search finds, `Arming` when a breakpoint or a watch is armed, `Machine` its state, its turns and its answers,
//! `Journal` what a list of requests and turns puts out, and `Numbers` which numbers breakpoints and watches get. It knows nothing of where a world
//! comes from, and nothing of the texts of requests and replies.
#![tactic(auto)]

mod found;
mod laws;
mod reply;
mod request;
mod turn;
mod utf8;

pub use found::{Found, place_of, told};
pub use laws::{
    batch_a_is_debugged, batches_end, moves_by_turns_alone, numbers_are_given_once,
    refused_requests_change_nothing, runs_to_the_nearest, same_worlds_answer_alike, searches_join,
    table_f_is_debugged, texts_have_one_reading, turns_by_search, watches_are_debugged,
};
pub use reply::{At, Body, Going, Reply, Shown};
pub use request::{Asked, BadText, Cmd, Request};
pub use turn::{Motion, Notice, Turned};
pub use utf8::Utf8;
