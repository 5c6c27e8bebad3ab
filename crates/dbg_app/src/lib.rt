//! The program: its words, and what it writes for them.
#![tactic(auto)]

mod arguments;
mod command;
mod dap;
mod demo;
mod halt;
mod judge;
mod number;
mod offer;
mod program;
mod replay;
mod requests;
mod serving;
mod shown;
mod write;

pub use dap::{is_dap, run_dap};
use halt::Halt;
pub use offer::address_of;
pub use program::{Ended, run};
pub use project_read::{ProjectEnd, read_project};
pub use serving::{Many, serve};
