//! Places of a source: a file and a line in it, as one number. A type that tells where something stands in a source holds a place.
//!
//! A place is 2^24 times the number of its file, and its line. So a place in file 0 is its line alone. Lines count from 1; line 0
//! of file 0 stands for what is in no file. No file has 2^24 lines, and files are numbered from 0 to 63, so a place is below 2^30.
#![tactic(auto)]

mod file_line;
mod laws;

pub use file_line::{FILES_MAX, file_of, line_in, place};
pub use laws::a_place;
