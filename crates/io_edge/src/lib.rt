//! What a program works on outside of it: files to read, input to take and a sink to write to, by what they mean.
//!
//! The traits tell their meanings where they can: the forms in memory tell them all, and the adapters over the system
//! tell nothing of content.
#![tactic(auto)]

mod bounded;
mod files;
mod memory_files;
mod memory_sink;
mod memory_source;
mod sink;
mod sink_end;
mod source;
mod system;
mod waiting_text;
mod words;

pub use bounded::{MOST_BYTES, MOST_REQUESTS, MOST_SOURCE, ReadEnd, read_file};
pub use files::{FileEnd, Files};
pub use memory_files::MemFiles;
pub use memory_sink::MemSink;
pub use memory_source::MemSource;
pub use sink::{Failed, Sink};
pub use sink_end::SinkEnd;
pub use source::{MOST_PIECE, Source, SourceEnd};
pub use system::{StdFiles, StdSink, StdSource};
pub use waiting_text::{put_all, put_long};
pub use words::Words;
