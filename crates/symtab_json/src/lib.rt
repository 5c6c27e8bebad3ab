//! The symbol file: the parts of a symbol table as JSON, written and read.
#![tactic(auto)]

mod entries;
mod fault;
mod fields;
mod first_pass;
mod json_number;
mod judged;
mod laws;
mod literal;
mod numbers;
mod parts;
mod preface;
mod quoted;
mod read;
mod readings;
mod tokens;
mod told;
mod written;

pub use fault::{Part, TableFault};
pub use laws::{
    files_read_back, literals_are_shown, tables_are_told, versions_tell_one_table,
    writes_the_sample,
};
pub use quoted::push_quoted;
pub use read::read_table;
pub use written::write_table;
