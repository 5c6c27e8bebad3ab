//! The tokens of the language: what they are, and how a text is taken apart into them.
#![tactic(auto)]

mod bytes;
mod fault;
mod keyword;
mod laws;
mod lexer;
mod mark;
mod name;
mod number;
mod token;

pub use bytes::first_other_byte;
pub use fault::TokenFault;
pub use keyword::Keyword;
pub use laws::{longest, one_list, placed_tokens};
pub use lexer::{skip, token_at, tokens_of};
pub use mark::Mark;
pub use name::is_name;
pub use token::{Placed, Token};
