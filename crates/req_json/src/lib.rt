//! The texts of requests, replies and notices, in JSON.
//!
//! A request is read from any bytes: what it asks, or the first reason why it asks nothing. Replies and notices are written. What
//! each text is stands in `specs/`: `Asked` has requests and the table of commands, and `Replies` and `Notices` have
//! the trees whose compact text is written. What other texts in JSON need too is public: objects, values, and what stands under a key.
#![tactic(auto)]

mod cmd_row;
mod field;
mod laws;
mod notice;
mod object;
mod reply;
mod request;
mod under;
mod value;

pub use laws::{
    notices_are_told, notices_read_back, replies_are_told, replies_read_back, requests_are_asked,
    texts_tell_apart,
};
pub use notice::notice_text;
pub use object::{Object, object_of_one, object_of_two};
pub use reply::{body_refusal, reply_text};
pub use request::read_request;
pub use under::{count_under, json_of, optional_text_under, text_under};
pub use value::{Compact, push_comma};
