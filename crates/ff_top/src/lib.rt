//! The top call: from words and a source of bytes to a text in a sink and a status.
#![tactic(auto)]

mod check;
mod command;
mod input;
mod list;
mod order;
mod refusal;
mod status;
mod top;
mod word;

pub use status::Status;
pub use top::run;
pub use word::{ByteList, Word};
