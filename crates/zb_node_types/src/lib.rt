//! What may change of a node's stable state, and why an event is refused: the words that tables, hosts, policies and
//! transcripts share.
//!
//! Each change is one line of a transcript and, unless it is a draw, one item in the payload of a commit.
#![tactic(auto)]

mod change;
mod fault;
mod refusal;

pub use change::{Change, Changes};
pub use fault::KeyError;
pub use refusal::{Detail, Refusal};
