//! What a node sends: from what is to be sent to the sealed terms and the bytes of the frame.
#![tactic(auto)]

mod headers;
mod part;
mod sending;
mod sent;
mod terms;

pub use headers::{Head, joined, nwk_header};
pub use sending::{Body, Payload, Sending, copied};
pub use sent::{may_seal, reserve, send_out};
pub use terms::{CLEAR, COMMAND, SECURED, command_term, nwk_term};
