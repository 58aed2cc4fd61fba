//! Reads transcripts: the lines of a text, or the number of its first line that isn't a line of a transcript.
#![tactic(auto)]

mod changes;
mod fault;
mod fields;
mod happenings;
mod nobodys;
mod parts;
mod reading;
mod start;

pub use fault::TraceError;
pub use reading::{no_line, read_lines, take_into, take_line};
