//! The lines of a transcript and their text.
//!
//! A transcript has one line for each thing that a run of a network shows. These are the nodes at the start, the
//! changes of their stable states, what was accepted, refused and sealed, and what was sent. A line is words with one
//! space between them, and a line feed. The text determines the line: `zb_trace_read` reads it back.
#![tactic(auto)]

mod changes;
mod events;
mod line;
mod parts;
mod printing;
mod start;

pub use line::Line;
pub use printing::{put_line, text, write_line};
