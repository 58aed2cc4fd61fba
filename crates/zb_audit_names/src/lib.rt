//! Finds the node of each line of a transcript.
//!
//! Names distinguish nodes. A name's address, role and blocks are those of the first `0 node` line of that name. The
//! centre is the first node that is declared as one. The lines before a line say which node it names, so every
//! transcript has one meaning, whoever wrote it. The groups of a transcript, the longest runs of lines with one event
//! number, are defined here too.
#![tactic(auto)]

mod directory;
mod lines;
mod node;

pub use directory::{Directory, Known};
pub use lines::{event, speaker};
pub use node::{Node, Who};
