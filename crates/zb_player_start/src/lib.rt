//! The start of a run: what each node of a schedule begins with, the start lines, and the nodes. Each node is booted
//! from its first record on a disk of its own.
#![tactic(auto)]

mod config;
mod disk;
mod line;
mod lines;
mod nodes;
mod spare;
mod starting;

pub use config::{centre_of, config_at};
pub use disk::first_disk;
pub use lines::tell_start;
pub use nodes::start_nodes;
pub use spare::Spare;
pub use starting::start_lines_say_what_is_declared;
