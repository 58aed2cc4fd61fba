//! Frame counters that outlive a reset: a node uses each outgoing number once and takes each incoming number once.
//!
//! A node reserves outgoing numbers in blocks. The end of the block is stored before its first number is used, and
//! after a boot the node continues from there. It stores a floor for each sender in the same way.
#![tactic(auto)]

mod receiving;
mod sending;

pub use receiving::{Floor, Judge};
pub use sending::{Draw, Outgoing};
