//! Checks whether the counters of a transcript add up, whoever wrote it. Seals use the next counter. Reserves and
//! floors are a block ahead, and are made when they are required. A network key starts when it first becomes active.
//!
//! A transcript is read line by line, and no line is kept. For each thing the last line about it decides. Most
//! readings are those before the group of the line, which is the lines of the same event around it. So each value is
//! kept twice, as it was before the group and as it is now. Nothing is done for that when a group ends: the group in
//! which a value was last set says which of the two counts. A line that depends on later ones, such as a reserve,
//! which needs a seal, waits for the end of the group.
#![tactic(auto)]

pub mod counters;
pub mod floor;
pub mod judgement;
pub mod key;
pub mod layer;
mod lines;
pub mod outgoing;
pub mod recount;
pub mod versioned;

pub use recount::Recount;
