//! Made schedules, one for each start value and number of nodes. In it all nodes join, then random steps are made, and
//! the network key is rolled over. All comes from the words of a generator.
#![tactic(auto)]

mod codes;
mod lines;
mod made;
mod maker;
mod steps;
mod words;

pub use made::make;
pub use maker::GenFault;
