//! Work that several jobs do in parallel: how it is cut into shares, where the shares meet, how the jobs start, and
//! how their results are gathered.
#![tactic(auto)]

mod gate;
mod gathering;
mod idle;
mod share;

pub use gate::{Gate, NoGate};
pub use gathering::gather;
pub use idle::IdleThread;
pub use share::{Share, shares};
