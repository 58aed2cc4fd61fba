//! From what was decided of an event to its whole plan: reserves and floors, the changes that change something, first
//! counters, seals and the frame.
#![tactic(auto)]

mod floors;
mod plan;
mod reserves;
mod settling;

pub use plan::{forget, plan_of, plan_own, plan_refusal, plan_say};
