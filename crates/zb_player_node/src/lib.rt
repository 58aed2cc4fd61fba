//! A node of a run: the host of its role while it has power, over a disk in memory on which a stop or a failure may be
//! armed.
#![tactic(auto)]

mod law;
mod machine;
mod node;

pub use law::{a_host_has_power, a_later_event, another_disk_sets_the_condition};
pub use machine::{Machine, NodePlan};
pub use node::{Handled, Node};
pub use zb_core::NodeEvent;
