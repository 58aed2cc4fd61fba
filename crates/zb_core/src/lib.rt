//! What the cores of the three roles share: what a node knows of its network, its tables, and the base keys that it
//! used last. A core decides what an event leads to; this crate carries the plan out.
#![tactic(auto)]

mod carrying;
mod law;
mod node;
mod policy;

pub use law::{an_answer_can_be_stored, an_answer_leads_to_the_state_that_the_policy_says};
pub use node::NodeCore;
pub use policy::{Policy, PolicyCore};
pub use zb_event::NodeEvent;
pub use zb_plan::{plan_own, plan_say};
