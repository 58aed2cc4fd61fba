//! What a delivered frame leads to: it is judged, its command is taken by the rule of the node's role, and the plan is
//! made after what was accepted.
#![tactic(auto)]

mod content;
mod delivery;
mod judging;
mod received;

pub use delivery::plan_received;
pub use zb_centre_rules::{
    again, centre_timer, child_of_centre, provision, remove_device, roll, share, switch_over,
};
pub use zb_member_rules::{ask, child_of_router, knock, member_timer, rejoin, tell};
pub use zb_rules::{Effect, say};
