//! The events of a run: whose they are, what the node does, and what is told of it. A ledger keeps what was told; each
//! event of a node goes over its disk, and those of the outside put frames on the air.
#![tactic(auto)]

mod acts;
mod frames;
mod ledger;
mod node_events;
mod outside;
mod seats;

pub use acts::Act;
pub use frames::{aps_command, clear_frame, forged_control, nwk_frame, sealed};
pub use ledger::Ledger;
pub use seats::{Seat, Seats};
pub use zb_player_node::{Node, NodePlan};
