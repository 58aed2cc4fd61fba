//! The tables of a node: its network keys with their floors, its link keys, its counters and, at the centre, the keys
//! of pairs of devices.
#![tactic(auto)]

mod boot;
mod contents;
mod declaration;
mod first;
mod fitting;
mod places;
mod reading;
mod record;
mod redo;
mod restore;
mod tables;

pub use declaration::{Declaration, HeldCode, HeldNetwork, start_lines_give_the_first_state};
pub use reading::floor_of;
pub use tables::Tables;
pub use zb_base::{Attribute, Rollover, State};
pub use zb_node_types::{Change, Changes, KeyError, Refusal};
pub use zb_record::{LinkRow, NetRow, Pair, SenderFloor};
