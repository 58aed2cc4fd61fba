//! The questions that the rules of the policy ask of a node's tables, and the changes of rows that several rules make.
//!
//! Each call returns the value of one definition of the model for a node's state. None changes the tables.
#![tactic(auto)]

mod counters;
mod links;
mod moves;
mod nets;
mod senders;

pub use counters::{
    Drawn, draw_number, first_counter, has_started, is_any_spent, is_spent, next_counter,
};
pub use links::{
    code_row, has_link, has_row_as, is_known, is_live, is_told, link_of, links_full, live_link,
    other_user, pairs_full, unless_held, uses_key,
};
pub use moves::{add_drop_old, add_drop_others, add_drop_partner};
pub use nets::{
    activates, dropped_place, has_net, is_active_key, live_of, may_use, net_of, nets_full,
    usable_active, usable_of,
};
pub use senders::is_full_for;
pub use zb_keys::{LinkRow, NetRow, Tables, floor_of};
