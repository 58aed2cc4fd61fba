//! The changes of a node's rows: a key is installed, offered, proved or shared, becomes active, or is dropped.
//!
//! Each call returns the changes of its rows in order, or the reason why there are none. None changes the tables or
//! takes memory: `Tables::apply` makes the changes.
#![tactic(auto)]

mod adding;
mod link_keys;
mod network_keys;
mod pairs;
mod proving;

pub use adding::{add, add_drop};
pub use link_keys::{add_offer, drop_partner, has_key, offer, partner, provision, row_refusal};
pub use network_keys::{add_active, install_net, switch};
pub use pairs::{add_pair, pair};
pub use proving::{is_proved, verified, verified_row, verify};
pub use zb_rows::{
    LinkRow, Tables, first_counter, floor_of, has_row_as, has_started, is_active_key, is_spent,
    link_of, net_of, usable_active,
};
