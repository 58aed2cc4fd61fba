//! What the rules of all roles share: the effect of a rule, the form in which a command came, lists of changes, and
//! the rule of `say`.
#![tactic(auto)]

mod effect;
mod heard;
mod refusing;
mod saying;

pub use effect::{Effect, sending};
pub use heard::Heard;
pub use refusing::refused;
pub use saying::{is_rejoining, may_say, say, sending_data};
pub use zb_row_changes::{
    add, add_drop, first_counter, floor_of, has_row_as, has_started, is_active_key, link_of, net_of,
};
pub use zb_send::{Sending, reserve, send_out};
