//! The rules of routers and devices: what they do of their own, and the commands that they take.
#![tactic(auto)]

mod application_key;
mod command;
mod confirm;
mod join;
mod leave;
mod link_key;
mod network_key;
mod parent;
mod talk;
mod timer;

pub use application_key::take_app_key;
pub use command::take_command;
pub use confirm::take_confirm;
pub use join::{knock, rejoin};
pub use leave::take_leave;
pub use link_key::take_link_key;
pub use network_key::{take_net_key, take_switch};
pub use parent::{child_of_router, take_remove, take_tunnel};
pub use talk::{ask, tell};
pub use timer::member_timer;
