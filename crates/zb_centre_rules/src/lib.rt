//! The rules of the trust centre: what its operator asks of it, and the commands that it takes.
#![tactic(auto)]

mod admission;
mod child;
mod command;
mod pair;
mod removal;
mod request;
mod rollover;
mod update;
mod verify;

pub use admission::provision;
pub use child::child_of_centre;
pub use command::take_command;
pub use pair::{share, take_app_request};
pub use removal::remove_device;
pub use request::take_request;
pub use rollover::{again, centre_timer, roll, switch_over};
pub use update::take_update;
pub use verify::take_verify;
