//! What happens to a node: one type of events, generic in how nodes are named and in what admits a device.
#![tactic(auto)]

mod event;
mod resolving;

pub use event::{Event, NodeEvent, Payload};
pub use resolving::{Names, Said, Unresolved, resolve};
