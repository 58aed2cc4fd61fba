//! What a device does at each event: the core of a device, and the plans that it shares with routers.
#![tactic(auto)]

mod device;
mod event;
mod member;

pub use device::{Device, DevicePolicy};
pub use event::DeviceEvent;
pub use member::plan_member;
pub use zb_core::{NodeCore, NodeEvent, Policy, PolicyCore};
