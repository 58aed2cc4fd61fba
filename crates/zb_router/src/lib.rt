//! The core of a router. It plans each event as a device does, and has children too.
#![tactic(auto)]

mod event;
mod router;

pub use event::RouterEvent;
pub use router::{Router, RouterPolicy};
pub use zb_device::{Device, DeviceEvent};
