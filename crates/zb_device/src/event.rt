//! What happens to a device.
use zb_core::NodeEvent;

/// What happens to a device. It refuses the events of the centre as policy.
pub type DeviceEvent = NodeEvent;
