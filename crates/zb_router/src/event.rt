//! What happens to a router.
use zb_device::NodeEvent;

/// What happens to a router. It refuses the events of the centre as policy.
pub type RouterEvent = NodeEvent;
