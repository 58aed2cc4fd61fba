//! What happens to the trust centre.
use zb_core::NodeEvent;

/// What happens to the trust centre. It refuses the events of routers and devices as policy.
pub type CentreEvent = NodeEvent;
