//! What is known about a node at one layer.
ghost use Rattle.std.specs.Prelude.{◌≡◌};
ghost use Rattle.zb_audit_counters.specs.Standing.{fresh_layer};

use crate::versioned::Versioned;

/// What is known about a node at one layer, except its outgoing counters.
#[derive(Clone, Copy)]
pub struct LayerCounters {
    /// The outgoing counter that was declared for the start.
    pub declared: Versioned<u32>,
    /// The group of the last reserve line, by its first line; 0 if there was none.
    pub reserved: u32,
    /// The group of the last seal, by its first line; 0 if there was none.
    pub sealed: u32,
}

impl LayerCounters {
    /// Makes a layer about which there is no line.
    pub fn new() -> LayerCounters
        ensures { result ≡ fresh_layer }
    {
        LayerCounters {
            declared: Versioned::new(0),
            reserved: 0,
            sealed: 0,
        }
    }
}
