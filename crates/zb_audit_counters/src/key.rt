//! What is known about a network key of a node.
ghost use Rattle.std.specs.Prelude.{◌≡◌};
ghost use Rattle.zb_audit_counters.specs.Standing.{fresh_key};

use crate::outgoing::Outgoing;
use crate::versioned::Versioned;

/// What is known about a network key of a node.
#[derive(Clone, Copy)]
pub struct KeyCounters {
    /// Its outgoing counter.
    pub outgoing: Outgoing,
    /// Whether it has started.
    pub started: Versioned<bool>,
    /// The group of its last start line, by its first line; 0 if there was none.
    pub start: u32,
    /// The group of its last active line, by its first line; 0 if there was none.
    pub active: u32,
}

impl KeyCounters {
    /// Makes a key about which there is no line.
    pub fn new() -> KeyCounters
        ensures { result ≡ fresh_key }
    {
        KeyCounters {
            outgoing: Outgoing::new(),
            started: Versioned::new(false),
            start: 0,
            active: 0,
        }
    }
}
