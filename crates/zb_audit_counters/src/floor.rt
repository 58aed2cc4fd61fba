//! What is known about a sender that a node hears.
ghost use Rattle.std.specs.Prelude.{◌≡◌, ◌∷◌, []};
ghost use Rattle.zb_audit_counters.specs.Counting.{floor_fits};
ghost use Rattle.zb_audit_counters.specs.Standing.{before_of, calls, fits_all, fresh_floor, with_accepted};

use crate::outgoing::ahead;
use crate::versioned::Versioned;
use zb_base::{Eui, Key, Layer};

/// The sender of frames at a layer under a key.
///
/// The key comes last, because two senders mostly differ in their address.
#[derive(Clone, Copy, PartialEq, Eq, PartialOrd, Ord)]
pub struct Sender {
    /// The EUI of the sender.
    pub eui: Eui,
    /// The layer.
    pub layer: Layer,
    /// The base key.
    pub key: Key,
}

/// What is known about a sender that a node hears.
#[derive(Clone, Copy)]
pub struct Floor {
    /// The stored floor.
    pub stored: Versioned<u32>,
    /// The group of its last accepted frame, by its first line; 0 if there was none.
    pub accepted: u32,
    /// The least counter that this group accepts.
    pub least: u32,
    /// The greatest counter that it accepts.
    pub greatest: u32,
}

impl Floor {
    /// Makes the floor of a sender about which there is no line.
    pub fn new() -> Floor
        ensures { result ≡ fresh_floor }
    {
        Floor {
            stored: Versioned::new(0),
            accepted: 0,
            least: 0,
            greatest: 0,
        }
    }

    /// Notes the counter of an accepted frame. A floor that is right for the least and the greatest counter of a
    /// group is right for all between.
    pub fn accept(&mut self, group: u32, counter: u32)
        ensures { self.new ≡ with_accepted group (counter ∷ []) self.old }
    {
        if self.accepted == group {
            self.least = self.least.min(counter);
            self.greatest = self.greatest.max(counter);
        } else {
            self.accepted = group;
            self.least = counter;
            self.greatest = counter;
        }
    }

    /// Returns whether a floor line fits each frame that its group accepts.
    pub fn fits(&self, group: u32, value: u32, block: u32) -> bool
        ensures { result ≡ fits_all group (before_of group self.now.stored) value block self.now }
    {
        let floor = self.stored.before(group);
        self.accepted != group
            || (fits_one(floor, value, block, self.least)
                && fits_one(floor, value, block, self.greatest))
    }

    /// Returns whether a floor line is required. In an event that was cut short it is required if the floor rises,
    /// else if the group accepts a frame.
    pub fn is_called_for(&self, group: u32, cut: bool, value: u32) -> bool
        ensures { result ≡ calls cut group (before_of group self.now.stored) value self.now }
    {
        if cut {
            self.stored.before(group) < value
        } else {
            self.accepted == group
        }
    }
}

fn fits_one(floor: u32, value: u32, block: u32, counter: u32) -> bool
    ensures { result ≡ floor_fits floor value block counter }
{
    floor <= counter && u64::from(value) == ahead(u64::from(counter), block)
}
