//! The changes of a node's stable state.
use arrayvec::ArrayVec;
use zb_base::{Attribute, Eui, Key, Layer, Rollover, State};

/// One change of what a node keeps over a reset.
#[derive(Clone, Copy, Debug, PartialEq, Eq)]
pub enum Change {
    /// The outgoing counter of a layer is reserved up to, but not with, `limit`.
    ///
    /// At NWK it is that of the active key.
    Reserve {
        layer: Layer,
        limit: u32,
    },
    /// Frames of `sender` under `key` with a counter below `value` are refused after a boot.
    ///
    /// At APS the sender is the partner of the link key.
    Floor {
        layer: Layer,
        key: Key,
        sender: Eui,
        value: u32,
    },
    /// The next key of the supply is used.
    ///
    /// It is kept nowhere: the change that takes the key says where it goes.
    Draw {
        key: Key,
    },
    /// A network key is no longer used.
    DropNet {
        key: Key,
    },
    /// A link key is no longer used.
    DropLink {
        partner: Eui,
        key: Key,
    },
    /// A network key is new.
    Install {
        key: Key,
        sequence: u8,
    },
    /// The node seals under this network key from now on.
    Active {
        key: Key,
    },
    /// A network key that becomes active for the first time counts from `value` on.
    Start {
        key: Key,
        value: u32,
    },
    /// A link key is new, comes back into use or has a new attribute.
    Row {
        partner: Eui,
        key: Key,
        attribute: Attribute,
    },
    /// At the centre, two devices have a key for one another; `first` is the smaller EUI.
    Pair {
        first: Eui,
        second: Eui,
        key: Key,
    },
    /// A router or device enters a state.
    State {
        state: State,
    },
    /// At the centre, a device was admitted.
    Live {
        device: Eui,
    },
    /// At the centre, a device was removed: none of its link keys is in use.
    Removed {
        device: Eui,
    },
    /// At the centre, a rollover begins or ends.
    ///
    /// Where it begins, no device was told.
    Roll {
        rollover: Rollover,
    },
    /// At the centre, a device was sent the newest network key.
    Told {
        device: Eui,
    },
    /// At the centre, a device is to be sent the newest network key again.
    Untold {
        device: Eui,
    },
}

/// The changes of one event, in the order in which they are made.
///
/// An event makes at most 16.
pub type Changes = ArrayVec<Change, 16>;

impl Default for Change {
    /// Makes what stands in the unused places of a list of changes.
    fn default() -> Change {
        Change::State {
            state: State::Fresh,
        }
    }
}
