//! The events of a node.
use arrayvec::ArrayVec;
use zb_base::{Eui, Frame, Key, Short};

/// Application data: at most 64 bytes.
pub type Payload = ArrayVec<u8, 64>;

/// What happens to a node, apart from its power and its disk.
///
/// `N` is how other nodes are named, and `K` what admits a device. A node refuses an event of another role as policy.
#[derive(Drop)]
pub enum Event<N, K> {
    /// It sends application data to a short address.
    Say {
        /// The address.
        to: Short,
        /// The data.
        bytes: Payload,
    },
    /// A router or device sends a partner application data under the key of the two.
    Tell {
        /// The partner.
        partner: N,
        /// The data.
        bytes: Payload,
    },
    /// A router or device asks the centre for a key that it shares with a partner.
    Ask {
        /// The partner.
        partner: N,
    },
    /// A router or device asks to be admitted to the network.
    Knock,
    /// A router or device that missed changes of the network key asks to be admitted again.
    Rejoin,
    /// The timer of a node expires. The centre then sends the new network key to the next device.
    Timer,
    /// A device joins or rejoins under the centre or a router.
    Child {
        /// The device.
        device: N,
        /// Whether it was a member before.
        rejoin: bool,
    },
    /// The centre admits a device by the link key of its install code.
    Provision {
        /// The device.
        device: N,
        /// What admits it.
        key: K,
    },
    /// The centre removes a device.
    Remove {
        /// The device.
        device: N,
        /// Its parent, or the centre itself.
        via: N,
    },
    /// The centre draws a new network key, which it will send to each device.
    Roll {
        /// The next key of the supply.
        draw: Option<Key>,
    },
    /// The centre tells all devices to switch to the new network key.
    Switch,
    /// The centre is to send a device the new network key once more.
    Again {
        /// The device.
        device: N,
    },
    /// The centre sends the key of two devices to one of them.
    Share {
        /// The device that it is sent to.
        device: N,
        /// The other device.
        partner: N,
    },
    /// The node receives a frame.
    Deliver {
        /// The bytes of the frame.
        bytes: Frame,
        /// The next key of the supply, if the node is the centre.
        draw: Option<Key>,
    },
}

/// An event as cores take it: nodes are named by EUI, and a link key admits a device.
pub type NodeEvent = Event<Eui, Key>;
