//! What a node is to send: to whom, secured at which layers, and with which content.
ghost use Rattle.std.specs.Prelude.{◌≡◌};

use arrayvec::ArrayVec;
use zb_base::{Eui, Frame, Key, Label, Short};
use zb_cmd::Command;

/// Application data: at most 64 bytes.
pub type Payload = ArrayVec<u8, 64>;

/// Returns a copy of application data.
pub fn copied(bytes: &Payload) -> Payload
    ensures { result.items ≡ bytes.now.items }
{
    let mut copy = Payload::new();
    let _ = copy.try_extend_from_slice(bytes.as_slice());
    copy
}

/// What the payload of a NWK frame is to be.
#[derive(Debug, Drop)]
pub enum Body {
    /// Application data, not sealed at APS.
    Saying {
        /// The data.
        bytes: Payload,
    },
    /// An APS command that isn't sealed.
    Clear {
        /// The APS frame control.
        control: u8,
        /// The command.
        command: Command,
    },
    /// An APS command that is sealed under a link key.
    Secret {
        /// Which key of the link key seals it.
        label: Label,
        /// The link key.
        key: Key,
        /// The command.
        command: Command,
    },
    /// An APS command that is sealed for transport, inside a Tunnel to a device.
    Tunnelled {
        /// The device at the end of the Tunnel.
        device: Eui,
        /// The link key of the device.
        key: Key,
        /// The command.
        command: Command,
    },
    /// Application data that is sealed under a key of two devices.
    Telling {
        /// The key of the two.
        key: Key,
        /// The data.
        bytes: Payload,
    },
    /// A Leave that asks the receiver to go.
    Leaving,
    /// The frame that a Tunnel brought.
    Relayed {
        /// The frame.
        bytes: Frame,
    },
}

/// A frame that a node is to send.
#[derive(Debug, Drop)]
pub struct Sending {
    /// The short address that it goes to.
    pub to: Short,
    /// Whether it is sealed at the network layer.
    pub secured: bool,
    /// What it carries.
    pub body: Body,
}
