//! The events of a schedule.

use arrayvec::ArrayVec;
use zb_base::{Eui, Frame, Key, Label, Name, Short};
use zb_install::InstallCode;

/// One step of one node, or something on the air. Its fields are the words of its line.
#[derive(Drop)]
pub enum Event {
    /// `say NAME SHORT HEX`: the node sends application bytes.
    Say {
        name: Name,
        to: Short,
        bytes: ArrayVec<u8, 64>,
    },
    /// `deliver FRAME NAME`: the frame of that number, from 1, arrives at the node.
    Deliver {
        frame: u32,
        name: Name,
    },
    /// `timer NAME`: the node's timer.
    Timer {
        name: Name,
    },
    /// `knock NAME`: a router or device starts to join.
    Knock {
        name: Name,
    },
    /// `rejoin NAME`: a router or device starts to rejoin.
    Rejoin {
        name: Name,
    },
    /// `child PARENT NAME join` or `child PARENT NAME rejoin`: the centre or a router hears a joining node.
    Child {
        parent: Name,
        name: Name,
        rejoin: bool,
    },
    /// `provision NAME HEX`: the install code of a router or device is entered at the centre.
    Provision {
        name: Name,
        code: InstallCode,
    },
    /// `again NAME`: the centre is to send the new network key to that node once more.
    Again {
        name: Name,
    },
    /// `roll`: the centre starts a new network key.
    Roll,
    /// `switch`: the centre switches the network to its newest key.
    Switch,
    /// `remove NAME via PARENT`: the centre removes a node by way of a router or itself.
    Remove {
        name: Name,
        parent: Name,
    },
    /// `reset NAME`: the node loses what is not stored.
    Reset {
        name: Name,
    },
    /// `boot NAME`: a node that is down starts from its store.
    Boot {
        name: Name,
    },
    /// `dump NAME`: shows the record that the node's disk represents.
    Dump {
        name: Name,
    },
    /// `stop NAME K HEX`: power fails at the node's disk after K calls, 0 to 5, and HEX tears what wasn't synced.
    Stop {
        name: Name,
        calls: u8,
        torn: ArrayVec<u8, 32>,
    },
    /// `fail NAME K`: call K, 1 to 6, of the node's disk fails.
    Fail {
        name: Name,
        call: u8,
    },
    /// `inject HEX`: bytes go on the air.
    Inject {
        bytes: Frame,
    },
    /// `forge SHORT SHORT EUI net KEY SEQ COUNTER HEX`: a frame that an outsider seals under a network key.
    ForgeNet {
        to: Short,
        from: Short,
        source: Eui,
        key: Key,
        sequence: u8,
        counter: u32,
        content: ArrayVec<u8, 64>,
    },
    /// The same with `aps LABEL KEY COUNTER HEX` in place of HEX: with a sealed APS command in it.
    ForgeNetAps {
        to: Short,
        from: Short,
        source: Eui,
        key: Key,
        sequence: u8,
        counter: u32,
        label: Label,
        base: Key,
        aps_counter: u32,
        command: ArrayVec<u8, 64>,
    },
    /// `forge SHORT SHORT EUI open aps LABEL KEY COUNTER HEX`: a sealed APS command in an unsecured NWK frame.
    ForgeOpen {
        to: Short,
        from: Short,
        source: Eui,
        label: Label,
        base: Key,
        aps_counter: u32,
        command: ArrayVec<u8, 64>,
    },
    /// `ask NAME PARTNER`: a device asks the centre for an application link key with a partner.
    Ask {
        name: Name,
        partner: Name,
    },
    /// `share NAME PARTNER`: the centre sends the key that a node shares with its partner to that node.
    Share {
        name: Name,
        partner: Name,
    },
    /// `tell NAME PARTNER HEX`: a node sends application bytes under its key with a partner.
    Tell {
        name: Name,
        partner: Name,
        bytes: ArrayVec<u8, 64>,
    },
}
