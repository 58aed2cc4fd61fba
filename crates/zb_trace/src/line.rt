//! The lines of a transcript.
use zb_base::{Attribute, Eui, Frame, Key, Layer, List, Name, Role, Rollover, Short, State};
use zb_model_real::Term;
use zb_node_types::Refusal;

/// One line of a transcript.
///
/// `event` is the number of the event that gave the line, from 1. The lines of the start have the number 0. Nodes are
/// given by name; partners, senders and devices by EUI.
#[derive(Drop)]
pub enum Line {
    /// Declares a node at the start, with the blocks in which it reserves outgoing counters and stores floors.
    Node {
        name: Name,
        role: Role,
        eui: Eui,
        short: Short,
        out_block: u32,
        in_block: u32,
    },
    /// Gives a network key that the node holds at the start and that is active.
    GivenNet {
        node: Name,
        key: Key,
        sequence: u8,
    },
    /// Gives the link key of the node's install code at the start, shared with `partner`.
    GivenLink {
        node: Name,
        partner: Eui,
        key: Key,
    },
    /// Gives the stored limit of an outgoing counter at the start, if it isn't 0.
    Counter {
        node: Name,
        layer: Layer,
        limit: u32,
    },
    /// The outgoing counter of a layer is reserved up to `limit`, which is excluded.
    Reserve {
        event: u32,
        node: Name,
        layer: Layer,
        limit: u32,
    },
    /// After a boot, frames of `sender` under `key` with a counter below `value` are refused.
    Floor {
        event: u32,
        node: Name,
        layer: Layer,
        key: Key,
        sender: Eui,
        value: u32,
    },
    /// The centre uses the next key of the supply.
    Draw {
        event: u32,
        key: Key,
    },
    /// A network key is no longer used.
    DropNet {
        event: u32,
        node: Name,
        key: Key,
    },
    /// A link key is no longer used.
    DropLink {
        event: u32,
        node: Name,
        partner: Eui,
        key: Key,
    },
    /// A new network key.
    Install {
        event: u32,
        node: Name,
        key: Key,
        sequence: u8,
    },
    /// The network key under which the node seals from now on.
    Active {
        event: u32,
        node: Name,
        key: Key,
    },
    /// The first outgoing counter of a network key that becomes active for the first time.
    Start {
        event: u32,
        node: Name,
        key: Key,
        value: u32,
    },
    /// A link key is new, is in use again, or has a new attribute.
    Row {
        event: u32,
        node: Name,
        partner: Eui,
        key: Key,
        attribute: Attribute,
    },
    /// The centre made a key for two devices; `first` is the smaller address.
    Pair {
        event: u32,
        node: Name,
        first: Eui,
        second: Eui,
        key: Key,
    },
    /// The state of a router or device.
    State {
        event: u32,
        node: Name,
        state: State,
    },
    /// The centre admitted a device.
    Live {
        event: u32,
        device: Eui,
    },
    /// The centre removed a device.
    Removed {
        event: u32,
        device: Eui,
    },
    /// The centre's rollover begins or ends.
    Roll {
        event: u32,
        node: Name,
        rollover: Rollover,
    },
    /// The centre sent a device the newest network key.
    Told {
        event: u32,
        device: Eui,
    },
    /// The centre has to send a device the newest network key again.
    Untold {
        event: u32,
        device: Eui,
    },
    /// The node's changes in earlier lines of the same event are stored.
    Commit {
        event: u32,
        node: Name,
    },
    /// A sealed layer of a frame was accepted.
    Accept {
        event: u32,
        node: Name,
        term: Term,
    },
    /// The node refused the event.
    Refuse {
        event: u32,
        node: Name,
        refusal: Refusal,
    },
    /// The node sealed a layer of a frame.
    Seal {
        event: u32,
        node: Name,
        term: Term,
    },
    /// An outsider sealed a layer of a frame, under a key that it knows.
    Forge {
        event: u32,
        term: Term,
    },
    /// A frame was sent, as the `frame`-th of all; `node` is `-` if an outsider forged the frame.
    Send {
        event: u32,
        node: Name,
        frame: u32,
        bytes: Frame,
    },
    /// An outsider sent bytes, as the `frame`-th frame of all.
    Inject {
        event: u32,
        frame: u32,
        bytes: Frame,
    },
    /// The node's disk stopped during the event.
    Stopped {
        event: u32,
        node: Name,
    },
    /// The node was reset.
    DownReset {
        event: u32,
        node: Name,
    },
    /// The node's disk failed.
    DownDisk {
        event: u32,
        node: Name,
    },
    /// The node booted.
    Boot {
        event: u32,
        node: Name,
    },
    /// The record that the node's disk holds.
    Dump {
        event: u32,
        node: Name,
        bytes: List<u8>,
    },
    /// The end, with the numbers of events and of seal, accept and refuse lines.
    ///
    /// `ideal` says whether everything accepted and every key installed came from earlier seals or forgeries.
    /// `private` says whether outsiders forged only with what outsiders know.
    End {
        events: u32,
        seals: u32,
        accepts: u32,
        refusals: u32,
        ideal: bool,
        private: bool,
    },
}
