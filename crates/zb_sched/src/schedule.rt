//! A schedule.

use zb_base::{Key, List, Peer};
use zb_install::InstallCode;
use zb_sched_line::Event;

/// A declared node.
#[derive(Drop)]
pub struct Node {
    /// Its name, addresses and part.
    pub peer: Peer,
    /// How many outgoing frame counters it reserves at once: 1 to 65,536.
    pub out_block: u32,
    /// How far ahead it stores floors for incoming frame counters: 1 to 1,024.
    pub in_block: u32,
    /// The install code that is printed on it.
    pub code: Option<InstallCode>,
    /// The network key that it holds from the start, and its sequence number.
    pub network: Option<(Key, u8)>,
    /// Its stored outgoing NWK limit at the start.
    pub start_nwk: u32,
    /// Its stored outgoing APS limit at the start.
    pub start_aps: u32,
}

/// The nodes in the order of their lines, the keys of the supply, and the events.
#[derive(Drop)]
pub struct Schedule {
    /// The declared nodes.
    pub nodes: List<Node>,
    /// The keys that the centre draws, in their order.
    pub draws: List<Key>,
    /// The events, in their order; the first has number 1.
    pub events: List<Event>,
}
