//! The nodes of a network, and what a node is configured with.
use crate::{Eui, Name, Short};
use arrayvec::ArrayVec;

/// The part that a node plays in a centralised network.
#[derive(Clone, Copy, Debug, Default, PartialEq, Eq, PartialOrd, Ord, Hash)]
pub enum Role {
    /// The coordinator, which is the trust centre.
    Centre,
    /// A router, which can be the parent of a joining node.
    Router,
    /// An end device.
    #[default]
    Device,
}

/// A node as its peers know it.
#[derive(Clone, Copy, Debug, Default, PartialEq, Eq)]
pub struct Peer {
    /// The node's name in schedules and transcripts.
    pub name: Name,
    /// Its EUI.
    pub eui: Eui,
    /// Its short address.
    pub short: Short,
    /// Its part in the network.
    pub role: Role,
}

/// What one node is configured with.
///
/// The names and both addresses of the peers differ, exactly one peer is the centre, `me` is a place among them, and
/// the blocks are in their ranges. This is `IsConfig` of `specs/Config.antt`. Each call that takes a `Config` requires
/// it.
#[derive(Debug, Drop)]
pub struct Config {
    /// The place of this node in `peers`.
    pub me: u8,
    /// All declared nodes, this one included.
    pub peers: ArrayVec<Peer, 64>,
    /// How many outgoing frame counters are reserved at once: 1 to 65,536.
    pub out_block: u32,
    /// How far ahead a floor for incoming frame counters is stored: 1 to 1,024.
    pub in_block: u32,
}
