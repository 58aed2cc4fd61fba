//! The part of a node's work in which an event is refused.

/// Where an event is refused.
#[derive(Clone, Copy, Debug, PartialEq, Eq, PartialOrd, Ord, Hash)]
pub enum Place {
    /// In the network layer of a frame.
    Nwk,
    /// In the application support part of a frame, after its network layer was accepted.
    Aps,
    /// In an event of the node's own.
    Event,
}
