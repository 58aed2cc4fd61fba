//! Which layer a frame is secured at, and which key is used there.

/// The layer of a secured frame, and of an outgoing frame counter (05-3474-21, 4.3 and 4.4).
#[derive(Clone, Copy, Debug, PartialEq, Eq, PartialOrd, Ord, Hash)]
pub enum Layer {
    /// The network layer, secured by a network key.
    Nwk,
    /// The application support sublayer, secured by a link key.
    Aps,
}

/// The key identifier of an auxiliary header (05-3474-21, 4.5.1.1.2): how the sealing key comes from the base key.
#[derive(Clone, Copy, Debug, PartialEq, Eq, PartialOrd, Ord, Hash)]
pub enum Label {
    /// Identifier 0: the link key itself.
    Data,
    /// Identifier 1: the network key itself.
    Network,
    /// Identifier 2: the key-transport key, derived from the link key.
    Transport,
    /// Identifier 3: the key-load key, derived from the link key.
    Load,
}
