//! What is sealed in one layer of a frame, and what a frame opens to.
use zb_base::{Eui, Frame, Key, Label, Layer};

/// One sealed layer of a frame (05-3474-21, chapter 4): all inputs of CCM*.
///
/// The label says how the sealing key is derived from the base key. Source, counter and control byte make the nonce,
/// each least significant byte first. The header is authenticated but not encrypted; the content is both.
#[derive(Clone, Debug, Drop, PartialEq, Eq, PartialOrd, Ord)]
pub struct Term {
    /// The frame counter of the auxiliary header. It is the first field because terms of one key mostly differ in it.
    pub counter: u32,
    /// The layer that is secured.
    pub layer: Layer,
    /// The network key or link key from which the sealing key is derived.
    pub base: Key,
    /// The key identifier of the auxiliary header: how the sealing key is derived.
    pub label: Label,
    /// The EUI of the node that sealed the frame, or as which a forger sealed it.
    pub source: Eui,
    /// The security control byte of the auxiliary header, with the actual level in its low three bits.
    pub control: u8,
    /// The layer's header with its auxiliary header and the actual level: the authenticated part.
    pub header: Frame,
    /// What is encrypted: the payload of the layer.
    pub content: Frame,
}
