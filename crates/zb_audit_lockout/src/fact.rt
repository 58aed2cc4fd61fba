//! What lines say about keys.
use zb_base::{Eui, Key};

/// What one line says about a key, or about a device.
#[derive(Clone, Copy)]
pub enum Fact {
    /// The device holds the key from now on.
    Holds(Eui, Key),
    /// A term under the first key carries the second.
    Carries(Key, Key),
    /// The device was removed.
    Removed(Eui),
    /// The key is a live network key of the node at that place.
    Lives(usize, Key),
    /// The key is no longer a network key of the node at that place.
    Drops(usize, Key),
}
