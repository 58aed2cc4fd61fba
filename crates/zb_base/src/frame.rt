//! Bytes on the air and the names of nodes, each in a value of fixed capacity that takes no memory.
use arrayvec::{ArrayString, ArrayVec};

/// The bytes of one frame: at most 127, the size of an IEEE 802.15.4 packet.
pub type Frame = ArrayVec<u8, 127>;

/// The name of a node in schedules and transcripts. It has 1 to 16 characters of a to z and 0 to 9.
pub type Name = ArrayString<16>;
