//! The size of a record's body.

/// The greatest number of bytes of a record with its generation, its length and the gate after it.
pub(crate) const BODY_ROOM: usize = 49_165;
