//! The sizes of what a disk keeps: a record, and the journal entries after it.

/// The greatest number of bytes of a record.
pub const RECORD_ROOM: usize = 49_152;

/// The greatest number of bytes of an entry's payload.
pub const PAYLOAD_ROOM: usize = 481;

/// The greatest number of entries after a record.
pub const ENTRIES_ROOM: u32 = 32;
