//! Why a node's record can't be used, and why a host stored no changes.
use std::error::Error;
use std::fmt;
use zb_node_types::Changes;

/// Why a node's record can't be read from its disk, or can't be stored there.
///
/// The boot of a host has the first three, its events the first and the last. After a failed event the host is down,
/// and the node boots again from its disk.
#[derive(Clone, Copy, Debug, Drop, PartialEq, Eq)]
pub enum RecordFault {
    /// The disk failed. The next boot shows what is committed.
    Disk,
    /// No slot of the disk is open.
    NoRecord,
    /// The disk has no record of such a node, or an entry that doesn't fit its record.
    BadRecord {
        /// The place of the fault, in bytes from 0. In the entries it counts from the record's length on.
        at: u32,
    },
    /// The whole record had to be written, and the store's last generation is used up. Nothing was written.
    Worn,
}

/// Why `handle` stored no changes. The host is down, and the node boots again from its disk.
#[derive(Debug, Drop, PartialEq, Eq)]
pub enum HostFault {
    /// The disk failed. The next boot shows what is committed.
    Disk {
        /// The changes that were to be stored.
        changes: Changes,
    },
    /// The whole record had to be written, and the store's last generation is used up. Nothing was written.
    Worn,
}

impl fmt::Display for RecordFault {
    ghost use Rattle.std.specs.Prelude.{Some};
    ghost use Rattle.zb_host.specs.Texts.{record_text};

    ghost output = { λ fault. Some (record_text fault) };

    fn fmt<W: fmt::Write>(&self, f: &mut fmt::Formatter<W>) -> fmt::Result {
        match self {
            RecordFault::Disk => f.write_str("the disk failed"),
            RecordFault::NoRecord => f.write_str("no record stands on the disk"),
            RecordFault::BadRecord { at } => write!(f, "no record of this node, at byte {at}"),
            RecordFault::Worn => f.write_str("the last generation is used up"),
        }
    }
}

impl fmt::Display for HostFault {
    ghost use Rattle.std.specs.Prelude.{Some};
    ghost use Rattle.zb_host.specs.Texts.{fault_text};

    ghost output = { λ fault. Some (fault_text fault) };

    fn fmt<W: fmt::Write>(&self, f: &mut fmt::Formatter<W>) -> fmt::Result {
        match self {
            HostFault::Disk { .. } => f.write_str("the disk failed"),
            HostFault::Worn => f.write_str("the last generation is used up"),
        }
    }
}

impl Error for RecordFault {}

impl Error for HostFault {}
