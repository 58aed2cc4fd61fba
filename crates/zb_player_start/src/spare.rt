//! What a run leaves to those after it.
ghost use Rattle.std.specs.Prelude.{◌≡◌, ◌≤◌, [], OnOk, length, vec_len};
ghost use Rattle.zb_base.specs.Sizes.{record_room};

use std::alloc::{AllocError, Global};
use zb_base::RECORD_ROOM;
use zb_disk::MemDisk;

/// Memory that runs use one after the other: the disks of earlier ones, and room for a record.
#[derive(Drop)]
pub struct Spare {
    /// Disks that are made new, and then used.
    pub disks: Vec<MemDisk>,
    /// Room for a record, once one was made in it.
    pub room: Vec<u8>,
}

impl Spare {
    /// Makes the spare memory of no runs: none.
    pub fn new(alloc: Global) -> Spare
        ensures disks { result.disks.items ≡ [] }
        ensures room { result.room.items ≡ [] }
    {
        Spare {
            disks: Vec::new(alloc),
            room: Vec::new(alloc),
        }
    }
}

/// Makes room for a record, unless it is there.
///
/// # Errors
/// `AllocError`.
pub(crate) fn make_room(room: &mut Vec<u8>) -> Result<(), AllocError>
    ensures { OnOk result (record_room ≤ vec_len room.new) }
{
    if room.len() < RECORD_ROOM {
        room.resize(RECORD_ROOM, 0)?;
    }
    Ok(())
}
