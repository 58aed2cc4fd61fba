//! A commit: one entry, or the whole record.
ghost use Rattle.std.specs.Prelude.{◌≡◌, ◌≤◌, ◌<◌, ◌==◌, ◌||◌, List, ℕ, length, true, false, IfOk};
ghost use Rattle.zb_base.specs.Sizes.{record_room, payload_room, entries_room};
ghost use Rattle.zb_host.specs.Hosts.{IsCommit, IsRoom};

use crate::Core;
use std::alloc::Global;
use zb_base::{ENTRIES_ROOM, NoMemory, RECORD_ROOM};
use zb_disk::Disk;
use zb_node_types::Changes;
use zb_store::{Store, StoreFault};

/// A piece of the room of a record. An entry fits into one.
const BLANK: [u8; 1_024] = [0; 1_024];

/// Makes room for what commits write: as much as an entry needs, with the memory for a record.
pub(crate) fn make_room(alloc: Global) -> Result<Vec<u8>, NoMemory>
    ensures { IfOk result (λ room. IsRoom room) }
{
    let mut room = Vec::with_capacity(alloc, RECORD_ROOM)?;
    room.extend_from_slice(&BLANK)?;
    Ok(room)
}

// Fills the room up to that of a record. It takes no memory.
fn fill_up(room: &mut Vec<u8>)
    requires { IsRoom room.old }
    ensures room { IsRoom room.new }
    ensures filled { record_room ≤ length room.new.items }
{
    if room.len() >= RECORD_ROOM {
        return;
    }
    room.clear();
    for _ in 0..RECORD_ROOM / BLANK.len() {
        room.extend_from_slice(&BLANK).unwrap();
    }
}

// Stores the whole record.
fn put<C: Core, D: Disk>(
    store: Store,
    disk: &mut D,
    room: &mut [u8],
    core: &C,
) -> Result<Store, StoreFault>
    requires { record_room ≤ length room.old }
    ensures { (payload : List ℕ)
        → IsCommit D.tells true (C.recorded core.now) payload store (D.state disk.old) (D.state disk.new) result }
{
    let len = core.record(room) as usize;
    store.put(disk, &room[..len])
}

// Stores the changes as an entry.
fn append<C: Core, D: Disk>(
    store: Store,
    disk: &mut D,
    room: &mut [u8],
    changes: &Changes,
) -> Result<Store, StoreFault>
    requires room { payload_room ≤ length room.old }
    requires few { store.entries < entries_room }
    requires short { length (C.payload changes.now.items) ≤ payload_room }
    ensures { (content : List ℕ)
        → IsCommit D.tells false content (C.payload changes.now.items) store
        (D.state disk.old) (D.state disk.new) result }
{
    let len = C::change_bytes(changes, room) as usize;
    store.append(disk, &room[..len])
}

// Whether a commit writes the whole record.
fn is_whole(whole: bool, entries: u32) -> bool
    ensures { result ≡ (whole || entries == entries_room) }
{
    whole || entries == ENTRIES_ROOM
}

/// Stores the whole record where it is asked for or no entry more fits, else the changes as an entry.
pub(crate) fn commit<C: Core, D: Disk>(
    store: Store,
    disk: &mut D,
    whole: bool,
    room: &mut Vec<u8>,
    core: &C,
    changes: &Changes,
) -> Result<Store, StoreFault>
    requires room { IsRoom room.old }
    requires short { length (C.payload changes.now.items) ≤ payload_room }
    ensures commits { IsCommit D.tells (whole || store.entries == entries_room)
        (C.recorded core.now) (C.payload changes.now.items) store (D.state disk.old) (D.state disk.new) result }
    ensures room { IsRoom room.new }
{
    if is_whole(whole, store.entries()) {
        fill_up(room);
        put(store, disk, room, core)
    } else {
        append::<C, D>(store, disk, room, changes)
    }
}
