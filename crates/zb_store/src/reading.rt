//! The reads of the store: which slot stands, how many entries stand after its record, and their payloads.
ghost use Rattle.std.specs.Prelude.{◌≡◌, ◌==◌, ◌&&◌, nat_le, ◌+◌, ◌*◌, ◌-◌, ◌≤◌, ◌<◌, ◌++◌, ℕ, List, [], length, take, drop, true, IsTrue, IfOk, IfErr, OnErr, IsErrOf, IfSome, Some, None, MatchOption, MatchResult};
ghost use Rattle.std.specs.List.{concat};
ghost use Rattle.std.specs.Int.{from_le_bytes, w16, w32, w64};
ghost use Rattle.zb_disk.specs.View.{IsStill, window};
ghost use Rattle.zb_base.specs.Outside.{HasCause};
ghost use Rattle.zb_disk.specs.Calls.{IsRead};
ghost use Rattle.zb_store.specs.Layout.{Standing, slot, stands, entry_of, payloads_of, extent};
ghost use Rattle.zb_store.specs.Reading.{IsHeaderOf, opens, chosen, IsFoundIn, IsReadIn, IsBehind, size_at, AreCounted};
ghost use Rattle.zb_base.specs.Sizes.{record_room, payload_room, entries_room, payloads_room, disk_size, entry_room};
ghost use Rattle.zb_store.specs.Sizes.{body_room, entries_reach};
ghost use Rattle.zb_store.specs.Faults.{OnlyReads, IsBytesFault, IsReadFault, IsStandingFault};

use crate::StoreFault;
use crate::commit::{OPEN, base};
use std::alloc::{AllocError, Global};
use zb_base::{ENTRIES_ROOM, Failed, PAYLOAD_ROOM, RECORD_ROOM};
use zb_disk::Disk;

/// The first bytes of a slot.
#[derive(Clone, Copy)]
pub(crate) struct Header {
    pub(crate) gate: u8,
    pub(crate) generation: u64,
    pub(crate) size: u32,
}

/// The slot that stands, how many bytes it has, and whether the gate of the other slot is open too.
#[derive(Clone, Copy)]
pub(crate) struct Found {
    pub(crate) second: bool,
    pub(crate) generation: u64,
    pub(crate) size: u32,
    pub(crate) room: u64,
    pub(crate) other_open: bool,
}

// Returns the number that two bytes spell, the low one first. The next two functions do so of four and of eight bytes.
fn le16(bytes: &[u8]) -> u16
    requires { 2 ≤ length bytes.now }
    ensures { result ≡ from_le_bytes w16 bytes.now }
{
    u16::from_le_bytes([bytes[0], bytes[1]])
}

fn le32(bytes: &[u8]) -> u32
    requires { 4 ≤ length bytes.now }
    ensures { result ≡ from_le_bytes w32 bytes.now }
{
    u32::from_le_bytes([bytes[0], bytes[1], bytes[2], bytes[3]])
}

fn le64(bytes: &[u8]) -> u64
    requires { 8 ≤ length bytes.now }
    ensures { result ≡ from_le_bytes w64 bytes.now }
{
    u64::from_le_bytes([
        bytes[0], bytes[1], bytes[2], bytes[3], bytes[4], bytes[5], bytes[6], bytes[7],
    ])
}

fn read_header<D: Disk>(disk: &mut D, second: bool) -> Result<Header, Failed>
    ensures read { IsRead D.tells (D.state disk.old) (D.state disk.new) result }
    ensures bytes { IfOk result (λ h. IsTrue D.tells.content → IsHeaderOf (slot second (D.state disk.old).seen) h) }
{
    let mut buf = [0u8; 13];
    disk.read(base(second), &mut buf)?;
    Ok(Header {
        gate: buf[0],
        generation: le64(&buf[1..9]),
        size: le32(&buf[9..13]),
    })
}

fn is_open(header: Header, room: u64) -> bool
    ensures { result ≡ opens header room }
{
    header.gate == OPEN
        && header.size as usize <= RECORD_ROOM
        && 13 + u64::from(header.size) <= room
}

// Returns the newer of two open slots, and the first on a tie.
fn choose(first: Header, first_room: u64, second: Header, second_room: u64) -> Option<Found>
    ensures { result ≡ chosen first first_room second second_room }
{
    let first_open = is_open(first, first_room);
    if is_open(second, second_room) && (!first_open || first.generation < second.generation) {
        return Some(Found {
            second: true,
            generation: second.generation,
            size: second.size,
            room: second_room,
            other_open: first.gate == OPEN,
        });
    }
    if !first_open {
        return None;
    }
    Some(Found {
        second: false,
        generation: first.generation,
        size: first.size,
        room: first_room,
        other_open: second.gate == OPEN,
    })
}

/// Finds the slot that stands.
///
/// # Errors
/// `Failed` where the disk failed.
pub(crate) fn find<D: Disk>(disk: &mut D) -> Result<Option<Found>, Failed>
    ensures still { IsStill (D.state disk.old) (D.state disk.new) }
    ensures cause { HasCause (D.state disk.old).faults (D.state disk.new).faults result }
    ensures refusal { OnErr result (IsTrue D.tells.refusals → (D.state disk.old).off 0 ≡ true) }
    ensures small { IfOk result (λ found. IfSome found (λ f. f.size ≤ record_room)) }
    ensures found { IfOk result (λ found. IsTrue D.tells.content
        → MatchOption found (stands (D.state disk.old).seen ≡ None) (λ f. IsFoundIn f (D.state disk.old).seen)) }
{
    let size = disk.size()?;
    let first = read_header(disk, false)?;
    let second = read_header(disk, true)?;
    Ok(choose(first, size.min(65_536), second, size.saturating_sub(65_536)))
}

// Returns the length of the entry that stands at a place of the disk. From there on its slot has `room` bytes.
fn entry_size<D: Disk>(disk: &mut D, at: u64, room: u64) -> Result<Option<u16>, Failed>
    ensures read { IsRead D.tells (D.state disk.old) (D.state disk.new) result }
    ensures small { IfOk result (λ size. IfSome size (λ n. n ≤ payload_room)) }
    ensures entry { IfOk result (λ size. IsTrue D.tells.content
        → (b : List ℕ) → IsBehind b at room 3 (D.state disk.old).seen → size ≡ size_at b) }
{
    let mut buf = [0u8; 3];
    disk.read(at, &mut buf)?;
    let size = le16(&buf[1..3]);
    Ok(is_entry(buf[0], size, room).then_some(size))
}

// Returns whether an entry stands. `room` is the number of bytes of its slot from its gate on.
fn is_entry(gate: u8, size: u16, room: u64) -> bool
    ensures { result ≡ (gate == OPEN && nat_le size payload_room && nat_le (3 + size) room) }
{
    gate == OPEN && usize::from(size) <= PAYLOAD_ROOM && 3 + u64::from(size) <= room
}

/// Returns how many entries stand from a place of the disk on, and how many bytes they take.
///
/// # Errors
/// `Failed` where the disk failed.
pub(crate) fn count_entries<D: Disk>(
    disk: &mut D,
    start: u64,
    room: u64,
) -> Result<(u32, u64), Failed>
    requires { start ≤ disk_size }
    ensures still { IsStill (D.state disk.old) (D.state disk.new) }
    ensures cause { HasCause (D.state disk.old).faults (D.state disk.new).faults result }
    ensures refusal { OnErr result (IsTrue D.tells.refusals → (D.state disk.old).off 0 ≡ true) }
    ensures few { IfOk result (λ r. r.0 ≤ entries_room) }
    ensures short { IfOk result (λ r. r.1 ≤ entry_room * r.0) }
    ensures entries { IfOk result (λ r. IsTrue D.tells.content
        → (b : List ℕ) → IsBehind b start room entries_reach (D.state disk.old).seen
        → (r.0 ≡ length (payloads_of entries_room b)) × (r.1 ≡ extent (payloads_of entries_room b))) }
{
    let mut taken = 0;
    for count in 0..ENTRIES_ROOM {
        match entry_size(disk, start + taken, room.saturating_sub(taken)) {
            Ok(None) => return Ok((count, taken)),
            Ok(Some(size)) => taken += 3 + u64::from(size),
            Err(Failed) => return Err(Failed),
        }
    }
    Ok((ENTRIES_ROOM, taken))
}

// Returns the payload of the entry at the start, and what lies after that entry.
fn split_entry(bytes: &[u8]) -> Option<(&[u8], &[u8])>
    ensures entry { MatchOption result (entry_of bytes.now ≡ None)
        (λ r. (entry_of bytes.now ≡ Some r.0.now) × (r.1.now ≡ drop (3 + length r.0.now) bytes.now)) }
    ensures within { IfSome result (λ r. length r.0.now + length r.1.now ≤ length bytes.now) }
{
    if bytes.len() < 3 {
        return None;
    }
    let size = le16(&bytes[1..3]);
    if !is_entry(bytes[0], size, bytes.len() as u64) {
        return None;
    }
    let end = 3 + usize::from(size);
    Some((&bytes[3..end], &bytes[end..]))
}

/// Returns the payloads of the entries one after the other.
///
/// # Errors
/// `AllocError`.
pub(crate) fn payload_bytes(alloc: Global, entries: &[u8]) -> Result<Vec<u8>, AllocError>
    ensures payloads { IfOk result (λ v. v.items ≡ concat (payloads_of entries_room entries.now)) }
    ensures short { IfOk result (λ v. length v.items ≤ length entries.now) }
{
    let mut payloads = Vec::with_capacity(alloc, entries.len())?;
    let mut rest = entries;
    for entry in 0..ENTRIES_ROOM {
        prove!(entry < ENTRIES_ROOM);
        let Some((payload, behind)) = split_entry(rest) else {
            return Ok(payloads);
        };
        payloads.extend_from_slice(payload)?;
        rest = behind;
    }
    Ok(payloads)
}

/// What stands on a disk.
///
/// That is its slot, the record, the payloads one after the other, how many entries there are, and the place in the
/// slot after the last of them.
#[derive(Drop)]
pub(crate) struct Contents {
    pub(crate) found: Found,
    pub(crate) content: Vec<u8>,
    pub(crate) payloads: Vec<u8>,
    pub(crate) entries: u32,
    pub(crate) end: u32,
}

// Reads `len` bytes from a place on.
fn read_bytes<D: Disk>(
    alloc: Global,
    disk: &mut D,
    at: u64,
    len: usize,
) -> Result<Vec<u8>, StoreFault>
    ensures reads { OnlyReads D.tells (D.state disk.old) (D.state disk.new) result }
    ensures faults { IfErr result (IsBytesFault (D.state disk.old) (D.state disk.new)) }
    ensures bytes { IfOk result (λ v. IsTrue D.tells.content → v.items ≡ window (D.state disk.old).seen at len) }
    ensures size { IfOk result (λ v. length v.items ≡ len) }
{
    let mut bytes = Vec::with_capacity(alloc, len)?;
    bytes.resize(len, 0)?;
    match disk.read(at, &mut bytes) {
        Ok(()) => Ok(bytes),
        Err(Failed) => Err(StoreFault::Disk),
    }
}

// Reads what stands in the slot that was found.
fn read_found<D: Disk>(alloc: Global, disk: &mut D, found: Found) -> Result<Contents, StoreFault>
    requires { found.size ≤ record_room }
    ensures reads { OnlyReads D.tells (D.state disk.old) (D.state disk.new) result }
    ensures faults { IfErr result (IsBytesFault (D.state disk.old) (D.state disk.new)) }
    ensures found { IfOk result (λ r. r.found ≡ found) }
    ensures few { IfOk result (λ r. r.entries ≤ entries_room) }
    ensures end { IfOk result (λ r. r.end ≤ body_room + entry_room * r.entries) }
    ensures record_size { IfOk result (λ r. length r.content.items ≤ record_room) }
    ensures payloads_size { IfOk result (λ r. length r.payloads.items ≤ payloads_room) }
    ensures read { IfOk result (λ r. IsTrue D.tells.content → IsFoundIn found (D.state disk.old).seen
        → IsReadIn r (D.state disk.old).seen) }
{
    let record_at = base(found.second) + 13;
    let start = record_at + u64::from(found.size);
    let room = found.room.saturating_sub(13 + u64::from(found.size));
    let (entries, taken) = match count_entries(disk, start, room) {
        Ok(counted) => counted,
        Err(Failed) => return Err(StoreFault::Disk),
    };
    let content = read_bytes(alloc, disk, record_at, found.size as usize)?;
    let region = read_bytes(alloc, disk, start, taken as usize)?;
    let payloads = payload_bytes(alloc, &region)?;
    Ok(Contents {
        found,
        content,
        payloads,
        entries,
        end: 13 + found.size + taken as u32,
    })
}

/// Reads what stands on the disk.
///
/// # Errors
/// `Disk` where the disk failed, `NoRecord` where nothing stands on it, or `NoMemory`.
pub(crate) fn read_standing<D: Disk>(alloc: Global, disk: &mut D) -> Result<Contents, StoreFault>
    ensures reads { OnlyReads D.tells (D.state disk.old) (D.state disk.new) result }
    ensures faults { IfErr result (IsReadFault D.tells (D.state disk.old) (D.state disk.new)) }
    ensures few { IfOk result (λ r. r.entries ≤ entries_room) }
    ensures end { IfOk result (λ r. r.end ≤ body_room + entry_room * r.entries) }
    ensures record_size { IfOk result (λ r. length r.content.items ≤ record_room) }
    ensures payloads_size { IfOk result (λ r. length r.payloads.items ≤ payloads_room) }
    ensures read { IfOk result (λ r. IsTrue D.tells.content → IsReadIn r (D.state disk.old).seen) }
{
    match find(disk) {
        Ok(Some(found)) => read_found(alloc, disk, found),
        Ok(None) => Err(StoreFault::NoRecord),
        Err(Failed) => Err(StoreFault::Disk),
    }
}

// Returns the generation of the slot that was found, and how many entries stand in it.
fn count_found<D: Disk>(disk: &mut D, found: Found) -> Result<(u64, u32), StoreFault>
    requires { found.size ≤ record_room }
    ensures reads { OnlyReads D.tells (D.state disk.old) (D.state disk.new) result }
    ensures faults { IfErr result (IsStandingFault D.tells (D.state disk.old) (D.state disk.new)) }
    ensures answer { IfOk result (λ r. IsTrue D.tells.content → IsFoundIn found (D.state disk.old).seen
        → AreCounted r.0 r.1 (D.state disk.old).seen) }
{
    let start = base(found.second) + 13 + u64::from(found.size);
    let room = found.room.saturating_sub(13 + u64::from(found.size));
    match count_entries(disk, start, room) {
        Ok((entries, _)) => Ok((found.generation, entries)),
        Err(Failed) => Err(StoreFault::Disk),
    }
}

/// Returns the generation that stands, and how many entries.
///
/// # Errors
/// `Disk` where the disk failed, or `NoRecord` where nothing stands on it.
pub(crate) fn count_standing<D: Disk>(disk: &mut D) -> Result<(u64, u32), StoreFault>
    ensures reads { OnlyReads D.tells (D.state disk.old) (D.state disk.new) result }
    ensures faults { IfErr result (IsStandingFault D.tells (D.state disk.old) (D.state disk.new)) }
    ensures answer { IfOk result (λ r. IsTrue D.tells.content
        → AreCounted r.0 r.1 (D.state disk.old).seen) }
{
    match find(disk) {
        Ok(Some(found)) => count_found(disk, found),
        Ok(None) => Err(StoreFault::NoRecord),
        Err(Failed) => Err(StoreFault::Disk),
    }
}
