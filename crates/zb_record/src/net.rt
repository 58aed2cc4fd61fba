//! Network keys in a record.
ghost use Rattle.std.specs.Prelude.{◌≡◌, ◌≤◌, ◌<◌, ◌&&◌, ◌||◌, not, [], if◌then◌else◌, filter, length, map, nat_eq, nat_lt};
ghost use Rattle.std.specs.List.{list_any};
ghost use Rattle.std.specs.Int.{w32};
ghost use Rattle.zb_cursor.specs.Reading.{byte_at, key_at, number_at};
ghost use Rattle.zb_cursor.specs.Spelling.{bit};
ghost use Rattle.zb_model.specs.State.{same_key};
ghost use Rattle.zb_record.specs.Placed.{Answers, Gives, field, rows_at};
ghost use Rattle.zb_record.specs.Rows.{net_seen, net_flags, net_flags_fit, net_limit_at, is_started, is_new_net, net_at, lives, allows_limit};

use crate::place::begin;
use crate::sender::SenderRecord;
use crate::version::Version;
use arrayvec::ArrayVec;
use std::alloc::Global;
use zb_base::{Key, OrMemory};
use zb_cursor::{Reader, has_bit};

/// A network key of a record.
///
/// Key 16, sequence 1, flags 1 (bit 0 live, bit 1 started), limit 4. In the first version the only flag is live, and
/// there is no limit.
#[derive(Debug, Drop)]
pub struct NetRecord {
    /// The key.
    pub key: Key,
    /// Its sequence number.
    pub sequence: u8,
    /// Whether it is in use.
    pub live: bool,
    /// Whether it was ever active.
    pub started: bool,
    /// Its outgoing counters below this one are reserved.
    pub limit: u32,
    /// The floors under it, which come after all network keys; a dropped key has none.
    pub floors: ArrayVec<SenderRecord, 64>,
}

/// Returns whether there is a row of that key.
fn has_key(rows: &[NetRecord], key: &Key) -> bool
    ensures { result ≡ list_any (λ r. same_key (net_seen r).key key.now.0) rows.now }
{
    rows.iter().any(|row| row.key == *key)
}

/// Returns whether no row has that key.
#[tactic(auto, using(crate::proofs::Lists::any_map))]
fn is_new(rows: &[NetRecord], key: &Key) -> bool
    ensures { result ≡ is_new_net (map net_seen rows.now) key.now }
{
    !has_key(rows, key)
}

/// Returns how many rows are live.
fn count_live(rows: &[NetRecord]) -> usize
    ensures { result ≡ length (filter (λ r. (net_seen r).live) rows.now) }
{
    let mut count = 0;
    for row in rows {
        if row.live {
            count += 1;
        }
    }
    count
}

/// Returns whether there is room for another live row.
fn has_live_room(rows: &[NetRecord]) -> bool
    ensures { result ≡ nat_lt (lives (map net_seen rows.now)) 2 }
{
    count_live(rows) < 2
}

/// Reads a key that no row has.
fn read_new_key(reader: &mut Reader<usize>, rows: &[NetRecord]) -> Result<Key, usize>
    ensures { Gives (λ k. k) result reader.new.rest.now
        (field key_at (is_new_net (map net_seen rows.now)) reader.old.rest.now) }
{
    let left = begin(reader);
    let key = reader.key()?;
    if is_new(rows, &key) {
        Ok(key)
    } else {
        Err(left)
    }
}

/// Returns how many values the flags can have.
fn flag_values(version: Version) -> u8
    ensures { result ≡ net_flags version }
{
    match version {
        Version::First => 2,
        Version::Second => 4,
        Version::Third => 4,
    }
}

/// Returns whether the row after these may be live or dropped, as its flags say.
fn may_live(rows: &[NetRecord], active: u16, flags: u8) -> bool
    ensures { result ≡ (if bit flags 0 then nat_lt (lives (map net_seen rows.now)) 2
        else not (nat_eq active (length (map net_seen rows.now)))) }
{
    if has_bit(u16::from(flags), 0) {
        has_live_room(rows)
    } else {
        usize::from(active) != rows.len()
    }
}

/// Reads the flags of a row.
fn read_flags(
    reader: &mut Reader<usize>,
    version: Version,
    active: u16,
    rows: &[NetRecord],
) -> Result<u8, usize>
    ensures { Gives (λ b. b) result reader.new.rest.now
        (field byte_at (net_flags_fit version active (map net_seen rows.now)) reader.old.rest.now) }
{
    let left = begin(reader);
    let flags = reader.byte()?;
    if flags_fit(version, active, rows, flags) {
        Ok(flags)
    } else {
        Err(left)
    }
}

/// Returns whether the flags of a row are known and allowed for the row after these.
fn flags_fit(version: Version, active: u16, rows: &[NetRecord], flags: u8) -> bool
    ensures { result ≡ net_flags_fit version active (map net_seen rows.now) flags }
{
    flags < flag_values(version) && may_live(rows, active, flags)
}

/// Returns whether a row counts as started.
fn is_started(version: Version, flags: u8) -> bool
    ensures { result ≡ is_started version flags }
{
    match version {
        Version::First => true,
        Version::Second => has_bit(u16::from(flags), 1),
        Version::Third => has_bit(u16::from(flags), 1),
    }
}

/// Reads the limit of a row. It is 0 if the row isn't started.
fn read_own_limit(reader: &mut Reader<usize>, started: bool) -> Result<u32, usize>
    ensures { Gives (λ n. n) result reader.new.rest.now
        (field (number_at w32) (allows_limit started) reader.old.rest.now) }
{
    let left = begin(reader);
    let limit = reader.number32()?;
    if started || limit == 0 {
        Ok(limit)
    } else {
        Err(left)
    }
}

/// Reads the limit of a row.
fn read_limit(
    reader: &mut Reader<usize>,
    version: Version,
    declared: u32,
    started: bool,
) -> Result<u32, usize>
    ensures { Gives (λ n. n) result reader.new.rest.now (net_limit_at version declared started reader.old.rest.now) }
{
    match version {
        Version::First => Ok(declared),
        Version::Second => read_own_limit(reader, started),
        Version::Third => read_own_limit(reader, started),
    }
}

/// Reads a network key, after these rows. Its floors are read later.
#[tactic(auto, unfolding(crate::specs::Rows::net_at))]
fn read_net(
    reader: &mut Reader<usize>,
    version: Version,
    declared: u32,
    active: u16,
    rows: &[NetRecord],
) -> Result<NetRecord, usize>
    ensures { Gives net_seen result reader.new.rest.now
        (net_at version declared active (map net_seen rows.now) reader.old.rest.now) }
{
    let key = read_new_key(reader, rows)?;
    let _left = begin(reader);
    let sequence = reader.byte()?;
    let flags = read_flags(reader, version, active, rows)?;
    let started = is_started(version, flags);
    let limit = read_limit(reader, version, declared, started)?;
    Ok(NetRecord {
        key,
        sequence,
        live: has_bit(u16::from(flags), 0),
        started,
        limit,
        floors: ArrayVec::new(),
    })
}

/// Reads `count` network keys.
///
/// # Errors
/// The length from the first byte of the first bad field to the end. A field is bad if it isn't whole or breaks a
/// rule. `NoMemory` if memory runs out.
pub(crate) fn read_nets(
    alloc: Global,
    reader: &mut Reader<usize>,
    version: Version,
    declared: u32,
    count: u16,
    active: u16,
) -> Result<Vec<NetRecord>, OrMemory<usize>>
    ensures { Answers (λ v. map net_seen v.items) result reader.new.rest.now
        (rows_at (net_at version declared active) count [] reader.old.rest.now) }
{
    let mut rows = Vec::with_capacity(alloc, usize::from(count))?;
    for _ in 0..count {
        match read_net(reader, version, declared, active, rows.as_slice()) {
            Ok(row) => rows.push(row)?,
            Err(left) => return Err(OrMemory::Fault(left)),
        }
    }
    Ok(rows)
}
