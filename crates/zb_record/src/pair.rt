//! Keys of pairs of devices in a record.
ghost use Rattle.std.specs.Prelude.{◌≡◌, ◌&&◌, ◌==◌, not, [], map, nat_le, nat_lt};
ghost use Rattle.std.specs.List.{list_any};
ghost use Rattle.std.specs.Int.{w16};
ghost use Rattle.zb_node_types.specs.Changes.{model_role};
ghost use Rattle.zb_cursor.specs.Reading.{byte_at, eui_at, number_at};
ghost use Rattle.zb_record.specs.Placed.{Answers, Gives, field, rows_at};
ghost use Rattle.zb_record.specs.Rows.{pair_seen, is_pair, is_new_pair, is_one, pairs_room, has_pair_room, pair_at, all_pairs_at, pairs_at};

use crate::place::begin;
use crate::version::Version;
use std::alloc::Global;
use zb_base::{Eui, Key, OrMemory, Role};
use zb_cursor::Reader;

/// A key of two devices of a record.
///
/// First 8, second 8, key 16, live 1, which is 01.
#[derive(Clone, Copy, Debug, PartialEq, Eq)]
pub struct PairRecord {
    /// The device with the smaller EUI.
    pub first: Eui,
    /// The other device.
    pub second: Eui,
    /// Their key.
    pub key: Key,
}

/// Returns whether two devices have a key.
fn has_pair(rows: &[PairRecord], first: Eui, second: Eui) -> bool
    ensures { result ≡ list_any (λ p. is_pair first.0 second.0 (pair_seen p)) rows.now }
{
    rows.iter()
        .any(|row| row.first.0 == first.0 && row.second.0 == second.0)
}

/// Returns whether two devices are in order, and have no key.
#[tactic(auto, using(crate::proofs::Lists::any_map))]
fn is_new(rows: &[PairRecord], first: Eui, second: Eui) -> bool
    ensures { result ≡ is_new_pair (map pair_seen rows.now) first second }
{
    first.0 < second.0 && !has_pair(rows, first, second)
}

/// Reads the second device of a pair.
fn read_second(reader: &mut Reader<usize>, rows: &[PairRecord], first: Eui) -> Result<Eui, usize>
    ensures { Gives (λ e. e) result reader.new.rest.now
        (field eui_at (is_new_pair (map pair_seen rows.now) first) reader.old.rest.now) }
{
    let left = begin(reader);
    let second = reader.eui()?;
    if is_new(rows, first, second) {
        Ok(second)
    } else {
        Err(left)
    }
}

/// Reads the byte 01.
fn read_live(reader: &mut Reader<usize>) -> Result<u8, usize>
    ensures { Gives (λ b. b) result reader.new.rest.now (field byte_at is_one reader.old.rest.now) }
{
    let left = begin(reader);
    let live = reader.byte()?;
    if live == 1 { Ok(live) } else { Err(left) }
}

/// Reads a pair, after these.
#[tactic(auto, unfolding(crate::specs::Rows::pair_at))]
fn read_pair(reader: &mut Reader<usize>, rows: &[PairRecord]) -> Result<PairRecord, usize>
    ensures { Gives pair_seen result reader.new.rest.now (pair_at (map pair_seen rows.now) reader.old.rest.now) }
{
    let _left = begin(reader);
    let first = reader.eui()?;
    let second = read_second(reader, rows, first)?;
    let _left = begin(reader);
    let key = reader.key()?;
    let _live = read_live(reader)?;
    Ok(PairRecord { first, second, key })
}

/// Returns how many pairs a node may hold.
fn pair_room(role: Role) -> u16
    ensures { result ≡ pairs_room (model_role role) }
{
    match role {
        Role::Centre => 256,
        Role::Router => 0,
        Role::Device => 0,
    }
}

/// Reads the number of pairs.
fn read_count(reader: &mut Reader<usize>, role: Role) -> Result<u16, usize>
    ensures { Gives (λ n. n) result reader.new.rest.now
        (field (number_at w16) (has_pair_room (model_role role)) reader.old.rest.now) }
{
    let left = begin(reader);
    let count = reader.number16()?;
    if count <= pair_room(role) {
        Ok(count)
    } else {
        Err(left)
    }
}

/// Reads `count` pairs.
fn read_rows(
    alloc: Global,
    reader: &mut Reader<usize>,
    count: u16,
) -> Result<Vec<PairRecord>, OrMemory<usize>>
    ensures { Answers (λ v. map pair_seen v.items) result reader.new.rest.now
        (rows_at pair_at count [] reader.old.rest.now) }
{
    let mut rows = Vec::with_capacity(alloc, usize::from(count))?;
    for _ in 0..count {
        match read_pair(reader, rows.as_slice()) {
            Ok(row) => rows.push(row)?,
            Err(left) => return Err(OrMemory::Fault(left)),
        }
    }
    Ok(rows)
}

/// Reads the pairs with their number, which only the third version has.
///
/// # Errors
/// The length from the first byte of the first bad field to the end. A field is bad if it isn't whole or breaks a
/// rule. `NoMemory` if memory runs out.
pub(crate) fn read_pairs(
    alloc: Global,
    reader: &mut Reader<usize>,
    version: Version,
    role: Role,
) -> Result<Vec<PairRecord>, OrMemory<usize>>
    ensures { Answers (λ v. map pair_seen v.items) result reader.new.rest.now
        (pairs_at version (model_role role) reader.old.rest.now) }
{
    match version {
        Version::First => Ok(Vec::new(alloc)),
        Version::Second => Ok(Vec::new(alloc)),
        Version::Third => read_all(alloc, reader, role),
    }
}

/// Reads the pairs with their number.
#[tactic(auto, unfolding(crate::specs::Rows::all_pairs_at))]
fn read_all(
    alloc: Global,
    reader: &mut Reader<usize>,
    role: Role,
) -> Result<Vec<PairRecord>, OrMemory<usize>>
    ensures { Answers (λ v. map pair_seen v.items) result reader.new.rest.now
        (all_pairs_at (model_role role) reader.old.rest.now) }
{
    match read_count(reader, role) {
        Ok(count) => read_rows(alloc, reader, count),
        Err(left) => Err(OrMemory::Fault(left)),
    }
}
