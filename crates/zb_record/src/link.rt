//! Link keys in a record.
ghost use Rattle.std.specs.Prelude.{◌≡◌, ◌&&◌, ◌||◌, not, [], length, map, nat_eq, nat_le, nat_lt, IfOk};
ghost use Rattle.std.specs.List.{list_any};
ghost use Rattle.std.specs.Int.{w16, w32};
ghost use Rattle.zb_node_types.specs.Changes.{model_role, model_attribute};
ghost use Rattle.zb_cursor.specs.Reading.{byte_at, eui_at, key_at, number_at};
ghost use Rattle.zb_cursor.specs.Spelling.{bit};
ghost use Rattle.zb_model.specs.State.{is_centre, is_provisional, is_unverified};
ghost use Rattle.zb_record.specs.LinkSets.{key_from};
ghost use Rattle.zb_record.specs.Placed.{Answers, Gives, field, rows_at};
ghost use Rattle.zb_record.specs.Rows.{link_seen, link_row, is_new_link, kinds_alike, told_apart, is_marked, link_fits, link_flags_fit, link_at, links_at, has_link_room};

use crate::field::read_attribute;
use crate::link_row::link_room;
use crate::links_so_far::LinksSoFar;
use crate::place::begin;
use std::alloc::Global;
use zb_base::{Attribute, Eui, Key, OrMemory, Role};
use zb_cursor::{Reader, has_bit};

/// A link key of a record.
///
/// Partner 8, key 16, attribute 1, flags 1 (bit 0 live, bit 1 from an install code, bit 2 told), floor 4.
#[derive(Clone, Copy, Debug, PartialEq, Eq)]
pub struct LinkRecord {
    /// The partner of the key.
    pub partner: Eui,
    /// The key.
    pub key: Key,
    /// The attribute of the key.
    pub attribute: Attribute,
    /// Whether it is in use.
    pub live: bool,
    /// Whether it comes from an install code.
    pub code: bool,
    /// At the centre, whether the partner was sent the newest network key.
    pub told: bool,
    /// The stored floor of the partner's frames under it.
    pub stored: u32,
}

impl LinkRecord {
    /// Returns a row with a floor of 0.
    fn with_flags(partner: Eui, key: Key, attribute: Attribute, flags: u8) -> LinkRecord
        ensures { link_seen result ≡ link_row partner.0 key.0 (model_attribute attribute) flags }
    {
        LinkRecord {
            partner,
            key,
            attribute,
            live: has_bit(u16::from(flags), 0),
            code: has_bit(u16::from(flags), 1),
            told: has_bit(u16::from(flags), 2),
            stored: 0,
        }
    }

    /// Returns whether it is only offered.
    pub(crate) fn is_unverified(&self) -> bool
        ensures { result ≡ is_unverified (link_seen self.now).attribute }
    {
        matches!(self.attribute, Attribute::Unverified)
    }

    /// Returns whether the row is a live one of the centre if it is told, and from an install code if it is
    /// provisional.
    fn is_marked(&self, role: Role) -> bool
        ensures { result ≡ is_marked (model_role role) (link_seen self.now) }
    {
        self.may_be_told(role) && self.may_be_provisional()
    }

    /// Returns whether the row isn't told, or is a live row of the centre.
    fn may_be_told(&self, role: Role) -> bool
        ensures { result ≡ (not (link_seen self.now).told
            || ((link_seen self.now).live && is_centre (model_role role))) }
    {
        !self.told || (self.live && matches!(role, Role::Centre))
    }

    /// Returns whether the row isn't provisional, or is from an install code.
    fn may_be_provisional(&self) -> bool
        ensures { result ≡ (not (is_provisional (link_seen self.now).attribute) || (link_seen self.now).code) }
    {
        !matches!(self.attribute, Attribute::Provisional) || self.code
    }
}

/// Returns sixteen bytes as a key.
fn key_of(bytes: &[u8]) -> Key
    requires { length bytes.now ≡ 16 }
    ensures { result ≡ key_from bytes.now }
{
    let mut key = [0; 16];
    key.copy_from_slice(bytes);
    Key(key)
}

/// Reads the bytes of a key that no row has.
#[tactic(auto, unfolding(zb_cursor::specs::Reading::key_at))]
fn read_new_key<'a>(reader: &mut Reader<'a, usize>, rows: &LinksSoFar) -> Result<&'a [u8], usize>
    ensures exact { Gives (λ bytes. key_from bytes.now) result reader.new.rest.now
        (field key_at (is_new_link rows.now) reader.old.rest.now) }
    ensures length { IfOk result (λ bytes. length bytes.now ≡ 16) }
{
    let left = begin(reader);
    let bytes = reader.bytes(16)?;
    if rows.is_new(&key_of(bytes)) {
        Ok(bytes)
    } else {
        Err(left)
    }
}

/// Returns whether a row may come after these.
fn row_fits(role: Role, rows: &LinksSoFar, row: &LinkRecord) -> bool
    ensures { result ≡ link_fits (model_role role) rows.now (link_seen row.now) }
{
    row.is_marked(role) && is_alone(rows, row)
}

/// Returns whether none of these rows is like this one, and whether they agree with it.
fn is_alone(rows: &LinksSoFar, row: &LinkRecord) -> bool
    ensures { result ≡ (not (list_any (λ y. kinds_alike y (link_seen row.now)) rows.now)
        && not (list_any (λ y. told_apart y (link_seen row.now)) rows.now)) }
{
    !rows.has_like(row) && !rows.has_told_apart(row)
}

/// Reads the flags of a row, which complete it except for its floor.
fn read_flags(
    reader: &mut Reader<usize>,
    role: Role,
    rows: &LinksSoFar,
    partner: Eui,
    key: Key,
    attribute: Attribute,
) -> Result<u8, usize>
    ensures { Gives (λ b. b) result reader.new.rest.now
        (field byte_at (link_flags_fit (model_role role) rows.now partner.0 key.0
        (model_attribute attribute)) reader.old.rest.now) }
{
    let left = begin(reader);
    let flags = reader.byte()?;
    if flags_fit(
        role,
        rows,
        LinkRecord::with_flags(partner, key, attribute, flags),
        flags,
    ) {
        Ok(flags)
    } else {
        Err(left)
    }
}

/// Returns whether flags are known, and their row may come after these.
fn flags_fit(role: Role, rows: &LinksSoFar, row: LinkRecord, flags: u8) -> bool
    ensures { result ≡ (nat_lt flags 8 && link_fits (model_role role) rows.now (link_seen row)) }
{
    flags < 8 && row_fits(role, rows, &row)
}

/// Reads a link key, after these rows.
#[tactic(auto, unfolding(crate::specs::Rows::link_at))]
fn read_link(reader: &mut Reader<usize>, role: Role, rows: &LinksSoFar) -> Result<LinkRecord, usize>
    ensures { Gives link_seen result reader.new.rest.now
        (link_at (model_role role) rows.now reader.old.rest.now) }
{
    let _left = begin(reader);
    let partner = reader.eui()?;
    let key = key_of(read_new_key(reader, rows)?);
    let _left = begin(reader);
    let attribute = read_attribute(reader)?;
    let flags = read_flags(reader, role, rows, partner, key, attribute)?;
    let _left = begin(reader);
    let stored = reader.number32()?;
    Ok(LinkRecord {
        partner,
        key,
        attribute,
        live: has_bit(u16::from(flags), 0),
        code: has_bit(u16::from(flags), 1),
        told: has_bit(u16::from(flags), 2),
        stored,
    })
}

/// Reads the number of link keys.
fn read_count(reader: &mut Reader<usize>, role: Role) -> Result<u16, usize>
    ensures { Gives (λ n. n) result reader.new.rest.now
        (field (number_at w16) (has_link_room (model_role role)) reader.old.rest.now) }
{
    let left = begin(reader);
    let count = reader.number16()?;
    if usize::from(count) <= link_room(role) {
        Ok(count)
    } else {
        Err(left)
    }
}

/// Reads `count` link keys. The place is in a reader of the call's own, so that it is kept in registers.
fn read_rows(
    alloc: Global,
    reader: &mut Reader<usize>,
    role: Role,
    count: u16,
) -> Result<Vec<LinkRecord>, OrMemory<usize>>
    ensures { Answers (λ v. map link_seen v.items) result reader.new.rest.now
        (rows_at (link_at (model_role role)) count [] reader.old.rest.now) }
{
    let mut own = Reader {
        rest: reader.rest,
        cut: 0,
    };
    let rows = read_rows_of(alloc, &mut own, role, count)?;
    reader.rest = own.rest;
    Ok(rows)
}

/// Reads `count` link keys.
fn read_rows_of(
    alloc: Global,
    reader: &mut Reader<usize>,
    role: Role,
    count: u16,
) -> Result<Vec<LinkRecord>, OrMemory<usize>>
    ensures { Answers (λ v. map link_seen v.items) result reader.new.rest.now
        (rows_at (link_at (model_role role)) count [] reader.old.rest.now) }
{
    let mut rows = LinksSoFar::with_room(alloc, count)?;
    for _ in 0..count {
        match read_link(reader, role, &rows) {
            Ok(row) => rows.push(row)?,
            Err(left) => return Err(OrMemory::Fault(left)),
        }
    }
    Ok(rows.into_rows())
}

/// Reads the link keys, with their number.
///
/// # Errors
/// The length from the first byte of the first bad field to the end. A field is bad if it isn't whole or breaks a
/// rule. `NoMemory` if memory runs out.
#[tactic(auto, unfolding(crate::specs::Rows::links_at))]
pub(crate) fn read_links(
    alloc: Global,
    reader: &mut Reader<usize>,
    role: Role,
) -> Result<Vec<LinkRecord>, OrMemory<usize>>
    ensures { Answers (λ v. map link_seen v.items) result reader.new.rest.now
        (links_at (model_role role) reader.old.rest.now) }
{
    match read_count(reader, role) {
        Ok(count) => read_rows(alloc, reader, role, count),
        Err(left) => Err(OrMemory::Fault(left)),
    }
}
