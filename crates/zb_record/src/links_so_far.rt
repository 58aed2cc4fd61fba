//! The link rows of a record that were read so far, with a fast look-up for the comparisons with the next row.
ghost use Rattle.std.specs.Prelude.{◌≡◌, ◌||◌, true, false, [], ◌∷◌, ◌++◌, map, IfOk, OnOk, List};
ghost use Rattle.std.specs.List.{list_any};
ghost use Rattle.zb_model.specs.State.{LinkKey, same_key};
ghost use Rattle.zb_record.specs.LinkSets.{HaveMarks, is_live_so};
ghost use Rattle.zb_record.specs.Rows.{is_new_link, kinds_alike, link_seen, told_apart};

use crate::link::LinkRecord;
use crate::marks::{key_number, link_number, may_have, no_marks, note};
use std::alloc::{AllocError, Global};
use std::marker::Model;
use zb_base::{Eui, Key};

/// How many bytes of marks there are for each row.
const MARKS: usize = 16;

/// Link rows in their order. Another row is compared with them mostly without a walk.
///
/// A contract sees it as the list of its rows.
#[derive(Drop)]
pub(crate) struct LinksSoFar {
    rows: Vec<LinkRecord>,
    /// Marks of the keys of all rows, and of the live rows by partner and kind.
    marks: Vec<u8>,
}

impl Model for LinksSoFar {
    ghost use Rattle.std.specs.Prelude.{List, map};
    ghost use Rattle.zb_model.specs.State.{LinkKey};
    ghost use Rattle.zb_record.specs.LinkSets.{HaveMarks};
    ghost use Rattle.zb_record.specs.Rows.{link_seen as seen};

    ghost Value = { List LinkKey };

    ghost view = { λ s. map seen s.rows.items };

    ghost invariant = { λ s. HaveMarks s.marks.items (map seen s.rows.items) };
}

impl LinksSoFar {
    /// Makes an empty value with room for that many rows.
    ///
    /// # Errors
    /// `AllocError`.
    pub fn with_room(alloc: Global, count: u16) -> Result<LinksSoFar, AllocError>
        ensures { IfOk result (λ rows. rows ≡ []) }
    {
        let room = usize::from(count);
        Ok(LinksSoFar {
            rows: Vec::with_capacity(alloc, room)?,
            marks: no_marks(alloc, MARKS * room)?,
        })
    }

    /// Returns whether no row has that key.
    pub fn is_new(&self, key: &Key) -> bool
        ensures { result ≡ is_new_link self.now key.now }
    {
        !self.has_key(key)
    }

    /// Returns whether a row has that key.
    fn has_key(&self, key: &Key) -> bool
        ensures { result ≡ list_any (λ (r : LinkKey). same_key r.key key.now.0) self.now }
    {
        may_have(self.marks.as_slice(), key_number(key)) && has_row_of(self.rows.as_slice(), key)
    }

    /// Returns whether one of the rows is like another.
    pub fn has_like(&self, other: &LinkRecord) -> bool
        ensures { result ≡ list_any (λ y. kinds_alike y (link_seen other.now)) self.now }
    {
        other.live && self.has_live_of_kind(other.partner, other.is_unverified())
    }

    /// Returns whether one of the rows is told and another isn't, or the reverse.
    pub fn has_told_apart(&self, other: &LinkRecord) -> bool
        ensures { result ≡ list_any (λ y. told_apart y (link_seen other.now)) self.now }
    {
        other.live && self.has_live_told(other.partner, !other.told)
    }

    /// Returns whether a partner has a live row that is only offered, or one that isn't.
    fn has_live_of_kind(&self, partner: Eui, unverified: bool) -> bool
        ensures { result ≡ (list_any (is_live_so partner.0 unverified true) self.now
            || list_any (is_live_so partner.0 unverified false) self.now) }
    {
        self.has_live(partner, unverified, true) || self.has_live(partner, unverified, false)
    }

    /// Returns whether a partner has a live row that is told, or one that isn't.
    fn has_live_told(&self, partner: Eui, told: bool) -> bool
        ensures { result ≡ (list_any (is_live_so partner.0 true told) self.now
            || list_any (is_live_so partner.0 false told) self.now) }
    {
        self.has_live(partner, true, told) || self.has_live(partner, false, told)
    }

    /// Returns whether a partner has a live row of this kind.
    fn has_live(&self, partner: Eui, unverified: bool, told: bool) -> bool
        ensures { result ≡ list_any (is_live_so partner.0 unverified told) self.now }
    {
        may_have(
            self.marks.as_slice(),
            link_number(partner, unverified, told),
        ) && has_row_so(self.rows.as_slice(), partner, unverified, told)
    }

    /// Puts a row after these.
    ///
    /// # Errors
    /// `AllocError`.
    pub fn push(&mut self, row: LinkRecord) -> Result<(), AllocError>
        ensures { OnOk result (self.new ≡ self.old ++ link_seen row ∷ []) }
    {
        note_row(self.marks.as_mut_slice(), &row);
        self.rows.push(row)?;
        Ok(())
    }

    /// Returns the rows, in their order.
    pub fn into_rows(self) -> Vec<LinkRecord>
        ensures { map link_seen result.items ≡ self }
    {
        self.rows
    }
}

/// Notes the key of a row and, if it is live, its partner and kind.
fn note_row(marks: &mut [u8], row: &LinkRecord)
    ensures { (rows : List LinkKey) → HaveMarks marks.old rows
        → (HaveMarks marks.new rows) × (HaveMarks marks.new (rows ++ link_seen row.now ∷ [])) }
{
    note(marks, key_number(&row.key));
    if row.live {
        note(
            marks,
            link_number(row.partner, row.is_unverified(), row.told),
        );
    }
}

/// Returns whether one of these rows has that key.
fn has_row_of(rows: &[LinkRecord], key: &Key) -> bool
    ensures { result ≡ list_any (λ r. same_key (link_seen r).key key.now.0) rows.now }
{
    rows.iter().any(|row| row.key == *key)
}

/// Returns whether one of these rows is a live one of that partner, only offered or not, told or not.
fn has_row_so(rows: &[LinkRecord], partner: Eui, unverified: bool, told: bool) -> bool
    ensures { result ≡ list_any (λ r. is_live_so partner.0 unverified told (link_seen r)) rows.now }
{
    rows.iter()
        .any(|row| is_live_so(row, partner, unverified, told))
}

/// Returns whether a row is a live one of that partner, only offered or not, told or not.
fn is_live_so(row: &LinkRecord, partner: Eui, unverified: bool, told: bool) -> bool
    ensures { result ≡ is_live_so partner.0 unverified told (link_seen row.now) }
{
    row.live && row.partner.0 == partner.0 && row.is_unverified() == unverified && row.told == told
}
