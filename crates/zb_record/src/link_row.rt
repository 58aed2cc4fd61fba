//! Rows of link keys.
ghost use Rattle.std.specs.Prelude.{◌≡◌, ◌&&◌, false, not, map, find, nat_eq, if◌then◌else◌};
ghost use Rattle.std.specs.List.{list_any};
ghost use Rattle.std.specs.Option.{option_copied};
ghost use Rattle.zb_node_types.specs.Changes.{model_role, model_attribute};
ghost use Rattle.zb_model.specs.Fits.{most_links};
ghost use Rattle.zb_record.specs.RowViews.{link_key};
ghost use Rattle.zb_model.specs.State.{at_link, booted_link, is_link, has_link, is_live_of, dropped_link, link_floor, link_kept, revived, new_link, told_as, with_told, is_unverified, is_verified, same_key};

use zb_base::{Attribute, Eui, Key, Role};
use zb_counter::Floor;

/// A link key that is shared with a partner.
///
/// A row is never removed: if its partner gets a dropped key again, the row is live again.
#[derive(Clone, Copy, Debug, PartialEq, Eq)]
pub struct LinkRow {
    /// The partner of the key.
    pub partner: Eui,
    /// The key.
    pub key: Key,
    /// The attribute of the key.
    pub attribute: Attribute,
    /// Whether it is in use.
    pub live: bool,
    /// Whether it comes from an install code.
    pub code: bool,
    /// At the centre, whether the partner was sent the newest network key.
    pub told: bool,
    /// The floor of the partner's frames under it.
    pub floor: Floor,
}

impl LinkRow {
    /// Makes the row of a key that was just given.
    pub fn given(partner: Eui, key: Key, attribute: Attribute, told: bool) -> LinkRow
        ensures { link_key result ≡ new_link partner.0 key.0 (model_attribute attribute) told }
    {
        LinkRow {
            partner,
            key,
            attribute,
            live: true,
            code: attribute == Attribute::Provisional,
            told,
            floor: Floor { kept: 0, stored: 0 },
        }
    }

    /// Returns whether it is the row of that partner and key.
    pub fn is_of(&self, partner: Eui, key: &Key) -> bool
        ensures { result ≡ is_link partner.0 key.now.0 (link_key self.now) }
    {
        self.partner == partner && self.key == *key
    }

    /// Returns whether it is a row in use of that partner.
    pub fn is_live_of(&self, partner: Eui) -> bool
        ensures { result ≡ is_live_of partner.0 (link_key self.now) }
    {
        self.live && self.partner == partner
    }

    /// Returns whether the key is only offered: nobody has proved yet that both sides hold it.
    pub fn is_unverified(&self) -> bool
        ensures { result ≡ is_unverified (link_key self.now).attribute }
    {
        matches!(self.attribute, Attribute::Unverified)
    }

    /// Returns whether both sides have proved that they hold the key.
    pub fn is_verified(&self) -> bool
        ensures { result ≡ is_verified (link_key self.now).attribute }
    {
        matches!(self.attribute, Attribute::Verified)
    }

    /// Continues from the stored floor.
    fn boot(&mut self)
        ensures { link_key self.new ≡ booted_link (link_key self.old) }
    {
        self.floor.kept = self.floor.stored;
    }

    /// Drops the row, if it is of that partner and key.
    fn drop_at(&mut self, partner: Eui, key: &Key)
        ensures { link_key self.new ≡ (if is_link partner.0 key.now.0 (link_key self.old)
            then dropped_link (link_key self.old) else link_key self.old) }
    {
        if self.is_of(partner, key) {
            self.live = false;
            self.told = false;
        }
    }

    /// Stores the floor, if the row is of that partner and key. A stored floor never falls.
    fn store_at(&mut self, partner: Eui, key: &Key, value: u32)
        ensures { link_key self.new ≡ (if is_link partner.0 key.now.0 (link_key self.old)
            then link_floor value (link_key self.old) else link_key self.old) }
    {
        if self.is_of(partner, key) {
            self.floor.stored = self.floor.stored.max(value);
        }
    }

    /// Stores what was accepted in memory, if the row is of that partner and key.
    fn hear_at(&mut self, partner: Eui, key: &Key, kept: u32)
        ensures { link_key self.new ≡ (if is_link partner.0 key.now.0 (link_key self.old)
            then link_kept kept (link_key self.old) else link_key self.old) }
    {
        if self.is_of(partner, key) {
            self.floor.kept = kept;
        }
    }

    /// Makes the row live, if it is of that partner and key.
    fn revive_at(&mut self, partner: Eui, key: &Key, attribute: Attribute, told: bool)
        ensures { link_key self.new ≡ (if is_link partner.0 key.now.0 (link_key self.old)
            then revived (model_attribute attribute) told (link_key self.old) else link_key self.old) }
    {
        if self.is_of(partner, key) {
            self.attribute = attribute;
            self.live = true;
            self.code = self.code || attribute == Attribute::Provisional;
            self.told = told;
        }
    }

    /// Marks the row as told or not, if it is a row in use of that partner.
    fn tell_at(&mut self, partner: Eui, told: bool)
        ensures { link_key self.new ≡ (if is_live_of partner.0 (link_key self.old)
            then told_as told (link_key self.old) else link_key self.old) }
    {
        if self.is_live_of(partner) {
            self.told = told;
        }
    }

    /// Marks the row as not told.
    fn untell(&mut self)
        ensures { link_key self.new ≡ told_as false (link_key self.old) }
    {
        self.told = false;
    }
}

/// Drops the row of a partner and key.
pub fn drop_link(rows: &mut [LinkRow], partner: Eui, key: &Key)
    ensures { map link_key rows.new ≡ at_link partner.0 key.now.0 dropped_link (map link_key rows.old) }
{
    for row in rows.iter_mut() {
        row.drop_at(partner, key);
    }
}

/// Stores the floor of a partner's frames under a key.
pub fn store_link(rows: &mut [LinkRow], partner: Eui, key: &Key, value: u32)
    ensures { map link_key rows.new ≡ at_link partner.0 key.now.0 (link_floor value) (map link_key rows.old) }
{
    for row in rows.iter_mut() {
        row.store_at(partner, key, value);
    }
}

/// Makes the row of a partner and key live.
pub fn revive_link(rows: &mut [LinkRow], partner: Eui, key: &Key, attribute: Attribute, told: bool)
    ensures { map link_key rows.new
        ≡ at_link partner.0 key.now.0 (revived (model_attribute attribute) told) (map link_key rows.old) }
{
    for row in rows.iter_mut() {
        row.revive_at(partner, key, attribute, told);
    }
}

/// Marks the rows in use of a partner as told or not.
pub fn tell_links(rows: &mut [LinkRow], partner: Eui, told: bool)
    ensures { map link_key rows.new ≡ with_told partner.0 told (map link_key rows.old) }
{
    for row in rows.iter_mut() {
        row.tell_at(partner, told);
    }
}

/// Marks all rows as not told.
pub fn untell_links(rows: &mut [LinkRow])
    ensures { map link_key rows.new ≡ map (told_as false) (map link_key rows.old) }
{
    for row in rows.iter_mut() {
        row.untell();
    }
}

/// Sets all rows back to what is stored, as after a boot.
pub fn boot_links(rows: &mut [LinkRow])
    ensures { map link_key rows.new ≡ map booted_link (map link_key rows.old) }
{
    for row in rows.iter_mut() {
        row.boot();
    }
}

/// Returns whether there is a row of that partner and key, in use or dropped.
pub fn has_row(rows: &[LinkRow], partner: Eui, key: &Key) -> bool
    ensures { result ≡ list_any (λ r. is_link partner.0 key.now.0 (link_key r)) rows.now }
{
    rows.iter().any(|row| row.is_of(partner, key))
}

/// Returns whether a partner has a row in use.
pub fn has_live(rows: &[LinkRow], partner: Eui) -> bool
    ensures { result ≡ list_any (λ r. is_live_of partner.0 (link_key r)) rows.now }
{
    rows.iter().any(|row| row.is_live_of(partner))
}

/// Returns whether a partner was told.
pub fn has_told(rows: &[LinkRow], partner: Eui) -> bool
    ensures { result ≡ list_any (λ r. is_live_of partner.0 (link_key r) && r.told) rows.now }
{
    rows.iter().any(|row| row.is_live_of(partner) && row.told)
}

/// Returns the current row of a partner: its row in use that isn't only offered.
pub fn current_row<'a>(rows: &'a [LinkRow], partner: Eui) -> Option<&'a LinkRow>
    ensures { option_copied result ≡ find (λ r. is_live_of partner.0 (link_key r)
        && not (is_unverified (link_key r).attribute)) rows.now }
{
    rows.iter()
        .find(|row| row.is_live_of(partner) && !row.is_unverified())
}

/// Returns the offered row of a partner: its unverified row in use.
pub fn offered_row<'a>(rows: &'a [LinkRow], partner: Eui) -> Option<&'a LinkRow>
    ensures { option_copied result ≡ find (λ r. is_live_of partner.0 (link_key r)
        && is_unverified (link_key r).attribute) rows.now }
{
    rows.iter()
        .find(|row| row.is_live_of(partner) && row.is_unverified())
}

/// Returns the first row in use of a partner.
pub fn live_row<'a>(rows: &'a [LinkRow], partner: Eui) -> Option<&'a LinkRow>
    ensures { option_copied result ≡ find (λ r. is_live_of partner.0 (link_key r)) rows.now }
{
    rows.iter().find(|row| row.is_live_of(partner))
}

/// Returns the first row with that key of another partner.
pub fn other_row<'a>(rows: &'a [LinkRow], partner: Eui, key: &Key) -> Option<&'a LinkRow>
    ensures { option_copied result ≡ find (λ r. same_key (link_key r).key key.now.0
        && not (nat_eq (link_key r).partner partner.0)) rows.now }
{
    rows.iter()
        .find(|row| row.key == *key && row.partner.0 != partner.0)
}

/// Stores in memory what was accepted of a partner under a key.
pub fn hear_link(rows: &mut [LinkRow], partner: Eui, key: &Key, kept: u32)
    ensures { map link_key rows.new ≡ at_link partner.0 key.now.0 (link_kept kept) (map link_key rows.old) }
{
    for row in rows.iter_mut() {
        row.hear_at(partner, key, kept);
    }
}

/// Returns how many link keys a node may hold.
pub fn link_room(role: Role) -> usize
    ensures { result ≡ most_links (model_role role) }
{
    match role {
        Role::Centre => 1024,
        Role::Router => 64,
        Role::Device => 64,
    }
}
