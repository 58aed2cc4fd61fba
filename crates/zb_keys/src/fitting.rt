//! Whether a change that is read from a disk fits: it may be made, and the rules for records stand after it.
ghost use Rattle.std.specs.Prelude.{◌≡◌, ◌&&◌, ◌||◌, not, filter, option_map, find, is_none, length, nat_eq, nat_le, nat_lt};
ghost use Rattle.std.specs.List.{list_any};
ghost use Rattle.std.specs.Option.{option_copied};
ghost use Rattle.zb_node_types.specs.Changes.{edit, is_sending, model_state, model_layer, model_attribute};
ghost use Rattle.law_change_fits.specs.Fitting.{leaves_rules, move_leaves, floor_has_room, is_rival, key_is_used};
ghost use Rattle.zb_record.specs.RowViews.{net_key, link_key, heard_floor};
ghost use Rattle.zb_keys.specs.Tables.{state_of, IsSound};
ghost use Rattle.zb_record.specs.Headings.{active_bytes};
ghost use Rattle.zb_model.specs.Data.{Nwk, Reserve, Floor, Row};
ghost use Rattle.zb_model.specs.Fits.{fits, may_change, live_net, live_link, row_is_live, net_stored, net_limit, link_stored, is_fresh, most_nets, most_links, most_pairs, most_senders};
ghost use Rattle.zb_model.specs.State.{has_link, is_active_key, is_centre, is_link, is_live, live_nets, net_of, pair_of, same_key};

use crate::contents::Contents;
use crate::reading::floor_of;
use zb_base::{Attribute, Eui, Key, Layer, Role, Rollover, State};
use zb_node_types::Change;
use zb_record::link_row::{has_live, has_row, link_room};
use zb_record::net_row::{has_key, key_row};
use zb_record::pair_row::pair_row;
use zb_record::{LinkRow, NetRow, SenderFloor};

impl Contents {
    /// Returns whether a change fits.
    pub(crate) fn fits(&self, change: &Change) -> bool
        requires { IsSound self.now }
        ensures { result ≡ fits (edit change.now) (state_of self.now) }
    {
        self.may_change(change) && self.leaves_rules(change)
    }

    /// Returns whether a change may be made: the rows that it names are there, and nothing is lowered.
    fn may_change(&self, change: &Change) -> bool
        ensures { result ≡ may_change (edit change.now) (state_of self.now) }
    {
        match *change {
            Change::Reserve { layer, limit } => self.may_reserve(layer, limit),
            Change::Floor {
                layer,
                key,
                sender,
                value,
            } => self.may_store(layer, &key, sender, value),
            Change::Draw { key: _ } => true,
            Change::DropNet { key } => self.has_live_net(&key),
            Change::DropLink { partner, key } => self.has_live_link(partner, &key),
            Change::Install { key, sequence: _ } => !self.has_net(&key),
            Change::Active { key } => self.has_live_net(&key),
            Change::Start { key, value } => self.may_start(&key, value),
            Change::Row {
                partner: _,
                key: _,
                attribute: _,
            } => true,
            Change::Pair {
                first,
                second,
                key: _,
            } => self.is_unpaired(first, second),
            Change::State { state: _ } => true,
            Change::Live { device } => self.has_device(device),
            Change::Removed { device } => self.lacks_device(device),
            Change::Roll { rollover: _ } => true,
            Change::Told { device } => self.has_device(device),
            Change::Untold { device } => self.has_device(device),
        }
    }

    /// Returns whether the rules for records stand after a change that may be made.
    #[tactic(auto, unfolding(law_change_fits::specs::Fitting::leaves_rules))]
    fn leaves_rules(&self, change: &Change) -> bool
        ensures { result ≡ leaves_rules (edit change.now) (state_of self.now) }
    {
        match *change {
            Change::Floor {
                layer,
                key,
                sender,
                value,
            } => self.has_floor_room(layer, &key, sender, value),
            Change::DropNet { key } => !is_key(&self.active, &key),
            Change::Install {
                key: _,
                sequence: _,
            } => self.has_net_room(),
            Change::Row {
                partner,
                key,
                attribute,
            } => self.has_link_room(partner, &key, attribute),
            Change::Pair {
                first,
                second,
                key: _,
            } => self.has_pair_room(first, second),
            Change::State { state } => self.may_enter(state),
            Change::Roll { rollover } => self.may_roll(rollover),
            _ => true,
        }
    }

    /// Returns whether the node is the centre.
    fn is_centre(&self) -> bool
        ensures { result ≡ is_centre (state_of self.now).role }
    {
        matches!(self.role, Role::Centre)
    }

    /// Returns the row of a network key.
    #[tactic(auto, using(crate::proofs::FindLemmas::find_map))]
    pub(crate) fn net_row(&self, key: &Key) -> Option<&NetRow>
        ensures { option_map net_key (option_copied result) ≡ net_of key.now.0 (state_of self.now) }
    {
        key_row(self.nets.as_slice(), key)
    }

    /// Returns whether a network key is in use.
    fn has_live_net(&self, key: &Key) -> bool
        ensures { result ≡ live_net key.now.0 (state_of self.now) }
    {
        is_live_row(self.net_row(key))
    }

    /// Returns whether a network key has a row.
    #[tactic(auto, using(crate::proofs::Mapping::any_map))]
    fn has_net(&self, key: &Key) -> bool
        ensures { result ≡ list_any (λ r. same_key r.key key.now.0) (state_of self.now).nets }
    {
        has_key(self.nets.as_slice(), key)
    }

    /// Returns whether a link key is in use.
    #[tactic(auto, using(crate::proofs::Mapping::any_map))]
    fn has_live_link(&self, partner: Eui, key: &Key) -> bool
        ensures { result ≡ live_link partner.0 key.now.0 (state_of self.now) }
    {
        has_live_row(self.links.as_slice(), partner, key)
    }

    /// Returns whether a limit isn't below the one that stands.
    fn may_reserve(&self, layer: Layer, limit: u32) -> bool
        ensures { result ≡ may_change (Reserve (model_layer layer) limit) (state_of self.now) }
    {
        match layer {
            Layer::Nwk => self.may_reserve_nwk(limit),
            Layer::Aps => self.aps_limit <= limit,
        }
    }

    /// Returns whether there is an active network key, and a limit isn't below its own.
    #[tactic(auto, unfolding(zb_model::specs::State::stored_limit))]
    fn may_reserve_nwk(&self, limit: u32) -> bool
        ensures { result ≡ may_change (Reserve Nwk limit) (state_of self.now) }
    {
        match self.active_row() {
            Some(row) => row.limit <= limit,
            None => false,
        }
    }

    /// Returns whether a floor isn't below the one that stands, under a key in use.
    fn may_store(&self, layer: Layer, key: &Key, sender: Eui, value: u32) -> bool
        ensures { result ≡ may_change (Floor (model_layer layer) key.now.0 sender.0 value) (state_of self.now) }
    {
        match layer {
            Layer::Nwk => may_store_in(self.net_row(key), sender, value),
            Layer::Aps => self.has_live_link(sender, key) && self.link_stored(sender, key) <= value,
        }
    }

    /// Returns the stored floor of a link key: 0 where there is no row.
    #[tactic(auto, using(crate::proofs::FindLemmas::find_map))]
    fn link_stored(&self, partner: Eui, key: &Key) -> u32
        ensures { result ≡ link_stored (find (is_link partner.0 key.now.0) (state_of self.now).links) }
    {
        stored_of(link_row(self.links.as_slice(), partner, key))
    }

    /// Returns whether a first counter isn't below the limit of its network key.
    fn may_start(&self, key: &Key, value: u32) -> bool
        ensures { result ≡ (list_any (λ r. same_key r.key key.now.0) (state_of self.now).nets
            && nat_le (net_limit (net_of key.now.0 (state_of self.now))) value) }
    {
        self.has_net(key) && limit_in(self.net_row(key)) <= value
    }

    /// Returns whether two devices have no key.
    #[tactic(auto, unfolding(zb_model::specs::State::pair_of), using(crate::proofs::FindLemmas::find_map))]
    fn is_unpaired(&self, first: Eui, second: Eui) -> bool
        ensures { result ≡ is_none (pair_of (state_of self.now) first.0 second.0) }
    {
        match pair_row(self.pairs.as_slice(), first, second) {
            Some(_) => false,
            None => true,
        }
    }

    /// Returns whether the node is the centre, and a device is live.
    #[tactic(auto, unfolding(zb_model::specs::State::is_live), using(crate::proofs::Mapping::any_map))]
    fn has_device(&self, device: Eui) -> bool
        ensures { result ≡ (is_centre (state_of self.now).role && is_live (state_of self.now) device.0) }
    {
        self.is_centre() && has_live(self.links.as_slice(), device)
    }

    /// Returns whether the node is the centre, and a device isn't live.
    #[tactic(auto, unfolding(zb_model::specs::State::is_live), using(crate::proofs::Mapping::any_map))]
    fn lacks_device(&self, device: Eui) -> bool
        ensures { result ≡ (is_centre (state_of self.now).role && not (is_live (state_of self.now) device.0)) }
    {
        self.is_centre() && !has_live(self.links.as_slice(), device)
    }

    /// Returns whether a floor has a place.
    #[tactic(auto, unfolding(law_change_fits::specs::Fitting::leaves_rules))]
    fn has_floor_room(&self, layer: Layer, key: &Key, sender: Eui, value: u32) -> bool
        ensures { result ≡ leaves_rules (Floor (model_layer layer) key.now.0 sender.0 value) (state_of self.now) }
    {
        match layer {
            Layer::Nwk => has_room_in(self.net_row(key), sender, value),
            Layer::Aps => true,
        }
    }

    /// Returns whether there is room for another network key, and less than two are in use.
    fn has_net_room(&self) -> bool
        ensures { result ≡ (nat_lt (length (state_of self.now).nets) most_nets
            && nat_lt (length (live_nets (state_of self.now))) 2) }
    {
        self.has_net_slot() && self.has_few_live()
    }

    /// Returns whether there is room for another network key.
    fn has_net_slot(&self) -> bool
        ensures { result ≡ nat_lt (length (state_of self.now).nets) most_nets }
    {
        self.nets.as_slice().len() < 256
    }

    /// Returns whether less than two network keys are in use.
    fn has_few_live(&self) -> bool
        ensures { result ≡ nat_lt (length (live_nets (state_of self.now))) 2 }
    {
        count_live(self.nets.as_slice()) < 2
    }

    /// Returns whether a link key has a row or room for one, and no rival.
    fn has_link_room(&self, partner: Eui, key: &Key, attribute: Attribute) -> bool
        ensures { result ≡ move_leaves (Row partner.0 key.now.0 (model_attribute attribute)) (state_of self.now) }
    {
        self.may_hold(partner, key) && !self.has_rival(partner, key, attribute)
    }

    /// Returns whether a link key has a row, in use or dropped.
    #[tactic(auto, using(crate::proofs::Mapping::any_map))]
    fn has_link(&self, partner: Eui, key: &Key) -> bool
        ensures { result ≡ has_link partner.0 key.now.0 (state_of self.now).links }
    {
        has_row(self.links.as_slice(), partner, key)
    }

    /// Returns whether a link key has a row or room for one.
    fn may_hold(&self, partner: Eui, key: &Key) -> bool
        ensures { result ≡ (has_link partner.0 key.now.0 (state_of self.now).links
            || (nat_lt (length (state_of self.now).links) (most_links (state_of self.now).role)
            && not (key_is_used key.now.0 (state_of self.now).links))) }
    {
        self.has_link(partner, key) || self.may_add_link(key)
    }

    /// Returns whether there is room for another link key, which isn't used.
    fn may_add_link(&self, key: &Key) -> bool
        ensures { result ≡ (nat_lt (length (state_of self.now).links) (most_links (state_of self.now).role)
            && not (key_is_used key.now.0 (state_of self.now).links)) }
    {
        self.has_link_slot() && !self.uses_key(key)
    }

    /// Returns whether there is room for another link key.
    fn has_link_slot(&self) -> bool
        ensures { result ≡ nat_lt (length (state_of self.now).links) (most_links (state_of self.now).role) }
    {
        self.links.as_slice().len() < link_room(self.role)
    }

    /// Returns whether a link key has a row of whatever partner.
    #[tactic(auto, using(crate::proofs::Mapping::any_map))]
    fn uses_key(&self, key: &Key) -> bool
        ensures { result ≡ key_is_used key.now.0 (state_of self.now).links }
    {
        uses_key(self.links.as_slice(), key)
    }

    /// Returns whether a partner has another row in use that is offered where this one is to be, or else isn't.
    #[tactic(auto, using(crate::proofs::Mapping::any_map))]
    fn has_rival(&self, partner: Eui, key: &Key, attribute: Attribute) -> bool
        ensures { result ≡ list_any (is_rival partner.0 key.now.0 (model_attribute attribute))
            (state_of self.now).links }
    {
        has_rival(self.links.as_slice(), partner, key, attribute)
    }

    /// Returns whether there is room for another pair, whose first address is the smaller one.
    fn has_pair_room(&self, first: Eui, second: Eui) -> bool
        ensures { result ≡ (is_centre (state_of self.now).role
            && (nat_lt (length (state_of self.now).pairs) most_pairs && nat_lt first.0 second.0)) }
    {
        self.is_centre() && self.pairs.as_slice().len() < 256 && first.0 < second.0
    }

    /// Returns whether the node may have a state: the centre has the first one alone.
    fn may_enter(&self, state: State) -> bool
        ensures { result ≡ (not (is_centre (state_of self.now).role) || is_fresh (model_state state)) }
    {
        !self.is_centre() || matches!(state, State::Fresh)
    }

    /// Returns whether the node may have a rollover: it begins in the centre alone.
    fn may_roll(&self, rollover: Rollover) -> bool
        ensures { result ≡ (not (is_sending rollover) || is_centre (state_of self.now).role) }
    {
        matches!(rollover, Rollover::Idle) || self.is_centre()
    }
}

/// Returns how many network keys are in use.
fn count_live(rows: &[NetRow]) -> usize
    ensures { result ≡ length (filter (λ r. (net_key r).live) rows.now) }
{
    let mut count = 0;
    for row in rows {
        if row.live {
            count += 1;
        }
    }
    count
}

/// Returns whether that key is the active one.
fn is_key(active: &Option<Key>, key: &Key) -> bool
    ensures { result ≡ is_active_key (active_bytes active.now) key.now.0 }
{
    match active {
        Some(active) => *active == *key,
        None => false,
    }
}

/// Returns whether a network key that was looked for is in use.
fn is_live_row(row: Option<&NetRow>) -> bool
    ensures { result ≡ row_is_live (option_map net_key (option_copied row.entry)) }
{
    match row {
        Some(row) => row.live,
        None => false,
    }
}

/// Returns whether a network key that was looked for is in use, and a sender's stored floor under it isn't above a
/// value.
fn may_store_in(row: Option<&NetRow>, sender: Eui, value: u32) -> bool
    ensures { result ≡ (row_is_live (option_map net_key (option_copied row.entry))
        && nat_le (net_stored sender.0 (option_map net_key (option_copied row.entry))) value) }
{
    match row {
        Some(row) => row.live && floor_of(row, sender).stored <= value,
        None => false,
    }
}

/// Returns the limit of a network key that was looked for.
fn limit_in(row: Option<&NetRow>) -> u32
    ensures { result ≡ net_limit (option_map net_key (option_copied row.entry)) }
{
    match row {
        Some(row) => row.limit,
        None => 0,
    }
}

/// Returns whether a sender has a floor under a network key that was looked for, or room for one that isn't 0.
fn has_room_in(row: Option<&NetRow>, sender: Eui, value: u32) -> bool
    ensures { result ≡ floor_has_room sender.0 value (option_map net_key (option_copied row.entry)) }
{
    match row {
        Some(row) => has_floor_or_room(row, sender, value),
        None => true,
    }
}

/// Returns whether a sender has a floor under a network key, or room for one that isn't 0.
#[tactic(auto, using(crate::proofs::Mapping::any_map))]
fn has_floor_or_room(row: &NetRow, sender: Eui, value: u32) -> bool
    ensures { result ≡ floor_has_room sender.0 value (Some (net_key row.now)) }
{
    has_floor(row.floors.as_slice(), sender) || has_new_room(row, value)
}

/// Returns whether there is room for another floor under a network key, which isn't 0.
fn has_new_room(row: &NetRow, value: u32) -> bool
    ensures { result ≡ (nat_lt 0 value && nat_lt (length (net_key row.now).floors) most_senders) }
{
    0 < value && row.floors.as_slice().len() < 64
}

/// Returns whether a sender has a floor.
fn has_floor(floors: &[SenderFloor], sender: Eui) -> bool
    ensures { result ≡ list_any (λ f. nat_eq (heard_floor f).sender sender.0) floors.now }
{
    floors.iter().any(|floor| floor.sender.0 == sender.0)
}

/// Returns whether a partner's link key is in use.
fn has_live_row(rows: &[LinkRow], partner: Eui, key: &Key) -> bool
    ensures { result ≡ list_any (λ r. is_link partner.0 key.now.0 (link_key r) && (link_key r).live) rows.now }
{
    rows.iter().any(|row| row.partner.0 == partner.0 && row.key == *key && row.live)
}

/// Returns the row of a partner's link key.
fn link_row<'a>(rows: &'a [LinkRow], partner: Eui, key: &Key) -> Option<&'a LinkRow>
    ensures { option_copied result ≡ find (λ r. is_link partner.0 key.now.0 (link_key r)) rows.now }
{
    rows.iter()
        .find(|row| row.partner.0 == partner.0 && row.key == *key)
}

/// Returns the stored floor of a link key that was looked for.
fn stored_of(row: Option<&LinkRow>) -> u32
    ensures { result ≡ link_stored (option_map link_key (option_copied row.entry)) }
{
    match row {
        Some(row) => row.floor.stored,
        None => 0,
    }
}

/// Returns whether a link key has a row of whatever partner.
fn uses_key(rows: &[LinkRow], key: &Key) -> bool
    ensures { result ≡ list_any (λ r. same_key (link_key r).key key.now.0) rows.now }
{
    rows.iter().any(|row| row.key == *key)
}

/// Returns whether a partner has another row in use that is offered where this one is to be, or else isn't.
fn has_rival(rows: &[LinkRow], partner: Eui, key: &Key, attribute: Attribute) -> bool
    ensures { result ≡ list_any (λ r. is_rival partner.0 key.now.0 (model_attribute attribute) (link_key r)) rows.now }
{
    rows.iter()
        .any(|row| is_rival_of(row, partner, key, attribute))
}

/// Returns whether it is another row of the partner in use, which is offered where this one is to be, or else isn't.
fn is_rival_of(row: &LinkRow, partner: Eui, key: &Key, attribute: Attribute) -> bool
    ensures { result ≡ is_rival partner.0 key.now.0 (model_attribute attribute) (link_key row.now) }
{
    row.is_live_of(partner)
        && !row.is_of(partner, key)
        && row.is_unverified() == matches!(attribute, Attribute::Unverified)
}
