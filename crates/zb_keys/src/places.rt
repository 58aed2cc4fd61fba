//! Rows by their place, counted from 0 in the order in which they came: readers, and what seals and accepted frames do
//! to the row of a place.
ghost use Rattle.std.specs.Prelude.{◌≡◌, ◌<◌, ◌≤◌, ◌-◌, ◌+◌, ◌^◌, IsTrue, is_some, length, map, option_map, slice_get, true};
ghost use Rattle.std.specs.Option.{option_copied};
ghost use Rattle.zb_node_types.specs.Changes.{model_layer};
ghost use Rattle.zb_record.specs.RowViews.{heard_floor, link_key, net_key};
ghost use Rattle.zb_keys.specs.Places.{active_place, floor_of_link, gone_on, heard_from, heard_under, link_at, live_floors, live_key, net_at, net_place, senders_at};
ghost use Rattle.zb_keys.specs.Reading.{floor_of_row};
ghost use Rattle.zb_keys.specs.Tables.{state_of, IsSound};
ghost use Rattle.zb_model.specs.Data.{Aps, Nwk};
ghost use Rattle.zb_model.specs.Fits.{senders_ascend, most_nets};
ghost use Rattle.zb_model.specs.State.{after_counting, next_counter, pair_of, stored_limit};

use crate::contents::Contents;
use crate::{Tables, floor_of};
use zb_base::{Eui, Key, Layer};
use zb_counter::Floor;
use zb_record::net_row::set_net_next;
use zb_record::{LinkRow, NetRow, SenderFloor};

/// Returns the place of a network key among these rows.
fn net_place(rows: &[NetRow], key: &Key) -> Option<u32>
    requires { length rows.now ≤ most_nets }
    ensures { result ≡ net_place 0 key.now.0 (map net_key rows.now) }
{
    for (i, row) in rows.iter().enumerate() {
        if row.key == *key {
            return Some(i as u32);
        }
    }
    None
}

/// Returns the network row of a place.
fn net_at(rows: &[NetRow], place: u32) -> Option<&NetRow>
    ensures { option_copied result ≡ slice_get rows.now place }
{
    match rows.get(place as usize) {
        Some(row) => Some(row),
        None => None,
    }
}

/// Returns the link row of a place.
fn link_at(rows: &[LinkRow], place: u32) -> Option<&LinkRow>
    ensures { option_copied result ≡ slice_get rows.now place }
{
    match rows.get(place as usize) {
        Some(row) => Some(row),
        None => None,
    }
}

/// Returns the sender of a floor by its number.
fn sender_of(floors: &[SenderFloor], at: u32) -> Option<Eui>
    ensures { option_map (λ e. e.0) result ≡ slice_get (map (λ f. f.sender) (map heard_floor floors.now)) at }
{
    match floors.get(at as usize) {
        Some(floor) => Some(floor.sender),
        None => None,
    }
}

/// Returns a sender with a stored floor under a network key in use, by its number.
fn live_sender(row: &NetRow, at: u32) -> Option<Eui>
    ensures { option_map (λ e. e.0) result
        ≡ slice_get (map (λ f. f.sender) (live_floors (Some (net_key row.now)))) at }
{
    if row.live {
        sender_of(row.floors.as_slice(), at)
    } else {
        None
    }
}

/// Returns the key of a network row that is in use.
fn live_key(row: Option<&NetRow>) -> Option<Key>
    ensures { option_map (λ k. k.0) result ≡ live_key (option_map net_key (option_copied row.entry)) }
{
    match row {
        Some(row) => if row.live { Some(row.key) } else { None },
        None => None,
    }
}

impl Contents {
    /// Goes on from an outgoing counter of a layer: at NWK from that of the active key.
    fn go_on(&mut self, layer: Layer, next: u32)
        requires sound { IsSound self.old }
        ensures state { state_of self.new ≡ gone_on (model_layer layer) next (state_of self.old) }
        ensures sound { IsSound self.new }
    {
        match layer {
            Layer::Nwk => self.go_on_nwk(next),
            Layer::Aps => self.aps_next = next,
        }
    }

    /// Goes on from an outgoing counter of the active network key.
    fn go_on_nwk(&mut self, next: u32)
        requires sound { IsSound self.old }
        ensures state { state_of self.new ≡ gone_on Nwk next (state_of self.old) }
        ensures sound { IsSound self.new }
    {
        match self.active {
            Some(key) => set_net_next(&mut self.nets, &key, next),
            None => {}
        }
    }
}

impl Tables {
    /// Returns the place of the row of the active network key.
    pub fn active(&self) -> Option<u32>
        ensures { result ≡ active_place self.now }
    {
        self.keep_rules();
        match self.active_key() {
            Some(key) => net_place(self.nets(), &key),
            None => None,
        }
    }

    /// Returns the floor of a sender in the network row of a place.
    ///
    /// It is 0 and 0 where none was stored, as in a row that isn't there.
    pub fn floor(&self, place: u32, sender: Eui) -> Floor
        ensures { result ≡ floor_of_row sender.0 (net_at place self.now) }
    {
        match net_at(self.nets(), place) {
            Some(row) => floor_of(row, sender),
            None => Floor { kept: 0, stored: 0 },
        }
    }

    /// Returns the sender number `at` of those with a stored floor in the network row in use of a place.
    ///
    /// Senders are counted from 0, by ascending address.
    pub fn sender(&self, place: u32, at: u32) -> Option<Eui>
        ensures value { option_map (λ e. e.0) result ≡ slice_get (senders_at place self.now) at }
        ensures ascends { senders_ascend (live_floors (net_at place self.now)) ≡ true }
    {
        self.keep_rules();
        match net_at(self.nets(), place) {
            Some(row) => live_sender(row, at),
            None => None,
        }
    }

    /// Counts a frame that was sealed at a layer: at NWK under the active key.
    ///
    /// Requires that the next counter of the layer is reserved.
    pub fn sealed(&mut self, layer: Layer)
        requires { next_counter (model_layer layer) self.old < stored_limit (model_layer layer) self.old }
        ensures { self.new ≡ after_counting (model_layer layer) self.old }
    {
        let counter = self.outgoing(layer, 1);
        self.contents.go_on(layer, counter.next + 1);
    }

    /// Keeps what was accepted of a sender under the network key of a place.
    ///
    /// Requires a counter that was judged fresh, and that the floor to be stored for it is stored. A dropped row keeps
    /// nothing.
    pub fn accepted_net(&mut self, place: u32, sender: Eui, counter: u32)
        requires below_last { counter < 2 ^ 32 - 1 }
        requires not_stale { (floor_of_row sender.0 (net_at place self.old)).kept ≤ counter }
        requires stored { IsTrue (is_some (live_key (net_at place self.old)))
            → counter < (floor_of_row sender.0 (net_at place self.old)).stored }
        ensures { self.new ≡ heard_under (live_key (net_at place self.old)) sender.0 counter self.old }
    {
        match live_key(net_at(self.nets(), place)) {
            Some(key) => self.heard(Layer::Nwk, &key, sender, counter),
            None => {}
        }
    }

    /// Keeps what was accepted of a partner under its link key of a place, in use or dropped.
    ///
    /// Requires a counter that was judged fresh, and that the floor to be stored for it is stored.
    pub fn accepted_link(&mut self, place: u32, counter: u32)
        requires below_last { counter < 2 ^ 32 - 1 }
        requires not_stale { (floor_of_link (link_at place self.old)).kept ≤ counter }
        requires stored { IsTrue (is_some (link_at place self.old))
            → counter < (floor_of_link (link_at place self.old)).stored }
        ensures { self.new ≡ heard_from (link_at place self.old) counter self.old }
    {
        match link_at(self.links(), place) {
            Some(row) => {
                let partner = row.partner;
                let key = row.key;
                self.heard(Layer::Aps, &key, partner, counter);
            }
            None => {}
        }
    }

    /// Returns the key that the centre gave two devices for one another.
    pub fn pair_key(&self, a: Eui, b: Eui) -> Option<Key>
        ensures { option_map (λ k. k.0) result ≡ option_map (λ p. p.key) (pair_of self.now a.0 b.0) }
    {
        match self.pair_between(a, b) {
            Some(pair) => Some(pair.key),
            None => None,
        }
    }
}
