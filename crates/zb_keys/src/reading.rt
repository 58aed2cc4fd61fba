//! The readers of tables, and what seals and accepted frames do to them.
ghost use Rattle.std.specs.Prelude.{◌≡◌, ◌<◌, ◌-◌, ◌^◌, [], Some, find, map, nat_eq, option_map};
ghost use Rattle.std.specs.Option.{option_copied};
ghost use Rattle.zb_node_types.specs.Changes.{model_role, model_layer, model_state, is_sending};
ghost use Rattle.zb_record.specs.RowViews.{heard_floor, net_key, link_key, pair_key};
ghost use Rattle.zb_keys.specs.Reading.{IsNext, outgoing_of, floor_of_row};
ghost use Rattle.zb_model.specs.Data.{Nwk, Term};
ghost use Rattle.zb_model.specs.State.{after_hearing, after_sealing, with_declared, current, offered, pair_of, active_row, newest};

use crate::Tables;
use zb_base::{Eui, Key, Layer, Role, Rollover, State};
use zb_counter::{Floor, Outgoing};
use zb_record::link_row::{current_row, offered_row};
use zb_record::pair_row::pair_row;
use zb_record::{LinkRow, NetRow, Pair, SenderFloor};

/// Returns the floor of a sender under a network key: 0 and 0 where none was stored.
#[tactic(auto, unfolding(zb_model::specs::State::sender_floor), using(crate::proofs::FindLemmas::find_map))]
pub fn floor_of(row: &NetRow, sender: Eui) -> Floor
    ensures { result ≡ floor_of_row sender.0 (Some (net_key row.now)) }
{
    match stored_floor(row.floors.as_slice(), sender) {
        Some(floor) => Floor {
            kept: floor.kept,
            stored: floor.stored,
        },
        None => Floor { kept: 0, stored: 0 },
    }
}

/// Returns the floor that was stored of a sender.
fn stored_floor<'a>(floors: &'a [SenderFloor], sender: Eui) -> Option<&'a SenderFloor>
    ensures { option_copied result ≡ find (λ f. nat_eq (heard_floor f).sender sender.0) floors.now }
{
    floors.iter().find(|floor| floor.sender.0 == sender.0)
}

impl Tables {
    /// Returns the part that the node plays.
    pub fn role(&self) -> Role
        ensures { model_role result ≡ self.now.role }
    {
        self.contents.role
    }

    /// Returns the network keys, in the order in which they came.
    pub fn nets(&self) -> &[NetRow]
        ensures { map net_key result.now ≡ self.now.nets }
    {
        self.contents.nets.as_slice()
    }

    /// Returns the link keys, in the order in which they came.
    pub fn links(&self) -> &[LinkRow]
        ensures { map link_key result.now ≡ self.now.links }
    {
        self.contents.links.as_slice()
    }

    /// Returns the keys of pairs of devices, in the order in which they came. The centre alone has any.
    pub fn pairs(&self) -> &[Pair]
        ensures { map pair_key result.now ≡ self.now.pairs }
    {
        self.contents.pairs.as_slice()
    }

    /// Returns the state of a router or device.
    pub fn state(&self) -> State
        ensures { model_state result ≡ self.now.state }
    {
        self.contents.state
    }

    /// Returns whether the centre is giving a new network key to its devices.
    pub fn rolling(&self) -> Rollover
        ensures { is_sending result ≡ self.now.sending }
    {
        self.contents.rolling
    }

    /// Returns the outgoing NWK counter that was declared for the start.
    pub fn declared(&self) -> u32
        ensures { result ≡ self.now.declared }
    {
        self.contents.declared
    }

    /// Returns the active network key.
    pub fn active_key(&self) -> Option<Key>
        ensures { option_map (λ k. k.0) result ≡ self.now.active }
    {
        self.contents.active
    }

    /// Returns the row of the active network key.
    pub fn active_row(&self) -> Option<&NetRow>
        ensures { option_map net_key (option_copied result) ≡ active_row self.now }
    {
        self.contents.active_row()
    }

    /// Returns the newest network key in use.
    pub fn newest(&self) -> Option<&NetRow>
        ensures { option_map net_key (option_copied result) ≡ newest self.now }
    {
        self.contents.newest()
    }

    /// Returns the current row of a partner: its link key in use that isn't only offered.
    #[tactic(auto, unfolding(zb_model::specs::State::current), using(crate::proofs::FindLemmas::find_map))]
    pub fn current(&self, partner: Eui) -> Option<&LinkRow>
        ensures { option_map link_key (option_copied result) ≡ current self.now partner.0 }
    {
        current_row(self.contents.links.as_slice(), partner)
    }

    /// Returns the offered row of a partner: its unverified link key in use.
    #[tactic(auto, unfolding(zb_model::specs::State::offered), using(crate::proofs::FindLemmas::find_map))]
    pub fn offered(&self, partner: Eui) -> Option<&LinkRow>
        ensures { option_map link_key (option_copied result) ≡ offered self.now partner.0 }
    {
        offered_row(self.contents.links.as_slice(), partner)
    }

    /// Returns the outgoing counter of a layer, which is reserved in blocks of that size.
    ///
    /// At NWK it is that of the active key.
    pub fn outgoing(&self, layer: Layer, block: u32) -> Outgoing
        ensures { result ≡ outgoing_of (model_layer layer) block self.now }
    {
        self.contents.outgoing(layer, block)
    }

    /// Goes on after a term that was sealed under a base key of a layer.
    ///
    /// Its counter is the next one: at NWK that of the key's row, whether it is the active one or not, at APS the
    /// node's own.
    pub fn sealed_under(&mut self, layer: Layer, key: &Key)
        ensures { (t : Term) → IsNext (model_layer layer) key.now.0 self.old t → self.new ≡ after_sealing t self.old }
    {
        self.contents.seal(layer, key);
    }

    /// Keeps what was accepted of a sender under a base key of a layer.
    ///
    /// At APS the sender is the partner. A dropped network key keeps nothing.
    pub fn heard(&mut self, layer: Layer, key: &Key, sender: Eui, counter: u32)
        requires { counter < 2 ^ 32 - 1 }
        ensures { self.new ≡ after_hearing (model_layer layer) key.now.0 sender.0 counter self.old }
    {
        self.contents.hear(layer, key, sender, counter);
    }

    /// Sets the outgoing NWK counter of the start.
    ///
    /// Requires tables without a network key.
    pub fn declare(&mut self, start: u32)
        requires { self.old.nets ≡ [] }
        ensures { self.new ≡ with_declared Nwk start self.old }
    {
        self.contents.declare(start);
    }

    /// Returns the row of two devices.
    #[tactic(auto, unfolding(zb_model::specs::State::pair_of), using(crate::proofs::FindLemmas::find_map))]
    pub fn pair_between(&self, a: Eui, b: Eui) -> Option<&Pair>
        ensures { option_map pair_key (option_copied result) ≡ pair_of self.now a.0 b.0 }
    {
        pair_row(self.contents.pairs.as_slice(), a, b)
    }
}
