//! What the tables of a node hold, and how one change changes it.
ghost use Rattle.std.specs.Option.{option_copied};
ghost use Rattle.std.specs.Prelude.{ℕ, List, Some, ◌≡◌, ◌<◌, ◌≤◌, ◌-◌, ◌^◌, option_map, [], ◌∷◌, ◌++◌, true, false, length, vec_capacity, vec_len, All};
ghost use Rattle.zb_node_types.specs.Changes.{model_layer, model_attribute, model_state, edit, is_sending};
ghost use Rattle.zb_record.specs.RowViews.{net_key};
ghost use Rattle.zb_record.specs.Senders.{HasRoom, live_floor};
ghost use Rattle.zb_keys.specs.Reading.{outgoing_of, next_under, behind_next, IsNext};
ghost use Rattle.zb_keys.specs.Tables.{state_of, with_row, Becomes, IsSound, Forgets};
ghost use Rattle.zb_model.specs.Data.{Term, Nwk, Aps, Reserve, Floor, Start, Moved, DropNet, DropLink, Install, Active, Row, Pair as Paired, Became, Live, Removed, Roll, Told, Untold};
ghost use Rattle.zb_model.specs.State.{applied, shown, at_net, next_counter, stored_limit, active_row, after_hearing, after_sealing, last_where, newest, with_declared};
ghost use Rattle.zb_model.specs.Fits.{keeps_rules};

use zb_base::{Attribute, Eui, Key, Layer, Role, Rollover, State};
use zb_counter::Outgoing;
use zb_node_types::Change;
use zb_record::link_row::{
    drop_link, has_row, has_told, hear_link, revive_link, store_link, tell_links, untell_links,
};
use zb_record::net_row::{
    drop_net, has_key, hear_net, key_row, reserve_net, set_net_next, start_net, store_net,
};
use zb_record::pair_row::{drop_pairs, has_pair};
use zb_record::{LinkRow, NetRow, Pair};

/// The stable state of a node, with the next counters and the floors in memory.
#[derive(Debug, Drop)]
pub(crate) struct Contents {
    pub(crate) role: Role,
    pub(crate) state: State,
    /// The outgoing counter of the first active network key.
    pub(crate) declared: u32,
    pub(crate) aps_limit: u32,
    pub(crate) aps_next: u32,
    pub(crate) rolling: Rollover,
    pub(crate) nets: Vec<NetRow>,
    /// The active network key.
    pub(crate) active: Option<Key>,
    pub(crate) links: Vec<LinkRow>,
    pub(crate) pairs: Vec<Pair>,
}

#[tactic(auto, unfolding(zb_model::specs::State::applied, zb_model::specs::State::shown))]
impl Contents {
    /// Returns the row of the active network key.
    pub(crate) fn active_row(&self) -> Option<&NetRow>
        ensures { option_map net_key (option_copied result) ≡ active_row (state_of self.now) }
    {
        match &self.active {
            Some(key) => key_row(self.nets.as_slice(), key),
            None => None,
        }
    }

    /// Returns the newest network key in use.
    pub(crate) fn newest(&self) -> Option<&NetRow>
        ensures { option_map net_key (option_copied result) ≡ newest (state_of self.now) }
    {
        newest_live(self.nets.as_slice())
    }

    /// Returns the outgoing counter of a layer.
    pub(crate) fn outgoing(&self, layer: Layer, block: u32) -> Outgoing
        ensures { result ≡ outgoing_of (model_layer layer) block (state_of self.now) }
    {
        match layer {
            Layer::Nwk => self.outgoing_nwk(block),
            Layer::Aps => self.outgoing_aps(block),
        }
    }

    /// Returns the outgoing NWK counter: that of the active key, or the declared one while none is active.
    pub(crate) fn outgoing_nwk(&self, block: u32) -> Outgoing
        ensures { result ≡ outgoing_of Nwk block (state_of self.now) }
    {
        match self.active_row() {
            Some(row) => Outgoing {
                next: row.next,
                limit: row.limit,
                block,
            },
            None => Outgoing {
                next: self.declared,
                limit: self.declared,
                block,
            },
        }
    }

    /// Returns the outgoing counter of the application support layer.
    #[tactic(auto, unfolding(zb_model::specs::State::next_counter, zb_model::specs::State::stored_limit))]
    fn outgoing_aps(&self, block: u32) -> Outgoing
        ensures { result ≡ outgoing_of Aps block (state_of self.now) }
    {
        Outgoing {
            next: self.aps_next,
            limit: self.aps_limit,
            block,
        }
    }

    /// Sets the outgoing NWK counter of the start, before there is a network key.
    pub(crate) fn declare(&mut self, start: u32)
        requires sound { IsSound self.old }
        requires empty { (state_of self.old).nets ≡ [] }
        ensures state { state_of self.new ≡ with_declared Nwk start (state_of self.old) }
        ensures sound { IsSound self.new }
    {
        self.declared = start;
    }

    /// Goes on after a term that was sealed under a key of a layer with its next counter.
    pub(crate) fn seal(&mut self, layer: Layer, key: &Key)
        requires sound { IsSound self.old }
        ensures state { (t : Term) → IsNext (model_layer layer) key.now.0 (state_of self.old) t
            → state_of self.new ≡ after_sealing t (state_of self.old) }
        ensures sound { IsSound self.new }
    {
        match layer {
            Layer::Nwk => self.seal_nwk(key),
            Layer::Aps => self.seal_aps(),
        }
    }

    /// Goes on after a term that was sealed under a network key.
    fn seal_nwk(&mut self, key: &Key)
        requires sound { IsSound self.old }
        ensures state { (t : Term) → IsNext Nwk key.now.0 (state_of self.old) t
            → state_of self.new ≡ after_sealing t (state_of self.old) }
        ensures sound { IsSound self.new }
    {
        match self.behind_next(key) {
            Some(next) => set_net_next(&mut self.nets, key, next),
            None => {}
        }
    }

    /// Returns the counter after the next one of a network key, unless that is the greatest.
    fn behind_next(&self, key: &Key) -> Option<u32>
        ensures { result ≡ behind_next (next_under Nwk key.now.0 (state_of self.now)) }
    {
        match self.net_row(key) {
            Some(row) => behind(row.next),
            None => None,
        }
    }

    /// Goes on after a term that was sealed at the application support layer.
    fn seal_aps(&mut self)
        requires sound { IsSound self.old }
        ensures state { (key : List ℕ) (t : Term) → IsNext Aps key (state_of self.old) t
            → state_of self.new ≡ after_sealing t (state_of self.old) }
        ensures sound { IsSound self.new }
    {
        match behind(self.aps_next) {
            Some(next) => self.aps_next = next,
            None => {}
        }
    }

    /// Keeps what was accepted of a sender under a key of a layer.
    pub(crate) fn hear(&mut self, layer: Layer, key: &Key, sender: Eui, counter: u32)
        requires sound { IsSound self.old }
        requires below_last { counter < 2 ^ 32 - 1 }
        ensures state { state_of self.new
            ≡ after_hearing (model_layer layer) key.now.0 sender.0 counter (state_of self.old) }
        ensures sound { IsSound self.new }
    {
        match layer {
            Layer::Nwk => self.hear_nwk(key, sender, counter),
            Layer::Aps => self.hear_aps(key, sender, counter),
        }
    }

    /// Keeps what was accepted of a sender under a network key.
    pub(crate) fn hear_nwk(&mut self, key: &Key, sender: Eui, counter: u32)
        requires sound { IsSound self.old }
        requires below_last { counter < 2 ^ 32 - 1 }
        ensures state { state_of self.new ≡ after_hearing Nwk key.now.0 sender.0 counter (state_of self.old) }
        ensures sound { IsSound self.new }
    {
        hear_net(&mut self.nets, key, sender, counter + 1);
    }

    /// Keeps what was accepted of a partner under a link key.
    pub(crate) fn hear_aps(&mut self, key: &Key, partner: Eui, counter: u32)
        requires sound { IsSound self.old }
        requires below_last { counter < 2 ^ 32 - 1 }
        ensures state { state_of self.new ≡ after_hearing Aps key.now.0 partner.0 counter (state_of self.old) }
        ensures sound { IsSound self.new }
    {
        hear_link(&mut self.links, partner, key, counter + 1);
    }

    /// Makes one change.
    pub(crate) fn change(&mut self, change: &Change)
        requires rules { keeps_rules (shown (applied (edit change.now) (state_of self.old))) ≡ true }
        requires sound { IsSound self.old }
        ensures state { state_of self.new ≡ shown (applied (edit change.now) (state_of self.old)) }
        ensures sound { IsSound self.new }
    {
        match *change {
            Change::Reserve { layer, limit } => self.reserve(layer, limit),
            Change::Floor {
                layer,
                key,
                sender,
                value,
            } => self.store(layer, &key, sender, value),
            Change::Draw { key: _ } => {}
            Change::DropNet { key } => self.drop_net(&key),
            Change::DropLink { partner, key } => self.drop_link(partner, &key),
            Change::Install { key, sequence } => self.install(key, sequence),
            Change::Active { key } => self.activate(key),
            Change::Start { key, value } => self.start(&key, value),
            Change::Row {
                partner,
                key,
                attribute,
            } => self.set_link(partner, key, attribute),
            Change::Pair { first, second, key } => self.add_pair(first, second, key),
            Change::State { state } => self.enter(state),
            Change::Live { device } => self.tell(device, false),
            Change::Removed { device } => self.remove_pairs(device),
            Change::Roll { rollover } => self.roll(rollover),
            Change::Told { device } => self.tell(device, true),
            Change::Untold { device } => self.tell(device, false),
        }
    }

    /// Reserves outgoing counters of a layer.
    fn reserve(&mut self, layer: Layer, limit: u32)
        requires { Forgets (state_of self.old) }
        ensures { Becomes (shown (applied (Reserve (model_layer layer) limit) (state_of self.old))) self.old self.new }
    {
        match layer {
            Layer::Nwk => self.reserve_nwk(limit),
            Layer::Aps => self.reserve_aps(limit),
        }
    }

    /// Stores a floor of a layer.
    fn store(&mut self, layer: Layer, key: &Key, sender: Eui, value: u32)
        requires forgets { Forgets (state_of self.old) }
        requires room { layer ≡ Layer.Nwk
            → All HasRoom (at_net key.now.0 (live_floor sender.0 value) (state_of self.old).nets) }
        ensures { Becomes (shown (applied (Floor (model_layer layer) key.now.0 sender.0 value)
            (state_of self.old))) self.old self.new }
    {
        match layer {
            Layer::Nwk => self.store_nwk(key, sender, value),
            Layer::Aps => self.store_aps(key, sender, value),
        }
    }

    /// Reserves outgoing counters of the active network key.
    fn reserve_nwk(&mut self, limit: u32)
        requires { Forgets (state_of self.old) }
        ensures { Becomes (shown (applied (Reserve Nwk limit) (state_of self.old))) self.old self.new }
    {
        if let Some(key) = self.active {
            reserve_net(&mut self.nets, &key, limit);
        }
    }

    /// Reserves outgoing counters of the application support layer.
    pub(crate) fn reserve_aps(&mut self, limit: u32)
        requires { Forgets (state_of self.old) }
        ensures { Becomes (shown (applied (Reserve Aps limit) (state_of self.old))) self.old self.new }
    {
        self.aps_limit = self.aps_limit.max(limit);
    }

    /// Stores a sender's floor under a network key.
    fn store_nwk(&mut self, key: &Key, sender: Eui, value: u32)
        requires forgets { Forgets (state_of self.old) }
        requires room { All HasRoom (at_net key.now.0 (live_floor sender.0 value) (state_of self.old).nets) }
        ensures { Becomes (shown (applied (Floor Nwk key.now.0 sender.0 value) (state_of self.old)))
            self.old self.new }
    {
        store_net(&mut self.nets, key, sender, value);
    }

    /// Stores a partner's floor under a link key.
    fn store_aps(&mut self, key: &Key, sender: Eui, value: u32)
        requires { Forgets (state_of self.old) }
        ensures { Becomes (shown (applied (Floor Aps key.now.0 sender.0 value) (state_of self.old)))
            self.old self.new }
    {
        store_link(&mut self.links, sender, key, value);
    }

    /// Drops a network key.
    fn drop_net(&mut self, key: &Key)
        requires { Forgets (state_of self.old) }
        ensures { Becomes (shown (applied (Moved (DropNet key.now.0)) (state_of self.old))) self.old self.new }
    {
        drop_net(&mut self.nets, key);
    }

    /// Drops a link key.
    fn drop_link(&mut self, partner: Eui, key: &Key)
        requires { Forgets (state_of self.old) }
        ensures { Becomes (shown (applied (Moved (DropLink partner.0 key.now.0))
            (state_of self.old))) self.old self.new }
    {
        drop_link(&mut self.links, partner, key);
    }

    /// Adds a network key, for which there is room.
    fn install(&mut self, key: Key, sequence: u8)
        requires forgets { Forgets (state_of self.old) }
        requires fits { length (applied (Moved (Install key.0 sequence))
            (state_of self.old)).nets ≤ vec_capacity self.old.nets }
        ensures { Becomes (shown (applied (Moved (Install key.0 sequence)) (state_of self.old))) self.old self.new }
    {
        self.add_net(NetRow::installed(key, sequence));
    }

    /// Adds the row of a network key that has none, for which there is room.
    pub(crate) fn add_net(&mut self, row: NetRow)
        requires forgets { Forgets (state_of self.old) }
        requires live { (net_key row).live ≡ true }
        requires fits { length (with_row (net_key row) (state_of self.old)).nets ≤ vec_capacity self.old.nets }
        ensures { Becomes (shown (with_row (net_key row) (state_of self.old))) self.old self.new }
    {
        if !has_key(self.nets.as_slice(), &row.key) {
            add(&mut self.nets, row);
        }
    }

    /// Makes a network key the active one.
    fn activate(&mut self, key: Key)
        requires { Forgets (state_of self.old) }
        ensures { Becomes (shown (applied (Moved (Active key.0)) (state_of self.old))) self.old self.new }
    {
        self.active = Some(key);
    }

    /// Begins counting under a network key.
    fn start(&mut self, key: &Key, value: u32)
        requires { Forgets (state_of self.old) }
        ensures { Becomes (shown (applied (Start key.now.0 value) (state_of self.old))) self.old self.new }
    {
        start_net(&mut self.nets, key, value);
    }

    /// Brings a link key into use, for which there is room.
    fn set_link(&mut self, partner: Eui, key: Key, attribute: Attribute)
        requires forgets { Forgets (state_of self.old) }
        requires fits { length (applied (Moved (Row partner.0 key.0 (model_attribute attribute)))
            (state_of self.old)).links ≤ vec_capacity self.old.links }
        ensures { Becomes (shown (applied (Moved (Row partner.0 key.0 (model_attribute attribute)))
            (state_of self.old))) self.old self.new }
    {
        let told = has_told(self.links.as_slice(), partner);
        if has_row(self.links.as_slice(), partner, &key) {
            revive_link(&mut self.links, partner, &key, attribute, told);
        } else {
            let row = LinkRow::given(partner, key, attribute, told);
            add(&mut self.links, row);
        }
    }

    /// Adds a key of two devices, for which there is room.
    fn add_pair(&mut self, first: Eui, second: Eui, key: Key)
        requires forgets { Forgets (state_of self.old) }
        requires fits { length (applied (Moved (Paired first.0 second.0 key.0))
            (state_of self.old)).pairs ≤ vec_capacity self.old.pairs }
        ensures { Becomes (shown (applied (Moved (Paired first.0 second.0 key.0))
            (state_of self.old))) self.old self.new }
    {
        if !has_pair(self.pairs.as_slice(), first, second) {
            let pair = Pair { first, second, key };
            add(&mut self.pairs, pair);
        }
    }

    /// Enters a state.
    fn enter(&mut self, state: State)
        requires { Forgets (state_of self.old) }
        ensures { Becomes (shown (applied (Moved (Became (model_state state))) (state_of self.old)))
            self.old self.new }
    {
        self.state = state;
    }

    /// Marks a device as told or not.
    fn tell(&mut self, device: Eui, told: bool)
        requires { Forgets (state_of self.old) }
        ensures told { told ≡ true
            → Becomes (shown (applied (Moved (Told device.0)) (state_of self.old))) self.old self.new }
        ensures live { told ≡ false
            → Becomes (shown (applied (Moved (Live device.0)) (state_of self.old))) self.old self.new }
        ensures untold { told ≡ false
            → Becomes (shown (applied (Moved (Untold device.0)) (state_of self.old))) self.old self.new }
    {
        tell_links(&mut self.links, device, told);
    }

    /// Takes away the keys that a device shares with another.
    fn remove_pairs(&mut self, device: Eui)
        requires { Forgets (state_of self.old) }
        ensures { Becomes (shown (applied (Moved (Removed device.0)) (state_of self.old))) self.old self.new }
    {
        drop_pairs(&mut self.pairs, device);
    }

    /// Begins or ends a rollover. Where it begins, no device was told.
    fn roll(&mut self, rollover: Rollover)
        requires { Forgets (state_of self.old) }
        ensures { Becomes (shown (applied (Moved (Roll (is_sending rollover))) (state_of self.old)))
            self.old self.new }
    {
        self.rolling = rollover;
        if rollover == Rollover::Sending {
            untell_links(&mut self.links);
        }
    }
}

/// Returns the newest of these network keys that is in use.
fn newest_live(rows: &[NetRow]) -> Option<&NetRow>
    ensures { option_copied result ≡ last_where (λ r. (net_key r).live) rows.now }
{
    rows.iter().rev().find(|row| row.live)
}

/// Returns the counter after another one, unless that is the greatest.
fn behind(counter: u32) -> Option<u32>
    ensures { result ≡ behind_next (Some counter) }
{
    if counter < u32::MAX {
        Some(counter + 1)
    } else {
        None
    }
}

/// Adds a row, for which there is room.
fn add<T: Drop>(rows: &mut Vec<T>, row: T)
    requires { vec_len rows.old < vec_capacity rows.old }
    ensures items { rows.new.items ≡ rows.old.items ++ row ∷ [] }
    ensures room { vec_capacity rows.old ≤ vec_capacity rows.new }
{
    rows.push(row).unwrap();
}
