//! Changes after a record of version 1, where all network keys have one NWK limit, and after later ones.
ghost use Rattle.std.specs.Prelude.{◌≡◌, ◌≤◌, true, length, vec_capacity};
ghost use Rattle.zb_node_types.specs.Changes.{edit, model_layer};
ghost use Rattle.zb_keys.specs.Tables.{state_of, Becomes, Forgets, IsSound};
ghost use Rattle.zb_model.specs.Data.{Reserve};
ghost use Rattle.zb_model.specs.State.{shown};
ghost use Rattle.zb_record.specs.Redoing.{applied_behind, first_applied, first_fits, fits_behind, with_limit, with_net};

use crate::contents::Contents;
use zb_base::{Key, Layer};
use zb_node_types::Change;
use zb_record::net_row::limit_nets;
use zb_record::{NetRow, Version};

impl Contents {
    /// Returns whether a change fits after a record of a version.
    #[tactic(auto, unfolding(zb_record::specs::Redoing::fits_behind))]
    pub(crate) fn fits_behind(&self, version: Version, change: &Change) -> bool
        requires { IsSound self.now }
        ensures { result ≡ fits_behind version (edit change.now) (state_of self.now) }
    {
        match version {
            Version::First => self.fits_first(change),
            Version::Second => self.fits(change),
            Version::Third => self.fits(change),
        }
    }

    /// Returns whether a change fits after a record of version 1. A NWK limit must not be below the one that all keys
    /// have, and a start and a pair don't fit.
    fn fits_first(&self, change: &Change) -> bool
        requires { IsSound self.now }
        ensures { result ≡ first_fits (edit change.now) (state_of self.now) }
    {
        match *change {
            Change::Reserve { layer, limit } => self.fits_limit(layer, limit),
            Change::Start { key: _, value: _ } => false,
            Change::Pair {
                first: _,
                second: _,
                key: _,
            } => false,
            _ => self.fits(change),
        }
    }

    /// Returns whether a limit of a layer isn't below the one that stands.
    #[tactic(auto, unfolding(zb_record::specs::Redoing::first_fits))]
    fn fits_limit(&self, layer: Layer, limit: u32) -> bool
        requires { IsSound self.now }
        ensures { result ≡ first_fits (Reserve (model_layer layer) limit) (state_of self.now) }
    {
        match layer {
            Layer::Nwk => self.declared <= limit,
            Layer::Aps => self.aps_limit <= limit,
        }
    }

    /// Makes one change after a record of a version.
    pub(crate) fn change_behind(&mut self, version: Version, change: &Change)
        requires fits { fits_behind version (edit change.now) (state_of self.old) ≡ true }
        requires sound { IsSound self.old }
        ensures state { state_of self.new ≡ shown (applied_behind version (edit change.now) (state_of self.old)) }
        ensures sound { IsSound self.new }
    {
        match version {
            Version::First => self.change_first(change),
            Version::Second => self.change(change),
            Version::Third => self.change(change),
        }
    }

    /// Makes one change after a record of version 1. A NWK limit becomes that of all keys, and a new key has it too.
    fn change_first(&mut self, change: &Change)
        requires fits { first_fits (edit change.now) (state_of self.old) ≡ true }
        requires sound { IsSound self.old }
        ensures state { state_of self.new ≡ shown (first_applied (edit change.now) (state_of self.old)) }
        ensures sound { IsSound self.new }
    {
        match *change {
            Change::Reserve { layer, limit } => self.set_limit(layer, limit),
            Change::Install { key, sequence } => self.install_started(key, sequence),
            _ => self.change(change),
        }
    }

    /// Sets the limit of a layer, which at NWK is that of all keys.
    #[tactic(auto, unfolding(zb_record::specs::Redoing::first_applied))]
    fn set_limit(&mut self, layer: Layer, limit: u32)
        requires { Forgets (state_of self.old) }
        ensures { Becomes (shown (first_applied (Reserve (model_layer layer) limit)
            (state_of self.old))) self.old self.new }
    {
        match layer {
            Layer::Nwk => self.limit_all(limit),
            Layer::Aps => self.reserve_aps(limit),
        }
    }

    /// Gives all network keys one limit. It is the declared start too.
    fn limit_all(&mut self, limit: u32)
        requires { Forgets (state_of self.old) }
        ensures { Becomes (shown (with_limit limit (state_of self.old))) self.old self.new }
    {
        self.declared = limit;
        limit_nets(&mut self.nets, limit);
    }

    /// Adds a network key that goes on from the limit that all keys have, and for which there is room.
    fn install_started(&mut self, key: Key, sequence: u8)
        requires forgets { Forgets (state_of self.old) }
        requires fits { length (with_net key.0 sequence (state_of self.old)).nets ≤ vec_capacity self.old.nets }
        ensures { Becomes (shown (with_net key.0 sequence (state_of self.old))) self.old self.new }
    {
        let limit = self.declared;
        self.add_net(NetRow::given(key, sequence, limit));
    }
}
