//! What outsiders may know, and each node's live network keys.
ghost use Rattle.std.specs.Prelude.{◌≡◌, ℕ, List, OnOk, IfOk, false, true};
ghost use Rattle.zb_audit_lockout.specs.Facts.{Learnt, lives_at};
ghost use Rattle.zb_audit_lockout.specs.Reading.{knows};
ghost use Rattle.zb_trace_watch.specs.Exposure.{was_removed, IsSettled};
ghost use Rattle.zb_trace_watch.specs.Sets.{is_carried, node_has};

use crate::fact::Fact;
use crate::shown::{Shown, drop_from};
use std::alloc::{AllocError, Global};
use zb_base::Key;
use zb_trace_watch::exposure::Exposure;
use zb_trace_watch::holdings::Holdings;

/// The keys that outsiders may know, and each node's live network keys.
#[derive(Drop)]
pub struct Before {
    /// What outsiders may know.
    pub exposure: Exposure,
    /// The live network keys of the node at each place.
    pub live: Holdings<usize>,
    /// Where to look first for a live key that outsiders may know.
    pub shown: Shown,
}

impl Before {
    /// Makes the state before the first line.
    ///
    /// # Errors
    /// `AllocError`, if memory runs out.
    pub fn new(alloc: Global) -> Result<Before, AllocError>
        ensures settled { IfOk result (λ b. IsSettled b.exposure) }
        ensures ever { IfOk result (λ b. (d : ℕ) (k : List ℕ) → node_has b.exposure.ever d k ≡ false) }
        ensures carried { IfOk result (λ b. (base k : List ℕ) → is_carried b.exposure.carried base k ≡ false) }
        ensures removed { IfOk result (λ b. (d : ℕ) → was_removed b.exposure d ≡ false) }
        ensures live { IfOk result (λ b. (place : ℕ) (k : List ℕ) → lives_at b.live place k ≡ false) }
    {
        Ok(Before {
            exposure: Exposure::new(alloc)?,
            live: Holdings::new(alloc),
            shown: Shown::new(alloc),
        })
    }

    /// Learns one more fact.
    ///
    /// # Errors
    /// `AllocError`, if memory runs out.
    pub fn learn(&mut self, alloc: Global, fact: Fact) -> Result<(), AllocError>
        ensures { OnOk result (Learnt self.old self.new fact) }
    {
        self.take_in(alloc, fact)?;
        self.shown.follow(alloc, &self.exposure, &self.live, fact)?;
        Ok(())
    }

    fn take_in(&mut self, alloc: Global, fact: Fact) -> Result<(), AllocError>
        ensures { OnOk result (Learnt self.old self.new fact) }
    {
        match fact {
            Fact::Holds(device, key) => self.exposure.hold(alloc, Some(device), key),
            Fact::Carries(base, key) => self.exposure.carry(alloc, base, Some(key)),
            Fact::Removed(device) => self.exposure.remove(alloc, device),
            Fact::Lives(place, key) => self.live.add(alloc, place, key),
            Fact::Drops(place, key) => drop_from(&mut self.live, place, key),
        }
    }

    /// Returns whether the node at a place has a live network key that outsiders may know.
    pub fn holds_known(&self, place: usize) -> bool
        ensures { result ≡ knows self.now place }
    {
        self.is_shown(place) || self.live.meets(&place, &self.exposure.known)
    }

    // Returns whether the key that is noted for the place is live there and known.
    fn is_shown(&self, place: usize) -> bool
        ensures { result ≡ true → knows self.now place ≡ true }
    {
        match self.shown.first(place) {
            Some(key) => self.live.has(&place, key) && self.exposure.known.has(key),
            None => false,
        }
    }
}
