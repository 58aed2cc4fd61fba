//! Which live network keys outsiders may know, as they learn keys.
ghost use Rattle.std.specs.Prelude.{◌≡◌, ◌&&◌, ℕ, List, OnOk, bytes_eq, nat_eq, not};
ghost use Rattle.zb_audit_lockout.specs.Facts.{lives_at};

use crate::bags::Bags;
use crate::fact::Fact;
use std::alloc::{AllocError, Global};
use std::collections::BTreeSet;
use zb_base::{Eui, Key};
use zb_trace_watch::exposure::Exposure;
use zb_trace_watch::holdings::Holdings;
use zb_trace_watch::keys::Keys;

/// Notes the live network keys of each node that outsiders may know, so that one is found without a walk.
///
/// Each key that outsiders learn is processed once, at the places where it ever was live. No contract says that the
/// notes are right or complete. A key that is found here is looked up; if none is found, all keys are searched.
#[derive(Drop)]
pub struct Shown {
    /// The keys that were found at each place.
    pub keys: Holdings<usize>,
    /// The places of the nodes that ever had each key as a network key.
    pub homes: Bags<Key, usize>,
    /// The keys that outsiders learnt.
    pub learnt: Keys,
    /// The devices whose removal was followed.
    pub removed: BTreeSet<Eui>,
}

impl Shown {
    /// Makes the value before the first line.
    pub fn new(alloc: Global) -> Shown {
        Shown {
            keys: Holdings::new(alloc),
            homes: Bags::new(alloc),
            learnt: Keys::new(alloc),
            removed: BTreeSet::new(alloc),
        }
    }

    /// Returns a key that is noted at a place, if there is one.
    pub fn first(&self, place: usize) -> Option<&Key> {
        match self.keys.sets.get(&place) {
            Some(keys) => keys.keys.first(),
            None => None,
        }
    }

    /// Processes one fact, which is among what is known and live.
    ///
    /// # Errors
    /// `AllocError`, if memory runs out.
    pub fn follow(
        &mut self,
        alloc: Global,
        exposure: &Exposure,
        live: &Holdings<usize>,
        fact: Fact,
    ) -> Result<(), AllocError> {
        match fact {
            Fact::Holds(_, key) => self.hear(alloc, exposure, live, key),
            Fact::Carries(_, key) => self.hear(alloc, exposure, live, key),
            Fact::Removed(device) => self.remove(alloc, exposure, live, device),
            Fact::Lives(place, key) => self.settle(alloc, exposure, place, key),
            Fact::Drops(place, key) => drop_from(&mut self.keys, place, key),
        }
    }

    // Processes a key that outsiders may have learnt, and all that comes out under it.
    fn hear(
        &mut self,
        alloc: Global,
        exposure: &Exposure,
        live: &Holdings<usize>,
        key: Key,
    ) -> Result<(), AllocError> {
        if exposure.known.has(&key) {
            let mut keys = Vec::new(alloc);
            keys.push(key)?;
            self.learn(alloc, exposure, live, keys)
        } else {
            Ok(())
        }
    }

    fn remove(
        &mut self,
        alloc: Global,
        exposure: &Exposure,
        live: &Holdings<usize>,
        device: Eui,
    ) -> Result<(), AllocError> {
        if self.removed.insert(device)? {
            let mut keys = Vec::new(alloc);
            exposure.ever.append_to(&device, &mut keys)?;
            self.learn(alloc, exposure, live, keys)
        } else {
            Ok(())
        }
    }

    // Processes each of these keys once, and those that come out under them.
    fn learn(
        &mut self,
        alloc: Global,
        exposure: &Exposure,
        live: &Holdings<usize>,
        mut keys: Vec<Key>,
    ) -> Result<(), AllocError> {
        while let Some(key) = keys.pop() {
            if self.learnt.add(key)? {
                exposure.carried.append_to(&key, &mut keys)?;
                note(alloc, &mut self.keys, live, self.homes.at(&key), key)?;
            }
        }
        Ok(())
    }

    fn settle(
        &mut self,
        alloc: Global,
        exposure: &Exposure,
        place: usize,
        key: Key,
    ) -> Result<(), AllocError> {
        self.homes.add(alloc, key, place)?;
        if exposure.known.has(&key) {
            self.keys.add(alloc, place, key)
        } else {
            Ok(())
        }
    }
}

/// Notes a key at each of the places at which it is live.
fn note(
    alloc: Global,
    keys: &mut Holdings<usize>,
    live: &Holdings<usize>,
    places: &[usize],
    key: Key,
) -> Result<(), AllocError> {
    for place in places {
        if live.has(place, &key) {
            keys.add(alloc, *place, key)?;
        }
    }
    Ok(())
}

/// Removes a key of a node.
///
/// # Errors
/// `AllocError`, if memory runs out.
pub fn drop_from(keys: &mut Holdings<usize>, place: usize, key: Key) -> Result<(), AllocError>
    ensures { OnOk result ((p : ℕ) (k : List ℕ)
        → lives_at keys.new p k ≡ (lives_at keys.old p k && not (nat_eq place p && bytes_eq k key.0))) }
{
    match keys.sets.remove(&place) {
        Some(set) => {
            let mut left = set;
            left.keys.remove(&key);
            keys.sets.insert(place, left)?;
            Ok(())
        }
        None => Ok(()),
    }
}
