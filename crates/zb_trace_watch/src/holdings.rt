//! Keys by their owner.
ghost use Rattle.std.specs.Prelude.{◌≡◌, ◌||◌, ◌&&◌, ◌++◌, ℕ, List, OnOk, bytes_eq, false};
ghost use Rattle.std.specs.Ordering.{is_eq};
ghost use Rattle.std.specs.BTreeMap.{get};
ghost use Rattle.zb_trace_watch.specs.Sets.{held, is_carried, is_key, is_number, keys_at, meet, number_has};

use crate::keys::Keys;
use std::alloc::{AllocError, Global};
use std::collections::BTreeMap;
use zb_base::Key;

/// The keys that were added for each owner.
#[derive(Drop)]
pub struct Holdings<O: Ord> {
    /// The set of each owner that has any.
    pub sets: BTreeMap<O, Keys>,
}

impl<O: Ord + Drop> Holdings<O> {
    /// Makes holdings without keys.
    pub fn new(alloc: Global) -> Holdings<O>
        ensures { (owner : O) (k : List ℕ) → held O.cmp result owner k ≡ false }
    {
        Holdings {
            sets: BTreeMap::new(alloc),
        }
    }

    /// Returns whether the owner has the key.
    pub fn has(&self, owner: &O, key: &Key) -> bool
        ensures { result ≡ held O.cmp self.now owner.now key.now.0 }
    {
        match self.sets.get(owner) {
            Some(keys) => keys.has(key),
            None => false,
        }
    }

    /// Adds a key for an owner.
    ///
    /// # Errors
    /// `AllocError`, if memory runs out.
    pub fn add(&mut self, alloc: Global, owner: O, key: Key) -> Result<(), AllocError>
        ensures { OnOk result ((o : O) (k : List ℕ)
            → held O.cmp self.new o k ≡ (held O.cmp self.old o k || (is_eq (O.cmp owner o) && bytes_eq k key.0))) }
    {
        match self.sets.get_mut(&owner) {
            Some(keys) => {
                keys.add(key)?;
            }
            None => {
                let mut keys = Keys::new(alloc);
                keys.add(key)?;
                self.sets.insert(owner, keys)?;
            }
        }
        Ok(())
    }

    /// Returns whether the owner has a key of the set.
    pub fn meets(&self, owner: &O, keys: &Keys) -> bool
        ensures { result ≡ meet keys.now.keys.keys (keys_at O.cmp self.now owner.now) }
    {
        match self.sets.get(owner) {
            Some(own) => keys.meets(own),
            None => false,
        }
    }

    /// Appends the keys of an owner to a list.
    ///
    /// # Errors
    /// `AllocError`, if memory runs out.
    pub fn append_to(&self, owner: &O, list: &mut Vec<Key>) -> Result<(), AllocError>
        ensures { OnOk result (list.new.items ≡ list.old.items ++ keys_at O.cmp self.now owner.now) }
    {
        match self.sets.get(owner) {
            Some(keys) => keys.append_to(list),
            None => Ok(()),
        }
    }
}

impl Holdings<Key> {
    /// Adds a key for another one, if there is one.
    ///
    /// # Errors
    /// `AllocError`, if memory runs out.
    pub fn add_under(
        &mut self,
        alloc: Global,
        owner: Option<Key>,
        key: Key,
    ) -> Result<(), AllocError>
        ensures { OnOk result ((o k : List ℕ)
            → is_carried self.new o k ≡ (is_carried self.old o k || (is_key owner o && bytes_eq k key.0))) }
    {
        match owner {
            Some(owner) => self.add(alloc, owner, key),
            None => Ok(()),
        }
    }
}

impl Holdings<u64> {
    /// Adds a key for a node, if there is one.
    ///
    /// # Errors
    /// `AllocError`, if memory runs out.
    pub fn add_at(&mut self, alloc: Global, node: Option<u64>, key: Key) -> Result<(), AllocError>
        ensures { OnOk result ((n : ℕ) (k : List ℕ)
            → number_has self.new n k ≡ (number_has self.old n k || (is_number node n && bytes_eq k key.0))) }
    {
        match node {
            Some(number) => self.add(alloc, number, key),
            None => Ok(()),
        }
    }
}
