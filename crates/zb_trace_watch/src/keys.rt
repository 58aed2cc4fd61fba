//! Sets of keys.
ghost use Rattle.std.specs.Prelude.{◌≡◌, ◌||◌, ◌++◌, ℕ, List, bytes_eq, IfOk, OnOk, false, not};
ghost use Rattle.zb_trace_watch.specs.Sets.{has, meet};

use std::alloc::{AllocError, Global};
use std::collections::BTreeSet;
use zb_base::Key;

/// A set of keys.
#[derive(Drop)]
pub struct Keys {
    /// The keys, in order.
    pub keys: BTreeSet<Key>,
}

impl Keys {
    /// Makes a set without keys.
    pub fn new(alloc: Global) -> Keys
        ensures { (k : List ℕ) → has result k ≡ false }
    {
        Keys {
            keys: BTreeSet::new(alloc),
        }
    }

    /// Returns whether the set has the key.
    pub fn has(&self, key: &Key) -> bool
        ensures { result ≡ has self.now key.now.0 }
    {
        self.keys.contains(key)
    }

    /// Adds a key, and returns whether it is new.
    ///
    /// # Errors
    /// `AllocError`, if memory runs out.
    pub fn add(&mut self, key: Key) -> Result<bool, AllocError>
        ensures new { IfOk result (λ new. new ≡ not (has self.old key.0)) }
        ensures adds { OnOk result ((k : List ℕ) → has self.new k ≡ (has self.old k || bytes_eq k key.0)) }
    {
        let new = self.keys.insert(key)?;
        Ok(new)
    }

    /// Returns whether the two sets have a key in common.
    ///
    /// The keys of the smaller one are looked up in the other.
    #[tactic(auto, using(crate::proofs::Alike::meet_turned))]
    pub fn meets(&self, other: &Keys) -> bool
        ensures { result ≡ meet self.now.keys.keys other.now.keys.keys }
    {
        if self.keys.len() <= other.keys.len() {
            self.any_is_in(other)
        } else {
            other.any_is_in(self)
        }
    }

    // Returns whether a key of this set is in the other.
    fn any_is_in(&self, other: &Keys) -> bool
        ensures { result ≡ meet self.now.keys.keys other.now.keys.keys }
    {
        for key in &self.keys {
            if other.has(key) {
                return true;
            }
        }
        false
    }

    /// Appends the keys to a list.
    ///
    /// # Errors
    /// `AllocError`, if memory runs out.
    pub fn append_to(&self, list: &mut Vec<Key>) -> Result<(), AllocError>
        ensures { OnOk result (list.new.items ≡ list.old.items ++ self.now.keys.keys) }
    {
        for key in &self.keys {
            list.push(*key)?;
        }
        Ok(())
    }
}
