//! The keys of the supply in their order, with a quick look-up of whether a key is among them.

ghost use Rattle.std.specs.Prelude.{◌≡◌, ◌++◌, [], ◌∷◌, map, OnOk};
ghost use Rattle.zb_sched.specs.Judge.{is_drawn};
ghost use Rattle.zb_sched.specs.Supplies.{HasTheSame};

use std::alloc::{AllocError, Global};
use std::collections::BTreeSet;
use std::marker::Model;
use zb_base::Key;

/// Distinct keys in their order.
#[derive(Drop)]
pub struct Supply {
    keys: Vec<Key>,
    known: BTreeSet<[u8; 16]>,
}

impl Model for Supply {
    ghost use Rattle.std.specs.Prelude.{map, List, ℕ};
    ghost use Rattle.zb_sched.specs.Supplies.{HasTheSame};

    ghost Value = { List (List ℕ) };

    ghost view = { λ s. map (λ key. key.0) s.keys.items };

    ghost invariant = { λ s. HasTheSame s.known (map (λ key. key.0) s.keys.items) };
}

impl Supply {
    /// Makes a supply of no keys.
    pub fn new(alloc: Global) -> Supply
        ensures { result ≡ [] }
    {
        Supply {
            keys: Vec::new(alloc),
            known: BTreeSet::new(alloc),
        }
    }

    /// Returns whether a key is among them.
    pub fn has(&self, key: &Key) -> bool
        ensures { result ≡ is_drawn key.now.0 self.now }
    {
        self.known.contains(&key.0)
    }

    /// Adds a key.
    ///
    /// # Errors
    /// `AllocError`.
    pub fn push(&mut self, key: Key) -> Result<(), AllocError>
        ensures { OnOk result (self.new ≡ self.old ++ key.0 ∷ []) }
    {
        self.keys.push(key)?;
        match self.known.insert(key.0) {
            Ok(_) => Ok(()),
            Err(full) => {
                self.keys.pop();
                Err(AllocError::from(full))
            }
        }
    }

    /// Takes the keys out, in their order.
    pub fn into_keys(self) -> Vec<Key>
        ensures { map (λ key. key.0) result.items ≡ self }
    {
        let Supply { keys, known: _ } = self;
        keys
    }
}
