//! The ring of keys as it grows.
ghost use Rattle.std.specs.Prelude.{◌≡◌, [], IfOk};
ghost use Rattle.zb_inspect.specs.Rings.{learnt, given_from};

use std::alloc::Global;
use std::collections::BTreeSet;
use std::marker::Model;
use zb_base::{Key, List, NoMemory};
use zb_seal::SealingKeys;

/// A key of the ring.
#[derive(Clone, Copy, Debug, PartialEq, Eq)]
pub struct RingKey {
    /// The key.
    pub key: Key,
    /// Where it was found: the number of the frame, from 1, and of the round, from 1. `None` for a given key.
    pub found: Option<(u32, u32)>,
}

/// The keys that are given, and those that the frames give.
#[derive(Debug, Drop)]
pub struct Ring {
    /// The keys, in the order in which they became known.
    pub keys: List<RingKey>,
    /// How many rounds it took to find them.
    pub rounds: u32,
}

/// A key that a frame carries.
#[derive(Clone, Copy, Debug, PartialEq, Eq)]
pub struct Lead {
    /// The number of the frame, from 1.
    pub frame: u32,
    /// The key.
    pub key: Key,
}

/// The ring so far, with the expanded sealing keys of each key.
///
/// A contract sees it as its keys.
#[derive(Drop)]
pub(crate) struct KeyRing {
    keys: Vec<RingKey>,
    sealing_keys: Vec<SealingKeys>,
    /// The same keys as a set, for fast look-ups.
    known: BTreeSet<Key>,
}

impl Model for KeyRing {
    ghost use Rattle.std.specs.Prelude.{◌≡◌, ℕ, List};
    ghost use Rattle.zb_base.specs.declared.key.Key.{Key};
    ghost use Rattle.zb_inspect.specs.Rings.{has_key, keys_of};
    ghost use Rattle.zb_inspect.specs.Known.{is_known};
    ghost use Rattle.zb_inspect.specs.declared.key_ring.RingKey.{RingKey};

    ghost Value = { List RingKey };

    ghost view = { λ r. r.keys.items };

    ghost invariant = { λ r. (r.sealing_keys.items ≡ keys_of r.keys.items) ×
        ((key : Key) → is_known r.known key ≡ has_key r.keys.items key) };
}

impl KeyRing {
    ghost use Rattle.std.specs.Prelude.{◌≡◌, [], length, IfOk};
    ghost use Rattle.zb_inspect.specs.Rings.{has_key, with_key, keys_of};

    /// Makes a ring of no keys.
    pub fn new(alloc: Global) -> KeyRing
        ensures { result ≡ [] }
    {
        KeyRing {
            keys: Vec::new(alloc),
            sealing_keys: Vec::new(alloc),
            known: BTreeSet::new(alloc),
        }
    }

    /// Returns whether the ring has the key.
    fn has(&self, key: &Key) -> bool
        ensures { result ≡ has_key self.now key.now }
    {
        self.known.contains(key)
    }

    /// Adds a key, if it is new.
    ///
    /// # Errors
    /// `NoMemory`, if memory runs out.
    pub fn with(self, key: Key, found: Option<(u32, u32)>) -> Result<KeyRing, NoMemory>
        ensures { IfOk result (λ r. r ≡ with_key self key found) }
    {
        if self.has(&key) {
            return Ok(self);
        }
        let KeyRing {
            mut keys,
            mut sealing_keys,
            mut known,
        } = self;
        known.insert(key)?;
        sealing_keys.push(SealingKeys::new(&key))?;
        keys.push(RingKey { key, found })?;
        Ok(KeyRing {
            keys,
            sealing_keys,
            known,
        })
    }

    /// Returns the keys, each with its sealing keys.
    pub fn sealing_keys(&self) -> &[SealingKeys]
        ensures { result.now ≡ keys_of self.now }
    {
        self.sealing_keys.as_slice()
    }

    /// Returns how many keys the ring has.
    pub fn len(&self) -> usize
        ensures { result ≡ length self.now }
    {
        self.keys.len()
    }

    /// Returns the keys, and where they were found.
    pub fn into_keys(self) -> List<RingKey>
        ensures { result ≡ self }
    {
        List::from_vec(self.keys)
    }
}

/// Makes the ring of given keys.
pub(crate) fn given_ring(alloc: Global, keys: &[Key]) -> Result<KeyRing, NoMemory>
    ensures { IfOk result (λ r. r ≡ given_from [] keys.now) }
{
    let mut ring = KeyRing::new(alloc);
    for key in keys {
        ring = ring.with(*key, None)?;
    }
    Ok(ring)
}

/// Adds the keys that were found in a round, in order.
pub(crate) fn learn(ring: KeyRing, round: u32, leads: &[Lead]) -> Result<KeyRing, NoMemory>
    ensures { IfOk result (λ r. r ≡ learnt round ring leads.now) }
{
    let mut ring = ring;
    for lead in leads {
        ring = ring.with(lead.key, Some((lead.frame, round)))?;
    }
    Ok(ring)
}
