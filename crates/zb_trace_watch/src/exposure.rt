//! What outsiders may know, and whether they forged with no more than that.
ghost use Rattle.std.specs.Prelude.{◌≡◌, ◌||◌, ◌&&◌, ◌∷◌, [], ◌<◌, ◌^◌, ℕ, List, OnOk, IfOk, bytes_eq, nat_eq, true, false};
ghost use Rattle.zb_trace_watch.specs.Exposure.{was_removed, IsSettled, Learns};
ghost use Rattle.zb_trace_watch.specs.Sets.{has, is_carried, is_key, is_node, node_has};

use crate::holdings::Holdings;
use crate::keys::Keys;
use std::alloc::{AllocError, Global};
use std::collections::BTreeSet;
use zb_base::{Eui, Key, WELL_KNOWN};

/// What outsiders may know: the well-known key, what removed devices ever held, and what terms carry under these
/// keys.
#[derive(Drop)]
pub struct Exposure {
    /// The keys that outsiders may know.
    ///
    /// It is the least set that has the well-known key and what removed devices ever held, and with the base key of a
    /// term also the key that the term carries.
    pub known: Keys,
    /// The keys that terms carry, by the base keys of these terms.
    pub carried: Holdings<Key>,
    /// The keys that each device ever held.
    pub ever: Holdings<Eui>,
    /// The devices that were removed.
    pub removed: BTreeSet<Eui>,
    /// Whether each forged term had a base key that was known before.
    pub based: bool,
}

impl Exposure {
    /// Makes the exposure before the first line: outsiders know the well-known key alone.
    ///
    /// # Errors
    /// `AllocError`, if memory runs out.
    pub fn new(alloc: Global) -> Result<Exposure, AllocError>
        ensures settled { IfOk result (λ e. IsSettled e) }
        ensures ever { IfOk result (λ e. (d : ℕ) (k : List ℕ) → node_has e.ever d k ≡ false) }
        ensures removed { IfOk result (λ e. (d : ℕ) → was_removed e d ≡ false) }
        ensures carried { IfOk result (λ e. (b k : List ℕ) → is_carried e.carried b k ≡ false) }
        ensures based { IfOk result (λ e. e.based ≡ true) }
    {
        let mut exposure = Exposure {
            known: Keys::new(alloc),
            carried: Holdings::new(alloc),
            ever: Holdings::new(alloc),
            removed: BTreeSet::new(alloc),
            based: true,
        };
        learn_one(alloc, &mut exposure.known, &exposure.carried, WELL_KNOWN)?;
        Ok(exposure)
    }

    /// Notes that a node now holds a key. It changes nothing if the node was never declared.
    ///
    /// # Errors
    /// `AllocError`, if memory runs out.
    pub fn hold(&mut self, alloc: Global, node: Option<Eui>, key: Key) -> Result<(), AllocError>
        ensures settled { OnOk result (IsSettled self.old → IsSettled self.new) }
        ensures ever { OnOk result ((d : ℕ) (k : List ℕ)
            → node_has self.new.ever d k ≡ (node_has self.old.ever d k || (is_node node d && bytes_eq k key.0))) }
        ensures removed { OnOk result (self.new.removed ≡ self.old.removed) }
        ensures carried { OnOk result (self.new.carried ≡ self.old.carried) }
        ensures based { OnOk result (self.new.based ≡ self.old.based) }
    {
        match node {
            Some(device) => self.hold_one(alloc, device, key),
            None => Ok(()),
        }
    }

    fn hold_one(&mut self, alloc: Global, device: Eui, key: Key) -> Result<(), AllocError>
        ensures settled { OnOk result (IsSettled self.old → IsSettled self.new) }
        ensures ever { OnOk result ((d : ℕ) (k : List ℕ)
            → node_has self.new.ever d k ≡ (node_has self.old.ever d k || (nat_eq d device.0 && bytes_eq k key.0))) }
        ensures removed { OnOk result (self.new.removed ≡ self.old.removed) }
        ensures carried { OnOk result (self.new.carried ≡ self.old.carried) }
        ensures based { OnOk result (self.new.based ≡ self.old.based) }
    {
        self.ever.add(alloc, device, key)?;
        if self.removed.contains(&device) {
            learn_one(alloc, &mut self.known, &self.carried, key)?;
        }
        Ok(())
    }

    /// Notes that a device was removed: outsiders may know all keys that it ever held.
    ///
    /// # Errors
    /// `AllocError`, if memory runs out.
    pub fn remove(&mut self, alloc: Global, device: Eui) -> Result<(), AllocError>
        ensures settled { OnOk result (IsSettled self.old → IsSettled self.new) }
        ensures ever { OnOk result (self.new.ever ≡ self.old.ever) }
        ensures removed { OnOk result ((d : ℕ)
            → was_removed self.new d ≡ (was_removed self.old d || nat_eq d device.0)) }
        ensures in_range { device.0 < 2 ^ 64 }
        ensures carried { OnOk result (self.new.carried ≡ self.old.carried) }
        ensures based { OnOk result (self.new.based ≡ self.old.based) }
    {
        if self.removed.insert(device)? {
            let mut keys = Vec::new(alloc);
            self.ever.append_to(&device, &mut keys)?;
            learn(&mut self.known, &self.carried, keys)?;
        }
        Ok(())
    }

    /// Notes that a term under a base key carries a key, or none.
    ///
    /// # Errors
    /// `AllocError`, if memory runs out.
    pub fn carry(&mut self, alloc: Global, base: Key, key: Option<Key>) -> Result<(), AllocError>
        ensures settled { OnOk result (IsSettled self.old → IsSettled self.new) }
        ensures ever { OnOk result (self.new.ever ≡ self.old.ever) }
        ensures removed { OnOk result (self.new.removed ≡ self.old.removed) }
        ensures carried { OnOk result ((b k : List ℕ)
            → is_carried self.new.carried b k
            ≡ (is_carried self.old.carried b k || (bytes_eq b base.0 && is_key key k))) }
        ensures based { OnOk result (self.new.based ≡ self.old.based) }
    {
        match key {
            Some(key) => self.carry_one(alloc, base, key),
            None => Ok(()),
        }
    }

    fn carry_one(&mut self, alloc: Global, base: Key, key: Key) -> Result<(), AllocError>
        ensures settled { OnOk result (IsSettled self.old → IsSettled self.new) }
        ensures ever { OnOk result (self.new.ever ≡ self.old.ever) }
        ensures removed { OnOk result (self.new.removed ≡ self.old.removed) }
        ensures carried { OnOk result ((b k : List ℕ)
            → is_carried self.new.carried b k
            ≡ (is_carried self.old.carried b k || (bytes_eq b base.0 && bytes_eq k key.0))) }
        ensures based { OnOk result (self.new.based ≡ self.old.based) }
    {
        self.carried.add(alloc, base, key)?;
        if self.known.has(&base) {
            learn_one(alloc, &mut self.known, &self.carried, key)?;
        }
        Ok(())
    }

    /// Notes that a term was forged under a base key.
    pub fn forge(&mut self, base: &Key)
        ensures { self.new ≡ record self.old { based = self.old.based && has self.old.known base.now.0 } }
    {
        self.based = self.based && self.known.has(base);
    }
}

fn learn_one(
    alloc: Global,
    known: &mut Keys,
    carried: &Holdings<Key>,
    key: Key,
) -> Result<(), AllocError>
    ensures { OnOk result (Learns carried.now known.old known.new (key ∷ [])) }
{
    let mut keys = Vec::new(alloc);
    keys.push(key)?;
    learn(known, carried, keys)?;
    Ok(())
}

/// Learns keys, and all keys that terms carry under them.
fn learn(known: &mut Keys, carried: &Holdings<Key>, mut keys: Vec<Key>) -> Result<(), AllocError>
    ensures { OnOk result (Learns carried.now known.old known.new keys.items) }
{
    while let Some(key) = keys.pop() {
        if known.add(key)? {
            carried.append_to(&key, &mut keys)?;
        }
    }
    Ok(())
}
