//! Whether outsiders passed on a key of the network.
ghost use Rattle.std.specs.Prelude.{◌≡◌, ◌||◌, ◌&&◌, ℕ, List, OnOk, bytes_eq, false};
ghost use Rattle.zb_trace_watch.specs.Passing.{has_that, is_code};
ghost use Rattle.zb_trace_watch.specs.Sets.{has, is_key};

use crate::keys::Keys;
use std::alloc::{AllocError, Global};
use zb_base::{Attribute, Key};

/// The network's keys, and those that forged terms carry.
#[derive(Drop)]
pub struct Passing {
    /// The keys that were given, drawn or entered as install codes.
    pub network: Keys,
    /// The keys that forged terms carry.
    pub forged: Keys,
    /// Whether some key is in both sets.
    pub passed_on: bool,
}

impl Passing {
    /// Makes the state before the first line.
    pub fn new(alloc: Global) -> Passing
        ensures network { (k : List ℕ) → has result.network k ≡ false }
        ensures forged { (k : List ℕ) → has result.forged k ≡ false }
        ensures passed { result.passed_on ≡ false }
    {
        Passing {
            network: Keys::new(alloc),
            forged: Keys::new(alloc),
            passed_on: false,
        }
    }

    /// Notes a key of the network.
    ///
    /// # Errors
    /// `AllocError`, if memory runs out.
    pub fn network_key(&mut self, key: Key) -> Result<(), AllocError>
        ensures network { OnOk result ((k : List ℕ)
            → has self.new.network k ≡ (has self.old.network k || bytes_eq k key.0)) }
        ensures forged { self.new.forged ≡ self.old.forged }
        ensures passed { self.new.passed_on ≡ (self.old.passed_on || has self.old.forged key.0) }
    {
        if self.forged.has(&key) {
            self.passed_on = true;
        }
        self.network.add(key)?;
        Ok(())
    }

    /// Notes the key of a link row. It is a key of the network if it was entered as an install code.
    ///
    /// # Errors
    /// `AllocError`, if memory runs out.
    pub fn row_key(&mut self, key: Key, attribute: Attribute) -> Result<(), AllocError>
        ensures network { OnOk result ((k : List ℕ)
            → has self.new.network k ≡ (has self.old.network k || (is_code attribute && bytes_eq k key.0))) }
        ensures forged { self.new.forged ≡ self.old.forged }
        ensures passed { self.new.passed_on
            ≡ (self.old.passed_on || (is_code attribute && has self.old.forged key.0)) }
    {
        match attribute {
            Attribute::Provisional => self.network_key(key),
            Attribute::Unverified => Ok(()),
            Attribute::Verified => Ok(()),
        }
    }

    /// Notes which key a forged term carries, if any.
    ///
    /// # Errors
    /// `AllocError`, if memory runs out.
    pub fn forged_key(&mut self, key: Option<Key>) -> Result<(), AllocError>
        ensures network { self.new.network ≡ self.old.network }
        ensures forged { OnOk result ((k : List ℕ) → has self.new.forged k ≡ (has self.old.forged k || is_key key k)) }
        ensures passed { self.new.passed_on ≡ (self.old.passed_on || has_that self.old.network key) }
    {
        match key {
            Some(key) => self.forged_one(key),
            None => Ok(()),
        }
    }

    fn forged_one(&mut self, key: Key) -> Result<(), AllocError>
        ensures network { self.new.network ≡ self.old.network }
        ensures forged { OnOk result ((k : List ℕ)
            → has self.new.forged k ≡ (has self.old.forged k || bytes_eq k key.0)) }
        ensures passed { self.new.passed_on ≡ (self.old.passed_on || has self.old.network key.0) }
    {
        if self.network.has(&key) {
            self.passed_on = true;
        }
        self.forged.add(key)?;
        Ok(())
    }
}
