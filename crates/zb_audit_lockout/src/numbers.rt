//! Numbers of keys.
ghost use Rattle.std.specs.Prelude.{◌≡◌, ◌&&◌, ℕ, List, IfOk, OnOk, bytes_eq, nat_lt, if◌then◌else◌};
ghost use Rattle.zb_audit_lockout.specs.Raising.{Clears, Raises};
ghost use Rattle.zb_audit_lockout.specs.Reading.{number_of};

use std::alloc::{AllocError, Global};
use std::collections::BTreeMap;
use zb_base::Key;
use zb_trace_watch::holdings::Holdings;

/// Holds a number for each key.
#[derive(Drop)]
pub struct Numbers {
    /// The numbers above 0.
    pub numbers: BTreeMap<Key, u64>,
}

impl Numbers {
    /// Makes the value in which each key has the number 0.
    pub fn new(alloc: Global) -> Numbers
        ensures { (k : List ℕ) → number_of result k ≡ 0 }
    {
        Numbers {
            numbers: BTreeMap::new(alloc),
        }
    }

    /// Returns the number of a key.
    pub fn of(&self, key: &Key) -> u64
        ensures { result ≡ number_of self.now key.now.0 }
    {
        match self.numbers.get(key) {
            Some(number) => *number,
            None => 0,
        }
    }

    /// Sets the number of a key, whatever it was.
    ///
    /// # Errors
    /// `AllocError`, if memory runs out.
    pub fn set(&mut self, key: Key, number: u64) -> Result<(), AllocError>
        ensures { OnOk result ((k : List ℕ) → number_of self.new k
            ≡ (if bytes_eq k key.0 then number else number_of self.old k)) }
    {
        self.numbers.insert(key, number)?;
        Ok(())
    }

    /// Raises a key to a number, and returns whether its number was smaller.
    fn raise_one(&mut self, key: Key, number: u64) -> Result<bool, AllocError>
        ensures rises { IfOk result (λ rises. rises ≡ nat_lt (number_of self.old key.0) number) }
        ensures numbers { OnOk result ((k : List ℕ) → number_of self.new k
            ≡ (if bytes_eq k key.0 && nat_lt (number_of self.old key.0) number then number
            else number_of self.old k)) }
    {
        if self.of(&key) < number {
            self.numbers.insert(key, number)?;
            Ok(true)
        } else {
            Ok(false)
        }
    }

    /// Raises keys to a number, and all keys that terms carry under raised ones. Returns the keys that were raised.
    ///
    /// # Errors
    /// `AllocError`, if memory runs out.
    pub fn raise(
        &mut self,
        alloc: Global,
        leads: &Holdings<Key>,
        mut keys: Vec<Key>,
        number: u64,
    ) -> Result<Vec<Key>, AllocError>
        ensures { IfOk result (λ raised. Raises leads.now self.old self.new keys.items number raised.items) }
    {
        let mut raised = Vec::new(alloc);
        while let Some(key) = keys.pop() {
            if self.raise_one(key, number)? {
                leads.append_to(&key, &mut keys)?;
                raised.push(key)?;
            }
        }
        Ok(raised)
    }

    /// Clears the number of a key, and returns whether it had one.
    fn clear_one(&mut self, key: &Key) -> bool
        ensures clears { result ≡ nat_lt 0 (number_of self.old key.now.0) }
        ensures numbers { (k : List ℕ) → number_of self.new k
            ≡ (if bytes_eq k key.now.0 then 0 else number_of self.old k) }
    {
        let had = self.of(key) > 0;
        self.numbers.remove(key);
        had
    }

    /// Clears the numbers of keys, and those of all keys that lead to them. Returns the keys that had one.
    ///
    /// # Errors
    /// `AllocError`, if memory runs out.
    pub fn clear(
        &mut self,
        alloc: Global,
        bases: &Holdings<Key>,
        mut keys: Vec<Key>,
    ) -> Result<Vec<Key>, AllocError>
        ensures { IfOk result (λ cleared. Clears bases.now self.old self.new keys.items cleared.items) }
    {
        let mut cleared = Vec::new(alloc);
        while let Some(key) = keys.pop() {
            if self.clear_one(&key) {
                bases.append_to(&key, &mut keys)?;
                cleared.push(key)?;
            }
        }
        Ok(cleared)
    }
}
