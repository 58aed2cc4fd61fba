//! Where accepted terms and installed keys came from.
ghost use Rattle.std.specs.Ordering.{nat_cmp};
ghost use Rattle.std.specs.Prelude.{◌≡◌, ◌||◌, ◌&&◌, ◌⊎◌, ℕ, List, OnOk, Some, bytes_eq, false, true, not};
ghost use Rattle.zb_model.specs.Secrets.{same_term};
ghost use Rattle.zb_model_real.specs.Terms.{model_term};
ghost use Rattle.zb_seal.specs.declared.term.Term.{Term as AnyTerm};
ghost use Rattle.zb_trace_watch.specs.Origins.{IsTraced, came};
ghost use Rattle.zb_trace_watch.specs.Sets.{is_carried, is_key, is_number, key_cmp, keys_at, meet, number_has};
ghost use Rattle.zb_trace_watch.specs.Terms.{has_term};

use crate::holdings::Holdings;
use crate::terms::Terms;
use std::alloc::{AllocError, Global};
use zb_base::Key;
use zb_seal::Term;

/// The terms so far, and whether everything accepted or installed came from earlier ones. A node is identified by a
/// number.
#[derive(Drop)]
pub struct Origins {
    /// The terms that were sealed or forged.
    pub terms: Terms,
    /// The link keys of each node's install code.
    pub codes: Holdings<u64>,
    /// The keys under which each node may be sent a key: its install code's, and those of its link rows.
    pub bases: Holdings<u64>,
    /// For each key that terms carry, the base keys of these terms.
    pub carriers: Holdings<Key>,
    /// The keys of each node whose origin was found, so that none is looked up twice.
    pub traced: Holdings<u64>,
    /// Whether everything accepted or installed came from earlier terms.
    ///
    /// Each accepted term was sealed or forged before. Each key that a router or device installed is its install
    /// code's, or came in an earlier term under one of its keys.
    pub ideal: bool,
}

impl Origins {
    /// Makes the origins before the first line.
    pub fn new(alloc: Global) -> Origins
        ensures terms { (t : AnyTerm) → has_term result.terms t ≡ false }
        ensures codes { (n : ℕ) (k : List ℕ) → number_has result.codes n k ≡ false }
        ensures bases { (n : ℕ) (k : List ℕ) → number_has result.bases n k ≡ false }
        ensures carriers { (k b : List ℕ) → is_carried result.carriers k b ≡ false }
        ensures traced { (n : ℕ) (k : List ℕ) → number_has result.traced n k ≡ false }
        ensures ideal { result.ideal ≡ true }
    {
        Origins {
            terms: Terms::new(alloc),
            codes: Holdings::new(alloc),
            bases: Holdings::new(alloc),
            carriers: Holdings::new(alloc),
            traced: Holdings::new(alloc),
            ideal: true,
        }
    }

    /// Notes that a term was sealed or forged, and which key it carries, if any.
    ///
    /// # Errors
    /// `AllocError`, if memory runs out.
    pub fn term(&mut self, alloc: Global, term: &Term, key: Option<Key>) -> Result<(), AllocError>
        ensures terms { OnOk result ((t : AnyTerm)
            → has_term self.new.terms t
            ≡ (has_term self.old.terms t || same_term (model_term t) (model_term term.now))) }
        ensures codes { OnOk result (self.new.codes ≡ self.old.codes) }
        ensures bases { OnOk result (self.new.bases ≡ self.old.bases) }
        ensures carriers { OnOk result ((k b : List ℕ)
            → is_carried self.new.carriers k b
            ≡ (is_carried self.old.carriers k b || (is_key key k && bytes_eq b term.now.base.0))) }
        ensures traced { OnOk result (self.new.traced ≡ self.old.traced) }
        ensures ideal { OnOk result (self.new.ideal ≡ self.old.ideal) }
    {
        self.carriers.add_under(alloc, key, term.base)?;
        self.terms.add(term)?;
        Ok(())
    }

    /// Notes that a term was accepted.
    pub fn accept(&mut self, term: &Term)
        ensures { self.new ≡ record self.old { ideal = self.old.ideal && has_term self.old.terms term.now } }
    {
        self.ideal = self.ideal && self.terms.has(term);
    }

    /// Notes that a router or device, if any, installed a key.
    ///
    /// A traced key isn't looked up again. Once a key came from nowhere, no key is looked up.
    ///
    /// # Errors
    /// `AllocError`, if memory runs out.
    pub fn take_in(&mut self, alloc: Global, node: Option<u64>, key: Key) -> Result<(), AllocError>
        ensures ideal { OnOk result (IsTraced self.old node key.0
            → self.new.ideal ≡ (self.old.ideal && came self.old node key.0)) }
        ensures traced { OnOk result ((n : ℕ) (k : List ℕ) → number_has self.new.traced n k ≡ true
            → (number_has self.old.traced n k ≡ true)
            ⊎ (((is_number node n && bytes_eq k key.0) ≡ true) × (came self.old node key.0 ≡ true))) }
        ensures terms { OnOk result (self.new.terms ≡ self.old.terms) }
        ensures codes { OnOk result (self.new.codes ≡ self.old.codes) }
        ensures bases { OnOk result (self.new.bases ≡ self.old.bases) }
        ensures carriers { OnOk result (self.new.carriers ≡ self.old.carriers) }
    {
        match node {
            Some(number) => self.trace(alloc, number, key),
            None => Ok(()),
        }
    }

    fn trace(&mut self, alloc: Global, number: u64, key: Key) -> Result<(), AllocError>
        ensures ideal { OnOk result (IsTraced self.old (Some number) key.0
            → self.new.ideal ≡ (self.old.ideal && came self.old (Some number) key.0)) }
        ensures traced { OnOk result ((n : ℕ) (k : List ℕ) → number_has self.new.traced n k ≡ true
            → (number_has self.old.traced n k ≡ true)
            ⊎ (((is_number (Some number) n && bytes_eq k key.0) ≡ true)
            × (came self.old (Some number) key.0 ≡ true))) }
        ensures terms { OnOk result (self.new.terms ≡ self.old.terms) }
        ensures codes { OnOk result (self.new.codes ≡ self.old.codes) }
        ensures bases { OnOk result (self.new.bases ≡ self.old.bases) }
        ensures carriers { OnOk result (self.new.carriers ≡ self.old.carriers) }
    {
        if self.is_settled(&number, &key) {
            return Ok(());
        }
        if self.came(&number, &key) {
            self.traced.add_at(alloc, Some(number), key)?;
        } else {
            self.ideal = false;
        }
        Ok(())
    }

    // Returns whether no look-up is needed: the key was traced, or the run isn't ideal anyway.
    fn is_settled(&self, number: &u64, key: &Key) -> bool
        ensures { result ≡ (not self.now.ideal || number_has self.now.traced number.now key.now.0) }
    {
        !self.ideal || self.traced.has(number, key)
    }

    // Returns whether the key is that of the node's install code, or a term carries it under one of the node's keys.
    fn came(&self, number: &u64, key: &Key) -> bool
        ensures { result ≡ came self.now (Some number.now) key.now.0 }
    {
        self.codes.has(number, key) || self.came_under_a_key(number, key)
    }

    fn came_under_a_key(&self, number: &u64, key: &Key) -> bool
        ensures { result ≡ meet (keys_at nat_cmp self.now.bases number.now)
            (keys_at key_cmp self.now.carriers key.now) }
    {
        match self.bases.sets.get(number) {
            Some(bases) => self.carriers.meets(key, bases),
            None => false,
        }
    }

    /// Notes the link key of a node's install code. It changes nothing if the node has no number.
    ///
    /// # Errors
    /// `AllocError`, if memory runs out.
    pub fn code(&mut self, alloc: Global, node: Option<u64>, key: Key) -> Result<(), AllocError>
        ensures codes { OnOk result ((n : ℕ) (k : List ℕ)
            → number_has self.new.codes n k
            ≡ (number_has self.old.codes n k || (is_number node n && bytes_eq k key.0))) }
        ensures bases { OnOk result ((n : ℕ) (k : List ℕ)
            → number_has self.new.bases n k
            ≡ (number_has self.old.bases n k || (is_number node n && bytes_eq k key.0))) }
        ensures terms { OnOk result (self.new.terms ≡ self.old.terms) }
        ensures carriers { OnOk result (self.new.carriers ≡ self.old.carriers) }
        ensures traced { OnOk result (self.new.traced ≡ self.old.traced) }
        ensures ideal { OnOk result (self.new.ideal ≡ self.old.ideal) }
    {
        self.codes.add_at(alloc, node, key)?;
        self.bases.add_at(alloc, node, key)?;
        Ok(())
    }

    /// Notes a node's link row with that key. It changes nothing if the node has no number.
    ///
    /// # Errors
    /// `AllocError`, if memory runs out.
    pub fn row(&mut self, alloc: Global, node: Option<u64>, key: Key) -> Result<(), AllocError>
        ensures bases { OnOk result ((n : ℕ) (k : List ℕ)
            → number_has self.new.bases n k
            ≡ (number_has self.old.bases n k || (is_number node n && bytes_eq k key.0))) }
        ensures codes { OnOk result (self.new.codes ≡ self.old.codes) }
        ensures terms { OnOk result (self.new.terms ≡ self.old.terms) }
        ensures carriers { OnOk result (self.new.carriers ≡ self.old.carriers) }
        ensures traced { OnOk result (self.new.traced ≡ self.old.traced) }
        ensures ideal { OnOk result (self.new.ideal ≡ self.old.ideal) }
    {
        self.bases.add_at(alloc, node, key)?;
        Ok(())
    }
}
