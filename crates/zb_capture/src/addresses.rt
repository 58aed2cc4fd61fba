//! The addresses of a capture that is being read.
ghost use Rattle.std.specs.Prelude.{◌≡◌};

use std::alloc::Global;
use std::collections::BTreeSet;
use std::marker::Model;
use zb_base::{Eui, List, NoMemory, Short};

/// Keeps addresses, and finds a short one without a walk through all of them.
///
/// A contract sees them as their list.
#[derive(Drop)]
pub(crate) struct Addresses {
    pairs: Vec<(Short, Eui)>,
    /// The short addresses of all pairs.
    shorts: BTreeSet<Short>,
}

impl Model for Addresses {
    ghost use Rattle.std.specs.Prelude.{List};
    ghost use Rattle.zb_base.specs.declared.address.Eui.{Eui as EuiValue};
    ghost use Rattle.zb_base.specs.declared.address.Short.{Short as ShortValue};
    ghost use Rattle.zb_capture.specs.Sets.{HaveShorts};

    ghost Value = { List (ShortValue × EuiValue) };

    ghost view = { λ a. a.pairs.items };

    ghost invariant = { λ a. HaveShorts a.shorts a.pairs.items };
}

impl Addresses {
    ghost use Rattle.std.specs.Prelude.{◌≡◌, ◌++◌, [], ◌∷◌, if◌then◌else◌, IfOk, OnOk, not};
    ghost use Rattle.std.specs.List.{list_all, list_any};
    ghost use Rattle.zb_capture.specs.Grammar.{has_short};
    ghost use Rattle.zb_capture.specs.Pieces.{is_new};

    /// Makes a list of no addresses.
    pub fn new(alloc: Global) -> Addresses
        ensures { result ≡ [] }
    {
        Addresses {
            pairs: Vec::new(alloc),
            shorts: BTreeSet::new(alloc),
        }
    }

    /// Adds an address if its short address is new, and returns whether it is.
    ///
    /// # Errors
    ///
    /// `NoMemory`, if memory runs out.
    pub fn add(&mut self, addr: (Short, Eui)) -> Result<bool, NoMemory>
        ensures new { IfOk result (λ new. new ≡ not (list_any (has_short addr.0) self.old)) }
        ensures adds { IfOk result (λ new. self.new ≡ (if new then self.old ++ addr ∷ [] else self.old)) }
    {
        self.pairs.reserve(1)?;
        let new = self.shorts.insert(addr.0)?;
        if new {
            self.pairs.push(addr)?;
        }
        Ok(new)
    }

    /// Returns whether no short address of others is one of these.
    pub fn are_apart(&self, others: &Addresses) -> bool
        ensures { result ≡ list_all (is_new self.now) others.now }
    {
        others.pairs.iter().all(|addr| self.is_new(addr))
    }

    fn is_new(&self, addr: &(Short, Eui)) -> bool
        ensures { result ≡ is_new self.now addr.now }
    {
        !self.shorts.contains(&addr.0)
    }

    /// Adds others after these.
    ///
    /// # Errors
    ///
    /// `NoMemory`, if memory runs out.
    pub fn add_all(&mut self, others: Addresses) -> Result<(), NoMemory>
        ensures { OnOk result (self.new ≡ self.old ++ others) }
    {
        for addr in others.pairs {
            self.put(addr)?;
        }
        Ok(())
    }

    /// Adds an address, whether or not its short address is new.
    fn put(&mut self, addr: (Short, Eui)) -> Result<(), NoMemory>
        ensures { OnOk result (self.new ≡ self.old ++ addr ∷ []) }
    {
        self.pairs.reserve(1)?;
        self.shorts.insert(addr.0)?;
        self.pairs.push(addr)?;
        Ok(())
    }

    /// Returns the list of the addresses.
    pub fn into_list(self) -> List<(Short, Eui)>
        ensures { result ≡ self }
    {
        List::from_vec(self.pairs)
    }
}
