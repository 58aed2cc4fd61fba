//! Which terms were forged, and which were sealed by removed devices.
ghost use Rattle.std.specs.Prelude.{◌≡◌, ◌||◌, ◌&&◌, ℕ, IfOk, OnOk, drop, nat_eq, nat_le, nat_lt, false};
ghost use Rattle.std.specs.Map.{keys_of};
ghost use Rattle.zb_audit_lockout.specs.Reading.{is_foul, is_late_seal, late_by, open_at, opened_by};
ghost use Rattle.zb_audit_lockout.specs.Reading.{seals_of, some_late, some_open};
ghost use Rattle.zb_audit_lockout.specs.Standing.{Forgets};
ghost use Rattle.zb_model.specs.Secrets.{same_term};
ghost use Rattle.zb_model_real.specs.Terms.{model_term};
ghost use Rattle.zb_seal.specs.declared.term.Term.{Term as AnyTerm};
ghost use Rattle.zb_trace_watch.specs.Terms.{has_term};

use crate::bags::Bags;
use crate::windows::Windows;
use std::alloc::{AllocError, Global};
use zb_base::Eui;
use zb_seal::Term;
use zb_trace_watch::terms::Terms;

/// The seal of a removed device.
#[derive(Clone, Copy)]
pub struct LateSeal {
    /// The device.
    pub device: Eui,
    /// The number of the last line before the seal that removed any device.
    pub number: u32,
}

impl LateSeal {
    // Returns whether the device is still removed, by the line that had removed it then.
    fn is_open(&self, windows: &Windows) -> bool
        ensures { result ≡ opened_by (open_at windows.now self.now.device.0) self.now.number }
    {
        windows.is_open(&self.device, self.number)
    }
}

/// The terms that a node must not accept if it has no key known outside.
#[derive(Drop)]
pub struct Evidence {
    /// The terms that outsiders forged.
    pub forged: Terms,
    /// The seals of removed devices, by their term.
    pub sealed: Bags<Term, LateSeal>,
}

impl Evidence {
    /// Makes the state before the first line.
    pub fn new(alloc: Global) -> Evidence
        ensures forged { (t : AnyTerm) → has_term result.forged t ≡ false }
        ensures sealed { (t : AnyTerm) (d number : ℕ) → late_by result d number t ≡ false }
    {
        Evidence {
            forged: Terms::new(alloc),
            sealed: Bags::new(alloc),
        }
    }

    /// Notes that a term was forged.
    ///
    /// # Errors
    /// `AllocError`, if memory runs out.
    pub fn forge(&mut self, term: &Term) -> Result<(), AllocError>
        ensures forged { OnOk result ((t : AnyTerm) → has_term self.new.forged t
            ≡ (has_term self.old.forged t || same_term (model_term t) (model_term term.now))) }
        ensures sealed { OnOk result (self.new.sealed ≡ self.old.sealed) }
    {
        self.forged.add(term)
    }

    /// Notes that a device, if there is one, sealed a term, if the device is removed.
    ///
    /// # Errors
    /// `AllocError`, if memory runs out.
    pub fn seal(
        &mut self,
        alloc: Global,
        windows: &Windows,
        device: Option<Eui>,
        term: &Term,
    ) -> Result<(), AllocError>
        ensures sealed { OnOk result ((t : AnyTerm) (d number : ℕ) → late_by self.new d number t
            ≡ (late_by self.old d number t || (same_term (model_term t) (model_term term.now)
            && is_late_seal windows.now device d number))) }
        ensures forged { OnOk result (self.new.forged ≡ self.old.forged) }
    {
        match device {
            Some(device) => self.seal_one(alloc, windows, device, term),
            None => Ok(()),
        }
    }

    fn seal_one(
        &mut self,
        alloc: Global,
        windows: &Windows,
        device: Eui,
        term: &Term,
    ) -> Result<(), AllocError>
        ensures sealed { OnOk result ((t : AnyTerm) (d number : ℕ) → late_by self.new d number t
            ≡ (late_by self.old d number t || (same_term (model_term t) (model_term term.now)
            && (opened_by (open_at windows.now device.0) windows.now.last
            && (nat_eq d device.0 && nat_le number windows.now.last))))) }
        ensures forged { OnOk result (self.new.forged ≡ self.old.forged) }
    {
        let number = windows.last;
        if windows.is_open(&device, number) {
            self.add(alloc, term, LateSeal { device, number })?;
        }
        Ok(())
    }

    fn add(&mut self, alloc: Global, term: &Term, seal: LateSeal) -> Result<(), AllocError>
        ensures sealed { OnOk result ((t : AnyTerm) (d number : ℕ) → late_by self.new d number t
            ≡ (late_by self.old d number t || (same_term (model_term t) (model_term term.now)
            && (nat_eq d seal.device.0 && nat_le number seal.number)))) }
        ensures forged { OnOk result (self.new.forged ≡ self.old.forged) }
    {
        self.sealed.add(alloc, term.clone()?, seal)
    }

    /// Returns whether a term is foul.
    ///
    /// A term is foul if a removed device sealed it since its removal. It is also foul if it was forged and some
    /// device is removed. The call forgets some seals of devices that were admitted since.
    ///
    /// # Errors
    /// `AllocError`, if memory runs out.
    pub fn is_foul(&mut self, windows: &Windows, term: &Term) -> Result<bool, AllocError>
        ensures foul { IfOk result (λ foul. foul ≡ is_foul windows.now self.old term.now) }
        ensures forgets { OnOk result (Forgets windows.now self.old self.new) }
    {
        let is_late = self.is_late(windows, term)?;
        Ok(is_late || self.is_forged(windows, term))
    }

    fn is_forged(&self, windows: &Windows, term: &Term) -> bool
        ensures { result ≡ (some_open windows.now windows.now.last (keys_of windows.now.removals)
            && has_term self.now.forged term.now) }
    {
        windows.any_open(windows.last) && self.forged.has(term)
    }

    // Returns whether a removed device sealed the term. The seals after the last such seal can't become late any
    // more.
    fn is_late(&mut self, windows: &Windows, term: &Term) -> Result<bool, AllocError>
        ensures late { IfOk result (λ late. late ≡ some_late windows.now (seals_of self.old term.now)) }
        ensures forgets { OnOk result (Forgets windows.now self.old self.new) }
    {
        let count = up_to_open(windows, self.sealed.at(term));
        self.sealed.keep(term, count)?;
        Ok(count > 0)
    }
}

/// Returns how many seals there are up to the last one of a device that is still removed.
fn up_to_open(windows: &Windows, seals: &[LateSeal]) -> usize
    ensures any { nat_lt 0 result ≡ some_late windows.now seals.now }
    ensures behind { some_late windows.now (drop result seals.now) ≡ false }
{
    let mut count = seals.len();
    while count > 0 {
        let seal = seals[count - 1];
        if seal.is_open(windows) {
            return count;
        }
        count -= 1;
    }
    0
}
