//! The first claim: no node seals twice under one key and nonce.
ghost use Rattle.std.specs.Prelude.{◌≡◌, ◌+◌, ◌++◌, ◌∷◌, [], ◌||◌, List, OnOk, Some, None, length, not, if◌then◌else◌};
ghost use Rattle.std.specs.Option.{option_or};
ghost use Rattle.zb_audit.specs.Nonces.{same_stamp};
ghost use Rattle.zb_audit.specs.Standing as standing;
ghost use Rattle.zb_audit.specs.Standing.{AreNonces, was_sealed};
ghost use Rattle.zb_seal.specs.declared.term.Term.{Term as AnyTerm};
ghost use Rattle.zb_trace.specs.declared.line.Line.{Line as AnyLine};

use crate::numbers::first_bad;
use std::alloc::Global;
use std::collections::BTreeSet;
use zb_base::{Eui, Key, NoMemory};
use zb_seal::{Term, sealing_key};
use zb_trace::Line;

/// A sealing key and a nonce. The nonce is a source, a counter and a control byte (05-3474-21, 4.5.2.2).
///
/// The key comes last, because two stamps mostly differ in a number before it.
#[derive(Clone, Copy, Drop, PartialEq, Eq, PartialOrd, Ord)]
pub struct Stamp {
    /// The address of the sealing node.
    pub source: Eui,
    /// The frame counter.
    pub counter: u32,
    /// The security control byte.
    pub control: u8,
    /// The sealing key.
    pub key: Key,
}

/// The stamps of all seals so far.
#[derive(Drop)]
pub struct Nonces {
    /// The stamps, in order.
    pub seen: BTreeSet<Stamp>,
    /// The number of the first line that sealed with a stamp that was already used.
    pub first: Option<u32>,
}

impl Nonces {
    /// Makes the state before the first line.
    pub fn new(alloc: Global) -> Nonces
        ensures { AreNonces result [] }
    {
        Nonces {
            seen: BTreeSet::new(alloc),
            first: None,
        }
    }

    /// Processes one line.
    ///
    /// # Errors
    /// `NoMemory`, if memory runs out.
    pub fn line(&mut self, number: u32, line: &Line) -> Result<(), NoMemory>
        ensures { OnOk result ((h : List AnyLine) → number ≡ length h + 1 → AreNonces self.old h
            → AreNonces self.new (h ++ line.now ∷ [])) }
    {
        match line {
            Line::Seal { term, .. } => {
                self.seal(number, term)?;
                Ok(())
            }
            _ => Ok(()),
        }
    }

    fn seal(&mut self, number: u32, term: &Term) -> Result<(), NoMemory>
        ensures seen { OnOk result ((t : AnyTerm)
            → was_sealed self.new t ≡ (was_sealed self.old t || same_stamp t term.now)) }
        ensures first { OnOk result
            (self.new.first
            ≡ option_or self.old.first (if not (was_sealed self.old term.now) then None else Some number)) }
    {
        let is_new = self.seen.insert(stamp_of(term))?;
        self.first = first_bad(self.first, is_new, number);
        Ok(())
    }
}

/// Returns the sealing key and the nonce of a term.
fn stamp_of(term: &Term) -> Stamp
    ensures { result ≡ standing.stamp_of term.now }
{
    Stamp {
        source: term.source,
        counter: term.counter,
        control: term.control,
        key: sealing_key(term.label, &term.base),
    }
}
