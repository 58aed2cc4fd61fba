//! The second claim: no receiver accepts a sender's counter twice under one key.
ghost use Rattle.std.specs.Prelude.{◌≡◌, ◌+◌, ◌++◌, ◌∷◌, [], ◌||◌, ◌&&◌, ℕ, List, OnOk, Some, None, length, nat_eq, nat_le, not, if◌then◌else◌};
ghost use Rattle.std.specs.BTreeMap.{get};
ghost use Rattle.std.specs.Option.{option_or};
ghost use Rattle.zb_audit.specs.Standing as standing;
ghost use Rattle.zb_audit.specs.Standing.{AreTaken, channel_cmp, height, is_below};
ghost use Rattle.zb_audit.specs.Taking.{same_sender};
ghost use Rattle.zb_audit_names.specs.Naming.{declared_in};
ghost use Rattle.zb_audit_names.specs.Standing.{IsSpeaker};
ghost use Rattle.zb_model.specs.Data.{Bytes};
ghost use Rattle.zb_seal.specs.declared.term.Term.{Term as AnyTerm};
ghost use Rattle.zb_trace.specs.declared.line.Line.{Line as AnyLine};

use crate::numbers::first_bad;
use std::alloc::Global;
use std::collections::BTreeMap;
use zb_audit_names::Who;
use zb_base::{Eui, Key, Layer, NoMemory};
use zb_seal::Term;
use zb_trace::Line;

/// The receiver, sender, layer and key of an accepted term.
///
/// The key comes last, because two channels mostly differ in a number before it.
#[derive(Clone, Copy, Drop, PartialEq, Eq, PartialOrd, Ord)]
pub struct Channel {
    /// The place of the receiver's name among all names.
    pub place: usize,
    /// The sender.
    pub source: Eui,
    /// The layer.
    pub layer: Layer,
    /// The base key.
    pub base: Key,
}

/// The greatest counters that were accepted so far.
#[derive(Drop)]
pub struct Taking {
    /// The greatest counter of each channel.
    pub heights: BTreeMap<Channel, u32>,
    /// The number of the first line that accepted a counter that isn't greater than those before it.
    pub first: Option<u32>,
}

impl Taking {
    /// Makes the state before the first line.
    pub fn new(alloc: Global) -> Taking
        ensures { (names : List Bytes) → AreTaken names result [] }
    {
        Taking {
            heights: BTreeMap::new(alloc),
            first: None,
        }
    }

    /// Processes one line of node `who`.
    ///
    /// # Errors
    /// `NoMemory`, if memory runs out.
    pub fn line(&mut self, number: u32, line: &Line, who: Who) -> Result<(), NoMemory>
        ensures { OnOk result ((names : List Bytes) (h : List AnyLine) → number ≡ length h + 1
            → IsSpeaker who names (declared_in h) line.now → AreTaken names self.old h
            → AreTaken names self.new (h ++ line.now ∷ [])) }
    {
        match line {
            Line::Accept { term, .. } => {
                self.accept(number, term, who.place)?;
                Ok(())
            }
            _ => Ok(()),
        }
    }

    fn accept(&mut self, number: u32, term: &Term, place: usize) -> Result<(), NoMemory>
        ensures heights { OnOk result ((i : ℕ) (t : AnyTerm) → is_below t.counter (height self.new i t)
            ≡ (is_below t.counter (height self.old i t)
            || (nat_eq place i && (same_sender t term.now && nat_le t.counter term.now.counter)))) }
        ensures first { OnOk result (self.new.first
            ≡ option_or self.old.first
            (if not (is_below term.now.counter (height self.old place term.now)) then None else Some number)) }
    {
        let channel = channel_of(place, term);
        let rises = self.rises(&channel, term.counter);
        if rises {
            self.heights.insert(channel, term.counter)?;
        }
        self.first = first_bad(self.first, rises, number);
        Ok(())
    }

    fn rises(&self, channel: &Channel, counter: u32) -> bool
        ensures { result ≡ not (is_below counter (get channel_cmp self.now.heights channel.now)) }
    {
        match self.heights.get(channel) {
            Some(height) => *height < counter,
            None => true,
        }
    }
}

/// Returns the channel on which a node accepts a term.
fn channel_of(place: usize, term: &Term) -> Channel
    ensures { result ≡ standing.channel_of place term.now }
{
    Channel {
        place,
        source: term.source,
        layer: term.layer,
        base: term.base,
    }
}
