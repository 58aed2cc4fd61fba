//! The recount of a transcript, line by line.
ghost use Rattle.std.specs.Prelude.{◌≡◌, ◌+◌, ◌++◌, ◌∷◌, [], ℕ, List, length, OnOk, IfOk, None};
ghost use Rattle.std.specs.Option.{option_or};
ghost use Rattle.zb_audit_names.specs.Groups as declared;
ghost use Rattle.zb_audit_names.specs.Standing.{IsSpeaker};
ghost use Rattle.zb_audit_names.specs.Naming.{declared_in};
ghost use Rattle.zb_model.specs.Data.{Bytes};
ghost use Rattle.zb_audit_counters.specs.Counting.{first_uncounted};
ghost use Rattle.zb_audit_counters.specs.Recounting.{first_unmet_by, is_met_at, with_bad, with_wait, HasHeard, Ready, Recounts};
ghost use Rattle.zb_audit_counters.specs.Standing.{in_block_by, out_block_by};
ghost use Rattle.zb_trace.specs.declared.line.Line.{Line as AnyLine};
ghost use Rattle.std.specs.BTreeMap.{get};
ghost use Rattle.std.specs.Ordering.{nat_cmp};

use crate::counters::Counters;
use crate::judgement::{Judgement, Wait};
use crate::lines::{continues, counts, is_cut};
use std::alloc::{AllocError, Global};
use std::collections::BTreeMap;
use zb_audit_names::{Who, event};
use zb_base::NoMemory;
use zb_trace::Line;

/// What is known about the counters of a transcript after the lines so far.
///
/// A recount keeps no line. It keeps a few numbers for each node, for each network key of a node, and for each sender
/// that a node hears.
#[derive(Drop)]
pub struct Recount {
    /// What is known about each node, by the place of its name.
    pub nodes: BTreeMap<usize, Counters>,
    /// The number of the first line of the group that is being read; 1 before any.
    pub group: u32,
    /// The number of its event.
    pub event: Option<u32>,
    /// Whether this event was cut short.
    pub cut: bool,
    /// Those of its lines that wait for its end, in order. They come before the line that doesn't add up, if any.
    pub waits: Vec<Wait>,
    /// The number of its first line that doesn't add up, whatever lines follow.
    pub bad: Option<u32>,
    /// The number of the first line of the earlier groups that doesn't add up.
    pub first: Option<u32>,
}

impl Recount {
    /// Makes a recount of no lines.
    pub fn new(alloc: Global) -> Recount
        ensures { (names : List Bytes) → Recounts names result [] }
    {
        Recount {
            nodes: BTreeMap::new(alloc),
            group: 1,
            event: None,
            cut: false,
            waits: Vec::new(alloc),
            bad: None,
            first: None,
        }
    }

    /// Processes one line. `number` is its number, from 1. `who` is its node, by the lines before. After `NoMemory`
    /// the recount must not be used.
    ///
    /// # Errors
    /// `NoMemory`, if memory runs out.
    pub fn line(
        &mut self,
        alloc: Global,
        number: u32,
        line: &Line,
        who: Who,
    ) -> Result<(), NoMemory>
        ensures { OnOk result ((names : List Bytes) (h : List AnyLine) → number ≡ length h + 1
            → IsSpeaker who names (declared_in h) line.now → Recounts names self.old h
            → Recounts names self.new (h ++ line.now ∷ [])) }
    {
        if self.first.is_some() {
            return Ok(());
        }
        self.turn(number, event(line));
        if self.first.is_some() {
            return Ok(());
        }
        self.read(alloc, number, line, who)?;
        Ok(())
    }

    /// Returns the number of the first line that doesn't add up, after all lines were read.
    pub fn end(&self) -> Option<u32>
        ensures { (names : List Bytes) (h : List AnyLine) → Recounts names self.now h → result ≡ first_uncounted h }
    {
        match self.first {
            Some(line) => Some(line),
            None => self.first_of_group(),
        }
    }

    /// Ends the group, if the line is of another event.
    fn turn(&mut self, number: u32, event: Option<u32>)
        ensures { (names : List Bytes) (h : List AnyLine) (l : AnyLine) → event ≡ declared.event_of l
            → number ≡ length h + 1 → self.old.first ≡ None → Recounts names self.old h → Ready names self.new h l }
    {
        if !continues(self.event, event) {
            self.first = self.first_of_group();
            self.group = number;
            self.event = event;
            self.cut = false;
            self.waits.clear();
            self.bad = None;
        }
    }

    fn first_of_group(&self) -> Option<u32>
        ensures { result ≡ option_or (first_unmet_by self.now self.now.waits.items) self.now.bad }
    {
        match self.first_unmet() {
            Some(line) => Some(line),
            None => self.bad,
        }
    }

    fn first_unmet(&self) -> Option<u32>
        ensures { result ≡ first_unmet_by self.now self.now.waits.items }
    {
        let waits = self.waits.as_slice();
        for wait in waits {
            if !self.is_met(wait) {
                return Some(wait.line);
            }
        }
        None
    }

    fn is_met(&self, wait: &Wait) -> bool
        ensures { result ≡ is_met_at self.now wait.now (get nat_cmp self.now.nodes wait.now.place) }
    {
        match self.nodes.get(&wait.place) {
            Some(counters) => counters.meets(self.group, self.cut, &wait.need),
            None => false,
        }
    }

    /// Processes a line of the group.
    fn read(&mut self, alloc: Global, number: u32, line: &Line, who: Who) -> Result<(), AllocError>
        ensures { OnOk result ((names : List Bytes) (h : List AnyLine) → number ≡ length h + 1
            → IsSpeaker who names (declared_in h) line.now → self.old.first ≡ None → Ready names self.old h line.now
            → Recounts names self.new (h ++ line.now ∷ [])) }
    {
        self.cut = is_cut(self.cut, line);
        if counts(line) {
            let judgement = hear(&mut self.nodes, alloc, self.group, number, line, who)?;
            self.note(number, who.place, judgement)?;
        }
        Ok(())
    }

    /// Notes what is known about a line. After the first line that doesn't add up no other line can be the first.
    fn note(&mut self, number: u32, place: usize, judgement: Judgement) -> Result<(), AllocError>
        ensures rest { OnOk result (self.new ≡ record self.old { waits = self.new.waits; bad = self.new.bad }) }
        ensures bad { OnOk result (self.new.bad ≡ with_bad number judgement self.old.bad) }
        ensures waits { OnOk result (self.new.waits.items
            ≡ with_wait number place judgement self.old.bad self.old.waits.items) }
    {
        if self.bad.is_none() {
            match judgement {
                Judgement::Stands => {}
                Judgement::Falls => {
                    self.bad = Some(number);
                }
                Judgement::Waits(need) => {
                    self.waits.push(Wait {
                        line: number,
                        place,
                        need,
                    })?;
                }
            }
        }
        Ok(())
    }
}

/// Processes a line of the node at a place.
fn hear(
    nodes: &mut BTreeMap<usize, Counters>,
    alloc: Global,
    group: u32,
    number: u32,
    line: &Line,
    who: Who,
) -> Result<Judgement, AllocError>
    ensures { IfOk result (λ judgement. HasHeard group number line.now (out_block_by who.node)
        (in_block_by who.node) who.place nodes.old nodes.new judgement) }
{
    match nodes.get_mut(&who.place) {
        Some(counters) => counters.hear(group, number, line, who.node),
        None => {
            let mut counters = Counters::new(alloc);
            let judgement = counters.hear(group, number, line, who.node)?;
            nodes.insert(who.place, counters)?;
            Ok(judgement)
        }
    }
}
