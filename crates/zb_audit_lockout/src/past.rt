//! What was known before the group of a line.
ghost use Rattle.std.specs.Prelude.{◌≡◌, ◌++◌, ◌∷◌, [], List, OnOk, IfOk};
ghost use Rattle.zb_audit_lockout.specs.declared.fact.Fact.TheVariants.{Lives as lives, Holds as holds_it};
ghost use Rattle.zb_audit_names.specs.Groups.{event_of};
ghost use Rattle.zb_audit_names.specs.Naming.{declared_in};
ghost use Rattle.zb_audit_names.specs.Standing.{IsSpeaker};
ghost use Rattle.zb_audit_lockout.specs.Facts.{Recalls, eui_of_node, held_fact, partner_of, stated, carried_fact};
ghost use Rattle.zb_audit_lockout.specs.Standing.{Enters, IsPast};
ghost use Rattle.zb_model.specs.Data.{Bytes};
ghost use Rattle.zb_model.specs.Tools.{Tools};
ghost use Rattle.zb_trace.specs.declared.line.Line.{Line as AnyLine};
ghost use Rattle.zb_trace_watch.specs.Standing.{FindKeys};

use crate::before::Before;
use crate::fact::Fact;
use crate::groups::goes_on;
use std::alloc::{AllocError, Global};
use zb_audit_names::{Node, Who, event};
use zb_base::{Eui, Key};
use zb_trace::Line;
use zb_trace_watch::carried_key;

/// What was known before the group of the last line, and what the lines of that group state.
#[derive(Drop)]
pub struct Past {
    /// The event of the last line, if it has one.
    pub event: Option<u32>,
    /// What was known before the group of the last line.
    pub before: Before,
    /// What the lines of that group state, in order.
    pub group: Vec<Fact>,
}

impl Past {
    /// Makes the past of no lines.
    ///
    /// # Errors
    /// `AllocError`, if memory runs out.
    pub fn new(alloc: Global) -> Result<Past, AllocError>
        ensures { IfOk result (λ past. (tools : Tools) (names : List Bytes) → IsPast tools names past []) }
    {
        Ok(Past {
            event: None,
            before: Before::new(alloc)?,
            group: Vec::new(alloc),
        })
    }

    /// Processes one line. `who` is the line's node.
    ///
    /// # Errors
    /// `AllocError`, if memory runs out.
    pub fn line(&mut self, alloc: Global, line: &Line, who: Who) -> Result<(), AllocError>
        ensures { OnOk result ((tools : Tools) (names : List Bytes) (h : List AnyLine) → FindKeys tools
            → IsSpeaker who names (declared_in h) line.now → IsPast tools names self.old h
            → IsPast tools names self.new (h ++ line.now ∷ [])) }
    {
        let event = event(line);
        self.enter(alloc, event)?;
        self.event = event;
        self.note(line, who)
    }

    // Ends the group, unless a line of that event continues it.
    fn enter(&mut self, alloc: Global, event: Option<u32>) -> Result<(), AllocError>
        ensures { OnOk result ((tools : Tools) (names : List Bytes) (h : List AnyLine) (l : AnyLine)
            → event ≡ event_of l → IsPast tools names self.old h → Enters tools names self.new h l) }
    {
        if goes_on(self.event, event) {
            Ok(())
        } else {
            self.end_group(alloc)
        }
    }

    // Ends the group: what its lines state is known before the next one.
    fn end_group(&mut self, alloc: Global) -> Result<(), AllocError>
        ensures recalls { OnOk result ((tools : Tools) (names : List Bytes) (h : List AnyLine)
            → Recalls tools names self.old.before self.old.group.items h → Recalls tools names self.new.before [] h) }
        ensures group { OnOk result (self.new.group.items ≡ []) }
    {
        learn_all(alloc, &mut self.before, &self.group)?;
        self.group.clear();
        Ok(())
    }

    fn note(&mut self, line: &Line, who: Who) -> Result<(), AllocError>
        ensures group { OnOk result (self.new.group.items ≡ self.old.group.items ++ stated who line.now) }
        ensures before { self.new.before ≡ self.old.before }
        ensures event { self.new.event ≡ self.old.event }
    {
        match line {
            Line::GivenNet { key, .. } => self.live(who, *key),
            Line::Install { key, .. } => self.live(who, *key),
            Line::DropNet { key, .. } => self.state(Fact::Drops(who.place, *key)),
            Line::GivenLink { key, .. } => self.hold(eui_of(who.node), *key),
            Line::Row { partner, key, .. } => self.row(who, *partner, *key),
            Line::Pair {
                first,
                second,
                key,
                ..
            } => self.pair(*first, *second, *key),
            Line::Removed { device, .. } => self.state(Fact::Removed(*device)),
            Line::Seal { term, .. } => self.carry(term.base, carried_key(term)),
            Line::Forge { term, .. } => self.carry(term.base, carried_key(term)),
            _ => Ok(()),
        }
    }

    fn state(&mut self, fact: Fact) -> Result<(), AllocError>
        ensures group { OnOk result (self.new.group.items ≡ self.old.group.items ++ fact ∷ []) }
        ensures before { self.new.before ≡ self.old.before }
        ensures event { self.new.event ≡ self.old.event }
    {
        self.group.push(fact)?;
        Ok(())
    }

    fn live(&mut self, who: Who, key: Key) -> Result<(), AllocError>
        ensures group { OnOk result (self.new.group.items
            ≡ self.old.group.items ++ lives who.place key ∷ held_fact (eui_of_node who.node) key) }
        ensures before { self.new.before ≡ self.old.before }
        ensures event { self.new.event ≡ self.old.event }
    {
        self.state(Fact::Lives(who.place, key))?;
        self.hold(eui_of(who.node), key)
    }

    fn row(&mut self, who: Who, partner: Eui, key: Key) -> Result<(), AllocError>
        ensures group { OnOk result (self.new.group.items ≡ self.old.group.items
            ++ (held_fact (partner_of who.is_centre partner) key ++ held_fact (eui_of_node who.node) key)) }
        ensures before { self.new.before ≡ self.old.before }
        ensures event { self.new.event ≡ self.old.event }
    {
        self.hold(partner_at(who.is_centre, partner), key)?;
        self.hold(eui_of(who.node), key)
    }

    fn pair(&mut self, first: Eui, second: Eui, key: Key) -> Result<(), AllocError>
        ensures group { OnOk result (self.new.group.items
            ≡ self.old.group.items ++ holds_it first key ∷ holds_it second key ∷ []) }
        ensures before { self.new.before ≡ self.old.before }
        ensures event { self.new.event ≡ self.old.event }
    {
        self.state(Fact::Holds(first, key))?;
        self.state(Fact::Holds(second, key))
    }

    fn hold(&mut self, device: Option<Eui>, key: Key) -> Result<(), AllocError>
        ensures group { OnOk result (self.new.group.items ≡ self.old.group.items ++ held_fact device key) }
        ensures before { self.new.before ≡ self.old.before }
        ensures event { self.new.event ≡ self.old.event }
    {
        match device {
            Some(device) => self.state(Fact::Holds(device, key)),
            None => Ok(()),
        }
    }

    fn carry(&mut self, base: Key, key: Option<Key>) -> Result<(), AllocError>
        ensures group { OnOk result (self.new.group.items ≡ self.old.group.items ++ carried_fact base key) }
        ensures before { self.new.before ≡ self.old.before }
        ensures event { self.new.event ≡ self.old.event }
    {
        match key {
            Some(key) => self.state(Fact::Carries(base, key)),
            None => Ok(()),
        }
    }
}

/// Learns facts, one after the other.
fn learn_all(alloc: Global, before: &mut Before, facts: &[Fact]) -> Result<(), AllocError>
    ensures { OnOk result ((tools : Tools) (names : List Bytes) (h : List AnyLine)
        → Recalls tools names before.old facts.now h → Recalls tools names before.new [] h) }
{
    for fact in facts {
        before.learn(alloc, *fact)?;
    }
    Ok(())
}

/// Returns the address of a node, if it was declared.
pub fn eui_of(node: Option<Node>) -> Option<Eui>
    ensures { result ≡ eui_of_node node }
{
    match node {
        Some(node) => Some(node.eui),
        None => None,
    }
}

/// Returns the partner of a row, if the row is the centre's.
pub fn partner_at(is_centre: bool, partner: Eui) -> Option<Eui>
    ensures { result ≡ partner_of is_centre partner }
{
    if is_centre { Some(partner) } else { None }
}
