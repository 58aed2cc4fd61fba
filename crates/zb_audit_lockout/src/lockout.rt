//! Lockout over the lines so far.
ghost use Rattle.std.specs.Prelude.{◌≡◌, ◌+◌, ◌++◌, ◌∷◌, ◌||◌, ◌&&◌, [], List, length, true, not, bytes_eq};
ghost use Rattle.std.specs.Prelude.{IfOk, OnOk, if◌then◌else◌, None, Some};
ghost use Rattle.zb_audit_names.specs.Naming.{declared_in};
ghost use Rattle.zb_audit_names.specs.Standing.{IsSpeaker};
ghost use Rattle.zb_audit_lockout.specs.Lockout as of_lines;
ghost use Rattle.zb_audit_lockout.specs.Facts.{eui_of_node};
ghost use Rattle.zb_audit_lockout.specs.Reading.{accepts, is_foul, knows};
ghost use Rattle.zb_audit_lockout.specs.Standing.{Admits, CarriesSome, Draws, Forges, Forgets, CameToHold, Judges, Removes};
ghost use Rattle.zb_audit_lockout.specs.Standing.{Seals, Stands, Tells};
ghost use Rattle.zb_model.specs.Data.{Bytes};
ghost use Rattle.zb_model.specs.Tools.{Tools};
ghost use Rattle.zb_trace.specs.declared.line.Line.{Line as AnyLine};
ghost use Rattle.zb_trace_watch.specs.Sets.{is_node};
ghost use Rattle.zb_trace_watch.specs.Standing.{FindKeys};
ghost use Rattle.zb_seal.specs.Carrying.{carried as carried_of};

use crate::evidence::Evidence;
use crate::past::{Past, eui_of, partner_at};
use crate::reach::Reach;
use std::alloc::Global;
use zb_audit_names::Who;
use zb_base::{Eui, Key, Layer, NoMemory};
use zb_seal::Term;
use zb_trace::Line;
use zb_trace_watch::carried_key;

/// What is needed of the lines so far to find where lockout first fails.
///
/// It keeps no line. It uses ordered maps and sets, and a line takes a few look-ups. For each key that comes out for
/// a removed device it notes how early such a device was removed. So lockout can only fail if a noted key is drawn,
/// or if a key comes out for a device that was removed before the key was drawn. An admission changes no note. So if
/// a note says that lockout may fail, all that leads to its key is withdrawn, and the devices among that which are
/// still removed are entered again.
///
/// - A key that comes out costs a step for each key that terms carry under it. It costs that again if it comes out
///   for a device that was removed earlier. To make this rare, a key is noted as earlier than necessary.
/// - A device that is removed costs a step for each key that it ever held, unless it is noted as removed already.
/// - A key that is withdrawn costs a step for each key under which terms carry it, and for each device that held it.
///   A line withdraws each key at most once, or twice if it names a pair of devices.
/// - What the lines of a group say about keys waits until the group ends. Then it is processed once, as a watch over
///   a transcript does.
/// - An accepted term is looked up among the forged terms and those that removed devices sealed. Its last seals are
///   forgotten if their devices were admitted since, up to one that is still late.
/// - Which live network keys outsiders may know is noted for each node as they learn keys, each key once. So for a
///   node that accepts foul terms such a key is found at once, and its keys are searched at most once: then lockout
///   fails.
///
/// For honest transcripts, and for most others, the time grows with the length. One case is known to take longer. A
/// device is removed and admitted thousands of times, and each time a key that had come out for it is drawn.
/// Meanwhile thousands of keys come out for it or lead to that key. Memory grows with the length.
#[derive(Drop)]
pub struct Lockout {
    /// The number of the first line at which lockout fails.
    pub first: Option<u32>,
    /// What was known before the group of the last line.
    pub past: Past,
    /// Which keys lead to keys that were drawn after a removal.
    pub reach: Reach,
    /// Which terms were forged, and which were sealed by removed devices.
    pub evidence: Evidence,
}

impl Lockout {
    /// Makes the state before the first line.
    ///
    /// # Errors
    /// `NoMemory`, if memory runs out.
    pub fn new(alloc: Global) -> Result<Lockout, NoMemory>
        ensures { IfOk result (λ lockout. (tools : Tools) (names : List Bytes) → Stands tools names lockout []) }
    {
        Ok(Lockout {
            first: None,
            past: Past::new(alloc)?,
            reach: Reach::new(alloc),
            evidence: Evidence::new(alloc),
        })
    }

    /// Returns the number of the first line at which lockout fails, if there is one.
    pub fn first_unlocked(&self) -> Option<u32>
        ensures { (tools : Tools) (names : List Bytes) (h : List AnyLine) → Stands tools names self.now h
            → result ≡ of_lines.first_unlocked tools h }
    {
        self.first
    }

    /// Processes one line, the `number`-th. `who` is the line's node. After `NoMemory` the value must not be used.
    ///
    /// # Errors
    /// `NoMemory`, if memory runs out.
    pub fn line(
        &mut self,
        alloc: Global,
        number: u32,
        line: &Line,
        who: Who,
    ) -> Result<(), NoMemory>
        ensures { OnOk result ((tools : Tools) (names : List Bytes) (h : List AnyLine) → FindKeys tools
            → number ≡ length h + 1 → IsSpeaker who names (declared_in h) line.now → Stands tools names self.old h
            → Stands tools names self.new (h ++ line.now ∷ [])) }
    {
        match self.first {
            Some(_) => Ok(()),
            None => self.go_on(alloc, number, line, who),
        }
    }

    fn go_on(&mut self, alloc: Global, number: u32, line: &Line, who: Who) -> Result<(), NoMemory>
        ensures { OnOk result ((tools : Tools) (names : List Bytes) (h : List AnyLine) → FindKeys tools
            → number ≡ length h + 1 → IsSpeaker who names (declared_in h) line.now → self.old.first ≡ None
            → Stands tools names self.old h → Stands tools names self.new (h ++ line.now ∷ [])) }
    {
        self.past.line(alloc, line, who)?;
        let stays = self.judge(alloc, number, line, who)?;
        self.first = unless(stays, number);
        Ok(())
    }

    // Processes a line whose past is already there, and returns whether lockout still holds.
    fn judge(&mut self, alloc: Global, number: u32, line: &Line, who: Who) -> Result<bool, NoMemory>
        ensures judges { IfOk result (λ stays. Judges self.old self.new number line.now who stays) }
        ensures first { OnOk result (self.new.first ≡ self.old.first) }
    {
        match line {
            Line::GivenNet { key, .. } => self.hold(alloc, eui_of(who.node), None, *key),
            Line::GivenLink { key, .. } => self.hold(alloc, eui_of(who.node), None, *key),
            Line::Install { key, .. } => self.hold(alloc, eui_of(who.node), None, *key),
            Line::Row { partner, key, .. } => self.hold(
                alloc,
                eui_of(who.node),
                partner_at(who.is_centre, *partner),
                *key,
            ),
            Line::Pair {
                first,
                second,
                key,
                ..
            } => self.hold(alloc, Some(*first), Some(*second), *key),
            Line::Draw { key, .. } => self.draw(alloc, *key),
            Line::Removed { device, .. } => self.remove(alloc, *device, number),
            Line::Live { device, .. } => Ok(self.admit(*device)),
            Line::Seal { term, .. } => self.seal(alloc, who, term),
            Line::Forge { term, .. } => self.forge(alloc, term),
            Line::Accept { term, .. } => self.accepts(who, term),
            _ => Ok(true),
        }
    }

    fn hold(
        &mut self,
        alloc: Global,
        first: Option<Eui>,
        second: Option<Eui>,
        key: Key,
    ) -> Result<bool, NoMemory>
        ensures reach { OnOk result (CameToHold self.old.reach self.new.reach
            (λ d k. (is_node first d && bytes_eq k key.0) || (is_node second d && bytes_eq k key.0))) }
        ensures tells { IfOk result (λ stays. Tells self.old.reach self.new.reach stays) }
        ensures evidence { self.new.evidence ≡ self.old.evidence }
        ensures past { self.new.past ≡ self.old.past }
        ensures first { self.new.first ≡ self.old.first }
    {
        Ok(self.reach.hold_both(alloc, first, second, key)?)
    }

    fn draw(&mut self, alloc: Global, key: Key) -> Result<bool, NoMemory>
        ensures reach { OnOk result (Draws self.old.reach self.new.reach key) }
        ensures tells { IfOk result (λ stays. Tells self.old.reach self.new.reach stays) }
        ensures evidence { self.new.evidence ≡ self.old.evidence }
        ensures past { self.new.past ≡ self.old.past }
        ensures first { self.new.first ≡ self.old.first }
    {
        Ok(self.reach.draw(alloc, key)?)
    }

    fn remove(&mut self, alloc: Global, device: Eui, number: u32) -> Result<bool, NoMemory>
        ensures removes { OnOk result (Removes self.old.reach self.new.reach device.0 number) }
        ensures stays { IfOk result (λ stays. stays ≡ true) }
        ensures evidence { self.new.evidence ≡ self.old.evidence }
        ensures past { self.new.past ≡ self.old.past }
        ensures first { self.new.first ≡ self.old.first }
    {
        self.reach.remove(alloc, device, number)?;
        Ok(true)
    }

    fn admit(&mut self, device: Eui) -> bool
        ensures admits { Admits self.old.reach self.new.reach device.0 }
        ensures stays { result ≡ true }
        ensures evidence { self.new.evidence ≡ self.old.evidence }
        ensures past { self.new.past ≡ self.old.past }
        ensures first { self.new.first ≡ self.old.first }
    {
        self.reach.windows.admit(device);
        true
    }

    fn seal(&mut self, alloc: Global, who: Who, term: &Term) -> Result<bool, NoMemory>
        ensures reach { OnOk result (CarriesSome self.old.reach self.new.reach term.now.base (carried_of term.now)) }
        ensures tells { IfOk result (λ stays. Tells self.old.reach self.new.reach stays) }
        ensures evidence { OnOk result
            (Seals self.old.reach self.old.evidence self.new.evidence (eui_of_node who.node) term.now) }
        ensures past { self.new.past ≡ self.old.past }
        ensures first { self.new.first ≡ self.old.first }
    {
        self.evidence
            .seal(alloc, &self.reach.windows, eui_of(who.node), term)?;
        self.carry(alloc, term)
    }

    fn forge(&mut self, alloc: Global, term: &Term) -> Result<bool, NoMemory>
        ensures reach { OnOk result (CarriesSome self.old.reach self.new.reach term.now.base (carried_of term.now)) }
        ensures tells { IfOk result (λ stays. Tells self.old.reach self.new.reach stays) }
        ensures evidence { OnOk result (Forges self.old.evidence self.new.evidence term.now) }
        ensures past { self.new.past ≡ self.old.past }
        ensures first { self.new.first ≡ self.old.first }
    {
        self.evidence.forge(term)?;
        self.carry(alloc, term)
    }

    fn carry(&mut self, alloc: Global, term: &Term) -> Result<bool, NoMemory>
        ensures reach { OnOk result (CarriesSome self.old.reach self.new.reach term.now.base (carried_of term.now)) }
        ensures tells { IfOk result (λ stays. Tells self.old.reach self.new.reach stays) }
        ensures evidence { self.new.evidence ≡ self.old.evidence }
        ensures past { self.new.past ≡ self.old.past }
        ensures first { self.new.first ≡ self.old.first }
    {
        match carried_key(term) {
            Some(key) => Ok(self.reach.carry(alloc, term.base, key)?),
            None => Ok(true),
        }
    }

    // Returns whether the line's node may accept the term.
    fn accepts(&mut self, who: Who, term: &Term) -> Result<bool, NoMemory>
        ensures stays { IfOk result (λ stays. stays ≡ accepts self.old who.place term.now) }
        ensures evidence { OnOk result (Forgets self.old.reach.windows self.old.evidence self.new.evidence) }
        ensures reach { self.new.reach ≡ self.old.reach }
        ensures past { self.new.past ≡ self.old.past }
        ensures first { self.new.first ≡ self.old.first }
    {
        match term.layer {
            Layer::Aps => Ok(true),
            Layer::Nwk => self.may_accept(who.place, term),
        }
    }

    fn may_accept(&mut self, place: usize, term: &Term) -> Result<bool, NoMemory>
        ensures stays { IfOk result (λ stays. stays
            ≡ (not (is_foul self.old.reach.windows self.old.evidence term.now) || knows self.old.past.before place)) }
        ensures evidence { OnOk result (Forgets self.old.reach.windows self.old.evidence self.new.evidence) }
        ensures reach { self.new.reach ≡ self.old.reach }
        ensures past { self.new.past ≡ self.old.past }
        ensures first { self.new.first ≡ self.old.first }
    {
        let is_foul = self.evidence.is_foul(&self.reach.windows, term)?;
        Ok(!is_foul || self.past.before.holds_known(place))
    }
}

/// Returns the number, unless lockout still holds.
fn unless(stays: bool, number: u32) -> Option<u32>
    ensures { result ≡ (if stays then None else Some number) }
{
    if stays { None } else { Some(number) }
}
