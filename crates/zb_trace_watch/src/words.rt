//! The two words, line by line.
ghost use Rattle.std.specs.Prelude.{◌≡◌, ◌&&◌, ℕ, Bool, IfOk, OnOk, Some, None, if◌then◌else◌, not};
ghost use Rattle.arrayvec.specs.ArrayString.{ArrayString};
ghost use Rattle.zb_model.specs.Tools.{Tools};
ghost use Rattle.zb_base.specs.declared.address.Eui.{Eui as AnyEui};
ghost use Rattle.zb_trace.specs.declared.line.Line.TheVariants as lines;
ghost use Rattle.zb_trace_watch.specs.declared.speaker.Speaker.{Speaker as AnySpeaker};
ghost use Rattle.zb_trace_watch.specs.Sayings.{private as private_of, said_by, start, JoinerCounts, Sayings};
ghost use Rattle.zb_trace_watch.specs.Standing.{Follows, Represents};

use crate::carrying::carried_key;
use crate::exposure::Exposure;
use crate::origins::Origins;
use crate::passing::Passing;
use crate::speaker::Speaker;
use std::alloc::Global;
use zb_base::{Attribute, Eui, Key, NoMemory};
use zb_seal::Term;
use zb_trace::Line;

/// What is known about a transcript after the lines so far. It keeps no line.
///
/// It uses ordered maps and sets. A step looks up or adds a key, a node or a term, and costs logarithmic work. A line
/// takes a fixed number of steps, and also those of two tasks:
///
/// - Where a key came from is looked up the first time that a router or device installs that key, and no longer once
///   the lines aren't ideal. The node's link keys are looked up among the base keys under which the key was carried,
///   or the other way round, whichever are fewer. Over a run these look-ups are at most as many as its routers and
///   devices times its lines that carry a key. With 63 routers and devices that is at most 63 a line. A transcript of
///   this program needs at most 64 for any one line, because a router or device has at most 64 link rows, with the
///   dropped ones.
/// - What outsiders learn is followed when they learn it. Each key becomes known once, and then the keys that were
///   carried under it are visited. Over n lines that is at most 2n + 1 steps, but a single line, such as a removal,
///   may take nearly all of them.
///
/// So in a network of at most 64 nodes a line costs logarithmic work, on average over the run and not for each line
/// alone. A foreign transcript may declare more nodes: its n lines need at most n times the square root of n
/// look-ups.
#[derive(Drop)]
pub struct EndWords {
    /// Where accepted terms and installed keys came from.
    pub origins: Origins,
    /// The keys of the network, and whether outsiders passed one on.
    pub passing: Passing,
    /// What outsiders may know.
    pub exposure: Exposure,
}

impl EndWords {
    /// Makes the words of no lines.
    ///
    /// # Errors
    /// `NoMemory`, if memory runs out.
    pub fn new(alloc: Global) -> Result<EndWords, NoMemory>
        ensures { IfOk result (λ words. (tools : Tools) (counts : ℕ → Bool) → Represents tools counts words start) }
    {
        Ok(EndWords {
            origins: Origins::new(alloc),
            passing: Passing::new(alloc),
            exposure: Exposure::new(alloc)?,
        })
    }

    /// Returns whether everything accepted or installed came from earlier terms.
    ///
    /// Each accepted term was sealed or forged before. Each key that a router or device installed is its install
    /// code's, or came in an earlier term under one of its keys.
    pub fn ideal(&self) -> bool
        ensures { (tools : Tools) (counts : ℕ → Bool) (said : Sayings) → Represents tools counts self.now said
            → result ≡ said.ideal }
    {
        self.origins.ideal
    }

    /// Returns whether outsiders forged only under keys that they may know, and passed on no key of the network.
    pub fn private(&self) -> bool
        ensures { (tools : Tools) (counts : ℕ → Bool) (said : Sayings) → Represents tools counts self.now said
            → result ≡ private_of tools said }
    {
        self.exposure.based && !self.passing.passed_on
    }

    /// Processes one line of node `who`.
    ///
    /// # Errors
    /// `NoMemory`. The words must not be used after that.
    pub fn line(&mut self, alloc: Global, line: &Line, who: Speaker) -> Result<(), NoMemory>
        ensures { OnOk result ((tools : Tools) (counts : ℕ → Bool) (said : Sayings) → JoinerCounts counts who line.now
            → Follows tools counts said (said_by tools said who line.now) self.old self.new) }
    {
        match line {
            Line::GivenNet { key, .. } => self.given_net(alloc, who, *key),
            Line::GivenLink { key, .. } => self.given_link(alloc, who, *key),
            Line::Draw { key, .. } => self.draw(*key),
            Line::Install { key, .. } => self.install(alloc, who, *key),
            Line::Row {
                partner,
                key,
                attribute,
                ..
            } => self.row(alloc, who, *partner, *key, *attribute),
            Line::Pair {
                first,
                second,
                key,
                ..
            } => self.pair(alloc, *first, *second, *key),
            Line::Removed { device, .. } => self.remove(alloc, *device),
            Line::Accept { term, .. } => {
                self.accept(term);
                Ok(())
            }
            Line::Seal { term, .. } => self.seal(alloc, term),
            Line::Forge { term, .. } => self.forge(alloc, term),
            _ => Ok(()),
        }
    }

    fn given_net(&mut self, alloc: Global, who: Speaker, key: Key) -> Result<(), NoMemory>
        ensures { OnOk result ((tools : Tools) (counts : ℕ → Bool) (said : Sayings) (node : ArrayString) (sequence : ℕ)
            → Follows tools counts said (said_by tools said who (lines.GivenNet node key sequence))
            self.old self.new) }
    {
        self.passing.network_key(key)?;
        self.exposure.hold(alloc, who.address, key)?;
        Ok(())
    }

    fn given_link(&mut self, alloc: Global, who: Speaker, key: Key) -> Result<(), NoMemory>
        ensures { OnOk result ((tools : Tools) (counts : ℕ → Bool) (said : Sayings) (node : ArrayString)
            (partner : AnyEui)
            → Follows tools counts said (said_by tools said who (lines.GivenLink node partner key))
            self.old self.new) }
    {
        self.passing.network_key(key)?;
        self.origins.code(alloc, who.number, key)?;
        self.exposure.hold(alloc, who.address, key)?;
        Ok(())
    }

    fn draw(&mut self, key: Key) -> Result<(), NoMemory>
        ensures { OnOk result ((tools : Tools) (counts : ℕ → Bool) (said : Sayings) (who : AnySpeaker) (event : ℕ)
            → Follows tools counts said (said_by tools said who (lines.Draw event key)) self.old self.new) }
    {
        self.passing.network_key(key)?;
        Ok(())
    }

    fn install(&mut self, alloc: Global, who: Speaker, key: Key) -> Result<(), NoMemory>
        ensures { OnOk result ((tools : Tools) (counts : ℕ → Bool) (said : Sayings) (node : ArrayString)
            (event sequence : ℕ)
            → JoinerCounts counts who (lines.Install event node key sequence)
            → Follows tools counts said (said_by tools said who (lines.Install event node key sequence))
            self.old self.new) }
    {
        self.origins.take_in(alloc, who.joiner, key)?;
        self.exposure.hold(alloc, who.address, key)?;
        Ok(())
    }

    fn row(
        &mut self,
        alloc: Global,
        who: Speaker,
        partner: Eui,
        key: Key,
        attribute: Attribute,
    ) -> Result<(), NoMemory>
        ensures { OnOk result ((tools : Tools) (counts : ℕ → Bool) (said : Sayings) (node : ArrayString) (event : ℕ)
            → JoinerCounts counts who (lines.Row event node partner key attribute)
            → Follows tools counts said (said_by tools said who (lines.Row event node partner key attribute))
            self.old self.new) }
    {
        self.passing.row_key(key, attribute)?;
        self.origins.take_in(alloc, who.joiner, key)?;
        self.origins.row(alloc, who.number, key)?;
        self.exposure
            .hold(alloc, centres_partner(who, partner), key)?;
        self.exposure.hold(alloc, who.address, key)?;
        Ok(())
    }

    fn pair(&mut self, alloc: Global, first: Eui, second: Eui, key: Key) -> Result<(), NoMemory>
        ensures { OnOk result ((tools : Tools) (counts : ℕ → Bool) (said : Sayings) (who : AnySpeaker)
            (event : ℕ) (node : ArrayString)
            → Follows tools counts said (said_by tools said who (lines.Pair event node first second key))
            self.old self.new) }
    {
        self.exposure.hold(alloc, Some(first), key)?;
        self.exposure.hold(alloc, Some(second), key)?;
        Ok(())
    }

    fn remove(&mut self, alloc: Global, device: Eui) -> Result<(), NoMemory>
        ensures { OnOk result ((tools : Tools) (counts : ℕ → Bool) (said : Sayings) (who : AnySpeaker) (event : ℕ)
            → Follows tools counts said (said_by tools said who (lines.Removed event device)) self.old self.new) }
    {
        self.exposure.remove(alloc, device)?;
        Ok(())
    }

    fn accept(&mut self, term: &Term)
        ensures { (tools : Tools) (counts : ℕ → Bool) (said : Sayings) (who : AnySpeaker) (event : ℕ)
            (node : ArrayString)
            → Follows tools counts said (said_by tools said who (lines.Accept event node term.now))
            self.old self.new }
    {
        self.origins.accept(term);
    }

    fn seal(&mut self, alloc: Global, term: &Term) -> Result<(), NoMemory>
        ensures { OnOk result ((tools : Tools) (counts : ℕ → Bool) (said : Sayings) (who : AnySpeaker) (event : ℕ)
            (node : ArrayString)
            → Follows tools counts said (said_by tools said who (lines.Seal event node term.now))
            self.old self.new) }
    {
        let key = carried_key(term);
        self.exposure.carry(alloc, term.base, key)?;
        self.origins.term(alloc, term, key)?;
        Ok(())
    }

    fn forge(&mut self, alloc: Global, term: &Term) -> Result<(), NoMemory>
        ensures { OnOk result ((tools : Tools) (counts : ℕ → Bool) (said : Sayings) (who : AnySpeaker) (event : ℕ)
            → Follows tools counts said (said_by tools said who (lines.Forge event term.now)) self.old self.new) }
    {
        let key = carried_key(term);
        self.exposure.forge(&term.base);
        self.passing.forged_key(key)?;
        self.exposure.carry(alloc, term.base, key)?;
        self.origins.term(alloc, term, key)?;
        Ok(())
    }
}

/// Returns the partner of a node's link row, if the node is the centre.
fn centres_partner(who: Speaker, partner: Eui) -> Option<Eui>
    ensures { result ≡ (if who.is_centre then Some partner else None) }
{
    if who.is_centre { Some(partner) } else { None }
}
