//! A schedule while it is read: what each line does to it, or why the line may not stand there.

ghost use Rattle.std.specs.Prelude.{◌≡◌, ◌<◌, ◌++◌, [], ◌∷◌, map, length, nat_lt, OnOk, is_some, Some, Err, position};
ghost use Rattle.std.specs.List.{list_any};
ghost use Rattle.std.specs.Option.{option_map};
ghost use Rattle.zb_base.specs.declared.fault.OrMemory.TheVariants.{Fault};
ghost use Rattle.zb_install.specs.Code.{code_key};
ghost use Rattle.zb_sched_line.specs.Views.{event_of, sentence_of};
ghost use Rattle.zb_sched.specs.Judge.{after_event, after_code, after_counter, after_draw, after_netkey, after_node, after_sentence, are_blocks, clashes, has_begun, has_code as is_coded, has_counter as is_counted, changed, coded, has_its_nodes, has_name, holding, is_joiner, is_parent, has_network as is_holding, is_link as is_link_key, is_link_of_other as is_other_link, is_network as is_network_key, is_taken as clashes_with, role_named, starting};
ghost use Rattle.zb_sched.specs.Reading.{has_centre, start, Steps};

use crate::entry::{
    Entry, has_centre, has_code, has_counter, has_network, is_link, is_link_of_other, is_network,
    is_taken, nodes_of, role_near, set_code, set_counter, set_network,
};
use crate::error::SchedCause;
use crate::hints::Hints;
use crate::schedule::Schedule;
use crate::supply::Supply;
use std::alloc::{AllocError, Global};
use std::marker::Model;
use zb_base::{
    Key, Layer, List, MOST_EVENTS, MOST_IN_BLOCK, MOST_NODES, MOST_OUT_BLOCK, Name, OrMemory, Peer,
    Role, WELL_KNOWN,
};
use zb_install::InstallCode;
use zb_sched_line::{Event, Line, read_line, read_own_event};

/// A schedule so far.
#[derive(Drop)]
pub struct Draft {
    entries: Vec<Entry>,
    draws: Supply,
    events: Vec<Event>,
    hints: Hints,
}

impl Model for Draft {
    ghost use Rattle.std.specs.List.{AllByRecursion};
    ghost use Rattle.std.specs.Prelude.{map};
    ghost use Rattle.zb_sched.specs.Drafts.{seat_of, seen_so_far, AreNamedApart, IsLinked};
    ghost use Rattle.zb_sched.specs.Judge.{Seen};

    ghost Value = { Seen };

    ghost view = { λ d. seen_so_far d.entries.items d.draws d.events.items };

    ghost invariant = { λ d. AllByRecursion IsLinked d.entries.items × AreNamedApart (map seat_of d.entries.items) };
}

impl Draft {
    /// Makes a draft of nothing.
    pub fn new(alloc: Global) -> Draft
        ensures { result ≡ start }
    {
        Draft {
            entries: Vec::new(alloc),
            draws: Supply::new(alloc),
            events: Vec::new(alloc),
            hints: Hints::new(),
        }
    }

    fn has_begun(&self) -> bool
        ensures { result ≡ has_begun self.now }
    {
        !self.events.is_empty()
    }

    fn is_taken(&self, peer: &Peer) -> bool
        ensures { result ≡ list_any
            (λ seat. clashes_with peer.now.name.bytes peer.now.eui.0 peer.now.short.0 seat) self.now.seats }
    {
        is_taken(self.entries.as_slice(), peer)
    }

    fn role(&self, name: &Name) -> Option<Role>
        ensures { result ≡ role_named name.now.bytes self.now.seats }
    {
        role_near(self.entries.as_slice(), name, self.hints.place(name))
    }

    fn has_code(&self, name: &Name) -> bool
        ensures { result ≡ is_coded name.now.bytes self.now.seats }
    {
        has_code(self.entries.as_slice(), name)
    }

    fn has_network(&self, name: &Name) -> bool
        ensures { result ≡ is_holding name.now.bytes self.now.seats }
    {
        has_network(self.entries.as_slice(), name)
    }

    fn has_counter(&self, name: &Name, layer: Layer) -> bool
        ensures { result ≡ is_counted name.now.bytes layer self.now.seats }
    {
        has_counter(self.entries.as_slice(), name, layer)
    }

    fn is_link(&self, key: &Key) -> bool
        ensures { result ≡ is_link_key key.now.0 self.now.seats }
    {
        is_link(self.entries.as_slice(), key)
    }

    fn is_network(&self, key: &Key) -> bool
        ensures { result ≡ is_network_key key.now.0 self.now.seats }
    {
        is_network(self.entries.as_slice(), key)
    }

    fn is_link_of_other(&self, key: &Key, name: &Name) -> bool
        ensures { result ≡ is_other_link key.now.0 name.now.bytes self.now.seats }
    {
        is_link_of_other(self.entries.as_slice(), key, name)
    }

    fn clashes(&self, key: &Key, name: &Name) -> bool
        ensures { result ≡ clashes key.now.0 name.now.bytes self.now }
    {
        self.is_link_of_other(key, name)
            || self.is_network(key)
            || self.draws.has(key)
            || *key == WELL_KNOWN
    }

    /// Returns whether the centre was declared.
    pub fn has_centre(&self) -> bool
        ensures { result ≡ has_centre self.now.seats }
    {
        has_centre(self.entries.as_slice())
    }

    /// Takes the line of a node.
    fn take_node(
        &mut self,
        peer: Peer,
        out_block: u32,
        in_block: u32,
    ) -> Result<(), OrMemory<SchedCause>>
        ensures { Steps result self.new
            (after_node self.old peer.name.bytes peer.role peer.eui.0 peer.short.0 out_block in_block) }
    {
        if self.has_begun() {
            return refuse(SchedCause::Syntax);
        }
        if self.is_taken(&peer) {
            return refuse(SchedCause::DuplicateNode);
        }
        if !are_blocks(out_block, in_block) {
            return refuse(SchedCause::Block);
        }
        if MOST_NODES <= self.entries.len() {
            return refuse(SchedCause::TooMany);
        }
        self.hints.note(&peer.name, self.entries.len());
        self.entries.push(Entry::new(peer, out_block, in_block))?;
        Ok(())
    }

    /// Takes the line of an install code.
    fn take_code(
        &mut self,
        name: &Name,
        code: Option<InstallCode>,
    ) -> Result<(), OrMemory<SchedCause>>
        ensures { Steps result self.new (after_code self.old name.now.bytes code) }
    {
        if self.has_begun() {
            return refuse(SchedCause::Syntax);
        }
        if self.has_code(name) {
            return refuse(SchedCause::DuplicateNode);
        }
        let Some(code) = code else {
            return refuse(SchedCause::BadCode);
        };
        let link = code.link_key();
        if self.clashes(&link, name) {
            return refuse(SchedCause::DuplicateCode);
        }
        if !is_joiner(self.role(name)) {
            return refuse(SchedCause::UnknownNode);
        }
        set_code(&mut self.entries, name, code, link);
        Ok(())
    }

    /// Takes the line of a network key.
    fn take_netkey(
        &mut self,
        name: &Name,
        key: Key,
        sequence: u8,
    ) -> Result<(), OrMemory<SchedCause>>
        ensures { Steps result self.new (after_netkey self.old name.now.bytes key.0 sequence) }
    {
        if self.has_begun() {
            return refuse(SchedCause::Syntax);
        }
        if self.has_network(name) {
            return refuse(SchedCause::DuplicateNode);
        }
        if self.is_link(&key) || self.draws.has(&key) || key == WELL_KNOWN {
            return refuse(SchedCause::DrawRepeated);
        }
        if self.role(name).is_none() {
            return refuse(SchedCause::UnknownNode);
        }
        set_network(&mut self.entries, name, key, sequence);
        Ok(())
    }

    /// Takes the line of a counter.
    fn take_counter(
        &mut self,
        name: &Name,
        layer: Layer,
        limit: u32,
    ) -> Result<(), OrMemory<SchedCause>>
        ensures { Steps result self.new (after_counter self.old name.now.bytes layer limit) }
    {
        if self.has_begun() {
            return refuse(SchedCause::Syntax);
        }
        if self.has_counter(name, layer) {
            return refuse(SchedCause::DuplicateNode);
        }
        if self.role(name).is_none() {
            return refuse(SchedCause::UnknownNode);
        }
        set_counter(&mut self.entries, name, layer, limit);
        Ok(())
    }

    /// Takes the line of a key of the supply.
    fn take_draw(&mut self, key: Key) -> Result<(), OrMemory<SchedCause>>
        ensures { Steps result self.new (after_draw self.old key.0) }
    {
        if self.has_begun() {
            return refuse(SchedCause::Syntax);
        }
        if self.draws.has(&key)
            || self.is_network(&key)
            || self.is_link(&key)
            || key == WELL_KNOWN
        {
            return refuse(SchedCause::DrawRepeated);
        }
        self.draws.push(key)?;
        Ok(())
    }
}

impl Draft {
    ghost use Rattle.std.specs.Prelude.{◌≡◌, is_some, IfOk, IsTrue, OnOk};
    ghost use Rattle.zb_sched.specs.Schedules.{schedule_of};
    ghost use Rattle.zb_sched_line.specs.Fits.{FitsSentence};
    ghost use Rattle.zb_sched_line.specs.Views.{event_of, sentence_of};
    ghost use Rattle.zb_sched.specs.Judge.{after_event, after_sentence, are_child_and_parent, are_partners, has_its_nodes, provision_clashes, role_named};
    ghost use Rattle.zb_sched.specs.Drafts.{TakesOwn};
    ghost use Rattle.zb_sched.specs.Reading.{after_line, finished, has_centre, Steps};
    ghost use Rattle.zb_sched.specs.Valid.{IsSchedule, IsSoFar};

    fn roles(&self, first: &Name, second: &Name) -> (Option<Role>, Option<Role>)
        ensures first { result.0 ≡ role_named first.now.bytes self.now.seats }
        ensures second { result.1 ≡ role_named second.now.bytes self.now.seats }
    {
        (self.role(first), self.role(second))
    }

    fn are_partners(&self, name: &Name, partner: &Name) -> bool
        ensures { result ≡ are_partners name.now.bytes partner.now.bytes self.now.seats }
    {
        if *name == *partner {
            return false;
        }
        let roles = self.roles(name, partner);
        is_joiner(roles.0) && is_joiner(roles.1)
    }

    fn are_child_and_parent(&self, name: &Name, parent: &Name) -> bool
        ensures { result ≡ are_child_and_parent name.now.bytes parent.now.bytes self.now.seats }
    {
        if *name == *parent {
            return false;
        }
        let roles = self.roles(name, parent);
        is_joiner(roles.0) && is_parent(roles.1)
    }

    fn has_nodes_of(&self, event: &Event) -> bool
        ensures { result ≡ has_its_nodes (event_of event.now) self.now.seats }
    {
        match event {
            Event::Say { name, .. }
            | Event::Deliver { name, .. }
            | Event::Timer { name }
            | Event::Reset { name }
            | Event::Boot { name }
            | Event::Dump { name }
            | Event::Stop { name, .. }
            | Event::Fail { name, .. } => self.role(name).is_some(),
            Event::Knock { name }
            | Event::Rejoin { name }
            | Event::Provision { name, .. }
            | Event::Again { name } => { is_joiner(self.role(name)) }
            Event::Child { parent, name, .. } | Event::Remove { name, parent } =>
                self.are_child_and_parent(name, parent),
            Event::Ask { name, partner }
            | Event::Share { name, partner }
            | Event::Tell { name, partner, .. } => { self.are_partners(name, partner) }
            Event::Roll
            | Event::Switch
            | Event::Inject { .. }
            | Event::ForgeNet { .. }
            | Event::ForgeNetAps { .. }
            | Event::ForgeOpen { .. } => true,
        }
    }

    fn provision_clashes(&self, event: &Event) -> bool
        ensures { result ≡ provision_clashes (event_of event.now) self.now }
    {
        match event {
            Event::Provision { name, code } => self.clashes(&code.link_key(), name),
            _ => false,
        }
    }

    /// Takes an event.
    fn take_event(&mut self, event: Event) -> Result<(), OrMemory<SchedCause>>
        ensures { Steps result self.new (after_event self.old (event_of event)) }
    {
        if self.provision_clashes(&event) {
            return refuse(SchedCause::DuplicateCode);
        }
        if !self.has_nodes_of(&event) {
            return refuse(SchedCause::UnknownNode);
        }
        if MOST_EVENTS <= self.events.len() {
            return refuse(SchedCause::TooMany);
        }
        self.events.push(event)?;
        Ok(())
    }

    /// Makes the schedule that was read.
    ///
    /// # Errors
    /// `AllocError`.
    pub fn finish(self, alloc: Global) -> Result<Schedule, AllocError>
        ensures schedule { IfOk result (λ schedule. schedule_of schedule ≡ finished self) }
        ensures valid { IsSoFar (finished self) → IsTrue (has_centre self.seats)
            → IfOk result (λ schedule. IsSchedule (schedule_of schedule)) }
    {
        let Draft {
            entries,
            draws,
            events,
            hints: _,
        } = self;
        let nodes = nodes_of(alloc, entries)?;
        let keys = draws.into_keys();
        Ok(Schedule {
            nodes: List::from_vec(nodes),
            draws: List::from_vec(keys),
            events: List::from_vec(events),
        })
    }

    /// Makes room for `events` more events.
    ///
    /// # Errors
    /// `AllocError`.
    pub fn reserve(&mut self, events: usize) -> Result<(), AllocError>
        ensures { self.new ≡ self.old }
    {
        self.events.reserve(events)
    }

    /// Takes what a line says.
    ///
    /// # Errors
    /// The first rule that the line breaks, or out of memory. The schedule so far isn't used any more then.
    pub fn take_line(&mut self, line: Line) -> Result<(), OrMemory<SchedCause>>
        ensures exact { Steps result self.new (after_sentence self.old (sentence_of line)) }
        ensures kept { FitsSentence (sentence_of line) → IsSoFar (finished self.old)
            → OnOk result (IsSoFar (finished self.new)) }
    {
        match line {
            Line::Blank => Ok(()),
            Line::Node {
                peer,
                out_block,
                in_block,
            } => self.take_node(peer, out_block, in_block),
            Line::Code { name, code } => self.take_code(&name, code),
            Line::NetKey {
                name,
                key,
                sequence,
            } => self.take_netkey(&name, key, sequence),
            Line::Counter { name, layer, limit } => self.take_counter(&name, layer, limit),
            Line::Draw { key } => self.take_draw(key),
            Line::BadProvision { name: _ } => refuse(SchedCause::BadCode),
            Line::Event(event) => self.take_event(event),
        }
    }

    /// Takes a line.
    ///
    /// # Errors
    /// `Syntax` where it is no line of a schedule, the first rule that it breaks, or out of memory. The schedule so
    /// far isn't used any more then.
    pub fn take(&mut self, text: &[u8]) -> Result<(), OrMemory<SchedCause>>
        ensures exact { Steps result self.new (after_line self.old text.now) }
        ensures kept { IsSoFar (finished self.old) → OnOk result (IsSoFar (finished self.new)) }
    {
        match self.take_own_event(text) {
            Ok(true) => Ok(()),
            Ok(false) => self.take_other(text),
            Err(fault) => Err(fault),
        }
    }

    /// Takes a line where it is an event of one node, and returns whether it is one. The event is read into its place.
    fn take_own_event(&mut self, text: &[u8]) -> Result<bool, OrMemory<SchedCause>>
        ensures exact { TakesOwn result self.old self.new text.now }
        ensures kept { IsSoFar (finished self.old) → OnOk result (IsSoFar (finished self.new)) }
    {
        let last = self.events.len();
        self.events.push(Event::Roll)?;
        if read_own_event(text, &mut self.events[last]).is_none() {
            self.events.pop();
            return Ok(false);
        }
        let event = &self.events[last];
        if self.provision_clashes(event) {
            return Err(OrMemory::Fault(SchedCause::DuplicateCode));
        }
        if !self.has_nodes_of(event) {
            return Err(OrMemory::Fault(SchedCause::UnknownNode));
        }
        if MOST_EVENTS <= last {
            return Err(OrMemory::Fault(SchedCause::TooMany));
        }
        Ok(true)
    }

    /// Takes a line of any kind.
    fn take_other(&mut self, text: &[u8]) -> Result<(), OrMemory<SchedCause>>
        ensures exact { Steps result self.new (after_line self.old text.now) }
        ensures kept { IsSoFar (finished self.old) → OnOk result (IsSoFar (finished self.new)) }
    {
        match read_line(text) {
            Some(line) => self.take_line(line),
            None => refuse(SchedCause::Syntax),
        }
    }
}

/// Refuses a line.
fn refuse(cause: SchedCause) -> Result<(), OrMemory<SchedCause>>
    ensures { result ≡ Err (Fault cause) }
{
    Err(OrMemory::Fault(cause))
}

fn are_blocks(out_block: u32, in_block: u32) -> bool
    ensures { result ≡ are_blocks out_block in_block }
{
    1 <= out_block && out_block <= MOST_OUT_BLOCK && 1 <= in_block && in_block <= MOST_IN_BLOCK
}

fn is_joiner(role: Option<Role>) -> bool
    ensures { result ≡ is_joiner role }
{
    match role {
        None | Some(Role::Centre) => false,
        Some(Role::Router) | Some(Role::Device) => true,
    }
}

fn is_parent(role: Option<Role>) -> bool
    ensures { result ≡ is_parent role }
{
    match role {
        None | Some(Role::Device) => false,
        Some(Role::Centre) | Some(Role::Router) => true,
    }
}
