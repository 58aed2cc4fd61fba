//! A script while it is read: what each line does to it, or why the line may not stand there.

ghost use Rattle.std.specs.Prelude.{◌≡◌, ◌≤◌, ◌&&◌, bytes_eq, find, length, map, true, Err, IfOk, OnErr};
ghost use Rattle.std.specs.List.{list_any};
ghost use Rattle.std.specs.Option.{option_copied, option_map};
ghost use Rattle.zb_base.specs.Config.{IsConfig};
ghost use Rattle.zb_base.specs.declared.fault.OrMemory.TheVariants.{Fault};
ghost use Rattle.zb_sched.specs.Judge.{are_blocks};
ghost use Rattle.zb_backup.specs.Reading.{backup_in};
ghost use Rattle.zb_model.specs.Data as model;
ghost use Rattle.zb_model.specs.Record.{record_of};
ghost use Rattle.zb_base.specs.Sizes.{record_room};
ghost use Rattle.zb_script.specs.Judge.{after_centre, after_peer, after_remove, after_sentence, commanded, device_named, has_begun, has_centre, is_parent, is_taken as clashes_with, parent_named, provided, restored, with_order};
ghost use Rattle.zb_script.specs.Grammar.{is_joiner};
ghost use Rattle.zb_script.specs.Reading.{after_line, start, Steps};
ghost use Rattle.zb_script.specs.Scripts.{IsOrder, IsScript};
ghost use Rattle.zb_script.specs.Views.{script_of, script_with, sentence_of, station_of};
ghost use Rattle.zb_script.specs.SoFar.{Joins};
ghost use Rattle.zb_stored_tables.specs.Cores.{IsOfRole};

use crate::error::ScriptCause;
use crate::line::{Line, read_line};
use crate::script::{Order, Script, Step};
use arrayvec::ArrayVec;
use std::alloc::{AllocError, Global};
use std::marker::Model;
use zb_backup::{BackupError, read_backup};
use zb_base::{
    Config, Eui, List, MOST_IN_BLOCK, MOST_NODES, MOST_OUT_BLOCK, MOST_STEPS, Name, OrMemory, Peer,
    RECORD_ROOM, Role, Short,
};
use zb_event::Names;
use zb_install::InstallCode;
use zb_keys::Tables;

/// A script so far: the network, and what is to be done.
#[derive(Drop)]
pub struct Draft {
    // The network so far, with the centre at its first place.
    config: Config,
    steps: Vec<Step>,
}

impl Model for Draft {
    ghost use Rattle.std.specs.Prelude.{◌≡◌};
    ghost use Rattle.zb_script.specs.Scripts.{Script};
    ghost use Rattle.zb_script.specs.Views.{script_with};
    ghost use Rattle.zb_script.specs.SoFar.{IsSoFar};

    ghost Value = { Script };

    ghost view = { λ d. script_with d.config.peers.items d.config.out_block d.config.in_block d.steps.items };

    ghost invariant = { λ d. (d.config.me ≡ 0)
        × IsSoFar (script_with d.config.peers.items d.config.out_block d.config.in_block d.steps.items) };
}

/// Returns whether the name, EUI or short address of a node is that of a peer.
fn is_taken(peers: &[Peer], node: &Peer) -> bool
    ensures { result ≡ list_any
        (λ p. clashes_with node.now.name.bytes node.now.eui.0 node.now.short.0 (station_of p)) peers.now }
{
    peers.iter().any(|peer| peer.name == node.name
        || peer.eui.0 == node.eui.0
        || peer.short.0 == node.short.0)
}

/// Returns the router or device of a name.
fn find_device<'a>(peers: &'a [Peer], name: &Name) -> Option<&'a Peer>
    ensures { option_copied result
        ≡ find (λ p. bytes_eq (station_of p).name name.now.bytes && is_joiner (station_of p).role) peers.now }
{
    peers
        .iter()
        .find(|peer| peer.name == *name && is_joiner(peer.role))
}

/// Returns the centre or router of a name.
fn find_parent<'a>(peers: &'a [Peer], name: &Name) -> Option<&'a Peer>
    ensures { option_copied result
        ≡ find (λ p. bytes_eq (station_of p).name name.now.bytes && is_parent (station_of p).role) peers.now }
{
    peers
        .iter()
        .find(|peer| peer.name == *name && is_parent(peer.role))
}

/// Returns the EUI of a peer.
fn eui_of(peer: Option<&Peer>) -> Option<Eui>
    ensures { option_map (λ eui. eui.0) result ≡ option_map (λ p. p.eui.0) (option_copied peer.entry) }
{
    match peer {
        Some(peer) => Some(peer.eui),
        None => None,
    }
}

fn is_joiner(role: Role) -> bool
    ensures { result ≡ is_joiner role }
{
    match role {
        Role::Centre => false,
        Role::Router | Role::Device => true,
    }
}

fn is_parent(role: Role) -> bool
    ensures { result ≡ is_parent role }
{
    match role {
        Role::Device => false,
        Role::Centre | Role::Router => true,
    }
}

fn are_blocks(out_block: u32, in_block: u32) -> bool
    ensures { result ≡ are_blocks out_block in_block }
{
    1 <= out_block && out_block <= MOST_OUT_BLOCK && 1 <= in_block && in_block <= MOST_IN_BLOCK
}

/// Refuses a line.
fn refuse(cause: ScriptCause) -> Result<(), OrMemory<ScriptCause>>
    ensures { result ≡ Err (Fault cause) }
{
    Err(OrMemory::Fault(cause))
}

/// Returns the record of tables, written into a room for any record.
fn record_in(alloc: Global, tables: &Tables, room: &mut [u8]) -> Result<List<u8>, AllocError>
    requires { record_room ≤ length room.old }
    ensures { IfOk result (λ bytes. bytes ≡ record_of tables.now) }
{
    let len = tables.record_bytes(room);
    let mut bytes = Vec::with_capacity(alloc, len as usize)?;
    bytes.extend_from_slice(&room[..len as usize])?;
    Ok(List::from_vec(bytes))
}

/// Returns the record of tables.
fn record_of(alloc: Global, tables: &Tables) -> Result<List<u8>, AllocError>
    ensures { IfOk result (λ bytes. bytes ≡ record_of tables.now) }
{
    let mut room = vec![in alloc; 0; RECORD_ROOM]?;
    record_in(alloc, tables, room.as_mut_slice())
}

impl Draft {
    /// Makes a draft of nothing.
    pub fn new(alloc: Global) -> Draft
        ensures { result ≡ start }
    {
        Draft {
            config: Config {
                me: 0,
                peers: ArrayVec::new(),
                out_block: 0,
                in_block: 0,
            },
            steps: Vec::new(alloc),
        }
    }

    /// Returns whether the centre was declared.
    pub fn has_centre(&self) -> bool
        ensures { result ≡ has_centre self.now }
    {
        !self.config.peers.is_empty()
    }

    /// Returns the configuration of the network so far, in which the centre is the first node.
    ///
    /// It is one that a node can be configured with once the centre was declared.
    pub fn config(&self) -> &Config
        ensures network { script_with result.now.peers.items result.now.out_block result.now.in_block self.now.steps
            ≡ self.now }
        ensures me { result.now.me ≡ 0 }
        ensures config { has_centre self.now ≡ true → IsConfig result.now }
        ensures centre { has_centre self.now ≡ true → IsOfRole model.Centre result.now }
    {
        &self.config
    }

    fn is_taken(&self, node: &Peer) -> bool
        ensures { result ≡ list_any
            (λ s. clashes_with node.now.name.bytes node.now.eui.0 node.now.short.0 s) self.now.stations }
    {
        is_taken(self.config.peers.as_slice(), node)
    }

    /// Returns the EUI of the router or device of a name.
    pub fn device_named(&self, name: &Name) -> Option<Eui>
        ensures { option_map (λ eui. eui.0) result ≡ device_named name.now.bytes self.now.stations }
    {
        eui_of(find_device(self.config.peers.as_slice(), name))
    }

    /// Returns the EUI of the centre or router of a name.
    pub fn parent_named(&self, name: &Name) -> Option<Eui>
        ensures { option_map (λ eui. eui.0) result ≡ parent_named name.now.bytes self.now.stations }
    {
        eui_of(find_parent(self.config.peers.as_slice(), name))
    }

    fn has_begun(&self) -> bool
        ensures { result ≡ has_begun self.now }
    {
        !self.steps.is_empty()
    }

    /// Takes the line of the centre. A refused line changes nothing.
    ///
    /// # Errors
    /// `Syntax`, where there is a centre; `Block`.
    pub fn take_centre(
        &mut self,
        name: Name,
        eui: Eui,
        out_block: u32,
        in_block: u32,
    ) -> Result<(), OrMemory<ScriptCause>>
        ensures steps { Steps result self.new (after_centre self.old name.bytes eui.0 out_block in_block) }
        ensures kept { OnErr result (self.new ≡ self.old) }
    {
        if self.has_centre() {
            return refuse(ScriptCause::Syntax);
        }
        if !are_blocks(out_block, in_block) {
            return refuse(ScriptCause::Block);
        }
        self.config.peers.push(Peer {
            name,
            eui,
            short: Short(0),
            role: Role::Centre,
        });
        self.config.out_block = out_block;
        self.config.in_block = in_block;
        Ok(())
    }

    /// Takes the line of a peer, a router or a device. A refused line changes nothing.
    ///
    /// # Errors
    /// - `Syntax` where there is no centre yet, or a command came before.
    /// - `DuplicateNode` where its name, EUI or short address is taken.
    /// - `TooMany` where there are 64 nodes.
    pub fn take_peer(&mut self, peer: Peer) -> Result<(), OrMemory<ScriptCause>>
        requires { is_joiner peer.role ≡ true }
        ensures steps { Steps result self.new
            (after_peer self.old peer.name.bytes peer.role peer.eui.0 peer.short.0) }
        ensures kept { OnErr result (self.new ≡ self.old) }
    {
        if !self.has_centre() || self.has_begun() {
            return refuse(ScriptCause::Syntax);
        }
        if self.is_taken(&peer) {
            return refuse(ScriptCause::DuplicateNode);
        }
        if MOST_NODES <= self.config.peers.len() {
            return refuse(ScriptCause::TooMany);
        }
        self.config.peers.push(peer);
        Ok(())
    }

    /// Takes one step more.
    fn take_order(&mut self, line: u32, order: Order) -> Result<(), OrMemory<ScriptCause>>
        requires { IsOrder order }
        ensures { Steps result self.new (with_order line order self.old) }
    {
        if MOST_STEPS <= self.steps.len() {
            return refuse(ScriptCause::TooMany);
        }
        self.steps.push(Step { line, order })?;
        Ok(())
    }

    /// Takes a line that admits a device.
    fn take_provision(
        &mut self,
        line: u32,
        name: &Name,
        code: Option<InstallCode>,
    ) -> Result<(), OrMemory<ScriptCause>>
        ensures { Steps result self.new
            (commanded self.old (provided line (device_named name.now.bytes self.old.stations) code self.old)) }
    {
        if !self.has_centre() {
            return refuse(ScriptCause::Syntax);
        }
        let Some(device) = self.device_named(name) else {
            return refuse(ScriptCause::UnknownNode);
        };
        let Some(code) = code else {
            return refuse(ScriptCause::BadCode);
        };
        self.take_order(line, Order::Provision { device, code })
    }

    /// Takes a line that removes a device.
    fn take_remove(
        &mut self,
        line: u32,
        name: &Name,
        parent: &Name,
    ) -> Result<(), OrMemory<ScriptCause>>
        ensures { Steps result self.new
            (commanded self.old (after_remove line self.old name.now.bytes parent.now.bytes)) }
    {
        if !self.has_centre() {
            return refuse(ScriptCause::Syntax);
        }
        if *name == *parent {
            return refuse(ScriptCause::UnknownNode);
        }
        let Some(device) = self.device_named(name) else {
            return refuse(ScriptCause::UnknownNode);
        };
        let Some(via) = self.parent_named(parent) else {
            return refuse(ScriptCause::UnknownNode);
        };
        self.take_order(line, Order::Remove { device, via })
    }

    /// Takes a line that restores a store.
    fn take_restore(
        &mut self,
        alloc: Global,
        line: u32,
        skip: u32,
        json: &[u8],
    ) -> Result<(), OrMemory<ScriptCause>>
        ensures { Steps result self.new (commanded self.old (restored line skip (backup_in json.now) self.old)) }
    {
        if !self.has_centre() {
            return refuse(ScriptCause::Syntax);
        }
        match read_backup(alloc, json) {
            Ok(tables) => {
                let bytes = record_of(alloc, &tables)?;
                self.take_order(line, Order::Restore { skip, bytes })
            }
            Err(BackupError::Form) => refuse(ScriptCause::Backup),
            Err(BackupError::NoMemory) => Err(OrMemory::NoMemory),
        }
    }

    /// Takes a command that names no node.
    fn take_command(&mut self, line: u32, order: Order) -> Result<(), OrMemory<ScriptCause>>
        requires { IsOrder order }
        ensures { Steps result self.new (commanded self.old (with_order line order self.old)) }
    {
        if !self.has_centre() {
            return refuse(ScriptCause::Syntax);
        }
        self.take_order(line, order)
    }

    /// Takes what a line says.
    fn take_line(
        &mut self,
        alloc: Global,
        number: u32,
        line: Line,
    ) -> Result<(), OrMemory<ScriptCause>>
        requires { Joins (sentence_of line) }
        ensures { Steps result self.new (after_sentence number self.old (sentence_of line.entry)) }
    {
        match line {
            Line::Blank => Ok(()),
            Line::Centre {
                name,
                eui,
                out_block,
                in_block,
            } => self.take_centre(name, eui, out_block, in_block),
            Line::Peer { peer } => self.take_peer(peer),
            Line::Init { key } => self.take_command(number, Order::Init { key }),
            Line::Provision { name, code } => self.take_provision(number, &name, code),
            Line::Remove { name, parent } => self.take_remove(number, &name, &parent),
            Line::List => self.take_command(number, Order::List),
            Line::Backup => self.take_command(number, Order::Backup),
            Line::Restore { skip, json } => self.take_restore(alloc, number, skip, json),
        }
    }

    /// Takes a line of that number.
    ///
    /// # Errors
    /// `Syntax` where it is no line of a script, the first rule that it breaks, or out of memory. The script so far
    /// isn't used any more then.
    pub fn take(
        &mut self,
        alloc: Global,
        number: u32,
        text: &[u8],
    ) -> Result<(), OrMemory<ScriptCause>>
        ensures exact { Steps result self.new (after_line number self.old text.now) }
    {
        match read_line(text) {
            Some(line) => self.take_line(alloc, number, line),
            None => refuse(ScriptCause::Syntax),
        }
    }

    /// Makes the script that was read.
    pub fn finish(self) -> Script
        ensures script { script_of result ≡ self }
        ensures valid { has_centre self ≡ true → IsScript result }
    {
        let Draft { config, steps } = self;
        Script {
            config,
            steps: List::from_vec(steps),
        }
    }
}

impl Names for Draft {
    ghost device = { λ s name. device_named name s.stations };

    ghost parent = { λ s name. parent_named name s.stations };

    fn find_device(&self, name: &Name) -> Option<Eui> {
        self.device_named(name)
    }

    fn find_parent(&self, name: &Name) -> Option<Eui> {
        self.parent_named(name)
    }
}
