//! The events of a node.
ghost use Rattle.std.specs.Prelude.{◌≡◌, ◌≤◌, ◌<◌, ◌+◌, ◌∷◌, [], ℕ, List, None, OnOk, if◌then◌else◌, map};
ghost use Rattle.zb_base.specs.declared.key.Key.{Key as key};
ghost use Rattle.zb_disk.specs.Memory.{Medium as medium};
ghost use Rattle.zb_model.specs.Data.{Down as model_down, NoFrame as model_no_frame, Received, WrongState as model_wrong_state};
ghost use Rattle.zb_model.specs.Lines as log;
ghost use Rattle.zb_model.specs.Play as model;
ghost use Rattle.zb_model.specs.Play.{Schedule, frame_at, stations, supply};
ghost use Rattle.zb_model_real.specs.Real.{real};
ghost use Rattle.zb_player_events.specs.Calls.{event_calls, frame_calls, task_calls};
ghost use Rattle.law_run_steps.specs.Conditions.{Condition};
ghost use Rattle.law_run_steps.specs.Turns.{deliver_turn, event_turn, task_turn};
ghost use Rattle.zb_player_node.specs.Events.{task_of};
ghost use Rattle.zb_player_events.specs.Told.{Adds, Before, Calls, Goes, HasRoom, IsFallen, IsRefusedFor, IsTold, fall_line, lines_told, most_event_lines};
ghost use Rattle.zb_trace_model.specs.Naming.{IsCalled};
ghost use Rattle.zb_base.specs.Limits.{most_lines};

use crate::ledger::Ledger;
use zb_armed_host::Fall;
use zb_base::{Frame, Key, List, Name, NoMemory, Place};
use zb_disk::MemDisk;
use zb_node_types::Refusal;
use zb_player_node::{Handled, Node, NodeEvent};
use zb_trace::Line;
use zb_trace_model::{
    Group, boot_line, disk_line, dump_line, reset_line, stopped_line, tell_answer, tell_stored,
};

// Makes the line of a node on whose call a stop or a failure fell.
fn fallen_line(event: u32, node: Name, fall: Fall) -> Line
    ensures { IsFallen result event node.bytes fall }
{
    match fall {
        Fall::Stopped => stopped_line(event, node),
        Fall::Failed => disk_line(event, node),
    }
}

impl Ledger {
    /// Lets a node handle an event of its own over its disk, and prints its lines.
    ///
    /// # Errors
    /// `NoMemory`.
    pub fn handle(
        &mut self,
        node: &mut Node,
        disk: &mut MemDisk,
        event: u32,
        what: &NodeEvent,
    ) -> Result<(), NoMemory>
        requires room { HasRoom self.old }
        ensures few { OnOk result (lines_told self.new ≤ lines_told self.old + most_event_lines) }
        ensures goes { OnOk result ((w : Schedule) (h : List log.Line) (x : Condition) (latest n : ℕ)
            → Before w h x latest n self.old node.old disk.old
            → Goes w (task_turn real h x event n (task_of what.now)) h latest
            self.old self.new node.new disk.new) }
        ensures calls { OnOk result ((w : Schedule) (h : List log.Line) (x : Condition) (latest n : ℕ)
            → Before w h x latest n self.old node.old disk.old
            → Calls (task_calls real x (task_of what.now)) disk.old disk.new) }
        ensures seat { node.new.peer ≡ node.old.peer }
    {
        let name = node.name();
        if !node.is_up() {
            return self.refuse(event, name, down());
        }
        let group = Group {
            event,
            frame: self.transcript.scribe.next_frame(),
            node: name,
        };
        match node.handle(disk, what, &mut self.plan) {
            Some(Handled::Whole) => tell_answer(&mut self.transcript, &group, &self.plan),
            Some(Handled::Cut { fall }) => {
                tell_stored(&mut self.transcript, &group, &self.plan.changes)?;
                self.fallen(event, name, fall)
            }
            None => self.refuse(event, name, down()),
        }
    }

    // Prints the line of a stop or a failure that fell on a call of a node.
    fn fallen(&mut self, event: u32, node: Name, fall: Fall) -> Result<(), NoMemory>
        requires room { lines_told self.old < most_lines }
        ensures few { OnOk result (lines_told self.new ≤ lines_told self.old + 1) }
        ensures adds { OnOk result ((w : Schedule) (h : List log.Line) (n : ℕ) → IsTold w h self.old
            → IsCalled (stations w) n node.bytes → Adds w h (fall_line fall event n ∷ []) self.old self.new) }
    {
        self.tell(&fallen_line(event, node, fall))
    }

    /// Lets a frame arrive at a node, and prints the lines of its answer. The frame is named by its number.
    ///
    /// # Errors
    /// `NoMemory`.
    pub fn deliver(
        &mut self,
        node: &mut Node,
        disk: &mut MemDisk,
        draws: &[Key],
        event: u32,
        frame: u32,
    ) -> Result<(), NoMemory>
        requires room { HasRoom self.old }
        ensures few { OnOk result (lines_told self.new ≤ lines_told self.old + most_event_lines) }
        ensures goes { OnOk result ((w : Schedule) (h : List log.Line) (x : Condition) (latest n : ℕ)
            → Before w h x latest n self.old node.old disk.old → map (λ (k : key). k.0) draws.now ≡ w.draws
            → Goes w (deliver_turn real w h x event n (frame_at h frame)) h latest
            self.old self.new node.new disk.new) }
        ensures calls { OnOk result ((w : Schedule) (h : List log.Line) (x : Condition) (latest n : ℕ)
            → Before w h x latest n self.old node.old disk.old → map (λ (k : key). k.0) draws.now ≡ w.draws
            → Calls (frame_calls real x (supply w h) (frame_at h frame)) disk.old disk.new) }
        ensures seat { node.new.peer ≡ node.old.peer }
    {
        match self.transcript.scribe.frame(frame) {
            Some(bytes) => self.receive(node, disk, draws, event, bytes),
            None => self.miss(node, event),
        }
    }

    // Lets the bytes of a frame reach a node, and prints the lines of its answer.
    fn receive(
        &mut self,
        node: &mut Node,
        disk: &mut MemDisk,
        draws: &[Key],
        event: u32,
        bytes: Frame,
    ) -> Result<(), NoMemory>
        requires room { HasRoom self.old }
        ensures few { OnOk result (lines_told self.new ≤ lines_told self.old + most_event_lines) }
        ensures seat { node.new.peer ≡ node.old.peer }
        ensures goes { OnOk result ((w : Schedule) (h : List log.Line) (x : Condition) (latest n : ℕ)
            → Before w h x latest n self.old node.old disk.old → map (λ (k : key). k.0) draws.now ≡ w.draws
            → Goes w (task_turn real h x event n (Received bytes.items (supply w h))) h latest
            self.old self.new node.new disk.new) }
        ensures calls { OnOk result ((w : Schedule) (h : List log.Line) (x : Condition) (latest n : ℕ)
            → Before w h x latest n self.old node.old disk.old → map (λ (k : key). k.0) draws.now ≡ w.draws
            → Calls (task_calls real x (Received bytes.items (supply w h)))
            disk.old disk.new) }
    {
        let draw = self.draw(draws);
        self.handle(node, disk, event, &NodeEvent::Deliver { bytes, draw })
    }

    // Prints the refusal of a frame whose number no frame on the air has.
    fn miss(&mut self, node: &mut Node, event: u32) -> Result<(), NoMemory>
        requires room { HasRoom self.old }
        ensures few { OnOk result (lines_told self.new ≤ lines_told self.old + most_event_lines) }
        ensures node { node.new ≡ node.old }
        ensures goes { OnOk result ((w : Schedule) (h : List log.Line) (x : Condition) (latest n : ℕ) (m : medium)
            → Before w h x latest n self.old node.old m
            → Goes w (deliver_turn real w h x event n None) h latest self.old self.new node.new m) }
    {
        let refusal = missed(node.is_up());
        self.refuse(event, node.name(), refusal)
    }

    /// Takes a node's power away, and prints the line.
    ///
    /// # Errors
    /// `NoMemory`.
    pub fn reset(&mut self, node: &mut Node, disk: &mut MemDisk, event: u32) -> Result<(), NoMemory>
        requires room { HasRoom self.old }
        ensures few { OnOk result (lines_told self.new ≤ lines_told self.old + most_event_lines) }
        ensures seat { node.new.peer ≡ node.old.peer }
        ensures goes { OnOk result ((w : Schedule) (h : List log.Line) (x : Condition) (latest n : ℕ)
            → Before w h x latest n self.old node.old disk.old
            → Goes w (event_turn real w h x event (model.Reset n)) h latest self.old self.new node.new disk.new) }
        ensures calls { OnOk result (Calls 0 disk.old disk.new) }
    {
        let name = node.name();
        if !node.is_up() {
            return self.refuse(event, name, down());
        }
        node.reset(disk);
        self.tell(&reset_line(event, name))
    }

    /// Gives a node power, lets it boot from its disk, and prints the line.
    ///
    /// # Errors
    /// `NoMemory`.
    pub fn boot(&mut self, node: &mut Node, disk: &mut MemDisk, event: u32) -> Result<(), NoMemory>
        requires room { HasRoom self.old }
        ensures few { OnOk result (lines_told self.new ≤ lines_told self.old + most_event_lines) }
        ensures seat { node.new.peer ≡ node.old.peer }
        ensures goes { OnOk result ((w : Schedule) (h : List log.Line) (x : Condition) (latest n : ℕ)
            → Before w h x latest n self.old node.old disk.old
            → Goes w (event_turn real w h x event (model.PowerOn n)) h latest self.old self.new node.new disk.new) }
        ensures calls { OnOk result ((w : Schedule) (h : List log.Line) (x : Condition) (latest n : ℕ)
            → Before w h x latest n self.old node.old disk.old
            → Calls (event_calls real w h x (model.PowerOn n)) disk.old disk.new) }
    {
        let name = node.name();
        if node.is_up() {
            return self.refuse(event, name, wrong_state());
        }
        match node.boot(self.transcript.alloc, disk)? {
            None => self.tell(&boot_line(event, name)),
            Some(fall) => self.tell(&fallen_line(event, name, fall)),
        }
    }

    /// Prints the record that a node's disk represents.
    ///
    /// # Errors
    /// `NoMemory`.
    pub fn dump(&mut self, node: &Node, disk: &mut MemDisk, event: u32) -> Result<(), NoMemory>
        requires room { HasRoom self.old }
        ensures few { OnOk result (lines_told self.new ≤ lines_told self.old + most_event_lines) }
        ensures goes { OnOk result ((w : Schedule) (h : List log.Line) (x : Condition) (latest n : ℕ)
            → Before w h x latest n self.old node.now disk.old
            → Goes w (event_turn real w h x event (model.ShowRecord n)) h latest self.old self.new node.now disk.new) }
        ensures calls { OnOk result (Calls 0 disk.old disk.new) }
    {
        let record = node.dump(self.transcript.alloc, disk)?;
        self.tell(&dump_line(event, node.name(), List::from_vec(record)))
    }
}

// The refusals before a node is asked.

fn down() -> Refusal
    ensures { IsRefusedFor model_down result }
{
    Refusal::Down {
        place: Place::Event,
    }
}

fn missed(is_up: bool) -> Refusal
    ensures { IsRefusedFor (if is_up then model_no_frame else model_down) result }
{
    if is_up {
        Refusal::NoFrame {
            place: Place::Event,
        }
    } else {
        down()
    }
}

fn wrong_state() -> Refusal
    ensures { IsRefusedFor model_wrong_state result }
{
    Refusal::WrongState {
        place: Place::Event,
    }
}
