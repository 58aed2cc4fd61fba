//! A node.
ghost use Rattle.std.specs.Prelude.{◌≡◌, ◌+◌, ◌≤◌, ℕ, List, [], true, None, if◌then◌else◌, is_some, take, IfOk, MatchOption};
ghost use Rattle.zb_base.specs.Config.{IsConfig};
ghost use Rattle.zb_core.specs.Events.{task_of};
ghost use Rattle.zb_disk.specs.Memory.{Medium};
ghost use Rattle.zb_armed_host.specs.Driven.{IsShown};
ghost use Rattle.zb_model.specs.Play.{FailAt, StopAfter};
ghost use Rattle.zb_model.specs.Record.{record_of};
ghost use Rattle.zb_model.specs.Rules.{Setting};
ghost use Rattle.zb_model.specs.State.{NodeState};
ghost use Rattle.law_run_steps.specs.Conditions.{Condition, after_arming, after_reset};
ghost use Rattle.zb_player_node.specs.Answers.{CanStart, HasBooted, HasBootedOn, HasHandled, HasHandledOn, IsDump, IsStarted};
ghost use Rattle.zb_player_node.specs.Nodes.{IsIn};
ghost use Rattle.zb_node_types.specs.Changes.{model_role};
ghost use Rattle.zb_store.specs.Layout.{Standing};
ghost use Rattle.zb_stored_tables.specs.Cores.{IsOfRole};
ghost use Rattle.zb_stored_tables.specs.Stored.{restored};

use crate::machine::{Machine, NodePlan};
use arrayvec::ArrayVec;
use std::alloc::Global;
use std::marker::Model;
use zb_armed_host::{Arms, Fall, reset};
use zb_base::{Config, Eui, Name, NoMemory, OrMemory, Peer, RECORD_ROOM, Role};
use zb_core::NodeEvent;
use zb_disk::MemDisk;
use zb_node_types::Changes;

/// How an event of a node that was up ended.
#[derive(Clone, Copy, Debug, PartialEq, Eq)]
pub enum Handled {
    /// It was handled: the changes of its plan are stored, and its frame may go out.
    Whole,
    /// A stop or a failure of the disk cut it. The node is down. The plan has the changes that are stored: all or
    /// none.
    Cut {
        /// How it ended.
        fall: Fall,
    },
}

/// A node: its configuration, its host while it has power, and what is armed on its disk.
#[derive(Drop)]
pub struct Node {
    peer: Peer,
    // It is large, and a node is handed from call to call when it is made.
    config: Box<Config>,
    machine: Option<Machine>,
    arms: Arms,
}

impl Model for Node {
    ghost use Rattle.zb_player_node.specs.Values.{NodeValue, IsNode, running};
    ghost use Rattle.std.specs.Prelude.{option_map};

    ghost Value = { NodeValue };

    ghost view = { λ n. record {
      peer = n.peer;
      config = n.config.value;
      machine = option_map running n.machine;
      arms = n.arms;
    } };

    ghost invariant = { λ n. IsNode (record {
      peer = n.peer;
      config = n.config.value;
      machine = option_map running n.machine;
      arms = n.arms;
    }) };
}

// Keeps the changes of a cut event if they are stored.
fn keep_stored(stored: bool, changes: &mut Changes)
    ensures { changes.new.items ≡ (if stored then changes.old.items else []) }
{
    if !stored {
        changes.clear();
    }
}

// Takes the power away. This has a function of its own, so that an event that succeeds clears no place for it.
fn take_power(machine: &mut Option<Machine>)
    ensures { machine.new ≡ None }
{
    *machine = None;
}

// Disarms what fell. What didn't fall stays armed.
fn spend(arms: &mut Arms, fired: bool)
    ensures { arms.new ≡ (if fired then Arms.Unarmed else arms.old) }
{
    if fired {
        *arms = Arms::Unarmed;
    }
}

// Keeps the bytes that are shown: the first `len`, or none.
fn keep_shown(room: &mut Vec<u8>, len: Option<u32>)
    ensures shown { (bytes : List ℕ) → IsShown len room.old.items bytes → room.new.items ≡ bytes }
    ensures exact { MatchOption len (room.new.items ≡ []) (λ n. room.new.items ≡ take n room.old.items) }
{
    match len {
        Some(len) => room.truncate(len as usize),
        None => room.clear(),
    }
}

impl Node {
    /// Boots a node for the first time, from the record on its disk.
    ///
    /// Requires a configuration of this node. If the disk holds no record of such a node, the node stays down.
    ///
    /// # Errors
    /// `NoMemory`.
    pub fn start(
        alloc: Global,
        peer: Peer,
        config: Config,
        disk: &mut MemDisk,
    ) -> Result<Node, NoMemory>
        requires config { IsConfig config }
        requires role { IsOfRole (model_role peer.role) config }
        ensures names { IfOk result (λ node. (node.peer ≡ peer) × (node.config ≡ config)) }
        ensures starts { IfOk result (λ node. (setting : Setting) (state : NodeState) (s : Standing)
            → CanStart setting state s config disk.old → IsStarted setting state disk.old node disk.new) }
    {
        reset(disk);
        let mut node = Node {
            peer,
            config: Box::new(alloc, config)?,
            machine: None,
            arms: Arms::Unarmed,
        };
        node.boot(alloc, disk)?;
        Ok(node)
    }

    /// Returns the node's name.
    pub fn name(&self) -> Name
        ensures { result ≡ self.now.peer.name }
    {
        self.peer.name
    }

    /// Returns the node's EUI.
    pub fn eui(&self) -> Eui
        ensures { result ≡ self.now.peer.eui }
    {
        self.peer.eui
    }

    /// Returns whether the node has power.
    pub fn is_up(&self) -> bool
        ensures { result ≡ is_some self.now.machine }
    {
        self.machine.is_some()
    }

    /// Arms a stop of the disk in place of what was armed.
    pub fn arm_stop(&mut self, calls: u8, torn: ArrayVec<u8, 32>)
        ensures armed { self.new ≡ record self.old { arms = Arms.Stop calls torn } }
        ensures leaves { (x : Condition) (number : ℕ) (m : Medium) → IsIn x number self.old m
            → IsIn (after_arming (StopAfter calls torn.items) x) (number + 1) self.new m }
    {
        self.arms = Arms::Stop { calls, torn };
    }

    /// Arms a failure of the disk in place of what was armed; its calls are counted from 1.
    pub fn arm_fail(&mut self, call: u8)
        ensures armed { self.new ≡ record self.old { arms = Arms.Fail call } }
        ensures leaves { (x : Condition) (number : ℕ) (m : Medium) → IsIn x number self.old m → 1 ≤ call
            → IsIn (after_arming (FailAt call) x) (number + 1) self.new m }
    {
        self.arms = Arms::Fail { call };
    }

    /// Handles an event, over the node's disk, and writes its changes and what goes out into `plan`.
    ///
    /// Returns None if the node is down. If a stop or a failure falls on the event, or the disk fails, the node is
    /// down after it. What is armed and didn't fall stays armed, whatever the disk did.
    pub fn handle(
        &mut self,
        disk: &mut MemDisk,
        event: &NodeEvent,
        plan: &mut NodePlan,
    ) -> Option<Handled>
        ensures event { HasHandled (task_of event.now) self.old disk.old result plan.new self.new disk.new }
        ensures any { HasHandledOn self.old disk.old result plan.new.changes.items self.new disk.new }
        ensures peer { self.new.peer ≡ self.old.peer }
        ensures config { self.new.config ≡ self.old.config }
    {
        match &mut self.machine {
            None => None,
            Some(machine) => match machine.handle(disk, &self.arms, event, plan) {
                Ok(()) => Some(Handled::Whole),
                Err(cut) => {
                    keep_stored(cut.stored, &mut plan.changes);
                    take_power(&mut self.machine);
                    spend(&mut self.arms, cut.fallen.fired);
                    Some(Handled::Cut {
                        fall: cut.fallen.fall,
                    })
                }
            },
        }
    }

    /// Takes the node's power away and gives it back to its disk.
    pub fn reset(&mut self, disk: &mut MemDisk)
        ensures down { self.new ≡ record self.old { machine = None } }
        ensures rest { (x : Condition) (number : ℕ) → IsIn x number self.old disk.old → x.up ≡ true
            → IsIn (after_reset x) (number + 1) self.new disk.new }
        ensures calls { disk.new.calls ≡ disk.old.calls }
    {
        self.machine = None;
        reset(disk);
    }

    /// Boots the node, which is down, from its disk.
    ///
    /// Returns how the boot ended if it failed. What is armed and didn't fall stays armed, whatever the disk did.
    ///
    /// # Errors
    /// `NoMemory`.
    pub fn boot(&mut self, alloc: Global, disk: &mut MemDisk) -> Result<Option<Fall>, NoMemory>
        ensures booted { IfOk result (λ r. HasBooted self.old disk.old r self.new disk.new) }
        ensures any { IfOk result (λ r. HasBootedOn self.old disk.old r self.new disk.new) }
        ensures peer { self.new.peer ≡ self.old.peer }
        ensures config { self.new.config ≡ self.old.config }
    {
        match Machine::boot(
            alloc,
            self.peer.role,
            self.config.as_ref(),
            disk,
            &self.arms,
        ) {
            Ok(machine) => {
                self.machine = Some(machine);
                Ok(None)
            }
            Err(OrMemory::Fault(fallen)) => {
                spend(&mut self.arms, fallen.fired);
                Ok(Some(fallen.fall))
            }
            Err(OrMemory::NoMemory) => Err(NoMemory),
        }
    }

    /// Returns the record that the node's disk represents.
    ///
    /// It has no bytes if the disk is off, or holds no record of such a node.
    ///
    /// # Errors
    /// `NoMemory`.
    pub fn dump(&self, alloc: Global, disk: &mut MemDisk) -> Result<Vec<u8>, NoMemory>
        ensures record_is { IfOk result (λ r. (x : Condition) (number : ℕ) → IsIn x number self.now disk.old
            → (r.items ≡ record_of x.state) × IsIn x (number + 1) self.now disk.new) }
        ensures exact { IfOk result (λ r. IsDump (restored (model_role self.now.peer.role)) disk.old r.items) }
        ensures calls { disk.new.calls ≡ disk.old.calls }
    {
        let mut room = Vec::with_capacity(alloc, RECORD_ROOM)?;
        room.resize(RECORD_ROOM, 0)?;
        let len = Machine::dump(alloc, self.peer.role, self.config.as_ref(), disk, &mut room)?;
        keep_shown(&mut room, len);
        Ok(room)
    }
}
