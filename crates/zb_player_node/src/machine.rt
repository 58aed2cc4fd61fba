//! The host of a node, of whichever role it is.
ghost use Rattle.std.specs.Prelude.{◌≡◌, ◌≤◌, ◌&&◌, ℕ, List, is_some, length, IfOk, IfErr, IsTrue, OnOk};
ghost use Rattle.zb_base.specs.Config.{IsConfig};
ghost use Rattle.zb_core.specs.Events.{task_of};
ghost use Rattle.zb_disk.specs.View.{IsStill};
ghost use Rattle.zb_disk.specs.Memory.{memory_view};
ghost use Rattle.zb_armed_host.specs.Arms.{IsUnarmed, armed_of, arms_stand};
ghost use Rattle.zb_armed_host.specs.Driven.{HasEnded, IsShown, IsRecordOf};
ghost use Rattle.zb_host.specs.Hosts.{Gives};
ghost use Rattle.zb_player_node.specs.Answers.{HasGiven, HasMade, made};
ghost use Rattle.zb_player_node.specs.Values.{running};
ghost use Rattle.zb_node_types.specs.Changes.{model_role};
ghost use Rattle.zb_store.specs.Layout.{IsWhole, Standing};
ghost use Rattle.zb_base.specs.Sizes.{record_room};
ghost use Rattle.zb_stored_tables.specs.Cores.{IsOfRole};
ghost use Rattle.zb_stored_tables.specs.Stored.{restored};

use std::alloc::Global;
use zb_armed_host::{Arms, Cut, Fallen, boot_armed, dump, run};
use zb_base::{Config, NoMemory, OrMemory, Role};
use zb_centre::Centre;
use zb_core::NodeEvent;
use zb_disk::MemDisk;
use zb_host::{Host, Outcome, Plan};
use zb_node_types::Refusal;
use zb_router::{Device, Router};
use zb_seal::Term;

/// The host of a node of any role.
#[derive(Drop)]
pub enum Machine {
    /// That of the centre.
    Centre(Host<Centre>),
    /// That of a router.
    Router(Host<Router>),
    /// That of a device.
    Device(Host<Device>),
}

/// What an event of a node gives: its changes, and what goes out once they are stored.
pub type NodePlan = Plan<Outcome<Term, Refusal>>;

impl Machine {
    /// Boots a node of that role from its disk, with what is armed on that.
    ///
    /// Requires a configuration of a node of that role.
    ///
    /// # Errors
    /// How the boot ended; out of memory.
    pub(crate) fn boot(
        alloc: Global,
        role: Role,
        config: &Config,
        disk: &mut MemDisk,
        arms: &Arms,
    ) -> Result<Machine, OrMemory<Fallen>>
        requires config { IsConfig config.now }
        requires role { IsOfRole (model_role role) config.now }
        ensures { HasMade (model_role role) config.now (armed_of arms.now) disk.old (made result) disk.new }
    {
        match role {
            Role::Centre => {
                let host = boot_armed(alloc, config, disk, arms)?;
                Ok(Machine::Centre(host))
            }
            Role::Router => {
                let host = boot_armed(alloc, config, disk, arms)?;
                Ok(Machine::Router(host))
            }
            Role::Device => {
                let host = boot_armed(alloc, config, disk, arms)?;
                Ok(Machine::Device(host))
            }
        }
    }

    /// Handles an event of a node that is up, over its disk, with what is armed on that.
    ///
    /// # Errors
    /// How the event was cut: by a stop or a failure that was armed, or by another fault of the disk.
    pub(crate) fn handle(
        &mut self,
        disk: &mut MemDisk,
        arms: &Arms,
        event: &NodeEvent,
        plan: &mut NodePlan,
    ) -> Result<(), Cut>
        requires up { IsTrue (is_some (running self.old).host.store) }
        ensures given { HasGiven (running self.old).role (task_of event.now) (armed_of arms.now)
            (running self.old).host disk.old plan.new result (running self.new).host disk.new }
        ensures ended { IfErr result (λ cut. HasEnded (armed_of arms.now) disk.old cut.fallen disk.new) }
        ensures stored { IfErr result (λ cut. cut.stored ≡ (cut.fallen.fired && arms_stand (armed_of arms.now))) }
        ensures role { (running self.new).role ≡ (running self.old).role }
        ensures up { OnOk result (IsTrue (is_some (running self.new).host.store)) }
    {
        match self {
            Machine::Centre(host) => run(host, disk, arms, event, plan),
            Machine::Router(host) => run(host, disk, arms, event, plan),
            Machine::Device(host) => run(host, disk, arms, event, plan),
        }
    }

    /// Writes the record that the disk of a node of that role represents, and returns its length.
    ///
    /// Returns None if the disk is off, or holds no record of such a node. Requires a configuration of a node of that
    /// role, and room for a record.
    ///
    /// # Errors
    /// `NoMemory`.
    pub(crate) fn dump(
        alloc: Global,
        role: Role,
        config: &Config,
        disk: &mut MemDisk,
        room: &mut [u8],
    ) -> Result<Option<u32>, NoMemory>
        requires config { IsConfig config.now }
        requires role { IsOfRole (model_role role) config.now }
        requires room { record_room ≤ length room.old }
        ensures still { IsStill (memory_view disk.old) (memory_view disk.new) }
        ensures exact { IfOk result (λ r. IsRecordOf (restored (model_role role)) disk.old r room.new) }
        ensures shown { IfOk result (λ r. (s : Standing) (w : List ℕ) → IsWhole s disk.old.bytes
            → IsUnarmed disk.old → Gives (restored (model_role role)) s w → IsShown r room.new w) }
    {
        match role {
            Role::Centre => dump::<Centre>(alloc, config, disk, room),
            Role::Router => dump::<Router>(alloc, config, disk, room),
            Role::Device => dump::<Device>(alloc, config, disk, room),
        }
    }
}
