//! The boot of a node that is down.
ghost use Rattle.std.specs.Prelude.{◌≡◌, List, ℕ, IfOk, IfErr, IsTrue, is_some};
ghost use Rattle.std.specs.List.{concat};
ghost use Rattle.zb_base.specs.Config.{IsConfig};
ghost use Rattle.zb_base.specs.Outside.{Unrisen};
ghost use Rattle.zb_store.specs.Layout.{Standing};
ghost use Rattle.zb_armed_host.specs.Arms.{armed_of};
ghost use Rattle.zb_armed_host.specs.Driven.{memory_words, IsDown, WasBooted, HasEnded, HasFallenAtBoot, boot_cause};

use crate::arms::{arm, disarm};
use crate::fall::recover;
use crate::{Arms, Fallen};
use std::alloc::Global;
use zb_base::{Config, OrMemory};
use zb_disk::MemDisk;
use zb_host::{Core, Host, RecordFault};

/// Boots a node that is down from its disk, with what is armed on that.
///
/// If what was armed falls, or the boot fails otherwise, the power of the disk is back, and nothing of it is armed.
/// Requires a configuration of a node of the core's role.
///
/// # Errors
/// How the boot ended; out of memory.
pub fn boot_armed<C: Core>(
    alloc: Global,
    config: &Config,
    disk: &mut MemDisk,
    arms: &Arms,
) -> Result<Host<C>, OrMemory<Fallen>>
    requires config { IsConfig config.now }
    requires role { C.is_of_role config.now }

    // Its core is the one with which a node of this configuration boots on what stands.
    ensures core { IfOk result (λ h. (s : Standing) (w : List ℕ)
        → IsDown (memory_words C.restored C.recorded C.payload) s w (armed_of arms.now) disk.old
        → C.is_booted config.now s.content (concat s.payloads) h.core) }

    // What is armed falls exactly where the model says, and leaves what it says.
    ensures booted { IfOk result (λ h. (s : Standing) (w : List ℕ)
        → IsDown (memory_words C.restored C.recorded C.payload) s w (armed_of arms.now) disk.old
        → WasBooted (memory_words C.restored C.recorded C.payload) s w (armed_of arms.now)
        disk.old h disk.new) }
    ensures fallen { IfErr result (λ e. (fallen : _) → e ≡ OrMemory.Fault fallen → (s : Standing) (w : List ℕ)
        → IsDown (memory_words C.restored C.recorded C.payload) s w (armed_of arms.now) disk.old
        → HasFallenAtBoot s (armed_of arms.now) disk.old fallen disk.new) }

    // How it ended on any disk.
    ensures ended { IfErr result (λ e. (fallen : _) → e ≡ OrMemory.Fault fallen
        → HasEnded (armed_of arms.now) disk.old fallen disk.new) }
    ensures up { IfOk result (λ h. IsTrue (is_some h.store)) }
    ensures lacks { IfErr result (λ e. e ≡ OrMemory.NoMemory → Unrisen disk.old.faults disk.new.faults) }
{
    let was_off = disk.is_off();
    arm(disk, arms);
    match Host::boot(alloc, config, disk) {
        Ok(host) => {
            disarm(disk, arms);
            Ok(host)
        }
        Err(fault) => {
            let fallen = recover(disk, arms, was_off);
            Err(cause_of(fault, fallen))
        }
    }
}

// Returns why a boot failed: out of memory, or how it ended.
fn cause_of(fault: OrMemory<RecordFault>, fallen: Fallen) -> OrMemory<Fallen>
    ensures { result ≡ boot_cause fault fallen }
{
    match fault {
        OrMemory::NoMemory => OrMemory::NoMemory,
        OrMemory::Fault(_) => OrMemory::Fault(fallen),
    }
}
