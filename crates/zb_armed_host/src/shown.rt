//! The record that a node's disk represents.
ghost use Rattle.std.specs.Prelude.{◌≡◌, ◌≤◌, List, ℕ, length, IfOk, OnErr};
ghost use Rattle.zb_base.specs.Config.{IsConfig};
ghost use Rattle.zb_disk.specs.View.{IsStill};
ghost use Rattle.zb_base.specs.Outside.{Unrisen};
ghost use Rattle.zb_disk.specs.Memory.{memory_view};
ghost use Rattle.zb_store.specs.Layout.{Standing, IsWhole};
ghost use Rattle.zb_base.specs.Sizes.{record_room, payloads_room};
ghost use Rattle.zb_host.specs.Plans.{gives};
ghost use Rattle.zb_host.specs.Hosts.{Gives};
ghost use Rattle.zb_armed_host.specs.Arms.{IsUnarmed};
ghost use Rattle.zb_armed_host.specs.Driven.{IsShown, IsRecordIn, IsRecordOf, lacks_memory, core_lacks_memory};

use std::alloc::Global;
use zb_base::{Config, NoMemory, OrMemory};
use zb_disk::MemDisk;
use zb_host::Core;
use zb_node_types::KeyError;
use zb_store::{Store, StoreFault};

/// Writes the record that the disk of a node represents, up or down, and returns its length.
///
/// It returns None where the disk is off, nothing stands on it, or what stands is no record of such a node. It changes
/// nothing on the disk. Requires a configuration of a node of the core's role, and room for `RECORD_ROOM` bytes.
///
/// # Errors
/// `NoMemory`.
#[tactic(auto, using(crate::proofs::Dumps::dumps))]
pub fn dump<C: Core>(
    alloc: Global,
    config: &Config,
    disk: &mut MemDisk,
    room: &mut [u8],
) -> Result<Option<u32>, NoMemory>
    requires config { IsConfig config.now }
    requires role { C.is_of_role config.now }
    requires room { record_room ≤ length room.old }
    ensures still { IsStill (memory_view disk.old) (memory_view disk.new) }
    ensures lacks { OnErr result (Unrisen disk.old.faults disk.new.faults) }
    ensures exact { IfOk result (λ r. IsRecordOf C.restored disk.old r room.new) }
    ensures shown { IfOk result (λ r. (s : Standing) (w : List ℕ) → IsWhole s disk.old.bytes → IsUnarmed disk.old
        → Gives C.restored s w → IsShown r room.new w) }
{
    match Store::peek(alloc, disk) {
        Ok((content, payloads)) => read_record::<C>(alloc, config, &content, &payloads, room),
        Err(fault) => {
            if lacks_memory(&fault) {
                return Err(NoMemory);
            }
            Ok(None)
        }
    }
}

// Writes the record of the core that a record and the payloads after it give.
#[tactic(auto, using(crate::proofs::Dumps::reads))]
fn read_record<C: Core>(
    alloc: Global,
    config: &Config,
    content: &[u8],
    payloads: &[u8],
    room: &mut [u8],
) -> Result<Option<u32>, NoMemory>
    requires config { IsConfig config.now }
    requires role { C.is_of_role config.now }
    requires record_size { length content.now ≤ record_room }
    requires payloads_size { length payloads.now ≤ payloads_room }
    requires room { record_room ≤ length room.old }
    ensures exact { IfOk result (λ r. IsRecordIn (C.restored content.now payloads.now) r room.new) }
    ensures shown { IfOk result (λ r. (w : List ℕ) → C.restored content.now payloads.now ≡ gives w
        → IsShown r room.new w) }
{
    match C::restore(alloc, config, content, payloads) {
        Ok(core) => Ok(Some(core.record(room))),
        Err(fault) => {
            if core_lacks_memory(&fault) {
                return Err(NoMemory);
            }
            Ok(None)
        }
    }
}

// Whether a store's call lacked memory.
fn lacks_memory(fault: &StoreFault) -> bool
    ensures { result ≡ lacks_memory fault.now }
{
    match fault {
        StoreFault::NoMemory => true,
        StoreFault::Disk | StoreFault::NoRecord | StoreFault::TooLarge { .. } | StoreFault::Worn =>
            false,
    }
}

// Whether a core's call lacked memory.
fn core_lacks_memory(fault: &OrMemory<KeyError>) -> bool
    ensures { result ≡ core_lacks_memory fault.now }
{
    match fault {
        OrMemory::NoMemory => true,
        OrMemory::Fault(_) => false,
    }
}
