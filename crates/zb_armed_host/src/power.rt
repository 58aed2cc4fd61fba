//! The power of a node's disk.
ghost use Rattle.std.specs.Prelude.{◌≡◌};
ghost use Rattle.zb_disk.specs.Memory.{memory_view};
ghost use Rattle.zb_store.specs.Layout.{Standing};
ghost use Rattle.zb_store.specs.Store.{IsHeld};
ghost use Rattle.zb_armed_host.specs.Arms.{IsUnarmed};
ghost use Rattle.zb_armed_host.specs.Driven.{IsAtRest};

use zb_disk::MemDisk;

/// Turns the power of a node's disk off and on again, once its host is gone.
///
/// Where nothing is armed the disk is at rest, and what stood stands. It makes no device call.
pub fn reset(disk: &mut MemDisk)
    ensures rest { (s : Standing) → IsHeld s (memory_view disk.old) → IsUnarmed disk.old → IsAtRest s disk.new }
    ensures bytes { IsUnarmed disk.old → disk.new.bytes ≡ disk.old.bytes }
    ensures calls { disk.new.calls ≡ disk.old.calls }
{
    disk.power_on();
}
