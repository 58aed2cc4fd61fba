//! One event of a node that is up.
ghost use Rattle.std.specs.Prelude.{◌≡◌, ◌≢◌, ◌&&◌, [], None, is_some, IsTrue, IfOk, IfErr, OnOk, OnErr};
ghost use Rattle.zb_store.specs.Layout.{Standing};
ghost use Rattle.zb_armed_host.specs.Arms.{armed_of, arms_stand};
ghost use Rattle.zb_armed_host.specs.Driven.{memory_words, IsUp, WasHandled, HasEnded, HasFallen};
ghost use Rattle.zb_host.specs.declared.plan.Plan.{Plan as APlan};

use crate::arms::{arm, commits, disarm};
use crate::fall::recover;
use crate::{Arms, Cut, Fallen};
use zb_disk::MemDisk;
use zb_host::{Core, Host, Plan};

/// Handles an event of a node that is up, over its disk, with what is armed on that.
///
/// It writes the changes and what goes out into `plan`. Where what was armed falls, or the disk fails otherwise, the
/// host is down. The power of the disk is back then, and nothing of it is armed. `plan` has the changes that were to
/// be stored, and nothing that goes out.
///
/// # Errors
/// How it fell, and whether the changes are stored.
pub fn run<C: Core>(
    host: &mut Host<C>,
    disk: &mut MemDisk,
    arms: &Arms,
    event: &C::Event,
    plan: &mut Plan<C::Out>,
) -> Result<(), Cut>
    requires up { IsTrue (is_some host.old.store) }

    // What is written is a plan of the core, and the core is the one after it.
    ensures planned { OnOk result (C.is_plan host.old.core event.now plan.new) }
    ensures after { OnOk result (C.is_after host.old.core plan.new host.new.core) }
    ensures withheld { OnErr result ((p : APlan C.Out) × C.is_plan host.old.core event.now p
        × C.is_after host.old.core p host.new.core × (plan.new.changes ≡ p.changes)
        × C.Out.is_default plan.new.out) }

    // Where the host is up over a disk that holds a record, what is armed falls exactly where the model says, and
    // leaves what it says.
    ensures handled { OnOk result ((s : Standing)
        → IsUp (memory_words C.restored C.recorded C.payload) s (armed_of arms.now) host.old disk.old
        → WasHandled (memory_words C.restored C.recorded C.payload) s (armed_of arms.now)
        host.old disk.old plan.new.changes.items host.new disk.new) }
    ensures fallen { IfErr result (λ cut. (s : Standing)
        → IsUp (memory_words C.restored C.recorded C.payload) s (armed_of arms.now) host.old disk.old
        → HasFallen (memory_words C.restored C.recorded C.payload) s (armed_of arms.now)
        host.old disk.old plan.new.changes.items cut.fallen host.new disk.new) }

    // On any disk: how it ended, and that no change is stored for sure but by what was armed.
    ensures ended { IfErr result (λ cut. HasEnded (armed_of arms.now) disk.old cut.fallen disk.new) }
    ensures stored { IfErr result (λ cut. cut.stored ≡ (cut.fallen.fired && arms_stand (armed_of arms.now))) }
    ensures up { OnOk result (IsTrue (is_some host.new.store)) }
    ensures down { OnErr result (host.new.store ≡ None) }
{
    let was_off = disk.is_off();
    arm(disk, arms);
    match host.handle_into(disk, event, plan) {
        Ok(()) => {
            disarm(disk, arms);
            Ok(())
        }
        Err(_) => {
            let fallen = recover(disk, arms, was_off);
            Err(Cut {
                fallen,
                stored: are_stored(fallen, arms),
            })
        }
    }
}

// Whether the changes are stored of an event that ended so.
fn are_stored(fallen: Fallen, arms: &Arms) -> bool
    ensures { result ≡ (fallen.fired && arms_stand (armed_of arms.now)) }
{
    fallen.fired && commits(arms)
}
