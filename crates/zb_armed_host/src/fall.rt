//! What fell on a call, and how the disk comes back.
ghost use Rattle.std.specs.Prelude.{◌≡◌};
ghost use Rattle.zb_disk.specs.View.{Only};
ghost use Rattle.zb_disk.specs.Memory.{is_stopped, will_refuse, powered, memory_view};
ghost use Rattle.zb_armed_host.specs.Arms.{armed_of, disarmed_medium, fired_seen};
ghost use Rattle.zb_armed_host.specs.Driven.{fall_seen};

use crate::Arms;
use crate::arms::{disarm, has_fired};
use zb_disk::MemDisk;

/// How a call of a host ended before its last device call.
#[derive(Clone, Copy, Debug, PartialEq, Eq)]
pub enum Fall {
    /// A stop fell on it: the disk went off.
    Stopped,
    /// It failed otherwise.
    Failed,
}

/// How a call of a host ended that went wrong.
#[derive(Clone, Copy, Debug, PartialEq, Eq)]
pub struct Fallen {
    /// How it ended.
    pub fall: Fall,
    /// Whether what was armed fell on it. Where it didn't, it is still to come.
    pub fired: bool,
}

/// How an event ended on whose commit what was armed fell, or the disk failed otherwise.
#[derive(Clone, Copy, Debug, PartialEq, Eq)]
pub struct Cut {
    /// How it ended.
    pub fallen: Fallen,
    /// Whether its changes are stored: all of them, or none. Where what was armed didn't fall, none is known to be.
    pub stored: bool,
}

/// Brings the power back and takes back what was armed, if anything was. Returns how a call on the disk ended.
#[tactic(auto, unfolding(zb_disk::specs::Memory::powered))]
pub(crate) fn recover(disk: &mut MemDisk, arms: &Arms, was_off: bool) -> Fallen
    ensures fall { result.fall ≡ fall_seen was_off (is_stopped disk.old.arming) }
    ensures fired { result.fired ≡ fired_seen (armed_of arms.now) was_off
        (is_stopped disk.old.arming) (will_refuse disk.old.arming) }
    ensures disk { disk.new ≡ disarmed_medium (armed_of arms.now) (powered disk.old) }
    ensures faults { disk.new.faults ≡ disk.old.faults }
    ensures only { Only (powered disk.old).bytes (memory_view (powered disk.old)).images }
{
    let fallen = Fallen {
        fall: seen(was_off, disk.is_off()),
        fired: has_fired(disk, arms, was_off),
    };
    disk.power_on();
    disarm(disk, arms);
    fallen
}

// The end of a call, by whether the disk was off before it and is off after it.
fn seen(was_off: bool, is_off: bool) -> Fall
    ensures { result ≡ fall_seen was_off is_off }
{
    match (was_off, is_off) {
        (false, true) => Fall::Stopped,
        (true, _) | (false, false) => Fall::Failed,
    }
}
