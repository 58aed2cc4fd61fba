//! What is armed on a node's disk.
ghost use Rattle.std.specs.Prelude.{◌≡◌, Bool, false};
ghost use Rattle.zb_disk.specs.Memory.{is_stopped, will_refuse};
ghost use Rattle.zb_armed_host.specs.Arms.{armed_of, armed_on, armed_medium, arms_stand, disarmed_medium, fired_seen};

use arrayvec::ArrayVec;
use zb_disk::MemDisk;
use zb_store::{failure_commits, stop_commits};

/// What is armed on a node's disk. It falls on the first call of the host that makes enough device calls.
#[derive(Debug, Drop)]
pub enum Arms {
    /// Nothing is armed.
    Unarmed,
    /// After some device calls the next one is refused, and the disk is off.
    Stop {
        /// Counts the device calls that go through first.
        calls: u8,
        /// Stands in place of what was written and not synced, over and over. Where it is empty, that stands as it was
        /// written.
        torn: ArrayVec<u8, 32>,
    },
    /// One device call is refused.
    Fail {
        /// Its number, counted from 1.
        call: u8,
    },
}

/// Arms a disk. It counts from now on. A disk that is off stays as it is.
pub(crate) fn arm(disk: &mut MemDisk, arms: &Arms)
    ensures any { disk.new ≡ armed_on (armed_of arms.now) disk.old }
    ensures armed { is_stopped disk.old.arming ≡ false → disk.new ≡ armed_medium (armed_of arms.now) disk.old }
    ensures faults { disk.new.faults ≡ disk.old.faults }
{
    match arms {
        Arms::Unarmed => {}
        Arms::Stop { calls, torn } => disk.arm_stop(*calls, copied(torn)),
        Arms::Fail { call } => disk.arm_fail(*call),
    }
}

// Copies the bytes.
fn copied(torn: &ArrayVec<u8, 32>) -> ArrayVec<u8, 32>
    ensures { result.items ≡ torn.now.items }
{
    let mut copy = ArrayVec::new();
    let _ = copy.try_extend_from_slice(torn);
    copy
}

/// Takes back what was armed, if anything was.
pub(crate) fn disarm(disk: &mut MemDisk, arms: &Arms)
    ensures disarmed { disk.new ≡ disarmed_medium (armed_of arms.now) disk.old }
    ensures faults { disk.new.faults ≡ disk.old.faults }
{
    match arms {
        Arms::Unarmed => {}
        Arms::Stop { .. } | Arms::Fail { .. } => disk.disarm(),
    }
}

/// Returns whether what was armed fell on a call, on a disk that was off before it or wasn't.
pub(crate) fn has_fired(disk: &MemDisk, arms: &Arms, was_off: bool) -> bool
    ensures { result ≡ fired_seen (armed_of arms.now) was_off
        (is_stopped disk.now.arming) (will_refuse disk.now.arming) }
{
    match arms {
        Arms::Unarmed => false,
        Arms::Stop { .. } => !was_off && disk.is_off(),
        Arms::Fail { call } => !was_off && 0 < *call && !disk.will_refuse(),
    }
}

/// Returns whether a commit holds on which what is armed fell.
pub(crate) fn commits(arms: &Arms) -> bool
    ensures { result ≡ arms_stand (armed_of arms.now) }
{
    match arms {
        Arms::Unarmed => false,
        Arms::Stop { calls, torn } => stop_commits(*calls, torn.as_slice()),
        Arms::Fail { call } => failure_commits(*call),
    }
}
