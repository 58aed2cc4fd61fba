//! What a node keeps over calls, crashes and boots. Each function here says laws and does nothing.
ghost use Rattle.std.specs.Prelude.{◌≡◌, ◌&&◌, if◌then◌else◌, List, ℕ, Bool, None, IsTrue};
ghost use Rattle.zb_disk.specs.declared.memory.Arming.TheVariants.{Unarmed, Stop, Fail};
ghost use Rattle.zb_disk.specs.Memory.{Medium, powered, memory_tells, memory_view};
ghost use Rattle.zb_store.specs.Layout.{Standing, IsWhole};
ghost use Rattle.zb_store.specs.Power.{stop_commits, failure_commits, stop_opens_both, failure_opens_both, StopFell, FailureFell};
ghost use Rattle.zb_store.specs.Store.{AllWhole, both_gates_open};
ghost use Rattle.zb_host.specs.Hosts.{Restoring, Gives, next_standing, commit_calls, CommitStop, AnswersOn};
ghost use Rattle.zb_host.specs.Calls.{words_of};
ghost use Rattle.zb_host.specs.Lives.{Step, AreSteps, EachBootGoesOn};

use crate::Core;
use zb_disk::Disk;
use zb_store::{armed_runs, stopped_commits, stopped_runs};

/// States that over any list of calls and crashes each boot goes on from the boot before it.
///
/// Crashes come at any moment, inside calls and between them. Each boot restores the state after some prefix of the
/// events since the boot before it. That prefix has every event whose output left the host. Once a boot went through,
/// a later one fails only by a fault of the disk or out of memory: no record is lost.
///
/// The premises are what `handle` and `boot` promise of each call, in their clause `step`. At the beginning the disk's
/// images are whole, as a store that was formatted leaves them.
pub fn each_boot_goes_on<C: Core, D: Disk>()
    ensures { (disk : D) (steps : List (Step C D C.Out)) → IsTrue D.tells.content → AllWhole (D.state disk)
        → AreSteps (words_of D.tells D.state C.restored C.recorded C.payload) None disk steps
        → EachBootGoesOn C.recorded steps }
{}

/// States whether an event is stored whose commit an armed stop or failure ended, on a disk in memory.
///
/// Once the power is back, what stands is the record of the core after the event or of the one before it. It also says
/// whether the next boot finds the gates of both slots open, and so makes three calls. The stop or failure counts from
/// the beginning of the event.
///
/// The premise is the clause `stopped` of `handle`. `before` and `after` are the records of the cores.
pub fn stopped_events()
    ensures stopped { (restored : Restoring) (before after booted : List ℕ) (whole : Bool) (s : Standing)
        (payload : List ℕ) (old new : Medium) (calls : ℕ)
        → Gives restored s before → Gives restored (next_standing whole s after payload) after
        → CommitStop memory_tells whole s after payload (memory_view old) (memory_view new)
        → old.arming ≡ Stop calls → AnswersOn restored (powered new).bytes booted
        → booted ≡ (if stop_commits calls old.torn then after else before) }
    ensures failed { (restored : Restoring) (before after booted : List ℕ) (whole : Bool) (s : Standing)
        (payload : List ℕ) (old new : Medium) (call : ℕ)
        → Gives restored s before → Gives restored (next_standing whole s after payload) after
        → CommitStop memory_tells whole s after payload (memory_view old) (memory_view new)
        → old.arming ≡ Fail call → AnswersOn restored (powered new).bytes booted
        → booted ≡ (if failure_commits call then after else before) }
    ensures stopped_gates { (whole : Bool) (s : Standing) (content payload : List ℕ) (old new : Medium) (calls : ℕ)
        → CommitStop memory_tells whole s content payload (memory_view old) (memory_view new)
        → old.arming ≡ Stop calls
        → both_gates_open (powered new).bytes ≡ (whole && stop_opens_both calls old.torn) }
    ensures failed_gates { (whole : Bool) (s : Standing) (content payload : List ℕ) (old new : Medium) (call : ℕ)
        → CommitStop memory_tells whole s content payload (memory_view old) (memory_view new)
        → old.arming ≡ Fail call
        → both_gates_open (powered new).bytes ≡ (whole && failure_opens_both call) }
{
    stopped_commits();
}

/// States what is stored after an event whose commit an armed stop or failure ended.
///
/// It also states on which call that fell, how many calls were made, whether the disk is off since then, and that no
/// commit ends so where nothing is armed. A commit that went through is after a stop or failure that didn't fall
/// (`zb_store::armed_runs`).
///
/// The premise is the clause `stopped` of `handle`.
pub fn fallen_events()
    ensures stopped { (whole : Bool) (s : Standing) (content payload : List ℕ) (old new : Medium) (calls : ℕ)
        → CommitStop memory_tells whole s content payload (memory_view old) (memory_view new)
        → old.arming ≡ Stop calls
        → IsWhole (if stop_commits calls old.torn then next_standing whole s content payload else s)
        (powered new).bytes }
    ensures failed { (whole : Bool) (s : Standing) (content payload : List ℕ) (old new : Medium) (call : ℕ)
        → CommitStop memory_tells whole s content payload (memory_view old) (memory_view new)
        → old.arming ≡ Fail call
        → IsWhole (if failure_commits call then next_standing whole s content payload else s) (powered new).bytes }
    ensures stop_falls { (whole : Bool) (s : Standing) (content payload : List ℕ) (old new : Medium) (calls : ℕ)
        → CommitStop memory_tells whole s content payload (memory_view old) (memory_view new)
        → old.arming ≡ Stop calls → StopFell calls (commit_calls whole) old new }
    ensures failure_falls { (whole : Bool) (s : Standing) (content payload : List ℕ) (old new : Medium) (call : ℕ)
        → CommitStop memory_tells whole s content payload (memory_view old) (memory_view new)
        → old.arming ≡ Fail call → FailureFell call (commit_calls whole) old new }
    ensures none_falls { (whole : Bool) (s : Standing) (content payload : List ℕ) (old new : Medium)
        → CommitStop memory_tells whole s content payload (memory_view old) (memory_view new)
        → old.arming ≡ Unarmed → ⊥ }
{
    stopped_commits();
    stopped_runs();
    armed_runs();
}
