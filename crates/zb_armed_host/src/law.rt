//! That the model's stops and failures are those of the store. Each function here says laws and does
//! nothing.
ghost use Rattle.std.specs.Prelude.{◌≡◌, ◌+◌, ◌%◌, ◌==◌, ◌&&◌, List, ℕ, Bool, true, false};
ghost use Rattle.zb_disk.specs.Memory.{Medium, memory_tells, memory_view};
ghost use Rattle.zb_store.specs.Layout.{Standing};
ghost use Rattle.zb_store.specs.Steps.{WentThrough};
ghost use Rattle.zb_store.specs.Store.{IsHeld, both_gates_open};
ghost use Rattle.zb_store.specs.Power.{stop_commits, failure_commits, stop_opens_both, failure_opens_both, open_stop_leaves_both, open_failure_leaves_both};
ghost use Rattle.zb_model.specs.Play.{StopAfter, FailAt, BootCalls, falls, stands, leaves_both, commit_calls, commits_of_record};
ghost use Rattle.zb_armed_host.specs.Arms.{IsUnarmed, commit_of};

/// States that the model's words on stops and failures that fall are what the store promises of them.
///
/// A commit on which one falls is stored exactly where the model says. The gates of both slots are open exactly where
/// it says. The calls of a commit are those of a whole record exactly where no entry more fits after the record.
pub fn stops_and_failures()
    ensures stop_stands { (whole : Bool) (calls : ℕ) (torn : List ℕ)
        → falls (StopAfter calls torn) (commit_of whole) ≡ true
        → stands (StopAfter calls torn) (commit_of whole) ≡ stop_commits calls torn }
    ensures fail_stands { (whole : Bool) (call : ℕ) → falls (FailAt call) (commit_of whole) ≡ true
        → stands (FailAt call) (commit_of whole) ≡ failure_commits call }
    ensures stop_leaves { (whole : Bool) (calls : ℕ) (torn : List ℕ)
        → falls (StopAfter calls torn) (commit_of whole) ≡ true
        → leaves_both (StopAfter calls torn) (commit_of whole) ≡ (whole && stop_opens_both calls torn) }
    ensures fail_leaves { (whole : Bool) (call : ℕ) → falls (FailAt call) (commit_of whole) ≡ true
        → leaves_both (FailAt call) (commit_of whole) ≡ (whole && failure_opens_both call) }
    ensures boot_stop_leaves { (calls : ℕ) (torn : List ℕ) → falls (StopAfter calls torn) (BootCalls true) ≡ true
        → leaves_both (StopAfter calls torn) (BootCalls true) ≡ open_stop_leaves_both calls torn }
    ensures boot_fail_leaves { (call : ℕ) → falls (FailAt call) (BootCalls true) ≡ true
        → leaves_both (FailAt call) (BootCalls true) ≡ open_failure_leaves_both call }
    ensures full_is { (entries commits : ℕ) → entries ≡ commits % commits_of_record
        → commit_calls commits ≡ commit_of (entries == 32) }
{}

/// States that where nothing is armed on a disk nothing is after device calls that went through.
#[tactic(auto, using(crate::proofs::Armings::unarmed_stays))]
pub fn nothing_armed_stays()
    ensures { (run : ℕ) (old new : Medium) → IsUnarmed old
        → WentThrough memory_tells run (memory_view old) (memory_view new) → IsUnarmed new }
{}

/// States that where a record is held the gates of both slots aren't open at once. A record is held after a commit and
/// after a boot.
#[tactic(auto, using(crate::proofs::Resets::one_open))]
pub fn one_gate_stands_open()
    ensures { (s : Standing) (m : Medium) → IsHeld s (memory_view m) → both_gates_open m.bytes ≡ false }
{}
