//! What stands on a disk in memory after a call of the store that a stop or a failure ended, once the power is back.
//! Each function here says laws and does nothing.
ghost use Rattle.std.specs.Prelude.{◌≡◌, ◌≤◌, ◌<◌, if◌then◌else◌, ℕ, List, true, false};
ghost use Rattle.zb_disk.specs.declared.memory.Arming.TheVariants.{Unarmed, Stop, Fail};
ghost use Rattle.zb_disk.specs.View.{Only};
ghost use Rattle.zb_disk.specs.Memory.{Medium, is_stopped, powered, memory_tells, memory_view};
ghost use Rattle.zb_store.specs.Layout.{Standing, IsWhole};
ghost use Rattle.zb_store.specs.Steps.{WentThrough, StoppedWithin};
ghost use Rattle.zb_store.specs.Store.{AppendStop, PutStop, OpenStop, FormatStop, appended, replaced, both_gates_open, open_calls};
ghost use Rattle.zb_store.specs.Power.{stop_commits, failure_commits, stop_opens_both, failure_opens_both, open_stop_leaves_both, open_failure_leaves_both, StopFell, FailureFell};

/// States on which call of a run an armed stop or failure falls.
///
/// Nothing falls where nothing is armed.
///
/// A run is what a call of the store makes of writes and syncs: `append` four, `put` six, `format` five, `open` one or
/// three. A stop or failure that didn't fall lies after it.
pub fn armed_runs()
    ensures stopped { (run : ℕ) (old new : Medium) (calls : ℕ)
        → StoppedWithin memory_tells run (memory_view old) (memory_view new) → old.arming ≡ Stop calls
        → StopFell calls run old new }
    ensures failed { (run : ℕ) (old new : Medium) (call : ℕ)
        → StoppedWithin memory_tells run (memory_view old) (memory_view new) → old.arming ≡ Fail call
        → FailureFell call run old new }
    ensures unarmed { (run : ℕ) (old new : Medium)
        → StoppedWithin memory_tells run (memory_view old) (memory_view new) → old.arming ≡ Unarmed → ⊥ }
    ensures missed_stop { (run : ℕ) (old new : Medium) (calls : ℕ)
        → WentThrough memory_tells run (memory_view old) (memory_view new) → old.arming ≡ Stop calls → run ≤ calls }
    ensures missed_failure { (run : ℕ) (old new : Medium) (call : ℕ)
        → WentThrough memory_tells run (memory_view old) (memory_view new) → old.arming ≡ Fail call
        → 1 ≤ call → run < call }
    ensures on { (run : ℕ) (old new : Medium)
        → WentThrough memory_tells run (memory_view old) (memory_view new) → is_stopped new.arming ≡ false }
{}

/// States within how many calls an `append`, a `put` or a `format` stopped.
pub fn stopped_runs()
    ensures append { (s : Standing) (payload : List ℕ) (old new : Medium)
        → AppendStop memory_tells s payload (memory_view old) (memory_view new)
        → StoppedWithin memory_tells 4 (memory_view old) (memory_view new) }
    ensures put { (s : Standing) (content : List ℕ) (old new : Medium)
        → PutStop memory_tells s content (memory_view old) (memory_view new)
        → StoppedWithin memory_tells 6 (memory_view old) (memory_view new) }
    ensures format { (content : List ℕ) (old new : Medium)
        → FormatStop memory_tells content (memory_view old) (memory_view new)
        → StoppedWithin memory_tells 5 (memory_view old) (memory_view new) }
{}

/// States what stands after a commit that an armed stop or failure ended.
///
/// That depends on the call on which it fell.
///
/// It also says whether the next `open` finds the gates of both slots open. The stop or failure counts from the
/// beginning of the commit.
pub fn stopped_commits()
    ensures append { (s : Standing) (payload : List ℕ) (old new : Medium) (calls : ℕ)
        → AppendStop memory_tells s payload (memory_view old) (memory_view new) → old.arming ≡ Stop calls
        → IsWhole (if stop_commits calls old.torn then appended s payload else s) (powered new).bytes }
    ensures append_failed { (s : Standing) (payload : List ℕ) (old new : Medium) (call : ℕ)
        → AppendStop memory_tells s payload (memory_view old) (memory_view new) → old.arming ≡ Fail call
        → IsWhole (if failure_commits call then appended s payload else s) (powered new).bytes }
    ensures append_gates { (s : Standing) (payload : List ℕ) (old new : Medium)
        → AppendStop memory_tells s payload (memory_view old) (memory_view new)
        → both_gates_open (powered new).bytes ≡ false }
    ensures put { (s : Standing) (content : List ℕ) (old new : Medium) (calls : ℕ)
        → PutStop memory_tells s content (memory_view old) (memory_view new) → old.arming ≡ Stop calls
        → IsWhole (if stop_commits calls old.torn then replaced s content else s) (powered new).bytes }
    ensures put_failed { (s : Standing) (content : List ℕ) (old new : Medium) (call : ℕ)
        → PutStop memory_tells s content (memory_view old) (memory_view new) → old.arming ≡ Fail call
        → IsWhole (if failure_commits call then replaced s content else s) (powered new).bytes }
    ensures put_gates { (s : Standing) (content : List ℕ) (old new : Medium) (calls : ℕ)
        → PutStop memory_tells s content (memory_view old) (memory_view new) → old.arming ≡ Stop calls
        → both_gates_open (powered new).bytes ≡ stop_opens_both calls old.torn }
    ensures put_failed_gates { (s : Standing) (content : List ℕ) (old new : Medium) (call : ℕ)
        → PutStop memory_tells s content (memory_view old) (memory_view new) → old.arming ≡ Fail call
        → both_gates_open (powered new).bytes ≡ failure_opens_both call }
{}

/// States what stands after an `open` that an armed stop or failure ended, where all was synced.
///
/// What stood stands. Where the gates of both slots were open, the other clauses say whether they still are; where one
/// was closed, one is. On a disk that isn't off it stopped at a write or a sync.
pub fn stopped_open()
    ensures stands { (s : Standing) (old new : Medium) (calls : ℕ)
        → OpenStop memory_tells s (memory_view old) (memory_view new) → IsWhole s old.bytes
        → Only old.bytes (memory_view old).images → old.arming ≡ Stop calls → IsWhole s (powered new).bytes }
    ensures stands_failed { (s : Standing) (old new : Medium) (call : ℕ)
        → OpenStop memory_tells s (memory_view old) (memory_view new) → IsWhole s old.bytes
        → Only old.bytes (memory_view old).images → old.arming ≡ Fail call → IsWhole s (powered new).bytes }
    ensures gates { (s : Standing) (old new : Medium) (calls : ℕ)
        → OpenStop memory_tells s (memory_view old) (memory_view new) → Only old.bytes (memory_view old).images
        → both_gates_open old.bytes ≡ true → old.arming ≡ Stop calls
        → both_gates_open (powered new).bytes ≡ open_stop_leaves_both calls old.torn }
    ensures gates_failed { (s : Standing) (old new : Medium) (call : ℕ)
        → OpenStop memory_tells s (memory_view old) (memory_view new) → Only old.bytes (memory_view old).images
        → both_gates_open old.bytes ≡ true → old.arming ≡ Fail call
        → both_gates_open (powered new).bytes ≡ open_failure_leaves_both call }
    ensures closed { (s : Standing) (old new : Medium)
        → OpenStop memory_tells s (memory_view old) (memory_view new) → Only old.bytes (memory_view old).images
        → both_gates_open old.bytes ≡ false → both_gates_open (powered new).bytes ≡ false }
    ensures within { (s : Standing) (old new : Medium)
        → OpenStop memory_tells s (memory_view old) (memory_view new) → is_stopped old.arming ≡ false
        → StoppedWithin memory_tells (open_calls old.bytes) (memory_view old) (memory_view new) }
{}
