//! Which commits hold that a stop or a failure of the disk ended.
ghost use Rattle.std.specs.Prelude.{◌≡◌};
ghost use Rattle.zb_store.specs.Layout.{open_gate};
ghost use Rattle.zb_store.specs.Power.{failure_commits, reads_open, stop_commits};

use crate::commit::OPEN;

/// Returns whether a commit holds that a stop ended.
///
/// `calls` is the number of its writes and syncs that went through. `torn` is what the stop leaves of a write that
/// isn't synced, over and over; where it is empty, the write stays as it is.
pub fn stop_commits(calls: u8, torn: &[u8]) -> bool
    ensures { result ≡ stop_commits calls torn.now }
{
    if calls == 3 {
        return opens(torn);
    }
    calls > 3
}

/// Returns whether a commit holds whose write or sync of this number failed, counted from 1.
pub fn failure_commits(call: u8) -> bool
    ensures { result ≡ failure_commits call }
{
    call > 3
}

// Returns whether a gate that was written open and not synced reads open after a stop.
fn opens(torn: &[u8]) -> bool
    ensures { result ≡ reads_open torn.now open_gate }
{
    match torn {
        [] => true,
        [first, ..] => *first == OPEN,
    }
}
