//! What the program leaves on its disk is what the laws on sessions are about.
ghost use Rattle.std.specs.Prelude.{◌≡◌, ◌∷◌, [], ℕ, List, Some, Ok, IsTrue, OnOk};
ghost use Rattle.law_sessions.specs.Leaving.{AreKeptAlong, IsOfRun, IsOfSession, IsOnly};
ghost use Rattle.law_sessions.specs.Sessions.{AreSessions};
ghost use Rattle.zb_centre_store.specs.Standing.{CanBeServed, found_on};
ghost use Rattle.zb_disk.specs.View.{LeavesOnly};
ghost use Rattle.zb_live.specs.WholeLines.{whole_lines};
ghost use Rattle.zb_model.specs.Data.{Bytes};
ghost use Rattle.zb_model.specs.State.{NodeState};
ghost use Rattle.zb_script.specs.Scripts.{IsScript};

use std::alloc::Global;
use zb_admin::serve;
use zb_base::{Sink, Source};
use zb_centre_store::AdminFault;
use zb_disk::Disk;
use zb_live::{LiveFault, live};
use zb_script::Script;

/// Serves an input as `live` does, and states that each image it leaves is that of a session.
///
/// The disk has one image at first, which can be served: it is empty, or a store. A crash at any moment leaves an
/// image
/// of which `AreSessions` holds, with some first lines of the input. If the session ends well, so does each image of
/// the disk, with all whole lines.
///
/// # Errors
/// Those of `live`.
pub fn what_live_leaves_is_a_session<R: Source, W: Sink, D: Disk>(
    alloc: Global,
    input: &mut R,
    output: &mut W,
    disk: &mut D,
) -> Result<(), LiveFault>
    ensures moments { IsTrue D.tells.content → (image : List ℕ) → IsOnly image (D.state disk.old)
        → CanBeServed (D.state disk.old)
        → LeavesOnly (D.state disk.old) (D.state disk.new) (IsOfSession image) }
    ensures ended { OnOk result (IsTrue D.tells.content → (image : List ℕ) → IsOnly image (D.state disk.old)
        → CanBeServed (D.state disk.old) → (bytes : Bytes) → R.rest input.old ≡ Some bytes → (left : List ℕ)
        → (D.state disk.new).images left
        → AreSessions image (record { lines = whole_lines bytes; left = left } ∷ [])) }
{
    live(alloc, input, output, disk)
}

/// Serves a script as zb_admin does, and states that each image it leaves is that of a run.
///
/// The disk has one image at first, which holds a store. A crash at any moment leaves an image of which `AreRuns`
/// holds, with some first commands of the script. That the tables keep the rules for records is a condition.
///
/// # Errors
/// Those of `serve`.
pub fn what_serve_leaves_is_a_run<D: Disk, W: Sink>(
    alloc: Global,
    script: &Script,
    disk: &mut D,
    out: &mut W,
) -> Result<(), AdminFault>
    requires { IsScript script.now }
    ensures { IsTrue D.tells.content → (image : List ℕ) → IsOnly image (D.state disk.old)
        → CanBeServed (D.state disk.old) → (s : NodeState) → found_on image ≡ Ok (Some s)
        → AreKeptAlong script.now s
        → LeavesOnly (D.state disk.old) (D.state disk.new) (IsOfRun image script.now) }
{
    serve(alloc, script, disk, out)
}
