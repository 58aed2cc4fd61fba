//! What holds of all runs of `admin` on one store together, with crashes at any moment, and after a restore on another
//! store. Each law is the contract of a function with an empty body.
ghost use Rattle.std.specs.Prelude.{◌≡◌, ℕ, List, [], Some, Ok};
ghost use Rattle.law_sessions.specs.Runs.{AreRuns, Restores, Run, backup_tables, left_by_all, sealed_on};
ghost use Rattle.law_sessions.specs.Sessions.{NoneAgain, NoneTwice};
ghost use Rattle.zb_centre_store.specs.Standing.{found_on};
ghost use Rattle.zb_model.specs.State.{NodeState};
ghost use Rattle.zb_centre_store.specs.Freshness.{HasUsed};

/// States that no two terms take one counter, in any runs of `admin` on one store.
///
/// The terms are those that the centre seals.
///
/// `image` is the store as the first run finds it, whatever it holds. Each run begins on the image that the one before
/// left, at its end or at a crash at any moment of it.
#[tactic(auto, using(crate::proofs::RunLemmas::runs_apart))]
pub fn no_counter_comes_twice_in_all_runs()
    ensures { (image : List ℕ) (runs : List Run) → AreRuns image runs → NoneTwice (sealed_on image runs) }
{}

/// States that runs on a restored store take no counter again that the lost store's runs took.
///
/// `bytes` is the backup that the second store was made of, and `lost` are the tables that the last run left on the
/// first, whose limits are at most `by` above those of the backup. It holds at the application support layer, and
/// under each network key of the backup.
pub fn no_counter_of_admin_comes_again_after_a_restore()
    ensures { (image : List ℕ) (before since : List Run) (by : ℕ) (bytes : List ℕ) (lost : NodeState)
        → AreRuns image before → found_on (left_by_all image before) ≡ Ok (Some lost)
        → HasUsed by (backup_tables bytes) lost → AreRuns [] since → Restores by bytes since
        → NoneAgain (backup_tables bytes) (sealed_on image before) (sealed_on [] since) }
{}
