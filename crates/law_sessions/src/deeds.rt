//! What holds of all sessions of `tc_centre` and all runs of `admin` on one store together, in any order. Each law
//! is the contract of a function with an empty body.
ghost use Rattle.std.specs.Prelude.{ℕ, List, [], ◌∷◌, ◌++◌};
ghost use Rattle.zb_centre_store.specs.Standing.{found_on};
ghost use Rattle.law_sessions.specs.Accepts.{AllRise, all_accepts};
ghost use Rattle.law_sessions.specs.Deeds.{AreDeeds, Deed, all_seals, last_left};
ghost use Rattle.law_sessions.specs.Sessions.{NoneTwice};
ghost use Rattle.law_sessions.specs.Stores.{AreInLine, AreRestored, Restored, life_seals, restored_accepts, store_on};
ghost use Rattle.zb_model.specs.Claims.{AreApart};
ghost use Rattle.zb_model_real.specs.Real.{real};

/// States that no two terms take one counter, in any sessions and runs of `admin` on one store.
///
/// Nor have two of them one sealing key and one nonce. The terms are those that the centre seals. `image` is the store
/// as the first deed finds it, whatever it holds. Each deed has a header of its own, and begins on the image that the
/// one before left, at its end or at a crash at any moment of it.
pub fn no_counter_comes_twice_on_one_store()
    ensures counters { (image : List ℕ) (deeds : List Deed) → AreDeeds image deeds
        → NoneTwice (all_seals image deeds) }
    ensures nonces { (image : List ℕ) (deeds : List Deed) → AreDeeds image deeds
        → AreApart real (all_seals image deeds) }
{}

/// States that no two terms take one counter in a whole life, restores included.
///
/// Nor have two of them one sealing key and one nonce. A life is a store with all deeds on it, and then each store
/// that was restored, with all deeds on that. Each `restore` is on an empty disk, of any earlier backup. Its SKIP
/// reaches the limits that any store of the life had at last, for APS and each network key of the backup. A network
/// key that the backup lacks isn't drawn a second time.
pub fn no_counter_comes_twice_in_a_life()
    ensures counters { (image : List ℕ) (deeds : List Deed) (more : List Restored) → AreDeeds image deeds
        → AreRestored (store_on image deeds ∷ []) more → NoneTwice (life_seals image deeds more) }
    ensures nonces { (image : List ℕ) (deeds : List Deed) (more : List Restored) → AreDeeds image deeds
        → AreRestored (store_on image deeds ∷ []) more → AreApart real (life_seals image deeds more) }
{}

/// States that the centre accepts no counter of a sender twice on one store.
///
/// That is in any sessions and runs of `admin`. Of two terms that it accepts of one layer, base key and source, the
/// later one has the greater counter. Headers may grow and change, and each deed begins on the image that the one
/// before left.
pub fn no_counter_is_accepted_twice_on_one_store()
    ensures { (image : List ℕ) (deeds : List Deed) → AreDeeds image deeds → AllRise (all_accepts image deeds) }
{}

/// States that a counter that was accepted is accepted again only if a restore undid the first acceptance.
///
/// A restore undoes what was done to a store after its backup was made. Leave that out of a life: then each store is
/// restored from a backup of what the one before held. Of two terms that the centre accepts in what is left, of one
/// layer, base key and source, the later one has the greater counter.
pub fn no_counter_is_accepted_twice_unless_it_was_undone()
    ensures { (image : List ℕ) (deeds : List Deed) (more : List Restored) → AreDeeds image deeds
        → AreInLine (found_on (last_left image deeds)) more
        → AllRise (all_accepts image deeds ++ restored_accepts more) }
{}
