//! Why no counter comes again after a restore. The function here says a law and does nothing.
ghost use Rattle.std.specs.Prelude.{ℕ, List};
ghost use Rattle.zb_model.specs.Rules.{Setting};
ghost use Rattle.zb_model.specs.State.{NodeState};
ghost use Rattle.zb_model.specs.Tools.{Tools};
ghost use Rattle.zb_centre_store.specs.Freshness.{Deed, EachSeal, HasUsed, IsUnused};
ghost use Rattle.zb_centre_store.specs.Skipping.{skipped};

/// States that a centre which skips enough draws no counter again that may have been used since its backup.
///
/// `backup` are the tables that were kept, `lost` any later ones of that store, whose limits are at most `by` above
/// those of the backup. It holds whatever the centre lives through after the skip. It is of each term that it seals at
/// the application support layer, or under a network key of the backup. The term's counter isn't below the lost limit,
/// so the lost store never sealed with it.
#[tactic(auto, using(crate::proofs::FreshLemmas::each_unused))]
pub fn no_counter_comes_again()
    ensures { (tools : Tools) (c : Setting) (by : ℕ) (backup lost : NodeState) (deeds : List Deed)
        → HasUsed by backup lost → EachSeal (IsUnused backup lost) tools c deeds (skipped by backup) }
{}
