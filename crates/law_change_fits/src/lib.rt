//! When a change fits a state that keeps the rules for records: the questions that remain, row by row, instead of all
//! rules after the change. It is a crate of definitions (`specs/`), and its code carries the law.
#![tactic(auto)]

ghost use Rattle.std.specs.Prelude.{◌≡◌, ◌&&◌, true};
ghost use Rattle.law_change_fits.specs.Fitting.{leaves_rules};
ghost use Rattle.zb_model.specs.Data.{Edit};
ghost use Rattle.zb_model.specs.State.{NodeState};
ghost use Rattle.zb_model.specs.Fits.{keeps_rules, may_change, fits};

/// States when a change fits a state that keeps the rules for records.
///
/// It fits exactly if it may be made and its own questions have the right answers.
#[tactic(auto, using(crate::proofs::FitLaws::fits_is))]
pub fn fits_where_rules_stand()
    ensures { (e : Edit) (s : NodeState) → keeps_rules s ≡ true → fits e s ≡ (may_change e s && leaves_rules e s) }
{}
