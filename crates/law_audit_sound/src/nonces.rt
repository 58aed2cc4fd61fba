//! Which claims of the audit the lines of each run keep. The laws are the contracts of functions with empty
//! bodies; docs/THEOREMS.md says them in words.
ghost use Rattle.law_audit_sound.specs.Keeping.{KeepsFirst, KeepsSecond};
ghost use Rattle.zb_model.specs.Play.{Schedule, stations};
ghost use Rattle.zb_model.specs.Schedules.{IsSchedule};
ghost use Rattle.zb_model.specs.Tools.{Tools};
ghost use Rattle.law_run.specs.Commanding.{OneCentre};
ghost use Rattle.law_run.specs.Opening.{Opens};
ghost use Rattle.zb_trace_model.specs.Naming.{AreNamed};

/// States that no line of a run breaks the first claim of the audit: no nonce is used twice.
///
/// No node seals twice under one key and nonce.
#[tactic(auto, using(crate::proofs::Fresher::keeps_first))]
pub fn runs_keep_the_first_claim()
    ensures { (w : Schedule) → IsSchedule w → KeepsFirst w }
{}

/// States that no line of a run breaks the second claim of the audit: no counter is accepted twice.
///
/// No receiver accepts a sender's counter twice under one key.
#[tactic(auto, using(crate::proofs::Later::keeps_second))]
pub fn runs_keep_the_second_claim()
    ensures { (tools : Tools) → Opens tools → (w : Schedule) → IsSchedule w → OneCentre w → AreNamed (stations w)
        → KeepsSecond tools w }
{}
