//! A law of the third claim, as the contract of a function that does nothing.
ghost use Rattle.std.specs.Prelude.{◌≡◌, List, true};
ghost use Rattle.zb_audit.specs.Claims.{ConfirmLine};
ghost use Rattle.zb_audit.specs.Confirming.{is_confirmable};
ghost use Rattle.zb_trace.specs.declared.line.Line.{Line};

/// States that a line is confirmable exactly if it keeps the third claim. It then confirms no key, or one that the
/// centre has stored.
///
/// So the auditor follows what the lines before say about the key: a row line that makes it verified, a commit after
/// that, and nothing since that unsettles it.
#[tactic(auto, using(crate::proofs::ClaimsHold::confirm_one, crate::proofs::ClaimsHold::confirmable_one))]
pub fn confirmable_seals_are_of_stored_keys()
    ensures stored { (h : List Line) (l : Line) → is_confirmable h l ≡ true → ConfirmLine h l }
    ensures confirmable { (h : List Line) (l : Line) → ConfirmLine h l → is_confirmable h l ≡ true }
{}
