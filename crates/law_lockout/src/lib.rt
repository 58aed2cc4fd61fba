//! The lockout of removed devices, in plain words: it doesn't matter when a device seals something after its removal.
//! The function states a law and does nothing.
#![tactic(auto)]

ghost use Rattle.std.specs.Prelude.{◌≡◌, List, true};
ghost use Rattle.zb_model.specs.Claims.{Fresh, Locked};
ghost use Rattle.zb_model.specs.Lines.{Line};
ghost use Rattle.zb_model.specs.Secrets.{ideal};
ghost use Rattle.zb_model.specs.Tools.{Tools};
ghost use Rattle.law_lockout.specs.LockedOut.{LockedOut};

/// States that lockout of what is sealed before an acceptance is lockout of all that is sealed.
///
/// `Locked` is about what a removed device sealed before an acceptance, and `LockedOut` about all that it seals after
/// its removal. `LockedOut` implies `Locked`, for any lines. The reverse follows if no two seals have one sealing key
/// and nonce, and if what is accepted was sealed or forged before. Then nothing is accepted that is sealed only
/// later.
#[tactic(auto, using(crate::proofs::Words::locked_out, crate::proofs::Words::locked))]
pub fn the_lockout_is_of_all_later_seals()
    ensures all { (tools : Tools) (lines : List Line) → Fresh tools lines → ideal tools lines ≡ true
        → Locked tools lines → LockedOut tools lines }
    ensures no_more { (tools : Tools) (lines : List Line) → LockedOut tools lines → Locked tools lines }
{}
