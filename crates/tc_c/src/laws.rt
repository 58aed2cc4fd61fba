//! A law about sealing and opening, as the contract of a function that does nothing.
ghost use Rattle.std.specs.Prelude.{◌≡◌, ◌≤◌, ℕ, List, Ok, length};
ghost use Rattle.tc_c.specs.Openings.{clear_term};
ghost use Rattle.zb_base.specs.Limits.{longest_frame};
ghost use Rattle.zb_base.specs.declared.key.Key.{Key};
ghost use Rattle.zb_cursor.specs.Spelling.{IsBytes};
ghost use Rattle.zb_seal.specs.Opening.{opened_nwk};
ghost use Rattle.zb_seal.specs.Wire.{wire};
ghost use Rattle.zb_seal.specs.declared.term.Term.{Term};

/// States that `tc_open_nwk` under the same key opens what `tc_seal_nwk` writes, to the frame that was in clear.
#[tactic(auto, using(crate::proofs::Again::opens_again))]
pub fn what_is_sealed_opens_again()
    ensures { (clear : List ℕ) (key : Key) (t : Term) → IsBytes clear → length key.0 ≡ 16
        → clear_term clear key ≡ Ok t → length (wire t) ≤ longest_frame → opened_nwk (wire t) key ≡ Ok t }
{}
