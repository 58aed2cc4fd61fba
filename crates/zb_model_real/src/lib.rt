//! The model's tools, defined by this program's crates: frames, commands, sealing. A law is the contract of a function
//! with an empty body.
#![tactic(auto)]

ghost use Rattle.std.specs.Prelude.{◌≡◌, ℕ, List, Some, unwrap_or};
ghost use Rattle.zb_base.specs.declared.label.Label.{Label};
ghost use Rattle.zb_cmd.specs.Spelling.{command};
ghost use Rattle.zb_cmd.specs.declared.command.Command.{Command};
ghost use Rattle.zb_model.specs.Data as model;
ghost use Rattle.zb_model.specs.Data.{Bytes, Nwk, Aps};
ghost use Rattle.zb_model.specs.Tools.{ApsAuxiliary, ApsShown, NwkAuxiliary, NwkShown, sealing_key as model_key};
ghost use Rattle.zb_seal.specs.Keys.{sealing_key};
ghost use Rattle.zb_seal.specs.Wire.{wire};
ghost use Rattle.zb_seal.specs.declared.term.Term.{Term};
ghost use Rattle.zb_model_real.specs.Readers.{model_command};
ghost use Rattle.zb_model_real.specs.Real.{real};
ghost use Rattle.zb_model_real.specs.Terms.{model_label, model_term};

/// States that the model's definitions of what is sealed agree with the program's.
///
/// A term is sent on the air as the bytes of zb_seal, under the key that zb_seal derives from its base key. A command
/// has the bytes of zb_cmd.
pub fn terms_go_out_as_they_are_sealed()
    ensures wire { (t : Term) → real.wire (model_term t) ≡ wire t }
    ensures keys { (label : Label) (base : List ℕ) → model_key real (model_label label) base ≡ sealing_key label base }
    ensures commands { (c : Command) → real.spelled (model_command c) ≡ command c }
{}

/// States that what a real frame opens to has the frame's layer and the base key that opened it.
///
/// It has the source and counter that the frame shows.
pub fn frames_open_as_they_show()
    ensures nwk { (bytes key : Bytes) (f : NwkShown) (aux : NwkAuxiliary) (t : model.Term)
        → real.read_nwk bytes ≡ Some f → f.auxiliary ≡ Some aux → real.open_nwk bytes key ≡ Some t
        → (t.layer ≡ Nwk) × (t.base ≡ key) × (t.source ≡ aux.source) × (t.counter ≡ aux.counter) }
    ensures aps { (bytes key : Bytes) (given : ℕ) (f : ApsShown) (aux : ApsAuxiliary) (t : model.Term)
        → real.read_aps bytes ≡ Some f → f.auxiliary ≡ Some aux → real.open_aps bytes key given ≡ Some t
        → (t.layer ≡ Aps) × (t.base ≡ key) × (t.source ≡ unwrap_or aux.source given) × (t.counter ≡ aux.counter) }
{}

pub use zb_seal::Term;
