//! Laws of what a scribe told. Each is the contract of a function with an empty body.
ghost use Rattle.std.specs.Prelude.{◌++◌, [], ℕ, List, Option};
ghost use Rattle.zb_model.specs.Data.{Station};
ghost use Rattle.zb_model.specs.Lines.{Line};
ghost use Rattle.zb_player_scribe.specs.Kept.{Tells};
ghost use Rattle.zb_player_scribe.specs.declared.scribe.Scribe.{Scribe};

/// States that lines told one after the other are all of them told.
pub fn lines_are_told_in_turn()
    ensures { (known : List Station) (some more : List Line) (old between new : Scribe)
        (before page after : Option (List ℕ))
        → Tells known some old before between page → Tells known more between page new after
        → Tells known (some ++ more) old before new after }
{}

/// States that a scribe that did nothing told no lines.
pub fn no_lines_are_told()
    ensures { (known : List Station) (scribe : Scribe) (page : Option (List ℕ))
        → Tells known [] scribe page scribe page }
{}
