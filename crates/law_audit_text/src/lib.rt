//! An audit checks lines by their words alone. The law is the contract of a function with an empty body;
//! docs/THEOREMS.md says it in words.
#![tactic(auto)]

mod line_texts;

ghost use Rattle.std.specs.Prelude.{List};
ghost use Rattle.law_audit_text.specs.Alike.{AreJudgedAlike, HaveSameWords};
ghost use Rattle.zb_model.specs.Tools.{Tools};
ghost use Rattle.zb_trace.specs.declared.line.Line.{Line};

pub use line_texts::a_text_fixes_its_lines;

/// States that an audit treats lines with the same words alike, whoever wrote them.
///
/// The unused room after a name is in no word, so an audit doesn't see it.
pub fn lines_are_judged_by_their_words()
    ensures { (tools : Tools) (lines others : List Line) → HaveSameWords lines others
        → AreJudgedAlike tools lines others }
{}
