//! A text is the text of only one line: what is printed of the program's lines determines them. The function here
//! states this and does nothing.
ghost use Rattle.std.specs.Prelude.{◌≡◌, List};
ghost use Rattle.law_audit_text.specs.Plain.{plain, plains};
ghost use Rattle.zb_trace.specs.Text.{text, texts, AllProper, IsProper};
ghost use Rattle.zb_trace.specs.declared.line.Line.{Line};

/// States that lines with one text are the same lines, value by value.
///
/// Their names are valid. What is after the end of a name, in its room, is in no text (`plain`).
#[tactic(auto, using(crate::proofs::Fixed::one_line, crate::proofs::Fixed::same_lines))]
pub fn a_text_fixes_its_lines()
    ensures line { (a b : Line) → IsProper a → IsProper b → text a ≡ text b → plain a ≡ plain b }
    ensures lines { (ls ms : List Line) → AllProper ls → AllProper ms → texts ls ≡ texts ms → plains ls ≡ plains ms }
{}
