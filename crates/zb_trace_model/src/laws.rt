//! Laws of the text of lines. Each is the contract of a function with an empty body.
ghost use Rattle.std.specs.Prelude.{◌≡◌, ◌++◌, ℕ, List};
ghost use Rattle.zb_model.specs.Data.{Station};
ghost use Rattle.zb_model.specs.Lines.{Line};
ghost use Rattle.zb_trace_model.specs.Naming.{AreNamed, IsCalled, IsDeclared, name_of};
ghost use Rattle.zb_trace_model.specs.Said.{AreProper, IsLineOf, IsOfNodes, line_for, text_of};

/// States that the text of lines one after the other is their texts one after the other.
#[tactic(auto, using(crate::proofs::Texts::text_append))]
pub fn texts_follow_each_other()
    ensures { (known : List Station) (hs gs : List Line)
        → text_of known (hs ++ gs) ≡ text_of known hs ++ text_of known gs }
{}

/// States that a text fixes its lines: proper lines with the same text are the same lines.
///
/// The nodes' names differ. Proper lines are of these nodes, their numbers are in their ranges, and their keys have 16
/// bytes.
#[tactic(auto, using(crate::proofs::Fixed::text_fixes))]
pub fn a_text_fixes_its_lines()
    ensures { (known : List Station) → AreNamed known → (hs gs : List Line) → AreProper known hs → AreProper known gs
        → text_of known hs ≡ text_of known gs → hs ≡ gs }
{}

/// States that each line of the model that is of declared nodes has a line of the program.
#[tactic(auto, using(crate::proofs::Lines::line_is_said))]
pub fn each_line_is_said()
    ensures { (known : List Station) → AreNamed known → (m : Line) → IsOfNodes known m
        → IsLineOf known (line_for known m) m }
{}

/// States that the name of a declared node leads to that node.
#[tactic(auto, using(crate::proofs::Naming::is_called))]
pub fn names_lead_to_their_nodes()
    ensures { (known : List Station) → AreNamed known → (n : ℕ) → IsDeclared known n
        → IsCalled known n (name_of known n) }
{}
