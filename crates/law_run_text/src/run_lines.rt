//! What makes the lines of a run proper, so that their text is the text of no other lines: each is of a node that the
//! schedule declares, or of no node. The laws are the contracts of functions with empty bodies; docs/THEOREMS.md says
//! them in words.
ghost use Rattle.zb_model.specs.Play.{Schedule, stations};
ghost use Rattle.zb_model.specs.Schedules.{IsSchedule};
ghost use Rattle.zb_model.specs.Tools.{Tools};
ghost use Rattle.law_run.specs.Commanding.{OneCentre};
ghost use Rattle.law_run_text.specs.Alone.{AreWide, StandAlone};
ghost use Rattle.law_run_text.specs.OfNodes.{AreOfNodes};
ghost use Rattle.zb_trace_model.specs.Naming.{AreNamed};

/// States that each line of a transcript is of a declared node, or of no node.
///
/// A change whose line names no node is one of the centre's.
#[tactic(auto, using(crate::proofs::Lines::are_of_nodes))]
pub fn lines_of_a_run_are_of_its_nodes()
    ensures { (tools : Tools) → (w : Schedule) → IsSchedule w → OneCentre w → AreOfNodes tools w }
{}

/// States that the lines of a run are proper, and that no other proper lines have their text.
///
/// This asks three things of the run:
/// - Its nodes have names of their own.
/// - Its numbers are in the ranges of their fields.
/// - Its keys have 16 bytes.
#[tactic(auto, using(crate::proofs::Words::stand_alone))]
pub fn the_text_of_a_run_is_of_no_other_lines()
    ensures { (tools : Tools) → (w : Schedule) → IsSchedule w → OneCentre w → AreNamed (stations w) → AreWide tools w
        → StandAlone tools w }
{}
