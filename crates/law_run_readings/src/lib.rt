//! The lines of a run say of its nodes what their states say, if the last line about a thing decides. Each law is the
//! contract of a function with an empty body; docs/THEOREMS.md says them in words.
#![tactic(auto)]

ghost use Rattle.std.specs.Prelude.{◌≡◌, ℕ, List, [], None, false, true};
ghost use Rattle.zb_model.specs.Data.{Bytes};
ghost use Rattle.zb_model.specs.Lines.{Line};
ghost use Rattle.zb_model.specs.Play.{Schedule};
ghost use Rattle.zb_model.specs.Readings.{state_of};
ghost use Rattle.zb_model.specs.State.{is_live};
ghost use Rattle.zb_model.specs.Schedules.{IsSchedule};
ghost use Rattle.zb_model.specs.Tools.{Tools};
ghost use Rattle.law_run.specs.Opening.{Opens};
ghost use Rattle.law_run_readings.specs.Agreeing.{RunAgrees};
ghost use Rattle.law_run_readings.specs.RowLines.{keys_of, link_of_state, link_says, live, names_key, names_row, net_of_state, net_says, role, rolls, rows_of, said_own};
ghost use Rattle.law_tables_suffice.specs.Along.{euis_differ};
ghost use Rattle.law_answer_storable.specs.Storing.{OpensAsJudged};

/// States that the lines of a run say what the states of its nodes say.
///
/// This is so after its start and after each whole group.
///
/// The last line about a thing decides: about the active network key, the stored limits and floors, the network and
/// link rows, and which devices the centre told of a rollover. If the node has power, it decides the next counters
/// and the floors in memory too. No two nodes of the schedule have one EUI.
#[tactic(auto, using(crate::proofs::Agreed::run_agrees))]
pub fn lines_of_a_run_say_what_its_states_say()
    ensures { (tools : Tools) → Opens tools → OpensAsJudged tools → (w : Schedule) → IsSchedule w
        → euis_differ w ≡ true → RunAgrees tools w }
{}

/// States that the last line about each of a node's rows, and about its rollover, decides.
///
/// This is true for any lines and any node, and about:
/// - which network keys have rows, in which order, and whether each is live
/// - which link rows there are, in which order, the attribute of each, and whether it is live
/// - whether a device is live
/// - the node's role
/// - whether a rollover is under way
#[tactic(auto, using(crate::proofs::OwnLines::rows_decide))]
pub fn the_last_line_about_a_row_decides()
    ensures rolling { (h : List Line) (n : ℕ) → (state_of h n).sending ≡ said_own rolls false h n }
    ensures order { (h : List Line) (n : ℕ) → keys_of (state_of h n) ≡ said_own names_key [] h n }
    ensures networks { (h : List Line) (n : ℕ) (key : Bytes)
        → net_of_state key (state_of h n) ≡ said_own (net_says key) None h n }
    ensures rows { (h : List Line) (n : ℕ) → rows_of (state_of h n) ≡ said_own names_row [] h n }
    ensures links { (h : List Line) (n : ℕ) (partner : ℕ) (key : Bytes)
        → link_of_state partner key (state_of h n) ≡ said_own (link_says partner key) None h n }
    ensures lives { (h : List Line) (n device : ℕ) → live h n device ≡ is_live (state_of h n) device }
    ensures role { (h : List Line) (n : ℕ) → role h n ≡ (state_of h n).role }
{}
