//! The laws on the nodes of a run, for each schedule that a text gives, with no premise left. Its nodes have
//! different EUIs, and real frames open to the values by which they were verified.
#![tactic(auto)]

ghost use Rattle.std.specs.Prelude.{◌≡◌, ℕ, Ok, Option, true};
ghost use Rattle.zb_model_real.specs.Real.{real};
ghost use Rattle.law_real_nodes.specs.Refusing.{RefusedFor, why_app_request, why_confirm, why_request, why_verify};
ghost use Rattle.law_real_nodes.specs.Sound.{NodesAreSound};
ghost use Rattle.law_run_readings.specs.Agreeing.{RunAgrees};
ghost use Rattle.law_schedules.specs.Schedules.{schedule_of};
ghost use Rattle.law_tables_suffice.specs.Along.{euis_differ};
ghost use Rattle.law_answer_storable.specs.Storing.{OpensAsJudged};
ghost use Rattle.zb_model.specs.Commands.{Heard, take_app_request, take_confirm, take_request, take_verify};
ghost use Rattle.zb_model.specs.Data.{Bytes};
ghost use Rattle.zb_model.specs.Rules.{Setting};
ghost use Rattle.zb_model.specs.State.{NodeState};
ghost use Rattle.zb_model.specs.Tools.{Tools};
ghost use Rattle.zb_sched.specs.Reading.{schedule_in};
ghost use Rattle.zb_sched.specs.Schedules.{Schedule};
ghost use Rattle.zb_sched.specs.Valid.{IsSchedule};

use law_schedules::texts_read_as_schedules;
use law_tables_suffice::nodes_start_by_their_own_lines;

/// States that no two nodes of a schedule have one EUI, as the model states it.
///
/// So the laws over runs that have it as a premise apply to each schedule.
pub fn nodes_have_different_euis()
    ensures { (p : Schedule) → IsSchedule p → euis_differ (schedule_of p) ≡ true }
{}

/// States that a real frame opens to a term with the values by which it was verified.
///
/// They are its layer, its base key, its source and its counter.
pub fn real_frames_open_as_they_are_judged()
    ensures { OpensAsJudged real }
{}

/// States that the nodes of each schedule start by their own lines and by the rules, and stay sound.
///
/// Before each event:
/// - Its node is as it was declared, keeps the rules for records, and has a newest network key if it has an active
///   one.
/// - No rule of it refuses because something is missing that is always there.
/// - What any node would send may be sealed.
pub fn nodes_are_sound_in_each_run()
    ensures { (p : Schedule) → IsSchedule p → NodesAreSound (schedule_of p) }
{
    nodes_start_by_their_own_lines();
}

/// States that in each schedule's run the last line about a thing says what the nodes' states say.
///
/// This is true after the start and after each whole group: for the active network key, the stored limits and floors,
/// and the next counters if the node has power.
#[tactic(auto, using(crate::proofs::Readings::agrees))]
pub fn lines_of_each_run_agree()
    ensures { (p : Schedule) → IsSchedule p → RunAgrees real (schedule_of p) }
{}

/// States that the nodes of each text that is a schedule are sound in its run.
pub fn nodes_are_sound_in_each_text(text: &[u8])
    ensures { (p : Schedule) → schedule_in text.now ≡ Ok p → NodesAreSound (schedule_of p) }
{
    texts_read_as_schedules(text);
    nodes_are_sound_in_each_run();
}

/// States that the rules of four commands refuse only for what they test, in every state.
///
/// Each finds the row that it looks for, because that row passed a test before it.
pub fn commands_find_the_rows_that_they_tested()
    ensures confirm { (c : Setting) (s : NodeState) (m : Heard) (status kind destination : ℕ)
        → RefusedFor (why_confirm c s m) (take_confirm c s m status kind destination) }
    ensures request { (c : Setting) (s : NodeState) (m : Heard) (draw : Option Bytes)
        → RefusedFor (why_request c s m) (take_request c s m draw) }
    ensures app_request { (c : Setting) (s : NodeState) (m : Heard) (draw : Option Bytes) (partner : ℕ)
        → RefusedFor (why_app_request c s m partner) (take_app_request c s m draw partner) }
    ensures verify { (tools : Tools) (c : Setting) (s : NodeState) (m : Heard) (kind device : ℕ) (hash : Bytes)
        → RefusedFor (why_verify tools s device hash) (take_verify tools c s m kind device hash) }
{}
