//! What a node's tables show of its state is enough: they forget the floors of dropped network keys, and no answer
//! needs these. Each law is the contract of a function with an empty body.
#![tactic(auto)]

ghost use Rattle.std.specs.Prelude.{◌≡◌, ℕ, true, List};
ghost use Rattle.std.specs.List.{AllByRecursion};
ghost use Rattle.law_tables_suffice.specs.Along.{IsAsDeclared, IsRuled, NodesAllAlong, StartsAlone, euis_differ};
ghost use Rattle.law_tables_suffice.specs.Showing.{AreUnderLive, nets_differ};
ghost use Rattle.law_answer_storable.specs.Storing.{OpensAsJudged};
ghost use Rattle.zb_model.specs.Answer.{Answer, answer, answered, plan_of};
ghost use Rattle.zb_model.specs.Data.{Edit, Task};
ghost use Rattle.zb_model.specs.Fits.{keeps_rules};
ghost use Rattle.zb_model.specs.Lines.{Line};
ghost use Rattle.zb_model.specs.Play.{Schedule, start};
ghost use Rattle.zb_model.specs.Readings.{state_of};
ghost use Rattle.zb_model.specs.Rules.{Setting};
ghost use Rattle.zb_model.specs.Schedules.{IsSchedule, Names};
ghost use Rattle.zb_model.specs.State.{NodeState, after_boot, applied, applied_all, shown};
ghost use Rattle.zb_model.specs.Tools.{Tools};

/// States that every event has the same plan at a state and at what is shown of it.
///
/// That is the accepted terms, the refusal, the changes and what is sent, for every state.
pub fn what_is_shown_gives_the_plan()
    ensures { (tools : Tools) (c : Setting) (s : NodeState) (task : Task)
        → plan_of tools c (shown s) task ≡ plan_of tools c s task }
{}

/// States that every event has the same answer at a state and at what is shown of it.
///
/// The counters are the same too.
///
/// A floor is stored if the accepted counter has reached the stored floor. So the base keys of accepted NWK terms
/// must be live, because the floors of a dropped key aren't shown.
pub fn what_is_shown_gives_the_answer()
    ensures { (tools : Tools) (c : Setting) (s : NodeState) (task : Task)
        → AreUnderLive s (plan_of tools c s task).accepts
        → answer tools c (shown s) task ≡ answer tools c s task }
{}

/// States that accepted terms are under live network keys, in a state whose network rows have different keys.
pub fn accepted_terms_are_under_live_keys()
    ensures { (tools : Tools) → OpensAsJudged tools → (c : Setting) (s : NodeState) → nets_differ s ≡ true
        → (task : Task) → AreUnderLive s (plan_of tools c s task).accepts }
{}

/// States that no two network rows of a node have the same key, whatever lines say of it.
pub fn network_keys_differ_after_any_lines()
    ensures { (h : List Line) (n : ℕ) → nets_differ (state_of h n) ≡ true }
{}

/// States that no answer needs what tables forget, in the state that any lines give.
pub fn what_tables_forget_is_asked_by_none()
    ensures { (tools : Tools) → OpensAsJudged tools → (c : Setting) (h : List Line) (n : ℕ) (task : Task)
        → answer tools c (shown (state_of h n)) task ≡ answer tools c (state_of h n) task }
{}

/// States that what is shown after an answer depends only on what was shown before.
///
/// This is true for every answer and state, so also if an event drops the key under which its frame was accepted.
pub fn what_is_shown_goes_on()
    ensures answer { (a : Answer) (s : NodeState) → shown (answered a (shown s)) ≡ shown (answered a s) }
    ensures change { (e : Edit) (s : NodeState) → shown (applied e (shown s)) ≡ shown (applied e s) }
    ensures changes { (es : List Edit) (s : NodeState) → shown (applied_all es (shown s)) ≡ shown (applied_all es s) }
    ensures boot { (s : NodeState) → after_boot (shown s) ≡ shown (after_boot s) }
    ensures again { (s : NodeState) → shown (shown s) ≡ shown s }
{}

/// States that before each event of a run its node is as it was declared.
///
/// It has its EUI and its role, and its blocks aren't empty. This asks that no two nodes of the schedule have one
/// EUI.
pub fn nodes_are_as_declared_all_along()
    ensures { (tools : Tools) (w : Schedule) → IsSchedule w → euis_differ w ≡ true
        → NodesAllAlong IsAsDeclared tools w }
{}

/// States that of all start lines of a run, only a node's own say what it is.
pub fn nodes_start_by_their_own_lines()
    ensures { (w : Schedule) → euis_differ w ≡ true → AllByRecursion (StartsAlone w) w.nodes }
{}

/// States that each declared node starts in a state that keeps the rules for records.
pub fn nodes_start_by_the_rules()
    ensures { (w : Schedule) → IsSchedule w → euis_differ w ≡ true → (n : ℕ) → Names w n
        → keeps_rules (state_of (start w) n) ≡ true }
{}

/// States that before each event of a run its node's state keeps the rules for records.
///
/// In this state all changes of an answer fit (law_answer_storable).
pub fn states_keep_the_rules_all_along()
    ensures { (tools : Tools) → OpensAsJudged tools → (w : Schedule) → IsSchedule w → euis_differ w ≡ true
        → NodesAllAlong IsRuled tools w }
{}
