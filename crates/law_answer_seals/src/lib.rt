//! What an answer seals uses the next counters of the state after its changes and accepted terms. It is a crate of
//! definitions (`specs/`), and its code carries the laws: each is the contract of a function with an empty body.
#![tactic(auto)]

ghost use Rattle.std.specs.Prelude.{◌≡◌, ◌<◌, ◌≤◌, ◌++◌, List};
ghost use Rattle.std.specs.List.{AllByRecursion};
ghost use Rattle.zb_model.specs.Answer.{accepted_all, answer, sealed_all};
ghost use Rattle.zb_model.specs.Data.{Edit, Task, Term};
ghost use Rattle.zb_model.specs.Rules.{Setting};
ghost use Rattle.zb_model.specs.State.{NodeState, after_boot, applied, greatest_counter, shown};
ghost use Rattle.zb_model.specs.Tools.{Tools};
ghost use Rattle.law_answer_seals.specs.Sealing.{AreHeard, AreSeals, IsWithinLimits, SealsNext, SealsReserved, before_seals};
ghost use Rattle.law_answer_storable.specs.Storing.{OpensAsJudged};

/// States that an answer's seals use the next counters of the state after its changes and accepted terms.
///
/// This is true of every state. It doesn't matter which key the answer makes active, drops or gives its first
/// counter: the seal at NWK is under the key that was active before.
#[tactic(auto, using(crate::proofs::Next::answer_next))]
pub fn an_answer_seals_with_the_next_counters()
    ensures { (tools : Tools) (c : Setting) (s : NodeState) (task : Task)
        → SealsNext (before_seals (answer tools c s task) s) (answer tools c s task).seals }
{}

/// States that the counters of an answer's seals are below the limits that are stored by then.
///
/// This asks that no next counter is above its limit before, and that a block is 1 or more: then a reserve makes
/// room.
#[tactic(auto, using(crate::proofs::Room::answer_reserved))]
pub fn an_answer_seals_with_reserved_counters()
    ensures { (tools : Tools) (c : Setting) (s : NodeState) (task : Task) → IsWithinLimits s → 1 ≤ c.me.out_block
        → SealsReserved (before_seals (answer tools c s task) s) (answer tools c s task).seals }
{}

/// States that no next counter passes its limit in an answer: not by its changes, accepted terms and seals.
///
/// A boot sets each counter to its limit, so this is true from then on. A counter doesn't pass its limit either by a
/// single change, for example when a journal is read, or by what tables forget.
#[tactic(auto, using(crate::proofs::Limits::limits_stand))]
pub fn no_counter_passes_its_limit()
    ensures answer { (tools : Tools) (c : Setting) (s : NodeState) (task : Task)
        → IsWithinLimits s → 1 ≤ c.me.out_block
        → IsWithinLimits (sealed_all (answer tools c s task).seals (before_seals (answer tools c s task) s)) }
    ensures change { (e : Edit) (s : NodeState) → IsWithinLimits s → IsWithinLimits (applied e s) }
    ensures memory { (s : NodeState) → IsWithinLimits s → IsWithinLimits (shown s) }
    ensures boot { (s : NodeState) → IsWithinLimits (after_boot s) }
{}

/// States that an answer seals at most one term of APS and then one of NWK.
///
/// The NWK term is under the key that was active before. Both have the node itself as their source.
#[tactic(auto, using(crate::proofs::SealLayers::answer_seals))]
pub fn an_answer_seals_once_at_each_layer()
    ensures { (tools : Tools) (c : Setting) (s : NodeState) (task : Task)
        → AreSeals c s (answer tools c s task).seals }
{}

/// States that an answer accepts at most one term of NWK and then one of APS.
///
/// Their counters are below the greatest.
#[tactic(auto, using(crate::proofs::Heard::answer_hears, crate::proofs::Heard::answer_below_last))]
pub fn an_answer_accepts_once_at_each_layer()
    ensures layers { (tools : Tools) → OpensAsJudged tools → (c : Setting) (s : NodeState) (task : Task)
        → AreHeard (answer tools c s task).accepts }
    ensures below_last { (tools : Tools) → OpensAsJudged tools → (c : Setting) (s : NodeState) (task : Task)
        → AllByRecursion (λ (t : Term). t.counter < greatest_counter) (answer tools c s task).accepts }
{}

/// States that terms may be accepted and sealed in two parts, one after the other.
///
/// These are the terms of one layer and then those of the other.
#[tactic(auto, using(crate::proofs::InParts::parts))]
pub fn terms_go_in_parts()
    ensures next { (first second : List Term) (s : NodeState) → SealsNext s (first ++ second)
        → SealsNext s first × SealsNext (sealed_all first s) second }
    ensures sealed { (first second : List Term) (s : NodeState)
        → sealed_all (first ++ second) s ≡ sealed_all second (sealed_all first s) }
    ensures accepted { (first second : List Term) (s : NodeState)
        → accepted_all (first ++ second) s ≡ accepted_all second (accepted_all first s) }
{}
