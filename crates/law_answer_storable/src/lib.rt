//! All changes of an answer can be stored: each fits the state after those before it, they have room in an entry of
//! the journal, and the rules for records are kept after them. It is a crate of definitions (`specs/`), and its code
//! carries the laws.
#![tactic(auto)]

ghost use Rattle.std.specs.Prelude.{◌≡◌, ◌≤◌, true, length};
ghost use Rattle.std.specs.List.{list_all};
ghost use Rattle.zb_model.specs.Answer.{answer, answered};
ghost use Rattle.zb_model.specs.Data.{Task};
ghost use Rattle.zb_model.specs.Fits.{AllFit, keeps_rules};
ghost use Rattle.zb_model.specs.Record.{payload};
ghost use Rattle.zb_model.specs.Rules.{Setting};
ghost use Rattle.zb_model.specs.State.{NodeState, applied_all};
ghost use Rattle.zb_model.specs.Tools.{Tools};
ghost use Rattle.law_answer_storable.specs.Storing.{OpensAsJudged, has_whole_keys, payload_room};

/// States that each change of an answer fits the state after those before it.
///
/// The state keeps the rules for records, and its role is the setting's, by which the rules of the policy are chosen.
/// An incoming block is 1 or more, because a floor of 0 isn't kept. The outgoing block may be any. By its invariant,
/// a core keeps these three properties of its tables and its setting.
#[tactic(auto, using(crate::proofs::Answers::all_stored))]
pub fn changes_of_an_answer_fit()
    ensures { (tools : Tools) → OpensAsJudged tools → (c : Setting) (s : NodeState) (task : Task)
        → keeps_rules s ≡ true → s.role ≡ c.me.role → 1 ≤ c.me.in_block → AllFit (answer tools c s task).edits s }
{}

/// States that the rules for records are kept in the state after the changes of an answer.
#[tactic(auto, using(crate::proofs::Answers::kept_stored))]
pub fn the_rules_stand_after_an_answer()
    ensures { (tools : Tools) → OpensAsJudged tools → (c : Setting) (s : NodeState) (task : Task)
        → keeps_rules s ≡ true → s.role ≡ c.me.role → 1 ≤ c.me.in_block
        → keeps_rules (applied_all (answer tools c s task).edits s) ≡ true }
{}

/// States that the rules for records are kept after a whole answer: its changes, accepted terms and seals.
#[tactic(auto, using(crate::proofs::Answers::kept_answered))]
pub fn the_rules_stand_after_accepts_and_seals()
    ensures { (tools : Tools) → OpensAsJudged tools → (c : Setting) (s : NodeState) (task : Task)
        → keeps_rules s ≡ true → s.role ≡ c.me.role → 1 ≤ c.me.in_block
        → keeps_rules (answered (answer tools c s task) s) ≡ true }
{}

/// States that an answer has at most fourteen changes.
#[tactic(auto, using(crate::proofs::Answers::few_stored))]
pub fn an_answer_has_few_changes()
    ensures { (tools : Tools) → OpensAsJudged tools → (c : Setting) (s : NodeState) (task : Task)
        → keeps_rules s ≡ true → s.role ≡ c.me.role → length (answer tools c s task).edits ≤ 14 }
{}

/// States that the payload of an answer's changes has room in an entry of the journal.
///
/// The keys of the changes have 16 bytes.
#[tactic(auto, using(crate::proofs::Answers::short_stored))]
pub fn an_answer_has_room_in_an_entry()
    ensures { (tools : Tools) → OpensAsJudged tools → (c : Setting) (s : NodeState) (task : Task)
        → keeps_rules s ≡ true → s.role ≡ c.me.role
        → list_all has_whole_keys (answer tools c s task).edits ≡ true
        → length (payload (answer tools c s task).edits) ≤ payload_room }
{}
