//! Laws of plans that are the policy's answers, as contracts of functions that do nothing.
ghost use Rattle.std.specs.Prelude.{◌≡◌, ◌≤◌};
ghost use Rattle.std.specs.List.{AllByRecursion};
ghost use Rattle.zb_core.specs.CorePlans.{CorePlan, IsCoreAfter};
ghost use Rattle.zb_model.specs.Answer.{answer, answered};
ghost use Rattle.zb_model.specs.Data.{Task};
ghost use Rattle.zb_model.specs.State.{shown};
ghost use Rattle.zb_model_real.specs.Real.{real};
ghost use Rattle.zb_plan.specs.Answers.{IsAnswer};
ghost use Rattle.zb_record.specs.Ranges.{InRange};
ghost use Rattle.zb_stored_tables.specs.Cores.{CoreValue};
ghost use Rattle.zb_stored_tables.specs.Stored.{IsKept, IsStorable};

/// States that a plan which is the policy's answer leads to what tables show of the state after that answer.
pub fn an_answer_leads_to_the_state_that_the_policy_says()
    ensures { (c d : CoreValue) (p : CorePlan) (task : Task) → IsAnswer p (answer real c.setting c.tables task)
        → IsCoreAfter c p d
        → d ≡ record {
          setting = c.setting;
          tables = shown (answered (answer real c.setting c.tables task) c.tables);
        } }
{}

/// States that a plan which is the policy's answer can be stored.
///
/// The tables are kept and are those of the node's role, the plan's values can be encoded, and an incoming block is 1
/// or more.
pub fn an_answer_can_be_stored()
    ensures { (c : CoreValue) (p : CorePlan) (task : Task) → c.tables.role ≡ c.setting.me.role → IsKept c.tables
        → AllByRecursion InRange p.changes.items → 1 ≤ c.setting.me.in_block
        → IsAnswer p (answer real c.setting c.tables task)
        → IsStorable c.setting.me.role c.tables p.changes.items }
{}
