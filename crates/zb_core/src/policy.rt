//! The core of a node, over the policy of its role: the one part in which the roles differ.
ghost use Rattle.std.specs.Prelude.{◌≡◌};
ghost use Rattle.zb_event.specs.Events.{task_of};
ghost use Rattle.zb_core.specs.PlanLaws.{core_plan_adds, core_plan_idle, core_plan_keeps, core_plan_short};
ghost use Rattle.zb_core.specs.CorePlans.{IsCoreAfter, IsCorePlan};
ghost use Rattle.zb_model.specs.Answer.{answer};
ghost use Rattle.zb_model.specs.Data as model;
ghost use Rattle.zb_model.specs.Record.{payload, record_of};
ghost use Rattle.zb_model_real.specs.Real.{real};
ghost use Rattle.zb_node_types.specs.Changes.{edits, model_role};
ghost use Rattle.zb_plan.specs.Answers.{IsAnswer};
ghost use Rattle.zb_stored_tables.proofs.CoreValues.{value_newest};
ghost use Rattle.zb_stored_tables.specs.Cores.{IsBooted, IsOfRole};
ghost use Rattle.zb_stored_tables.specs.Stored.{restored};

use crate::node::NodeCore;
use std::alloc::Global;
use std::marker::{Model, PhantomData};
use zb_base::{Config, OrMemory, Role};
use zb_event::NodeEvent;
use zb_host::{Core, Outcome, Plan};
use zb_node_types::{Changes, KeyError, Refusal};
use zb_seal::Term;
use zb_stored_tables::change_bytes;

/// Plans what a node of one role does at its events.
pub trait Policy {
    /// The role.
    ghost of: { model.Role };

    /// Returns the role.
    fn role() -> Role
        ensures { model_role result ≡ of };

    /// Writes the plan of an event in place of the plan that was there. Requires a node of the role.
    fn plan(node: &NodeCore, event: &NodeEvent, plan: &mut Plan<Outcome<Term, Refusal>>)
        requires { node.now.setting.me.role ≡ of }
        ensures { IsAnswer plan.new (answer real node.now.setting node.now.tables (task_of event.now)) };
}

/// Decides what a node does by the policy of its role.
///
/// A contract sees it as its setting and its tables.
#[derive(Drop)]
pub struct PolicyCore<P: Policy> {
    node: NodeCore,
    policy: PhantomData<P>,
}

impl<P: Policy> Model for PolicyCore<P> {
    ghost use Rattle.std.specs.Prelude.{◌≡◌};
    ghost use Rattle.zb_stored_tables.specs.Cores.{CoreValue};

    ghost Value = { CoreValue };

    ghost view = { λ c. c.node };

    ghost invariant = { λ c. c.node.setting.me.role ≡ P.of };
}

impl<P: Policy> Core for PolicyCore<P> {
    type Event = NodeEvent;

    type Out = Outcome<Term, Refusal>;

    ghost recorded = { λ c. record_of c.tables };

    ghost is_plan = { IsCorePlan P.of };

    ghost is_after = { IsCoreAfter };

    ghost payload = { λ changes. payload (edits changes) };

    ghost restored = { restored P.of };

    ghost is_of_role = { IsOfRole P.of };

    ghost is_booted = { IsBooted P.of };

    fn plan(&self, event: &NodeEvent, plan: &mut Plan<Outcome<Term, Refusal>>) {
        P::plan(&self.node, event, plan);
        self.node.keep(plan);
    }

    fn apply(&mut self, plan: &Plan<Outcome<Term, Refusal>>) {
        self.node.apply(plan);
    }

    fn record(&self, into: &mut [u8]) -> u32 {
        self.node.record(into)
    }

    fn change_bytes(changes: &Changes, into: &mut [u8]) -> u32 {
        change_bytes(changes, into)
    }

    fn restore(
        alloc: Global,
        config: &Config,
        content: &[u8],
        payloads: &[u8],
    ) -> Result<PolicyCore<P>, OrMemory<KeyError>> {
        let node = NodeCore::restore(alloc, P::role(), config, content, payloads)?;
        Ok(PolicyCore {
            node,
            policy: PhantomData,
        })
    }

    ghost short = { core_plan_short P.of };

    ghost adds = { core_plan_adds P.of };

    ghost keeps = { core_plan_keeps P.of };

    ghost newest = { value_newest };

    ghost idle = { core_plan_idle P.of };
}

impl<P: Policy> PolicyCore<P> {
    /// Returns what the node has: its network, tables and base keys.
    pub fn node(&self) -> &NodeCore
        ensures { result.now ≡ self.now }
    {
        &self.node
    }
}
