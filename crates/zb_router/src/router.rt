//! The core of a router: the policy of its role.
ghost use Rattle.zb_model.specs.Data as model;

use crate::event::RouterEvent;
use zb_base::Role;
use zb_device::{NodeCore, Policy, PolicyCore, plan_member};
use zb_host::{Outcome, Plan};
use zb_node_types::Refusal;
use zb_seal::Term;

/// The policy of a router, which plans what it does.
pub struct RouterPolicy;

impl Policy for RouterPolicy {
    ghost of = { model.Router };

    fn role() -> Role {
        Role::Router
    }

    fn plan(node: &NodeCore, event: &RouterEvent, plan: &mut Plan<Outcome<Term, Refusal>>) {
        plan_member(node, event, plan);
    }
}

/// The core of a router, which decides what it does.
pub type Router = PolicyCore<RouterPolicy>;
