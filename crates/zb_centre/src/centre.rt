//! The core of the trust centre: the policy of its role.
ghost use Rattle.zb_model.specs.Data as model;

use crate::event::CentreEvent;
use crate::planning::plan_centre;
use zb_base::Role;
use zb_core::{NodeCore, Policy, PolicyCore};
use zb_host::{Outcome, Plan};
use zb_node_types::Refusal;
use zb_seal::Term;

/// Plans what the trust centre does.
pub struct CentrePolicy;

impl Policy for CentrePolicy {
    ghost of = { model.Centre };

    fn role() -> Role {
        Role::Centre
    }

    fn plan(node: &NodeCore, event: &CentreEvent, plan: &mut Plan<Outcome<Term, Refusal>>) {
        plan_centre(node, event, plan);
    }
}

/// Decides what the trust centre does.
pub type Centre = PolicyCore<CentrePolicy>;
