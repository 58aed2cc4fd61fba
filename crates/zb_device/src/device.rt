//! The core of a device: the policy of its role.
ghost use Rattle.zb_model.specs.Data as model;

use crate::event::DeviceEvent;
use crate::member::plan_member;
use zb_base::Role;
use zb_core::{NodeCore, Policy, PolicyCore};
use zb_host::{Outcome, Plan};
use zb_node_types::Refusal;
use zb_seal::Term;

/// Plans what a device does.
pub struct DevicePolicy;

impl Policy for DevicePolicy {
    ghost of = { model.Device };

    fn role() -> Role {
        Role::Device
    }

    fn plan(node: &NodeCore, event: &DeviceEvent, plan: &mut Plan<Outcome<Term, Refusal>>) {
        plan_member(node, event, plan);
    }
}

/// Decides what a device does.
pub type Device = PolicyCore<DevicePolicy>;
