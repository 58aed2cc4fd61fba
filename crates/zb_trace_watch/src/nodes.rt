//! The nodes that a transcript has declared so far.
ghost use Rattle.std.specs.Prelude.{◌≡◌, ◌++◌, ◌∷◌, [], ℕ, List, Some, OnOk, if◌then◌else◌, None, bytes_eq, nat_eq, ◌<◌, ◌^◌};
ghost use Rattle.std.specs.Option.{option_map, option_or};
ghost use Rattle.arrayvec.specs.ArrayString.{ArrayString};
ghost use Rattle.zb_model.specs.Data.{Station};
ghost use Rattle.zb_model.specs.State.{is_centre};
ghost use Rattle.zb_node_types.specs.Changes.{model_role};
ghost use Rattle.zb_base.specs.declared.address.Eui.{Eui as AnyEui};
ghost use Rattle.zb_trace_watch.specs.Nodes.{address_in, address_of, is_first_centre, is_joiner, role_in, who_is, IsOf, Declares};

use crate::speaker::Speaker;
use std::alloc::{AllocError, Global};
use std::collections::BTreeMap;
use zb_base::{Eui, Name, Role};

/// The declared nodes, as far as the two words need them. If two have one name or one EUI, the first counts.
#[derive(Drop)]
pub struct Nodes {
    /// The EUI of the first node of each name.
    pub addresses: BTreeMap<Name, Eui>,
    /// The role of the first node of each EUI.
    pub roles: BTreeMap<Eui, Role>,
    /// The EUI of the first centre.
    pub centre: Option<Eui>,
}

impl Nodes {
    /// Makes the state before any node is declared.
    pub fn new(alloc: Global) -> Nodes
        ensures { Declares result [] }
    {
        Nodes {
            addresses: BTreeMap::new(alloc),
            roles: BTreeMap::new(alloc),
            centre: None,
        }
    }

    /// Returns the speaker that the first node of that name is.
    pub fn who(&self, name: &Name) -> Speaker
        ensures { result ≡ who_is self.now name.now }
    {
        let node = self.named(name);
        Speaker {
            number: number(node),
            joiner: number(self.joiner(node)),
            address: node,
            is_centre: self.is_centre(node),
        }
    }

    /// Returns the EUI of the first node of that name.
    fn named(&self, name: &Name) -> Option<Eui>
        ensures { result ≡ address_of self.now name.now }
    {
        self.addresses.get(name).copied()
    }

    /// Returns the node, if it is a router or device.
    fn joiner(&self, node: Option<Eui>) -> Option<Eui>
        ensures { result ≡ (if is_joiner self.now node then node else None) }
    {
        if self.joins(node) { node } else { None }
    }

    fn joins(&self, node: Option<Eui>) -> bool
        ensures { result ≡ is_joiner self.now node }
    {
        match node {
            Some(eui) => self.has_joiner(eui),
            None => false,
        }
    }

    fn has_joiner(&self, eui: Eui) -> bool
        ensures { result ≡ is_joiner self.now (Some eui) }
    {
        match self.roles.get(&eui) {
            Some(role) => *role != Role::Centre,
            None => false,
        }
    }

    /// Returns whether a node is the first centre.
    fn is_centre(&self, node: Option<Eui>) -> bool
        ensures { result ≡ is_first_centre self.now.centre node }
    {
        match (self.centre, node) {
            (Some(centre), Some(eui)) => centre == eui,
            _ => false,
        }
    }

    /// Adds a declared node.
    ///
    /// # Errors
    /// `AllocError`, if memory runs out.
    pub fn add(&mut self, name: Name, eui: Eui, role: Role) -> Result<(), AllocError>
        ensures { OnOk result ((known : List Station) (station : Station) → IsOf station name.bytes eui.0 role
            → Declares self.old known → Declares self.new (known ++ station ∷ [])) }
    {
        name_it(&mut self.addresses, name, eui)?;
        give_role(&mut self.roles, eui, role)?;
        self.centre = first_centre(self.centre, eui, role);
        Ok(())
    }
}

/// Returns the number of an EUI, if there is one.
fn number(address: Option<Eui>) -> Option<u64>
    ensures { result ≡ option_map (λ (e : AnyEui). e.0) address }
{
    match address {
        Some(eui) => Some(eui.0),
        None => None,
    }
}

/// Returns the centre, if it was declared before or is this node.
fn first_centre(before: Option<Eui>, eui: Eui, role: Role) -> Option<Eui>
    ensures first { result ≡ option_or before (if is_centre (model_role role) then Some eui else None) }
    ensures somebody { eui.0 < 2 ^ 64 }
{
    match before {
        Some(centre) => Some(centre),
        None if role == Role::Centre => Some(eui),
        None => None,
    }
}

/// Notes the EUI of a name, if none is noted yet.
fn name_it(addresses: &mut BTreeMap<Name, Eui>, name: Name, eui: Eui) -> Result<(), AllocError>
    ensures { OnOk result ((q : ArrayString)
        → address_in addresses.new q
        ≡ option_or (address_in addresses.old q) (if bytes_eq name.bytes q.bytes then Some eui else None)) }
{
    if !addresses.contains_key(&name) {
        addresses.insert(name, eui)?;
    }
    Ok(())
}

/// Notes the role of an EUI, if none is noted yet.
fn give_role(roles: &mut BTreeMap<Eui, Role>, eui: Eui, role: Role) -> Result<(), AllocError>
    ensures { OnOk result ((q : ℕ)
        → role_in roles.new q ≡ option_or (role_in roles.old q) (if nat_eq q eui.0 then Some role else None)) }
{
    if !roles.contains_key(&eui) {
        roles.insert(eui, role)?;
    }
    Ok(())
}
