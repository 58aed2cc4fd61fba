//! The tables of a node before its first event, from what it is declared with.
ghost use Rattle.std.specs.Prelude.{◌≡◌, ◌≤◌, IfOk, Some, find, map, nat_eq, true, option_map, vec_capacity};
ghost use Rattle.zb_node_types.specs.Changes.{model_role, model_state};
ghost use Rattle.zb_record.specs.RowViews.{net_key, link_key};
ghost use Rattle.zb_record.specs.Headings.{active_bytes};
ghost use Rattle.zb_keys.specs.Declarations.{held_nets, held_links, held_state, joined_unless_centre, network_of, code_of, declared_state, first_state, same_eui, code_with};
ghost use Rattle.zb_model.specs.Play.{Node, Schedule, start, stations};
ghost use Rattle.zb_model.specs.Readings.{state_of};
ghost use Rattle.zb_model.specs.Fits.{all_apart, most_links, most_nets};
ghost use Rattle.zb_model.specs.Rules.{centre_of};
ghost use Rattle.zb_model.specs.State.{after_boot};

use crate::Tables;
use crate::contents::Contents;
use std::alloc::Global;
use zb_base::{Attribute, Eui, Key, NoMemory, Role, Rollover, State};
use zb_record::link_row::link_room;
use zb_record::{LinkRow, NetRow};

/// A network key with which a node begins.
#[derive(Clone, Copy, Debug, PartialEq, Eq)]
pub struct HeldNetwork {
    /// The key.
    pub key: Key,
    /// Its sequence number.
    pub sequence: u8,
}

/// The link key of an install code with which a node begins.
#[derive(Clone, Copy, Debug, PartialEq, Eq)]
pub struct HeldCode {
    /// With whom the key is shared.
    pub partner: Eui,
    /// The key.
    pub key: Key,
}

/// What a node is declared with.
#[derive(Clone, Copy, Debug, PartialEq, Eq)]
pub struct Declaration {
    /// The part that the node plays.
    pub role: Role,
    /// The network key that it has, which is active.
    pub network: Option<HeldNetwork>,
    /// The link key of its install code, which is provisional.
    pub code: Option<HeldCode>,
    /// Its outgoing NWK counters below this one are used up.
    pub nwk: u32,
    /// Its outgoing counters of the application support layer below this one are used up.
    pub aps: u32,
}

/// Makes the rows of network keys of a node that begins with one, or none.
fn held_nets(
    alloc: Global,
    network: Option<HeldNetwork>,
    start: u32,
) -> Result<Vec<NetRow>, NoMemory>
    ensures rows { IfOk result (λ v. map net_key v.items ≡ held_nets start (network_of network)) }
    ensures room { IfOk result (λ v. most_nets ≤ vec_capacity v) }
{
    let mut rows = Vec::with_capacity(alloc, 256)?;
    match network {
        Some(held) => rows.push(NetRow::given(held.key, held.sequence, start))?,
        None => {}
    }
    Ok(rows)
}

/// Makes the rows of link keys of a node that begins with one, or none.
fn held_links(alloc: Global, role: Role, code: Option<HeldCode>) -> Result<Vec<LinkRow>, NoMemory>
    ensures rows { IfOk result (λ v. map link_key v.items ≡ held_links (code_of code)) }
    ensures room { IfOk result (λ v. most_links (model_role role) ≤ vec_capacity v) }
{
    let mut rows = Vec::with_capacity(alloc, link_room(role))?;
    match code {
        Some(held) => rows.push(LinkRow::given(
            held.partner,
            held.key,
            Attribute::Provisional,
            false,
        ))?,
        None => {}
    }
    Ok(rows)
}

/// Returns the active key of a node that begins with one, or none.
fn held_key(network: Option<HeldNetwork>) -> Option<Key>
    ensures { active_bytes result ≡ option_map (λ given. given.0) (network_of network) }
{
    match network {
        Some(held) => Some(held.key),
        None => None,
    }
}

/// Returns the state in which a node begins: a router or device that has a network key is joined.
fn held_state(role: Role, network: Option<HeldNetwork>) -> State
    ensures { model_state result ≡ held_state (model_role role) (network_of network) }
{
    match network {
        Some(_) => joined_unless_centre(role),
        None => State::Fresh,
    }
}

/// Returns the state of a node that has a network key from the start.
fn joined_unless_centre(role: Role) -> State
    ensures { model_state result ≡ joined_unless_centre (model_role role) }
{
    match role {
        Role::Centre => State::Fresh,
        Role::Router => State::Joined,
        Role::Device => State::Joined,
    }
}

impl Tables {
    /// Makes the tables of a node before its first event, of which its first record is written.
    ///
    /// They are those that a boot leaves on that record.
    ///
    /// # Errors
    /// `NoMemory` where memory is short.
    pub fn from_declaration(alloc: Global, declaration: &Declaration) -> Result<Tables, NoMemory>
        ensures state { IfOk result (λ t. t ≡ declared_state declaration.now) }
        ensures booted { IfOk result (λ t. after_boot t ≡ t) }
    {
        let start = declaration.nwk;
        let nets = held_nets(alloc, declaration.network, start)?;
        let links = held_links(alloc, declaration.role, declaration.code)?;
        let pairs = Vec::with_capacity(alloc, 256)?;
        let contents = Contents {
            role: declaration.role,
            state: held_state(declaration.role, declaration.network),
            declared: start,
            aps_limit: declaration.aps,
            aps_next: declaration.aps,
            rolling: Rollover::Idle,
            nets,
            active: held_key(declaration.network),
            links,
            pairs,
        };
        Ok(Tables { contents })
    }
}

/// States that the start lines of a schedule give each node the state of its declarations; does nothing.
///
/// No two nodes have one EUI. The link key of an install code is shared with the centre.
#[tactic(auto, using(crate::proofs::DeclarationLemmas::start_gives))]
pub fn start_lines_give_the_first_state()
    ensures { (w : Schedule) (m : Node) → all_apart same_eui w.nodes ≡ true
        → find (λ x. nat_eq x.station.eui m.station.eui) w.nodes ≡ Some m
        → state_of (start w) m.station.eui ≡ first_state m.station.role m.network
        (code_with (centre_of (stations w)) m.code) m.start_nwk m.start_aps }
{}
