//! A whole record.
ghost use Rattle.std.specs.Prelude.{◌≡◌, ◌&&◌, ◌||◌, ◌==◌, not, [], map, nat_le, nat_lt};
ghost use Rattle.std.specs.Int.{w16, w32};
ghost use Rattle.zb_node_types.specs.Changes.{model_role, is_sending, model_state};
ghost use Rattle.zb_cursor.specs.Reading.{number_at};
ghost use Rattle.zb_model.specs.State.{is_centre};
ghost use Rattle.zb_record.specs.Fields.{rollover_at, state_at};
ghost use Rattle.zb_record.specs.Placed.{Answers, Gives, field, without_memory};
ghost use Rattle.zb_record.specs.Rows.{net_seen, link_seen, pair_seen};
ghost use Rattle.zb_record.specs.Records.{may_enter, may_roll, has_net_room, is_place, node_at, head_at, nets_at, record_at, record_read, record_seen, IsRecord};

use crate::field::{read_role, read_rollover, read_state};
use crate::link::{LinkRecord, read_links};
use crate::net::{NetRecord, read_nets};
use crate::pair::{PairRecord, read_pairs};
use crate::place::begin;
use crate::sender::read_all_floors;
use crate::version::{Version, read_version};
use std::alloc::Global;
use zb_base::{OrMemory, Role, Rollover, State};
use zb_cursor::Reader;

/// The first fields of a record, about its node.
#[derive(Clone, Copy, Debug, PartialEq, Eq)]
pub struct Node {
    /// The version of the record.
    pub version: Version,
    /// The node's role.
    pub role: Role,
    /// Its state.
    pub state: State,
}

/// The fields of a record before its rows.
#[derive(Clone, Copy, Debug, PartialEq, Eq)]
pub struct Head {
    /// The node.
    pub node: Node,
    /// The outgoing NWK counter of the first active network key; in the first version the one NWK limit.
    pub declared: u32,
    /// The outgoing APS limit.
    pub aps_limit: u32,
    /// The rollover.
    pub rolling: Rollover,
    /// How many network keys there are.
    pub nets: u16,
    /// The place of the active one, or 65,535 if there is none.
    pub active: u16,
}

/// What is read from a record.
#[derive(Debug, Drop)]
pub struct Record {
    /// The fields before the rows.
    pub head: Head,
    /// The network keys.
    pub nets: Vec<NetRecord>,
    /// The link keys.
    pub links: Vec<LinkRecord>,
    /// The keys of pairs of devices.
    pub pairs: Vec<PairRecord>,
}

/// Returns whether a node may have a state: the centre has only the first one.
fn may_enter(role: Role, state: State) -> bool
    ensures { result ≡ may_enter role state }
{
    !matches!(role, Role::Centre) || matches!(state, State::Fresh)
}

/// Returns whether a node may have a rollover: only the centre may send.
fn may_roll(role: Role, rolling: Rollover) -> bool
    ensures { result ≡ may_roll role rolling }
{
    matches!(rolling, Rollover::Idle) || matches!(role, Role::Centre)
}

/// Reads the state of a node.
fn read_its_state(reader: &mut Reader<usize>, role: Role) -> Result<State, usize>
    ensures { Gives (λ s. s) result reader.new.rest.now (field state_at (may_enter role) reader.old.rest.now) }
{
    let left = begin(reader);
    let state = read_state(reader)?;
    if may_enter(role, state) {
        Ok(state)
    } else {
        Err(left)
    }
}

/// Reads the rollover of a node.
fn read_its_rollover(reader: &mut Reader<usize>, role: Role) -> Result<Rollover, usize>
    ensures { Gives (λ r. r) result reader.new.rest.now (field rollover_at (may_roll role) reader.old.rest.now) }
{
    let left = begin(reader);
    let rolling = read_rollover(reader)?;
    if may_roll(role, rolling) {
        Ok(rolling)
    } else {
        Err(left)
    }
}

/// Reads the node.
#[tactic(auto, unfolding(crate::specs::Records::node_at))]
fn read_node(reader: &mut Reader<usize>) -> Result<Node, usize>
    ensures { Gives (λ n. n) result reader.new.rest.now (node_at reader.old.rest.now) }
{
    let _left = begin(reader);
    let version = read_version(reader)?;
    let _left = begin(reader);
    let role = read_role(reader)?;
    let state = read_its_state(reader, role)?;
    Ok(Node {
        version,
        role,
        state,
    })
}

/// Reads the number of network keys: 256 at most.
fn read_count(reader: &mut Reader<usize>) -> Result<u16, usize>
    ensures { Gives (λ n. n) result reader.new.rest.now (field (number_at w16) has_net_room reader.old.rest.now) }
{
    let left = begin(reader);
    let count = reader.number16()?;
    if count <= 256 { Ok(count) } else { Err(left) }
}

/// Reads the place of the active one of `nets` network keys.
fn read_place(reader: &mut Reader<usize>, nets: u16) -> Result<u16, usize>
    ensures { Gives (λ n. n) result reader.new.rest.now (field (number_at w16) (is_place nets) reader.old.rest.now) }
{
    let left = begin(reader);
    let place = reader.number16()?;
    if place == 65535 || place < nets {
        Ok(place)
    } else {
        Err(left)
    }
}

/// Reads the fields between the node and the rows.
#[tactic(auto, unfolding(crate::specs::Records::head_at))]
fn read_head(reader: &mut Reader<usize>, node: Node) -> Result<Head, usize>
    ensures { Gives (λ h. h) result reader.new.rest.now (head_at node reader.old.rest.now) }
{
    let _left = begin(reader);
    let declared = reader.number32()?;
    let _left = begin(reader);
    let aps_limit = reader.number32()?;
    let rolling = read_its_rollover(reader, node.role)?;
    let nets = read_count(reader)?;
    let active = read_place(reader, nets)?;
    Ok(Head {
        node,
        declared,
        aps_limit,
        rolling,
        nets,
        active,
    })
}

/// Returns the result of a call as that of one that may run out of memory.
fn or_memory<T: Drop>(answer: Result<T, usize>) -> Result<T, OrMemory<usize>>
    ensures { result ≡ without_memory answer }
{
    match answer {
        Ok(value) => Ok(value),
        Err(left) => Err(OrMemory::Fault(left)),
    }
}

/// Reads the network keys with their floors.
#[tactic(auto, unfolding(crate::specs::Records::nets_at))]
fn read_net_part(
    alloc: Global,
    reader: &mut Reader<usize>,
    head: Head,
) -> Result<Vec<NetRecord>, OrMemory<usize>>
    ensures { Answers (λ v. map net_seen v.items) result reader.new.rest.now (nets_at head reader.old.rest.now) }
{
    let mut rows = read_nets(
        alloc,
        reader,
        head.node.version,
        head.declared,
        head.nets,
        head.active,
    )?;
    match read_all_floors(reader, rows.as_mut_slice()) {
        Ok(()) => Ok(rows),
        Err(left) => Err(OrMemory::Fault(left)),
    }
}

/// Reads the record at the start.
#[tactic(auto, unfolding(crate::specs::Records::record_at))]
fn read_front(alloc: Global, reader: &mut Reader<usize>) -> Result<Record, OrMemory<usize>>
    ensures { Answers record_seen result reader.new.rest.now (record_at reader.old.rest.now) }
{
    let node = or_memory(read_node(reader))?;
    let head = or_memory(read_head(reader, node))?;
    let nets = read_net_part(alloc, reader, head)?;
    let links = read_links(alloc, reader, node.role)?;
    let pairs = read_pairs(alloc, reader, node.version, node.role)?;
    Ok(Record {
        head,
        nets,
        links,
        pairs,
    })
}

/// Reads a record of version 1, 2 or 3, which must be all of the bytes.
///
/// # Errors
/// - The length from the first byte of the first bad field to the end. A field is bad if it isn't whole or breaks a
///   rule. If a rule over several fields is broken, the last of them is bad. If bytes come after the record, it is
///   their number.
/// `NoMemory` if memory runs out.
#[tactic(auto, unfolding(crate::specs::Records::record_read))]
pub fn read_record(alloc: Global, bytes: &[u8]) -> Result<Record, OrMemory<usize>>
    ensures { IsRecord record_seen result (record_read bytes.now) }
{
    let mut reader = Reader {
        rest: bytes,
        cut: 0,
    };
    let record = read_front(alloc, &mut reader)?;
    if reader.rest.is_empty() {
        Ok(record)
    } else {
        Err(OrMemory::Fault(reader.rest.len()))
    }
}
