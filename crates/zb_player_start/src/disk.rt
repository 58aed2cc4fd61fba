//! The disk of each node, before its first boot.
ghost use Rattle.std.specs.Prelude.{◌≡◌, ◌<◌, ◌≤◌, ◌^◌, [], length, IfOk, IfSome, option_map};
ghost use Rattle.zb_disk.specs.Memory.{fresh, memory_view};
ghost use Rattle.zb_armed_host.specs.Arms.{IsUnarmed};
ghost use Rattle.zb_player_start.specs.Firsts.{IsFirstDisk, begins_with, model_node};
ghost use Rattle.zb_install.specs.Code.{code_key};
ghost use Rattle.zb_keys.specs.Declarations.{code_of, code_with, declared_state, network_of};
ghost use Rattle.zb_node_types.specs.Changes.{model_role};
ghost use Rattle.zb_record.specs.Ranges.{FitsBytes};
ghost use Rattle.zb_base.specs.Sizes.{record_room};
ghost use Rattle.zb_store.specs.Store.{IsHeld, formatted};

use std::alloc::Global;
use zb_armed_host::nothing_armed_stays;
use zb_base::{Eui, Key, NoMemory, Role};
use zb_disk::MemDisk;
use zb_keys::{Declaration, HeldCode, HeldNetwork, Tables};
use zb_sched::Node;
use zb_store::Store;

// Makes what a node holds of a network key.
fn held_network(key: Key, sequence: u8) -> HeldNetwork
    ensures held { result ≡ record { key = key; sequence = sequence } }
    ensures fits { length result.key.0 ≡ 16 }
{
    HeldNetwork { key, sequence }
}

// Returns the network key that a node holds.
fn network_of(node: &Node) -> Option<HeldNetwork>
    ensures held { network_of result ≡ option_map (λ held. (held.0.0, held.1)) node.now.network }
    ensures fits { IfSome result (λ held. length held.key.0 ≡ 16) }
{
    match &node.network {
        Some((key, sequence)) => Some(held_network(*key, *sequence)),
        None => None,
    }
}

// Returns the link key of a node's install code, which it shares with the centre.
fn code_of(centre: Eui, node: &Node) -> Option<HeldCode>
    ensures held { code_of result ≡ code_with centre.0 (option_map code_key node.now.code) }
    ensures fits { IfSome result (λ held. (held.partner.0 < 2 ^ 64) × (length held.key.0 ≡ 16)) }
{
    match &node.code {
        Some(code) => Some(HeldCode {
            partner: centre,
            key: code.link_key(),
        }),
        None => None,
    }
}

// Makes a declaration.
fn declared(
    role: Role,
    network: Option<HeldNetwork>,
    code: Option<HeldCode>,
    nwk: u32,
    aps: u32,
) -> Declaration
    requires network { IfSome network (λ held. length held.key.0 ≡ 16) }
    requires code { IfSome code (λ held. (held.partner.0 < 2 ^ 64) × (length held.key.0 ≡ 16)) }
    ensures is { result ≡ record { role = role; network = network; code = code; nwk = nwk; aps = aps } }
    ensures fits { FitsBytes (declared_state result) }
{
    Declaration {
        role,
        network,
        code,
        nwk,
        aps,
    }
}

// Returns what a node is declared with.
fn declaration_of(centre: Eui, node: &Node) -> Declaration
    ensures state { declared_state result ≡ begins_with centre.0 (model_node node.now) }
    ensures fits { FitsBytes (declared_state result) }
{
    declared(
        node.peer.role,
        network_of(node),
        code_of(centre, node),
        node.start_nwk,
        node.start_aps,
    )
}

// Returns an empty disk: a used one, made new, where there is one.
fn empty_disk(alloc: Global, used: Option<MemDisk>) -> Result<MemDisk, NoMemory>
    ensures { IfOk result (λ m. m ≡ fresh []) }
{
    match used {
        Some(mut disk) => {
            disk.renew();
            Ok(disk)
        }
        None => MemDisk::new(alloc, &[]),
    }
}

// Makes a disk on which a record stands, in five device calls. Requires at most `RECORD_ROOM` bytes.
fn disk_with(alloc: Global, used: Option<MemDisk>, first: &[u8]) -> Result<MemDisk, NoMemory>
    requires { length first.now ≤ record_room }
    ensures held { IfOk result (λ m. IsHeld (formatted first.now) (memory_view m)) }
    ensures unarmed { IfOk result (λ m. IsUnarmed m) }
    ensures calls { IfOk result (λ m. m.calls ≡ 5) }
{
    let mut disk = empty_disk(alloc, used)?;
    match Store::format(alloc, &mut disk, first) {
        Ok(_) => {
            nothing_armed_stays();
            Ok(disk)
        }
        Err(_) => Err(NoMemory),
    }
}

/// Makes a disk on which the first record of a node stands. Requires `RECORD_ROOM` bytes of room.
///
/// Where a used disk is given, that one is made new.
///
/// # Errors
/// `NoMemory`.
pub fn first_disk(
    alloc: Global,
    used: Option<MemDisk>,
    room: &mut [u8],
    centre: Eui,
    node: &Node,
) -> Result<MemDisk, NoMemory>
    requires { record_room ≤ length room.old }
    ensures { IfOk result
        (λ m. IsFirstDisk (model_role node.now.peer.role) (begins_with centre.0 (model_node node.now)) m) }
{
    let tables = Tables::from_declaration(alloc, &declaration_of(centre, node))?;
    tables.keep_rules();
    let len = tables.record_bytes(room) as usize;
    disk_with(alloc, used, &room[..len])
}
