//! Tables from a record.
ghost use Rattle.std.specs.Prelude.{◌≡◌, ◌≤◌, Err, Ok, IfOk, IfErr, length, map, vec_capacity};
ghost use Rattle.zb_base.specs.declared.fault.OrMemory.TheVariants.{Fault, NoMemory as lacks};
ghost use Rattle.zb_node_types.specs.Changes.{model_role};
ghost use Rattle.zb_node_types.specs.declared.fault.KeyError.TheVariants.{BadRecord};
ghost use Rattle.zb_record.specs.RowViews.{heard_floor, net_key, link_key, pair_key};
ghost use Rattle.zb_keys.specs.Tables.{state_of, IsRestored};
ghost use Rattle.zb_record.specs.Headings.{active_bytes};
ghost use Rattle.zb_model.specs.Fits.{most_links, most_nets, most_pairs, most_senders};
ghost use Rattle.zb_record.specs.Records.{key_of, record_read, record_seen, BadPlace};
ghost use Rattle.zb_record.specs.Rows.{sender_seen, net_seen, link_seen, pair_seen};

use crate::Tables;
use crate::contents::Contents;
use crate::redo::bad_record;
use arrayvec::ArrayVec;
use std::alloc::Global;
use zb_base::{Key, NoMemory, OrMemory, Role};
use zb_counter::Floor;
use zb_node_types::KeyError;
use zb_record::link_row::link_room;
use zb_record::net_row::Senders;
use zb_record::{
    LinkRecord, LinkRow, NetRecord, NetRow, Pair, PairRecord, Record, SenderFloor, SenderRecord,
    read_record,
};

/// Returns the floors of a record, as they are after a boot.
fn senders(records: &[SenderRecord]) -> Senders
    requires { length records.now ≤ most_senders }
    ensures { map heard_floor result.items ≡ map sender_seen records.now }
{
    let mut floors = ArrayVec::new();
    for source in records {
        floors.push(SenderFloor {
            sender: source.sender,
            kept: source.stored,
            stored: source.stored,
        });
    }
    floors
}

/// Returns a network key of a record, as it is after a boot: its counter goes on from its limit.
fn net_row(source: &NetRecord) -> NetRow
    ensures { net_key result ≡ net_seen source.now }
{
    NetRow {
        key: source.key,
        sequence: source.sequence,
        live: source.live,
        started: source.started,
        limit: source.limit,
        next: source.limit,
        floors: senders(source.floors.as_slice()),
    }
}

/// Returns the network keys of a record, with room for 256.
fn net_rows(alloc: Global, records: &[NetRecord]) -> Result<Vec<NetRow>, NoMemory>
    ensures rows { IfOk result (λ v. map net_key v.items ≡ map net_seen records.now) }
    ensures room { IfOk result (λ v. most_nets ≤ vec_capacity v) }
{
    let mut rows = Vec::with_capacity(alloc, 256)?;
    for source in records {
        rows.push(net_row(source))?;
    }
    Ok(rows)
}

/// Returns a link key of a record, as it is after a boot.
fn link_row(source: &LinkRecord) -> LinkRow
    ensures { link_key result ≡ link_seen source.now }
{
    LinkRow {
        partner: source.partner,
        key: source.key,
        attribute: source.attribute,
        live: source.live,
        code: source.code,
        told: source.told,
        floor: Floor {
            kept: source.stored,
            stored: source.stored,
        },
    }
}

/// Returns the link keys of a record, with room for all that a node may hold.
fn link_rows(alloc: Global, role: Role, records: &[LinkRecord]) -> Result<Vec<LinkRow>, NoMemory>
    ensures rows { IfOk result (λ v. map link_key v.items ≡ map link_seen records.now) }
    ensures room { IfOk result (λ v. most_links (model_role role) ≤ vec_capacity v) }
{
    let mut rows = Vec::with_capacity(alloc, link_room(role).max(records.len()))?;
    for source in records {
        rows.push_reserved(link_row(source));
    }
    Ok(rows)
}

/// Returns a key of two devices of a record.
fn pair_row(source: &PairRecord) -> Pair
    ensures { pair_key result ≡ pair_seen source.now }
{
    Pair {
        first: source.first,
        second: source.second,
        key: source.key,
    }
}

/// Returns the keys of pairs of devices of a record, with room for 256.
fn pair_rows(alloc: Global, records: &[PairRecord]) -> Result<Vec<Pair>, NoMemory>
    ensures rows { IfOk result (λ v. map pair_key v.items ≡ map pair_seen records.now) }
    ensures room { IfOk result (λ v. most_pairs ≤ vec_capacity v) }
{
    let mut rows = Vec::with_capacity(alloc, 256)?;
    for source in records {
        rows.push(pair_row(source))?;
    }
    Ok(rows)
}

/// Returns the key of the row at a place, where there is one.
fn key_at(rows: &[NetRow], place: u16) -> Option<Key>
    ensures { active_bytes result ≡ key_of place (map net_key rows.now) }
{
    match rows.get(usize::from(place)) {
        Some(row) => Some(row.key),
        None => None,
    }
}

/// Returns what a record represents.
fn contents_of(alloc: Global, source: &Record) -> Result<Contents, NoMemory>
    ensures { IfOk result (λ a. IsRestored a source.now) }
{
    let head = source.head;
    let nets = net_rows(alloc, source.nets.as_slice())?;
    let links = link_rows(alloc, head.node.role, source.links.as_slice())?;
    let pairs = pair_rows(alloc, source.pairs.as_slice())?;
    let active = key_at(nets.as_slice(), head.active);
    Ok(Contents {
        role: head.node.role,
        state: head.node.state,
        declared: head.declared,
        aps_limit: head.aps_limit,
        aps_next: head.aps_limit,
        rolling: head.rolling,
        nets,
        active,
        links,
        pairs,
    })
}

/// Returns the record of the bytes, or its fault as tables tell it.
fn record_of(alloc: Global, bytes: &[u8]) -> Result<Record, OrMemory<KeyError>>
    ensures found { IfOk result (λ r. record_read bytes.now ≡ Ok (record_seen r)) }
    ensures fault { IfErr result (λ e. BadPlace e (length bytes.now) (record_read bytes.now)) }
{
    match read_record(alloc, bytes) {
        Ok(record) => Ok(record),
        Err(OrMemory::Fault(left)) => Err(OrMemory::Fault(bad_record(bytes.len(), left))),
        Err(OrMemory::NoMemory) => Err(OrMemory::NoMemory),
    }
}

impl Tables {
    /// Reads the tables of a record of version 1, 2 or 3, as they are after a boot.
    ///
    /// Counters go on from their limits, and the floors are the stored ones. The tables have the room of `new`. The
    /// one NWK limit of a record of version 1 becomes that of each network key, which counts as started, and the
    /// declared start.
    ///
    /// # Errors
    /// `BadRecord` where the bytes are no record. Its place is the first byte of the first field that isn't whole or
    /// breaks a rule. A rule over several fields is broken by the last of them. Where bytes follow the record, the
    /// place is its end. `NoMemory` where memory is short.
    pub fn from_record(alloc: Global, bytes: &[u8]) -> Result<Tables, OrMemory<KeyError>>
        ensures found { IfOk result (λ t. record_read bytes.now ≡ Ok t) }
        ensures fault { IfErr result (λ e. BadPlace e (length bytes.now) (record_read bytes.now)) }
    {
        let record = record_of(alloc, bytes)?;
        match contents_of(alloc, &record) {
            Ok(contents) => Ok(Tables { contents }),
            Err(NoMemory) => Err(OrMemory::NoMemory),
        }
    }
}
