//! Writing the record of a node: what a disk keeps of its tables, version 3.
ghost use Rattle.std.specs.Prelude.{◌≡◌, ◌+◌, ◌*◌, ◌<◌, ◌≤◌, ◌++◌, [], ◌∷◌, ℕ, length, take, filter, map, if◌then◌else◌};
ghost use Rattle.std.specs.List.{flat_map};
ghost use Rattle.zb_node_types.specs.Changes.{model_role, model_state, is_sending};
ghost use Rattle.zb_record.specs.Headings.{place_in, state_written};
ghost use Rattle.zb_record.specs.RowViews.{net_key, link_key, pair_key, heard_floor};
ghost use Rattle.zb_base.specs.Sizes.{record_room};
ghost use Rattle.zb_record.specs.Sizes.{greatest_record, floors_room, nets_room, links_room, pairs_room};
ghost use Rattle.zb_record.specs.Written.{Writes};
ghost use Rattle.zb_model.specs.Record.{record_of, place_from, role_byte, state_byte, two_bytes, four_bytes, eight_bytes, net_bytes, sender_bytes, floors_bytes, link_bytes, pair_bytes, worth, no_place};
ghost use Rattle.zb_model.specs.Fits.{most_nets, most_centre_links, most_pairs};

use crate::link_row::LinkRow;
use crate::net_row::{NetRow, SenderFloor, Senders};
use crate::pair_row::Pair;
use crate::payload::{attribute_byte, put_eui_number, put_number64, rollover_byte, state_byte};
use crate::writing::{put, worth};
use zb_base::{Key, Role, Rollover, State};

/// The fields of a record before its rows, as they are written.
#[derive(Clone, Copy, Debug, PartialEq, Eq)]
pub struct Heading {
    /// The node's role.
    pub role: Role,
    /// Its state.
    pub state: State,
    /// The outgoing NWK counter of the first active network key.
    pub declared: u32,
    /// The outgoing APS limit.
    pub aps_limit: u32,
    /// The rollover.
    pub rolling: Rollover,
    /// The active network key.
    pub active: Option<Key>,
}

/// Returns the byte of a role.
pub fn role_byte(role: Role) -> u8
    ensures { result ≡ role_byte (model_role role) }
{
    match role {
        Role::Centre => 0,
        Role::Router => 1,
        Role::Device => 2,
    }
}

/// Writes a network key: key 16, sequence 1, flags 1 (bit 0 live, bit 1 started), limit 4.
fn put_net(into: &mut [u8], at: usize, row: &NetRow) -> usize
    requires { at + 22 ≤ length into.old }
    ensures writes { Writes into.old into.new at result (net_bytes (net_key row.now)) }
    ensures short { result ≤ at + 22 }
{
    let flags = worth(1, row.live) + worth(2, row.started);
    let at = put(into, at, &row.key.0);
    let at = put(into, at, &[row.sequence, flags]);
    put(into, at, &row.limit.to_le_bytes())
}

/// Writes the network keys.
fn put_nets(into: &mut [u8], at: usize, rows: &[NetRow]) -> usize
    requires { at + 22 * length rows.now ≤ length into.old }
    ensures writes { Writes into.old into.new at result (flat_map net_bytes (map net_key rows.now)) }
    ensures short { result ≤ at + 22 * length rows.now }
{
    let mut end = at;
    for row in rows {
        end = put_net(into, end, row);
    }
    end
}

/// Writes a sender's floor: its EUI 8, its stored floor 4.
fn put_sender(into: &mut [u8], at: usize, floor: &SenderFloor) -> usize
    requires { at + 12 ≤ length into.old }
    ensures writes { Writes into.old into.new at result (sender_bytes (heard_floor floor.now)) }
    ensures short { result ≤ at + 12 }
{
    put_eui_number(into, at, floor.sender, floor.stored)
}

/// Writes senders' floors.
fn put_senders(into: &mut [u8], at: usize, floors: &[SenderFloor]) -> usize
    requires { at + 12 * length floors.now ≤ length into.old }
    ensures writes { Writes into.old into.new at result (flat_map sender_bytes (map heard_floor floors.now)) }
    ensures short { result ≤ at + 12 * length floors.now }
{
    let mut end = at;
    for floor in floors {
        end = put_sender(into, end, floor);
    }
    end
}

/// Writes the floors under a network key: their number 1, and each of them.
fn put_floors(into: &mut [u8], at: usize, floors: &Senders) -> usize
    requires { at + floors_room ≤ length into.old }
    ensures writes { Writes into.old into.new at result (length floors.now.items
        ∷ flat_map sender_bytes (map heard_floor floors.now.items)) }
    ensures short { result ≤ at + floors_room }
{
    let at = put(into, at, &[floors.len() as u8]);
    put_senders(into, at, floors.as_slice())
}

/// Writes the floors of a network key, if it is in use.
fn put_live_floors(into: &mut [u8], at: usize, row: &NetRow) -> usize
    requires { at + floors_room ≤ length into.old }
    ensures writes { Writes into.old into.new at result (if (net_key row.now).live
        then floors_bytes (net_key row.now) else []) }
    ensures short { result ≤ at + (if (net_key row.now).live then floors_room else 0) }
{
    if row.live {
        put_floors(into, at, &row.floors)
    } else {
        at
    }
}

/// Writes the floors of the network keys in use, at most two.
fn put_all_floors(into: &mut [u8], at: usize, rows: &[NetRow]) -> usize
    requires few { length (filter (λ r. (net_key r).live) rows.now) ≤ 2 }
    requires room { at + 3 * floors_room ≤ length into.old }
    ensures writes { Writes into.old into.new at result (flat_map (λ r. if (net_key r).live
        then floors_bytes (net_key r) else []) rows.now) }
    ensures short { result ≤ at + 2 * floors_room }
{
    let mut end = at;
    for row in rows {
        end = put_live_floors(into, end, row);
    }
    end
}

/// Writes a link key: partner 8, key 16, attribute 1, flags 1 (bit 0 live, bit 1 from an install code, bit 2 told),
/// floor 4.
fn put_link(into: &mut [u8], at: usize, row: &LinkRow) -> usize
    requires { at + 30 ≤ length into.old }
    ensures writes { Writes into.old into.new at result (link_bytes (link_key row.now)) }
    ensures short { result ≤ at + 30 }
{
    let at = put_partner_key(into, at, row);
    let flags = worth(1, row.live) + (worth(2, row.code) + worth(4, row.told));
    let at = put(into, at, &[attribute_byte(row.attribute), flags]);
    put(into, at, &row.floor.stored.to_le_bytes())
}

/// Writes the partner and the key of a link key.
fn put_partner_key(into: &mut [u8], at: usize, row: &LinkRow) -> usize
    requires { at + 24 ≤ length into.old }
    ensures writes { Writes into.old into.new at result (eight_bytes row.now.partner.0 ++ row.now.key.0) }
    ensures short { result ≤ at + 24 }
{
    let at = put(into, at, &row.partner.0.to_le_bytes());
    put(into, at, &row.key.0)
}

/// Writes the link keys.
fn put_links(into: &mut [u8], at: usize, rows: &[LinkRow]) -> usize
    requires { at + 30 * length rows.now ≤ length into.old }
    ensures writes { Writes into.old into.new at result (flat_map link_bytes (map link_key rows.now)) }
    ensures short { result ≤ at + 30 * length rows.now }
{
    let mut end = at;
    for row in rows {
        end = put_link(into, end, row);
    }
    end
}

/// Writes a key of two devices: first 8, second 8, key 16, live 1, which is 01.
fn put_pair(into: &mut [u8], at: usize, pair: &Pair) -> usize
    requires { at + 33 ≤ length into.old }
    ensures writes { Writes into.old into.new at result (pair_bytes (pair_key pair.now)) }
    ensures short { result ≤ at + 33 }
{
    let at = put_number64(into, at, pair.first.0);
    put_second(into, at, pair)
}

/// Writes the second device and the key of a pair, which is in use.
fn put_second(into: &mut [u8], at: usize, pair: &Pair) -> usize
    requires { at + 25 ≤ length into.old }
    ensures writes { Writes into.old into.new at result (eight_bytes pair.now.second.0 ++ (pair.now.key.0 ++ 1 ∷ [])) }
    ensures short { result ≤ at + 25 }
{
    let at = put_number64(into, at, pair.second.0);
    put_key_live(into, at, &pair.key)
}

/// Writes a key that is in use.
fn put_key_live(into: &mut [u8], at: usize, key: &Key) -> usize
    requires { at + 17 ≤ length into.old }
    ensures writes { Writes into.old into.new at result (key.now.0 ++ 1 ∷ []) }
    ensures short { result ≤ at + 17 }
{
    let at = put(into, at, &key.0);
    put(into, at, &[1])
}

/// Writes the keys of pairs of devices.
fn put_pairs(into: &mut [u8], at: usize, pairs: &[Pair]) -> usize
    requires { at + 33 * length pairs.now ≤ length into.old }
    ensures writes { Writes into.old into.new at result (flat_map pair_bytes (map pair_key pairs.now)) }
    ensures short { result ≤ at + 33 * length pairs.now }
{
    let mut end = at;
    for pair in pairs {
        end = put_pair(into, end, pair);
    }
    end
}

/// Returns the place of the active network key among the rows, or 65,535 if there is none.
fn key_number(rows: &[NetRow], key: &Key) -> u16
    requires { length rows.now ≤ no_place }
    ensures { result ≡ place_from 0 key.now.0 (map net_key rows.now) }
{
    for (i, row) in rows.iter().enumerate() {
        if row.key == *key {
            return i as u16;
        }
    }
    65535
}

impl Heading {
    /// Returns the place of the active network key, or 65,535 if none is active.
    fn active_number(&self, nets: &[NetRow]) -> u16
        requires { length nets.now ≤ no_place }
        ensures { result ≡ place_in self.now.active nets.now }
    {
        match &self.active {
            Some(key) => key_number(nets, key),
            None => 65535,
        }
    }

    /// Writes the record's version 1, role 1, state 1 and declared start 4.
    fn put_node(&self, into: &mut [u8], at: usize) -> usize
        requires { at + 7 ≤ length into.old }
        ensures writes { Writes into.old into.new at result (3 ∷ role_byte (model_role self.now.role)
            ∷ state_byte (model_state self.now.state) ∷ four_bytes self.now.declared) }
        ensures short { result ≤ at + 7 }
    {
        let at = put(into, at, &[3, role_byte(self.role), state_byte(self.state)]);
        put(into, at, &self.declared.to_le_bytes())
    }

    /// Writes the limit of the application support layer 4, and the rollover 1.
    fn put_counter(&self, into: &mut [u8], at: usize) -> usize
        requires { at + 5 ≤ length into.old }
        ensures writes { Writes into.old into.new at result (four_bytes self.now.aps_limit
            ++ worth 1 (is_sending self.now.rolling) ∷ []) }
        ensures short { result ≤ at + 5 }
    {
        let at = put(into, at, &self.aps_limit.to_le_bytes());
        put(into, at, &[rollover_byte(self.rolling)])
    }

    /// Writes the number of network keys 2, and the place of the active one 2.
    fn put_net_numbers(&self, into: &mut [u8], at: usize, nets: &[NetRow]) -> usize
        requires few { length nets.now ≤ most_nets }
        requires room { at + 4 ≤ length into.old }
        ensures writes { Writes into.old into.new at result (two_bytes (length nets.now)
            ++ two_bytes (place_in self.now.active nets.now)) }
        ensures short { result ≤ at + 4 }
    {
        let at = put_number(into, at, nets.len() as u16);
        put_number(into, at, self.active_number(nets))
    }

    /// Writes the network keys' part of the record.
    fn put_net_part(&self, into: &mut [u8], at: usize, nets: &[NetRow]) -> usize
        requires few { length nets.now ≤ most_nets }
        requires live { length (filter (λ r. (net_key r).live) nets.now) ≤ 2 }
        requires room { at + nets_room + floors_room ≤ length into.old }
        ensures writes { Writes into.old into.new at result ((two_bytes (length nets.now)
            ++ two_bytes (place_in self.now.active nets.now))
            ++ (flat_map net_bytes (map net_key nets.now)
            ++ flat_map (λ r. if (net_key r).live then floors_bytes (net_key r) else []) nets.now)) }
        ensures short { result ≤ at + nets_room }
    {
        let at = self.put_net_numbers(into, at, nets);
        let at = put_nets(into, at, nets);
        put_all_floors(into, at, nets)
    }
}

/// Writes the link keys' part of the record.
fn put_link_part(into: &mut [u8], at: usize, links: &[LinkRow]) -> usize
    requires few { length links.now ≤ most_centre_links }
    requires room { at + links_room ≤ length into.old }
    ensures writes { Writes into.old into.new at result (two_bytes (length links.now)
        ++ flat_map link_bytes (map link_key links.now)) }
    ensures short { result ≤ at + links_room }
{
    let at = put_number(into, at, links.len() as u16);
    put_links(into, at, links)
}

/// Writes the pairs' part of the record.
fn put_pair_part(into: &mut [u8], at: usize, pairs: &[Pair]) -> usize
    requires few { length pairs.now ≤ most_pairs }
    requires room { at + pairs_room ≤ length into.old }
    ensures writes { Writes into.old into.new at result (two_bytes (length pairs.now)
        ++ flat_map pair_bytes (map pair_key pairs.now)) }
    ensures short { result ≤ at + pairs_room }
{
    let at = put_number(into, at, pairs.len() as u16);
    put_pairs(into, at, pairs)
}

/// Writes a number of 2 bytes.
fn put_number(into: &mut [u8], at: usize, number: u16) -> usize
    requires { at + 2 ≤ length into.old }
    ensures writes { Writes into.old into.new at result (two_bytes number) }
    ensures short { result ≤ at + 2 }
{
    put(into, at, &number.to_le_bytes())
}

/// Writes the record of a node with this heading and these rows, and returns its length.
///
/// Requires at most 256 network keys, of which two are in use, 1,024 link keys and 256 pairs, and `RECORD_ROOM` bytes.
/// The next APS counter isn't recorded, so the record doesn't depend on it.
pub fn write_record(
    heading: &Heading,
    nets: &[NetRow],
    links: &[LinkRow],
    pairs: &[Pair],
    into: &mut [u8],
) -> u32
    requires few_nets { length nets.now ≤ most_nets }
    requires few_live { length (filter (λ r. (net_key r).live) nets.now) ≤ 2 }
    requires few_links { length links.now ≤ most_centre_links }
    requires few_pairs { length pairs.now ≤ most_pairs }
    requires room { record_room ≤ length into.old }
    ensures bytes { (aps_next : ℕ)
        → take result into.new ≡ record_of (state_written aps_next heading.now nets.now links.now pairs.now) }
    ensures greatest { result ≤ greatest_record }
{
    let at = heading.put_node(into, 0);
    let at = heading.put_counter(into, at);
    let at = heading.put_net_part(into, at, nets);
    let at = put_link_part(into, at, links);
    put_pair_part(into, at, pairs) as u32
}
