//! What the types of tables say of their values: that they are within the widths of a record. Each function here walks
//! over rows, says so and does nothing.
ghost use Rattle.std.specs.Prelude.{◌≡◌, ◌<◌, ◌^◌, length, map, true};
ghost use Rattle.std.specs.List.{list_all};
ghost use Rattle.zb_model.specs.State.{stored_limit};
ghost use Rattle.zb_record.specs.Ranges.{floor_fits, link_fits, net_fits, pair_fits, FitsBytes};
ghost use Rattle.zb_record.specs.RowViews.{heard_floor, link_key, net_key, pair_key};

use zb_base::{Eui, Key, Layer};
use zb_keys::{LinkRow, NetRow, Pair, SenderFloor, Tables};

/// States that a number is below 2^32.
fn hold_number(number: u32)
    ensures { number < 2 ^ 32 }
{}

/// States that an EUI is below 2^64.
fn hold_eui(eui: Eui)
    ensures { eui.0 < 2 ^ 64 }
{}

/// States that a key has 16 bytes.
fn hold_key(key: Key)
    ensures { length key.0 ≡ 16 }
{}

/// States that the floor of a sender fits.
fn hold_floor(floor: SenderFloor)
    ensures { floor_fits (heard_floor floor) ≡ true }
{
    hold_eui(floor.sender);
    hold_number(floor.stored);
}

/// States that floors fit.
fn hold_floors(floors: &[SenderFloor])
    ensures { list_all floor_fits (map heard_floor floors.now) ≡ true }
{
    for floor in floors {
        hold_floor(*floor);
    }
}

/// States that a network key with its floors fits.
fn hold_net(row: &NetRow)
    ensures { net_fits (net_key row.now) ≡ true }
{
    hold_key(row.key);
    hold_number(row.limit);
    hold_floors(row.floors.as_slice());
}

/// States that network keys fit.
fn hold_nets(rows: &[NetRow])
    ensures { list_all net_fits (map net_key rows.now) ≡ true }
{
    for row in rows {
        hold_net(row);
    }
}

/// States that a link key fits.
fn hold_link(row: LinkRow)
    ensures { link_fits (link_key row) ≡ true }
{
    hold_eui(row.partner);
    hold_key(row.key);
    hold_number(row.floor.stored);
}

/// States that link keys fit.
fn hold_links(rows: &[LinkRow])
    ensures { list_all link_fits (map link_key rows.now) ≡ true }
{
    for row in rows {
        hold_link(*row);
    }
}

/// States that the key of two devices fits.
fn hold_pair(pair: Pair)
    ensures { pair_fits (pair_key pair) ≡ true }
{
    hold_eui(pair.first);
    hold_eui(pair.second);
    hold_key(pair.key);
}

/// States that keys of two devices fit.
fn hold_pairs(pairs: &[Pair])
    ensures { list_all pair_fits (map pair_key pairs.now) ≡ true }
{
    for pair in pairs {
        hold_pair(*pair);
    }
}

/// Returns the outgoing APS limit.
#[tactic(auto, unfolding(zb_model::specs::State::stored_limit))]
fn aps_limit(tables: &Tables) -> u32
    ensures { result ≡ tables.now.aps_limit }
{
    tables.outgoing(Layer::Aps, 0).limit
}

/// States that the values of tables fit a record: keys have 16 bytes, numbers are within their fields.
pub fn tables_fit_a_record(tables: &Tables)
    ensures { FitsBytes tables.now }
{
    hold_number(tables.declared());
    hold_number(aps_limit(tables));
    hold_nets(tables.nets());
    hold_links(tables.links());
    hold_pairs(tables.pairs());
}
