//! Writing a backup.
ghost use Rattle.std.specs.Prelude.{◌≡◌, IfOk, List, ℕ, map, string_bytes, true, false, codes, Some};
ghost use Rattle.std.specs.List.{list_all, position};
ghost use Rattle.hex.specs.Hex.{encode_upper};
ghost use Rattle.serde_json.specs.View.{view};
ghost use Rattle.serde_json.specs.Data.{depth};
ghost use Rattle.serde_json.specs.Written.{has_float};
ghost use Rattle.zb_text.specs.Fields.{eui_text};
ghost use Rattle.zb_node_types.specs.Changes.{is_sending, model_attribute};
ghost use Rattle.zb_record.specs.RowViews.{heard_floor, net_key, link_key, pair_key};
ghost use Rattle.zb_record.specs.Headings.{active_bytes};
ghost use Rattle.zb_model.specs.Data.{Centre};
ghost use Rattle.zb_model.specs.Record.{attribute_byte};
ghost use Rattle.zb_model.specs.State.{after_boot, same_key};
ghost use Rattle.zb_backup.specs.Format.{active_value, backup_of, backup_text, eui_value, floor_object, key_value, link_object, net_object, pair_object, place_value, roll_text, rows_value};
ghost use Rattle.zb_backup.specs.Reading.{backup_in, floor_fits, has_widths, link_fits, net_fits, pair_fits};

use crate::hold::{hold_byte, hold_counter, hold_floor, hold_key, hold_link, hold_pair};
use serde_json::{Value, json};
use std::alloc::{AllocError, Global};
use zb_base::{Attribute, Eui, Key, Layer, NoMemory, Rollover};
use zb_keys::{LinkRow, NetRow, Pair, SenderFloor, Tables};

/// Returns the digits of a key.
fn key_text(alloc: Global, key: &Key) -> Result<String, AllocError>
    ensures { IfOk result (λ s. string_bytes s ≡ encode_upper key.now.0) }
{
    hex::encode_upper(alloc, key.0)
}

/// Returns the digits of an EUI, most significant first.
fn eui_digits(alloc: Global, eui: Eui) -> Result<String, AllocError>
    ensures { IfOk result (λ s. string_bytes s ≡ eui_text eui.0) }
{
    hex::encode_upper(alloc, eui.0.to_be_bytes())
}

/// Returns the floor of a sender.
#[tactic(auto, unfolding(crate::specs::Format::floor_object))]
fn floor_value(alloc: Global, floor: &SenderFloor) -> Result<Value, AllocError>
    ensures value { IfOk result (λ v. view v ≡ floor_object (heard_floor floor.now)) }
    ensures fits { IfOk result (λ v. floor_fits (heard_floor floor.now) ≡ true) }
{
    hold_floor(*floor);
    let sender = eui_digits(alloc, floor.sender)?;
    json!(in alloc; {"floor": floor.stored, "sender": sender})
}

/// Returns the floors under a network key.
fn floors_value(alloc: Global, floors: &[SenderFloor]) -> Result<Value, AllocError>
    ensures value { IfOk result (λ v. view v ≡ rows_value floor_object (map heard_floor floors.now)) }
    ensures fits { IfOk result (λ v. list_all floor_fits (map heard_floor floors.now) ≡ true) }
{
    let mut list = Vec::with_capacity(alloc, floors.len())?;
    for floor in floors {
        list.push(floor_value(alloc, floor)?)?;
    }
    Ok(Value::Array(list))
}

/// Returns a network key.
#[tactic(auto, unfolding(crate::specs::Format::net_object))]
fn net_value(alloc: Global, row: &NetRow) -> Result<Value, AllocError>
    ensures value { IfOk result (λ v. view v ≡ net_object (net_key row.now)) }
    ensures fits { IfOk result (λ v. net_fits (net_key row.now) ≡ true) }
{
    hold_key(row.key);
    hold_counter(row.limit);
    hold_byte(row.sequence);
    let floors = floors_value(alloc, row.floors.as_slice())?;
    let key = key_text(alloc, &row.key)?;
    json!(in alloc; {
        "floors": floors,
        "key": key,
        "limit": row.limit,
        "live": row.live,
        "sequence": row.sequence,
        "started": row.started
    })
}

/// Returns the network keys.
fn nets_value(alloc: Global, rows: &[NetRow]) -> Result<Value, AllocError>
    ensures value { IfOk result (λ v. view v ≡ rows_value net_object (map net_key rows.now)) }
    ensures fits { IfOk result (λ v. list_all net_fits (map net_key rows.now) ≡ true) }
{
    let mut list = Vec::with_capacity(alloc, rows.len())?;
    for row in rows {
        list.push(net_value(alloc, row)?)?;
    }
    Ok(Value::Array(list))
}

/// Returns the number of an attribute.
fn attribute_number(attribute: Attribute) -> u8
    ensures { result ≡ attribute_byte (model_attribute attribute) }
{
    match attribute {
        Attribute::Provisional => 0,
        Attribute::Unverified => 1,
        Attribute::Verified => 2,
    }
}

/// Returns a link key.
#[tactic(auto, unfolding(crate::specs::Format::link_object))]
fn link_value(alloc: Global, row: &LinkRow) -> Result<Value, AllocError>
    ensures value { IfOk result (λ v. view v ≡ link_object (link_key row.now)) }
    ensures fits { IfOk result (λ v. link_fits (link_key row.now) ≡ true) }
{
    hold_link(*row);
    let key = key_text(alloc, &row.key)?;
    let partner = eui_digits(alloc, row.partner)?;
    json!(in alloc; {
        "attribute": attribute_number(row.attribute),
        "code": row.code,
        "floor": row.floor.stored,
        "key": key,
        "live": row.live,
        "partner": partner,
        "told": row.told
    })
}

/// Returns the link keys.
fn links_value(alloc: Global, rows: &[LinkRow]) -> Result<Value, AllocError>
    ensures value { IfOk result (λ v. view v ≡ rows_value link_object (map link_key rows.now)) }
    ensures fits { IfOk result (λ v. list_all link_fits (map link_key rows.now) ≡ true) }
{
    let mut list = Vec::with_capacity(alloc, rows.len())?;
    for row in rows {
        list.push(link_value(alloc, row)?)?;
    }
    Ok(Value::Array(list))
}

/// Returns a key of two devices.
#[tactic(auto, unfolding(crate::specs::Format::pair_object))]
fn pair_value(alloc: Global, pair: &Pair) -> Result<Value, AllocError>
    ensures value { IfOk result (λ v. view v ≡ pair_object (pair_key pair.now)) }
    ensures fits { IfOk result (λ v. pair_fits (pair_key pair.now) ≡ true) }
{
    hold_pair(*pair);
    let first = eui_digits(alloc, pair.first)?;
    let key = key_text(alloc, &pair.key)?;
    let second = eui_digits(alloc, pair.second)?;
    json!(in alloc; {"first": first, "key": key, "second": second})
}

/// Returns the keys of pairs of devices.
fn pairs_value(alloc: Global, rows: &[Pair]) -> Result<Value, AllocError>
    ensures value { IfOk result (λ v. view v ≡ rows_value pair_object (map pair_key rows.now)) }
    ensures fits { IfOk result (λ v. list_all pair_fits (map pair_key rows.now) ≡ true) }
{
    let mut list = Vec::with_capacity(alloc, rows.len())?;
    for row in rows {
        list.push(pair_value(alloc, row)?)?;
    }
    Ok(Value::Array(list))
}

/// Returns the place of a network key among rows.
fn place_among(rows: &[NetRow], key: &Key) -> Option<usize>
    ensures { result ≡ position (λ r. same_key (net_key r).key key.now.0) rows.now }
{
    rows.iter().position(|row| row.key == *key)
}

/// Returns the place of a network key.
fn place_of(rows: &[NetRow], key: &Key) -> Option<usize>
    ensures { result ≡ position (λ r. same_key r.key key.now.0) (map net_key rows.now) }
{
    place_among(rows, key)
}

/// Returns the place of the active network key, or null.
#[tactic(auto, unfolding(crate::specs::Format::active_value))]
fn active_value(active: Option<Key>, rows: &[NetRow]) -> Value
    ensures { view result ≡ active_value (active_bytes active) (map net_key rows.now) }
{
    match active {
        Some(key) => match place_of(rows, &key) {
            Some(place) => Value::from(place),
            None => Value::Null,
        },
        None => Value::Null,
    }
}

/// Returns the word for a rollover.
fn roll_word(rolling: Rollover) -> &'static str
    ensures { result.now ≡ roll_text (is_sending rolling) }
{
    match rolling {
        Rollover::Sending => "sending",
        Rollover::Idle => "idle",
    }
}

/// Returns the outgoing APS limit.
#[tactic(auto, unfolding(zb_model::specs::State::stored_limit))]
fn aps_limit(tables: &Tables) -> u32
    ensures { result ≡ tables.now.aps_limit }
{
    tables.outgoing(Layer::Aps, 0).limit
}

/// Returns the backup of tables as a value.
#[tactic(auto, unfolding(crate::specs::Format::backup_of, crate::specs::Reading::has_widths))]
pub(crate) fn backup_value(alloc: Global, tables: &Tables) -> Result<Value, AllocError>
    ensures value { IfOk result (λ v. view v ≡ backup_of tables.now) }
    ensures fits { IfOk result (λ v. has_widths tables.now ≡ true) }
{
    hold_counter(tables.declared());
    hold_counter(aps_limit(tables));
    let links = links_value(alloc, tables.links())?;
    let nets = nets_value(alloc, tables.nets())?;
    let pairs = pairs_value(alloc, tables.pairs())?;
    json!(in alloc; {
        "active": active_value(tables.active_key(), tables.nets()),
        "aps": aps_limit(tables),
        "links": links,
        "nets": nets,
        "nwk": tables.declared(),
        "pairs": pairs,
        "roll": roll_word(tables.rolling()),
        "version": 3u8
    })
}

/// Writes the backup of tables: one line of compact JSON, without its end.
///
/// It says what the record of a centre's tables says, so that of a centre reads as its tables after a boot. Counters
/// and floors that stand in memory alone aren't in it.
///
/// # Errors
/// `NoMemory` where memory is short.
pub fn write_backup(alloc: Global, tables: &Tables) -> Result<Vec<u8>, NoMemory>
    ensures text { IfOk result (λ v. v.items ≡ backup_text tables.now) }
    ensures again { IfOk result (λ v. tables.now.role ≡ Centre → backup_in v.items ≡ Some (after_boot tables.now)) }
{
    let value = backup_value(alloc, tables)?;
    tables.keep_rules();
    let text = value.to_vec(alloc)?;
    Ok(text)
}
