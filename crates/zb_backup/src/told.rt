//! What the members of an object tell: texts, numbers, keys and rows.
ghost use Rattle.std.specs.Prelude.{◌≡◌, ◌≤◌, [], IfSome, codes, length, map, option_map};
ghost use Rattle.serde_json.specs.View.{items_view, view};
ghost use Rattle.zb_text.specs.Words.{Shows};
ghost use Rattle.zb_node_types.specs.Changes.{is_sending, model_attribute};
ghost use Rattle.zb_record.specs.Fields.{attribute_of};
ghost use Rattle.zb_record.specs.RowViews.{heard_floor, link_key, net_key, pair_key};
ghost use Rattle.zb_backup.specs.Told.{attribute_at, eui_at, flag_at, floor_told, key_at, link_told, list_at, net_told, number_at, pair_told, roll_at, roll_of, rows_at, text_at, told_rows, whole_in};
ghost use Rattle.zb_model.specs.Fits.{most_senders};

use arrayvec::ArrayVec;
use serde_json::Value;
use zb_base::{Attribute, Eui, Key, Rollover};
use zb_counter::Floor;
use zb_keys::{LinkRow, NetRow, Pair, SenderFloor};
use zb_record::net_row::Senders;
use zb_text::fields;

/// Returns the text of a member.
#[tactic(auto, unfolding(crate::specs::Told::text_at))]
fn text_at<'a>(object: &'a Value, name: &str) -> Option<&'a str>
    ensures { option_map (λ s. s.now) result ≡ text_at name.now (view object.now) }
{
    let member = object.get(name)?;
    member.as_str()
}

/// Returns the truth value of a member.
#[tactic(auto, unfolding(crate::specs::Told::flag_at))]
fn flag_at(object: &Value, name: &str) -> Option<bool>
    ensures { result ≡ flag_at name.now (view object.now) }
{
    let member = object.get(name)?;
    member.as_bool()
}

/// Returns a whole number of at most `limit`.
pub(crate) fn whole_in(limit: u32, value: &Value) -> Option<u32>
    ensures value { result ≡ whole_in limit (view value.now) }
    ensures fits { IfSome result (λ n. n ≤ limit) }
{
    let number = value.as_u64()?;
    if number <= limit as u64 {
        Some(number as u32)
    } else {
        None
    }
}

/// Returns the number of a member, at most `limit`.
#[tactic(auto, unfolding(crate::specs::Told::number_at))]
pub(crate) fn number_at(object: &Value, name: &str, limit: u32) -> Option<u32>
    ensures value { result ≡ number_at limit name.now (view object.now) }
    ensures fits { IfSome result (λ n. n ≤ limit) }
{
    let member = object.get(name)?;
    let number = whole_in(limit, member)?;
    Some(number)
}

/// Returns the number of a member that fits a byte.
fn byte_at(object: &Value, name: &str) -> Option<u8>
    ensures { result ≡ number_at 255 name.now (view object.now) }
{
    let number = number_at(object, name, 255)?;
    Some(number as u8)
}

/// Returns the key of a member.
#[tactic(auto, unfolding(crate::specs::Told::key_at))]
fn key_at(object: &Value, name: &str) -> Option<Key>
    ensures { Shows (λ key. key.0) result (key_at name.now (view object.now)) }
{
    let text = text_at(object, name)?;
    let key = fields::key(text.as_bytes())?;
    Some(key)
}

/// Returns the EUI of a member.
#[tactic(auto, unfolding(crate::specs::Told::eui_at))]
fn eui_at(object: &Value, name: &str) -> Option<Eui>
    ensures { Shows (λ eui. eui.0) result (eui_at name.now (view object.now)) }
{
    let text = text_at(object, name)?;
    let eui = fields::eui(text.as_bytes())?;
    Some(eui)
}

/// Returns the attribute of a number.
fn attribute_of(number: u32) -> Option<Attribute>
    ensures { result ≡ attribute_of number }
{
    match number {
        0 => Some(Attribute::Provisional),
        1 => Some(Attribute::Unverified),
        2 => Some(Attribute::Verified),
        _ => None,
    }
}

/// Returns the attribute of a member.
#[tactic(auto, unfolding(crate::specs::Told::attribute_at))]
fn attribute_at(object: &Value, name: &str) -> Option<Attribute>
    ensures { Shows model_attribute result (attribute_at name.now (view object.now)) }
{
    let number = number_at(object, name, 2)?;
    let attribute = attribute_of(number)?;
    Some(attribute)
}

/// Returns the rollover of a member.
#[tactic(auto, unfolding(crate::specs::Told::roll_at))]
pub(crate) fn roll_at(object: &Value, name: &str) -> Option<Rollover>
    ensures { Shows is_sending result (roll_at name.now (view object.now)) }
{
    let word = text_at(object, name)?;
    let rolling = roll_of(word)?;
    Some(rolling)
}

/// Returns the rollover of a word.
fn roll_of(word: &str) -> Option<Rollover>
    ensures { Shows is_sending result (roll_of word.now) }
{
    if word == "sending" {
        Some(Rollover::Sending)
    } else if word == "idle" {
        Some(Rollover::Idle)
    } else {
        None
    }
}

/// Returns the floor of a sender.
#[tactic(auto, unfolding(crate::specs::Told::floor_told))]
fn floor_told(object: &Value) -> Option<SenderFloor>
    ensures { Shows heard_floor result (floor_told (view object.now)) }
{
    let floor = number_at(object, "floor", u32::MAX)?;
    let sender = eui_at(object, "sender")?;
    Some(SenderFloor {
        sender,
        kept: floor,
        stored: floor,
    })
}

/// Returns the items of a list that is a member.
#[tactic(auto, unfolding(crate::specs::Told::list_at))]
pub(crate) fn list_at<'a>(object: &'a Value, name: &str) -> Option<&'a [Value]>
    ensures { option_map (λ v. items_view v.now) result ≡ list_at name.now (view object.now) }
{
    let member = object.get(name)?;
    let list = member.as_array()?;
    Some(list.as_slice())
}

/// Returns the floors of a list, at most 64.
fn floors_of(list: &[Value]) -> Option<Senders>
    ensures { Shows (λ v. map heard_floor v.items) result
        (told_rows most_senders floor_told [] (items_view list.now)) }
{
    let mut floors = ArrayVec::new();
    for item in list {
        if floors.len() >= 64 {
            return None;
        }
        let floor = floor_told(item)?;
        floors.push(floor);
    }
    Some(floors)
}

/// Returns the floors of a member.
#[tactic(auto, unfolding(crate::specs::Told::rows_at))]
fn floors_at(object: &Value, name: &str) -> Option<Senders>
    ensures { Shows (λ v. map heard_floor v.items) result
        (rows_at most_senders floor_told name.now (view object.now)) }
{
    let list = list_at(object, name)?;
    let floors = floors_of(list)?;
    Some(floors)
}

/// Returns a network key.
#[tactic(auto, unfolding(crate::specs::Told::net_told))]
pub(crate) fn net_told(object: &Value) -> Option<NetRow>
    ensures { Shows net_key result (net_told (view object.now)) }
{
    let floors = floors_at(object, "floors")?;
    let key = key_at(object, "key")?;
    let limit = number_at(object, "limit", u32::MAX)?;
    let live = flag_at(object, "live")?;
    let sequence = byte_at(object, "sequence")?;
    let started = flag_at(object, "started")?;
    Some(NetRow {
        key,
        sequence,
        live,
        started,
        limit,
        next: limit,
        floors,
    })
}

/// Returns a link key.
#[tactic(auto, unfolding(crate::specs::Told::link_told))]
pub(crate) fn link_told(object: &Value) -> Option<LinkRow>
    ensures { Shows link_key result (link_told (view object.now)) }
{
    let attribute = attribute_at(object, "attribute")?;
    let code = flag_at(object, "code")?;
    let floor = number_at(object, "floor", u32::MAX)?;
    let key = key_at(object, "key")?;
    let live = flag_at(object, "live")?;
    let partner = eui_at(object, "partner")?;
    let told = flag_at(object, "told")?;
    Some(LinkRow {
        partner,
        key,
        attribute,
        live,
        code,
        told,
        floor: Floor {
            kept: floor,
            stored: floor,
        },
    })
}

/// Returns a key of two devices.
#[tactic(auto, unfolding(crate::specs::Told::pair_told))]
pub(crate) fn pair_told(object: &Value) -> Option<Pair>
    ensures { Shows pair_key result (pair_told (view object.now)) }
{
    let first = eui_at(object, "first")?;
    let key = key_at(object, "key")?;
    let second = eui_at(object, "second")?;
    Some(Pair { first, second, key })
}
