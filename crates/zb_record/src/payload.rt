//! The payload of a commit: the changes that it stores, as bytes.
ghost use Rattle.std.specs.Prelude.{◌≡◌, ◌+◌, ◌<◌, ◌≤◌, ◌^◌, ◌++◌, [], ◌∷◌, length, take, filter};
ghost use Rattle.std.specs.List.{flat_map};
ghost use Rattle.zb_node_types.specs.Changes.{edit, edits, model_layer, model_attribute, model_state, is_sending};
ghost use Rattle.zb_record.specs.Written.{Writes};
ghost use Rattle.zb_model.specs.Record.{edit_bytes, payload, is_stored, eight_bytes, four_bytes, layer_byte, attribute_byte, state_byte, worth};

use crate::writing::put;
use zb_base::{Attribute, Eui, Key, Layer, Rollover, State};
use zb_node_types::{Change, Changes};

/// Returns the byte of a layer.
fn layer_byte(layer: Layer) -> u8
    ensures { result ≡ layer_byte (model_layer layer) }
{
    match layer {
        Layer::Nwk => 0,
        Layer::Aps => 1,
    }
}

/// Returns the byte that a record has for an attribute.
pub fn attribute_byte(attribute: Attribute) -> u8
    ensures { result ≡ attribute_byte (model_attribute attribute) }
{
    match attribute {
        Attribute::Provisional => 0,
        Attribute::Unverified => 1,
        Attribute::Verified => 2,
    }
}

/// Returns the byte that a record has for a state.
pub fn state_byte(state: State) -> u8
    ensures { result ≡ state_byte (model_state state) }
{
    match state {
        State::Fresh => 0,
        State::Knocked => 1,
        State::Joined => 2,
        State::Offered => 3,
        State::Confirmed => 4,
        State::Rejoining => 5,
        State::Gone => 6,
    }
}

/// Returns the byte of a rollover.
pub(crate) fn rollover_byte(rollover: Rollover) -> u8
    ensures { result ≡ worth 1 (is_sending rollover) }
{
    match rollover {
        Rollover::Idle => 0,
        Rollover::Sending => 1,
    }
}

/// Writes a kind and a key.
fn put_key(into: &mut [u8], at: usize, kind: u8, key: &Key) -> usize
    requires { at + length (kind ∷ key.now.0) ≤ length into.old }
    ensures { Writes into.old into.new at result (kind ∷ key.now.0) }
{
    let at = put(into, at, &[kind]);
    put(into, at, &key.0)
}

/// Writes a kind and an EUI.
fn put_eui(into: &mut [u8], at: usize, kind: u8, eui: Eui) -> usize
    requires { at + length (kind ∷ eight_bytes eui.0) ≤ length into.old }
    ensures { Writes into.old into.new at result (kind ∷ eight_bytes eui.0) }
{
    let at = put(into, at, &[kind]);
    put(into, at, &eui.0.to_le_bytes())
}

/// Writes a kind, a key and a number.
fn put_key_number(into: &mut [u8], at: usize, kind: u8, key: &Key, value: u32) -> usize
    requires { at + length (kind ∷ key.now.0 ++ four_bytes value) ≤ length into.old }
    ensures { Writes into.old into.new at result (kind ∷ key.now.0 ++ four_bytes value) }
{
    let at = put(into, at, &[kind]);
    let at = put(into, at, &key.0);
    put(into, at, &value.to_le_bytes())
}

/// Writes a kind, a partner and a key.
fn put_eui_key(into: &mut [u8], at: usize, kind: u8, partner: Eui, key: &Key) -> usize
    requires { at + length (kind ∷ eight_bytes partner.0 ++ key.now.0) ≤ length into.old }
    ensures { Writes into.old into.new at result (kind ∷ eight_bytes partner.0 ++ key.now.0) }
{
    let at = put(into, at, &[kind]);
    let at = put(into, at, &partner.0.to_le_bytes());
    put(into, at, &key.0)
}

/// Writes a reservation.
fn put_reserve(into: &mut [u8], at: usize, layer: Layer, limit: u32) -> usize
    requires { at + length (1 ∷ layer_byte (model_layer layer) ∷ four_bytes limit) ≤ length into.old }
    ensures { Writes into.old into.new at result (1 ∷ layer_byte (model_layer layer) ∷ four_bytes limit) }
{
    let at = put(into, at, &[1, layer_byte(layer)]);
    put(into, at, &limit.to_le_bytes())
}

/// Writes a floor.
fn put_floor(into: &mut [u8], at: usize, layer: Layer, key: &Key, sender: Eui, value: u32) -> usize
    requires { at + length (2 ∷ layer_byte (model_layer layer) ∷ key.now.0
        ++ (eight_bytes sender.0 ++ four_bytes value)) ≤ length into.old }
    ensures { Writes into.old into.new at result (2 ∷ layer_byte (model_layer layer) ∷ key.now.0
        ++ (eight_bytes sender.0 ++ four_bytes value)) }
{
    let at = put_layer_key(into, at, layer, key);
    put_eui_number(into, at, sender, value)
}

/// Writes the beginning of a floor: its kind, layer and key.
fn put_layer_key(into: &mut [u8], at: usize, layer: Layer, key: &Key) -> usize
    requires { at + length (2 ∷ layer_byte (model_layer layer) ∷ key.now.0) ≤ length into.old }
    ensures { Writes into.old into.new at result (2 ∷ layer_byte (model_layer layer) ∷ key.now.0) }
{
    let at = put(into, at, &[2, layer_byte(layer)]);
    put(into, at, &key.0)
}

/// Writes an EUI and a number.
pub(crate) fn put_eui_number(into: &mut [u8], at: usize, eui: Eui, value: u32) -> usize
    requires { at + 12 ≤ length into.old }
    ensures { Writes into.old into.new at result (eight_bytes eui.0 ++ four_bytes value) }
{
    let at = put_number64(into, at, eui.0);
    put_number32(into, at, value)
}

/// Writes a number of 8 bytes.
pub(crate) fn put_number64(into: &mut [u8], at: usize, number: u64) -> usize
    requires { at + 8 ≤ length into.old }
    ensures { Writes into.old into.new at result (eight_bytes number) }
{
    put(into, at, &number.to_le_bytes())
}

/// Writes a number of 4 bytes.
fn put_number32(into: &mut [u8], at: usize, number: u32) -> usize
    requires { at + 4 ≤ length into.old }
    ensures { Writes into.old into.new at result (four_bytes number) }
{
    put(into, at, &number.to_le_bytes())
}

/// Writes a new network key.
fn put_install(into: &mut [u8], at: usize, key: &Key, sequence: u8) -> usize
    requires { at + length (5 ∷ key.now.0 ++ sequence ∷ []) ≤ length into.old }
    ensures { Writes into.old into.new at result (5 ∷ key.now.0 ++ sequence ∷ []) }
{
    let at = put_key(into, at, 5, key);
    put(into, at, &[sequence])
}

/// Writes a link key.
fn put_row(into: &mut [u8], at: usize, partner: Eui, key: &Key, attribute: Attribute) -> usize
    requires { at + length (7 ∷ eight_bytes partner.0
        ++ (key.now.0 ++ attribute_byte (model_attribute attribute) ∷ [])) ≤ length into.old }
    ensures { Writes into.old into.new at result (7 ∷ eight_bytes partner.0
        ++ (key.now.0 ++ attribute_byte (model_attribute attribute) ∷ [])) }
{
    let at = put_eui_key(into, at, 7, partner, key);
    put(into, at, &[attribute_byte(attribute)])
}

/// Writes a key of two devices.
fn put_pair(into: &mut [u8], at: usize, first: Eui, second: Eui, key: &Key) -> usize
    requires { at + length (0x0f ∷ eight_bytes first.0 ++ (eight_bytes second.0 ++ key.now.0)) ≤ length into.old }
    ensures { Writes into.old into.new at result (0x0f ∷ eight_bytes first.0 ++ (eight_bytes second.0 ++ key.now.0)) }
{
    let at = put_eui(into, at, 0x0f, first);
    let at = put(into, at, &second.0.to_le_bytes());
    put(into, at, &key.0)
}

/// Writes a kind and a byte.
fn put_byte(into: &mut [u8], at: usize, kind: u8, byte: u8) -> usize
    requires { at + 2 ≤ length into.old }
    ensures { Writes into.old into.new at result (kind ∷ byte ∷ []) }
{
    put(into, at, &[kind, byte])
}

/// Writes a change. Nothing is written for a draw.
#[tactic(auto, unfolding(zb_model::specs::Record::edit_bytes))]
fn put_change(into: &mut [u8], at: usize, change: &Change) -> usize
    requires { at + length (edit_bytes (edit change.now)) ≤ length into.old }
    ensures { Writes into.old into.new at result (edit_bytes (edit change.now)) }
{
    match *change {
        Change::Reserve { layer, limit } => put_reserve(into, at, layer, limit),
        Change::Floor {
            layer,
            key,
            sender,
            value,
        } => put_floor(into, at, layer, &key, sender, value),
        Change::Draw { key: _ } => at,
        Change::DropNet { key } => put_key(into, at, 3, &key),
        Change::DropLink { partner, key } => put_eui_key(into, at, 4, partner, &key),
        Change::Install { key, sequence } => put_install(into, at, &key, sequence),
        Change::Active { key } => put_key(into, at, 6, &key),
        Change::Start { key, value } => put_key_number(into, at, 0x0e, &key, value),
        Change::Row {
            partner,
            key,
            attribute,
        } => put_row(into, at, partner, &key, attribute),
        Change::Pair { first, second, key } => put_pair(into, at, first, second, &key),
        Change::State { state } => put_byte(into, at, 8, state_byte(state)),
        Change::Live { device } => put_eui(into, at, 0x0c, device),
        Change::Removed { device } => put_eui(into, at, 0x0d, device),
        Change::Roll { rollover } => put_byte(into, at, 9, rollover_byte(rollover)),
        Change::Told { device } => put_eui(into, at, 0x0a, device),
        Change::Untold { device } => put_eui(into, at, 0x0b, device),
    }
}

/// Returns how many changes are stored: all but draws.
fn count_stored(changes: &[Change]) -> u8
    requires { length changes.now ≤ 16 }
    ensures { result ≡ length (filter is_stored (edits changes.now)) }
{
    let mut count = 0;
    for change in changes {
        if is_stored(change) {
            count += 1;
        }
    }
    count
}

/// Returns whether a change is stored.
fn is_stored(change: &Change) -> bool
    ensures { result ≡ is_stored (edit change.now) }
{
    !matches!(*change, Change::Draw { key: _ })
}

/// Writes changes, one after the other.
fn put_changes(into: &mut [u8], at: usize, changes: &[Change]) -> usize
    requires { at + length (flat_map edit_bytes (edits changes.now)) ≤ length into.old }
    ensures { Writes into.old into.new at result (flat_map edit_bytes (edits changes.now)) }
{
    let mut end = at;
    for change in changes {
        end = put_change(into, end, change);
    }
    end
}

/// Writes the payload of changes that are stored together, and returns its length.
///
/// Requires room for it. A payload of more than `PAYLOAD_ROOM` bytes doesn't fit in a journal.
#[tactic(auto, unfolding(zb_model::specs::Record::payload))]
pub fn change_bytes(changes: &Changes, into: &mut [u8]) -> u32
    requires room { length (payload (edits changes.now.items)) ≤ length into.old }
    requires short { length into.old < 2 ^ 32 }
    ensures bytes { take result into.new ≡ payload (edits changes.now.items) }
    ensures end { result ≡ length (payload (edits changes.now.items)) }
{
    let at = put(into, 0, &[count_stored(changes.as_slice())]);
    put_changes(into, at, changes.as_slice()) as u32
}
