//! The questions that rules ask about network keys.
ghost use Rattle.std.specs.Prelude.{◌≡◌, ◌<◌, ◌&&◌, ◌||◌, IfSome, is_none, length, map, nat_eq, nat_le, option_map};
ghost use Rattle.std.specs.Option.{option_copied};
ghost use Rattle.zb_node_types.specs.Changes.{model_role, model_state};
ghost use Rattle.zb_record.specs.RowViews.{net_key};
ghost use Rattle.zb_rows.specs.Asking.{may_use_in};
ghost use Rattle.zb_model.specs.Commands.{activates, dropped_at};
ghost use Rattle.zb_model.specs.Fits.{most_nets};
ghost use Rattle.zb_model.specs.Rules.{nets_full, waits_for_key};
ghost use Rattle.zb_model.specs.State.{has_net, is_active_key, is_centre, last_where, live_of, may_use, net_of, usable_active, usable_of};

use zb_base::{Key, Role, State};
use zb_keys::{NetRow, Tables};
use zb_record::net_row::{has_key, key_row};

/// Returns whether the node may use its network keys.
///
/// A router or device that is new, knocks or is gone may not.
pub fn may_use(tables: &Tables) -> bool
    ensures { result ≡ may_use tables.now }
{
    may_use_in(tables.role(), tables.state())
}

/// Returns whether a node of that role may use its network keys in that state.
fn may_use_in(role: Role, state: State) -> bool
    ensures { result ≡ may_use_in (model_role role) (model_state state) }
{
    match state {
        State::Fresh => is_centre(role),
        State::Knocked => is_centre(role),
        State::Joined => true,
        State::Offered => true,
        State::Confirmed => true,
        State::Rejoining => true,
        State::Gone => is_centre(role),
    }
}

/// Returns whether a role is the centre's.
pub(crate) fn is_centre(role: Role) -> bool
    ensures { result ≡ is_centre (model_role role) }
{
    matches!(role, Role::Centre)
}

/// Returns the active row, if the node may use it.
#[tactic(auto, unfolding(zb_model::specs::State::usable_active))]
pub fn usable_active(tables: &Tables) -> Option<&NetRow>
    ensures { option_map net_key (option_copied result) ≡ usable_active tables.now }
{
    if may_use(tables) {
        tables.active_row()
    } else {
        None
    }
}

/// Returns the newest row in use with a sequence number.
pub fn live_of(tables: &Tables, sequence: u8) -> Option<&NetRow>
    ensures { option_map net_key (option_copied result) ≡ live_of tables.now sequence }
{
    live_row(tables.nets(), sequence)
}

/// Returns the newest of these rows that is in use and has a sequence number.
fn live_row(rows: &[NetRow], sequence: u8) -> Option<&NetRow>
    ensures { option_copied result ≡ last_where (λ r. (net_key r).live
        && nat_eq (net_key r).sequence sequence) rows.now }
{
    rows.iter()
        .rev()
        .find(|row| row.live && row.sequence == sequence)
}

/// Returns the newest row with a sequence number that the node may use.
pub fn usable_of(tables: &Tables, sequence: u8) -> Option<&NetRow>
    ensures { option_map net_key (option_copied result) ≡ usable_of tables.now sequence }
{
    if may_use(tables) {
        live_of(tables, sequence)
    } else {
        None
    }
}

/// Returns the row of a network key, in use or dropped.
pub fn net_of<'a>(tables: &'a Tables, key: &Key) -> Option<&'a NetRow>
    ensures { option_map net_key (option_copied result) ≡ net_of key.now.0 tables.now }
{
    key_row(tables.nets(), key)
}

/// Returns whether a network key has a row, in use or dropped.
pub fn has_net(tables: &Tables, key: &Key) -> bool
    ensures { result ≡ has_net key.now.0 tables.now.nets }
{
    has_row(tables.nets(), key)
}

/// Returns whether one of these rows is that of a key.
#[tactic(auto, using(zb_keys::proofs::Mapping::any_map))]
fn has_row(rows: &[NetRow], key: &Key) -> bool
    ensures { result ≡ has_net key.now.0 (map net_key rows.now) }
{
    has_key(rows, key)
}

/// Returns whether a network key is that of the active row.
pub fn is_active_key(tables: &Tables, key: &Key) -> bool
    ensures { result ≡ is_active_key tables.now.active key.now.0 }
{
    is_that_key(tables.active_key(), key)
}

/// Returns whether a key is the given one, if there is one.
pub(crate) fn is_that_key(active: Option<Key>, key: &Key) -> bool
    ensures { result ≡ is_active_key (option_map (λ k. k.0) active) key.now.0 }
{
    match active {
        Some(active) => active == *key,
        None => false,
    }
}

/// Returns whether a network key that is installed becomes active at once.
///
/// It does in a node that waits for one, and in a node without an active key.
pub fn activates(tables: &Tables) -> bool
    ensures { result ≡ activates tables.now }
{
    waits_for_key(tables.state()) || has_none(tables.active_key())
}

/// Returns whether a node in that state waits for a network key.
fn waits_for_key(state: State) -> bool
    ensures { result ≡ waits_for_key (model_state state) }
{
    matches!(state, State::Knocked | State::Rejoining)
}

/// Returns whether there is no key.
fn has_none(key: Option<Key>) -> bool
    ensures { result ≡ is_none (option_map (λ k. k.0) key) }
{
    match key {
        Some(_) => false,
        None => true,
    }
}

/// Returns whether there is no room for another network key.
pub fn nets_full(tables: &Tables) -> bool
    ensures { result ≡ nets_full tables.now }
{
    are_many(tables.nets())
}

/// Returns whether these are as many rows as there may be.
fn are_many(rows: &[NetRow]) -> bool
    ensures { result ≡ nat_le most_nets (length (map net_key rows.now)) }
{
    rows.len() >= 256
}

/// Returns the place of the dropped row of a network key, among all rows.
pub fn dropped_place(tables: &Tables, key: &Key) -> Option<u32>
    ensures { result ≡ dropped_at 0 key.now.0 tables.now.nets }
{
    tables.keep_rules();
    match dropped_row(tables.nets(), key) {
        Some(place) => Some(place as u32),
        None => None,
    }
}

/// Returns the place of the first of these rows that is dropped and has a key.
fn dropped_row(rows: &[NetRow], key: &Key) -> Option<usize>
    ensures at { result ≡ dropped_at 0 key.now.0 (map net_key rows.now) }
    ensures within { IfSome result (λ i. i < length rows.now) }
{
    for (i, row) in rows.iter().enumerate() {
        if row.key == *key && !row.live {
            return Some(i);
        }
    }
    None
}
