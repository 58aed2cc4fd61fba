//! The changes of link keys: one is entered, offered, shared with a partner, or dropped.
ghost use Rattle.std.specs.Prelude.{◌≡◌, ◌≤◌, ◌+◌, ◌++◌, ◌∷◌, [], List, false, length, map, option_map};
ghost use Rattle.std.specs.Option.{option_copied};
ghost use Rattle.zb_node_types.specs.Changes.{edits};
ghost use Rattle.zb_model.specs.Commands.{has_key, take_row};
ghost use Rattle.zb_model.specs.Data.{Live, Move, Moved, Provisional, Row, Unverified, Verified};
ghost use Rattle.zb_model.specs.OwnEvents.{provision};
ghost use Rattle.zb_model.specs.Rules.{drop_partner, drop_row};
ghost use Rattle.zb_model.specs.State.{is_live, offered};
ghost use Rattle.zb_rows.specs.RowViews.{link_key};
ghost use Rattle.zb_row_changes.specs.Planned.{answered, offer_rule, partner_rule, refused_or, told, IsFew};

use crate::adding::{add, add_drop};
use arrayvec::ArrayVec;
use zb_base::{Attribute, Eui, Key};
use zb_node_types::{Change, Changes, KeyError};
use zb_rows::{LinkRow, Tables, add_drop_partner, has_link, links_full, live_link, other_user};

/// Returns why a link key gets no row, if it can't get one.
///
/// There is no room for a row, or another partner's row has the key.
#[tactic(auto, unfolding(crate::specs::Chains::steps))]
pub fn row_refusal(tables: &Tables, partner: Eui, key: &Key) -> Option<KeyError>
    ensures { (moves : List Move) → told (take_row tables.now partner.0 key.now.0 moves) ≡ refused_or result moves }
{
    if !has_link(tables, partner, key) && links_full(tables) {
        return Some(KeyError::RowsFull);
    }
    match other_user(tables, partner, key) {
        Some(row) => Some(KeyError::KeyInUse {
            partner: row.partner,
        }),
        None => None,
    }
}

/// Lists the changes of an admission. The row of the install code's key is new or revived, and provisional. The device
/// becomes live.
fn admitted(device: Eui, key: &Key) -> Changes
    ensures made { edits result.items ≡ map Moved (Row device.0 key.now.0 Provisional ∷ Live device.0 ∷ []) }
    ensures few { length result.items ≤ 5 }
{
    let mut changes = ArrayVec::new();
    add(
        &mut changes,
        Change::Row {
            partner: device,
            key: *key,
            attribute: Attribute::Provisional,
        },
    );
    add(&mut changes, Change::Live { device });
    changes
}

/// Returns the changes of the centre when the link key of a device's install code is entered.
///
/// The key's row is new or revived, and the device becomes live.
///
/// Requires a device that isn't live.
///
/// # Errors
/// `RowsFull` if there is no room for a new row; `KeyInUse` if another device's row has the key.
#[tactic(auto, unfolding(zb_model::specs::OwnEvents::provision, crate::specs::Chains::steps))]
pub fn provision(tables: &Tables, device: Eui, key: &Key) -> Result<Changes, KeyError>
    requires { is_live tables.now device.0 ≡ false }
    ensures rule { answered result ≡ told (provision tables.now device.0 key.now.0) }
    ensures few { IsFew result }
{
    if !has_link(tables, device, key) && links_full(tables) {
        return Err(KeyError::RowsFull);
    }
    match other_user(tables, device, key) {
        Some(row) => Err(KeyError::KeyInUse {
            partner: row.partner,
        }),
        None => Ok(admitted(device, key)),
    }
}

/// Returns whether that row has the key.
pub fn has_key(row: Option<&LinkRow>, key: &Key) -> bool
    ensures { result ≡ has_key key.now.0 (option_map link_key (option_copied row.entry)) }
{
    match row {
        Some(row) => row.key == *key,
        None => false,
    }
}

/// Adds the changes for an offered link key: it becomes the offered one, and another offered one is dropped.
///
/// Requires room for two more.
pub fn add_offer(changes: &mut Changes, tables: &Tables, partner: Eui, key: &Key)
    requires room { length changes.old.items ≤ 14 }
    ensures made { edits changes.new.items ≡ edits changes.old.items
        ++ map Moved (drop_row (offered tables.now partner.0) ++ (Row partner.0 key.now.0 Unverified ∷ [])) }
    ensures longer { length changes.new.items ≤ length changes.old.items + 2 }
{
    add_drop(changes, tables.offered(partner));
    add(
        changes,
        Change::Row {
            partner,
            key: *key,
            attribute: Attribute::Unverified,
        },
    );
}

/// Lists the changes for an offered link key.
fn offered(tables: &Tables, partner: Eui, key: &Key) -> Changes
    ensures made { edits result.items ≡ map Moved (drop_row (offered tables.now partner.0)
        ++ (Row partner.0 key.now.0 Unverified ∷ [])) }
    ensures few { length result.items ≤ 5 }
{
    let mut changes = ArrayVec::new();
    add_offer(&mut changes, tables, partner, key);
    changes
}

/// Returns the changes for a link key that is offered.
///
/// There are none if it is the current or the offered one.
///
/// Otherwise it becomes the offered one and replaces another. Its row is new or revived, and unverified.
///
/// # Errors
/// `RowsFull` if there is no room for a new row; `KeyInUse` if another partner's row has the key.
#[tactic(auto, unfolding(crate::specs::Planned::offer_rule, zb_model::specs::Rules::choose))]
pub fn offer(tables: &Tables, partner: Eui, key: &Key) -> Result<Changes, KeyError>
    ensures rule { answered result ≡ told (offer_rule tables.now partner.0 key.now.0) }
    ensures few { IsFew result }
{
    if has_key(tables.current(partner), key) || has_key(tables.offered(partner), key) {
        return Ok(ArrayVec::new());
    }
    match row_refusal(tables, partner, key) {
        Some(error) => Err(error),
        None => Ok(offered(tables, partner, key)),
    }
}

/// Lists the changes for a key with a partner: it replaces the partner's rows in use, and is verified.
fn shared(tables: &Tables, partner: Eui, key: &Key) -> Changes
    ensures made { edits result.items ≡ map Moved (drop_partner tables.now partner.0
        ++ (Row partner.0 key.now.0 Verified ∷ [])) }
    ensures few { length result.items ≤ 5 }
{
    let mut changes = ArrayVec::new();
    add_drop_partner(tables, &mut changes, partner);
    add(
        &mut changes,
        Change::Row {
            partner,
            key: *key,
            attribute: Attribute::Verified,
        },
    );
    changes
}

/// Returns the changes for a key that is shared with a partner.
///
/// There are none if the partner's row in use has it.
///
/// Otherwise it replaces the partner's rows in use. Its row is new or revived, and verified.
///
/// # Errors
/// `RowsFull` if there is no room for a new row; `KeyInUse` if another partner's row has the key.
#[tactic(auto, unfolding(crate::specs::Planned::partner_rule, zb_model::specs::Rules::choose))]
pub fn partner(tables: &Tables, partner: Eui, key: &Key) -> Result<Changes, KeyError>
    ensures rule { answered result ≡ told (partner_rule tables.now partner.0 key.now.0) }
    ensures few { IsFew result }
{
    if has_key(live_link(tables, partner), key) {
        return Ok(ArrayVec::new());
    }
    match row_refusal(tables, partner, key) {
        Some(error) => Err(error),
        None => Ok(shared(tables, partner, key)),
    }
}

/// Returns the changes that drop a partner.
///
/// Each of its rows in use is dropped; there are at most two.
pub fn drop_partner(tables: &Tables, partner: Eui) -> Changes
    ensures rule { edits result.items ≡ map Moved (drop_partner tables.now partner.0) }
    ensures few { length result.items ≤ 2 }
{
    let mut changes = ArrayVec::new();
    add_drop_partner(tables, &mut changes, partner);
    changes
}
