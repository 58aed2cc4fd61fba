//! The changes of a link key that a partner proves by its hash.
ghost use Rattle.std.specs.Prelude.{◌≡◌, ◌≤◌, ◌++◌, ◌∷◌, [], length, map, option_map};
ghost use Rattle.std.specs.Option.{option_copied};
ghost use Rattle.zb_node_types.specs.Changes.{edits};
ghost use Rattle.zb_model.specs.Commands.{proves, verified_current};
ghost use Rattle.zb_model.specs.Data.{Moved, Row, Verified};
ghost use Rattle.zb_model.specs.Rules.{drop_row};
ghost use Rattle.zb_model.specs.State.{current};
ghost use Rattle.zb_model_real.specs.Real.{real};
ghost use Rattle.zb_rows.specs.RowViews.{link_key};
ghost use Rattle.zb_row_changes.specs.Planned.{answered, told, verify_rule, IsFew};

use crate::adding::{add, add_drop};
use arrayvec::ArrayVec;
use zb_base::{Attribute, Eui, Key};
use zb_mmo::verify_hash;
use zb_node_types::{Change, Changes, KeyError};
use zb_rows::{LinkRow, Tables};

/// Returns whether the hash is that of the row's key.
#[tactic(auto, unfolding(zb_model_real::specs::Real::real))]
pub fn is_proved(row: Option<&LinkRow>, hash: &[u8; 16]) -> bool
    ensures { result ≡ proves real hash.now (option_map link_key (option_copied row.entry)) }
{
    match row {
        Some(row) => verify_hash(&row.key) == *hash,
        None => false,
    }
}

/// Returns the current row of a partner if it is verified.
pub fn verified_row<'a>(tables: &'a Tables, partner: Eui) -> Option<&'a LinkRow>
    ensures { option_map link_key (option_copied result) ≡ verified_current tables.now partner.0 }
{
    match tables.current(partner) {
        None => None,
        Some(row) => { if row.is_verified() { Some(row) } else { None } }
    }
}

/// Lists the changes when the offered key is proved: it is verified, and the current one is dropped.
pub fn verified(tables: &Tables, partner: Eui, key: &Key) -> Changes
    ensures made { edits result.items ≡ map Moved
        (drop_row (current tables.now partner.0) ++ (Row partner.0 key.now.0 Verified ∷ [])) }
    ensures few { length result.items ≤ 5 }
{
    let mut changes = ArrayVec::new();
    add_drop(&mut changes, tables.current(partner));
    add(
        &mut changes,
        Change::Row {
            partner,
            key: *key,
            attribute: Attribute::Verified,
        },
    );
    changes
}

/// Returns the changes when a partner proves a key by its hash.
///
/// A proof of the offered key verifies it, and the current one is dropped. A proof of the verified current key changes
/// nothing.
///
/// # Errors
/// `NoRow` if the partner has neither an offered row nor a verified current one; `WrongHash` if it has one, and the
/// hash is of neither key.
#[tactic(auto, unfolding(crate::specs::Planned::verify_rule, crate::specs::Chains::steps))]
pub fn verify(tables: &Tables, partner: Eui, hash: &[u8; 16]) -> Result<Changes, KeyError>
    ensures rule { answered result ≡ told (verify_rule real tables.now partner.0 hash.now) }
    ensures few { IsFew result }
{
    if tables.offered(partner).is_none() && verified_row(tables, partner).is_none() {
        return Err(KeyError::NoRow);
    }
    if let Some(row) = tables.offered(partner) {
        if is_proved(Some(row), hash) {
            return Ok(verified(tables, partner, &row.key));
        }
    }
    if let Some(row) = verified_row(tables, partner) {
        if is_proved(Some(row), hash) {
            return Ok(ArrayVec::new());
        }
    }
    Err(KeyError::WrongHash)
}
