//! The questions that rules ask about link keys and the keys of pairs.
ghost use Rattle.std.specs.Prelude.{◌≡◌, ◌&&◌, ◌||◌, find, length, map, nat_eq, nat_le, not, option_map};
ghost use Rattle.std.specs.List.{list_any};
ghost use Rattle.std.specs.Option.{option_copied};
ghost use Rattle.zb_node_types.specs.Changes.{model_attribute, model_role};
ghost use Rattle.zb_record.specs.RowViews.{link_key, pair_key};
ghost use Rattle.zb_rows.specs.Asking.{is_row_as, key_is_used};
ghost use Rattle.zb_model.specs.Answer.{changes};
ghost use Rattle.zb_model.specs.Data.{Row};
ghost use Rattle.zb_model.specs.Fits.{most_links, most_pairs};
ghost use Rattle.zb_model.specs.Rules.{links_full, pairs_full, unless_held};
ghost use Rattle.zb_model.specs.State.{code_row, has_link, has_net, is_known, is_link, is_live, is_live_of, is_told, other_user, same_key};

use crate::nets::has_net;
use zb_base::{Attribute, Eui, Key, Role};
use zb_keys::{LinkRow, Pair, Tables};
use zb_record::attribute_byte;
use zb_record::link_row::{has_live, has_told, link_room, live_row, other_row};

/// Returns the row of a partner and a key, in use or dropped.
pub fn link_of<'a>(tables: &'a Tables, partner: Eui, key: &Key) -> Option<&'a LinkRow>
    ensures { option_map link_key (option_copied result) ≡ find (is_link partner.0 key.now.0) tables.now.links }
{
    row_of(tables.links(), partner, key)
}

/// Returns the one of these rows that has a partner and a key.
fn row_of<'a>(rows: &'a [LinkRow], partner: Eui, key: &Key) -> Option<&'a LinkRow>
    ensures { option_copied result ≡ find (λ r. is_link partner.0 key.now.0 (link_key r)) rows.now }
{
    rows.iter()
        .find(|row| row.partner.0 == partner.0 && row.key == *key)
}

/// Returns the first row in use of a partner.
pub fn live_link(tables: &Tables, partner: Eui) -> Option<&LinkRow>
    ensures { option_map link_key (option_copied result) ≡ find (is_live_of partner.0) tables.now.links }
{
    live_row(tables.links(), partner)
}

/// Returns the row of the node's own install code.
///
/// It is the first row of the centre that comes from an install code.
pub fn code_row(tables: &Tables, centre: Eui) -> Option<&LinkRow>
    ensures { option_map link_key (option_copied result) ≡ code_row tables.now centre.0 }
{
    row_with_code(tables.links(), centre)
}

/// Returns the first of these rows that is of a partner and from an install code.
fn row_with_code<'a>(rows: &'a [LinkRow], partner: Eui) -> Option<&'a LinkRow>
    ensures { option_copied result ≡ find (λ r. nat_eq (link_key r).partner partner.0 && (link_key r).code) rows.now }
{
    rows.iter()
        .find(|row| row.partner.0 == partner.0 && row.code)
}

/// Returns the row of another partner, in use or dropped, that has a key.
pub fn other_user<'a>(tables: &'a Tables, partner: Eui, key: &Key) -> Option<&'a LinkRow>
    ensures { option_map link_key (option_copied result) ≡ other_user tables.now partner.0 key.now.0 }
{
    other_row(tables.links(), partner, key)
}

/// Returns whether a partner has a row of a key, in use or dropped.
pub fn has_link(tables: &Tables, partner: Eui, key: &Key) -> bool
    ensures { result ≡ has_link partner.0 key.now.0 tables.now.links }
{
    has_row(tables.links(), partner, key)
}

/// Returns whether one of these rows has that partner and key.
#[tactic(auto, using(zb_keys::proofs::Mapping::any_map))]
fn has_row(rows: &[LinkRow], partner: Eui, key: &Key) -> bool
    ensures { result ≡ has_link partner.0 key.now.0 (map link_key rows.now) }
{
    zb_record::link_row::has_row(rows, partner, key)
}

/// Returns whether any partner's row, in use or dropped, has a key.
pub fn uses_key(tables: &Tables, key: &Key) -> bool
    ensures { result ≡ key_is_used tables.now key.now.0 }
{
    is_used(tables.links(), key)
}

/// Returns whether one of these rows has a key.
fn is_used(rows: &[LinkRow], key: &Key) -> bool
    ensures { result ≡ list_any (λ r. same_key (link_key r).key key.now.0) rows.now }
{
    rows.iter().any(|row| row.key == *key)
}

/// Returns a key of the supply, unless a row of the node already has it.
pub fn unless_held(tables: &Tables, draw: Option<Key>) -> Option<Key>
    ensures { option_map (λ k. k.0) result ≡ unless_held tables.now (option_map (λ k. k.0) draw) }
{
    match draw {
        Some(key) => {
            if is_held(tables, &key) {
                None
            } else {
                Some(key)
            }
        }
        None => None,
    }
}

/// Returns whether a row of the node has a key.
fn is_held(tables: &Tables, key: &Key) -> bool
    ensures { result ≡ (has_net key.now.0 tables.now.nets || key_is_used tables.now key.now.0) }
{
    has_net(tables, key) || uses_key(tables, key)
}

/// Returns whether a device is live: it has a row in use.
#[tactic(auto, unfolding(zb_model::specs::State::is_live))]
pub fn is_live(tables: &Tables, partner: Eui) -> bool
    ensures { result ≡ is_live tables.now partner.0 }
{
    has_live_row(tables.links(), partner)
}

/// Returns whether one of these rows is in use and of a partner.
#[tactic(auto, using(zb_keys::proofs::Mapping::any_map))]
fn has_live_row(rows: &[LinkRow], partner: Eui) -> bool
    ensures { result ≡ list_any (is_live_of partner.0) (map link_key rows.now) }
{
    has_live(rows, partner)
}

/// Returns whether a partner has a row, in use or dropped.
pub fn is_known(tables: &Tables, partner: Eui) -> bool
    ensures { result ≡ is_known tables.now partner.0 }
{
    has_row_of(tables.links(), partner)
}

/// Returns whether one of these rows is of a partner.
fn has_row_of(rows: &[LinkRow], partner: Eui) -> bool
    ensures { result ≡ list_any (λ r. nat_eq (link_key r).partner partner.0) rows.now }
{
    rows.iter().any(|row| row.partner.0 == partner.0)
}

/// Returns whether a partner was told: it was sent the newest network key.
#[tactic(auto, unfolding(zb_model::specs::State::is_told))]
pub fn is_told(tables: &Tables, partner: Eui) -> bool
    ensures { result ≡ is_told tables.now partner.0 }
{
    has_told_row(tables.links(), partner)
}

/// Returns whether one of these rows is in use, of a partner, and told.
#[tactic(auto, using(zb_keys::proofs::Mapping::any_map))]
fn has_told_row(rows: &[LinkRow], partner: Eui) -> bool
    ensures { result ≡ list_any (λ r. is_live_of partner.0 r && r.told) (map link_key rows.now) }
{
    has_told(rows, partner)
}

/// Returns whether a partner's key is in use and already has an attribute.
///
/// A row with that key and attribute would then change nothing.
pub fn has_row_as(tables: &Tables, partner: Eui, key: &Key, attribute: Attribute) -> bool
    ensures { not result ≡ changes tables.now (Row partner.0 key.now.0 (model_attribute attribute)) }
{
    has_that_row(tables.links(), partner, key, attribute)
}

/// Returns whether one of these rows has a partner and a key, and is in use with an attribute.
fn has_that_row(rows: &[LinkRow], partner: Eui, key: &Key, attribute: Attribute) -> bool
    ensures { result
        ≡ list_any (λ r. is_row_as partner.0 key.now.0 (model_attribute attribute) (link_key r)) rows.now }
{
    rows.iter()
        .any(|row| is_row_as(row, partner, key, attribute))
}

/// Returns whether a row has a partner and a key, and is in use with an attribute.
fn is_row_as(row: &LinkRow, partner: Eui, key: &Key, attribute: Attribute) -> bool
    ensures { result ≡ is_row_as partner.0 key.now.0 (model_attribute attribute) (link_key row.now) }
{
    row.is_of(partner, key)
        && row.live
        && attribute_byte(row.attribute) == attribute_byte(attribute)
}

/// Returns whether there is no room for another link key.
pub fn links_full(tables: &Tables) -> bool
    ensures { result ≡ links_full tables.now }
{
    are_many(tables.links(), tables.role())
}

/// Returns whether these are as many rows as a node of that role may have.
fn are_many(rows: &[LinkRow], role: Role) -> bool
    ensures { result ≡ nat_le (most_links (model_role role)) (length (map link_key rows.now)) }
{
    rows.len() >= link_room(role)
}

/// Returns whether there is no room for another pair.
pub fn pairs_full(tables: &Tables) -> bool
    ensures { result ≡ pairs_full tables.now }
{
    are_many_pairs(tables.pairs())
}

/// Returns whether these are as many pairs as there may be.
fn are_many_pairs(pairs: &[Pair]) -> bool
    ensures { result ≡ nat_le most_pairs (length (map pair_key pairs.now)) }
{
    pairs.len() >= 256
}
