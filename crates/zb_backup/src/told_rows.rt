//! What a whole object tells: the rows of tables, and what stands before them in a record.
ghost use Rattle.std.specs.Prelude.{◌≡◌, [], codes, map, option_map};
ghost use Rattle.serde_json.specs.View.{items_view, view};
ghost use Rattle.zb_text.specs.Words.{Shows};
ghost use Rattle.zb_record.specs.Headings.{active_bytes};
ghost use Rattle.zb_record.specs.Records.{key_of};
ghost use Rattle.zb_record.specs.RowViews.{link_key, net_key, pair_key};
ghost use Rattle.zb_model.specs.Data.{Centre};
ghost use Rattle.zb_model.specs.Fits.{most_nets, most_links, most_pairs};
ghost use Rattle.zb_backup.specs.Told.{active_at, link_told, net_told, pair_told, rows_at, state_told, told_rows};
ghost use Rattle.zb_backup.specs.Steps.{Tells, told_state};

use crate::error::BackupError;
use crate::told::{link_told, list_at, net_told, number_at, pair_told, roll_at, whole_in};
use serde_json::Value;
use std::alloc::Global;
use zb_base::{Key, Role, State};
use zb_keys::{LinkRow, NetRow, Pair};
use zb_record::Heading;

/// What an object tells.
#[derive(Drop)]
pub(crate) struct Parts {
    pub(crate) heading: Heading,
    pub(crate) nets: Vec<NetRow>,
    pub(crate) links: Vec<LinkRow>,
    pub(crate) pairs: Vec<Pair>,
}

/// What was asked for, or that the text is no backup.
fn or_form<T: Drop>(found: Option<T>) -> Result<T, BackupError>
    ensures { Tells (λ x. x) result found }
{
    match found {
        Some(value) => Ok(value),
        None => Err(BackupError::Form),
    }
}

/// Returns the network keys of a list, at most 256.
fn nets_of(alloc: Global, list: &[Value]) -> Result<Vec<NetRow>, BackupError>
    ensures { Tells (λ v. map net_key v.items) result (told_rows most_nets net_told [] (items_view list.now)) }
{
    let mut rows = Vec::new(alloc);
    for item in list {
        if rows.len() >= 256 {
            return Err(BackupError::Form);
        }
        let row = or_form(net_told(item))?;
        rows.push(row)?;
    }
    Ok(rows)
}

/// Returns the network keys of a member.
#[tactic(auto, unfolding(crate::specs::Told::rows_at))]
fn nets_at(alloc: Global, object: &Value, name: &str) -> Result<Vec<NetRow>, BackupError>
    ensures { Tells (λ v. map net_key v.items) result (rows_at most_nets net_told name.now (view object.now)) }
{
    match list_at(object, name) {
        Some(list) => nets_of(alloc, list),
        None => Err(BackupError::Form),
    }
}

/// Returns the link keys of a list, at most 1,024.
fn links_of(alloc: Global, list: &[Value]) -> Result<Vec<LinkRow>, BackupError>
    ensures { Tells (λ v. map link_key v.items) result
        (told_rows (most_links Centre) link_told [] (items_view list.now)) }
{
    let mut rows = Vec::new(alloc);
    for item in list {
        if rows.len() >= 1024 {
            return Err(BackupError::Form);
        }
        let row = or_form(link_told(item))?;
        rows.push(row)?;
    }
    Ok(rows)
}

/// Returns the link keys of a member.
#[tactic(auto, unfolding(crate::specs::Told::rows_at))]
fn links_at(alloc: Global, object: &Value, name: &str) -> Result<Vec<LinkRow>, BackupError>
    ensures { Tells (λ v. map link_key v.items) result
        (rows_at (most_links Centre) link_told name.now (view object.now)) }
{
    match list_at(object, name) {
        Some(list) => links_of(alloc, list),
        None => Err(BackupError::Form),
    }
}

/// Returns the keys of pairs of devices of a list, at most 256.
fn pairs_of(alloc: Global, list: &[Value]) -> Result<Vec<Pair>, BackupError>
    ensures { Tells (λ v. map pair_key v.items) result (told_rows most_pairs pair_told [] (items_view list.now)) }
{
    let mut rows = Vec::new(alloc);
    for item in list {
        if rows.len() >= 256 {
            return Err(BackupError::Form);
        }
        let row = or_form(pair_told(item))?;
        rows.push(row)?;
    }
    Ok(rows)
}

/// Returns the keys of pairs of devices of a member.
#[tactic(auto, unfolding(crate::specs::Told::rows_at))]
fn pairs_at(alloc: Global, object: &Value, name: &str) -> Result<Vec<Pair>, BackupError>
    ensures { Tells (λ v. map pair_key v.items) result (rows_at most_pairs pair_told name.now (view object.now)) }
{
    match list_at(object, name) {
        Some(list) => pairs_of(alloc, list),
        None => Err(BackupError::Form),
    }
}

/// Returns the key of the row at a place, where there is one.
fn key_of(rows: &[NetRow], place: u32) -> Option<Key>
    ensures { Shows (λ key. key.0) result (key_of place (map net_key rows.now)) }
{
    match rows.get(place as usize) {
        Some(row) => Some(row.key),
        None => None,
    }
}

/// Returns the active network key, or none where its place is null.
#[tactic(auto, unfolding(crate::specs::Told::active_at))]
fn active_at(rows: &[NetRow], object: &Value, name: &str) -> Option<Option<Key>>
    ensures { Shows active_bytes result (active_at (map net_key rows.now) name.now (view object.now)) }
{
    let place = object.get(name)?;
    if place.is_null() {
        return Some(None);
    }
    let number = whole_in(65_535, place)?;
    let key = key_of(rows, number)?;
    Some(Some(key))
}

/// Returns what an object tells.
#[tactic(auto, unfolding(crate::specs::Told::state_told))]
pub(crate) fn told(alloc: Global, object: &Value) -> Result<Parts, BackupError>
    ensures { Tells told_state result (state_told (view object.now)) }
{
    let nets = nets_at(alloc, object, "nets")?;
    let links = links_at(alloc, object, "links")?;
    let pairs = pairs_at(alloc, object, "pairs")?;
    let active = or_form(active_at(nets.as_slice(), object, "active"))?;
    let aps_limit = or_form(number_at(object, "aps", u32::MAX))?;
    let declared = or_form(number_at(object, "nwk", u32::MAX))?;
    let rolling = or_form(roll_at(object, "roll"))?;
    let heading = Heading {
        role: Role::Centre,
        state: State::Fresh,
        declared,
        aps_limit,
        rolling,
        active,
    };
    Ok(Parts {
        heading,
        nets,
        links,
        pairs,
    })
}
