//! The drops that several rules make, in the form of the rules: none is left out, and no counter starts.
ghost use Rattle.std.specs.Prelude.{◌≡◌, ◌<◌, ◌≤◌, ◌+◌, ◌++◌, ◌∷◌, [], ◌&&◌, not, filter, find, length, map, option_map};
ghost use Rattle.std.specs.Option.{option_copied};
ghost use Rattle.zb_node_types.specs.Changes.{edit, edits};
ghost use Rattle.zb_record.specs.RowViews.{link_key, net_key};
ghost use Rattle.zb_rows.specs.Asking.{goes, is_spared};
ghost use Rattle.zb_model.specs.Data.{Moved};
ghost use Rattle.zb_model.specs.Rules.{drop_link, drop_old, drop_others, drop_partner};
ghost use Rattle.zb_model.specs.State.{is_active_key};

use crate::nets::is_that_key;
use zb_base::{Eui, Key};
use zb_keys::{LinkRow, NetRow, Tables};
use zb_node_types::{Change, Changes};

/// Adds the drops of all rows in use of a partner, at most two.
pub fn add_drop_partner(tables: &Tables, changes: &mut Changes, partner: Eui)
    requires { length changes.old.items ≤ 14 }
    ensures made { edits changes.new.items ≡ edits changes.old.items ++ map Moved (drop_partner tables.now partner.0) }
    ensures few { length changes.new.items ≤ length changes.old.items + 2 }
{
    tables.keep_rules();
    add_drops(tables.links(), partner, None, changes);
}

/// Adds the drops of all rows in use of a partner except that of a key.
pub fn add_drop_others(tables: &Tables, changes: &mut Changes, partner: Eui, key: &Key)
    requires { length changes.old.items ≤ 14 }
    ensures made { edits changes.new.items
        ≡ edits changes.old.items ++ map Moved (drop_others tables.now partner.0 key.now.0) }
    ensures few { length changes.new.items ≤ length changes.old.items + 2 }
{
    tables.keep_rules();
    add_drops(tables.links(), partner, Some(*key), changes);
}

/// Adds the drops of those of these rows that are to be dropped, at most two.
fn add_drops(rows: &[LinkRow], partner: Eui, spared: Option<Key>, changes: &mut Changes)
    requires few { length (filter (goes partner.0 (option_map (λ k. k.0) spared)) (map link_key rows.now)) ≤ 2 }
    requires room { length changes.old.items ≤ 14 }
    ensures made { edits changes.new.items ≡ edits changes.old.items ++ map Moved (map drop_link
        (filter (goes partner.0 (option_map (λ k. k.0) spared)) (map link_key rows.now))) }
    ensures few { length changes.new.items ≤ length changes.old.items + 2 }
{
    for row in rows {
        if goes(row, partner, spared) {
            add(
                changes,
                Change::DropLink {
                    partner: row.partner,
                    key: row.key,
                },
            );
        }
    }
}

/// Returns whether a row is in use and of a partner, and its key isn't spared.
fn goes(row: &LinkRow, partner: Eui, spared: Option<Key>) -> bool
    ensures { result ≡ goes partner.0 (option_map (λ k. k.0) spared) (link_key row.now) }
{
    row.is_live_of(partner) && !is_spared(spared, &row.key)
}

/// Returns whether a key is the spared one, if there is one.
fn is_spared(spared: Option<Key>, key: &Key) -> bool
    ensures { result ≡ is_spared (option_map (λ k. k.0) spared) key.now.0 }
{
    match spared {
        Some(spared) => *key == spared,
        None => false,
    }
}

/// Adds the drop that makes room for a third network key in use, if there are two.
///
/// It drops the first one that isn't active.
pub fn add_drop_old(tables: &Tables, changes: &mut Changes)
    requires { length changes.old.items ≤ 14 }
    ensures made { edits changes.new.items ≡ edits changes.old.items ++ map Moved (drop_old tables.now) }
    ensures few { length changes.new.items ≤ length changes.old.items + 1 }
{
    if count_live(tables.nets()) < 2 {
        return;
    }
    match idle_row(tables.nets(), tables.active_key()) {
        Some(row) => add(changes, Change::DropNet { key: row.key }),
        None => {}
    }
}

/// Counts those of these network keys that are in use.
fn count_live(rows: &[NetRow]) -> usize
    ensures { result ≡ length (filter (λ r. (net_key r).live) rows.now) }
{
    let mut count = 0;
    for row in rows {
        if row.live {
            count += 1;
        }
    }
    count
}

/// Returns the first of these network keys that is in use and isn't the active one.
fn idle_row(rows: &[NetRow], active: Option<Key>) -> Option<&NetRow>
    ensures { option_copied result ≡ find (λ r. (net_key r).live
        && not (is_active_key (option_map (λ k. k.0) active) (net_key r).key)) rows.now }
{
    rows.iter()
        .find(|row| row.live && !is_that_key(active, &row.key))
}

/// Adds a change, for which there is room.
fn add(changes: &mut Changes, change: Change)
    requires { length changes.old.items < 16 }
    ensures made { edits changes.new.items ≡ edits changes.old.items ++ edit change ∷ [] }
    ensures few { length changes.new.items ≤ length changes.old.items + 1 }
{
    changes.push(change);
}
