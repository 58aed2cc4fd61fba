//! The changes of network keys: one is installed, and one becomes active.
ghost use Rattle.std.specs.Prelude.{◌≡◌, ◌≤◌, ◌+◌, ◌++◌, ◌∷◌, [], length};
ghost use Rattle.zb_node_types.specs.Changes.{edits};
ghost use Rattle.zb_model.specs.Data.{Active, Install};
ghost use Rattle.zb_model.specs.Rules.{drop_old};
ghost use Rattle.zb_row_changes.specs.Planned.{answered, arrival, net_rule, settled, stored, switch_rule, IsFew};

use crate::adding::add;
use arrayvec::ArrayVec;
use zb_base::Key;
use zb_node_types::{Change, Changes, KeyError};
use zb_rows::{
    Tables, activates, add_drop_old, dropped_place, first_counter, has_net, has_started,
    is_active_key, live_of, nets_full,
};

/// Adds what makes a network key active: nothing, if it is active already.
///
/// If it never was active, its first counter follows. Requires room for two more.
#[tactic(auto, unfolding(crate::specs::Planned::settled))]
pub fn add_active(changes: &mut Changes, tables: &Tables, key: &Key)
    requires room { length changes.old.items ≤ 14 }
    ensures made { edits changes.new.items ≡ edits changes.old.items ++ settled tables.now (Active key.now.0 ∷ []) }
    ensures longer { length changes.new.items ≤ length changes.old.items + 2 }
{
    if is_active_key(tables, key) {
        return;
    }
    add(changes, Change::Active { key: *key });
    if !has_started(tables, key) {
        let value = first_counter(tables);
        add(changes, Change::Start { key: *key, value });
    }
}

/// Adds what makes an installed network key active, in a node that waits for it or has no active key.
#[tactic(auto, unfolding(crate::specs::Planned::settled))]
fn add_arrival(changes: &mut Changes, tables: &Tables, key: &Key)
    requires room { length changes.old.items ≤ 14 }
    ensures made { edits changes.new.items
        ≡ edits changes.old.items ++ settled tables.now (arrival tables.now key.now.0) }
    ensures longer { length changes.new.items ≤ length changes.old.items + 2 }
{
    if activates(tables) {
        add_active(changes, tables, key);
    }
}

/// Lists the changes for a network key that is already in use.
fn known(tables: &Tables, key: &Key) -> Changes
    ensures made { edits result.items ≡ settled tables.now (arrival tables.now key.now.0) }
    ensures few { length result.items ≤ 5 }
{
    let mut changes = ArrayVec::new();
    add_arrival(&mut changes, tables, key);
    changes
}

/// Lists the changes for a new network key: of two in use, the one that isn't active is dropped.
#[tactic(auto, using(crate::proofs::Settled::settled_new))]
fn installed(tables: &Tables, key: &Key, sequence: u8) -> Changes
    ensures made { edits result.items
        ≡ settled tables.now (drop_old tables.now ++ (Install key.now.0 sequence ∷ arrival tables.now key.now.0)) }
    ensures few { length result.items ≤ 5 }
{
    let mut changes = ArrayVec::new();
    add_drop_old(tables, &mut changes);
    add(
        &mut changes,
        Change::Install {
            key: *key,
            sequence,
        },
    );
    add_arrival(&mut changes, tables, key);
    changes
}

/// Returns the changes for a network key that is installed.
///
/// A key in use gets no second row. A new key gets a row. If two keys are in use, one of them is dropped first: the
/// one that isn't active, or the first if none is. The new key becomes active in a node that knocks or rejoins, and in
/// a node without an active key.
///
/// # Errors
/// `KeyOld` with the place of the dropped row that has the key; `KeysFull` at 256 network keys.
#[tactic(auto, unfolding(crate::specs::Planned::net_rule, crate::specs::Chains::steps))]
pub fn install_net(tables: &Tables, key: &Key, sequence: u8) -> Result<Changes, KeyError>
    ensures rule { answered result ≡ stored tables.now (net_rule tables.now key.now.0 sequence) }
    ensures few { IsFew result }
{
    if let Some(place) = dropped_place(tables, key) {
        return Err(KeyError::KeyOld { place });
    }
    if has_net(tables, key) {
        return Ok(known(tables, key));
    }
    if nets_full(tables) {
        return Err(KeyError::KeysFull);
    }
    Ok(installed(tables, key, sequence))
}

/// Lists what makes a network key active.
fn activation(tables: &Tables, key: &Key) -> Changes
    ensures made { edits result.items ≡ settled tables.now (Active key.now.0 ∷ []) }
    ensures few { length result.items ≤ 5 }
{
    let mut changes = ArrayVec::new();
    add_active(&mut changes, tables, key);
    changes
}

/// Returns the changes of a switch to a sequence number.
///
/// The newest network key in use with that number becomes active.
///
/// # Errors
/// `NoRow` if no network key in use has the sequence.
#[tactic(auto, unfolding(crate::specs::Planned::switch_rule, crate::specs::Chains::steps))]
pub fn switch(tables: &Tables, sequence: u8) -> Result<Changes, KeyError>
    ensures rule { answered result ≡ stored tables.now (switch_rule tables.now sequence) }
    ensures few { IsFew result }
{
    match live_of(tables, sequence) {
        None => Err(KeyError::NoRow),
        Some(row) => Ok(activation(tables, &row.key)),
    }
}
