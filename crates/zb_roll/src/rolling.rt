//! The changes of a rollover: of its start, of its end, and of sending the new key to a device again.
ghost use Rattle.std.specs.Prelude.{◌≡◌, ◌≤◌, ◌+◌, ◌++◌, ◌∷◌, [], is_some, length, map, true};
ghost use Rattle.zb_node_types.specs.Changes.{edits};
ghost use Rattle.zb_model.specs.Data.{Moved, Untold};
ghost use Rattle.zb_model.specs.State.{active_row, is_told, newest};
ghost use Rattle.zb_record.specs.RowViews.{net_key};
ghost use Rattle.zb_roll.specs.Rolling.{finish_moves, start_moves, start_rule};
ghost use Rattle.zb_row_changes.specs.Planned.{answered, settled, told, IsFew};

use arrayvec::ArrayVec;
use zb_base::{Eui, Key, Rollover};
use zb_keys::{NetRow, Tables};
use zb_node_types::{Change, Changes, KeyError};
use zb_row_changes::{add, add_active};
use zb_rows::{add_drop_old, nets_full};

/// Adds the changes of the start of a rollover.
///
/// Of two network keys in use, the one that isn't active is dropped.
///
/// `net`: the active row. The new key gets the sequence number after the row's. Requires room for three more.
pub fn add_start(changes: &mut Changes, tables: &Tables, net: &NetRow, key: &Key)
    requires room { length changes.old.items ≤ 13 }
    ensures made { edits changes.new.items ≡ edits changes.old.items
        ++ map Moved (start_moves tables.now (net_key net.now) key.now.0) }
    ensures longer { length changes.new.items ≤ length changes.old.items + 3 }
{
    add_drop_old(tables, changes);
    add(
        changes,
        Change::Install {
            key: *key,
            sequence: net.sequence.wrapping_add(1),
        },
    );
    add(
        changes,
        Change::Roll {
            rollover: Rollover::Sending,
        },
    );
}

/// Lists the changes of the start of a rollover.
fn started(tables: &Tables, net: &NetRow, key: &Key) -> Changes
    ensures made { edits result.items ≡ map Moved (start_moves tables.now (net_key net.now) key.now.0) }
    ensures few { length result.items ≤ 5 }
{
    let mut changes = ArrayVec::new();
    add_start(&mut changes, tables, net, key);
    changes
}

/// Returns the changes of the start of a rollover to a network key.
///
/// Of two network keys in use the one that isn't active is dropped. The new one has the next sequence number, and no
/// device was told. Requires an active row. The changes fit outside a rollover, if no network row has the key.
///
/// # Errors
/// `KeysFull` at 256 network keys.
#[tactic(auto, unfolding(crate::specs::Rolling::start_rule, zb_row_changes::specs::Chains::steps))]
pub fn start(tables: &Tables, key: &Key) -> Result<Changes, KeyError>
    requires active { is_some (active_row tables.now) ≡ true }
    ensures rule { answered result ≡ told (start_rule tables.now key.now.0) }
    ensures few { IsFew result }
{
    match tables.active_row() {
        None => unreachable!(),
        Some(net) => {
            if nets_full(tables) {
                return Err(KeyError::KeysFull);
            }
            Ok(started(tables, net, key))
        }
    }
}

/// Returns the changes of the end of a rollover: the newest network key in use becomes active.
///
/// It is for a rollover that reached every live device, as `may_switch` says.
#[tactic(auto, using(crate::proofs::Ends::settled_idle, crate::proofs::Ends::settled_end))]
pub fn finish(tables: &Tables) -> Changes
    ensures rule { edits result.items ≡ settled tables.now (finish_moves (newest tables.now)) }
    ensures few { length result.items ≤ 5 }
{
    let mut changes = ArrayVec::new();
    match tables.newest() {
        Some(new) => add_active(&mut changes, tables, &new.key),
        None => {}
    }
    add(
        &mut changes,
        Change::Roll {
            rollover: Rollover::Idle,
        },
    );
    changes
}

/// Returns the changes that let a device be sent the new network key again.
///
/// Requires a live device that was told.
pub fn again(tables: &Tables, device: Eui) -> Changes
    requires { is_told tables.now device.0 ≡ true }
    ensures rule { edits result.items ≡ map Moved (Untold device.0 ∷ []) }
    ensures few { length result.items ≤ 5 }
{
    let mut changes = ArrayVec::new();
    add(&mut changes, Change::Untold { device });
    changes
}
