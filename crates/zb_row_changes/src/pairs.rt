//! The changes of the keys of two devices.
ghost use Rattle.std.specs.Prelude.{◌≡◌, ◌<◌, ◌≤◌, ◌+◌, ◌++◌, ◌∷◌, [], length, map};
ghost use Rattle.zb_node_types.specs.Changes.{edits};
ghost use Rattle.zb_model.specs.Commands.{greater, lesser};
ghost use Rattle.zb_model.specs.Data.{Moved, Pair as Paired};
ghost use Rattle.zb_row_changes.specs.Planned.{answered, pair_rule, told, IsFew};

use crate::adding::add;
use arrayvec::ArrayVec;
use zb_base::{Eui, Key};
use zb_node_types::{Change, Changes, KeyError};
use zb_rows::{Tables, pairs_full};

/// Adds the pair of two devices, the smaller EUI first.
///
/// Requires room for one more.
pub fn add_pair(changes: &mut Changes, a: Eui, b: Eui, key: &Key)
    requires room { length changes.old.items < 16 }
    ensures made { edits changes.new.items ≡ edits changes.old.items
        ++ map Moved (Paired (lesser a.0 b.0) (greater a.0 b.0) key.now.0 ∷ []) }
    ensures longer { length changes.new.items ≡ length changes.old.items + 1 }
{
    let (first, second) = if a.0 < b.0 { (a, b) } else { (b, a) };
    add(
        changes,
        Change::Pair {
            first,
            second,
            key: *key,
        },
    );
}

/// Lists the pair of two devices.
fn paired(a: Eui, b: Eui, key: &Key) -> Changes
    ensures made { edits result.items ≡ map Moved (Paired (lesser a.0 b.0) (greater a.0 b.0) key.now.0 ∷ []) }
    ensures few { length result.items ≤ 5 }
{
    let mut changes = ArrayVec::new();
    add_pair(&mut changes, a, b, key);
    changes
}

/// Returns the changes of the centre for a key for two devices: they get a pair with it.
///
/// The pair fits two different devices without one.
///
/// # Errors
/// `RowsFull` at 256 pairs.
#[tactic(auto, unfolding(crate::specs::Planned::pair_rule, crate::specs::Chains::steps))]
pub fn pair(tables: &Tables, a: Eui, b: Eui, key: &Key) -> Result<Changes, KeyError>
    ensures rule { answered result ≡ told (pair_rule tables.now a.0 b.0 key.now.0) }
    ensures few { IsFew result }
{
    if pairs_full(tables) {
        return Err(KeyError::RowsFull);
    }
    Ok(paired(a, b, key))
}
