//! The changes of a rule as they are stored.
ghost use Rattle.std.specs.Prelude.{◌≡◌, ◌<◌, ◌≤◌, ◌+◌, ◌*◌, ◌++◌, length, option_map};
ghost use Rattle.zb_model.specs.Answer.{start_edit, start_for};
ghost use Rattle.zb_node_types.specs.Changes.{edit, edits};
ghost use Rattle.zb_plan.specs.Settling.{activates, active_in, is_change, settled, settled_edits, start_behind};

use zb_base::Key;
use zb_keys::Tables;
use zb_node_types::{Change, Changes};
use zb_record::state_byte;
use zb_rules::{add, first_counter, has_row_as, has_started, is_active_key};

/// Returns whether a change doesn't leave a thing as it is.
#[tactic(auto, unfolding(zb_model::specs::Answer::changes))]
fn is_change(tables: &Tables, change: &Change) -> bool
    ensures { result ≡ is_change tables.now (edit change.now) }
{
    match change {
        Change::Row {
            partner,
            key,
            attribute,
        } => !has_row_as(tables, *partner, key, *attribute),
        Change::Active { key } => !is_active_key(tables, key),
        Change::State { state } => state_byte(tables.state()) != state_byte(*state),
        _ => true,
    }
}

/// Returns the key that a change makes active.
#[tactic(auto, unfolding(zb_model::specs::Answer::changes))]
fn activates(tables: &Tables, change: &Change) -> Option<Key>
    ensures { option_map (λ k. k.0) result ≡ activates tables.now (edit change.now) }
{
    match change {
        Change::Active { key } => {
            if is_active_key(tables, key) {
                None
            } else {
                Some(*key)
            }
        }
        _ => None,
    }
}

/// Returns the key that becomes active by these changes.
#[tactic(auto, unfolding(crate::specs::Settling::active_in))]
pub(crate) fn activated(tables: &Tables, made: &[Change]) -> Option<Key>
    ensures { option_map (λ k. k.0) result ≡ active_in tables.now (edits made.now) }
{
    for change in made {
        match activates(tables, change) {
            Some(key) => return Some(key),
            None => {}
        }
    }
    None
}

/// Returns the first counter of a key that becomes active: none where it was active before.
pub(crate) fn start_for(tables: &Tables, key: Option<Key>) -> Option<u32>
    ensures { result ≡ start_for tables.now (option_map (λ k. k.0) key) }
{
    match key {
        None => None,
        Some(key) => {
            if has_started(tables, &key) {
                None
            } else {
                Some(first_counter(tables))
            }
        }
    }
}

/// Adds the first counter of a key, if there is one.
///
/// Requires room for one more.
fn add_start(changes: &mut Changes, key: &Key, start: Option<u32>)
    requires room { length changes.old.items < 16 }
    ensures made { edits changes.new.items ≡ edits changes.old.items ++ start_edit key.now.0 start }
    ensures longer { length changes.new.items ≤ length changes.old.items + 1 }
{
    match start {
        Some(value) => add(changes, Change::Start { key: *key, value }),
        None => {}
    }
}

/// Adds the first counter of the key that a change makes active.
///
/// Requires room for one more.
fn add_start_behind(changes: &mut Changes, start: Option<u32>, change: &Change)
    requires room { length changes.old.items < 16 }
    ensures made { edits changes.new.items ≡ edits changes.old.items ++ start_behind start (edit change.now) }
    ensures longer { length changes.new.items ≤ length changes.old.items + 1 }
{
    match change {
        Change::Active { key } => add_start(changes, key, start),
        _ => {}
    }
}

/// Adds a change that changes something, and after it the first counter of a key that becomes active.
///
/// Requires room for two more.
#[tactic(auto, unfolding(crate::specs::Settling::settled_edits))]
fn add_settled(changes: &mut Changes, tables: &Tables, start: Option<u32>, change: &Change)
    requires room { length changes.old.items ≤ 14 }
    ensures made { edits changes.new.items ≡ edits changes.old.items
        ++ settled_edits tables.now start (edit change.now) }
    ensures longer { length changes.new.items ≤ length changes.old.items + 2 }
{
    if is_change(tables, change) {
        add(changes, *change);
        add_start_behind(changes, start, change);
    }
}

/// Adds the changes of a rule that change something, each key that becomes active with its first counter.
///
/// Requires room for twice as many.
pub(crate) fn add_all_settled(
    changes: &mut Changes,
    tables: &Tables,
    start: Option<u32>,
    made: &[Change],
)
    requires room { length changes.old.items + 2 * length made.now ≤ 16 }
    ensures { edits changes.new.items ≡ edits changes.old.items ++ settled tables.now start (edits made.now) }
{
    for change in made {
        add_settled(changes, tables, start, change);
    }
}
