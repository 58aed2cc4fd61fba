//! Lists of changes, and adding to them.
ghost use Rattle.std.specs.Prelude.{◌≡◌, ◌<◌, ◌≤◌, ◌+◌, ◌++◌, ◌∷◌, [], length, map, option_map};
ghost use Rattle.std.specs.Option.{option_copied};
ghost use Rattle.zb_node_types.specs.Changes.{edit, edits};
ghost use Rattle.zb_model.specs.Data.{Moved};
ghost use Rattle.zb_model.specs.Rules.{drop_row};
ghost use Rattle.zb_rows.specs.RowViews.{link_key};

use zb_node_types::{Change, Changes};
use zb_rows::LinkRow;

/// Adds a change at the end.
///
/// Requires room for one more.
pub fn add(changes: &mut Changes, change: Change)
    requires room { length changes.old.items < 16 }
    ensures made { edits changes.new.items ≡ edits changes.old.items ++ edit change ∷ [] }
    ensures longer { length changes.new.items ≡ length changes.old.items + 1 }
{
    changes.push(change);
}

/// Adds the drop of a row, if there is one.
///
/// Requires room for one more.
pub fn add_drop(changes: &mut Changes, row: Option<&LinkRow>)
    requires room { length changes.old.items < 16 }
    ensures made { edits changes.new.items ≡ edits changes.old.items
        ++ map Moved (drop_row (option_map link_key (option_copied row.entry))) }
    ensures longer { length changes.new.items ≤ length changes.old.items + 1 }
{
    match row {
        Some(row) => add(
            changes,
            Change::DropLink {
                partner: row.partner,
                key: row.key,
            },
        ),
        None => {}
    }
}
