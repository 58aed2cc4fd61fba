//! Tables whose outgoing counters skip some numbers.
ghost use Rattle.std.specs.Prelude.{◌≡◌, ◌<◌, ◌^◌, length, map, true};
ghost use Rattle.zb_model.specs.Data.{Start};
ghost use Rattle.zb_model.specs.Fits.{fits};
ghost use Rattle.zb_model.specs.State.{after_boot, applied, shown, stored_limit};
ghost use Rattle.zb_node_types.specs.Changes.{edit, model_layer};
ghost use Rattle.zb_record.specs.Ranges.{FitsBytes};
ghost use Rattle.zb_record.specs.RowViews.{net_key};
ghost use Rattle.zb_centre_store.specs.Skipping.{Raises, StartsAt, counted_from, skipped, skipped_limit};

use zb_base::Layer;
use zb_keys::{NetRow, Tables};
use zb_node_types::{Change, Changes};

// Makes one change, which fits.
fn make(tables: &mut Tables, change: Change)
    requires { fits (edit change) tables.old ≡ true }
    ensures { tables.new ≡ shown (applied (edit change) tables.old) }
{
    let mut changes = Changes::new();
    changes.push(change);
    tables.apply(&changes);
}

// Returns the stored limit of a layer. At NWK it is that of the active key, or the declared one where none is active.
fn limit_of(tables: &Tables, layer: Layer) -> u32
    ensures value { result ≡ stored_limit (model_layer layer) tables.now }
    ensures fits { result < 2 ^ 32 }
{
    tables.outgoing(layer, 0).limit
}

// Skips `by` counters of the application support layer.
fn skip_aps(tables: &mut Tables, by: u32)
    ensures { tables.new ≡ record tables.old { aps_limit = skipped_limit by tables.old.aps_limit } }
{
    tables.keep_rules();
    let limit = limit_of(tables, Layer::Aps).saturating_add(by);
    make(
        tables,
        Change::Reserve {
            layer: Layer::Aps,
            limit,
        },
    );
}

// Returns where a network key counts from. One that was never active counts from where the active one does.
fn counted_from(row: &NetRow, active: u32) -> u32
    ensures value { result ≡ counted_from active (net_key row.now) }
    ensures fits { row.now.limit < 2 ^ 32 }
{
    let limit = row.limit;
    if row.started { limit } else { active }
}

// Returns the change by which a network key skips `by` counters.
fn start_of(row: &NetRow, active: u32, by: u32) -> Change
    ensures value { edit result
        ≡ Start (net_key row.now).key (skipped_limit by (counted_from active (net_key row.now))) }
    ensures fits { row.now.limit < 2 ^ 32 }
{
    Change::Start {
        key: row.key,
        value: counted_from(row, active).saturating_add(by),
    }
}

// Returns the change by which the network key at a place skips `by` counters.
fn start_at(rows: &[NetRow], place: usize, active: u32, by: u32) -> Change
    requires { place < length rows.now }
    ensures { StartsAt by active place (map net_key rows.now) result }
{
    start_of(&rows[place], active, by)
}

// Skips `by` counters of the network key at a place.
fn skip_net(tables: &mut Tables, place: usize, active: u32, by: u32)
    requires { place < length tables.old.nets }
    ensures { Raises by active place tables.old tables.new }
{
    tables.keep_rules();
    let change = start_at(tables.nets(), place, active, by);
    make(tables, change);
}

/// Skips `by` outgoing counters of each layer and each network key.
///
/// A centre does so that goes on from a backup.
///
/// Each limit rises by that number, to 4,294,967,295 at most: that of the application support layer, and that of each
/// network key, a dropped one too. A network key that was never active becomes one that was. Its limit is `by` above
/// that of the active key, or above the declared one where none is active. Counters go on from the limits, as after a
/// boot. The declared start stays. It takes no memory.
pub fn skip(tables: &mut Tables, by: u32)
    ensures is { tables.new ≡ skipped by tables.old }

    // They are those of the same node, as after a boot, and fit a record where the old ones do.
    ensures role { tables.new.role ≡ tables.old.role }
    ensures booted { after_boot tables.new ≡ tables.new }
    ensures widths { FitsBytes tables.old → FitsBytes tables.new }
{
    let active = limit_of(tables, Layer::Nwk);
    skip_aps(tables, by);
    let count = tables.nets().len();
    for place in 0..count {
        skip_net(tables, place, active, by);
    }
    tables.boot();
}
