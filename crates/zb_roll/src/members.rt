//! The devices that the new network key is sent to.
ghost use Rattle.std.specs.Prelude.{◌≡◌, not, fold, filter, map, option_map, if◌then◌else◌};
ghost use Rattle.zb_record.specs.RowViews.{link_key};
ghost use Rattle.zb_model.specs.OwnEvents.{is_unfinished, is_waiting, least, next_member};

use zb_base::{Eui, Rollover};
use zb_keys::{LinkRow, Tables};

/// Returns the device that is sent the new network key next.
///
/// It is the one with the smallest EUI among the live devices that weren't sent it.
pub fn next_member(tables: &Tables) -> Option<Eui>
    ensures { option_map (λ e. e.0) result ≡ next_member tables.now }
{
    least_waiting(tables.links())
}

/// Returns the smallest EUI of a device with a row that waits.
fn least_waiting(rows: &[LinkRow]) -> Option<Eui>
    ensures { option_map (λ e. e.0) result
        ≡ fold (λ best r. least best r.partner) None (filter is_waiting (map link_key rows.now)) }
{
    let mut best = None;
    for row in rows {
        best = with_row(best, row);
    }
    best
}

/// Returns the smallest EUI so far, with that of a row included if the row waits.
fn with_row(best: Option<Eui>, row: &LinkRow) -> Option<Eui>
    ensures { option_map (λ e. e.0) result
        ≡ (if is_waiting (link_key row.now)
        then least (option_map (λ e. e.0) best) (link_key row.now).partner else option_map (λ e. e.0) best) }
{
    if row.live && !row.told {
        Some(lesser(best, row.partner))
    } else {
        best
    }
}

/// Returns the smaller of two EUIs, or the second if there is no first.
fn lesser(best: Option<Eui>, other: Eui) -> Eui
    ensures { Some result.0 ≡ least (option_map (λ e. e.0) best) other.0 }
{
    match best {
        Some(best) => Eui(best.0.min(other.0)),
        None => other,
    }
}

/// Returns whether the network may switch: outside a rollover, and in one that reached every live device.
#[tactic(auto, unfolding(zb_model::specs::OwnEvents::is_unfinished))]
pub fn may_switch(tables: &Tables) -> bool
    ensures { result ≡ not (is_unfinished tables.now) }
{
    match tables.rolling() {
        Rollover::Idle => true,
        Rollover::Sending => next_member(tables).is_none(),
    }
}
