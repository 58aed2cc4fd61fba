//! The changes of a plan, as an entry stores them.
ghost use Rattle.std.specs.Prelude.{◌≡◌, ◌≤◌, length, take};
ghost use Rattle.std.specs.List.{AllByRecursion};
ghost use Rattle.zb_node_types.specs.Changes.{edits};
ghost use Rattle.zb_model.specs.Record.{payload};
ghost use Rattle.zb_record.specs.Ranges.{InRange};
ghost use Rattle.zb_base.specs.Sizes.{payload_room};

use zb_base::PAYLOAD_ROOM;
use zb_node_types::{Change, Changes};

/// Writes the payload of changes, and returns its length.
///
/// Requires a payload of at most `PAYLOAD_ROOM` bytes, and as many bytes of room.
pub fn change_bytes(changes: &Changes, into: &mut [u8]) -> u32
    requires short { length (payload (edits changes.now.items)) ≤ payload_room }
    requires room { payload_room ≤ length into.old }
    ensures len { result ≡ length (payload (edits changes.now.items)) }
    ensures bytes { take result into.new ≡ payload (edits changes.now.items) }
{
    zb_record::change_bytes(changes, &mut into[..PAYLOAD_ROOM])
}

/// States that the values of changes can be spelled. It does nothing.
///
/// Keys have 16 bytes, and numbers are within their types.
pub fn hold_ranges(changes: &Changes)
    ensures { AllByRecursion InRange changes.now.items }
{
    for change in changes.as_slice() {
        hold_range(*change);
    }
}

// States that the values of one change can be spelled.
fn hold_range(change: Change)
    ensures { InRange change }
{
    match change {
        Change::Reserve { .. }
        | Change::Floor { .. }
        | Change::Draw { .. }
        | Change::DropNet { .. }
        | Change::DropLink { .. }
        | Change::Install { .. }
        | Change::Active { .. }
        | Change::Start { .. }
        | Change::Row { .. }
        | Change::Pair { .. }
        | Change::State { .. }
        | Change::Live { .. }
        | Change::Removed { .. }
        | Change::Roll { .. }
        | Change::Told { .. }
        | Change::Untold { .. } => {}
    }
}
