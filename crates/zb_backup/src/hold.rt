//! What the types of values say: that they are within their widths. Each function here says it and does nothing.
ghost use Rattle.std.specs.Prelude.{◌≡◌, true};
ghost use Rattle.std.specs.List.{list_all};
ghost use Rattle.zb_record.specs.RowViews.{heard_floor, link_key, pair_key};
ghost use Rattle.zb_backup.specs.Reading.{floor_fits, is_byte, is_counter, is_eui, is_key, link_fits, pair_fits};

use zb_base::{Eui, Key};
use zb_keys::{LinkRow, Pair, SenderFloor};

/// States that a number of 32 bits is a counter.
pub(crate) fn hold_counter(number: u32)
    ensures { is_counter number ≡ true }
{}

/// States that a number of 8 bits is a byte.
pub(crate) fn hold_byte(number: u8)
    ensures { is_byte number ≡ true }
{}

/// States that an EUI has 64 bits.
fn hold_eui(eui: Eui)
    ensures { is_eui eui.0 ≡ true }
{}

// States that bytes are below 256, as their type says.
#[tactic(auto, using(crate::proofs::Widths::bytes_pass))]
fn hold_bytes(bytes: &[u8])
    ensures { list_all is_byte bytes.now ≡ true }
{}

/// States that a key has 16 bytes.
pub(crate) fn hold_key(key: Key)
    ensures { is_key key.0 ≡ true }
{
    hold_bytes(&key.0);
}

/// States that the floor of a sender is within its widths.
pub(crate) fn hold_floor(floor: SenderFloor)
    ensures { floor_fits (heard_floor floor) ≡ true }
{
    hold_eui(floor.sender);
    hold_counter(floor.stored);
}

/// States that a link key is within its widths.
pub(crate) fn hold_link(row: LinkRow)
    ensures { link_fits (link_key row) ≡ true }
{
    hold_eui(row.partner);
    hold_key(row.key);
    hold_counter(row.floor.stored);
}

/// States that a key of two devices is within its widths.
pub(crate) fn hold_pair(pair: Pair)
    ensures { pair_fits (pair_key pair) ≡ true }
{
    hold_eui(pair.first);
    hold_eui(pair.second);
    hold_key(pair.key);
}
