//! The keys that the centre gave two devices for use with each other.
ghost use Rattle.std.specs.Prelude.{◌≡◌, not, filter, find, vec_capacity};
ghost use Rattle.std.specs.List.{list_any};
ghost use Rattle.std.specs.Option.{option_copied};
ghost use Rattle.zb_record.specs.RowViews.{pair_key};
ghost use Rattle.zb_model.specs.State.{names, names_two};

use zb_base::{Eui, Key};

/// A key of two devices.
#[derive(Clone, Copy, Debug, PartialEq, Eq)]
pub struct Pair {
    /// The device with the smaller EUI.
    pub first: Eui,
    /// The other device.
    pub second: Eui,
    /// Their key.
    pub key: Key,
}

/// Returns whether two devices have a key.
pub fn has_pair(pairs: &[Pair], a: Eui, b: Eui) -> bool
    ensures { result ≡ list_any (λ p. names_two a.0 b.0 (pair_key p)) pairs.now }
{
    let first = a.0.min(b.0);
    let second = a.0.max(b.0);
    pairs
        .iter()
        .any(|pair| pair.first.0 == first && pair.second.0 == second)
}

/// Removes the keys of a device.
pub fn drop_pairs(pairs: &mut Vec<Pair>, device: Eui)
    ensures kept { pairs.new.items ≡ filter (λ p. not (names device.0 (pair_key p))) pairs.old.items }
    ensures room { vec_capacity pairs.new ≡ vec_capacity pairs.old }
{
    pairs.retain(|pair| !(pair.first.0 == device.0 || pair.second.0 == device.0));
}

/// Returns the row of two devices.
pub fn pair_row<'a>(pairs: &'a [Pair], a: Eui, b: Eui) -> Option<&'a Pair>
    ensures { option_copied result ≡ find (λ p. names_two a.0 b.0 (pair_key p)) pairs.now }
{
    let first = a.0.min(b.0);
    let second = a.0.max(b.0);
    pairs
        .iter()
        .find(|pair| pair.first.0 == first && pair.second.0 == second)
}
