//! How far keys are raised when they become earlier.
ghost use Rattle.std.specs.Prelude.{◌≤◌, IfOk};

use crate::numbers::Numbers;
use std::alloc::{AllocError, Global};
use zb_base::Key;
use zb_trace_watch::holdings::Holdings;
use zb_trace_watch::keys::Keys;

/// Returns the level to which to raise a key and what comes out under it. It is at least `early`.
///
/// A level above `early` saves work: the keys needn't be raised again for each removal that is a little earlier. No
/// contract says how far above it is. It is half way to the level at which one of the keys would be late, or at which
/// further keys would have to be raised.
///
/// # Errors
/// `AllocError`, if memory runs out.
pub fn level_above(
    alloc: Global,
    leads: &Holdings<Key>,
    noted: &Numbers,
    drawn: &Numbers,
    key: Key,
    early: u64,
) -> Result<u64, AllocError>
    ensures { IfOk result (λ level. early ≤ level) }
{
    let mut seen = Keys::new(alloc);
    let mut keys = Vec::new(alloc);
    keys.push(key)?;
    let mut highest = 4294967295;
    while let Some(key) = keys.pop() {
        highest = lesser(highest, ceiling(noted, drawn, &key, early));
        if noted.of(&key) < early {
            if seen.add(key)? {
                leads.append_to(&key, &mut keys)?;
            }
        }
    }
    Ok(half_way(early, highest))
}

// Returns the highest level to which a key can be raised without more work. A key that is as early already stays as
// it is.
fn ceiling(noted: &Numbers, drawn: &Numbers, key: &Key, early: u64) -> u64 {
    let own = noted.of(key);
    if own < early {
        4294967295 - lesser(drawn.of(key), 4294967295)
    } else {
        own
    }
}

fn lesser(a: u64, b: u64) -> u64
    ensures { result ≤ b }
{
    if a < b { a } else { b }
}

/// Returns a number half way between two, or the first one if the second isn't above it.
fn half_way(low: u64, high: u64) -> u64
    ensures { low ≤ result }
{
    if low < high {
        high - (high - low) / 2
    } else {
        low
    }
}
