//! Numbers of lines.
ghost use Rattle.std.specs.Prelude.{◌≡◌, ◌+◌, if◌then◌else◌, IfOk, None, Some};
ghost use Rattle.std.specs.Option.{option_or};

use zb_base::NoMemory;

/// Returns the next number, or `NoMemory` if there is none: a transcript that long doesn't fit into memory.
pub(crate) fn next(number: u32) -> Result<u32, NoMemory>
    ensures { IfOk result (λ next. next ≡ number + 1) }
{
    match number.checked_add(1) {
        Some(next) => Ok(next),
        None => Err(NoMemory),
    }
}

/// Returns the number of the first bad line after one more line was checked.
pub(crate) fn first_bad(first: Option<u32>, is_good: bool, number: u32) -> Option<u32>
    ensures { result ≡ option_or first (if is_good then None else Some number) }
{
    match first {
        Some(first) => Some(first),
        None if is_good => None,
        None => Some(number),
    }
}
