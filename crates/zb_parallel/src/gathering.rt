//! Gathering what the jobs made.
ghost use Rattle.std.specs.Prelude.{◌≡◌, map, IfOk, Ok};

use std::alloc::Global;
use zb_base::NoMemory;

/// Returns the values that the jobs made, in their order.
///
/// # Errors
///
/// `NoMemory` if one of the jobs, or this call, ran out of memory.
pub fn gather<T: Drop>(alloc: Global, made: Vec<Result<T, NoMemory>>) -> Result<Vec<T>, NoMemory>
    ensures { IfOk result (λ v. made.items ≡ map (λ value. Ok value) v.items) }
{
    let mut values = Vec::with_capacity(alloc, made.len())?;
    for value in made {
        values.push(value?)?;
    }
    Ok(values)
}
