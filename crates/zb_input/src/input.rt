//! Reads the whole input.
ghost use Rattle.std.specs.Prelude.{◌≡◌, ◌≢◌, ◌-◌, ◌<◌, ◌≤◌, IfOk, OnOk, OnErr, Err, IfSome, length, vec_len};
ghost use Rattle.std.specs.Io.KnownBytes.{IsAtEnd};
ghost use Rattle.zb_base.specs.Outside.{Rose, Unrisen};
ghost use Rattle.zb_input.specs.Inputs.{IsReadOn, TakesAtMost};
ghost use Rattle.zb_input.specs.declared.input.InputFault.TheVariants.{NoMemory as lacks};
ghost use Rattle.zb_base.specs.Limits.{first_too_long, longest_input};

use std::alloc::{AllocError, Global};
use zb_base::Source;

/// The most bytes that the input of a command may have.
pub const LONGEST: u32 = 16_777_216;

/// Why the input wasn't read to its end.
#[derive(Clone, Copy, Debug, PartialEq, Eq)]
pub enum InputFault {
    /// The source failed.
    Read,
    /// It has more than `LONGEST` bytes.
    TooLong,
    /// Memory ran out.
    NoMemory,
}

impl From<AllocError> for InputFault {
    ghost from_gives = { λ _ e. e ≡ lacks };

    fn from(_error: AllocError) -> InputFault {
        InputFault::NoMemory
    }
}

/// Reads further bytes, to the end of the input or until there are `limit`.
///
/// # Errors
/// `Read` if the source fails, or `NoMemory`.
pub fn read_on<R: Source>(
    input: &mut R,
    bytes: &mut Vec<u8>,
    limit: usize,
) -> Result<(), InputFault>
    requires { vec_len bytes.old ≤ limit }
    ensures read { IsReadOn result (R.rest input.old) (R.rest input.new) bytes.old.items bytes.new.items limit
        (R.faults input.old) (R.faults input.new) }
    ensures few { TakesAtMost (R.rest input.old) (R.rest input.new) (limit - length bytes.old.items) }
{
    let mut buffer = [0; 16_384];
    while bytes.len() < limit {
        let room = (limit - bytes.len()).min(16_384);
        match input.read(&mut buffer[..room]) {
            Ok(0) => return Ok(()),
            Ok(count) => bytes.extend_from_slice(&buffer[..count])?,
            Err(_) => return Err(InputFault::Read),
        }
    }
    Ok(())
}

/// Reads the input to its end, or to one byte past the longest.
///
/// # Errors
/// `Read` if the source fails, `TooLong` if it has more than `LONGEST` bytes, or `NoMemory`.
pub fn read_input<R: Source>(alloc: Global, input: &mut R) -> Result<Vec<u8>, InputFault>
    ensures whole { IfOk result (λ bytes. IfSome (R.rest input.old) (λ rest. bytes.items ≡ rest)) }
    ensures end { OnOk result (IsAtEnd (R.rest input.new)) }
    ensures short { IfOk result (λ bytes. vec_len bytes ≤ longest_input) }
    ensures few { TakesAtMost (R.rest input.old) (R.rest input.new) first_too_long }
    ensures later { R.faults input.old ≤ R.faults input.new }
    ensures read { result ≡ Err InputFault.Read → Rose (R.faults input.old) (R.faults input.new) }
    ensures unrisen { result ≢ Err InputFault.Read → Unrisen (R.faults input.old) (R.faults input.new) }
    ensures too_long { result ≡ Err InputFault.TooLong
        → IfSome (R.rest input.old) (λ rest. longest_input < length rest) }
{
    let mut bytes = Vec::new(alloc);
    read_on(input, &mut bytes, LONGEST as usize + 1)?;
    if bytes.len() > LONGEST as usize {
        return Err(InputFault::TooLong);
    }
    Ok(bytes)
}
