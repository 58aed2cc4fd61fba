//! The reader.

ghost use Rattle.std.specs.Prelude.{◌-◌, ◌^◌, ◌<◌, length, IfOk};
ghost use Rattle.zb_script.specs.Reading.{ReadsScript, script_in};
ghost use Rattle.zb_script.specs.Scripts.{IsScript};

use crate::draft::Draft;
use crate::error::{ScriptCause, ScriptError};
use crate::script::Script;
use std::alloc::Global;
use zb_base::OrMemory;
use zb_text::lines::next_line;

/// Reads a script. Requires a text shorter than 4 GiB - 1.
///
/// # Errors
/// The first bad line, with the first of its causes; or out of memory.
pub fn read(alloc: Global, text: &[u8]) -> Result<Script, OrMemory<ScriptError>>
    requires { length text.now < 2 ^ 32 - 1 }
    ensures exact { ReadsScript result (script_in text.now) }
    ensures valid { IfOk result IsScript }
{
    let mut draft = Draft::new(alloc);
    let mut rest = text;
    let mut number: u32 = 1;
    while let Some((line, after)) = next_line(rest) {
        match draft.take(alloc, number, line) {
            Ok(()) => {}
            Err(OrMemory::Fault(cause)) => return Err(OrMemory::Fault(ScriptError {
                line: number,
                cause,
            })),
            Err(OrMemory::NoMemory) => return Err(OrMemory::NoMemory),
        }
        rest = after;
        number += 1;
    }
    if !draft.has_centre() {
        return Err(OrMemory::Fault(ScriptError {
            line: number,
            cause: ScriptCause::NoCentre,
        }));
    }
    Ok(draft.finish())
}
