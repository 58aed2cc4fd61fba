//! Leave, the NWK command by which a node is told to leave the network: the value, the reader and the writer.
ghost use Rattle.std.specs.Prelude.{◌≡◌, ◌∷◌, ◌++◌, ◌≤◌, ◌<◌, length, ◌^◌, IfOk, Ok, Err, ◌↔◌};
ghost use Rattle.zb_cursor.specs.Reading.{Gives};
ghost use Rattle.zb_cmd.specs.declared.fault.CmdError.{CmdError};
ghost use Rattle.zb_cmd.specs.declared.leave.Leave.{Leave};
ghost use Rattle.zb_cmd.specs.Spelling.{leave};
ghost use Rattle.zb_cmd.specs.Shape.{SpellsLeave};
ghost use Rattle.zb_cmd.specs.Reading.{leave_body, leave_at, leave_of};
ghost use Rattle.zb_cmd.specs.Faults.{HasLeaveFault};

use crate::fault::CmdError;
use zb_base::Frame;
use zb_cursor::{Reader, frame_from, read_whole};

/// The NWK command Leave (05-3474-21, 3.4.4), without the NWK header that carries it.
#[derive(Clone, Copy, Debug, PartialEq, Eq)]
pub struct Leave {
    /// The option byte. Bit 5: rejoin; 6: request; 7: remove children; the others are free.
    pub options: u8,
}

#[tactic(auto, unfolding(crate::specs::Reading::leave_body))]
fn read_options(reader: &mut Reader<CmdError>, id: u8) -> Result<Leave, CmdError>
    ensures exact { Gives result reader.new.rest.now (leave_body id reader.old.cut reader.old.rest.now) }
    ensures spelled { IfOk result (λ l. id ∷ reader.old.rest.now ≡ leave l ++ reader.new.rest.now) }
    ensures in_range { IfOk result (λ l. l.options < 2 ^ 8) }
    ensures shorter { length reader.new.rest.now ≤ length reader.old.rest.now }
    ensures cut { reader.new.cut ≡ reader.old.cut }
{
    if id != 4 {
        return Err(CmdError::Unknown { id });
    }
    let options = reader.byte()?;
    Ok(Leave { options })
}

#[tactic(auto, unfolding(crate::specs::Reading::leave_at))]
fn read_front(reader: &mut Reader<CmdError>) -> Result<Leave, CmdError>
    ensures exact { Gives result reader.new.rest.now (leave_at reader.old.cut reader.old.rest.now) }
    ensures spelled { IfOk result (λ l. reader.old.rest.now ≡ leave l ++ reader.new.rest.now) }
    ensures in_range { IfOk result (λ l. l.options < 2 ^ 8) }
    ensures shorter { length reader.new.rest.now ≤ length reader.old.rest.now }
    ensures cut { reader.new.cut ≡ reader.old.cut }
{
    let id = reader.byte()?;
    let leave = read_options(reader, id)?;
    Ok(leave)
}

/// Reads a Leave that must take all of the bytes. Requires fewer than 2^32 bytes.
///
/// # Errors
///
/// The first fault of the bytes, if they aren't a Leave.
pub fn read_leave(bytes: &[u8]) -> Result<Leave, CmdError>
    requires { length bytes.now < 2 ^ 32 }
    // A Leave that is read has these bytes as its spelling, and a spelled Leave is read.
    ensures found { IfOk result (λ l. SpellsLeave bytes.now l) }
    ensures only { (l : Leave) → SpellsLeave bytes.now l → result ≡ Ok l }
    // The fault, defined by a walk over the fields, and also by the bytes.
    ensures exact { result ≡ leave_of bytes.now }
    ensures fault { (e : CmdError) → (result ≡ Err e) ↔ HasLeaveFault bytes.now e }
{
    let cut = CmdError::Short {
        at: bytes.len() as u32,
    };
    read_whole(bytes, cut, read_front, |count| CmdError::Trailing { count })
}

/// Writes the one spelling of a Leave.
pub fn write_leave(value: &Leave) -> Frame
    ensures { result.items ≡ leave value.now }
{
    frame_from(&[4, value.options])
}
