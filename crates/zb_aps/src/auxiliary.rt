//! The auxiliary header of a secured APS frame.
ghost use Rattle.std.specs.Prelude.{◌≡◌, ◌≢◌, ◌≤◌, ◌<◌, ◌^◌, ◌++◌, length, IfOk, IsTrue, ◌↔◌};
ghost use Rattle.zb_cursor.specs.Spelling.{byte};
ghost use Rattle.zb_cursor.specs.Reading.{Gives};
ghost use Rattle.zb_cursor.specs.Writing.{Appends};
ghost use Rattle.zb_aps.specs.Spelling.{aux};
ghost use Rattle.zb_aps.specs.Shape.{key_id as identifier, IsAux, AuxInRange};
ghost use Rattle.zb_aps.specs.Reading.{aux_control_at, aux_at};

use crate::fault::ApsError;
use zb_base::{Eui, Frame};
use zb_cursor::{Reader, TooLong, has_bit, put_byte, put_number32, put_optional_eui};

/// The auxiliary header of an APS frame (05-3474-21, 4.5.1).
#[derive(Clone, Copy, Debug, PartialEq, Eq)]
pub struct ApsAux {
    /// The byte as on the air. Bits 0 to 2: level; 3 and 4: key identifier; 5: extended nonce; the others are free.
    pub control: u8,
    /// The frame counter of the node that sealed the frame.
    pub counter: u32,
    /// The EUI of the node that sealed the frame, present exactly if the extended nonce bit is 1.
    pub source: Option<Eui>,
}

impl ApsAux {
    /// Returns whether the reader accepts the key identifier, and the source is present if the control byte says so.
    pub fn shape_ok(&self) -> bool
        ensures { IsTrue result ↔ IsAux self.now }
    {
        (self.control >> 3) & 3 != 1 && self.source.is_some() == has_bit(u16::from(self.control), 5)
    }
}

/// Reads the control byte of a header that doesn't name the network key.
#[tactic(auto, unfolding(crate::specs::Reading::aux_control_at))]
fn read_aux_control(reader: &mut Reader<ApsError>) -> Result<u8, ApsError>
    ensures exact { Gives result reader.new.rest.now (aux_control_at reader.old.cut reader.old.rest.now) }
    ensures spelled { IfOk result (λ x. reader.old.rest.now ≡ byte x ++ reader.new.rest.now) }
    ensures shaped { IfOk result (λ x. identifier x ≢ 1) }
    ensures in_range { IfOk result (λ x. x < 2 ^ 8) }
    ensures shorter { length reader.new.rest.now ≤ length reader.old.rest.now }
    ensures cut { reader.new.cut ≡ reader.old.cut }
{
    let control = reader.byte()?;
    let key_id = (control >> 3) & 3;
    if key_id == 1 {
        return Err(ApsError::KeyId { found: key_id });
    }
    Ok(control)
}

/// Reads an auxiliary header.
#[tactic(auto, unfolding(crate::specs::Reading::aux_at))]
pub(crate) fn read_aux(reader: &mut Reader<ApsError>) -> Result<ApsAux, ApsError>
    ensures exact { Gives result reader.new.rest.now (aux_at reader.old.cut reader.old.rest.now) }
    ensures spelled { IfOk result (λ x. reader.old.rest.now ≡ aux x ++ reader.new.rest.now) }
    ensures shaped { IfOk result (λ x. IsAux x) }
    ensures in_range { IfOk result (λ x. AuxInRange x) }
    ensures shorter { length reader.new.rest.now ≤ length reader.old.rest.now }
    ensures cut { reader.new.cut ≡ reader.old.cut }
{
    let control = read_aux_control(reader)?;
    let counter = reader.number32()?;
    let source = reader.optional_eui(has_bit(u16::from(control), 5))?;
    Ok(ApsAux {
        control,
        counter,
        source,
    })
}

/// Writes an auxiliary header at the end.
pub(crate) fn put_aux(out: &mut Frame, value: &ApsAux) -> Result<(), TooLong>
    ensures { Appends out.old.items (aux value.now) out.new.items result }
{
    put_byte(out, value.control)?;
    put_number32(out, value.counter)?;
    put_optional_eui(out, value.source)?;
    Ok(())
}
