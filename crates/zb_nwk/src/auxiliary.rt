//! The auxiliary header of a secured NWK frame.
ghost use Rattle.std.specs.Prelude.{◌≡◌, ◌≤◌, ◌<◌, ◌^◌, ◌++◌, length, IfOk, IsTrue, ◌↔◌};
ghost use Rattle.zb_cursor.specs.Reading.{Gives};
ghost use Rattle.zb_cursor.specs.Writing.{Appends};
ghost use Rattle.zb_nwk.specs.Spelling.{aux};
ghost use Rattle.zb_nwk.specs.Shape.{IsAuxControl, AuxInRange};
ghost use Rattle.zb_nwk.specs.Reading.{aux_control_at, aux_at};
ghost use Rattle.zb_cursor.specs.Spelling.{byte};

use crate::fault::NwkError;
use zb_base::{Eui, Frame};
use zb_cursor::{Reader, TooLong, has_bit, put_byte, put_eui, put_number32};

/// The auxiliary header of a NWK frame (05-3474-21, 4.5.1), with the extended nonce.
#[derive(Clone, Copy, Debug, PartialEq, Eq)]
pub struct NwkAux {
    /// The byte as on the air. Bits 0 to 2: level; 3 and 4: key identifier; 5: extended nonce; the others are free.
    pub control: u8,
    /// The frame counter of the node that sealed the frame.
    pub counter: u32,
    /// The EUI of the node that sealed the frame.
    pub source: Eui,
    /// The sequence number of the network key that seals it.
    pub key_sequence: u8,
}

impl NwkAux {
    /// Returns whether the reader accepts the control byte: the network key, with the extended nonce.
    pub fn shape_ok(&self) -> bool
        ensures { IsTrue result ↔ IsAuxControl self.now.control }
    {
        (self.control >> 3) & 3 == 1 && has_bit(u16::from(self.control), 5)
    }
}

/// Reads the control byte of a header with the network key and the extended nonce.
#[tactic(auto, unfolding(crate::specs::Reading::aux_control_at))]
fn read_aux_control(reader: &mut Reader<NwkError>) -> Result<u8, NwkError>
    ensures exact { Gives result reader.new.rest.now (aux_control_at reader.old.cut reader.old.rest.now) }
    ensures spelled { IfOk result (λ x. reader.old.rest.now ≡ byte x ++ reader.new.rest.now) }
    ensures shaped { IfOk result (λ x. IsAuxControl x) }
    ensures in_range { IfOk result (λ x. x < 2 ^ 8) }
    ensures shorter { length reader.new.rest.now ≤ length reader.old.rest.now }
    ensures cut { reader.new.cut ≡ reader.old.cut }
{
    let control = reader.byte()?;
    let key_id = (control >> 3) & 3;
    if key_id != 1 {
        return Err(NwkError::KeyId { found: key_id });
    }
    if !has_bit(u16::from(control), 5) {
        return Err(NwkError::NoSource);
    }
    Ok(control)
}

/// Reads an auxiliary header.
///
/// # Errors
///
/// The first fault of the bytes: a field that isn't whole, another key identifier, or no source.
#[tactic(auto, unfolding(crate::specs::Reading::aux_at))]
pub(crate) fn read_aux(reader: &mut Reader<NwkError>) -> Result<NwkAux, NwkError>
    ensures exact { Gives result reader.new.rest.now (aux_at reader.old.cut reader.old.rest.now) }
    ensures spelled { IfOk result (λ x. reader.old.rest.now ≡ aux x ++ reader.new.rest.now) }
    ensures shaped { IfOk result (λ x. IsAuxControl x.control) }
    ensures in_range { IfOk result (λ x. AuxInRange x) }
    ensures shorter { length reader.new.rest.now ≤ length reader.old.rest.now }
    ensures cut { reader.new.cut ≡ reader.old.cut }
{
    let control = read_aux_control(reader)?;
    let counter = reader.number32()?;
    let source = reader.eui()?;
    let key_sequence = reader.byte()?;
    Ok(NwkAux {
        control,
        counter,
        source,
        key_sequence,
    })
}

/// Writes an auxiliary header at the end.
///
/// # Errors
///
/// `TooLong` if there is no room for the bytes.
pub(crate) fn put_aux(out: &mut Frame, value: &NwkAux) -> Result<(), TooLong>
    ensures { Appends out.old.items (aux value.now) out.new.items result }
{
    put_byte(out, value.control)?;
    put_number32(out, value.counter)?;
    put_eui(out, value.source)?;
    put_byte(out, value.key_sequence)?;
    Ok(())
}
