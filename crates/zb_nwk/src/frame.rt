//! NWK frames: the value, the reader of bytes and the writer.
ghost use Rattle.std.specs.Prelude.{◌≡◌, ◌≤◌, ◌<◌, ◌++◌, length, IfOk, OnErr, OnOk, Ok, Err, IsTrue, ◌↔◌};
ghost use Rattle.zb_cursor.specs.Reading.{Gives, read_into};
ghost use Rattle.zb_cursor.specs.Writing.{Appends};
ghost use Rattle.zb_nwk.specs.declared.fault.NwkError.{NwkError};
ghost use Rattle.zb_nwk.specs.declared.frame.NwkFrame.{NwkFrame};
ghost use Rattle.zb_nwk.specs.Spelling.{frame, content, header as header_of};
ghost use Rattle.zb_nwk.specs.Shape.{IsShaped, IsFrame, IsHeader, HeaderInRange, Spells};
ghost use Rattle.zb_cursor.specs.Spelling.{bit};
ghost use Rattle.zb_nwk.specs.Reading.{content_at, frame_at, frame_of};
ghost use Rattle.zb_nwk.specs.Faults.{HasFault};
ghost use Rattle.zb_base.specs.Limits.{longest_frame};

use crate::auxiliary::{NwkAux, put_aux, read_aux};
use crate::fault::NwkError;
use crate::header::{NwkHeader, put_header, read_header};
use arrayvec::ArrayVec;
use zb_base::{Frame, LONGEST_FRAME};
use zb_cursor::{Reader, TooLong, fill, has_bit, put};

/// A NWK frame (05-3474-21, 3.3.1). A secured one has an auxiliary header, and its body is the cipher text.
#[derive(Debug, Drop, PartialEq, Eq)]
pub struct NwkFrame {
    /// The header, which is never encrypted.
    pub header: NwkHeader,
    /// The auxiliary header, present exactly if bit 9 of the control word is 1.
    pub aux: Option<NwkAux>,
    /// The payload, or its cipher text if the frame is secured.
    pub body: Frame,
    /// The MIC, which is zero if the frame isn't secured.
    pub mic: [u8; 4],
}

impl NwkFrame {
    /// Makes a frame into which others may be read.
    ///
    /// Its fields have no particular values: if `read_into` succeeds, it has written them all.
    pub fn blank() -> NwkFrame {
        NwkFrame {
            header: NwkHeader::blank(),
            aux: None,
            body: Frame::new(),
            mic: [0; 4],
        }
    }

    /// Returns whether this value is a frame that the reader can return.
    ///
    /// The reader accepts the type, the version and the auxiliary control, the options agree with the control word,
    /// and the MIC is zero if there is no security.
    pub fn shape_ok(&self) -> bool
        ensures { IsTrue result ↔ IsShaped self.now }
    {
        self.header.shape_ok()
            && self.aux.is_some() == has_bit(self.header.control, 9)
            && match &self.aux {
                None => self.mic == [0; 4],
                Some(aux) => aux.shape_ok(),
            }
    }
}

/// Reads what comes after a header that was already read, into the other fields of the frame.
#[tactic(auto, unfolding(crate::specs::Reading::secured_at, crate::specs::Reading::unsecured_at))]
fn read_content(reader: &mut Reader<NwkError>, frame: &mut NwkFrame) -> Result<(), NwkError>
    requires fits { length reader.old.rest.now ≤ longest_frame }
    requires shaped { IsHeader frame.old.header }
    requires in_range { HeaderInRange frame.old.header }
    ensures exact { Gives (read_into result frame.new) reader.new.rest.now (content_at
        (bit frame.old.header.control 9) frame.old.header reader.old.cut reader.old.rest.now) }
    ensures found { OnOk result (IsFrame (header_of frame.old.header ++ reader.old.rest.now) frame.new) }
{
    if !has_bit(frame.header.control, 9) {
        frame.aux = None;
        frame.mic = [0; 4];
        fill(&mut frame.body, reader.all());
        return Ok(());
    }
    let aux = read_aux(reader)?;
    frame.aux = Some(aux);
    reader.body_and_mic_into(&mut frame.body, &mut frame.mic)?;
    Ok(())
}

#[tactic(auto, unfolding(crate::specs::Reading::frame_at))]
fn read_frame(reader: &mut Reader<NwkError>, frame: &mut NwkFrame) -> Result<(), NwkError>
    requires { length reader.old.rest.now ≤ longest_frame }
    ensures exact { Gives (read_into result frame.new) reader.new.rest.now
        (frame_at reader.old.cut reader.old.rest.now) }
    ensures found { OnOk result (IsFrame reader.old.rest.now frame.new) }
{
    read_header(reader, &mut frame.header)?;
    read_content(reader, frame)?;
    Ok(())
}

/// Reads a NWK frame that must take all of the bytes into an existing one.
///
/// # Errors
///
/// The first fault of the bytes, if they aren't a frame. The fields of the existing one then mean nothing.
#[tactic(auto, unfolding(crate::specs::Reading::frame_of))]
pub fn read_into(bytes: &[u8], frame: &mut NwkFrame) -> Result<(), NwkError>
    ensures found { OnOk result (Spells bytes.now frame.new) }
    ensures exact { read_into result frame.new ≡ frame_of bytes.now }
{
    if bytes.len() > LONGEST_FRAME {
        return Err(NwkError::TooLong);
    }
    let mut reader = Reader {
        rest: bytes,
        cut: NwkError::Short {
            at: bytes.len() as u32,
        },
    };
    read_frame(&mut reader, frame)?;
    Ok(())
}

fn read_into_blank(bytes: &[u8]) -> Result<NwkFrame, NwkError>
    ensures found { IfOk result (λ f. Spells bytes.now f) }
    ensures exact { result ≡ frame_of bytes.now }
{
    let mut frame = NwkFrame::blank();
    read_into(bytes, &mut frame)?;
    Ok(frame)
}

/// Reads a NWK frame that must take all of the bytes.
///
/// # Errors
///
/// The first fault of the bytes, if they aren't a frame.
pub fn read(bytes: &[u8]) -> Result<NwkFrame, NwkError>
    // A frame that is read has these bytes as its spelling, and a spelled frame is read.
    ensures found { IfOk result (λ f. Spells bytes.now f) }
    ensures only { (f : NwkFrame) → Spells bytes.now f → result ≡ Ok f }
    // The fault, defined by a walk over the fields, and also by the bytes and all possible frames.
    ensures exact { result ≡ frame_of bytes.now }
    ensures fault { (e : NwkError) → (result ≡ Err e) ↔ HasFault bytes.now e }
{
    read_into_blank(bytes)
}

fn put_content(out: &mut Frame, value: &NwkFrame) -> Result<(), TooLong>
    ensures { Appends out.old.items (content value.now.aux value.now.body.items value.now.mic) out.new.items result }
{
    match &value.aux {
        None => put(out, &value.body)?,
        Some(aux) => {
            put_aux(out, aux)?;
            put(out, &value.body)?;
            put(out, &value.mic)?;
        }
    }
    Ok(())
}

/// Writes the one spelling of a frame. Requires a valid value, as `shape_ok` checks.
///
/// # Errors
///
/// `TooLong` if the spelling has more than 127 bytes.
pub fn write(value: &NwkFrame) -> Result<Frame, TooLong>
    requires { IsShaped value.now }
    ensures text { IfOk result (λ bytes. bytes.items ≡ frame value.now) }
    ensures fits { IfOk result (λ bytes. length (frame value.now) ≤ longest_frame) }
    ensures long { OnErr result (longest_frame < length (frame value.now)) }
{
    let mut out = ArrayVec::new();
    put_header(&mut out, &value.header)?;
    put_content(&mut out, value)?;
    Ok(out)
}
