//! Sealing NWK frames (05-3474-21, 4.3.1.1).
ghost use Rattle.std.specs.Prelude.{◌≡◌, ◌≢◌, ◌≤◌, ◌+◌, ◌++◌, Ok, Some, length, replicate};
ghost use Rattle.tc_c.specs.Numbers.{key_of, sealed_number, with_key, with_room};
ghost use Rattle.tc_c.specs.Openings.{clear_term, over, seal_number};
ghost use Rattle.zb_base.specs.Limits.{longest_frame};
ghost use Rattle.zb_base.specs.declared.key.Key.{Key};
ghost use Rattle.zb_seal.specs.Wire.{wire as wire_of};
ghost use Rattle.zb_seal.specs.declared.term.Term.{Term};

use crate::key::{LONGEST_FRAME, WRONG_KEY, WRONG_ROOM, key_from};
use crate::opened::fault_number;
use zb_base::{Frame, Key};
use zb_cursor::{frame_from, put};
use zb_seal::{OpenError, Term, look_nwk, wire};

/// The sealed frame would be longer than a frame.
const TOO_LONG: u32 = 7;

/// Returns the bytes with a MIC of zeros after them.
fn with_mic(clear: &[u8]) -> Frame
    requires { length clear.now + 4 ≤ longest_frame }
    ensures { result.items ≡ clear.now ++ replicate 4 0 }
{
    let mut frame = frame_from(clear);
    let _ = put(&mut frame, &[0; 4]);
    frame
}

/// Reads a frame in clear as the term that is sealed.
fn term_from(clear: &[u8], key: &Key) -> Result<Term, OpenError>
    requires { length clear.now + 4 ≤ longest_frame }
    ensures { result ≡ clear_term clear.now key.now }
{
    let envelope = look_nwk(with_mic(clear).as_slice())?;
    match envelope.source {
        Some(source) => Ok(envelope.into_term(key, source)),
        None => Err(OpenError::NoSource),
    }
}

/// Seals a term into a buffer, or returns the number of what is wrong.
fn write_sealed(term: &Term, frame: &mut [u8], len: &mut usize) -> u32
    requires { longest_frame ≤ length frame.old }
    ensures number { result ≡ sealed_number (Ok term.now) }
    ensures frame { result ≡ 0 → frame.new ≡ over (wire_of term.now) frame.old }
    ensures len { result ≡ 0 → len.new ≡ length (wire_of term.now) }
    ensures kept { result ≢ 0 → (frame.new ≡ frame.old) × (len.new ≡ len.old) }
{
    match wire(term) {
        Ok(sealed) => {
            frame[..sealed.len()].copy_from_slice(sealed.as_slice());
            *len = sealed.len();
            0
        }
        Err(_) => TOO_LONG,
    }
}

/// Seals a NWK frame that is in clear, under a network key of 16 bytes.
///
/// The sealed frame is written into `frame`, which has at least 127 bytes.
///
/// `clear` is the whole frame except its MIC: the header with the bit for security, the auxiliary header with the
/// frame counter and the source, and the content. The sealed frame has `len` bytes, 4 more than `clear`. The caller
/// must use each counter only once.
///
/// Returns 0, or why nothing was written:
/// - 1: the bytes aren't a frame
/// - 2: its header doesn't have the bit for security
/// - 5: `frame` is too short
/// - 6: `key` doesn't have 16 bytes
/// - 7: the sealed frame would be longer than 127 bytes
#[unsafe(no_mangle)]
pub extern "C" fn tc_seal_nwk(clear: &[u8], key: &[u8], frame: &mut [u8], len: &mut usize) -> u32
    ensures number { result
        ≡ with_key (key_of key.now) (λ k. with_room (length frame.old) (seal_number clear.now k)) }
    ensures sealed { (k : Key) (t : Term) → result ≡ 0 → key_of key.now ≡ Some k → clear_term clear.now k ≡ Ok t
        → (frame.new ≡ over (wire_of t) frame.old) × (len.new ≡ length (wire_of t)) }
    ensures kept { result ≢ 0 → (frame.new ≡ frame.old) × (len.new ≡ len.old) }
{
    let Some(key) = key_from(key) else {
        return WRONG_KEY;
    };
    if frame.len() < LONGEST_FRAME {
        return WRONG_ROOM;
    }
    if clear.len() > LONGEST_FRAME - 4 {
        return TOO_LONG;
    }
    match term_from(clear, &key) {
        Ok(term) => write_sealed(&term, frame, len),
        Err(fault) => fault_number(&fault),
    }
}
