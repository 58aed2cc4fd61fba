//! From a term to the bytes on the air.
ghost use Rattle.std.specs.Prelude.{◌≡◌, ◌+◌, ◌-◌, ◌≤◌, ◌<◌, [], length, slice_set, IfOk, OnErr};
ghost use Rattle.zb_seal.specs.Keys.{sealing_key as key_of};
ghost use Rattle.zb_seal.specs.Wire.{wire as wire_of, wire_under, sealed_term, on_air as air, aux_size as size_of_aux, wire_length, at_place, zero_level as cleared};
ghost use Rattle.zb_base.specs.Limits.{longest_frame};

use crate::key::{nonce, sealing_key, zero_level};
use crate::term::Term;
use zb_aes::Cipher;
use zb_base::{Frame, Layer};
use zb_ccm::seal_with;
use zb_cursor::{TooLong, has_bit, put};

/// Returns how far before the header's end its auxiliary control byte is.
fn aux_size(layer: Layer, control: u8) -> usize
    ensures size { result ≡ size_of_aux layer control }
    ensures some { 5 ≤ result }
{
    match layer {
        Layer::Nwk => 14,
        Layer::Aps => {
            if has_bit(u16::from(control), 5) {
                13
            } else {
                5
            }
        }
    }
}

/// Changes the control byte at the place to level bits 000.
fn clear_level(bytes: &mut [u8], place: usize)
    requires { place < length bytes.old }
    ensures { bytes.new ≡ at_place cleared place bytes.old }
{
    bytes[place] = zero_level(bytes[place]);
}

/// Fills an empty frame with bytes.
fn fill(out: &mut Frame, bytes: &[u8])
    requires empty { out.old.items ≡ [] }
    requires fits { length bytes.now ≤ longest_frame }
    ensures { out.new.items ≡ bytes.now }
{
    let _ = put(out, bytes);
}

/// Fills an empty frame with the header with level bits 000, if it is long enough for an auxiliary header.
fn fill_on_air(out: &mut Frame, size: usize, header: &Frame)
    requires empty { out.old.items ≡ [] }
    requires size { 5 ≤ size }
    ensures { out.new.items ≡ air size header.now.items }
{
    fill(out, header.as_slice());
    let len = out.len();
    if size <= len {
        clear_level(out.as_mut_slice(), len - size);
    }
}

/// Encrypts the content of a term in place, in `text`, and returns its MIC.
fn seal_content(cipher: &Cipher, term: &Term, text: &mut Frame) -> [u8; 4]
    requires { text.old.items ≡ term.now.content.items }
    ensures text { text.new.items ≡ (sealed_term cipher.now term.now).text }
    ensures mic { result ≡ (sealed_term cipher.now term.now).mic }
    ensures text_len { length text.new.items ≡ length term.now.content.items }
    ensures mic_len { length result ≡ 4 }
{
    let nonce = nonce(term.source, term.counter, term.control);
    seal_with(cipher, &nonce, term.header.as_slice(), text.as_mut_slice())
}

/// Seals a term, and returns its bytes on the air. Requires its sealing key, which was expanded before.
///
/// # Errors
///
/// `TooLong` if they are more than 127 bytes.
pub fn wire_with(term: &Term, cipher: &Cipher) -> Result<Frame, TooLong>
    requires { cipher.now ≡ key_of term.now.label term.now.base.0 }
    ensures text { IfOk result (λ bytes. bytes.items ≡ wire_of term.now) }
    ensures fits { IfOk result (λ bytes. length (wire_of term.now) ≤ longest_frame) }
    ensures long { OnErr result (longest_frame < length (wire_of term.now)) }
    ensures len { length (wire_of term.now) ≡ wire_length term.now }
{
    let mut out = Frame::new();
    fill_on_air(&mut out, aux_size(term.layer, term.control), &term.header);
    let mut text = Frame::new();
    fill(&mut text, term.content.as_slice());
    let mic = seal_content(cipher, term, &mut text);
    put(&mut out, &text)?;
    put(&mut out, &mic)?;
    Ok(out)
}

/// Seals a term, and returns its bytes on the air.
///
/// They are its header with level bits 000, the cipher text and the MIC.
///
/// # Errors
///
/// `TooLong` if they are more than 127 bytes.
pub fn wire(term: &Term) -> Result<Frame, TooLong>
    ensures text { IfOk result (λ bytes. bytes.items ≡ wire_of term.now) }
    ensures fits { IfOk result (λ bytes. length (wire_of term.now) ≤ longest_frame) }
    ensures long { OnErr result (longest_frame < length (wire_of term.now)) }
    ensures len { length (wire_of term.now) ≡ wire_length term.now }
{
    let key = sealing_key(term.label, &term.base);
    wire_with(term, &Cipher::new(&key.0))
}
