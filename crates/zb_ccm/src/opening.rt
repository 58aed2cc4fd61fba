//! Opening: the text becomes its message only where its MIC is right.

ghost use Rattle.std.specs.Prelude.{◌≡◌, ◌<◌, ◌≤◌, length};
ghost use Rattle.std.specs.Str.{bytes_eq};
ghost use Rattle.zb_ccm.specs.Ccm.{mic_of, IsOpening, longest_text};

use crate::BadMic;
use crate::chaining::compute_mic;
use crate::keystream::crypt;
use zb_aes::Cipher;

/// The greatest length of a text that is opened in a copy. So one that doesn't open is deciphered only once.
pub const COPIED: usize = 128;

// Returns whether `mic` is the MIC of the message. It compares two words, so that no time tells how many bytes agree.
fn is_mic(
    cipher: &Cipher,
    nonce: &[u8; 13],
    associated: &[u8],
    message: &[u8],
    mic: &[u8; 4],
) -> bool
    requires associated_fits { length associated.now < longest_text }
    requires message_fits { length message.now < longest_text }
    ensures { result ≡ bytes_eq (mic_of cipher.now nonce.now associated.now message.now 4) mic.now }
{
    let [a, b, c, d, ..] = compute_mic(cipher, nonce, associated, message, 4);
    u32::from_be_bytes([a, b, c, d]) == u32::from_be_bytes(*mic)
}

// Opens a text by way of a copy.
fn open_through(
    cipher: &Cipher,
    nonce: &[u8; 13],
    associated: &[u8],
    text: &mut [u8],
    mic: &[u8; 4],
    copy: &mut [u8],
) -> Result<(), BadMic>
    requires associated_fits { length associated.now < longest_text }
    requires text_fits { length text.old < longest_text }
    requires same_length { length copy.old ≡ length text.old }
    ensures { IsOpening cipher.now nonce.now associated.now text.old mic.now text.new result }
{
    copy.copy_from_slice(text);
    crypt(cipher, nonce, copy);
    if !is_mic(cipher, nonce, associated, copy, mic) {
        return Err(BadMic);
    }
    text.copy_from_slice(copy);
    Ok(())
}

/// Opens a text that fits a copy.
///
/// # Errors
/// `BadMic` where `mic` isn't the MIC of the message; `text` then stays as it was.
pub fn open_copy(
    cipher: &Cipher,
    nonce: &[u8; 13],
    associated: &[u8],
    text: &mut [u8],
    mic: &[u8; 4],
) -> Result<(), BadMic>
    requires associated_fits { length associated.now < longest_text }
    requires text_fits { length text.old ≤ COPIED }
    ensures { IsOpening cipher.now nonce.now associated.now text.old mic.now text.new result }
{
    let mut copy = [0; COPIED];
    let len = text.len();
    open_through(cipher, nonce, associated, text, mic, &mut copy[..len])
}

/// Opens a text of any length in its place. One that doesn't open is enciphered again.
///
/// # Errors
/// `BadMic` where `mic` isn't the MIC of the message; `text` then stays as it was.
pub fn open_in_place(
    cipher: &Cipher,
    nonce: &[u8; 13],
    associated: &[u8],
    text: &mut [u8],
    mic: &[u8; 4],
) -> Result<(), BadMic>
    requires associated_fits { length associated.now < longest_text }
    requires text_fits { length text.old < longest_text }
    ensures { IsOpening cipher.now nonce.now associated.now text.old mic.now text.new result }
{
    crypt(cipher, nonce, text);
    if !is_mic(cipher, nonce, associated, text, mic) {
        crypt(cipher, nonce, text);
        return Err(BadMic);
    }
    Ok(())
}
