//! From the bytes on the air to an envelope, and then to a term.
ghost use Rattle.std.specs.Prelude.{◌≡◌, ◌+◌, ◌-◌, ◌≤◌, ◌<◌, ◌++◌, length, take, IfOk, IfErr, IfSome, Some, None, Ok, Err};
ghost use Rattle.zb_base.specs.declared.label.Label.TheVariants.{Network};
ghost use Rattle.zb_nwk.specs.Shape.{Spells as SpellsNwk};
ghost use Rattle.zb_aps.specs.Shape.{key_id, Spells as SpellsAps};
ghost use Rattle.zb_seal.specs.Keys.{sealing_key as key_of};
ghost use Rattle.zb_seal.specs.Wire.{at_place, real_level as restored};
ghost use Rattle.zb_nwk.specs.Spelling.{header as header_of_nwk, aux as aux_of_nwk};
ghost use Rattle.zb_aps.specs.Spelling.{header as header_of_aps, aux as aux_of_aps};
ghost use Rattle.zb_seal.specs.Opening.{leveled_nwk, leveled_aps, aps_size as size_of_aps, nwk_envelope as envelope_of_nwk, aps_envelope as envelope_of_aps, nwk_closed, seen_nwk, seen_aps, label_of as label_of_id, opened_nwk, opened_aps, OpensNwk, OpensAps};
ghost use Rattle.zb_seal.specs.declared.term.Term.{Term};
ghost use Rattle.zb_base.specs.Limits.{longest_frame};

use crate::envelope::{Envelope, NwkEnvelope, OpenError};
use crate::key::{real_level, sealing_key};
use crate::sealing_keys::SealingKeys;
use crate::term::Term;
use zb_aes::Cipher;
use zb_aps::{ApsAux, ApsFrame};
use zb_base::{Eui, Frame, Key, Label, Layer};
use zb_cursor::frame_from;
use zb_nwk::{NwkAux, NwkFrame};

/// Changes the control byte at the place to the actual level.
fn restore_level(bytes: &mut [u8], place: usize)
    requires { place < length bytes.old }
    ensures { bytes.new ≡ at_place restored place bytes.old }
{
    bytes[place] = real_level(bytes[place]);
}

/// Returns what is authenticated: the start of the bytes up to the body, with the actual level in the control byte,
/// which is `size` bytes before its end.
fn authenticated(bytes: &[u8], body: usize, size: usize) -> Frame
    requires some { 0 < size }
    requires room { size + body + 4 ≤ length bytes.now }
    requires fits { length bytes.now ≤ longest_frame }
    ensures { result.items
        ≡ at_place restored (length bytes.now - 4 - body - size) (take (length bytes.now - 4 - body) bytes.now) }
{
    let front = bytes.len() - 4 - body;
    let mut header = frame_from(&bytes[..front]);
    restore_level(header.as_mut_slice(), front - size);
    header
}

fn nwk_header(bytes: &[u8], frame: &NwkFrame, aux: &NwkAux) -> Frame
    requires spells { SpellsNwk bytes.now frame.now }
    requires secured { frame.now.aux ≡ Some aux.now }
    ensures { result.items ≡ header_of_nwk frame.now.header ++ aux_of_nwk (leveled_nwk aux.now) }
{
    authenticated(bytes, frame.body.len(), 14)
}

/// Returns the addresses of a NWK frame, and what it shows before any key is tried.
///
/// Requires the bytes that the frame was read from.
///
/// # Errors
///
/// `NotSecured` if the frame is not secured.
pub fn envelope_nwk(bytes: &[u8], frame: &NwkFrame) -> Result<NwkEnvelope, OpenError>
    requires { SpellsNwk bytes.now frame.now }
    ensures exact { result ≡ nwk_closed frame.now frame.now.aux }
    // Its envelope is that which `look_nwk` returns for the bytes.
    ensures envelope { IfOk result (λ x. envelope_of_nwk frame.now frame.now.aux ≡ Ok x.envelope) }
    ensures refused { IfErr result (λ e. envelope_of_nwk frame.now frame.now.aux ≡ Err e) }
    ensures label { IfOk result (λ x. x.envelope.label ≡ Network) }
{
    match &frame.aux {
        None => Err(OpenError::NotSecured),
        Some(aux) => Ok(NwkEnvelope {
            destination: frame.header.destination,
            source: frame.header.source,
            key_sequence: aux.key_sequence,
            envelope: Envelope {
                layer: Layer::Nwk,
                label: Label::Network,
                source: Some(aux.source),
                counter: aux.counter,
                control: real_level(aux.control),
                header: nwk_header(bytes, frame, aux),
                text: frame_from(frame.body.as_slice()),
                mic: frame.mic,
            },
        }),
    }
}

/// Reads a NWK frame, and returns what it shows before any key is tried.
///
/// # Errors
///
/// `Frame` if the bytes aren't a NWK frame, then `NotSecured` if it is not secured.
#[tactic(auto, unfolding(crate::specs::Opening::seen_nwk))]
pub fn look_nwk(bytes: &[u8]) -> Result<Envelope, OpenError>
    ensures exact { result ≡ seen_nwk bytes.now }
    ensures label { IfOk result (λ s. s.label ≡ Network) }
{
    match zb_nwk::read(bytes) {
        Err(fault) => Err(OpenError::Frame {
            nwk: Some(fault),
            aps: None,
        }),
        Ok(frame) => {
            let closed = envelope_nwk(bytes, &frame)?;
            Ok(closed.envelope)
        }
    }
}

/// Returns the label that an auxiliary control byte names (05-3474-21, 4.5.1.1.2).
pub fn label_of(control: u8) -> Label
    ensures { result ≡ label_of_id (key_id control) }
{
    match (control >> 3) & 3 {
        0 => Label::Data,
        1 => Label::Network,
        2 => Label::Transport,
        _ => Label::Load,
    }
}

/// Returns the length of an auxiliary header at APS.
fn aps_size(source: Option<Eui>) -> usize
    ensures size { result ≡ size_of_aps source }
    ensures some { 0 < result }
{
    match source {
        None => 5,
        Some(_) => 13,
    }
}

fn aps_header(bytes: &[u8], frame: &ApsFrame, aux: &ApsAux) -> Frame
    requires spells { SpellsAps bytes.now frame.now }
    requires secured { frame.now.aux ≡ Some aux.now }
    ensures { result.items ≡ header_of_aps frame.now.header ++ aux_of_aps (leveled_aps aux.now) }
{
    authenticated(bytes, frame.body.len(), aps_size(aux.source))
}

/// Returns what an APS frame shows before any key is tried.
///
/// Requires the bytes that the frame was read from.
///
/// # Errors
///
/// `NotSecured` if the frame is not secured.
pub fn envelope_aps(bytes: &[u8], frame: &ApsFrame) -> Result<Envelope, OpenError>
    requires { SpellsAps bytes.now frame.now }
    ensures exact { result ≡ envelope_of_aps frame.now frame.now.aux }
{
    match &frame.aux {
        None => Err(OpenError::NotSecured),
        Some(aux) => Ok(Envelope {
            layer: Layer::Aps,
            label: label_of(aux.control),
            source: aux.source,
            counter: aux.counter,
            control: real_level(aux.control),
            header: aps_header(bytes, frame, aux),
            text: frame_from(frame.body.as_slice()),
            mic: frame.mic,
        }),
    }
}

/// Reads an APS frame, and returns what it shows before any key is tried.
///
/// # Errors
///
/// `Frame` if the bytes aren't an APS frame, then `NotSecured` if it is not secured.
#[tactic(auto, unfolding(crate::specs::Opening::seen_aps))]
pub fn look_aps(bytes: &[u8]) -> Result<Envelope, OpenError>
    ensures exact { result ≡ seen_aps bytes.now }
{
    match zb_aps::read(bytes) {
        Err(fault) => Err(OpenError::Frame {
            nwk: None,
            aps: Some(fault),
        }),
        Ok(frame) => envelope_aps(bytes, &frame),
    }
}

/// Opens a NWK frame under a network key. Requires the cipher of the key, which was expanded before.
///
/// # Errors
///
/// As for `open_nwk`.
#[tactic(auto, unfolding(crate::specs::Opening::opened_nwk))]
pub fn open_nwk_with(bytes: &[u8], key: &Key, cipher: &Cipher) -> Result<Term, OpenError>
    requires { cipher.now ≡ key.now.0 }
    ensures exact { result ≡ opened_nwk bytes.now key.now }
{
    let envelope = look_nwk(bytes)?;
    let term = envelope.open_with(key, cipher, None)?;
    Ok(term)
}

/// Opens a NWK frame under a network key.
///
/// # Errors
///
/// The first of these:
///
/// - `Frame` if the bytes aren't a NWK frame
/// - `NotSecured` if it is not secured
/// - `BadMic` if its MIC is not that of a content under the key
pub fn open_nwk(bytes: &[u8], key: &Key) -> Result<Term, OpenError>
    ensures exact { result ≡ opened_nwk bytes.now key.now }
    // The bytes open to the term that is returned, and a term that they open to is returned.
    ensures found { IfOk result (λ t. OpensNwk bytes.now key.now t) }
    ensures only { (t : Term) → OpensNwk bytes.now key.now t → result ≡ Ok t }
{
    known_key(key);
    open_nwk_with(bytes, key, &Cipher::new(&key.0))
}

/// Opens an APS frame under a link key whose sealing keys were expanded before. `source` is the source if the frame
/// has none.
///
/// # Errors
///
/// As for `open_aps`.
#[tactic(auto, unfolding(crate::specs::Opening::opened_aps))]
pub fn open_aps_with(
    bytes: &[u8],
    keys: &SealingKeys,
    source: Option<Eui>,
) -> Result<Term, OpenError>
    ensures exact { result ≡ opened_aps bytes.now keys.now source }
{
    let envelope = look_aps(bytes)?;
    let cipher = keys.of(envelope.label);
    let term = envelope.open_with(keys.base(), cipher, source)?;
    Ok(term)
}

#[tactic(auto, unfolding(crate::specs::Opening::opened_aps))]
fn open_aps_once(bytes: &[u8], base: &Key, source: Option<Eui>) -> Result<Term, OpenError>
    ensures { result ≡ opened_aps bytes.now base.now source }
{
    let envelope = look_aps(bytes)?;
    let key = sealing_key(envelope.label, base);
    let term = envelope.open_with(base, &Cipher::new(&key.0), source)?;
    Ok(term)
}

/// Opens an APS frame under a link key. `source` is the source if the frame has none.
///
/// # Errors
///
/// The first of these:
///
/// - `Frame` if the bytes aren't an APS frame
/// - `NotSecured` if it is not secured
/// - `NoSource` if its source is not known
/// - `BadMic` if its MIC is not that of a content under the key
pub fn open_aps(bytes: &[u8], base: &Key, source: Option<Eui>) -> Result<Term, OpenError>
    ensures exact { result ≡ opened_aps bytes.now base.now source }
    // The bytes open to the term that is returned, and a term that they open to is returned.
    ensures found { IfOk result (λ t. OpensAps bytes.now base.now source t) }
    ensures only { (t : Term) → OpensAps bytes.now base.now source t → result ≡ Ok t }
{
    known_key(base);
    open_aps_once(bytes, base, source)
}

// States that a key has 16 bytes.
fn known_key(key: &Key)
    ensures { length key.now.0 ≡ 16 }
{
    let _bytes = key.0;
}
