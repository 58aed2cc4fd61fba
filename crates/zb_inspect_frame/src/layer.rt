//! One layer of a frame, and the keys that are tried on it.
ghost use Rattle.std.specs.Prelude.{◌≡◌, ◌<◌, ◌≤◌, ◌+◌, ◌^◌, length, IfNone, IfSome};
ghost use Rattle.std.specs.Option.{option_copied};
ghost use Rattle.zb_inspect_frame.specs.Layers.{looked, tried, opened_as, opened_by, clear as clear_of, is_closed as closed};
ghost use Rattle.zb_inspect_frame.specs.declared.layer.Finding.TheVariants.{Closed, Opened};
ghost use Rattle.zb_seal.specs.Opening.{term_of};
ghost use Rattle.zb_base.specs.Limits.{longest_frame};

use std::mem;
use zb_base::{Eui, Frame, Key};
use zb_seal::{Envelope, OpenError, SealingKeys, Term};

/// What is found at one layer of a frame.
#[derive(Debug, Drop)]
pub enum Finding {
    /// The bytes are not a frame of the layer.
    Malformed,
    /// The frame is not secured.
    NotSecured,
    /// The frame names no source, and none is known otherwise.
    NoSource,
    /// No key of the ring opens the frame.
    Closed {
        /// What is needed to try further keys.
        envelope: Envelope,
        /// Who sealed it.
        source: Eui,
    },
    /// A key of the ring opens the frame. It is the first one that does.
    Opened {
        /// The number of the key, from 1.
        key: u32,
        /// What the key opened.
        term: Term,
    },
}

/// Checks a layer before any key is tried. `given` is the source, if the frame names none.
pub(crate) fn look(seen: Result<Envelope, OpenError>, given: Option<Eui>) -> Finding
    ensures { result ≡ looked seen given }
{
    match seen {
        Err(OpenError::Frame { .. }) => Finding::Malformed,
        Err(OpenError::NotSecured) => Finding::NotSecured,
        Err(OpenError::NoSource) => Finding::NoSource,
        Err(OpenError::BadMic) => Finding::Malformed,
        Ok(envelope) => match envelope.source_or(given) {
            None => Finding::NoSource,
            Some(source) => Finding::Closed { envelope, source },
        },
    }
}

/// Tries keys, one after the other, on a layer that no earlier key opened. There are `number` earlier keys.
pub(crate) fn try_keys(finding: &mut Finding, number: u32, keys: &[SealingKeys])
    requires { number + length keys.now < 2 ^ 32 }
    ensures { finding.new ≡ tried number keys.now finding.old }
{
    match unseal(finding, number, keys) {
        Some((place, base)) => open_as(finding, place, &base),
        None => {}
    }
}

/// Opens a closed layer with the first of these keys that fits, and returns that key's number and base key.
fn unseal(finding: &mut Finding, number: u32, keys: &[SealingKeys]) -> Option<(u32, Key)>
    requires { number + length keys.now < 2 ^ 32 }
    ensures opened { IfSome result (λ r. tried number keys.now finding.old ≡ opened_as finding.new r.0 r.1) }
    ensures closed { IfNone result (finding.new ≡ tried number keys.now finding.old) }
{
    match finding {
        Finding::Closed { envelope, source } => unseal_first(envelope, *source, number, keys),
        Finding::Malformed => None,
        Finding::NotSecured => None,
        Finding::NoSource => None,
        Finding::Opened { .. } => None,
    }
}

/// Opens an envelope with the first of these keys that fits, and returns that key's number and base key.
fn unseal_first(
    envelope: &mut Envelope,
    source: Eui,
    number: u32,
    keys: &[SealingKeys],
) -> Option<(u32, Key)>
    requires { number + length keys.now < 2 ^ 32 }
    ensures opened { IfSome result (λ r. opened_by envelope.old source number keys.now
        ≡ Opened r.0 (term_of envelope.new r.1 source)) }
    ensures closed { IfNone result (opened_by envelope.old source number keys.now ≡ Closed envelope.old source) }
    ensures kept { IfNone result (envelope.new ≡ envelope.old) }
{
    let mut place = number;
    for sealing_keys in keys {
        place += 1;
        let cipher = sealing_keys.of(envelope.label);
        match envelope.unseal(cipher, source) {
            Ok(()) => return Some((place, *sealing_keys.base())),
            Err(_) => {}
        }
    }
    None
}

/// Makes an opened layer of a closed one.
fn open_as(finding: &mut Finding, place: u32, base: &Key)
    ensures { finding.new ≡ opened_as finding.old place base.now }
{
    match mem::replace(finding, Finding::Malformed) {
        Finding::Closed { envelope, source } => {
            *finding = Finding::Opened {
                key: place,
                term: envelope.into_term(base, source),
            };
        }
        other => *finding = other,
    }
}

/// Returns the content of a layer, if it is known. It is `body` if the frame is not secured, else what it was opened
/// to.
pub(crate) fn clear<'a>(finding: &'a Finding, body: &'a Frame) -> Option<&'a [u8]>
    ensures value { option_copied result ≡ clear_of finding.now body.now.items }
    ensures fits { IfSome result (λ content. length content.now ≤ longest_frame) }
{
    match finding {
        Finding::NotSecured => Some(body.as_slice()),
        Finding::Opened { term, .. } => Some(term.content.as_slice()),
        Finding::Malformed => None,
        Finding::NoSource => None,
        Finding::Closed { .. } => None,
    }
}

/// Returns whether no key opened a secured layer.
pub(crate) fn is_closed(finding: &Finding) -> bool
    ensures { result ≡ closed finding.now }
{
    match finding {
        Finding::Closed { .. } => true,
        Finding::Malformed => false,
        Finding::NotSecured => false,
        Finding::NoSource => false,
        Finding::Opened { .. } => false,
    }
}
