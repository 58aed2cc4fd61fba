//! What a secured frame shows before any key is tried, and opening it.
ghost use Rattle.std.specs.Prelude.{◌≡◌, Some, None, Err, OnOk, OnErr};
ghost use Rattle.zb_seal.specs.declared.envelope.OpenError.TheVariants.{BadMic};
ghost use Rattle.zb_ccm.specs.Ccm.{opens};
ghost use Rattle.zb_seal.specs.Keys.{sealing_key as key_of};
ghost use Rattle.zb_seal.specs.Opening.{source_of, content_of, term_of, opened};

use crate::key::nonce;
use crate::term::Term;
use std::error::Error;
use std::fmt;
use zb_aes::Cipher;
use zb_aps::ApsError;
use zb_base::{Eui, Frame, Key, Label, Layer, Short};
use zb_nwk::NwkError;

/// Why a frame doesn't open, in the order of the checks.
#[derive(Clone, Copy, Debug, PartialEq, Eq)]
pub enum OpenError {
    /// The bytes aren't a frame. One of the two faults is present: that of the reader that was used.
    Frame {
        /// The fault of the reader of NWK frames.
        nwk: Option<NwkError>,
        /// The fault of the reader of APS frames.
        aps: Option<ApsError>,
    },
    /// The frame is not secured.
    NotSecured,
    /// The frame has no source, and none was given.
    NoSource,
    /// The MIC isn't that of a content under this key.
    BadMic,
}

impl fmt::Display for OpenError {
    ghost use Rattle.std.specs.Prelude.{Some};
    ghost use Rattle.zb_seal.specs.Texts.{fault_text};

    ghost output = { λ fault. Some (fault_text fault) };

    fn fmt<W: fmt::Write>(&self, f: &mut fmt::Formatter<W>) -> fmt::Result {
        match self {
            OpenError::Frame { .. } => f.write_str("no frame"),
            OpenError::NotSecured => f.write_str("the frame is not secured"),
            OpenError::NoSource => f.write_str("the source of the frame is not known"),
            OpenError::BadMic => f.write_str("the MIC of the frame is wrong"),
        }
    }
}

impl Error for OpenError {}

fn open_frame(
    cipher: &Cipher,
    nonce: &[u8; 13],
    header: &Frame,
    text: &mut Frame,
    mic: &[u8; 4],
) -> Result<(), OpenError>
    ensures opened { OnOk result
        (opens cipher.now nonce.now header.now.items text.old.items mic.now ≡ Some text.new.items) }
    ensures refused { OnErr result (opens cipher.now nonce.now header.now.items text.old.items mic.now ≡ None) }
    ensures bad_mic { OnErr result (result ≡ Err BadMic) }
    ensures kept { OnErr result (text.new ≡ text.old) }
{
    match zb_ccm::open_with(cipher, nonce, header.as_slice(), text.as_mut_slice(), mic) {
        Ok(()) => Ok(()),
        Err(_) => Err(OpenError::BadMic),
    }
}

/// A closed secured layer of a frame: everything except the key and the content.
#[derive(Debug, Drop, PartialEq, Eq)]
pub struct Envelope {
    /// The layer that is secured.
    pub layer: Layer,
    /// The label: which key derived from a base key seals it.
    pub label: Label,
    /// The source in the auxiliary header. Only an APS frame may leave it out.
    pub source: Option<Eui>,
    /// The frame counter of the auxiliary header.
    pub counter: u32,
    /// The auxiliary control byte with the actual level.
    pub control: u8,
    /// What is authenticated: the header with its auxiliary header and the actual level.
    pub header: Frame,
    /// The cipher text.
    pub text: Frame,
    /// The MIC.
    pub mic: [u8; 4],
}

/// A closed secured NWK frame: its addresses, which network key seals it, and its envelope.
#[derive(Debug, Drop, PartialEq, Eq)]
pub struct NwkEnvelope {
    /// The short address that the frame goes to.
    pub destination: Short,
    /// The short address that the frame comes from.
    pub source: Short,
    /// The sequence number of the network key that seals the frame.
    pub key_sequence: u8,
    /// The secured layer.
    pub envelope: Envelope,
}

impl Envelope {
    /// Opens the envelope in place under an expanded sealing key: `text` becomes the content.
    ///
    /// # Errors
    ///
    /// `BadMic` if the MIC isn't that of a content under this key and source. Then nothing changes, so that the next
    /// key can be tried.
    pub fn unseal(&mut self, cipher: &Cipher, source: Eui) -> Result<(), OpenError>
        ensures opened { OnOk result (content_of self.old cipher.now source ≡ Some self.new.text.items) }
        ensures refused { OnErr result (content_of self.old cipher.now source ≡ None) }
        ensures bad_mic { OnErr result (result ≡ Err BadMic) }
        ensures kept { OnErr result (self.new ≡ self.old) }
        ensures same { self.new ≡ record self.old { text = self.new.text } }
    {
        let nonce = nonce(source, self.counter, self.control);
        open_frame(cipher, &nonce, &self.header, &mut self.text, &self.mic)?;
        Ok(())
    }

    /// Returns the source in the frame, or else the given one.
    pub fn source_or(&self, given: Option<Eui>) -> Option<Eui>
        ensures { result ≡ source_of self.now.source given }
    {
        match self.source {
            Some(source) => Some(source),
            None => given,
        }
    }

    /// Makes the term of an envelope that was unsealed under a key of this base key, for this source.
    pub fn into_term(self, base: &Key, source: Eui) -> Term
        ensures { result ≡ term_of self base.now source }
    {
        Term {
            layer: self.layer,
            base: *base,
            label: self.label,
            source,
            counter: self.counter,
            control: self.control,
            header: self.header,
            content: self.text,
        }
    }

    /// Opens the envelope under a base key. Requires its sealing key for the label, which was expanded before. `given`
    /// is the source if the frame has none.
    ///
    /// # Errors
    ///
    /// `NoSource` if the source isn't known, then `BadMic` if the MIC isn't that of a content.
    #[tactic(auto, unfolding(crate::specs::Opening::opened))]
    pub fn open_with(
        self,
        base: &Key,
        cipher: &Cipher,
        given: Option<Eui>,
    ) -> Result<Term, OpenError>
        requires { cipher.now ≡ key_of self.label base.now.0 }
        ensures { result ≡ opened self base.now given }
    {
        let mut envelope = self;
        match envelope.source_or(given) {
            None => Err(OpenError::NoSource),
            Some(source) => {
                envelope.unseal(cipher, source)?;
                Ok(envelope.into_term(base, source))
            }
        }
    }
}
