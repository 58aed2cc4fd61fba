//! Sealing keys that were derived and expanded before, so that they aren't expanded again for each frame.
ghost use Rattle.std.specs.Prelude.{◌≡◌, ◌<◌, Err, IfOk, IfSome, None, OnErr, OnOk, Some, length};
ghost use Rattle.zb_seal.specs.Keys.{sealing_key as key_of};
ghost use Rattle.zb_seal.specs.Opening.{content_of, opened};
ghost use Rattle.zb_seal.specs.declared.envelope.OpenError.TheVariants.{BadMic};
ghost use Rattle.zb_seal.specs.Wire.{wire, wire_length};
ghost use Rattle.zb_base.specs.Limits.{longest_frame};

use crate::envelope::{Envelope, OpenError};
use crate::key::sealing_key;
use crate::sealing::{wire, wire_with};
use crate::term::Term;
use std::alloc::Global;
use zb_aes::Cipher;
use zb_base::{Eui, Frame, Key, Label};
use zb_cursor::TooLong;

/// A base key, a label, and the sealing key that results from both, expanded once.
#[derive(Drop)]
struct Expanded {
    base: Key,
    label: Label,
    cipher: Cipher,
    ghost is_its_key: { cipher ≡ key_of label base.0 },
}

/// How many sealing keys a memo has at most.
const KEYS: usize = 8;

/// The last sealing keys that were added, expanded: at most 8.
///
/// Its content changes no result: a key that it lacks is expanded for the one call. It takes memory when a key is
/// kept. If memory runs out, it keeps none.
#[derive(Drop)]
pub struct KeyMemo {
    keys: Vec<Expanded>,
    // The place that the next key takes.
    next: usize,
}

impl KeyMemo {
    /// Makes a memo without keys. It takes no memory.
    pub fn new(alloc: Global) -> KeyMemo {
        KeyMemo {
            keys: Vec::new(alloc),
            next: 0,
        }
    }

    /// Returns the sealing key of a base key and a label, if it was kept.
    pub fn find(&self, label: Label, base: &Key) -> Option<&Cipher>
        ensures { IfSome result (λ cipher. cipher.now ≡ key_of label base.now.0) }
    {
        for expanded in self.keys.as_slice() {
            if expanded.label == label && expanded.base == *base {
                return Some(&expanded.cipher);
            }
        }
        None
    }

    /// Derives and expands a sealing key, and keeps it.
    ///
    /// If there is no room, it replaces the oldest one.
    pub fn keep(&mut self, label: Label, base: &Key) {
        if self.find(label, base).is_some() {
            return;
        }
        let expanded = Expanded {
            base: *base,
            label,
            cipher: Cipher::new(&sealing_key(label, base).0),
        };
        let place = self.next % KEYS;
        if place < self.keys.len() {
            self.keys[place] = expanded;
        } else if self.keys.push(expanded).is_err() {
            return;
        }
        self.next = (place + 1) % KEYS;
    }

    // Opens an envelope in place under a base key, for a source, as `Envelope::unseal` does.
    fn unseal(&self, envelope: &mut Envelope, key: &Key, source: Eui) -> Result<(), OpenError>
        ensures opened { OnOk result (content_of envelope.old (key_of envelope.old.label key.now.0) source
            ≡ Some envelope.new.text.items) }
        ensures refused { OnErr result
            (content_of envelope.old (key_of envelope.old.label key.now.0) source ≡ None) }
        ensures bad_mic { OnErr result (result ≡ Err BadMic) }
        ensures same { envelope.new ≡ record envelope.old { text = envelope.new.text } }
    {
        match self.find(envelope.label, key) {
            Some(cipher) => envelope.unseal(cipher, source),
            None => {
                let sealing = sealing_key(envelope.label, key);
                envelope.unseal(&Cipher::new(&sealing.0), source)
            }
        }
    }

    /// Opens an envelope under a base key. `given` is the source if the frame has none.
    ///
    /// # Errors
    ///
    /// `NoSource` if the source isn't known, then `BadMic` if the MIC isn't that of a content.
    #[tactic(auto, unfolding(crate::specs::Opening::opened))]
    pub fn open(&self, envelope: Envelope, key: &Key, given: Option<Eui>) -> Result<Term, OpenError>
        ensures { result ≡ opened envelope key.now given }
    {
        let mut envelope = envelope;
        match envelope.source_or(given) {
            None => Err(OpenError::NoSource),
            Some(source) => {
                self.unseal(&mut envelope, key, source)?;
                Ok(envelope.into_term(key, source))
            }
        }
    }

    /// Seals a term, as `wire` does.
    ///
    /// # Errors
    ///
    /// `TooLong` if its bytes on the air are more than 127.
    pub fn wire(&self, term: &Term) -> Result<Frame, TooLong>
        ensures text { IfOk result (λ bytes. bytes.items ≡ wire term.now) }
        ensures long { OnErr result (longest_frame < wire_length term.now) }
        ensures len { length (wire term.now) ≡ wire_length term.now }
    {
        match self.find(term.label, &term.base) {
            Some(cipher) => wire_with(term, cipher),
            None => wire(term),
        }
    }
}
