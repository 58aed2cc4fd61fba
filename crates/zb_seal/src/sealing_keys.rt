//! A base key with its sealing keys, each expanded once.
ghost use Rattle.std.specs.Prelude.{◌≡◌};
ghost use Rattle.zb_seal.specs.Keys.{sealing_key as key_of};

use crate::key::sealing_key;
use std::marker::Model;
use zb_aes::Cipher;
use zb_base::{Key, Label};

/// A base key whose three sealing keys were expanded once, for any number of frames.
///
/// A contract sees it as its base key.
#[derive(Drop)]
pub struct SealingKeys {
    base: Key,
    plain: Cipher,
    transport: Cipher,
    load: Cipher,
}

impl Model for SealingKeys {
    ghost use Rattle.std.specs.Prelude.{◌≡◌};
    ghost use Rattle.zb_base.specs.declared.key.Key.{Key};
    ghost use Rattle.zb_base.specs.declared.label.Label.TheVariants.{Data, Transport, Load};
    ghost use Rattle.zb_seal.specs.Keys.{sealing_key};

    ghost Value = { Key };

    ghost view = { λ keys. keys.base };

    ghost invariant = { λ keys. (keys.plain ≡ sealing_key Data keys.base.0)
        × (keys.transport ≡ sealing_key Transport keys.base.0) × (keys.load ≡ sealing_key Load keys.base.0) };
}

impl SealingKeys {
    /// Derives and expands the sealing keys of a base key.
    pub fn new(base: &Key) -> SealingKeys
        ensures { result ≡ base.now }
    {
        SealingKeys {
            base: *base,
            plain: Cipher::new(&base.0),
            transport: Cipher::new(&sealing_key(Label::Transport, base).0),
            load: Cipher::new(&sealing_key(Label::Load, base).0),
        }
    }

    /// Returns the base key.
    pub fn base(&self) -> &Key
        ensures { result.now ≡ self.now }
    {
        &self.base
    }

    /// Returns the sealing key of a label.
    pub fn of(&self, label: Label) -> &Cipher
        ensures { result.now ≡ key_of label self.now.0 }
    {
        match label {
            Label::Data | Label::Network => &self.plain,
            Label::Transport => &self.transport,
            Label::Load => &self.load,
        }
    }
}
