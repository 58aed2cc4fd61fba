//! The sealing keys of a base key, the level bits, and the nonce.
ghost use Rattle.std.specs.Prelude.{◌≡◌, ℕ, ◌+◌, ◌*◌, ◌/◌, length};
ghost use Rattle.zb_seal.specs.Keys.{sealing_key as key_of};
ghost use Rattle.zb_seal.specs.Wire.{zero_level as cleared, real_level as restored, nonce as nonce_of};

use zb_base::{Eui, Key, Label};
use zb_mmo::{load_key, transport_key};

/// Derives the key that seals with a label: the base key itself, or its key-transport or key-load key (05-3474-21,
/// 4.5.3).
pub fn sealing_key(label: Label, base: &Key) -> Key
    ensures { result.0 ≡ key_of label base.now.0 }
{
    match label {
        Label::Data | Label::Network => *base,
        Label::Transport => transport_key(base),
        Label::Load => load_key(base),
    }
}

/// Returns a control byte as on the air, with level bits 000.
pub fn zero_level(control: u8) -> u8
    ensures { result ≡ cleared control }
{
    control / 8 * 8
}

/// Returns a control byte with the actual level, 5.
pub fn real_level(control: u8) -> u8
    ensures { result ≡ restored control }
{
    control / 8 * 8 + 5
}

/// Makes the nonce of a frame: source, counter and control byte (05-3474-21, 4.5.2.2).
pub fn nonce(source: Eui, counter: u32, control: u8) -> [u8; 13]
    ensures { result ≡ nonce_of source counter control }
{
    let [a, b, c, d, e, f, g, h] = source.0.to_le_bytes();
    let [i, j, k, l] = counter.to_le_bytes();
    [a, b, c, d, e, f, g, h, i, j, k, l, control]
}
