//! Opening a frame that was read, under one key.
ghost use Rattle.std.specs.Prelude.{◌≡◌, Ok, Some, is_some, option_map};
ghost use Rattle.zb_aps.specs.Reading as aps;
ghost use Rattle.zb_aps.specs.Shape.{Spells as SpellsAps};
ghost use Rattle.zb_model_real.specs.Real.{real};
ghost use Rattle.zb_model_real.specs.Terms.{model_term};
ghost use Rattle.zb_nwk.specs.Reading as nwk;
ghost use Rattle.zb_nwk.specs.Shape.{Spells as SpellsNwk};

use zb_aps::ApsFrame;
use zb_base::{Eui, Key};
use zb_nwk::NwkFrame;
use zb_seal::{KeyMemo, Term, envelope_aps, envelope_nwk};

/// Opens a NWK frame under a network key, if it is the frame's. Requires the bytes that the frame was read from.
#[tactic(auto, unfolding(crate::specs::Steps::real, crate::specs::Steps::opened_nwk, crate::specs::Steps::seen_nwk))]
pub(crate) fn open_nwk(memo: &KeyMemo, bytes: &[u8], frame: &NwkFrame, key: &Key) -> Option<Term>
    requires read { nwk.frame_of bytes.now ≡ Ok frame.now }
    requires spells { SpellsNwk bytes.now frame.now }
    ensures { option_map model_term result ≡ real.open_nwk bytes.now key.now.0 }
{
    match envelope_nwk(bytes, frame) {
        Err(_) => None,
        Ok(closed) => match memo.open(closed.envelope, key, None) {
            Ok(term) => Some(term),
            Err(_) => None,
        },
    }
}

/// Opens an APS frame under a link key, if it is the frame's. Requires the bytes that the frame was read from.
///
/// `source` is the source where the frame names none.
#[tactic(auto, unfolding(crate::specs::Steps::real, crate::specs::Steps::opened_aps, crate::specs::Steps::seen_aps))]
pub(crate) fn open_aps(
    memo: &KeyMemo,
    bytes: &[u8],
    frame: &ApsFrame,
    key: &Key,
    source: Eui,
) -> Option<Term>
    requires read { aps.frame_of bytes.now ≡ Ok frame.now }
    requires spells { SpellsAps bytes.now frame.now }
    ensures { option_map model_term result ≡ real.open_aps bytes.now key.now.0 source.0 }
{
    match envelope_aps(bytes, frame) {
        Err(_) => None,
        Ok(envelope) => match memo.open(envelope, key, Some(source)) {
            Ok(term) => Some(term),
            Err(_) => None,
        },
    }
}
