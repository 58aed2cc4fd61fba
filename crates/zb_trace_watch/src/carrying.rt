//! The key that a term carries, found without parsing frames that can't carry one.
ghost use Rattle.std.specs.Prelude.{◌≡◌, None, false};
ghost use Rattle.zb_aps.specs.Reading.{frame_of};
ghost use Rattle.zb_base.specs.declared.label.Layer.TheVariants.{Nwk};
ghost use Rattle.zb_seal.specs.Carrying.{carried, clear_key, is_command_header};

use zb_base::{Key, Layer};
use zb_seal::{Term, carried, is_command};

/// Returns the key that a term carries, if any.
///
/// A NWK frame is parsed only if it begins as an APS command.
pub fn carried_key(term: &Term) -> Option<Key>
    ensures { result ≡ carried term.now }
{
    match term.layer {
        Layer::Aps => carried(term),
        Layer::Nwk => carried_in_clear(term),
    }
}

#[tactic(auto, using(crate::proofs::Commands::nothing_carried))]
fn carried_in_clear(term: &Term) -> Option<Key>
    requires { term.now.layer ≡ Nwk }
    ensures { result ≡ carried term.now }
{
    let content = term.content.as_slice();
    if begins_as_command(content) {
        return carried(term);
    }
    no_key_in(content);
    None
}

fn begins_as_command(bytes: &[u8]) -> bool
    ensures { result ≡ is_command_header bytes.now }
{
    match bytes {
        [] => false,
        [control, ..] => is_command(u16::from(*control)),
    }
}

/// States that bytes which don't begin as an APS command have no key in clear.
fn no_key_in(bytes: &[u8])
    ensures { is_command_header bytes.now ≡ false → clear_key (frame_of bytes.now) ≡ None }
{}
