//! The key in a sealed term, and in an unsecured frame that was heard.
ghost use Rattle.std.specs.Prelude.{◌≡◌, ◌≤◌, length};
ghost use Rattle.zb_aps.specs.Reading.{frame_of};
ghost use Rattle.zb_cmd.specs.Reading.{command_of};
ghost use Rattle.zb_seal.specs.Carrying.{carried, clear_key, is_clear_command, is_command, is_command_header, key_in};
ghost use Rattle.zb_base.specs.Limits.{longest_frame};

use crate::Term;
use zb_aps::ApsFrame;
use zb_base::{Key, Layer};
use zb_cmd::{Command, read_command};

/// Returns the key that a term carries, if any (05-3474-21, 4.4.10.1).
///
/// It is that of a Transport-Key which is the content of the term: sealed at the application support layer as a
/// command, or in a network frame without APS security.
#[tactic(auto, unfolding(crate::specs::Carrying::carried))]
pub fn carried(term: &Term) -> Option<Key>
    ensures { result ≡ carried term.now }
{
    match term.layer {
        Layer::Aps => {
            if is_command_header(term.header.as_slice()) {
                transported(term.content.as_slice())
            } else {
                None
            }
        }
        Layer::Nwk => key_in_clear(term.content.as_slice()),
    }
}

/// Returns whether a header is of an APS command.
fn is_command_header(header: &[u8]) -> bool
    ensures { result ≡ is_command_header header.now }
{
    match header {
        [] => false,
        [control, ..] => is_command(u16::from(*control)),
    }
}

/// Returns whether an APS or NWK frame control is of a command: its two low bits are 1.
pub fn is_command(control: u16) -> bool
    ensures { result ≡ is_command control }
{
    control % 4 == 1
}

/// Returns the key in a whole APS command without APS security.
fn key_in_clear(bytes: &[u8]) -> Option<Key>
    ensures { result ≡ clear_key (frame_of bytes.now) }
{
    match zb_aps::read(bytes) {
        Ok(frame) => {
            if is_clear_command(&frame) {
                transported(frame.body.as_slice())
            } else {
                None
            }
        }
        Err(_) => None,
    }
}

/// Returns whether a frame is an APS command without APS security.
fn is_clear_command(frame: &ApsFrame) -> bool
    ensures { result ≡ is_clear_command frame.now }
{
    frame.aux.is_none() && is_command(u16::from(frame.header.control))
}

/// Returns the key in a Transport-Key, of any of its three types.
fn transported(bytes: &[u8]) -> Option<Key>
    requires { length bytes.now ≤ longest_frame }
    ensures { result ≡ key_in (command_of bytes.now) }
{
    match read_command(bytes) {
        Ok(Command::TransportNetwork { key, .. }) => Some(key),
        Ok(Command::TransportApplication { key, .. }) => Some(key),
        Ok(Command::TransportLink { key, .. }) => Some(key),
        _ => None,
    }
}
