//! Forged terms and frames.
ghost use Rattle.std.specs.Prelude.{◌≡◌, ◌+◌, ◌≤◌, ◌++◌, length};
ghost use Rattle.zb_model.specs.Frames.{aps_term, nwk_header, nwk_term, plain_frame, sealed_command};
ghost use Rattle.zb_model.specs.Play.{forged_control};
ghost use Rattle.zb_model_real.specs.Real.{real};
ghost use Rattle.zb_model_real.specs.Terms.{model_label, model_term};
ghost use Rattle.zb_seal.specs.Wire.{wire_length};
ghost use Rattle.zb_base.specs.Limits.{longest_frame, longest_content};
ghost use Rattle.zb_send.specs.Sendings.{sealed_room, clear_room};

use zb_base::{Eui, Frame, Key, Label, Short};
use zb_cmd::read_leave;
use zb_cursor::frame_from;
use zb_seal::{Term, wire};
use zb_send::{CLEAR, COMMAND, Head, SECURED, command_term, joined, nwk_header, nwk_term};

/// Returns the NWK frame control of a forged content: a Leave is a command.
///
/// Requires a content of at most 64 bytes.
#[tactic(auto, using(crate::proofs::Controls::of_leave, crate::proofs::Controls::of_data))]
pub fn forged_control(content: &[u8]) -> u16
    requires { length content.now ≤ longest_content }
    ensures { result ≡ forged_control real content.now }
{
    match read_leave(content) {
        Ok(_) => COMMAND,
        Err(_) => SECURED,
    }
}

/// Makes the term of a NWK frame under a network key.
///
/// Requires a content of at most 101 bytes, which then fits a frame.
pub fn nwk_frame(
    control: u16,
    to: Short,
    from: Short,
    source: Eui,
    key: &Key,
    sequence: u8,
    counter: u32,
    content: &[u8],
) -> Term
    requires { length content.now ≤ sealed_room }
    ensures term { model_term result
        ≡ nwk_term control to.0 from.0 source.0 key.now.0 sequence counter content.now }
    ensures len { wire_length result ≡ length content.now + 26 }
{
    let head = Head {
        control,
        to,
        from,
        source,
        key: *key,
        sequence,
        counter,
    };
    nwk_term(head, frame_from(content))
}

/// Makes the term of an APS command under a link key.
///
/// Requires a command of at most 64 bytes.
pub fn aps_command(label: Label, key: &Key, source: Eui, counter: u32, command: &[u8]) -> Term
    requires { length command.now ≤ longest_content }
    ensures term { model_term result
        ≡ aps_term sealed_command (model_label label) key.now.0 source.0 counter command.now }
    ensures len { wire_length result ≡ length command.now + 19 }
{
    command_term(label, key, source, counter, frame_from(command))
}

/// Returns the bytes of a term on the air.
///
/// Requires that they fit a frame.
#[tactic(auto, using(zb_model_real::proofs::SameTerms::same_wire))]
pub fn sealed(term: &Term) -> Frame
    requires { wire_length term.now ≤ longest_frame }
    ensures text { result.items ≡ real.wire (model_term term.now) }
    ensures len { length result.items ≡ wire_length term.now }
{
    match wire(term) {
        Ok(bytes) => bytes,
        Err(_) => Frame::new(),
    }
}

/// Makes the NWK frame of a payload that isn't sealed at the NWK layer.
///
/// Requires a payload of at most 119 bytes.
pub fn clear_frame(to: Short, from: Short, payload: &[u8]) -> Frame
    requires { length payload.now ≤ clear_room }
    ensures { result.items ≡ nwk_header plain_frame to.0 from.0 0 ++ payload.now }
{
    joined(nwk_header(CLEAR, to, from, 0).as_slice(), payload)
}
