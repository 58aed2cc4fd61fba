//! The payload of a NWK frame, and what is sealed in it.
ghost use Rattle.std.specs.Prelude.{◌≡◌, ◌+◌, ◌≤◌, ℕ, Some, false, length, option_map, true};
ghost use Rattle.arrayvec.specs.ArrayVec.{ArrayVec};
ghost use Rattle.zb_cmd.specs.Shape.{is_inner, is_tunnel};
ghost use Rattle.zb_model.specs.Answer.{part_of};
ghost use Rattle.zb_model.specs.Data.{Tunnel};
ghost use Rattle.zb_model.specs.Rules as model;
ghost use Rattle.zb_model_real.specs.Readers.{model_command};
ghost use Rattle.zb_model_real.specs.Real.{real};
ghost use Rattle.zb_model_real.specs.Terms.{model_label, model_term};
ghost use Rattle.zb_seal.specs.Wire.{wire_length};
ghost use Rattle.zb_send.specs.Sendings.{IsSendable, body_of, room, sealed_room, longest_plain, longest_inner};
ghost use Rattle.zb_send.specs.Parts.{part_seen};
ghost use Rattle.zb_base.specs.Limits.{longest_frame};

use crate::headers::{data_control, join, low_byte};
use crate::sending::{Body, Payload, Sending};
use crate::terms::{COMMAND, SECURED, command_term, data_term, forget};
use zb_base::{Eui, Frame, Key, Label, Short};
use zb_cmd::{Command, write_command};
use zb_cursor::{fill, frame_from};
use zb_seal::{KeyMemo, Term};

/// What seals a frame: the memo of expanded keys, the node's EUI, and the frame's counters at both layers.
#[derive(Drop)]
pub(crate) struct Seals<'a> {
    /// The keys that were expanded.
    pub(crate) memo: &'a KeyMemo,
    /// The node's EUI.
    pub(crate) me: Eui,
    /// The counter at NWK.
    pub(crate) nwk: u32,
    /// The counter at APS.
    pub(crate) aps: u32,
}

/// Writes a command. Requires one that is no Tunnel.
#[tactic(auto, using(crate::proofs::Lengths::shaped, zb_model_real::proofs::SameTerms::same_spelling))]
fn spelled(command: &Command) -> Frame
    requires { is_tunnel command.now ≡ false }
    ensures text { result.items ≡ real.spelled (model_command command.now) }
    ensures short { length result.items ≤ longest_plain }
{
    match write_command(command) {
        Ok(bytes) => bytes,
        Err(_) => Frame::new(),
    }
}

/// Seals a term. Requires that its bytes on the air fit a frame.
#[tactic(auto, using(zb_model_real::proofs::SameTerms::same_wire))]
pub(crate) fn sealed(memo: &KeyMemo, term: &Term) -> Frame
    requires { wire_length term.now ≤ longest_frame }
    ensures text { result.items ≡ real.wire (model_term term.now) }
    ensures len { length result.items ≡ wire_length term.now }
{
    match memo.wire(term) {
        Ok(bytes) => bytes,
        Err(_) => Frame::new(),
    }
}

/// Seals a term into the place of a frame. Requires that its bytes on the air fit a frame.
#[tactic(auto, using(zb_model_real::proofs::SameTerms::same_wire))]
pub(crate) fn put_sealed(memo: &KeyMemo, term: &Term, frame: &mut Option<Frame>)
    requires { wire_length term.now ≤ longest_frame }
    ensures { option_map (λ (f : ArrayVec ℕ). f.items) frame.new ≡ Some (real.wire (model_term term.now)) }
{
    match memo.wire(term) {
        Ok(bytes) => *frame = Some(bytes),
        Err(_) => *frame = Some(Frame::new()),
    }
}

/// Writes a Tunnel that brings a device its frame. Requires a frame that may stand there, of at most 54 bytes.
#[tactic(auto, using(zb_model_real::proofs::SameTerms::same_spelling))]
fn tunnel(device: Eui, inner: Frame) -> Frame
    requires shaped { is_inner inner.items ≡ true }
    requires small { length inner.items ≤ longest_inner }
    ensures text { result.items ≡ real.spelled (Tunnel device.0 inner.items) }
    ensures len { length result.items ≤ longest_inner + 9 }
{
    let command = Command::Tunnel {
        destination: device,
        inner,
    };
    match write_command(&command) {
        Ok(bytes) => bytes,
        Err(_) => Frame::new(),
    }
}

/// Writes the part of application data that isn't sealed.
#[tactic(auto, unfolding(zb_model::specs::Answer::part_of))]
fn saying(to: Short, nwk: u32, bytes: &Payload, seal: &mut Option<Term>, out: &mut Frame) -> u16
    ensures part { (me aps : ℕ) → part_seen result seal.new out.new
        ≡ part_of real me to.0 nwk aps (model.Saying bytes.now.items) }
    ensures room { length out.new.items ≤ sealed_room }
{
    forget(seal);
    let header = [data_control(to), 1, 0, 0, 4, 1, 1, low_byte(nwk)];
    join(out, &header, bytes.as_slice());
    SECURED
}

/// Writes the part of an APS command that isn't sealed.
#[tactic(auto, unfolding(zb_model::specs::Answer::part_of))]
fn clear(control: u8, nwk: u32, command: &Command, seal: &mut Option<Term>, out: &mut Frame) -> u16
    requires { is_tunnel command.now ≡ false }
    ensures part { (me to aps : ℕ) → part_seen result seal.new out.new
        ≡ part_of real me to nwk aps (model.Clear control (model_command command.now)) }
    ensures room { length out.new.items ≤ sealed_room }
{
    forget(seal);
    let header = [control, low_byte(nwk)];
    let bytes = spelled(command);
    join(out, &header, bytes.as_slice());
    SECURED
}

/// Writes the part of an APS command under a link key.
#[tactic(auto, unfolding(zb_model::specs::Answer::part_of))]
fn secret(
    seals: &Seals,
    label: Label,
    key: &Key,
    command: &Command,
    seal: &mut Option<Term>,
    out: &mut Frame,
) -> u16
    requires { is_tunnel command.now ≡ false }
    ensures part { (to nwk : ℕ) → part_seen result seal.new out.new
        ≡ part_of real seals.now.me.0 to nwk seals.now.aps
        (model.Secret (model_label label) key.now.0 (model_command command.now)) }
    ensures room { length out.new.items ≤ sealed_room }
{
    let term = command_term(label, key, seals.me, seals.aps, spelled(command));
    let bytes = sealed(seals.memo, &term);
    fill(out, bytes.as_slice());
    *seal = Some(term);
    SECURED
}

/// Writes the part of an APS command inside a Tunnel.
#[tactic(auto, unfolding(zb_model::specs::Answer::part_of))]
fn tunnelled(
    seals: &Seals,
    device: Eui,
    key: &Key,
    command: &Command,
    seal: &mut Option<Term>,
    out: &mut Frame,
) -> u16
    requires { is_tunnel command.now ≡ false }
    ensures part { (to : ℕ) → part_seen result seal.new out.new
        ≡ part_of real seals.now.me.0 to seals.now.nwk seals.now.aps
        (model.Tunnelled device.0 key.now.0 (model_command command.now)) }
    ensures room { length out.new.items ≤ sealed_room }
{
    let term = command_term(Label::Transport, key, seals.me, seals.aps, spelled(command));
    let inner = sealed(seals.memo, &term);
    let bytes = tunnel(device, inner);
    let header = [0x01, low_byte(seals.nwk)];
    join(out, &header, bytes.as_slice());
    *seal = Some(term);
    SECURED
}

/// Writes the part of application data under a link key.
#[tactic(auto, unfolding(zb_model::specs::Answer::part_of))]
fn telling(
    seals: &Seals,
    key: &Key,
    bytes: &Payload,
    seal: &mut Option<Term>,
    out: &mut Frame,
) -> u16
    ensures part { (to nwk : ℕ) → part_seen result seal.new out.new
        ≡ part_of real seals.now.me.0 to nwk seals.now.aps (model.Telling key.now.0 bytes.now.items) }
    ensures room { length out.new.items ≤ sealed_room }
{
    let term = data_term(key, seals.me, seals.aps, frame_from(bytes.as_slice()));
    let bytes = sealed(seals.memo, &term);
    fill(out, bytes.as_slice());
    *seal = Some(term);
    SECURED
}

/// Writes the part of a Leave that asks a node to go.
#[tactic(auto, unfolding(zb_model::specs::Answer::part_of))]
fn leaving(seal: &mut Option<Term>, out: &mut Frame) -> u16
    ensures part { (me to nwk aps : ℕ) → part_seen result seal.new out.new
        ≡ part_of real me to nwk aps model.Leaving }
    ensures room { length out.new.items ≤ sealed_room }
{
    forget(seal);
    fill(out, &[0x04, 0x40]);
    COMMAND
}

/// Writes the part that is the frame of a Tunnel.
#[tactic(auto, unfolding(zb_model::specs::Answer::part_of))]
fn relayed(bytes: &Frame, seal: &mut Option<Term>, out: &mut Frame) -> u16
    ensures part { (me to nwk aps : ℕ) → part_seen result seal.new out.new
        ≡ part_of real me to nwk aps (model.Relayed bytes.now.items) }
    ensures room { length out.new.items ≡ length bytes.now.items }
{
    forget(seal);
    fill(out, bytes.as_slice());
    SECURED
}

/// Writes the payload of a NWK frame into `out`, and the term that is sealed in it into `seal`.
///
/// That term is one of the APS layer, if there is any. Returns the NWK frame control that carries the payload, with
/// the bit that says sealed.
///
/// A key that the memo lacks is expanded. What the two places had is gone.
#[tactic(auto, using(crate::proofs::Lengths::least_room))]
pub(crate) fn put_part(
    seals: &Seals,
    sending: &Sending,
    seal: &mut Option<Term>,
    out: &mut Frame,
) -> u16
    requires { IsSendable sending.now }
    ensures part { part_seen result seal.new out.new
        ≡ part_of real seals.now.me.0 sending.now.to.0 seals.now.nwk seals.now.aps (body_of sending.now.body) }
    ensures room { length out.new.items ≤ room sending.now.secured }
{
    match &sending.body {
        Body::Saying { bytes } => saying(sending.to, seals.nwk, bytes, seal, out),
        Body::Clear { control, command } => clear(*control, seals.nwk, command, seal, out),
        Body::Secret {
            label,
            key,
            command,
        } => secret(seals, *label, key, command, seal, out),
        Body::Tunnelled {
            device,
            key,
            command,
        } => tunnelled(seals, *device, key, command, seal, out),
        Body::Telling { key, bytes } => telling(seals, key, bytes, seal, out),
        Body::Leaving => leaving(seal, out),
        Body::Relayed { bytes } => relayed(bytes, seal, out),
    }
}
