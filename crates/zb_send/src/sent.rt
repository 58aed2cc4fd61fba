//! The frame that goes out, and the terms that are sealed in it.
ghost use Rattle.std.specs.Prelude.{◌≡◌, ◌&&◌, ◌||◌, Some, false, is_some, not, option_map, true};
ghost use Rattle.zb_model.specs.Answer.{Counting, framed, has_aps_seal, may_seal, nothing_out, out_of, plain_out, reserve_of, seals_at, secured_out, sent};
ghost use Rattle.zb_model.specs.Data.{Aps, Nwk};
ghost use Rattle.zb_model.specs.Rules.{spent};
ghost use Rattle.zb_model.specs.State.{active_row, next_counter};
ghost use Rattle.zb_model_real.specs.Real.{real};
ghost use Rattle.zb_node_types.specs.Changes.{model_layer};
ghost use Rattle.zb_rows.specs.RowViews.{net_key};
ghost use Rattle.zb_send.specs.Parts.{part_by};
ghost use Rattle.zb_send.specs.Sendings.{CanBeSent, IsSendable, body_of, sending_of};
ghost use Rattle.zb_send.specs.Sent.{IsCounting, IsKept, drawn_limit, sent_in};

use crate::headers::{Head, joined, nwk_header};
use crate::part::{Seals, put_part, put_sealed};
use crate::sending::{Body, Sending};
use crate::terms::{CLEAR, blank_term, forget, put_nwk_term};
use zb_base::{Frame, Layer};
use zb_host::Outcome;
use zb_node_types::Refusal;
use zb_rows::{NetRow, Tables, draw_number, is_spent, next_counter};
use zb_seal::{KeyMemo, Term};
use zb_setting::Network;

/// Puts out nothing of what can't be sealed.
fn put_nothing(out: &mut Outcome<Term, Refusal>)
    ensures sent { sent_in out.new ≡ nothing_out }
    ensures kept { IsKept out.old out.new }
{
    forget(&mut out.sealed_aps);
    forget(&mut out.sealed_nwk);
    out.frame = None;
}

/// Puts out what is to be sent, not sealed at the NWK layer.
fn put_plain(network: &Network, seals: &Seals, sending: &Sending, out: &mut Outcome<Term, Refusal>)
    requires sendable { IsSendable sending.now }
    requires plain { sending.now.secured ≡ false }
    ensures sent { sent_in out.new ≡ plain_out network.now sending.now.to.0 (part_by seals.now sending.now) }
    ensures kept { IsKept out.old out.new }
{
    let mut bytes = Frame::new();
    put_part(seals, sending, &mut out.sealed_aps, &mut bytes);
    let header = nwk_header(CLEAR, sending.to, network.short(), 0);
    out.frame = Some(joined(header.as_slice(), bytes.as_slice()));
    forget(&mut out.sealed_nwk);
}

/// Puts out what is to be sent, sealed under a network key.
fn put_secured(
    network: &Network,
    seals: &Seals,
    row: &NetRow,
    sending: &Sending,
    out: &mut Outcome<Term, Refusal>,
)
    requires sendable { IsSendable sending.now }
    requires secured { sending.now.secured ≡ true }
    ensures sent { sent_in out.new ≡ secured_out real network.now sending.now.to.0 seals.now.nwk (net_key row.now)
        (part_by seals.now sending.now) }
    ensures kept { IsKept out.old out.new }
{
    if out.sealed_nwk.is_none() {
        out.sealed_nwk = Some(blank_term());
    }
    match &mut out.sealed_nwk {
        Some(term) => {
            let control = put_part(seals, sending, &mut out.sealed_aps, &mut term.content);
            let head = Head {
                control,
                to: sending.to,
                from: network.short(),
                source: network.eui(),
                key: row.key,
                sequence: row.sequence,
                counter: seals.nwk,
            };
            put_nwk_term(term, head);
            put_sealed(seals.memo, term, &mut out.frame);
        }
        None => unreachable!(),
    }
}

/// Puts out what is to be sent, under the active network key if it is to be sealed.
fn put_framed(
    network: &Network,
    tables: &Tables,
    seals: &Seals,
    sending: &Sending,
    out: &mut Outcome<Term, Refusal>,
)
    requires { IsSendable sending.now }
    ensures sent { sent_in out.new ≡ framed real network.now sending.now.to.0 seals.now.nwk sending.now.secured
        (active_row tables.now) (part_by seals.now sending.now) }
    ensures kept { IsKept out.old out.new }
{
    if !sending.secured {
        put_plain(network, seals, sending, out);
        return;
    }
    match tables.active_row() {
        None => put_nothing(out),
        Some(row) => put_secured(network, seals, row, sending, out),
    }
}

/// Returns the counter of a frame at a layer: the number that is drawn, or the last one when none is left.
///
/// A frame that isn't sealed at NWK has the low byte of that layer's counter all the same, as its sequence number.
fn counter_at(network: &Network, tables: &Tables, layer: Layer) -> u32
    ensures { result ≡ next_counter (model_layer layer) tables.now }
{
    match draw_number(network, tables, layer) {
        Some(drawn) => drawn.number,
        None => next_counter(tables, layer),
    }
}

/// Puts out what is to be sent, with the next counters.
fn send_one(
    network: &Network,
    tables: &Tables,
    memo: &KeyMemo,
    sending: &Sending,
    out: &mut Outcome<Term, Refusal>,
)
    requires { IsSendable sending.now }
    ensures sent { (k : Counting) → IsCounting tables.now k → sent_in out.new
        ≡ sent real network.now tables.now k (Some (sending_of sending.now)) }
    ensures kept { IsKept out.old out.new }
{
    let me = network.eui();
    let nwk = counter_at(network, tables, Layer::Nwk);
    let aps = counter_at(network, tables, Layer::Aps);
    let seals = Seals { memo, me, nwk, aps };
    put_framed(network, tables, &seals, sending, out);
}

/// Returns whether something is sealed at the APS layer.
fn has_aps_seal(body: &Body) -> bool
    ensures { result ≡ has_aps_seal (body_of body.now) }
{
    match body {
        Body::Saying { .. } => false,
        Body::Clear { .. } => false,
        Body::Secret { .. } => true,
        Body::Tunnelled { .. } => true,
        Body::Telling { .. } => true,
        Body::Leaving => false,
        Body::Relayed { .. } => false,
    }
}

/// Returns whether the NWK layer has a key and a counter for a frame, where it is to be sealed there.
fn may_seal_nwk(tables: &Tables, secured: bool) -> bool
    ensures { result ≡ (not secured || (is_some (active_row tables.now) && not (spent Nwk tables.now))) }
{
    !secured || tables.active_row().is_some() && !is_spent(tables, Layer::Nwk)
}

/// Returns whether the APS layer has a counter for a frame, where something is to be sealed there.
fn may_seal_aps(tables: &Tables, body: &Body) -> bool
    ensures { result ≡ (not (has_aps_seal (body_of body.now)) || not (spent Aps tables.now)) }
{
    !has_aps_seal(body) || !is_spent(tables, Layer::Aps)
}

/// Returns whether the node has a key and the counters for a frame.
#[tactic(auto, unfolding(zb_model::specs::Answer::may_seal))]
pub fn may_seal(tables: &Tables, sending: &Sending) -> bool
    ensures { result ≡ may_seal tables.now (Some (sending_of sending.now)) }
{
    may_seal_nwk(tables, sending.secured) && may_seal_aps(tables, &sending.body)
}

/// Returns whether a frame is sealed at a layer.
fn seals_at(layer: Layer, sending: &Sending) -> bool
    ensures { result ≡ seals_at (model_layer layer) (Some (sending_of sending.now)) }
{
    match layer {
        Layer::Nwk => sending.secured,
        Layer::Aps => has_aps_seal(&sending.body),
    }
}

/// Returns whether a frame is sealed at a layer, and the node has a key and the counters for it.
fn is_sealed_at(layer: Layer, tables: &Tables, sending: &Sending) -> bool
    ensures { result ≡ (seals_at (model_layer layer) (Some (sending_of sending.now))
        && may_seal tables.now (Some (sending_of sending.now))) }
{
    seals_at(layer, sending) && may_seal(tables, sending)
}

/// Returns the limit that the next draw at a layer stores first, if it does. A spent counter stores none.
fn drawn_limit(network: &Network, tables: &Tables, layer: Layer) -> Option<u32>
    ensures { result ≡ drawn_limit network.now tables.now (model_layer layer) }
{
    match draw_number(network, tables, layer) {
        Some(drawn) => drawn.reserve,
        None => None,
    }
}

/// Returns the limit up to which counters of a layer are reserved before a frame goes out, if any are.
fn reserve_for(network: &Network, tables: &Tables, sending: &Sending, layer: Layer) -> Option<u32>
    ensures { result ≡ reserve_of network.now tables.now (Some (sending_of sending.now)) (model_layer layer) }
{
    if is_sealed_at(layer, tables, sending) {
        drawn_limit(network, tables, layer)
    } else {
        None
    }
}

/// Returns the limit up to which counters of a layer are reserved before what is to be sent goes out, if any are.
#[tactic(auto, unfolding(zb_model::specs::Answer::reserve_of))]
pub fn reserve(
    network: &Network,
    tables: &Tables,
    sending: &Option<Sending>,
    layer: Layer,
) -> Option<u32>
    ensures { result ≡ reserve_of network.now tables.now (option_map sending_of sending.now) (model_layer layer) }
{
    match sending {
        None => None,
        Some(sending) => reserve_for(network, tables, sending, layer),
    }
}

/// Puts out what is to be sent, if anything is: the sealed terms and the frame.
///
/// The node's next counters count them. Nothing goes out where the node lacks a key or a counter for it. A key that
/// the memo lacks is expanded. The terms and the frame that `out` had are gone, and the rest of it stays.
#[tactic(auto, unfolding(zb_model::specs::Answer::out_of))]
pub fn send_out(
    network: &Network,
    tables: &Tables,
    memo: &KeyMemo,
    sending: &Option<Sending>,
    out: &mut Outcome<Term, Refusal>,
)
    requires { CanBeSent sending.now }
    ensures sent { (k : Counting) → IsCounting tables.now k → sent_in out.new
        ≡ out_of real network.now tables.now k (option_map sending_of sending.now) }
    ensures kept { IsKept out.old out.new }
{
    match sending {
        None => put_nothing(out),
        Some(sending) => {
            if may_seal(tables, sending) {
                send_one(network, tables, memo, sending, out);
            } else {
                put_nothing(out);
            }
        }
    }
}
