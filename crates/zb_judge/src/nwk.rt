//! The NWK layer of a delivered frame.
ghost use Rattle.std.specs.Prelude.{◌≡◌, ◌&&◌, IfSome, Ok, Some, not, option_map};
ghost use Rattle.zb_model.specs.Judging.{carrier, is_transport, judge_net, judge_nwk, judge_security, may_pass_unsecured, sealed_for_transport};
ghost use Rattle.zb_model.specs.Rules.{waits_for_key};
ghost use Rattle.zb_model.specs.State.{is_centre, is_known, is_live};
ghost use Rattle.zb_model_real.specs.Readers.{aps_frame_shown, nwk_auxiliary, nwk_frame_shown};
ghost use Rattle.zb_model_real.specs.Real.{real};
ghost use Rattle.zb_model_real.specs.Terms.{model_label, model_term};
ghost use Rattle.zb_node_types.specs.Changes.{model_state};
ghost use Rattle.zb_nwk.specs.Reading.{frame_of};
ghost use Rattle.zb_nwk.specs.Shape.{Spells};
ghost use Rattle.zb_judge.specs.Verdicts.{carrier_seen, judged};

use crate::counter::check_counter;
use crate::known::Known;
use crate::opening::open_nwk;
use zb_aps::ApsFrame;
use zb_base::{Eui, Label, Place, State};
use zb_keys::Tables;
use zb_node_types::Refusal;
use zb_nwk::{NwkAux, NwkFrame};
use zb_rows::{floor_of, is_full_for, is_known, is_live, usable_of};
use zb_seal::{KeyMemo, Term, is_command, label_of};
use zb_setting::Network;

/// Returns whether a label is that of a key-transport key.
fn is_transport(label: Label) -> bool
    ensures { result ≡ is_transport (model_label label) }
{
    match label {
        Label::Data => false,
        Label::Network => false,
        Label::Transport => true,
        Label::Load => false,
    }
}

/// Returns whether an APS frame is a command that is sealed under a key-transport key.
fn is_for_transport(frame: &ApsFrame) -> bool
    ensures { result ≡ sealed_for_transport (Some (aps_frame_shown frame.now)) }
{
    match &frame.aux {
        None => false,
        Some(aux) => is_command(u16::from(frame.header.control))
            && is_transport(label_of(aux.control)),
    }
}

/// Returns whether bytes are an APS command that is sealed under a key-transport key.
#[tactic(auto, unfolding(crate::specs::Steps::real))]
fn is_sealed_for_transport(bytes: &[u8]) -> bool
    ensures { result ≡ sealed_for_transport (real.read_aps bytes.now) }
{
    let mut frame = ApsFrame::blank();
    match zb_aps::read_into(bytes, &mut frame) {
        Err(_) => false,
        Ok(()) => is_for_transport(&frame),
    }
}

/// Returns whether a node in that state waits for the network key.
fn waits_for_key(state: State) -> bool
    ensures { result ≡ waits_for_key (model_state state) }
{
    match state {
        State::Fresh => false,
        State::Knocked => true,
        State::Joined => false,
        State::Offered => false,
        State::Confirmed => false,
        State::Rejoining => true,
        State::Gone => false,
    }
}

/// Returns whether an unsecured frame passes. It does where it brings a router or device that waits for the network
/// key a command under a key-transport key.
fn may_pass_unsecured(network: &Network, tables: &Tables, frame: &NwkFrame) -> bool
    ensures { result ≡ may_pass_unsecured real network.now tables.now (nwk_frame_shown frame.now) }
{
    !network.is_centre()
        && waits_for_key(tables.state())
        && !is_command(frame.header.control)
        && is_sealed_for_transport(frame.body.as_slice())
}

/// Returns whether a sender is a device that was removed, which the centre knows.
fn was_removed(network: &Network, tables: &Tables, source: Eui) -> bool
    ensures { result ≡ (is_centre network.now.me.role
        && (is_known tables.now source.0 && not (is_live tables.now source.0))) }
{
    network.is_centre() && is_known(tables, source) && !is_live(tables, source)
}

/// Judges a frame under the network key of its key sequence, and writes what it opens to into `accepted`.
///
/// Requires the bytes that the frame was read from.
///
/// # Errors
///
/// In this order:
///
/// - no key of that sequence;
/// - the greatest counter;
/// - a counter below the sender's floor;
/// - a wrong MIC;
/// - a sender that isn't declared or was removed;
/// - no room for the sender's floor.
#[tactic(auto, unfolding(crate::specs::Steps::judge_net, crate::specs::Steps::need, crate::specs::Steps::reject))]
fn judge_net(
    known: &Known<'_>,
    bytes: &[u8],
    frame: &NwkFrame,
    aux: &NwkAux,
    accepted: &mut Option<Term>,
) -> Result<(), Refusal>
    requires read { frame_of bytes.now ≡ Ok frame.now }
    requires spells { Spells bytes.now frame.now }
    ensures { judged (λ done. carrier_seen frame.now accepted.new) result ≡ carrier (nwk_frame_shown frame.now)
        (judge_net real known.now.network.now known.now.tables.now bytes.now (nwk_auxiliary aux.now)) }
{
    let place = Place::Nwk;
    let Some(row) = usable_of(known.tables, aux.key_sequence) else {
        return Err(Refusal::NoKey { place });
    };
    check_counter(known.network, place, floor_of(row, aux.source), aux.counter)?;
    *accepted = open_nwk(known.memo, bytes, frame, &row.key);
    if accepted.is_none() {
        return Err(Refusal::BadMic { place });
    }
    if !known.network.is_declared(aux.source) {
        return Err(Refusal::NotMember { place });
    }
    if was_removed(known.network, known.tables, aux.source) {
        return Err(Refusal::NotMember { place });
    }
    if is_full_for(row, aux.source, aux.counter) {
        return Err(Refusal::RowsFull { place });
    }
    Ok(())
}

/// Judges the security of a frame for this node, and writes what is accepted, if anything is, into `accepted`.
///
/// Requires the bytes that the frame was read from.
#[tactic(auto, unfolding(crate::specs::Steps::reject))]
fn judge_security(
    known: &Known<'_>,
    bytes: &[u8],
    frame: &NwkFrame,
    accepted: &mut Option<Term>,
) -> Result<(), Refusal>
    requires read { frame_of bytes.now ≡ Ok frame.now }
    requires spells { Spells bytes.now frame.now }
    ensures { judged (λ done. carrier_seen frame.now accepted.new) result ≡ judge_security real known.now.network.now
        known.now.tables.now bytes.now (nwk_frame_shown frame.now) (option_map nwk_auxiliary frame.now.aux) }
{
    match &frame.aux {
        None => {
            *accepted = None;
            if may_pass_unsecured(known.network, known.tables, frame) {
                Ok(())
            } else {
                Err(Refusal::Unsecured { place: Place::Nwk })
            }
        }
        Some(aux) => judge_net(known, bytes, frame, aux, accepted),
    }
}

/// Reads a NWK frame into the place of one, if the bytes are one.
#[tactic(auto, unfolding(crate::specs::Steps::real))]
fn read_frame(bytes: &[u8], frame: &mut NwkFrame) -> Option<()>
    ensures shown { option_map (λ _. nwk_frame_shown frame.new) result ≡ real.read_nwk bytes.now }
    ensures read { IfSome result (λ _. frame_of bytes.now ≡ Ok frame.new) }
    ensures spells { IfSome result (λ _. Spells bytes.now frame.new) }
{
    match zb_nwk::read_into(bytes, frame) {
        Ok(()) => Some(()),
        Err(_) => None,
    }
}

/// Judges the NWK layer of delivered bytes, and writes the frame that they are into `frame`.
///
/// What is accepted, where the layer is secured, is written into `accepted`; after an error neither means anything. A
/// key that the memo lacks is expanded.
///
/// # Errors
///
/// Malformed bytes, a frame of this node or for another, one that isn't secured and may not pass so, and then what
/// the security of the frame is refused for.
#[tactic(auto, unfolding(crate::specs::Steps::judge_nwk, crate::specs::Steps::need, crate::specs::Steps::reject))]
pub fn judge_nwk(
    known: &Known<'_>,
    bytes: &[u8],
    frame: &mut NwkFrame,
    accepted: &mut Option<Term>,
) -> Result<(), Refusal>
    ensures { judged (λ _. carrier_seen frame.new accepted.new) result
        ≡ judge_nwk real known.now.network.now known.now.tables.now bytes.now }
{
    if read_frame(bytes, frame).is_none() {
        return Err(Refusal::Malformed { place: Place::Nwk });
    }
    let network = known.network;
    if frame.header.source.0 == network.short().0 || !network.hears(frame.header.destination) {
        return Err(Refusal::NotForMe { place: Place::Nwk });
    }
    judge_security(known, bytes, frame, accepted)?;
    Ok(())
}
