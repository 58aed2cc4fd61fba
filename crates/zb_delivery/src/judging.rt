//! How a delivered frame is judged: its NWK layer, then its APS part, then the command that it brings.
ghost use Rattle.std.specs.Prelude.{◌≡◌, IfErr, IfOk, None, Ok, Option, Some, option_map};
ghost use Rattle.zb_aps.specs.Reading.{frame_of};
ghost use Rattle.zb_aps.specs.Shape.{Spells};
ghost use Rattle.zb_delivery.specs.Receiving.{IsFitting, PassesInClear, brought, part_plan, received_plan};
ghost use Rattle.zb_judge.specs.Verdicts.{carrier_seen, judged};
ghost use Rattle.zb_model.specs.Answer.{by_security, plan_of};
ghost use Rattle.zb_model.specs.Data.{Bytes, Received as Delivered};
ghost use Rattle.zb_model.specs.Judging.{judge_nwk, payload_of};
ghost use Rattle.zb_model_real.specs.Readers.{aps_frame_shown, auxiliary, nwk_frame_shown};
ghost use Rattle.zb_model_real.specs.Real.{real};
ghost use Rattle.zb_model_real.specs.Terms.{model_term};
ghost use Rattle.zb_plan.specs.Answers.{terms};
ghost use Rattle.zb_plan.specs.Deciding.{IsAps, IsNwk};

use crate::content::{payload_of, read_content, read_nwk_command, read_part};
use crate::received::{Content, Received};
use zb_aps::{ApsAux, ApsFrame};
use zb_base::{Eui, Key, Place};
use zb_host::Outcome;
use zb_judge::{Known, judge_aps, judge_nwk};
use zb_node_types::Refusal;
use zb_nwk::NwkFrame;
use zb_plan::forget;
use zb_rules::Heard;
use zb_seal::{Term, label_of};

/// Judges the NWK layer of delivered bytes. What is accepted there is written into `out`, and nothing at APS.
///
/// # Errors
/// Those of judging the NWK layer. Then nothing is accepted.
fn judge_carrier(
    known: &Known<'_>,
    bytes: &[u8],
    frame: &mut NwkFrame,
    out: &mut Outcome<Term, Refusal>,
) -> Result<(), Refusal>
    ensures carrier { judged (λ _. carrier_seen frame.new out.new.accepted_nwk) result
        ≡ judge_nwk real known.now.network.now known.now.tables.now bytes.now }
    ensures refused { IfErr result (λ _. out.new.accepted_nwk ≡ None) }
    ensures aps { out.new.accepted_aps ≡ None }
{
    forget(&mut out.accepted_aps);
    match judge_nwk(known, bytes, frame, &mut out.accepted_nwk) {
        Ok(()) => Ok(()),
        Err(refusal) => {
            forget(&mut out.accepted_nwk);
            Err(refusal)
        }
    }
}

/// Returns the source of a term, if there is one.
fn source_of(term: &Option<Term>) -> Option<Eui>
    ensures { option_map (λ e. e.0) result ≡ option_map (λ t. t.source) (option_map model_term term.now) }
{
    match term {
        Some(term) => Some(term.source),
        None => None,
    }
}

/// Judges an APS part that is sealed, and returns how what it brings came. What it opens to is accepted.
///
/// Requires the part that is read from the payload.
///
/// # Errors
/// Those of judging it.
fn judge_sealed(
    known: &Known<'_>,
    frame: &NwkFrame,
    part: &ApsFrame,
    aux: &ApsAux,
    out: &mut Outcome<Term, Refusal>,
) -> Result<Heard, Refusal>
    requires none { out.old.accepted_aps ≡ None }
    requires aux { part.now.aux ≡ Some aux.now }
    requires read { frame_of (payload_of (nwk_frame_shown frame.now) (option_map model_term out.old.accepted_nwk))
        ≡ Ok part.now }
    requires spells { Spells (payload_of (nwk_frame_shown frame.now) (option_map model_term out.old.accepted_nwk))
        part.now }
    ensures plan { (d : Option Bytes) → part_plan known.now.network.now known.now.tables.now d
        (terms out.new.accepted_nwk out.new.accepted_aps) part.now out.new.accepted_aps result
        ≡ by_security real known.now.network.now known.now.tables.now d (nwk_frame_shown frame.now)
        (option_map model_term out.old.accepted_nwk) (aps_frame_shown part.now) (Some (auxiliary aux.now)) }
    ensures nwk { out.new.accepted_nwk ≡ out.old.accepted_nwk }
    ensures aps { IsAps out.new.accepted_aps }
{
    match judge_aps(
        known,
        frame,
        payload_of(frame, &out.accepted_nwk),
        part,
        aux,
    ) {
        Err(refusal) => Err(refusal),
        Ok(unsealed) => {
            let heard = Heard::Sealed {
                sender: unsealed.term.source,
                label: label_of(aux.control),
                row: unsealed.row,
                nwk: source_of(&out.accepted_nwk),
            };
            out.accepted_aps = Some(unsealed.term);
            Ok(heard)
        }
    }
}

/// Judges the security of an APS part, and returns how what it brings came. What it opens to is accepted.
///
/// Requires the part that is read from the payload. If the NWK layer accepted nothing, it is sealed for transport.
///
/// # Errors
/// Those of judging a part that is sealed.
fn judge_part(
    known: &Known<'_>,
    frame: &NwkFrame,
    part: &ApsFrame,
    out: &mut Outcome<Term, Refusal>,
) -> Result<Heard, Refusal>
    requires none { out.old.accepted_aps ≡ None }
    requires in_clear { PassesInClear out.old.accepted_nwk (Some (aps_frame_shown part.now)) }
    requires read { frame_of (payload_of (nwk_frame_shown frame.now) (option_map model_term out.old.accepted_nwk))
        ≡ Ok part.now }
    requires spells { Spells (payload_of (nwk_frame_shown frame.now) (option_map model_term out.old.accepted_nwk))
        part.now }
    ensures plan { (d : Option Bytes) → part_plan known.now.network.now known.now.tables.now d
        (terms out.new.accepted_nwk out.new.accepted_aps) part.now out.new.accepted_aps result
        ≡ by_security real known.now.network.now known.now.tables.now d (nwk_frame_shown frame.now)
        (option_map model_term out.old.accepted_nwk) (aps_frame_shown part.now) (option_map auxiliary part.now.aux) }
    ensures nwk { out.new.accepted_nwk ≡ out.old.accepted_nwk }
    ensures aps { IsAps out.new.accepted_aps }
{
    match &part.aux {
        Some(aux) => judge_sealed(known, frame, part, aux, out),
        None => match &out.accepted_nwk {
            Some(term) => Ok(Heard::Clear { nwk: term.source }),
            None => unreachable!(),
        },
    }
}

/// Judges delivered bytes, and returns what they bring. `draw`: the next key of the centre's supply.
///
/// What is accepted at each layer is written into `out`, and stays there if the frame is refused after it. A key that
/// the memo lacks is expanded.
///
/// # Errors
/// Those of judging the NWK layer and the APS part. Policy for an unknown command; malformed if a layer can't be read.
pub(crate) fn judge(
    known: &Known<'_>,
    bytes: &[u8],
    draw: Option<Key>,
    out: &mut Outcome<Term, Refusal>,
) -> Result<Received, Refusal>
    ensures plan { (d : Option Bytes) → received_plan known.now.network.now known.now.tables.now d
        (terms out.new.accepted_nwk out.new.accepted_aps) result
        ≡ plan_of real known.now.network.now known.now.tables.now (Delivered bytes.now d) }
    ensures nwk { IsNwk out.new.accepted_nwk }
    ensures aps { IsAps out.new.accepted_aps }
    ensures draw { IfOk result (λ it. it.draw ≡ draw) }
    ensures fits { IfOk result (λ it. IsFitting it.content) }
{
    let mut frame = NwkFrame::blank();
    judge_carrier(known, bytes, &mut frame, out)?;
    let leave = read_nwk_command(&frame, &out.accepted_nwk)?;
    match leave {
        Some((sender, options)) => {
            return Ok(Received {
                came: Heard::Clear { nwk: sender },
                draw,
                content: Content::Leave(options),
            });
        }
        None => {}
    }
    let mut part = ApsFrame::blank();
    if read_part(payload_of(&frame, &out.accepted_nwk), &mut part).is_none() {
        return Err(Refusal::Malformed { place: Place::Aps });
    }
    let came = judge_part(known, &frame, &part, out)?;
    let content = read_content(&part, &out.accepted_aps)?;
    Ok(Received {
        came,
        draw,
        content,
    })
}
