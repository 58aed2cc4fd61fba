//! The APS part of a delivered frame.
ghost use Rattle.std.specs.Prelude.{◌≡◌, ◌&&◌, IfSome, Ok, find, is_some, map, option_map, reverse};
ghost use Rattle.std.specs.Option.{option_copied};
ghost use Rattle.zb_aps.specs.Reading.{frame_of};
ghost use Rattle.zb_aps.specs.Shape.{Spells};
ghost use Rattle.zb_model.specs.Judging.{aps_source, candidates, chosen_row, judge_aps, opens_with};
ghost use Rattle.zb_model.specs.State.{is_live_of};
ghost use Rattle.zb_model_real.specs.Readers.{auxiliary, nwk_frame_shown};
ghost use Rattle.zb_model_real.specs.Real.{real};
ghost use Rattle.zb_model_real.specs.Terms.{model_term};
ghost use Rattle.zb_record.specs.RowViews.{link_key};
ghost use Rattle.zb_judge.specs.Verdicts.{judged, unsealed_seen};

use crate::counter::check_counter;
use crate::known::Known;
use crate::opening::open_aps;
use zb_aps::{ApsAux, ApsFrame};
use zb_base::{Eui, Place};
use zb_keys::{LinkRow, Tables};
use zb_node_types::Refusal;
use zb_nwk::NwkFrame;
use zb_seal::{KeyMemo, Term};
use zb_setting::Network;

/// An APS part that is accepted.
#[derive(Debug, Drop)]
pub struct Unsealed {
    /// What is accepted.
    pub term: Term,
    /// The link row that opened it.
    pub row: LinkRow,
}

/// Returns the source of a sealed APS part: its own, or the declared node of the frame's short address.
fn source_of(network: &Network, frame: &NwkFrame, aux: &ApsAux) -> Option<Eui>
    ensures { option_map (λ e. e.0) result ≡ aps_source network.now (nwk_frame_shown frame.now) (auxiliary aux.now) }
{
    match aux.source {
        Some(source) => Some(source),
        None => network.eui_at(frame.header.source),
    }
}

/// Returns whether a row is in use and of a partner.
fn is_candidate(row: &LinkRow, source: Eui) -> bool
    ensures { result ≡ is_live_of source.0 (link_key row.now) }
{
    row.live && row.partner.0 == source.0
}

/// Returns whether the key of a row opens the frame. Requires the bytes that the frame was read from.
fn opens(memo: &KeyMemo, bytes: &[u8], frame: &ApsFrame, row: &LinkRow, source: Eui) -> bool
    requires read { frame_of bytes.now ≡ Ok frame.now }
    requires spells { Spells bytes.now frame.now }
    ensures { result ≡ opens_with real bytes.now source.0 (link_key row.now) }
{
    open_aps(memo, bytes, frame, &row.key, source).is_some()
}

/// Returns the newest row of a partner that is in use.
fn first_candidate<'a>(rows: &'a [LinkRow], source: Eui) -> Option<&'a LinkRow>
    ensures { option_copied result ≡ find (λ row. is_live_of source.0 (link_key row)) (reverse rows.now) }
{
    rows.iter().rev().find(|row| is_candidate(row, source))
}

/// Returns the newest row of a partner that is in use and opens the frame.
///
/// Requires the bytes that the frame was read from.
fn first_opening<'a>(
    memo: &KeyMemo,
    rows: &'a [LinkRow],
    bytes: &[u8],
    frame: &ApsFrame,
    source: Eui,
) -> Option<&'a LinkRow>
    requires read { frame_of bytes.now ≡ Ok frame.now }
    requires spells { Spells bytes.now frame.now }
    ensures { option_copied result ≡ find (λ row. is_live_of source.0 (link_key row)
        && opens_with real bytes.now source.0 (link_key row)) (reverse rows.now) }
{
    rows.iter().rev().find(|row| is_candidate(row, source)
        && opens(memo, bytes, frame, row, source))
}

/// Returns the newest row of a partner that is in use and opens the frame, else the newest that is in use. It writes
/// what its key opens the frame to into `opened`.
///
/// The newest row is tried first, since mostly it opens the frame, which is then opened once. Requires the bytes that
/// the frame was read from.
fn chosen<'a>(
    memo: &KeyMemo,
    tables: &'a Tables,
    bytes: &[u8],
    frame: &ApsFrame,
    source: Eui,
    opened: &mut Option<Term>,
) -> Option<&'a LinkRow>
    requires read { frame_of bytes.now ≡ Ok frame.now }
    requires spells { Spells bytes.now frame.now }
    ensures row { option_map link_key (option_copied result)
        ≡ chosen_row real bytes.now source.0 (candidates tables.now source.0) }
    ensures term { IfSome result (λ row. option_map model_term opened.new
        ≡ real.open_aps bytes.now row.now.key.0 source.0) }
{
    let rows = tables.links();
    let newest = first_candidate(rows, source)?;
    *opened = open_aps(memo, bytes, frame, &newest.key, source);
    if opened.is_some() {
        return Some(newest);
    }
    match first_opening(memo, rows, bytes, frame, source) {
        Some(row) => {
            *opened = open_aps(memo, bytes, frame, &row.key, source);
            Some(row)
        }
        None => Some(newest),
    }
}

/// Judges a sealed APS part of a frame, by the link key of its source. Requires the bytes that the part was read from.
/// A key that the memo lacks is expanded.
///
/// # Errors
///
/// No source or no link key of it, the greatest counter, a counter below the key's floor and a wrong MIC, in this
/// order.
#[tactic(auto, unfolding(crate::specs::Steps::judge_aps, crate::specs::Steps::need, crate::specs::Steps::reject))]
pub fn judge_aps(
    known: &Known<'_>,
    frame: &NwkFrame,
    bytes: &[u8],
    part: &ApsFrame,
    aux: &ApsAux,
) -> Result<Unsealed, Refusal>
    requires read { frame_of bytes.now ≡ Ok part.now }
    requires spells { Spells bytes.now part.now }
    ensures { judged unsealed_seen result
        ≡ judge_aps real known.now.network.now known.now.tables.now (nwk_frame_shown frame.now) bytes.now
        (auxiliary aux.now) }
{
    let place = Place::Aps;
    let Some(source) = source_of(known.network, frame, aux) else {
        return Err(Refusal::NoKey { place });
    };
    let mut opened = None;
    let Some(row) = chosen(known.memo, known.tables, bytes, part, source, &mut opened) else {
        return Err(Refusal::NoKey { place });
    };
    check_counter(known.network, place, row.floor, aux.counter)?;
    let Some(term) = opened else {
        return Err(Refusal::BadMic { place });
    };
    Ok(Unsealed { term, row: *row })
}
