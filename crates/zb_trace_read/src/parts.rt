//! What many lines share: terms and refusals.
ghost use Rattle.std.specs.Prelude.{◌∷◌, [], codes, IfSome};
ghost use Rattle.std.specs.List.{AllByRecursion};
ghost use Rattle.std.specs.Option.{option_map, option_and_then};
ghost use Rattle.zb_text.specs.Words.{left, Shows};
ghost use Rattle.zb_trace.specs.Text.{Chosen, Fixed, MayStand, place_text, places, refusal_words, term_words};
ghost use Rattle.zb_trace_read.specs.Places.{read_into};
ghost use Rattle.zb_trace_read.specs.Grammar.{AnAddress, a_count, a_refusal, a_term, plain_reason, policy_reason, shaped};

use crate::fields::{count, eui, key, label, layer, octet, place, some_bytes};
use zb_base::{Eui, Frame, Key, Label, Layer, Place};
use zb_node_types::Refusal;
use zb_seal::Term;
use zb_text::words::Words;

/// Reads the words of a term into a place. Nothing may come after them.
#[tactic(auto, unfolding(zb_trace::specs::Text::term_words))]
pub(crate) fn read_term(reader: &mut Words<'_>, term: &mut Term) -> Option<()>
    ensures value { Shows term_words (read_into result term.new) (shaped a_term (left reader.old)) }
    ensures fits { IfSome result (λ _. AllByRecursion MayStand (term_words term.new)) }
{
    term.layer = layer(reader)?;
    term.label = label(reader)?;
    term.base = key(reader)?;
    term.source = eui(reader)?;
    term.counter = count(reader)?;
    term.control = octet(reader)?;
    term.header = some_bytes(reader)?;
    term.content = some_bytes(reader)?;
    reader.end()?;
    Some(())
}

/// Makes a term to overwrite.
pub(crate) fn no_term() -> Term {
    Term {
        layer: Layer::Nwk,
        base: Key([0; 16]),
        label: Label::Data,
        source: Eui(0),
        counter: 0,
        control: 0,
        header: Frame::new(),
        content: Frame::new(),
    }
}

/// Reads the words of a refusal. Nothing may come after them.
#[tactic(auto, unfolding(crate::specs::Grammar::a_refusal))]
pub(crate) fn read_refusal(reader: &mut Words<'_>) -> Option<Refusal>
    ensures value { Shows refusal_words result (a_refusal (left reader.old)) }
    ensures fits { IfSome result (λ r. AllByRecursion MayStand (refusal_words r)) }
{
    let place = place(reader)?;
    let reason = reader.word()?;
    if reason == b"stale".as_slice() {
        read_stale(place, reader)
    } else if reason == b"key-old".as_slice() {
        read_key_old(place, reader)
    } else if reason == b"key-in-use".as_slice() {
        read_key_in_use(place, reader)
    } else {
        read_plain(place, reason, reader)
    }
}

/// Reads the floor that a counter was below.
#[tactic(auto, unfolding(zb_trace::specs::Text::refusal_words))]
fn read_stale(place: Place, reader: &mut Words<'_>) -> Option<Refusal>
    ensures value { Shows refusal_words result
        (option_map (λ behind. Chosen places (place_text place) ∷ Fixed (codes "stale") ∷ behind)
        (shaped (a_count ∷ []) (left reader.old))) }
    ensures fits { IfSome result (λ r. AllByRecursion MayStand (refusal_words r)) }
{
    let floor = count(reader)?;
    reader.end()?;
    Some(Refusal::Stale { place, floor })
}

/// Reads the place of a dropped network key.
#[tactic(auto, unfolding(zb_trace::specs::Text::refusal_words))]
fn read_key_old(place: Place, reader: &mut Words<'_>) -> Option<Refusal>
    ensures value { Shows refusal_words result
        (option_map (λ behind. Chosen places (place_text place) ∷ Fixed (codes "key-old") ∷ behind)
        (shaped (a_count ∷ []) (left reader.old))) }
    ensures fits { IfSome result (λ r. AllByRecursion MayStand (refusal_words r)) }
{
    let at = count(reader)?;
    reader.end()?;
    Some(Refusal::KeyOld { place, at })
}

/// Reads whose link key it is.
#[tactic(auto, unfolding(zb_trace::specs::Text::refusal_words))]
fn read_key_in_use(place: Place, reader: &mut Words<'_>) -> Option<Refusal>
    ensures value { Shows refusal_words result
        (option_map (λ behind. Chosen places (place_text place) ∷ Fixed (codes "key-in-use") ∷ behind)
        (shaped (AnAddress ∷ []) (left reader.old))) }
    ensures fits { IfSome result (λ r. AllByRecursion MayStand (refusal_words r)) }
{
    let partner = eui(reader)?;
    reader.end()?;
    Some(Refusal::KeyInUse { place, partner })
}

/// Reads a reason without a detail.
fn read_plain(place: Place, reason: &[u8], reader: &mut Words<'_>) -> Option<Refusal>
    ensures value { Shows refusal_words result
        (option_and_then (λ word. option_map (λ behind. Chosen places (place_text place) ∷ word ∷ behind)
        (shaped [] (left reader.old))) (plain_reason reason.now)) }
    ensures fits { IfSome result (λ r. AllByRecursion MayStand (refusal_words r)) }
{
    let refusal = plain_refusal(place, reason)?;
    reader.end()?;
    Some(refusal)
}

/// Reads the refusal of a reason without a detail.
#[tactic(auto, unfolding(zb_trace::specs::Text::refusal_words, crate::specs::Grammar::plain_reason))]
fn plain_refusal(place: Place, reason: &[u8]) -> Option<Refusal>
    ensures value { Shows refusal_words result
        (option_map (λ word. Chosen places (place_text place) ∷ word ∷ []) (plain_reason reason.now)) }
    ensures fits { IfSome result (λ r. AllByRecursion MayStand (refusal_words r)) }
{
    if reason == b"down".as_slice() {
        Some(Refusal::Down { place })
    } else if reason == b"malformed".as_slice() {
        Some(Refusal::Malformed { place })
    } else if reason == b"not-for-me".as_slice() {
        Some(Refusal::NotForMe { place })
    } else if reason == b"unsecured".as_slice() {
        Some(Refusal::Unsecured { place })
    } else if reason == b"no-key".as_slice() {
        Some(Refusal::NoKey { place })
    } else if reason == b"counter-max".as_slice() {
        Some(Refusal::CounterMax { place })
    } else if reason == b"bad-mic".as_slice() {
        Some(Refusal::BadMic { place })
    } else if reason == b"policy".as_slice() {
        Some(Refusal::Policy { place })
    } else {
        policy_refusal(place, reason)
    }
}

#[tactic(auto, unfolding(zb_trace::specs::Text::refusal_words, crate::specs::Grammar::policy_reason))]
fn policy_refusal(place: Place, reason: &[u8]) -> Option<Refusal>
    ensures value { Shows refusal_words result
        (option_map (λ word. Chosen places (place_text place) ∷ word ∷ []) (policy_reason reason.now)) }
    ensures fits { IfSome result (λ r. AllByRecursion MayStand (refusal_words r)) }
{
    if reason == b"not-member".as_slice() {
        Some(Refusal::NotMember { place })
    } else if reason == b"wrong-state".as_slice() {
        Some(Refusal::WrongState { place })
    } else if reason == b"keys-full".as_slice() {
        Some(Refusal::KeysFull { place })
    } else if reason == b"rows-full".as_slice() {
        Some(Refusal::RowsFull { place })
    } else if reason == b"no-draw".as_slice() {
        Some(Refusal::NoDraw { place })
    } else if reason == b"counter-spent".as_slice() {
        Some(Refusal::CounterSpent { place })
    } else if reason == b"wrong-hash".as_slice() {
        Some(Refusal::WrongHash { place })
    } else if reason == b"no-frame".as_slice() {
        Some(Refusal::NoFrame { place })
    } else {
        None
    }
}
