//! What many lines share: beginnings, terms and refusals.
ghost use Rattle.std.specs.Prelude.{◌≡◌, ◌++◌, OnOk};
ghost use Rattle.zb_text.specs.Words.{then};
ghost use Rattle.zb_trace.specs.Text.{opening, opening_of, trailing, term_words, detail_words, refusal_words};

use std::alloc::AllocError;
use zb_base::Name;
use zb_model_real::Term;
use zb_node_types::{Detail, Refusal};
use zb_text::choices::{label_text, layer_text, place_text};
use zb_text::numbers::put_number;
use zb_text::page::{add_bytes, add_eui, add_key, add_number, add_word};

/// Begins a line: the number of its event, and its kind.
#[tactic(auto, using(std::proofs::Common::append_assoc))]
pub(crate) fn begin(out: &mut Vec<u8>, event: u32, kind: &[u8]) -> Result<(), AllocError>
    ensures { OnOk result (out.new.items ≡ out.old.items ++ opening event kind.now) }
{
    put_number(out, event)?;
    add_word(out, kind)?;
    Ok(())
}

/// Begins a line that names a node.
#[tactic(auto, using(std::proofs::Common::append_assoc))]
pub(crate) fn begin_of(
    out: &mut Vec<u8>,
    event: u32,
    kind: &[u8],
    node: &Name,
) -> Result<(), AllocError>
    ensures { OnOk result (out.new.items ≡ out.old.items ++ opening_of event kind.now node.now.bytes) }
{
    begin(out, event, kind)?;
    add_word(out, node.as_str().as_bytes())?;
    Ok(())
}

/// Prints the words of a term, each after a space.
#[tactic(auto, using(std::proofs::Common::append_assoc), unfolding(crate::specs::Text::term_words))]
pub(crate) fn add_term(out: &mut Vec<u8>, term: &Term) -> Result<(), AllocError>
    ensures { OnOk result (out.new.items ≡ out.old.items ++ trailing (term_words term.now)) }
{
    add_word(out, layer_text(term.layer))?;
    add_word(out, label_text(term.label))?;
    add_key(out, &term.base)?;
    add_eui(out, term.source)?;
    add_number(out, term.counter)?;
    add_bytes(out, &[term.control])?;
    add_bytes(out, term.header.as_slice())?;
    add_bytes(out, term.content.as_slice())?;
    Ok(())
}

/// Prints where and why an event was refused, each word after a space.
#[tactic(auto, using(std::proofs::Common::append_assoc), unfolding(crate::specs::Text::refusal_words))]
pub(crate) fn add_refusal(out: &mut Vec<u8>, refusal: &Refusal) -> Result<(), AllocError>
    ensures { OnOk result (out.new.items ≡ out.old.items ++ trailing (refusal_words refusal.now)) }
{
    add_word(out, place_text(refusal.place()))?;
    add_word(out, refusal.word())?;
    add_detail(out, refusal.detail())?;
    Ok(())
}

// Prints what is reported after the word of a reason, after a space.
fn add_detail(out: &mut Vec<u8>, detail: Detail) -> Result<(), AllocError>
    ensures { OnOk result (out.new.items ≡ out.old.items ++ trailing (detail_words detail)) }
{
    match detail {
        Detail::Nothing => Ok(()),
        Detail::Number(number) => add_number(out, number),
        Detail::Partner(partner) => add_eui(out, partner),
    }
}
