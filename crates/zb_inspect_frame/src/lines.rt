//! The lines of a frame in a report: one for each layer.
ghost use Rattle.std.specs.Prelude.{◌≡◌, ◌+◌, ◌<◌, ◌^◌, ◌++◌, ◌∷◌, [], length, decimal, OnOk};
ghost use Rattle.zb_text.specs.Words.{then};
ghost use Rattle.zb_inspect_frame.specs.Lines.{label_text, opened_text, finding_text, layer_line, inner_text, below_text, frame_text, frames_text, unopened_line, unopened_text};

use crate::layer::Finding;
use crate::shown::{Below, Shown};
use std::alloc::AllocError;
use zb_base::{Label, Layer};
use zb_seal::Term;
use zb_text::choices;
use zb_text::numbers::put_number;
use zb_text::page::{add_bytes, add_eui, add_number, add_word, end_line};

/// Prints the lines of frames, of which the first has the number `first`.
///
/// Their numbers must be below 2^32.
///
/// # Errors
/// `AllocError`, if memory runs out.
pub fn put_frames(out: &mut Vec<u8>, first: u32, all_shown: &[Shown]) -> Result<(), AllocError>
    requires { first + length all_shown.now < 2 ^ 32 }
    ensures { OnOk result (out.new.items ≡ out.old.items ++ frames_text first all_shown.now) }
{
    let mut frame = first;
    for shown in all_shown {
        put_frame(out, frame, shown)?;
        frame += 1;
    }
    Ok(())
}

/// Prints the lines of `count` frames that no key opened. The first one has the number `first`.
///
/// Their numbers must be below 2^32.
///
/// # Errors
/// `AllocError`, if memory runs out.
pub fn put_unopened(out: &mut Vec<u8>, first: u32, count: u32) -> Result<(), AllocError>
    requires { first + count < 2 ^ 32 }
    ensures { OnOk result (out.new.items ≡ out.old.items ++ unopened_text first count) }
{
    for frame in first..first + count {
        put_unopened_line(out, frame)?;
    }
    Ok(())
}

#[tactic(auto, using(std::proofs::Common::append_assoc))]
fn put_unopened_line(out: &mut Vec<u8>, frame: u32) -> Result<(), AllocError>
    ensures { OnOk result (out.new.items ≡ out.old.items ++ unopened_line frame) }
{
    put_number(out, frame)?;
    add_word(out, b"nwk")?;
    add_word(out, b"no-key")?;
    end_line(out)?;
    Ok(())
}

#[tactic(auto, using(std::proofs::Common::append_assoc))]
fn put_frame(out: &mut Vec<u8>, frame: u32, shown: &Shown) -> Result<(), AllocError>
    ensures { OnOk result (out.new.items ≡ out.old.items ++ frame_text frame shown.now) }
{
    put_layer(out, frame, b"nwk", &shown.nwk)?;
    put_below(out, frame, &shown.below)?;
    Ok(())
}

#[tactic(auto, using(std::proofs::Common::append_assoc))]
fn put_below(out: &mut Vec<u8>, frame: u32, below: &Option<Below>) -> Result<(), AllocError>
    ensures { OnOk result (out.new.items ≡ out.old.items ++ below_text frame below.now) }
{
    let Some(below) = below else {
        return Ok(());
    };
    put_layer(out, frame, b"aps", &below.aps)?;
    put_inner(out, frame, &below.inner)?;
    Ok(())
}

fn put_inner(out: &mut Vec<u8>, frame: u32, inner: &Option<Finding>) -> Result<(), AllocError>
    ensures { OnOk result (out.new.items ≡ out.old.items ++ inner_text frame inner.now) }
{
    if let Some(inner) = inner {
        put_layer(out, frame, b"inner", inner)?;
    }
    Ok(())
}

#[tactic(auto, using(std::proofs::Common::append_assoc), unfolding(crate::specs::Lines::layer_line))]
fn put_layer(
    out: &mut Vec<u8>,
    frame: u32,
    layer: &[u8],
    finding: &Finding,
) -> Result<(), AllocError>
    ensures { OnOk result (out.new.items ≡ out.old.items ++ layer_line frame layer.now finding.now) }
{
    put_number(out, frame)?;
    add_word(out, layer)?;
    put_finding(out, finding)?;
    end_line(out)?;
    Ok(())
}

#[tactic(auto, using(std::proofs::Common::append_assoc))]
fn put_finding(out: &mut Vec<u8>, finding: &Finding) -> Result<(), AllocError>
    ensures { OnOk result (out.new.items ≡ out.old.items ++ finding_text finding.now) }
{
    match finding {
        Finding::Malformed => add_word(out, b"malformed")?,
        Finding::NotSecured => add_word(out, b"not-secured")?,
        Finding::NoSource => add_word(out, b"no-source")?,
        Finding::Closed { .. } => add_word(out, b"no-key")?,
        Finding::Opened { key, term } => put_opened(out, *key, term)?,
    }
    Ok(())
}

#[tactic(auto, using(std::proofs::Common::append_assoc))]
fn put_opened(out: &mut Vec<u8>, key: u32, term: &Term) -> Result<(), AllocError>
    ensures { OnOk result (out.new.items
        ≡ out.old.items ++ (then (107 ∷ 101 ∷ 121 ∷ []) ++ then (decimal key) ++ opened_text term.now)) }
{
    add_word(out, b"key")?;
    add_number(out, key)?;
    put_term(out, term)?;
    Ok(())
}

#[tactic(auto, using(std::proofs::Common::append_assoc))]
fn put_term(out: &mut Vec<u8>, term: &Term) -> Result<(), AllocError>
    ensures { OnOk result (out.new.items ≡ out.old.items ++ opened_text term.now) }
{
    put_label(out, term.layer, term.label)?;
    add_eui(out, term.source)?;
    add_number(out, term.counter)?;
    add_bytes(out, term.content.as_slice())?;
    Ok(())
}

fn put_label(out: &mut Vec<u8>, layer: Layer, label: Label) -> Result<(), AllocError>
    ensures { OnOk result (out.new.items ≡ out.old.items ++ label_text layer label) }
{
    match layer {
        Layer::Nwk => Ok(()),
        Layer::Aps => {
            add_word(out, choices::label_text(label))?;
            Ok(())
        }
    }
}
