//! The printed lines of forged frames.

ghost use Rattle.std.specs.Prelude.{◌≡◌, [], ◌∷◌, ◌++◌, codes, decimal, OnOk};
ghost use Rattle.hex.specs.Hex.{encode_upper};
ghost use Rattle.zb_text.specs.Fields.{eui_text, short_text};
ghost use Rattle.zb_text.specs.Hexadecimal.{bytes_text};
ghost use Rattle.zb_text.specs.Words.{then};
ghost use Rattle.zb_sched_line.specs.Texts.{sealed_words, text_of_words};

use crate::forge::{Net, Route};
use std::alloc::AllocError;
use zb_base::{Key, Label};
use zb_text::choices::label_text;
use zb_text::page::{add_bytes, add_eui, add_key, add_number, add_short, add_word, end_line, put};

/// Prints what the line of a forged frame begins with.
#[tactic(auto, using(std::proofs::Common::append_assoc))]
fn put_route(out: &mut Vec<u8>, route: Route, kind: &[u8]) -> Result<(), AllocError>
    ensures { OnOk result (out.new.items ≡ out.old.items
        ++ (codes "forge" ++ (then (short_text route.to.0) ++ (then (short_text route.from.0)
        ++ (then (eui_text route.source.0) ++ then kind.now))))) }
{
    put(out, b"forge")?;
    add_short(out, route.to)?;
    add_short(out, route.from)?;
    add_eui(out, route.source)?;
    add_word(out, kind)?;
    Ok(())
}

/// Prints the rest of the line, where a sealed APS command ends it.
#[tactic(auto, using(std::proofs::Common::append_assoc))]
fn put_sealed(
    out: &mut Vec<u8>,
    label: Label,
    base: &Key,
    counter: u32,
    command: &[u8],
) -> Result<(), AllocError>
    ensures { OnOk result (out.new.items ≡ out.old.items
        ++ then (text_of_words (sealed_words label base.now.0 counter command.now))) }
{
    add_word(out, b"aps")?;
    add_word(out, label_text(label))?;
    add_key(out, base)?;
    add_number(out, counter)?;
    add_bytes(out, command)?;
    end_line(out)?;
    Ok(())
}

#[tactic(auto, using(std::proofs::Common::append_assoc))]
fn put_net(out: &mut Vec<u8>, net: &Net) -> Result<(), AllocError>
    ensures { OnOk result (out.new.items ≡ out.old.items
        ++ (then (encode_upper net.now.key.0)
        ++ (then (decimal net.now.sequence) ++ then (decimal net.now.counter)))) }
{
    add_key(out, &net.key)?;
    add_number(out, net.sequence as u32)?;
    add_number(out, net.counter)?;
    Ok(())
}

/// Prints the line of a frame that is sealed at the network layer alone.
///
/// # Errors
/// `AllocError`.
#[tactic(auto, using(std::proofs::Common::append_assoc))]
pub fn put_forge_net(
    out: &mut Vec<u8>,
    route: Route,
    net: &Net,
    content: &[u8],
) -> Result<(), AllocError>
    ensures { OnOk result (out.new.items ≡ out.old.items ++ text_of_words (
        codes "forge" ∷ short_text route.to.0 ∷ short_text route.from.0 ∷ eui_text route.source.0 ∷ codes "net"
        ∷ encode_upper net.now.key.0 ∷ decimal net.now.sequence ∷ decimal net.now.counter
        ∷ bytes_text content.now ∷ [])) }
{
    put_route(out, route, b"net")?;
    put_net(out, net)?;
    add_bytes(out, content)?;
    end_line(out)?;
    Ok(())
}

/// Prints the line of a frame that is sealed at both layers.
///
/// # Errors
/// `AllocError`.
#[tactic(auto, using(std::proofs::Common::append_assoc))]
pub fn put_forge_both(
    out: &mut Vec<u8>,
    route: Route,
    net: &Net,
    label: Label,
    base: &Key,
    aps_counter: u32,
    command: &[u8],
) -> Result<(), AllocError>
    ensures { OnOk result (out.new.items ≡ out.old.items ++ text_of_words (
        codes "forge" ∷ short_text route.to.0 ∷ short_text route.from.0 ∷ eui_text route.source.0 ∷ codes "net"
        ∷ encode_upper net.now.key.0 ∷ decimal net.now.sequence ∷ decimal net.now.counter
        ∷ sealed_words label base.now.0 aps_counter command.now)) }
{
    put_route(out, route, b"net")?;
    put_net(out, net)?;
    put_sealed(out, label, base, aps_counter, command)?;
    Ok(())
}

/// Prints the line of a frame that is sealed at the APS layer alone.
///
/// # Errors
/// `AllocError`.
#[tactic(auto, using(std::proofs::Common::append_assoc))]
pub fn put_forge_open(
    out: &mut Vec<u8>,
    route: Route,
    label: Label,
    base: &Key,
    aps_counter: u32,
    command: &[u8],
) -> Result<(), AllocError>
    ensures { OnOk result (out.new.items ≡ out.old.items ++ text_of_words (
        codes "forge" ∷ short_text route.to.0 ∷ short_text route.from.0 ∷ eui_text route.source.0 ∷ codes "open"
        ∷ sealed_words label base.now.0 aps_counter command.now)) }
{
    put_route(out, route, b"open")?;
    put_sealed(out, label, base, aps_counter, command)?;
    Ok(())
}
