//! The lines of the start: what each node holds before the first event.
ghost use Rattle.std.specs.Prelude.{◌≡◌, ◌++◌, OnOk};
ghost use Rattle.zb_trace.specs.Text as spec;
ghost use Rattle.zb_trace.specs.declared.line.Line.TheVariants as line;
ghost use Rattle.zb_text.specs.Fields.{eui_text, short_text};
ghost use Rattle.zb_text.specs.Words.{then};

use crate::parts::begin_of;
use std::alloc::AllocError;
use zb_base::{Eui, Key, Layer, Name, Role, Short};
use zb_text::choices::{layer_text, role_text};
use zb_text::page::{add_eui, add_key, add_number, add_short, add_word, end_line};

/// Prints the line of a declared node.
#[tactic(auto, using(std::proofs::Common::append_assoc), unfolding(crate::specs::Text::text))]
pub(crate) fn put_node(
    out: &mut Vec<u8>,
    name: &Name,
    role: Role,
    eui: Eui,
    short: Short,
    out_block: u32,
    in_block: u32,
) -> Result<(), AllocError>
    ensures { OnOk result
        (out.new.items ≡ out.old.items ++ spec.text (line.Node name.now role eui short out_block in_block)) }
{
    begin_of(out, 0, b"node", name)?;
    add_peer(out, role, eui, short)?;
    add_number(out, out_block)?;
    add_number(out, in_block)?;
    end_line(out)?;
    Ok(())
}

#[tactic(auto, using(std::proofs::Common::append_assoc))]
fn add_peer(out: &mut Vec<u8>, role: Role, eui: Eui, short: Short) -> Result<(), AllocError>
    ensures { OnOk result
        (out.new.items ≡ out.old.items
        ++ (then (spec.role_text role) ++ (then (eui_text eui.0) ++ then (short_text short.0)))) }
{
    add_word(out, role_text(role))?;
    add_eui(out, eui)?;
    add_short(out, short)?;
    Ok(())
}

/// Prints the line of a network key that a node holds from the start.
#[tactic(auto, using(std::proofs::Common::append_assoc), unfolding(crate::specs::Text::text))]
pub(crate) fn put_given_net(
    out: &mut Vec<u8>,
    node: &Name,
    key: &Key,
    sequence: u8,
) -> Result<(), AllocError>
    ensures { OnOk result (out.new.items ≡ out.old.items ++ spec.text (line.GivenNet node.now key.now sequence)) }
{
    begin_of(out, 0, b"given", node)?;
    add_word(out, b"net")?;
    add_key(out, key)?;
    add_number(out, u32::from(sequence))?;
    end_line(out)?;
    Ok(())
}

/// Prints the line of the link key of an install code.
#[tactic(auto, using(std::proofs::Common::append_assoc), unfolding(crate::specs::Text::text))]
pub(crate) fn put_given_link(
    out: &mut Vec<u8>,
    node: &Name,
    partner: Eui,
    key: &Key,
) -> Result<(), AllocError>
    ensures { OnOk result (out.new.items ≡ out.old.items ++ spec.text (line.GivenLink node.now partner key.now)) }
{
    begin_of(out, 0, b"given", node)?;
    add_word(out, b"link")?;
    add_eui(out, partner)?;
    add_key(out, key)?;
    end_line(out)?;
    Ok(())
}

/// Prints the line of a stored limit of an outgoing counter.
#[tactic(auto, using(std::proofs::Common::append_assoc), unfolding(crate::specs::Text::text))]
pub(crate) fn put_counter(
    out: &mut Vec<u8>,
    node: &Name,
    layer: Layer,
    limit: u32,
) -> Result<(), AllocError>
    ensures { OnOk result (out.new.items ≡ out.old.items ++ spec.text (line.Counter node.now layer limit)) }
{
    begin_of(out, 0, b"counter", node)?;
    add_word(out, layer_text(layer))?;
    add_number(out, limit)?;
    end_line(out)?;
    Ok(())
}
