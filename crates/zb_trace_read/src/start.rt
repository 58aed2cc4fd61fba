//! The lines of the start. Their event has the number 0.
ghost use Rattle.std.specs.Prelude.{◌≡◌, ◌∷◌, [], codes, IfSome, true};
ghost use Rattle.std.specs.List.{AllByRecursion};
ghost use Rattle.std.specs.Option.{option_map};
ghost use Rattle.zb_text.specs.Fields.{is_name};
ghost use Rattle.zb_text.specs.Words.{left, Shows};
ghost use Rattle.zb_trace.specs.Text.{Fixed, MayStand, begun_of, roles, words};
ghost use Rattle.zb_trace_read.specs.Grammar.{AKey, AnAddress, AShort, OneOf, a_count, a_layer, a_sequence, shaped, two_forms};
ghost use Rattle.zb_trace_read.specs.Places.{read_into};
ghost use Rattle.zb_trace_read.specs.Reading as spec;

use crate::fields::{count, eui, key, layer, role, sequence, short};
use zb_base::Name;
use zb_text::words::Words;
use zb_trace::Line;

/// Reads what comes after the name of a node at the start.
#[tactic(auto, unfolding(crate::specs::Reading::of_start))]
pub(crate) fn read_start(
    kind: &[u8],
    node: Name,
    reader: &mut Words<'_>,
    line: &mut Line,
) -> Option<()>
    requires { is_name node.bytes ≡ true }
    ensures value { Shows words (read_into result line.new) (spec.of_start kind.now node.bytes (left reader.old)) }
    ensures fits { IfSome result (λ _. AllByRecursion MayStand (words line.new)) }
{
    if kind == b"node".as_slice() {
        return read_node(node, reader, line);
    }
    if kind == b"given".as_slice() {
        return read_given(node, reader, line);
    }
    if kind == b"counter".as_slice() {
        return read_counter(node, reader, line);
    }
    None
}

/// Reads a declared node.
fn read_node(name: Name, reader: &mut Words<'_>, line: &mut Line) -> Option<()>
    requires { is_name name.bytes ≡ true }
    ensures value { Shows words (read_into result line.new)
        (option_map (begun_of 0 (codes "node") name.bytes)
        (shaped (OneOf roles ∷ AnAddress ∷ AShort ∷ a_count ∷ a_count ∷ []) (left reader.old))) }
    ensures fits { IfSome result (λ _. AllByRecursion MayStand (words line.new)) }
{
    let role = role(reader)?;
    let eui = eui(reader)?;
    let short = short(reader)?;
    let out_block = count(reader)?;
    let in_block = count(reader)?;
    reader.end()?;
    *line = Line::Node {
        name,
        role,
        eui,
        short,
        out_block,
        in_block,
    };
    Some(())
}

/// Reads a key that a node holds: a network key or a link key.
fn read_given(node: Name, reader: &mut Words<'_>, line: &mut Line) -> Option<()>
    requires { is_name node.bytes ≡ true }
    ensures value { Shows words (read_into result line.new)
        (option_map (begun_of 0 (codes "given") node.bytes)
        (two_forms (codes "net") (AKey ∷ a_sequence ∷ []) (codes "link") (AnAddress ∷ AKey ∷ [])
        (left reader.old))) }
    ensures fits { IfSome result (λ _. AllByRecursion MayStand (words line.new)) }
{
    let form = reader.word()?;
    if form == b"net".as_slice() {
        read_given_net(node, reader, line)
    } else if form == b"link".as_slice() {
        read_given_link(node, reader, line)
    } else {
        None
    }
}

/// Reads a network key.
fn read_given_net(node: Name, reader: &mut Words<'_>, line: &mut Line) -> Option<()>
    requires { is_name node.bytes ≡ true }
    ensures value { Shows words (read_into result line.new)
        (option_map (λ behind. begun_of 0 (codes "given") node.bytes (Fixed (codes "net") ∷ behind))
        (shaped (AKey ∷ a_sequence ∷ []) (left reader.old))) }
    ensures fits { IfSome result (λ _. AllByRecursion MayStand (words line.new)) }
{
    let key = key(reader)?;
    let sequence = sequence(reader)?;
    reader.end()?;
    *line = Line::GivenNet {
        node,
        key,
        sequence,
    };
    Some(())
}

/// Reads a link key.
fn read_given_link(node: Name, reader: &mut Words<'_>, line: &mut Line) -> Option<()>
    requires { is_name node.bytes ≡ true }
    ensures value { Shows words (read_into result line.new)
        (option_map (λ behind. begun_of 0 (codes "given") node.bytes (Fixed (codes "link") ∷ behind))
        (shaped (AnAddress ∷ AKey ∷ []) (left reader.old))) }
    ensures fits { IfSome result (λ _. AllByRecursion MayStand (words line.new)) }
{
    let partner = eui(reader)?;
    let key = key(reader)?;
    reader.end()?;
    *line = Line::GivenLink { node, partner, key };
    Some(())
}

/// Reads a stored limit.
fn read_counter(node: Name, reader: &mut Words<'_>, line: &mut Line) -> Option<()>
    requires { is_name node.bytes ≡ true }
    ensures value { Shows words (read_into result line.new)
        (option_map (begun_of 0 (codes "counter") node.bytes) (shaped (a_layer ∷ a_count ∷ []) (left reader.old))) }
    ensures fits { IfSome result (λ _. AllByRecursion MayStand (words line.new)) }
{
    let layer = layer(reader)?;
    let limit = count(reader)?;
    reader.end()?;
    *line = Line::Counter { node, layer, limit };
    Some(())
}
