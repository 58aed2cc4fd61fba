//! The lines of what happens to a node: what it seals, accepts and refuses, its power and its disk.
ghost use Rattle.std.specs.Prelude.{◌≡◌, [], codes, IfSome, true};
ghost use Rattle.std.specs.List.{AllByRecursion};
ghost use Rattle.std.specs.Option.{option_map};
ghost use Rattle.zb_text.specs.Fields.{is_name};
ghost use Rattle.zb_text.specs.Words.{left, Shows};
ghost use Rattle.zb_trace.specs.Text.{MayStand, begun_of, words};
ghost use Rattle.zb_trace.specs.declared.line.Line.TheVariants as lines;
ghost use Rattle.zb_trace_read.specs.Grammar.{a_refusal, a_term, shaped, two_forms};
ghost use Rattle.zb_trace_read.specs.Places.{read_into};
ghost use Rattle.zb_trace_read.specs.Reading as spec;

use crate::changes::read_change;
use crate::parts::{no_term, read_refusal, read_term};
use zb_base::Name;
use zb_node_types::Refusal;
use zb_text::words::Words;
use zb_trace::Line;

/// Reads what comes after the name of a node to which something happens, or whose stable state changes.
#[tactic(auto, unfolding(crate::specs::Reading::of_node))]
pub(crate) fn read_of_node(
    event: u32,
    kind: &[u8],
    node: Name,
    reader: &mut Words<'_>,
    line: &mut Line,
) -> Option<()>
    requires { is_name node.bytes ≡ true }
    ensures value { Shows words (read_into result line.new)
        (spec.of_node event kind.now node.bytes (left reader.old)) }
    ensures fits { IfSome result (λ _. AllByRecursion MayStand (words line.new)) }
{
    if kind == b"seal".as_slice() {
        return read_seal(event, node, reader, line);
    }
    if kind == b"accept".as_slice() {
        return read_accept(event, node, reader, line);
    }
    if kind == b"commit".as_slice() {
        return read_commit(event, node, reader, line);
    }
    if kind == b"refuse".as_slice() {
        return read_refuse(event, node, reader, line);
    }
    if kind == b"boot".as_slice() {
        return read_boot(event, node, reader, line);
    }
    if kind == b"down".as_slice() {
        return read_down(event, node, reader, line);
    }
    if kind == b"stopped".as_slice() {
        return read_stopped(event, node, reader, line);
    }
    read_change(event, kind, node, reader, line)
}

/// Reads a sealed layer of a frame.
fn read_seal(event: u32, node: Name, reader: &mut Words<'_>, line: &mut Line) -> Option<()>
    requires { is_name node.bytes ≡ true }
    ensures value { Shows words (read_into result line.new)
        (option_map (begun_of event (codes "seal") node.bytes) (shaped a_term (left reader.old))) }
    ensures fits { IfSome result (λ _. AllByRecursion MayStand (words line.new)) }
{
    *line = Line::Seal {
        event,
        node,
        term: no_term(),
    };
    match line {
        Line::Seal { term, .. } => read_term(reader, term),
        _ => None,
    }
}

/// Reads an accepted layer of a frame.
fn read_accept(event: u32, node: Name, reader: &mut Words<'_>, line: &mut Line) -> Option<()>
    requires { is_name node.bytes ≡ true }
    ensures value { Shows words (read_into result line.new)
        (option_map (begun_of event (codes "accept") node.bytes) (shaped a_term (left reader.old))) }
    ensures fits { IfSome result (λ _. AllByRecursion MayStand (words line.new)) }
{
    *line = Line::Accept {
        event,
        node,
        term: no_term(),
    };
    match line {
        Line::Accept { term, .. } => read_term(reader, term),
        _ => None,
    }
}

/// Reads changes that are stored.
fn read_commit(event: u32, node: Name, reader: &mut Words<'_>, line: &mut Line) -> Option<()>
    requires { is_name node.bytes ≡ true }
    ensures value { Shows words (read_into result line.new)
        (option_map (begun_of event (codes "commit") node.bytes) (shaped [] (left reader.old))) }
    ensures fits { IfSome result (λ _. AllByRecursion MayStand (words line.new)) }
{
    reader.end()?;
    *line = Line::Commit { event, node };
    Some(())
}

/// Reads a refused event.
fn read_refuse(event: u32, node: Name, reader: &mut Words<'_>, line: &mut Line) -> Option<()>
    requires { is_name node.bytes ≡ true }
    ensures value { Shows words (read_into result line.new)
        (option_map (begun_of event (codes "refuse") node.bytes) (a_refusal (left reader.old))) }
    ensures fits { IfSome result (λ _. AllByRecursion MayStand (words line.new)) }
{
    let refusal = read_refusal(reader)?;
    put_refused(event, node, refusal, line);
    Some(())
}

/// Writes a refused event into its place. In a function of its own, the value is made in its place and not copied
/// there.
fn put_refused(event: u32, node: Name, refusal: Refusal, line: &mut Line)
    ensures { line.new ≡ lines.Refuse event node refusal }
{
    *line = Line::Refuse {
        event,
        node,
        refusal,
    };
}

/// Reads a node that booted.
fn read_boot(event: u32, node: Name, reader: &mut Words<'_>, line: &mut Line) -> Option<()>
    requires { is_name node.bytes ≡ true }
    ensures value { Shows words (read_into result line.new)
        (option_map (begun_of event (codes "boot") node.bytes) (shaped [] (left reader.old))) }
    ensures fits { IfSome result (λ _. AllByRecursion MayStand (words line.new)) }
{
    reader.end()?;
    *line = Line::Boot { event, node };
    Some(())
}

/// Reads a node that lost its power: by a reset, or because its disk failed.
fn read_down(event: u32, node: Name, reader: &mut Words<'_>, line: &mut Line) -> Option<()>
    requires { is_name node.bytes ≡ true }
    ensures value { Shows words (read_into result line.new)
        (option_map (begun_of event (codes "down") node.bytes)
        (two_forms (codes "reset") [] (codes "disk") [] (left reader.old))) }
    ensures fits { IfSome result (λ _. AllByRecursion MayStand (words line.new)) }
{
    let form = reader.word()?;
    reader.end()?;
    if form == b"reset".as_slice() {
        *line = Line::DownReset { event, node };
        Some(())
    } else if form == b"disk".as_slice() {
        *line = Line::DownDisk { event, node };
        Some(())
    } else {
        None
    }
}

/// Reads a disk that stopped.
fn read_stopped(event: u32, node: Name, reader: &mut Words<'_>, line: &mut Line) -> Option<()>
    requires { is_name node.bytes ≡ true }
    ensures value { Shows words (read_into result line.new)
        (option_map (begun_of event (codes "stopped") node.bytes) (shaped [] (left reader.old))) }
    ensures fits { IfSome result (λ _. AllByRecursion MayStand (words line.new)) }
{
    reader.end()?;
    *line = Line::Stopped { event, node };
    Some(())
}
