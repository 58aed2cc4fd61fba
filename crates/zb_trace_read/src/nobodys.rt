//! The lines that show no node: those of frames that are sent, and those of changes that only the centre makes.
ghost use Rattle.std.specs.Prelude.{◌≡◌, ◌∷◌, [], codes, IfSome, true};
ghost use Rattle.std.specs.List.{AllByRecursion};
ghost use Rattle.std.specs.Option.{option_map};
ghost use Rattle.zb_text.specs.Words.{left, Shows};
ghost use Rattle.zb_trace.specs.Text.{MayStand, begun, words};
ghost use Rattle.zb_trace_read.specs.Grammar.{AKey, AnAddress, ANameOrDash, SomeBytes, a_count, a_term, shaped};
ghost use Rattle.zb_trace_read.specs.Places.{read_into};
ghost use Rattle.zb_trace_read.specs.Reading as spec;
ghost use Rattle.zb_base.specs.Limits.{longest_frame};

use crate::fields::{count, eui, key, sender, some_bytes};
use crate::happenings::read_of_node;
use crate::parts::{no_term, read_term};
use zb_text::words::Words;
use zb_trace::Line;

/// Reads what comes after the number of an event and a kind.
#[tactic(auto, unfolding(crate::specs::Reading::of_nobody))]
pub(crate) fn read_of_nobody(
    event: u32,
    kind: &[u8],
    reader: &mut Words<'_>,
    line: &mut Line,
) -> Option<()>
    ensures value { Shows words (read_into result line.new) (spec.of_nobody event kind.now (left reader.old)) }
    ensures fits { IfSome result (λ _. AllByRecursion MayStand (words line.new)) }
{
    if kind == b"send".as_slice() {
        return read_send(event, reader, line);
    }
    if kind == b"forge".as_slice() {
        return read_forge(event, reader, line);
    }
    if kind == b"inject".as_slice() {
        return read_inject(event, reader, line);
    }
    if kind == b"draw".as_slice() {
        return read_draw(event, reader, line);
    }
    if kind == b"live".as_slice() {
        return read_live(event, reader, line);
    }
    if kind == b"removed".as_slice() {
        return read_removed(event, reader, line);
    }
    if kind == b"told".as_slice() {
        return read_told(event, reader, line);
    }
    if kind == b"untold".as_slice() {
        return read_untold(event, reader, line);
    }
    let node = reader.name()?;
    read_of_node(event, kind, node, reader, line)
}

/// Reads a frame that is sent.
fn read_send(event: u32, reader: &mut Words<'_>, line: &mut Line) -> Option<()>
    ensures value { Shows words (read_into result line.new)
        (option_map (begun event (codes "send"))
        (shaped (ANameOrDash ∷ a_count ∷ SomeBytes longest_frame ∷ []) (left reader.old))) }
    ensures fits { IfSome result (λ _. AllByRecursion MayStand (words line.new)) }
{
    let node = sender(reader)?;
    let frame = count(reader)?;
    let bytes = some_bytes(reader)?;
    reader.end()?;
    *line = Line::Send {
        event,
        node,
        frame,
        bytes,
    };
    Some(())
}

/// Reads a forged layer of a frame.
fn read_forge(event: u32, reader: &mut Words<'_>, line: &mut Line) -> Option<()>
    ensures value { Shows words (read_into result line.new)
        (option_map (begun event (codes "forge")) (shaped a_term (left reader.old))) }
    ensures fits { IfSome result (λ _. AllByRecursion MayStand (words line.new)) }
{
    *line = Line::Forge {
        event,
        term: no_term(),
    };
    match line {
        Line::Forge { term, .. } => read_term(reader, term),
        _ => None,
    }
}

/// Reads injected bytes.
fn read_inject(event: u32, reader: &mut Words<'_>, line: &mut Line) -> Option<()>
    ensures value { Shows words (read_into result line.new)
        (option_map (begun event (codes "inject"))
        (shaped (a_count ∷ SomeBytes longest_frame ∷ []) (left reader.old))) }
    ensures fits { IfSome result (λ _. AllByRecursion MayStand (words line.new)) }
{
    let frame = count(reader)?;
    let bytes = some_bytes(reader)?;
    reader.end()?;
    *line = Line::Inject {
        event,
        frame,
        bytes,
    };
    Some(())
}

/// Reads a key of the supply.
fn read_draw(event: u32, reader: &mut Words<'_>, line: &mut Line) -> Option<()>
    ensures value { Shows words (read_into result line.new)
        (option_map (begun event (codes "draw")) (shaped (AKey ∷ []) (left reader.old))) }
    ensures fits { IfSome result (λ _. AllByRecursion MayStand (words line.new)) }
{
    let key = key(reader)?;
    reader.end()?;
    *line = Line::Draw { event, key };
    Some(())
}

/// Reads an admitted device.
fn read_live(event: u32, reader: &mut Words<'_>, line: &mut Line) -> Option<()>
    ensures value { Shows words (read_into result line.new)
        (option_map (begun event (codes "live")) (shaped (AnAddress ∷ []) (left reader.old))) }
    ensures fits { IfSome result (λ _. AllByRecursion MayStand (words line.new)) }
{
    let device = eui(reader)?;
    reader.end()?;
    *line = Line::Live { event, device };
    Some(())
}

/// Reads a removed device.
fn read_removed(event: u32, reader: &mut Words<'_>, line: &mut Line) -> Option<()>
    ensures value { Shows words (read_into result line.new)
        (option_map (begun event (codes "removed")) (shaped (AnAddress ∷ []) (left reader.old))) }
    ensures fits { IfSome result (λ _. AllByRecursion MayStand (words line.new)) }
{
    let device = eui(reader)?;
    reader.end()?;
    *line = Line::Removed { event, device };
    Some(())
}

/// Reads a device that was sent the newest network key.
fn read_told(event: u32, reader: &mut Words<'_>, line: &mut Line) -> Option<()>
    ensures value { Shows words (read_into result line.new)
        (option_map (begun event (codes "told")) (shaped (AnAddress ∷ []) (left reader.old))) }
    ensures fits { IfSome result (λ _. AllByRecursion MayStand (words line.new)) }
{
    let device = eui(reader)?;
    reader.end()?;
    *line = Line::Told { event, device };
    Some(())
}

/// Reads a device that needs the newest network key again.
fn read_untold(event: u32, reader: &mut Words<'_>, line: &mut Line) -> Option<()>
    ensures value { Shows words (read_into result line.new)
        (option_map (begun event (codes "untold")) (shaped (AnAddress ∷ []) (left reader.old))) }
    ensures fits { IfSome result (λ _. AllByRecursion MayStand (words line.new)) }
{
    let device = eui(reader)?;
    reader.end()?;
    *line = Line::Untold { event, device };
    Some(())
}
