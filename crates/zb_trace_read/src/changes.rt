//! The lines of changes of a node's stable state.
ghost use Rattle.std.specs.Prelude.{◌≡◌, ◌∷◌, [], codes, IfSome, true};
ghost use Rattle.std.specs.List.{AllByRecursion};
ghost use Rattle.std.specs.Option.{option_map};
ghost use Rattle.zb_text.specs.Fields.{is_name};
ghost use Rattle.zb_text.specs.Words.{left, Shows};
ghost use Rattle.zb_trace.specs.Text.{Fixed, MayStand, attributes, begun_of, rollovers, states, words};
ghost use Rattle.zb_trace_read.specs.Grammar.{AKey, AnAddress, OneOf, a_count, a_layer, a_sequence, shaped, two_forms};
ghost use Rattle.zb_trace_read.specs.Places.{read_into};
ghost use Rattle.zb_trace_read.specs.Reading as spec;

use crate::fields::{attribute, count, eui, key, layer, rollover, sequence, state};
use crate::start::read_start;
use zb_base::Name;
use zb_text::words::Words;
use zb_trace::Line;

/// Reads what comes after the name of a node whose stable state changes, or that is declared.
#[tactic(auto, unfolding(crate::specs::Reading::of_change))]
pub(crate) fn read_change(
    event: u32,
    kind: &[u8],
    node: Name,
    reader: &mut Words<'_>,
    line: &mut Line,
) -> Option<()>
    requires { is_name node.bytes ≡ true }
    ensures value { Shows words (read_into result line.new)
        (spec.of_change event kind.now node.bytes (left reader.old)) }
    ensures fits { IfSome result (λ _. AllByRecursion MayStand (words line.new)) }
{
    if kind == b"reserve".as_slice() {
        return read_reserve(event, node, reader, line);
    }
    if kind == b"floor".as_slice() {
        return read_floor(event, node, reader, line);
    }
    if kind == b"drop".as_slice() {
        return read_drop(event, node, reader, line);
    }
    if kind == b"install".as_slice() {
        return read_install(event, node, reader, line);
    }
    if kind == b"active".as_slice() {
        return read_active(event, node, reader, line);
    }
    if kind == b"start".as_slice() {
        return read_first_counter(event, node, reader, line);
    }
    if kind == b"row".as_slice() {
        return read_row(event, node, reader, line);
    }
    if kind == b"pair".as_slice() {
        return read_pair(event, node, reader, line);
    }
    if kind == b"state".as_slice() {
        return read_state(event, node, reader, line);
    }
    if kind == b"roll".as_slice() {
        return read_roll(event, node, reader, line);
    }
    if event == 0 {
        return read_start(kind, node, reader, line);
    }
    None
}

/// Reads a reserved outgoing counter.
fn read_reserve(event: u32, node: Name, reader: &mut Words<'_>, line: &mut Line) -> Option<()>
    requires { is_name node.bytes ≡ true }
    ensures value { Shows words (read_into result line.new)
        (option_map (begun_of event (codes "reserve") node.bytes)
        (shaped (a_layer ∷ a_count ∷ []) (left reader.old))) }
    ensures fits { IfSome result (λ _. AllByRecursion MayStand (words line.new)) }
{
    let layer = layer(reader)?;
    let limit = count(reader)?;
    reader.end()?;
    *line = Line::Reserve {
        event,
        node,
        layer,
        limit,
    };
    Some(())
}

/// Reads a stored floor.
fn read_floor(event: u32, node: Name, reader: &mut Words<'_>, line: &mut Line) -> Option<()>
    requires { is_name node.bytes ≡ true }
    ensures value { Shows words (read_into result line.new)
        (option_map (begun_of event (codes "floor") node.bytes)
        (shaped (a_layer ∷ AKey ∷ AnAddress ∷ a_count ∷ []) (left reader.old))) }
    ensures fits { IfSome result (λ _. AllByRecursion MayStand (words line.new)) }
{
    let layer = layer(reader)?;
    let key = key(reader)?;
    let sender = eui(reader)?;
    let value = count(reader)?;
    reader.end()?;
    *line = Line::Floor {
        event,
        node,
        layer,
        key,
        sender,
        value,
    };
    Some(())
}

/// Reads a key that is dropped: a network key or a link key.
fn read_drop(event: u32, node: Name, reader: &mut Words<'_>, line: &mut Line) -> Option<()>
    requires { is_name node.bytes ≡ true }
    ensures value { Shows words (read_into result line.new)
        (option_map (begun_of event (codes "drop") node.bytes)
        (two_forms (codes "net") (AKey ∷ []) (codes "link") (AnAddress ∷ AKey ∷ []) (left reader.old))) }
    ensures fits { IfSome result (λ _. AllByRecursion MayStand (words line.new)) }
{
    let form = reader.word()?;
    if form == b"net".as_slice() {
        read_drop_net(event, node, reader, line)
    } else if form == b"link".as_slice() {
        read_drop_link(event, node, reader, line)
    } else {
        None
    }
}

/// Reads a network key that is dropped.
fn read_drop_net(event: u32, node: Name, reader: &mut Words<'_>, line: &mut Line) -> Option<()>
    requires { is_name node.bytes ≡ true }
    ensures value { Shows words (read_into result line.new)
        (option_map (λ behind. begun_of event (codes "drop") node.bytes (Fixed (codes "net") ∷ behind))
        (shaped (AKey ∷ []) (left reader.old))) }
    ensures fits { IfSome result (λ _. AllByRecursion MayStand (words line.new)) }
{
    let key = key(reader)?;
    reader.end()?;
    *line = Line::DropNet { event, node, key };
    Some(())
}

/// Reads a link key that is dropped.
fn read_drop_link(event: u32, node: Name, reader: &mut Words<'_>, line: &mut Line) -> Option<()>
    requires { is_name node.bytes ≡ true }
    ensures value { Shows words (read_into result line.new)
        (option_map (λ behind. begun_of event (codes "drop") node.bytes (Fixed (codes "link") ∷ behind))
        (shaped (AnAddress ∷ AKey ∷ []) (left reader.old))) }
    ensures fits { IfSome result (λ _. AllByRecursion MayStand (words line.new)) }
{
    let partner = eui(reader)?;
    let key = key(reader)?;
    reader.end()?;
    *line = Line::DropLink {
        event,
        node,
        partner,
        key,
    };
    Some(())
}

/// Reads a new network key.
fn read_install(event: u32, node: Name, reader: &mut Words<'_>, line: &mut Line) -> Option<()>
    requires { is_name node.bytes ≡ true }
    ensures value { Shows words (read_into result line.new)
        (option_map (begun_of event (codes "install") node.bytes)
        (shaped (AKey ∷ a_sequence ∷ []) (left reader.old))) }
    ensures fits { IfSome result (λ _. AllByRecursion MayStand (words line.new)) }
{
    let key = key(reader)?;
    let sequence = sequence(reader)?;
    reader.end()?;
    *line = Line::Install {
        event,
        node,
        key,
        sequence,
    };
    Some(())
}

/// Reads the active network key.
fn read_active(event: u32, node: Name, reader: &mut Words<'_>, line: &mut Line) -> Option<()>
    requires { is_name node.bytes ≡ true }
    ensures value { Shows words (read_into result line.new)
        (option_map (begun_of event (codes "active") node.bytes) (shaped (AKey ∷ []) (left reader.old))) }
    ensures fits { IfSome result (λ _. AllByRecursion MayStand (words line.new)) }
{
    let key = key(reader)?;
    reader.end()?;
    *line = Line::Active { event, node, key };
    Some(())
}

/// Reads the first counter of a network key.
fn read_first_counter(event: u32, node: Name, reader: &mut Words<'_>, line: &mut Line) -> Option<()>
    requires { is_name node.bytes ≡ true }
    ensures value { Shows words (read_into result line.new)
        (option_map (begun_of event (codes "start") node.bytes) (shaped (AKey ∷ a_count ∷ []) (left reader.old))) }
    ensures fits { IfSome result (λ _. AllByRecursion MayStand (words line.new)) }
{
    let key = key(reader)?;
    let value = count(reader)?;
    reader.end()?;
    *line = Line::Start {
        event,
        node,
        key,
        value,
    };
    Some(())
}

/// Reads a link key and its attribute.
fn read_row(event: u32, node: Name, reader: &mut Words<'_>, line: &mut Line) -> Option<()>
    requires { is_name node.bytes ≡ true }
    ensures value { Shows words (read_into result line.new)
        (option_map (begun_of event (codes "row") node.bytes)
        (shaped (AnAddress ∷ AKey ∷ OneOf attributes ∷ []) (left reader.old))) }
    ensures fits { IfSome result (λ _. AllByRecursion MayStand (words line.new)) }
{
    let partner = eui(reader)?;
    let key = key(reader)?;
    let attribute = attribute(reader)?;
    reader.end()?;
    *line = Line::Row {
        event,
        node,
        partner,
        key,
        attribute,
    };
    Some(())
}

/// Reads a key for two devices.
fn read_pair(event: u32, node: Name, reader: &mut Words<'_>, line: &mut Line) -> Option<()>
    requires { is_name node.bytes ≡ true }
    ensures value { Shows words (read_into result line.new)
        (option_map (begun_of event (codes "pair") node.bytes)
        (shaped (AnAddress ∷ AnAddress ∷ AKey ∷ []) (left reader.old))) }
    ensures fits { IfSome result (λ _. AllByRecursion MayStand (words line.new)) }
{
    let first = eui(reader)?;
    let second = eui(reader)?;
    let key = key(reader)?;
    reader.end()?;
    *line = Line::Pair {
        event,
        node,
        first,
        second,
        key,
    };
    Some(())
}

/// Reads the state of a node.
fn read_state(event: u32, node: Name, reader: &mut Words<'_>, line: &mut Line) -> Option<()>
    requires { is_name node.bytes ≡ true }
    ensures value { Shows words (read_into result line.new)
        (option_map (begun_of event (codes "state") node.bytes) (shaped (OneOf states ∷ []) (left reader.old))) }
    ensures fits { IfSome result (λ _. AllByRecursion MayStand (words line.new)) }
{
    let state = state(reader)?;
    reader.end()?;
    *line = Line::State { event, node, state };
    Some(())
}

/// Reads a rollover.
fn read_roll(event: u32, node: Name, reader: &mut Words<'_>, line: &mut Line) -> Option<()>
    requires { is_name node.bytes ≡ true }
    ensures value { Shows words (read_into result line.new)
        (option_map (begun_of event (codes "roll") node.bytes) (shaped (OneOf rollovers ∷ []) (left reader.old))) }
    ensures fits { IfSome result (λ _. AllByRecursion MayStand (words line.new)) }
{
    let rollover = rollover(reader)?;
    reader.end()?;
    *line = Line::Roll {
        event,
        node,
        rollover,
    };
    Some(())
}
