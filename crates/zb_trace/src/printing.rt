//! The text of a line.
ghost use Rattle.std.specs.Prelude.{◌≡◌, ◌++◌, ◌||◌, [], OnOk, OnErr, IfOk, false};
ghost use Rattle.std.specs.Io.KnownBytes.{Appends};
ghost use Rattle.zb_base.specs.Outside.{AppendsFront};
ghost use Rattle.zb_trace.specs.Writing.{IsCause};
ghost use Rattle.zb_trace.specs.Kinds.{is_of_counters, is_of_keys, is_of_devices, is_of_frames};
ghost use Rattle.zb_trace.specs.Text as spec;

use crate::Line;
use crate::changes::*;
use crate::events::*;
use crate::start::*;
use std::alloc::{AllocError, Global};
use zb_base::{Failed, NoMemory, OrMemory, Sink};
use zb_text::page::hand_out;

/// Prints a line, with its line feed, after what is already printed. It allocates memory only if the page grows.
///
/// # Errors
/// `AllocError`, if memory runs out.
pub fn put_line(out: &mut Vec<u8>, line: &Line) -> Result<(), AllocError>
    ensures { OnOk result (out.new.items ≡ out.old.items ++ spec.text line.now) }
{
    match line {
        Line::Node {
            name,
            role,
            eui,
            short,
            out_block,
            in_block,
        } => put_node(out, name, *role, *eui, *short, *out_block, *in_block),
        Line::GivenNet {
            node,
            key,
            sequence,
        } => put_given_net(out, node, key, *sequence),
        Line::GivenLink { node, partner, key } => put_given_link(out, node, *partner, key),
        Line::Counter { node, layer, limit } => put_counter(out, node, *layer, *limit),
        Line::Reserve {
            event,
            node,
            layer,
            limit,
        } => put_reserve(out, *event, node, *layer, *limit),
        Line::Floor {
            event,
            node,
            layer,
            key,
            sender,
            value,
        } => put_floor(out, *event, node, *layer, key, *sender, *value),
        _ => put_key_line(out, line),
    }
}

/// Prints a line about network keys, or one of a later group.
fn put_key_line(out: &mut Vec<u8>, line: &Line) -> Result<(), AllocError>
    requires { is_of_counters line.now ≡ false }
    ensures { OnOk result (out.new.items ≡ out.old.items ++ spec.text line.now) }
{
    match line {
        Line::Draw { event, key } => put_draw(out, *event, key),
        Line::DropNet { event, node, key } => put_drop_net(out, *event, node, key),
        Line::DropLink {
            event,
            node,
            partner,
            key,
        } => put_drop_link(out, *event, node, *partner, key),
        Line::Install {
            event,
            node,
            key,
            sequence,
        } => put_install(out, *event, node, key, *sequence),
        Line::Active { event, node, key } => put_active(out, *event, node, key),
        Line::Start {
            event,
            node,
            key,
            value,
        } => put_start(out, *event, node, key, *value),
        _ => put_device_line(out, line),
    }
}

/// Prints a line about link keys and devices, or one of a later group.
fn put_device_line(out: &mut Vec<u8>, line: &Line) -> Result<(), AllocError>
    requires { (is_of_counters line.now || is_of_keys line.now) ≡ false }
    ensures { OnOk result (out.new.items ≡ out.old.items ++ spec.text line.now) }
{
    match line {
        Line::Row {
            event,
            node,
            partner,
            key,
            attribute,
        } => put_row(out, *event, node, *partner, key, *attribute),
        Line::Pair {
            event,
            node,
            first,
            second,
            key,
        } => put_pair(out, *event, node, *first, *second, key),
        Line::State { event, node, state } => put_state(out, *event, node, *state),
        Line::Live { event, device } => put_live(out, *event, *device),
        Line::Removed { event, device } => put_removed(out, *event, *device),
        Line::Roll {
            event,
            node,
            rollover,
        } => put_roll(out, *event, node, *rollover),
        Line::Told { event, device } => put_told(out, *event, *device),
        Line::Untold { event, device } => put_untold(out, *event, *device),
        _ => put_frame_line(out, line),
    }
}

/// Prints a line about a commit or a frame, or one of a later group.
fn put_frame_line(out: &mut Vec<u8>, line: &Line) -> Result<(), AllocError>
    requires { (is_of_counters line.now || (is_of_keys line.now || is_of_devices line.now)) ≡ false }
    ensures { OnOk result (out.new.items ≡ out.old.items ++ spec.text line.now) }
{
    match line {
        Line::Commit { event, node } => put_commit(out, *event, node),
        Line::Accept { event, node, term } => put_accept(out, *event, node, term),
        Line::Refuse {
            event,
            node,
            refusal,
        } => put_refuse(out, *event, node, refusal),
        Line::Seal { event, node, term } => put_seal(out, *event, node, term),
        Line::Forge { event, term } => put_forge(out, *event, term),
        Line::Send {
            event,
            node,
            frame,
            bytes,
        } => put_send(out, *event, node, *frame, bytes),
        Line::Inject {
            event,
            frame,
            bytes,
        } => put_inject(out, *event, *frame, bytes),
        _ => put_last_line(out, line),
    }
}

/// Prints a line about power and disks, or the end line.
fn put_last_line(out: &mut Vec<u8>, line: &Line) -> Result<(), AllocError>
    requires { (is_of_counters line.now || (is_of_keys line.now || (is_of_devices line.now || is_of_frames line.now)))
        ≡ false }
    ensures { OnOk result (out.new.items ≡ out.old.items ++ spec.text line.now) }
{
    match line {
        Line::Stopped { event, node } => put_stopped(out, *event, node),
        Line::DownReset { event, node } => put_down_reset(out, *event, node),
        Line::DownDisk { event, node } => put_down_disk(out, *event, node),
        Line::Boot { event, node } => put_boot(out, *event, node),
        Line::Dump { event, node, bytes } => put_dump(out, *event, node, bytes),
        Line::End {
            events,
            seals,
            accepts,
            refusals,
            ideal,
            private,
        } => put_end(out, *events, *seals, *accepts, *refusals, *ideal, *private),
        _ => Ok(()),
    }
}

/// Makes the text of a line, with its line feed.
///
/// # Errors
/// `NoMemory`, if memory runs out.
pub fn text(alloc: Global, line: &Line) -> Result<Vec<u8>, NoMemory>
    ensures { IfOk result (λ bytes. bytes.items ≡ spec.text line.now) }
{
    let mut bytes = Vec::new(alloc);
    put_line(&mut bytes, line)?;
    Ok(bytes)
}

/// Writes the text of a line to a sink, in one write. The page must be empty. It is empty again after `Ok`, and keeps
/// its capacity from line to line.
///
/// # Errors
/// If the sink fails, it took a prefix of the text. If memory runs out, it took nothing.
pub fn write_line<W: Sink>(
    page: &mut Vec<u8>,
    out: &mut W,
    line: &Line,
) -> Result<(), OrMemory<Failed>>
    requires { page.old.items ≡ [] }
    ensures whole { OnOk result (Appends (W.taken out.old) (W.taken out.new) (spec.text line.now)) }
    ensures empty { OnOk result (page.new.items ≡ []) }
    ensures front { OnErr result (AppendsFront (W.taken out.old) (W.taken out.new) (spec.text line.now)) }
    ensures cause { IsCause (W.faults out.old) (W.faults out.new) result }
{
    put_line(page, line)?;
    match hand_out(page, out) {
        Ok(()) => Ok(()),
        Err(failed) => Err(OrMemory::Fault(failed)),
    }
}
