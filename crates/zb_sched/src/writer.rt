//! The printer.

ghost use Rattle.std.specs.Prelude.{◌≡◌, ◌++◌, List, map, Err, IfErr, OnOk};
ghost use Rattle.std.specs.Io.KnownBytes.{Appends, Keeps};
ghost use Rattle.zb_base.specs.Outside.{AppendsFront, HasCause};
ghost use Rattle.zb_base.specs.declared.fault.OrMemory.TheVariants.{NoMemory};
ghost use Rattle.zb_sched.specs.Faults.{write_fault};
ghost use Rattle.std.specs.List.{flat_map};
ghost use Rattle.zb_text.specs.Pages.{page};
ghost use Rattle.zb_sched_line.specs.Views.{event_of};
ghost use Rattle.zb_sched.specs.Schedules.{node_of, schedule_of};
ghost use Rattle.zb_sched.specs.Printed.{event_line, code_lines, counter_line, counter_lines, draw_line, netkey_lines, node_line, printed};

use crate::schedule::{Node, Schedule};
use std::alloc::{AllocError, Global};
use zb_base::{Failed, Key, Layer, OrMemory, Sink};
use zb_sched_line::{Event, put_code, put_counter, put_draw, put_event, put_netkey, put_node};

fn put_nodes(out: &mut Vec<u8>, nodes: &[Node]) -> Result<(), AllocError>
    ensures { OnOk result (out.new.items ≡ out.old.items ++ page (map (λ node. node_line (node_of node)) nodes.now)) }
{
    for node in nodes {
        put_node(out, &node.peer, node.out_block, node.in_block)?;
    }
    Ok(())
}

fn put_codes(out: &mut Vec<u8>, nodes: &[Node]) -> Result<(), AllocError>
    ensures { OnOk result
        (out.new.items ≡ out.old.items ++ page (flat_map (λ node. code_lines (node_of node)) nodes.now)) }
{
    for node in nodes {
        put_own_code(out, node)?;
    }
    Ok(())
}

fn put_own_code(out: &mut Vec<u8>, node: &Node) -> Result<(), AllocError>
    ensures { OnOk result (out.new.items ≡ out.old.items ++ page (code_lines (node_of node.now))) }
{
    match &node.code {
        Some(code) => put_code(out, &node.peer.name, code.bytes())?,
        None => {}
    }
    Ok(())
}

fn put_netkeys(out: &mut Vec<u8>, nodes: &[Node]) -> Result<(), AllocError>
    ensures { OnOk result
        (out.new.items ≡ out.old.items ++ page (flat_map (λ node. netkey_lines (node_of node)) nodes.now)) }
{
    for node in nodes {
        put_own_netkey(out, node)?;
    }
    Ok(())
}

fn put_own_netkey(out: &mut Vec<u8>, node: &Node) -> Result<(), AllocError>
    ensures { OnOk result (out.new.items ≡ out.old.items ++ page (netkey_lines (node_of node.now))) }
{
    match &node.network {
        Some((key, sequence)) => put_netkey(out, &node.peer.name, key, *sequence)?,
        None => {}
    }
    Ok(())
}

fn put_counters(out: &mut Vec<u8>, nodes: &[Node]) -> Result<(), AllocError>
    ensures { OnOk result
        (out.new.items ≡ out.old.items ++ page (flat_map (λ node. counter_lines (node_of node)) nodes.now)) }
{
    for node in nodes {
        put_own_counters(out, node)?;
    }
    Ok(())
}

fn put_own_counters(out: &mut Vec<u8>, node: &Node) -> Result<(), AllocError>
    ensures { OnOk result (out.new.items ≡ out.old.items ++ page (counter_lines (node_of node.now))) }
{
    put_own_counter(out, node, Layer::Nwk, node.start_nwk)?;
    put_own_counter(out, node, Layer::Aps, node.start_aps)?;
    Ok(())
}

fn put_own_counter(
    out: &mut Vec<u8>,
    node: &Node,
    layer: Layer,
    limit: u32,
) -> Result<(), AllocError>
    ensures { OnOk result (out.new.items ≡ out.old.items ++ page (counter_line node.now.peer.name.bytes layer limit)) }
{
    if limit != 0 {
        put_counter(out, &node.peer.name, layer, limit)?;
    }
    Ok(())
}

fn put_draws(out: &mut Vec<u8>, draws: &[Key]) -> Result<(), AllocError>
    ensures { OnOk result (out.new.items ≡ out.old.items ++ page (map (λ key. draw_line key.0) draws.now)) }
{
    for key in draws {
        put_draw(out, key)?;
    }
    Ok(())
}

fn put_events(out: &mut Vec<u8>, events: &[Event]) -> Result<(), AllocError>
    ensures { OnOk result
        (out.new.items ≡ out.old.items ++ page (map (λ event. event_line (event_of event)) events.now)) }
{
    for event in events {
        put_event(out, event)?;
    }
    Ok(())
}

/// Prints the one text of a schedule into a sink.
///
/// # Errors
/// A sink that failed has a prefix of the text. Out of memory it has nothing.
pub fn write<W: Sink>(
    alloc: Global,
    schedule: &Schedule,
    out: &mut W,
) -> Result<(), OrMemory<Failed>>
    ensures whole { OnOk result (Appends (W.taken out.old) (W.taken out.new) (printed (schedule_of schedule.now))) }
    ensures front { IfErr result
        (λ fault. AppendsFront (W.taken out.old) (W.taken out.new) (printed (schedule_of schedule.now))) }
    ensures unwritten { result ≡ Err NoMemory → Keeps (W.taken out.old) (W.taken out.new) }
    ensures cause { HasCause (W.faults out.old) (W.faults out.new) (write_fault result) }
{
    let mut page = Vec::new(alloc);
    match put_schedule(&mut page, schedule) {
        Ok(()) => {}
        Err(_) => return Err(OrMemory::NoMemory),
    }
    match out.write(page.as_slice()) {
        Ok(()) => Ok(()),
        Err(failed) => Err(OrMemory::Fault(failed)),
    }
}

fn put_schedule(out: &mut Vec<u8>, schedule: &Schedule) -> Result<(), AllocError>
    ensures { OnOk result (out.new.items ≡ out.old.items ++ printed (schedule_of schedule.now)) }
{
    put_nodes(out, schedule.nodes.as_slice())?;
    put_codes(out, schedule.nodes.as_slice())?;
    put_netkeys(out, schedule.nodes.as_slice())?;
    put_counters(out, schedule.nodes.as_slice())?;
    put_draws(out, schedule.draws.as_slice())?;
    put_events(out, schedule.events.as_slice())?;
    Ok(())
}
