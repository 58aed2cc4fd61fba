//! The start lines: the nodes, then their network keys, link keys and stored limits, each kind in the order of the
//! nodes.
ghost use Rattle.std.specs.Prelude.{◌≡◌, ◌+◌, ◌*◌, ◌≤◌, ◌++◌, [], List, flat_map, length, OnOk};
ghost use Rattle.zb_player_start.specs.Firsts.{AreNodesOf, AreOfSchedule};
ghost use Rattle.std.specs.Io.KnownBytes.{append_known};
ghost use Rattle.zb_model.specs.Data.{Station};
ghost use Rattle.zb_model.specs.Play.{start, stations};
ghost use Rattle.law_schedules.specs.Schedules.{schedule_of};
ghost use Rattle.zb_trace_model.specs.Said.{text_of};
ghost use Rattle.zb_sched.specs.Schedules.{Schedule};
ghost use Rattle.zb_player_scribe.specs.Kept.{Kept, Tells, told};
ghost use Rattle.zb_player_start.specs.Starts.{AreKnown, code_lines, counter_lines, declared_lines, network_lines, most_start_lines};
ghost use Rattle.zb_base.specs.Limits.{most_lines};

use crate::config::centre_of;
use crate::line::{tell_code, tell_limits, tell_network, tell_node};
use std::alloc::Global;
use zb_base::{Eui, NoMemory};
use zb_player_scribe::{Page, Scribe};
use zb_sched::Node;

/// Prints the start lines of a schedule, and keeps what they say. Requires its nodes, and room for 400 more lines.
///
/// # Errors
/// `NoMemory`.
pub fn tell_start(
    alloc: Global,
    scribe: &mut Scribe,
    page: &mut Page,
    declared: &[Node],
) -> Result<(), NoMemory>
    requires schedule { AreOfSchedule declared.now }
    requires room { told scribe.old + most_start_lines ≤ most_lines }
    ensures page { OnOk result ((p : Schedule) → AreNodesOf p declared.now
        → page.new ≡ append_known page.old (text_of (stations (schedule_of p)) (start (schedule_of p)))) }
    ensures kept { OnOk result ((p : Schedule) → AreNodesOf p declared.now → Kept [] scribe.old
        → Kept (start (schedule_of p)) scribe.new) }
    ensures told { OnOk result (told scribe.new ≤ told scribe.old + most_start_lines) }
{
    let centre = centre_of(declared);
    tell_nodes(alloc, scribe, page, declared)?;
    tell_networks(alloc, scribe, page, declared)?;
    tell_codes(alloc, scribe, page, centre, declared)?;
    tell_counters(alloc, scribe, page, declared)
}

fn tell_nodes(
    alloc: Global,
    scribe: &mut Scribe,
    page: &mut Page,
    declared: &[Node],
) -> Result<(), NoMemory>
    requires { told scribe.old + length declared.now ≤ most_lines }
    ensures page { OnOk result ((known : List Station)
        → page.new ≡ append_known page.old (text_of known (declared_lines declared.now))) }
    ensures kept { OnOk result (Kept [] scribe.old → Kept (declared_lines declared.now) scribe.new) }
    ensures told { OnOk result (told scribe.new ≤ told scribe.old + length declared.now) }
{
    for node in declared {
        tell_node(alloc, scribe, page, node)?;
    }
    Ok(())
}

fn tell_networks(
    alloc: Global,
    scribe: &mut Scribe,
    page: &mut Page,
    declared: &[Node],
) -> Result<(), NoMemory>
    requires { told scribe.old + length declared.now ≤ most_lines }
    ensures tells { OnOk result ((known : List Station) → AreKnown known declared.now
        → Tells known (flat_map network_lines declared.now) scribe.old page.old scribe.new page.new) }
    ensures told { OnOk result (told scribe.new ≤ told scribe.old + length declared.now) }
{
    for node in declared {
        tell_network(alloc, scribe, page, node)?;
    }
    Ok(())
}

fn tell_codes(
    alloc: Global,
    scribe: &mut Scribe,
    page: &mut Page,
    centre: Eui,
    declared: &[Node],
) -> Result<(), NoMemory>
    requires { told scribe.old + length declared.now ≤ most_lines }
    ensures tells { OnOk result ((known : List Station) → AreKnown known declared.now
        → Tells known (flat_map (code_lines centre.0) declared.now) scribe.old page.old
        scribe.new page.new) }
    ensures told { OnOk result (told scribe.new ≤ told scribe.old + length declared.now) }
{
    for node in declared {
        tell_code(alloc, scribe, page, centre, node)?;
    }
    Ok(())
}

fn tell_counters(
    alloc: Global,
    scribe: &mut Scribe,
    page: &mut Page,
    declared: &[Node],
) -> Result<(), NoMemory>
    requires { told scribe.old + 2 * length declared.now ≤ most_lines }
    ensures tells { OnOk result ((known : List Station) → AreKnown known declared.now
        → Tells known (flat_map counter_lines declared.now) scribe.old page.old scribe.new page.new) }
    ensures told { OnOk result (told scribe.new ≤ told scribe.old + 2 * length declared.now) }
{
    for node in declared {
        tell_limits(alloc, scribe, page, node)?;
    }
    Ok(())
}
