//! The start lines of one node.
ghost use Rattle.std.specs.Prelude.{◌≡◌, ◌+◌, ◌≤◌, ◌<◌, ◌++◌, ◌∷◌, [], ℕ, List, OnOk};
ghost use Rattle.std.specs.Io.KnownBytes.{append_known};
ghost use Rattle.zb_model.specs.Data.{Station};
ghost use Rattle.zb_model.specs.Lines as model;
ghost use Rattle.zb_model.specs.Play.{limit_line};
ghost use Rattle.zb_node_types.specs.Changes.{model_layer};
ghost use Rattle.zb_trace_model.specs.Naming.{IsCalled};
ghost use Rattle.zb_trace_model.specs.Said.{line_text};
ghost use Rattle.zb_player_scribe.specs.Kept.{Kept, Tells, told};
ghost use Rattle.zb_player_start.specs.Starts.{IsKnown, code_lines, counter_lines, network_lines, station_of};
ghost use Rattle.zb_base.specs.Limits.{most_lines};

use std::alloc::Global;
use zb_base::{Eui, Layer, Name, NoMemory};
use zb_player_scribe::{Page, Scribe, lines_are_told_in_turn, no_lines_are_told};
use zb_sched::Node;
use zb_trace_model::{counter_line, given_link_line, given_net_line, node_line};

/// Prints the line of a node. Requires room for one more line.
///
/// # Errors
/// `NoMemory`.
pub(crate) fn tell_node(
    alloc: Global,
    scribe: &mut Scribe,
    page: &mut Page,
    node: &Node,
) -> Result<(), NoMemory>
    requires { told scribe.old < most_lines }
    ensures page { OnOk result ((known : List Station)
        → page.new ≡ append_known page.old (line_text known (model.Declared (station_of node.now)))) }
    ensures kept { OnOk result ((h : List model.Line) → Kept h scribe.old
        → Kept (h ++ model.Declared (station_of node.now) ∷ []) scribe.new) }
    ensures told { OnOk result (told scribe.new ≤ told scribe.old + 1) }
{
    let peer = node.peer;
    let line = node_line(
        peer.name,
        peer.role,
        peer.eui,
        peer.short,
        node.out_block,
        node.in_block,
    );
    scribe.tell(alloc, page, &line)
}

/// Prints the network key of a node, if it has one. Requires room for one more line.
///
/// # Errors
/// `NoMemory`.
pub(crate) fn tell_network(
    alloc: Global,
    scribe: &mut Scribe,
    page: &mut Page,
    node: &Node,
) -> Result<(), NoMemory>
    requires { told scribe.old < most_lines }
    ensures tells { OnOk result ((known : List Station) → IsKnown known node.now
        → Tells known (network_lines node.now) scribe.old page.old scribe.new page.new) }
    ensures told { OnOk result (told scribe.new ≤ told scribe.old + 1) }
{
    match &node.network {
        Some((key, sequence)) => {
            let line = given_net_line(node.peer.name, *key, *sequence);
            scribe.tell(alloc, page, &line)
        }
        None => {
            no_lines_are_told();
            Ok(())
        }
    }
}

/// Prints the link key of a node's install code, if it has one. Requires room for one more line.
///
/// # Errors
/// `NoMemory`.
pub(crate) fn tell_code(
    alloc: Global,
    scribe: &mut Scribe,
    page: &mut Page,
    centre: Eui,
    node: &Node,
) -> Result<(), NoMemory>
    requires { told scribe.old < most_lines }
    ensures tells { OnOk result ((known : List Station) → IsKnown known node.now
        → Tells known (code_lines centre.0 node.now) scribe.old page.old scribe.new page.new) }
    ensures told { OnOk result (told scribe.new ≤ told scribe.old + 1) }
{
    match &node.code {
        Some(code) => {
            let line = given_link_line(node.peer.name, centre, code.link_key());
            scribe.tell(alloc, page, &line)
        }
        None => {
            no_lines_are_told();
            Ok(())
        }
    }
}

// Prints a stored limit that isn't 0. Requires room for one more line.
fn tell_limit(
    alloc: Global,
    scribe: &mut Scribe,
    page: &mut Page,
    node: Name,
    layer: Layer,
    limit: u32,
) -> Result<(), NoMemory>
    requires { told scribe.old < most_lines }
    ensures tells { OnOk result ((known : List Station) (n : ℕ) → IsCalled known n node.bytes
        → Tells known (limit_line n (model_layer layer) limit) scribe.old page.old scribe.new page.new) }
    ensures told { OnOk result (told scribe.new ≤ told scribe.old + 1) }
{
    if limit == 0 {
        no_lines_are_told();
        return Ok(());
    }
    scribe.tell(alloc, page, &counter_line(node, layer, limit))
}

/// Prints the stored limits of a node, those that aren't 0. Requires room for two more lines.
///
/// # Errors
/// `NoMemory`.
pub(crate) fn tell_limits(
    alloc: Global,
    scribe: &mut Scribe,
    page: &mut Page,
    node: &Node,
) -> Result<(), NoMemory>
    requires { told scribe.old + 2 ≤ most_lines }
    ensures tells { OnOk result ((known : List Station) → IsKnown known node.now
        → Tells known (counter_lines node.now) scribe.old page.old scribe.new page.new) }
    ensures told { OnOk result (told scribe.new ≤ told scribe.old + 2) }
{
    let name = node.peer.name;
    lines_are_told_in_turn();
    tell_limit(alloc, scribe, page, name, Layer::Nwk, node.start_nwk)?;
    tell_limit(alloc, scribe, page, name, Layer::Aps, node.start_aps)
}
