//! The configuration of each node of a schedule.
ghost use Rattle.std.specs.Prelude.{◌≡◌, ◌<◌, ◌≤◌, length, map, slice_get, Some, find};
ghost use Rattle.std.specs.Option.{option_copied};
ghost use Rattle.zb_base.specs.Config.{IsConfig};
ghost use Rattle.zb_player_start.specs.Firsts.{AreNodesOf, AreOfSchedule};
ghost use Rattle.zb_model.specs.Data.{Station};
ghost use Rattle.zb_model.specs.Play.{setting_of, stations};
ghost use Rattle.zb_model.specs.Rules as rules;
ghost use Rattle.law_schedules.specs.Schedules.{schedule_of};
ghost use Rattle.zb_setting.specs.Settings.{setting_for};
ghost use Rattle.zb_sched.specs.Reading.{is_centre};
ghost use Rattle.zb_sched.specs.Schedules.{Schedule};
ghost use Rattle.zb_base.specs.Limits.{most_nodes};

use arrayvec::ArrayVec;
use zb_base::{Config, Eui, Peer, Role};
use zb_sched::Node;

// Returns the peers of a schedule. Requires at most 64 nodes.
fn peers_of(declared: &[Node]) -> ArrayVec<Peer, 64>
    requires { length declared.now ≤ most_nodes }
    ensures { result.items ≡ map (λ node. node.peer) declared.now }
{
    let mut peers = ArrayVec::new();
    for node in declared {
        peers.push(node.peer);
    }
    peers
}

/// Makes the configuration of the node at a place. Requires the nodes of a schedule, and a place among them.
pub fn config_at(declared: &[Node], me: usize) -> Config
    requires schedule { AreOfSchedule declared.now }
    requires place { me < length declared.now }
    ensures config { IsConfig result }
    ensures setting { (p : Schedule) (s : Station) → AreNodesOf p declared.now
        → slice_get (stations (schedule_of p)) me ≡ Some s → setting_for result ≡ setting_of (schedule_of p) s.eui }
{
    let node = &declared[me];
    Config {
        me: me as u8,
        peers: peers_of(declared),
        out_block: node.out_block,
        in_block: node.in_block,
    }
}

// Returns whether a node is the centre.
fn is_centre(node: &Node) -> bool
    ensures { result ≡ is_centre node.now.peer.role }
{
    node.peer.role == Role::Centre
}

// Returns the first node that is the centre.
fn first_centre(declared: &[Node]) -> Option<&Node>
    ensures { option_copied result ≡ find (λ node. is_centre node.peer.role) declared.now }
{
    declared.iter().find(|node| is_centre(node))
}

/// Returns the EUI of the centre. Requires the nodes of a schedule.
pub fn centre_of(declared: &[Node]) -> Eui
    requires { AreOfSchedule declared.now }
    ensures { (p : Schedule) → AreNodesOf p declared.now → result.0 ≡ rules.centre_of (stations (schedule_of p)) }
{
    match first_centre(declared) {
        Some(node) => node.peer.eui,
        None => Eui(0),
    }
}
