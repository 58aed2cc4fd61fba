//! The nodes at the start, and their disks.
ghost use Rattle.std.specs.Prelude.{◌≡◌, ◌<◌, ◌≤◌, [], Some, length, slice_get, IfOk, OnOk};
ghost use Rattle.std.specs.List.{AllByRecursion};
ghost use Rattle.zb_player_start.specs.Firsts.{AreNodesOf, AreOfSchedule};
ghost use Rattle.zb_model.specs.Data.{Station};
ghost use Rattle.zb_model.specs.Play.{start, stations};
ghost use Rattle.zb_model.specs.Rules as rules;
ghost use Rattle.law_schedules.specs.Schedules.{schedule_of};
ghost use Rattle.zb_player_node.specs.Nodes.{AllStand};
ghost use Rattle.zb_sched.specs.Schedules.{Schedule};
ghost use Rattle.zb_player_start.specs.Seats.{IsSeated};
ghost use Rattle.zb_base.specs.Sizes.{record_room};

use crate::config::{centre_of, config_at};
use crate::disk::first_disk;
use crate::spare::{Spare, make_room};
use crate::starting::start_lines_say_what_is_declared;
use std::alloc::Global;
use zb_base::{Eui, NoMemory};
use zb_disk::MemDisk;
use zb_player_node::Node;
use zb_sched::Node as Declared;

// Makes the node at a place and its disk, of a used one where that is given. Requires `RECORD_ROOM` bytes of room.
fn start_node(
    alloc: Global,
    used: Option<MemDisk>,
    room: &mut [u8],
    centre: Eui,
    declared: &[Declared],
    me: usize,
) -> Result<(Node, MemDisk), NoMemory>
    requires schedule { AreOfSchedule declared.now }
    requires place { me < length declared.now }
    requires room { record_room ≤ length room.old }
    ensures { IfOk result (λ r. (p : Schedule) (s : Station) → AreNodesOf p declared.now
        → centre.0 ≡ rules.centre_of (stations (schedule_of p)) → slice_get (stations (schedule_of p)) me ≡ Some s
        → IsSeated (schedule_of p) s r.0 r.1) }
{
    let node = &declared[me];
    let config = config_at(declared, me);
    start_lines_say_what_is_declared();
    let mut disk = first_disk(alloc, used, room, centre, node)?;
    let started = Node::start(alloc, node.peer, config, &mut disk)?;
    Ok((started, disk))
}

/// Makes the nodes of a schedule, each booted from its first record on a disk of its own.
///
/// The nodes are in the order of the schedule. The disks are added to those given, which are none. They are made of
/// spare ones, as long as there are any. Requires the nodes of a schedule.
///
/// # Errors
/// `NoMemory`.
pub fn start_nodes(
    alloc: Global,
    declared: &[Declared],
    spare: &mut Spare,
    disks: &mut Vec<MemDisk>,
) -> Result<Vec<Node>, NoMemory>
    requires schedule { AreOfSchedule declared.now }
    requires empty { disks.old.items ≡ [] }
    ensures stand { IfOk result (λ nodes. (p : Schedule) → AreNodesOf p declared.now
        → AllStand (schedule_of p) (start (schedule_of p)) [] 1 (stations (schedule_of p))
        nodes.items disks.new.items) }
    ensures nodes { IfOk result (λ nodes. length nodes.items ≡ length declared.now) }
    ensures disks { OnOk result (length disks.new.items ≡ length declared.now) }
    ensures calls { OnOk result (AllByRecursion (λ m. m.calls ≡ 6) disks.new.items) }
{
    make_room(&mut spare.room)?;
    let centre = centre_of(declared);
    let mut nodes = Vec::with_capacity(alloc, declared.len())?;
    for me in 0..declared.len() {
        let (node, disk) = start_node(
            alloc,
            spare.disks.pop(),
            &mut spare.room,
            centre,
            declared,
            me,
        )?;
        nodes.push(node)?;
        disks.push(disk)?;
    }
    Ok(nodes)
}
