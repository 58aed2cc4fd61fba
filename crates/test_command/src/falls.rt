//! Stops and failures of a disk at each device call of each event that stores something.
use crate::runs::{add, over};
use crate::steps::{DECLARATIONS, EVENTS, STEPS, Step};
use std::process::Abort;
use std::thread::Threads;
use zb_command::Status;

/// Something that is armed on the disk of a node.
#[derive(Clone, Copy)]
struct Arming {
    /// The schedule's line before the node's name, and the transcript's line before and after it when that happens.
    words: [&'static [u8]; 3],
    /// The schedule's line after the node's name.
    behind: &'static [u8],
    /// Whether the changes are stored, if it happens at an entry.
    stands: bool,
}

const STOP: [&[u8]; 3] = [b"stop ", b" stopped ", b"\n"];

const FAIL: [&[u8]; 3] = [b"fail ", b" down ", b" disk\n"];

/// What is armed. An entry is stored if three calls succeeded before a stop and its gate is then read as open, and if
/// only its last call fails.
const ARMINGS: [([&[u8]; 3], &[u8], bool); 12] = [
    (STOP, b" 0 00\n", false),
    (STOP, b" 0 A5\n", false),
    (STOP, b" 1 00\n", false),
    (STOP, b" 1 A5\n", false),
    (STOP, b" 2 00\n", false),
    (STOP, b" 2 A5\n", false),
    (STOP, b" 3 00\n", false),
    (STOP, b" 3 A5\n", true),
    (FAIL, b" 1\n", false),
    (FAIL, b" 2\n", false),
    (FAIL, b" 3\n", false),
    (FAIL, b" 4\n", true),
];

/// Returns the schedule in which something is armed before an event, with a boot and a dump after it.
fn schedule_of(rt: &(impl AllocGlobal + Abort), step: &Step, arming: &Arming) -> Vec<u8> {
    let node = step.node;
    let [armed, _, _] = arming.words;
    let mut text = Vec::new(rt.alloc());
    add(rt, &mut text, &[DECLARATIONS]);
    add(rt, &mut text, &EVENTS[..step.before.min(20)]);
    add(rt, &mut text, &[armed, node, arming.behind, step.event]);
    add(rt, &mut text, &[b"boot ", node, b"\ndump ", node, b"\n"]);
    text
}

/// Returns the end of its transcript.
fn end_of(rt: &(impl AllocGlobal + Abort), step: &Step, arming: &Arming) -> Vec<u8> {
    let [_, before, behind] = arming.words;
    let (stored, end) = if arming.stands {
        (step.stored, step.kept)
    } else {
        (b"".as_slice(), step.lost)
    };
    let mut text = Vec::new(rt.alloc());
    add(rt, &mut text, &[stored, step.number, before, step.node]);
    add(rt, &mut text, &[behind, end]);
    text
}

/// Returns whether what is armed before an event happens in it and leaves what it should.
fn falls<H: AllocGlobal + Threads + Sync + Abort>(rt: &H, step: &Step, arming: &Arming) -> bool {
    let ran = over(
        rt,
        &["play"],
        schedule_of(rt, step, arming).as_slice(),
        &[],
        &[],
    );
    let wanted = end_of(rt, step, arming);
    ran.status == Status::Ok && ran.sink.taken().ends_with(wanted.as_slice())
}

#[test]
fn a_stop_or_a_failure_leaves_the_record_before_or_after(rt: HostRuntime) {
    for step in &STEPS {
        for (words, behind, stands) in ARMINGS {
            let arming = Arming {
                words,
                behind,
                stands,
            };
            assert!(rt; falls(&rt, step, &arming));
        }
    }
}
