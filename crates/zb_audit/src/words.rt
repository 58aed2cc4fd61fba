//! The two words of the end line, if nodes are identified by names.
ghost use Rattle.std.specs.Prelude.{◌≡◌, IfOk, Some, None, if◌then◌else◌};
ghost use Rattle.std.specs.Option.{option_map};
ghost use Rattle.zb_audit.specs.Words as words;
ghost use Rattle.zb_audit_names.specs.Secrets.{ideal as ideal_of, private as private_of};
ghost use Rattle.zb_audit_names.specs.declared.node.Node.{Node as AnyNode};
ghost use Rattle.zb_model.specs.Tools.{Tools};
ghost use Rattle.zb_trace_watch.specs.Standing.{FindKeys};

use crate::auditor::Auditor;
use std::alloc::Global;
use zb_audit_names::{Node, Who};
use zb_base::{Eui, NoMemory, Role};
use zb_trace::Line;
use zb_trace_watch::Speaker;

/// Returns whether everything that these lines accept or install came from earlier terms.
///
/// # Errors
/// `NoMemory`, if memory runs out.
pub fn ideal(alloc: Global, lines: &[Line]) -> Result<bool, NoMemory>
    ensures { IfOk result (λ word. (tools : Tools) → FindKeys tools → word ≡ ideal_of tools lines.now) }
{
    let auditor = Auditor::over(alloc, lines)?;
    Ok(auditor.words.ideal())
}

/// Returns whether outsiders forged, by these lines, only under keys that they may know, and passed on no network
/// key.
///
/// # Errors
/// `NoMemory`, if memory runs out.
pub fn private(alloc: Global, lines: &[Line]) -> Result<bool, NoMemory>
    ensures { IfOk result (λ word. (tools : Tools) → FindKeys tools → word ≡ private_of tools lines.now) }
{
    let auditor = Auditor::over(alloc, lines)?;
    Ok(auditor.words.private())
}

/// Returns the node of a line for the two words, identified by the place of its name.
pub fn seen(who: Who) -> Speaker
    ensures { result ≡ words.seen who }
{
    let number = who.place as u64;
    Speaker {
        number: Some(number),
        joiner: joiner(who.node, number),
        address: address(who.node),
        is_centre: who.is_centre,
    }
}

/// Returns the number of a node, if it was declared as a router or device.
fn joiner(node: Option<Node>, number: u64) -> Option<u64>
    ensures { result ≡ (if words.is_joining node then Some number else None) }
{
    if joins(node) { Some(number) } else { None }
}

/// Returns the address of a node, if it was declared.
fn address(node: Option<Node>) -> Option<Eui>
    ensures { result ≡ option_map (λ (n : AnyNode). n.eui) node }
{
    match node {
        Some(node) => Some(node.eui),
        None => None,
    }
}

/// Returns whether a node was declared as a router or device.
fn joins(node: Option<Node>) -> bool
    ensures { result ≡ words.is_joining node }
{
    match node {
        Some(node) => node.role != Role::Centre,
        None => false,
    }
}
