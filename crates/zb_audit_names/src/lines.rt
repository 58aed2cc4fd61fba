//! The node and the event of a line.
ghost use Rattle.std.specs.Prelude.{◌≡◌};
ghost use Rattle.std.specs.Option.{option_map};
ghost use Rattle.arrayvec.specs.ArrayString.{ArrayString};
ghost use Rattle.zb_audit_names.specs.Groups.{event_of};
ghost use Rattle.zb_audit_names.specs.Naming as naming;

use zb_base::Name;
use zb_trace::Line;

/// Returns the name of the node of a line, if it names one. The sender of a frame doesn't count.
#[tactic(auto, unfolding(crate::specs::Naming::speaker))]
pub fn speaker(line: &Line) -> Option<Name>
    ensures { option_map (λ (name : ArrayString). name.bytes) result ≡ naming.speaker line.now }
{
    match line {
        Line::Node { name, .. } => Some(*name),
        Line::GivenNet { node, .. } => Some(*node),
        Line::GivenLink { node, .. } => Some(*node),
        Line::Counter { node, .. } => Some(*node),
        Line::Reserve { node, .. } => Some(*node),
        Line::Floor { node, .. } => Some(*node),
        Line::DropNet { node, .. } => Some(*node),
        Line::DropLink { node, .. } => Some(*node),
        Line::Install { node, .. } => Some(*node),
        Line::Active { node, .. } => Some(*node),
        Line::Start { node, .. } => Some(*node),
        Line::Row { node, .. } => Some(*node),
        Line::Pair { node, .. } => Some(*node),
        Line::State { node, .. } => Some(*node),
        Line::Roll { node, .. } => Some(*node),
        Line::Commit { node, .. } => Some(*node),
        Line::Accept { node, .. } => Some(*node),
        Line::Refuse { node, .. } => Some(*node),
        Line::Seal { node, .. } => Some(*node),
        Line::Stopped { node, .. } => Some(*node),
        Line::DownReset { node, .. } => Some(*node),
        Line::DownDisk { node, .. } => Some(*node),
        Line::Boot { node, .. } => Some(*node),
        Line::Dump { node, .. } => Some(*node),
        Line::Draw { .. } => None,
        Line::Live { .. } => None,
        Line::Removed { .. } => None,
        Line::Told { .. } => None,
        Line::Untold { .. } => None,
        Line::Forge { .. } => None,
        Line::Send { .. } => None,
        Line::Inject { .. } => None,
        Line::End { .. } => None,
    }
}

/// Returns the number of a line's event: 0 at the start, `None` for the end line.
#[tactic(auto, unfolding(crate::specs::Groups::event_of))]
pub fn event(line: &Line) -> Option<u32>
    ensures { result ≡ event_of line.now }
{
    match line {
        Line::Node { .. } => Some(0),
        Line::GivenNet { .. } => Some(0),
        Line::GivenLink { .. } => Some(0),
        Line::Counter { .. } => Some(0),
        Line::Reserve { event, .. } => Some(*event),
        Line::Floor { event, .. } => Some(*event),
        Line::Draw { event, .. } => Some(*event),
        Line::DropNet { event, .. } => Some(*event),
        Line::DropLink { event, .. } => Some(*event),
        Line::Install { event, .. } => Some(*event),
        Line::Active { event, .. } => Some(*event),
        Line::Start { event, .. } => Some(*event),
        Line::Row { event, .. } => Some(*event),
        Line::Pair { event, .. } => Some(*event),
        Line::State { event, .. } => Some(*event),
        Line::Live { event, .. } => Some(*event),
        Line::Removed { event, .. } => Some(*event),
        Line::Roll { event, .. } => Some(*event),
        Line::Told { event, .. } => Some(*event),
        Line::Untold { event, .. } => Some(*event),
        Line::Commit { event, .. } => Some(*event),
        Line::Accept { event, .. } => Some(*event),
        Line::Refuse { event, .. } => Some(*event),
        Line::Seal { event, .. } => Some(*event),
        Line::Forge { event, .. } => Some(*event),
        Line::Send { event, .. } => Some(*event),
        Line::Inject { event, .. } => Some(*event),
        Line::Stopped { event, .. } => Some(*event),
        Line::DownReset { event, .. } => Some(*event),
        Line::DownDisk { event, .. } => Some(*event),
        Line::Boot { event, .. } => Some(*event),
        Line::Dump { event, .. } => Some(*event),
        Line::End { .. } => None,
    }
}
