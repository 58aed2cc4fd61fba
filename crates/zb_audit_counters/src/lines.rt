//! What a line is in its group.
ghost use Rattle.std.specs.Prelude.{◌≡◌, ◌||◌};
ghost use Rattle.zb_audit_names.specs.Groups as declared;
ghost use Rattle.zb_audit_counters.specs.Counting as counting;
ghost use Rattle.zb_audit_counters.specs.Standing.{counts};

use zb_trace::Line;

/// Returns whether a line's event is that of the group.
pub fn continues(group: Option<u32>, event: Option<u32>) -> bool
    ensures { result ≡ declared.same_event group event }
{
    match (group, event) {
        (Some(event), Some(other)) => event == other,
        _ => false,
    }
}

/// Returns whether an event is cut short at this line, or was before.
pub fn is_cut(before: bool, line: &Line) -> bool
    ensures { result ≡ (before || counting.cuts line.now) }
{
    match line {
        Line::Stopped { .. } => true,
        Line::DownDisk { .. } => true,
        _ => before,
    }
}

/// Returns whether a line says something about its node's counters.
pub fn counts(line: &Line) -> bool
    ensures { result ≡ counts line.now }
{
    matches!(
        line,
        Line::Counter { .. }
            | Line::GivenNet { .. }
            | Line::Active { .. }
            | Line::Start { .. }
            | Line::Reserve { .. }
            | Line::Seal { .. }
            | Line::Accept { .. }
            | Line::Floor { .. }
            | Line::Boot { .. }
    )
}
