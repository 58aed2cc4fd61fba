//! The groups of lines.
ghost use Rattle.std.specs.Prelude.{◌≡◌};
ghost use Rattle.zb_audit_names.specs.Groups.{same_event};

/// Returns whether a line of the second event continues the group of a line of the first.
pub fn goes_on(before: Option<u32>, event: Option<u32>) -> bool
    ensures { result ≡ same_event before event }
{
    match (before, event) {
        (Some(before), Some(event)) => before == event,
        _ => false,
    }
}
