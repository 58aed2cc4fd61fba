//! Whether further keys could show more of a frame, and whether anything about it is known yet.
ghost use Rattle.std.specs.Prelude.{◌≡◌};
ghost use Rattle.std.specs.Bool.{OnTrue};
ghost use Rattle.zb_inspect_frame.specs.Settling.{is_settled as settled, is_unopened as unopened, below_settled as below_is, inner_settled as inner_is, ShowsNoMore, ShowsNothing};

use crate::layer::{Finding, is_closed};
use crate::shown::{Below, Shown};

/// Returns whether no layer of a frame is closed. Such a frame shows the same under any further keys.
pub fn is_settled(shown: &Shown) -> bool
    ensures value { result ≡ settled shown.now }
    ensures lasting { OnTrue result (ShowsNoMore shown.now) }
{
    !is_closed(&shown.nwk) && below_settled(&shown.below)
}

/// Returns whether no key opened the NWK layer of a frame. Such a frame shows what it shows under no keys.
pub fn is_unopened(shown: &Shown) -> bool
    ensures value { result ≡ unopened shown.now }
    ensures nothing { OnTrue result (ShowsNothing shown.now) }
{
    is_closed(&shown.nwk) && shown.below.is_none()
}

fn below_settled(below: &Option<Below>) -> bool
    ensures { result ≡ below_is below.now }
{
    match below {
        None => true,
        Some(below) => !is_closed(&below.aps) && inner_settled(&below.inner),
    }
}

fn inner_settled(inner: &Option<Finding>) -> bool
    ensures { result ≡ inner_is inner.now }
{
    match inner {
        None => true,
        Some(inner) => !is_closed(inner),
    }
}
