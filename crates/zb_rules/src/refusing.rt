//! The refusal of a rule when the tables refuse the change.
ghost use Rattle.std.specs.Prelude.{◌≡◌};
ghost use Rattle.zb_node_types.specs.Changes.{place_of, reason};
ghost use Rattle.zb_row_changes.specs.Planned.{reason_of};

use zb_base::Place;
use zb_node_types::{KeyError, Refusal};

/// Returns the refusal of an event at a place, from the reason why the tables refuse a change.
pub fn refused(place: Place, error: KeyError) -> Refusal
    ensures reason { reason result ≡ reason_of error }
    ensures place { place_of result ≡ place }
{
    match error {
        KeyError::KeyOld { place: at } => Refusal::KeyOld { place, at },
        KeyError::KeysFull => Refusal::KeysFull { place },
        KeyError::RowsFull => Refusal::RowsFull { place },
        KeyError::KeyInUse { partner } => Refusal::KeyInUse { place, partner },
        KeyError::NoRow => Refusal::WrongState { place },
        KeyError::WrongHash => Refusal::WrongHash { place },
        KeyError::BadRecord { .. } => Refusal::Malformed { place },
    }
}
