//! The questions that rules ask about the floors of senders.
ghost use Rattle.std.specs.Prelude.{◌≡◌, filter, length, map, nat_eq, not};
ghost use Rattle.zb_record.specs.RowViews.{heard_floor, net_key};
ghost use Rattle.zb_model.specs.Judging.{senders_full};

use zb_base::Eui;
use zb_keys::{NetRow, SenderFloor, floor_of};

/// Returns whether a row has no room for the floor that an accepted counter of a sender needs.
///
/// The counter isn't below the stored floor, and 64 other senders have floors.
pub fn is_full_for(row: &NetRow, sender: Eui, counter: u32) -> bool
    ensures { result ≡ senders_full sender.0 counter (net_key row.now) }
{
    floor_of(row, sender).stored <= counter && count_others(row.floors.as_slice(), sender) >= 64
}

/// Counts the floors of other senders, in the model's form.
#[tactic(auto, using(zb_record::proofs::Lists::count_map))]
fn count_others(floors: &[SenderFloor], sender: Eui) -> usize
    ensures { result ≡ length (filter (λ f. not (nat_eq f.sender sender.0)) (map heard_floor floors.now)) }
{
    others_in(floors, sender)
}

/// Counts the floors of other senders.
fn others_in(floors: &[SenderFloor], sender: Eui) -> usize
    ensures { result ≡ length (filter (λ f. not (nat_eq (heard_floor f).sender sender.0)) floors.now) }
{
    let mut count = 0;
    for floor in floors {
        if floor.sender.0 != sender.0 {
            count += 1;
        }
    }
    count
}
