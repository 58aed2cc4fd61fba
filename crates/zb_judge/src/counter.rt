//! The counter of a delivered frame, by the floor of its sender.
ghost use Rattle.std.specs.Prelude.{◌≡◌, OnOk, false, nat_le, nat_lt};
ghost use Rattle.zb_judge.specs.Verdicts.{counted, judged};
ghost use Rattle.zb_model.specs.State.{greatest_counter};
ghost use Rattle.zb_node_types.specs.Changes.{model_place};

use zb_base::Place;
use zb_counter::{Floor, Judge};
use zb_node_types::Refusal;
use zb_setting::Network;

/// Judges the counter of a frame by the floor of its sender.
///
/// # Errors
///
/// The greatest counter, and then a counter below the floor.
pub(crate) fn check_counter(
    network: &Network,
    place: Place,
    floor: Floor,
    counter: u32,
) -> Result<(), Refusal>
    ensures verdict { judged (λ _. tt) result ≡ counted (model_place place) floor.kept counter }
    ensures last { OnOk result (nat_le greatest_counter counter ≡ false) }
    ensures stale { OnOk result (nat_lt counter floor.kept ≡ false) }
{
    match floor.judge(counter, network.in_block()) {
        Judge::Fresh { .. } => Ok(()),
        Judge::Stale { floor } => Err(Refusal::Stale { place, floor }),
        Judge::Max => Err(Refusal::CounterMax { place }),
    }
}
