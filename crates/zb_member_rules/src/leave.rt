//! A Leave: the one NWK command that is taken.
ghost use Rattle.std.specs.Prelude.{◌≡◌};
ghost use Rattle.zb_base.specs.declared.place.Place.TheVariants.{Nwk};
ghost use Rattle.zb_member_rules.specs.Forms.{leave_from};
ghost use Rattle.zb_model.specs.Commands.{asks_to_go};
ghost use Rattle.zb_rules.specs.Outcomes.{decided, told, Keeps};

use arrayvec::ArrayVec;
use zb_base::{Eui, Place, State};
use zb_node_types::{Change, Refusal};
use zb_rules::{Effect, add};
use zb_setting::Network;

/// Returns whether the options of a Leave ask the receiver itself to go: bit 6.
fn asks_to_go(options: u8) -> bool
    ensures { result ≡ asks_to_go options }
{
    options / 64 % 2 == 1
}

/// Takes a Leave from a sender: the node is gone.
///
/// # Errors
/// Policy unless this is a router or device, and the Leave is from the centre or a router and asks it to go.
#[tactic(auto, unfolding(zb_model::specs::Commands::take_leave, zb_rules::specs::Chains::steps))]
pub fn take_leave(network: &Network, sender: Eui, options: u8) -> Result<Effect, Refusal>
    ensures rule { decided result ≡ told (leave_from network.now sender.0 options) }
    ensures keeps { Keeps Nwk result }
{
    let is_from_parent = network.from_centre(sender) || network.acts_as_router(sender);
    if network.is_centre() || !is_from_parent || !asks_to_go(options) {
        return Err(Refusal::Policy { place: Place::Nwk });
    }
    let mut changes = ArrayVec::new();
    add(&mut changes, Change::State { state: State::Gone });
    Ok(Effect::of_changes(changes))
}
