//! The one event that all nodes have: `say`, which sends application data.
ghost use Rattle.std.specs.Prelude.{◌≡◌, ℕ, IfErr, Some, true};
ghost use Rattle.zb_base.specs.declared.place.Place.TheVariants.{Event};
ghost use Rattle.zb_model.specs.Data.{Bytes};
ghost use Rattle.zb_node_types.specs.Changes.{model_state, place_of};
ghost use Rattle.zb_model.specs.OwnEvents.{say};
ghost use Rattle.zb_model.specs.Rules.{in_rejoining};
ghost use Rattle.zb_rules.specs.Outcomes.{told, decided, Keeps};
ghost use Rattle.zb_rules.specs.Saying.{said};
ghost use Rattle.zb_send.specs.declared.sending.Body.TheVariants.{Saying as SayingBody};

use crate::{Effect, sending};
use zb_base::{Layer, Place, Short, State};
use zb_node_types::Refusal;
use zb_row_changes::{Tables, is_spent, usable_active};
use zb_send::{Body, Payload, Sending};

/// Returns whether a node in that state is waiting to be admitted again.
pub fn is_rejoining(state: State) -> bool
    ensures { result ≡ in_rejoining (model_state state) }
{
    matches!(state, State::Rejoining)
}

/// Checks that a node may send application data.
///
/// # Errors
/// - No key, if there is no usable active network key.
/// - Wrong state, if the node is rejoining.
/// - Counter spent, if the NWK counter is spent.
#[tactic(auto, unfolding(zb_model::specs::OwnEvents::say, crate::specs::Chains::steps))]
pub fn may_say(tables: &Tables) -> Result<(), Refusal>
    ensures rule { (to : ℕ) (bytes : Bytes) → said result to bytes ≡ told (say tables.now to bytes) }
    ensures place { IfErr result (λ refusal. place_of refusal ≡ Event) }
{
    if usable_active(tables).is_none() {
        return Err(Refusal::NoKey {
            place: Place::Event,
        });
    }
    if is_rejoining(tables.state()) {
        return Err(Refusal::WrongState {
            place: Place::Event,
        });
    }
    if is_spent(tables, Layer::Nwk) {
        return Err(Refusal::CounterSpent {
            place: Place::Event,
        });
    }
    Ok(())
}

/// Returns application data to a short address as a data frame, without APS security.
pub fn sending_data(to: Short, bytes: Payload) -> Option<Sending>
    ensures { result ≡ Some (record { to = to; secured = true; body = SayingBody bytes }) }
{
    sending(to, true, Body::Saying { bytes })
}

/// Sends application data to a short address, as a data frame without APS security.
///
/// # Errors
/// The errors of `may_say`.
pub fn say(tables: &Tables, to: Short, bytes: Payload) -> Result<Effect, Refusal>
    ensures rule { decided result ≡ told (say tables.now to.0 bytes.items) }
    ensures keeps { Keeps Event result }
{
    match may_say(tables) {
        Err(refusal) => Err(refusal),
        Ok(()) => Ok(Effect::of_sending(to, true, Body::Saying { bytes })),
    }
}
