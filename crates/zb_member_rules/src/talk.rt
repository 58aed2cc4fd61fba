//! A key with a partner is asked for, and application data goes out under it.
ghost use Rattle.std.specs.Prelude.{◌≡◌};
ghost use Rattle.zb_base.specs.declared.place.Place.TheVariants.{Event};
ghost use Rattle.zb_node_types.specs.Changes.{model_state};
ghost use Rattle.zb_model.specs.OwnEvents.{ask, tell};
ghost use Rattle.zb_model.specs.Rules.{in_confirmed};
ghost use Rattle.zb_rules.specs.Outcomes.{decided, told, Keeps};

use zb_base::{Eui, Label, Place, Short, State};
use zb_cmd::Command;
use zb_keys::Tables;
use zb_node_types::Refusal;
use zb_rows::{is_any_spent, live_link, usable_active};
use zb_rules::{Effect, is_rejoining};
use zb_send::{Body, Payload};
use zb_setting::Network;

/// Returns whether the centre has confirmed the node's link key.
fn is_confirmed(state: State) -> bool
    ensures { result ≡ in_confirmed (model_state state) }
{
    matches!(state, State::Confirmed)
}

/// Asks the centre for a key with a partner.
///
/// It is a Request-Key of type 2, sealed under the current row of the centre.
///
/// # Errors
/// - No key without a usable active network key or a current row of the centre.
/// - Wrong state unless confirmed.
/// - Counter spent where one of the two counters is.
#[tactic(auto, unfolding(zb_model::specs::OwnEvents::ask, zb_rules::specs::Chains::steps))]
pub fn ask(network: &Network, tables: &Tables, partner: Eui) -> Result<Effect, Refusal>
    ensures rule { decided result ≡ told (ask network.now tables.now partner.0) }
    ensures keeps { Keeps Event result }
{
    if usable_active(tables).is_none() {
        return Err(Refusal::NoKey {
            place: Place::Event,
        });
    }
    match tables.current(network.centre()) {
        None => Err(Refusal::NoKey {
            place: Place::Event,
        }),
        Some(row) => {
            if !is_confirmed(tables.state()) {
                return Err(Refusal::WrongState {
                    place: Place::Event,
                });
            }
            if is_any_spent(tables) {
                return Err(Refusal::CounterSpent {
                    place: Place::Event,
                });
            }
            Ok(Effect::of_sending(
                Short(0),
                true,
                Body::Secret {
                    label: Label::Data,
                    key: row.key,
                    command: Command::RequestApplication { partner },
                },
            ))
        }
    }
}

/// Sends application data to a partner, sealed under the key that is shared with it.
///
/// # Errors
/// - No key without a usable active network key or a live row of the partner.
/// - Wrong state in rejoining.
/// - Counter spent where one of the two counters is.
#[tactic(auto, unfolding(zb_model::specs::OwnEvents::tell, zb_rules::specs::Chains::steps))]
pub fn tell(
    network: &Network,
    tables: &Tables,
    partner: Eui,
    bytes: Payload,
) -> Result<Effect, Refusal>
    ensures rule { decided result ≡ told (tell network.now tables.now partner.0 bytes.items) }
    ensures keeps { Keeps Event result }
{
    if usable_active(tables).is_none() {
        return Err(Refusal::NoKey {
            place: Place::Event,
        });
    }
    match live_link(tables, partner) {
        None => Err(Refusal::NoKey {
            place: Place::Event,
        }),
        Some(row) => {
            if is_rejoining(tables.state()) {
                return Err(Refusal::WrongState {
                    place: Place::Event,
                });
            }
            if is_any_spent(tables) {
                return Err(Refusal::CounterSpent {
                    place: Place::Event,
                });
            }
            let key = row.key;
            Ok(Effect::of_sending(
                network.short_of(partner),
                true,
                Body::Telling { key, bytes },
            ))
        }
    }
}
