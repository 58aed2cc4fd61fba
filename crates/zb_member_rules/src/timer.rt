//! The next step of the exchange of link keys with the centre.
ghost use Rattle.std.specs.Prelude.{◌≡◌};
ghost use Rattle.zb_base.specs.declared.place.Place.TheVariants.{Event};
ghost use Rattle.zb_model.specs.OwnEvents.{member_timer, request_key, verify_key};
ghost use Rattle.zb_model_real.specs.Real.{real};
ghost use Rattle.zb_rules.specs.Outcomes.{decided, told, Keeps};

use zb_base::{Label, Layer, Place, Short, State};
use zb_cmd::Command;
use zb_keys::Tables;
use zb_mmo::verify_hash;
use zb_node_types::Refusal;
use zb_rows::{is_any_spent, is_spent, usable_active};
use zb_rules::Effect;
use zb_send::Body;
use zb_setting::Network;

/// Asks for a link key of its own: Request-Key of type 4, sealed under the current row of the centre.
#[tactic(auto, unfolding(zb_model::specs::OwnEvents::request_key, zb_rules::specs::Chains::steps))]
fn request_key(network: &Network, tables: &Tables) -> Result<Effect, Refusal>
    ensures rule { decided result ≡ told (request_key network.now tables.now) }
    ensures keeps { Keeps Event result }
{
    match tables.current(network.centre()) {
        None => Err(Refusal::NoKey {
            place: Place::Event,
        }),
        Some(row) => {
            if is_any_spent(tables) {
                return Err(Refusal::CounterSpent {
                    place: Place::Event,
                });
            }
            Ok(Effect::of_sending(
                Short(0),
                true,
                Body::Secret {
                    label: Label::Data,
                    key: row.key,
                    command: Command::RequestLink,
                },
            ))
        }
    }
}

/// Proves that it holds the offered key: Verify-Key with the hash of that key, in clear at APS.
#[tactic(auto, unfolding(zb_model::specs::OwnEvents::verify_key, zb_rules::specs::Chains::steps_with_tools))]
fn verify_key(network: &Network, tables: &Tables) -> Result<Effect, Refusal>
    ensures rule { decided result ≡ told (verify_key real network.now tables.now) }
    ensures keeps { Keeps Event result }
{
    match tables.offered(network.centre()) {
        None => Err(Refusal::NoKey {
            place: Place::Event,
        }),
        Some(row) => {
            if is_spent(tables, Layer::Nwk) {
                return Err(Refusal::CounterSpent {
                    place: Place::Event,
                });
            }
            Ok(Effect::of_sending(
                Short(0),
                true,
                Body::Clear {
                    control: 1,
                    command: Command::Verify {
                        kind: 4,
                        source: network.eui(),
                        hash: verify_hash(&row.key),
                    },
                },
            ))
        }
    }
}

/// Takes the next step of the exchange of keys with the centre. Joined: Request-Key. Offered: Verify-Key with the hash
/// of the offered key.
///
/// # Errors
/// - No key without a usable active network key, or in joined without a current row of the centre.
/// - Wrong state in confirmed and rejoining.
/// - Counter spent where a counter is that the frame needs.
#[tactic(auto, unfolding(zb_model::specs::OwnEvents::member_timer, zb_rules::specs::Chains::steps))]
pub fn member_timer(network: &Network, tables: &Tables) -> Result<Effect, Refusal>
    ensures rule { decided result ≡ told (member_timer real network.now tables.now) }
    ensures keeps { Keeps Event result }
{
    if usable_active(tables).is_none() {
        return Err(Refusal::NoKey {
            place: Place::Event,
        });
    }
    match tables.state() {
        State::Joined => request_key(network, tables),
        State::Offered => verify_key(network, tables),
        State::Fresh | State::Knocked | State::Confirmed | State::Rejoining | State::Gone => {
            Err(Refusal::WrongState {
                place: Place::Event,
            })
        }
    }
}
