//! The centre is the parent of a device that joins.
ghost use Rattle.std.specs.Prelude.{◌≡◌};
ghost use Rattle.zb_base.specs.declared.place.Place.TheVariants.{Event};
ghost use Rattle.zb_model.specs.OwnEvents.{child_of_centre};
ghost use Rattle.zb_rules.specs.Outcomes.{decided, told, Keeps};

use zb_base::{Eui, Label, Layer, Place};
use zb_cmd::Command;
use zb_keys::Tables;
use zb_node_types::Refusal;
use zb_rows::is_spent;
use zb_rules::Effect;
use zb_send::Body;
use zb_setting::Network;

/// Hands the active network key to a device that joins or rejoins under the centre. The key is sealed for transport
/// under the device's current row, in an unsecured NWK frame.
///
/// # Errors
/// No key without an active network key; not a member where the device isn't live; the APS counter is spent.
#[tactic(auto, unfolding(zb_model::specs::OwnEvents::child_of_centre, zb_rules::specs::Chains::steps))]
pub fn child_of_centre(network: &Network, tables: &Tables, child: Eui) -> Result<Effect, Refusal>
    ensures rule { decided result ≡ told (child_of_centre network.now tables.now child.0) }
    ensures keeps { Keeps Event result }
{
    match tables.active_row() {
        None => Err(Refusal::NoKey {
            place: Place::Event,
        }),
        Some(net) => match tables.current(child) {
            None => Err(Refusal::NotMember {
                place: Place::Event,
            }),
            Some(row) => {
                if is_spent(tables, Layer::Aps) {
                    return Err(Refusal::CounterSpent {
                        place: Place::Event,
                    });
                }
                let command = Command::TransportNetwork {
                    key: net.key,
                    sequence: net.sequence,
                    destination: child,
                    source: network.eui(),
                };
                Ok(Effect::of_sending(
                    network.short_of(child),
                    false,
                    Body::Secret {
                        label: Label::Transport,
                        key: row.key,
                        command,
                    },
                ))
            }
        },
    }
}
