//! A router reports a child.
ghost use Rattle.std.specs.Prelude.{◌≡◌};
ghost use Rattle.zb_base.specs.declared.place.Place.TheVariants.{Aps};
ghost use Rattle.zb_model.specs.Commands.{take_update};
ghost use Rattle.zb_centre_rules.specs.Forms.{is_update_form};
ghost use Rattle.zb_rules.specs.Hearing.{heard_of};
ghost use Rattle.zb_rules.specs.Outcomes.{decided, told, Keeps};

use zb_base::{Eui, Place};
use zb_cmd::Command;
use zb_keys::Tables;
use zb_node_types::Refusal;
use zb_rows::is_any_spent;
use zb_rules::{Effect, Heard};
use zb_send::Body;
use zb_setting::Network;

/// Returns whether the command is an Update-Device in the form in which it is taken.
fn is_update(network: &Network, heard: &Heard, status: u8) -> bool
    ensures { result ≡ is_update_form network.now (heard_of heard.now) status }
{
    network.is_centre() && heard.is_clear_or_data() && heard.is_from_router(network) && status <= 3
}

/// Takes an Update-Device of a child that joins (1) or rejoins (3). The network key goes to the child through a Tunnel
/// to the reporter. The statuses 0 and 2 ask for nothing.
///
/// # Errors
/// Policy in any other form; no key; not a member where the device isn't live; a counter is spent.
#[tactic(auto, unfolding(zb_model::specs::Commands::take_update, zb_rules::specs::Chains::steps))]
pub fn take_update(
    network: &Network,
    tables: &Tables,
    heard: &Heard,
    device: Eui,
    status: u8,
) -> Result<Effect, Refusal>
    ensures rule { decided result ≡ told
        (take_update network.now tables.now (heard_of heard.now) device.0 status) }
    ensures keeps { Keeps Aps result }
{
    if !is_update(network, heard, status) {
        return Err(Refusal::Policy { place: Place::Aps });
    }
    if !(status == 1 || status == 3) {
        return Ok(Effect::nothing());
    }
    match tables.active_row() {
        None => Err(Refusal::NoKey { place: Place::Aps }),
        Some(net) => match tables.current(device) {
            None => Err(Refusal::NotMember { place: Place::Aps }),
            Some(row) => {
                if is_any_spent(tables) {
                    return Err(Refusal::CounterSpent { place: Place::Aps });
                }
                let command = Command::TransportNetwork {
                    key: net.key,
                    sequence: net.sequence,
                    destination: device,
                    source: network.eui(),
                };
                let key = row.key;
                let body = Body::Tunnelled {
                    device,
                    key,
                    command,
                };
                Ok(Effect::of_sending(network.short_of_source(heard.nwk_source()), true, body))
            }
        },
    }
}
