//! The rule of each command at the centre.
ghost use Rattle.std.specs.Prelude.{◌≡◌, option_map, true};
ghost use Rattle.zb_base.specs.declared.place.Place.TheVariants.{Aps};
ghost use Rattle.zb_model.specs.Commands.{take_command};
ghost use Rattle.zb_model.specs.State.{is_centre};
ghost use Rattle.zb_model_real.specs.Readers.{model_command};
ghost use Rattle.zb_model_real.specs.Real.{real};
ghost use Rattle.zb_rules.specs.Hearing.{heard_of};
ghost use Rattle.zb_rules.specs.Outcomes.{decided, told, Keeps};

use crate::{take_app_request, take_request, take_update, take_verify};
use zb_base::{Key, Place};
use zb_cmd::Command;
use zb_keys::Tables;
use zb_node_types::Refusal;
use zb_rules::{Effect, Heard};
use zb_setting::Network;

/// Refuses a command that routers and devices alone take.
fn not_taken() -> Result<Effect, Refusal>
    ensures { result ≡ Err (Refusal.Policy Aps) }
{
    Err(Refusal::Policy { place: Place::Aps })
}

/// Takes a command at the centre. `draw`: the next key of the supply.
///
/// Requires the centre.
///
/// # Errors
/// Those of the rule of each command; policy for a command that routers and devices alone take.
#[tactic(auto, unfolding(crate::specs::Refused::commands_of_members))]
pub fn take_command(
    network: &Network,
    tables: &Tables,
    heard: &Heard,
    command: &Command,
    draw: Option<Key>,
) -> Result<Effect, Refusal>
    requires centre { is_centre network.now.me.role ≡ true }
    ensures rule { decided result ≡ told (take_command real network.now tables.now (option_map (λ k. k.0) draw)
        (heard_of heard.now) (model_command command.now)) }
    ensures keeps { Keeps Aps result }
{
    match command {
        Command::TransportNetwork { .. } => not_taken(),
        Command::TransportApplication { .. } => not_taken(),
        Command::TransportLink { .. } => not_taken(),
        Command::Update { device, status, .. } => take_update(
            network, tables, heard, *device, *status,
        ),
        Command::Remove { .. } => not_taken(),
        Command::RequestApplication { partner } => take_app_request(
            network, tables, heard, draw, *partner,
        ),
        Command::RequestLink => take_request(network, tables, heard, draw),
        Command::Switch { .. } => not_taken(),
        Command::Tunnel { .. } => not_taken(),
        Command::Verify { kind, source, hash } => take_verify(
            network, tables, heard, *kind, *source, hash,
        ),
        Command::Confirm { .. } => not_taken(),
    }
}
