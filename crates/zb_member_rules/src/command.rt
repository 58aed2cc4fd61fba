//! The rule of each command at a router or device.
ghost use Rattle.std.specs.Prelude.{◌≡◌, Option, false};
ghost use Rattle.zb_base.specs.declared.place.Place.TheVariants.{Aps};
ghost use Rattle.zb_cmd.specs.Shape.{IsSmall};
ghost use Rattle.zb_model.specs.Commands.{take_command};
ghost use Rattle.zb_model.specs.Data.{Bytes};
ghost use Rattle.zb_model.specs.State.{is_centre};
ghost use Rattle.zb_model_real.specs.Readers.{model_command};
ghost use Rattle.zb_model_real.specs.Real.{real};
ghost use Rattle.zb_rules.specs.Hearing.{heard_of};
ghost use Rattle.zb_rules.specs.Outcomes.{decided, told, Keeps};

use crate::{
    take_app_key, take_confirm, take_link_key, take_net_key, take_remove, take_switch, take_tunnel,
};
use zb_base::Place;
use zb_cmd::Command;
use zb_keys::Tables;
use zb_node_types::Refusal;
use zb_rules::{Effect, Heard};
use zb_setting::Network;

/// Refuses a command that the centre alone takes.
fn not_taken() -> Result<Effect, Refusal>
    ensures { result ≡ Err (Refusal.Policy Aps) }
{
    Err(Refusal::Policy { place: Place::Aps })
}

/// Takes a command at a router or device.
///
/// Requires a node that isn't the centre, and a Tunnel whose frame fits one.
///
/// # Errors
/// Those of the rule of each command; policy for a command that the centre alone takes.
#[tactic(auto, unfolding(crate::specs::Refused::commands_of_the_centre))]
pub fn take_command(
    network: &Network,
    tables: &Tables,
    heard: &Heard,
    command: &Command,
) -> Result<Effect, Refusal>
    requires member { is_centre network.now.me.role ≡ false }
    requires small { IsSmall command.now }
    ensures rule { (draw : Option Bytes) → decided result ≡ told (take_command real network.now tables.now draw
        (heard_of heard.now) (model_command command.now)) }
    ensures keeps { Keeps Aps result }
{
    match command {
        Command::TransportNetwork {
            key,
            sequence,
            destination,
            source,
        } => take_net_key(
            network,
            tables,
            heard,
            key,
            *sequence,
            *destination,
            *source,
        ),
        Command::TransportApplication { key, partner, .. } => take_app_key(
            network, tables, heard, key, *partner,
        ),
        Command::TransportLink {
            key,
            destination,
            source,
        } => take_link_key(network, tables, heard, key, *destination, *source),
        Command::Update { .. } => not_taken(),
        Command::Remove { target } => take_remove(network, tables, heard, *target),
        Command::RequestApplication { .. } => not_taken(),
        Command::RequestLink => not_taken(),
        Command::Switch { sequence } => take_switch(network, tables, heard, *sequence),
        Command::Tunnel { destination, inner } => take_tunnel(
            network,
            tables,
            heard,
            *destination,
            inner,
        ),
        Command::Verify { .. } => not_taken(),
        Command::Confirm {
            status,
            kind,
            destination,
        } => take_confirm(network, tables, heard, *status, *kind, *destination),
    }
}
