//! A link key with a partner comes.
ghost use Rattle.std.specs.Prelude.{◌≡◌};
ghost use Rattle.zb_base.specs.declared.place.Place.TheVariants.{Aps};
ghost use Rattle.zb_model.specs.Commands.{take_app_key};
ghost use Rattle.zb_member_rules.specs.Forms.{is_app_key_form};
ghost use Rattle.zb_rules.specs.Hearing.{heard_of};
ghost use Rattle.zb_rules.specs.Outcomes.{decided, told, Keeps};

use zb_base::{Eui, Key, Label, Place};
use zb_keys::Tables;
use zb_node_types::Refusal;
use zb_rules::{Effect, Heard, is_rejoining, refused};
use zb_setting::Network;

/// Returns whether the command is a Transport-Key of a key with a partner in the form in which it is taken.
fn is_app_key(network: &Network, heard: &Heard, partner: Eui) -> bool
    ensures { result ≡ is_app_key_form network.now (heard_of heard.now) partner.0 }
{
    !network.is_centre()
        && heard.is_nwk_secured()
        && heard.is_sealed_for(Label::Load)
        && heard.is_from_centre(network)
        && !(partner == network.eui() || network.from_centre(partner))
}

/// Takes a Transport-Key of a link key with a partner.
///
/// Nothing changes where it is the partner's live key. Otherwise it takes the place of the partner's live rows, and is
/// verified.
///
/// # Errors
/// - Policy in any other form.
/// - Not a member where the partner isn't declared.
/// - Wrong state in rejoining.
/// - Rows full where a new row has no room, and key in use where another partner's row has the key.
#[tactic(auto, unfolding(zb_model::specs::Commands::take_app_key, zb_rules::specs::Chains::steps))]
pub fn take_app_key(
    network: &Network,
    tables: &Tables,
    heard: &Heard,
    key: &Key,
    partner: Eui,
) -> Result<Effect, Refusal>
    ensures rule { decided result ≡ told
        (take_app_key network.now tables.now (heard_of heard.now) key.now.0 partner.0) }
    ensures keeps { Keeps Aps result }
{
    if !is_app_key(network, heard, partner) {
        return Err(Refusal::Policy { place: Place::Aps });
    }
    if !network.is_declared(partner) {
        return Err(Refusal::NotMember { place: Place::Aps });
    }
    if is_rejoining(tables.state()) {
        return Err(Refusal::WrongState { place: Place::Aps });
    }
    match zb_row_changes::partner(tables, partner, key) {
        Ok(changes) => Ok(Effect::of_changes(changes)),
        Err(error) => Err(refused(Place::Aps, error)),
    }
}
