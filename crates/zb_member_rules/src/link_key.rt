//! A link key with the centre comes, which is to be proved.
ghost use Rattle.std.specs.Prelude.{◌≡◌, ◌≤◌, ◌++◌, ◌∷◌, [], ◌||◌, length, map};
ghost use Rattle.zb_base.specs.declared.place.Place.TheVariants.{Aps};
ghost use Rattle.zb_node_types.specs.Changes.{edits};
ghost use Rattle.zb_model.specs.Commands.{take_link_key};
ghost use Rattle.zb_model.specs.Data.{Became, Moved, Offered, Row, Unverified};
ghost use Rattle.zb_model.specs.Rules.{drop_row};
ghost use Rattle.zb_model.specs.State.{offered};
ghost use Rattle.zb_member_rules.specs.Forms.{is_link_key_form};
ghost use Rattle.zb_rules.specs.Hearing.{heard_of};
ghost use Rattle.zb_rules.specs.Outcomes.{decided, told, most_changes, Keeps};

use arrayvec::ArrayVec;
use zb_base::{Eui, Key, Label, Place, State};
use zb_keys::Tables;
use zb_node_types::{Change, Changes, Refusal};
use zb_row_changes::{add_offer, has_key, row_refusal};
use zb_rules::{Effect, Heard, add, is_rejoining, refused};
use zb_setting::Network;

/// Returns whether the command is a Transport-Key of a link key with the centre in the form in which it is taken.
fn is_link_key(network: &Network, heard: &Heard, destination: Eui, source: Eui) -> bool
    ensures { result ≡ is_link_key_form network.now (heard_of heard.now) destination.0 source.0 }
{
    !network.is_centre()
        && heard.is_nwk_secured()
        && heard.is_sealed_for(Label::Load)
        && heard.is_from_centre(network)
        && destination == network.eui()
        && network.from_centre(source)
}

/// Lists what a link key changes: it is the offered one, in place of another.
fn offered(tables: &Tables, centre: Eui, key: &Key) -> Changes
    ensures made { edits result.items ≡ map Moved (drop_row (offered tables.now centre.0)
        ++ (Row centre.0 key.now.0 Unverified ∷ Became Offered ∷ [])) }
    ensures few { length result.items ≤ most_changes }
{
    let mut changes = ArrayVec::new();
    add_offer(&mut changes, tables, centre, key);
    add(
        &mut changes,
        Change::State {
            state: State::Offered,
        },
    );
    changes
}

/// Takes a Transport-Key of a link key with the centre.
///
/// Nothing changes where it is the current or the offered key. Otherwise it becomes the offered key, in place of
/// another.
///
/// # Errors
/// - Policy in any other form.
/// - Wrong state in rejoining.
/// - Rows full where a new row has no room, and key in use where another partner's row has the key.
#[tactic(auto, unfolding(zb_model::specs::Commands::take_link_key, zb_rules::specs::Chains::steps))]
pub fn take_link_key(
    network: &Network,
    tables: &Tables,
    heard: &Heard,
    key: &Key,
    destination: Eui,
    source: Eui,
) -> Result<Effect, Refusal>
    ensures rule { decided result ≡ told
        (take_link_key network.now tables.now (heard_of heard.now) key.now.0 destination.0 source.0) }
    ensures keeps { Keeps Aps result }
{
    if !is_link_key(network, heard, destination, source) {
        return Err(Refusal::Policy { place: Place::Aps });
    }
    if is_rejoining(tables.state()) {
        return Err(Refusal::WrongState { place: Place::Aps });
    }
    let centre = network.centre();
    if has_key(tables.current(centre), key) || has_key(tables.offered(centre), key) {
        return Ok(Effect::nothing());
    }
    match row_refusal(tables, centre, key) {
        Some(error) => Err(refused(Place::Aps, error)),
        None => Ok(Effect::of_changes(offered(tables, centre, key))),
    }
}
