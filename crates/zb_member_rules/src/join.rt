//! How a router or device asks to be let in, for the first time and again.
ghost use Rattle.std.specs.Prelude.{◌≡◌, ◌≤◌, ◌++◌, ◌∷◌, [], length, map};
ghost use Rattle.zb_base.specs.declared.place.Place.TheVariants.{Event};
ghost use Rattle.zb_node_types.specs.Changes.{edits, model_state};
ghost use Rattle.zb_model.specs.Data.{Became, Knocked, Moved, Provisional, Row};
ghost use Rattle.zb_model.specs.OwnEvents.{knock, rejoin};
ghost use Rattle.zb_model.specs.Rules.{drop_others, has_joined};
ghost use Rattle.zb_record.specs.RowViews.{link_key};
ghost use Rattle.zb_rules.specs.Outcomes.{decided, told, most_changes, Keeps};

use arrayvec::ArrayVec;
use zb_base::{Attribute, Place, State};
use zb_keys::Tables;
use zb_node_types::{Change, Changes, Refusal};
use zb_record::LinkRow;
use zb_rows::{add_drop_others, code_row};
use zb_rules::{Effect, add};
use zb_setting::Network;

/// Returns whether a node in that state has joined.
fn has_joined(state: State) -> bool
    ensures { result ≡ has_joined (model_state state) }
{
    matches!(state, State::Joined | State::Offered | State::Confirmed)
}

/// Lists what a knock changes. The row of the install code's key is provisional, and the only live one of the centre.
fn knocked(tables: &Tables, row: &LinkRow) -> Changes
    ensures made { edits result.items ≡ map Moved
        (drop_others tables.now (link_key row.now).partner (link_key row.now).key
        ++ (Row (link_key row.now).partner (link_key row.now).key Provisional ∷ Became Knocked ∷ [])) }
    ensures few { length result.items ≤ most_changes }
{
    let mut changes = ArrayVec::new();
    add_drop_others(tables, &mut changes, row.partner, &row.key);
    add(
        &mut changes,
        Change::Row {
            partner: row.partner,
            key: row.key,
            attribute: Attribute::Provisional,
        },
    );
    add(
        &mut changes,
        Change::State {
            state: State::Knocked,
        },
    );
    changes
}

/// Asks to be let in.
///
/// The row of the install code's key is provisional, and the only live one of the centre. Network keys and the keys of
/// partners stay.
///
/// # Errors
/// No key without a row of the node's install code.
#[tactic(auto, unfolding(zb_model::specs::OwnEvents::knock, zb_rules::specs::Chains::steps))]
pub fn knock(network: &Network, tables: &Tables) -> Result<Effect, Refusal>
    ensures rule { decided result ≡ told (knock network.now tables.now) }
    ensures keeps { Keeps Event result }
{
    match code_row(tables, network.centre()) {
        None => Err(Refusal::NoKey {
            place: Place::Event,
        }),
        Some(row) => Ok(Effect::of_changes(knocked(tables, row))),
    }
}

/// Asks to be let in again, after it lost the network key's changes.
///
/// # Errors
/// Wrong state outside joined, offered and confirmed.
#[tactic(auto, unfolding(zb_model::specs::OwnEvents::rejoin, zb_rules::specs::Chains::steps))]
pub fn rejoin(tables: &Tables) -> Result<Effect, Refusal>
    ensures rule { decided result ≡ told (rejoin tables.now) }
    ensures keeps { Keeps Event result }
{
    if !has_joined(tables.state()) {
        return Err(Refusal::WrongState {
            place: Place::Event,
        });
    }
    let mut changes = ArrayVec::new();
    add(
        &mut changes,
        Change::State {
            state: State::Rejoining,
        },
    );
    Ok(Effect::of_changes(changes))
}
