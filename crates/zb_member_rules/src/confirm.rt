//! The centre confirms that the offered link key was proved.
ghost use Rattle.std.specs.Prelude.{◌≡◌, ◌≤◌, ◌++◌, ◌∷◌, [], length, map};
ghost use Rattle.zb_base.specs.declared.place.Place.TheVariants.{Aps};
ghost use Rattle.zb_node_types.specs.Changes.{edits};
ghost use Rattle.zb_model.specs.Commands.{take_confirm};
ghost use Rattle.zb_model.specs.Data.{Became, Confirmed, Moved, Row, Verified};
ghost use Rattle.zb_model.specs.Rules.{drop_row};
ghost use Rattle.zb_model.specs.State.{current};
ghost use Rattle.zb_member_rules.specs.Forms.{is_confirm_form};
ghost use Rattle.zb_record.specs.RowViews.{link_key};
ghost use Rattle.zb_rules.specs.Hearing.{heard_of};
ghost use Rattle.zb_rules.specs.Outcomes.{decided, told, most_changes, Keeps};

use arrayvec::ArrayVec;
use zb_base::{Attribute, Eui, Label, Place, State};
use zb_keys::Tables;
use zb_node_types::{Change, Changes, Refusal};
use zb_record::LinkRow;
use zb_rules::{Effect, Heard, add, add_drop, is_rejoining};
use zb_setting::Network;

/// Returns whether the command is a Confirm-Key in the form in which it is taken.
fn is_confirm(network: &Network, heard: &Heard, status: u8, kind: u8, destination: Eui) -> bool
    ensures { result ≡ is_confirm_form network.now (heard_of heard.now) status kind destination.0 }
{
    !network.is_centre()
        && heard.is_sealed_for(Label::Data)
        && heard.is_from_centre(network)
        && status == 0
        && kind == 4
        && destination == network.eui()
}

/// Lists what a confirmation changes: the offered row is verified, and the current one is dropped.
fn confirmed(tables: &Tables, centre: Eui, row: &LinkRow) -> Changes
    ensures made { edits result.items ≡ map Moved (drop_row (current tables.now centre.0)
        ++ (Row (link_key row.now).partner (link_key row.now).key Verified ∷ Became Confirmed ∷ [])) }
    ensures few { length result.items ≤ most_changes }
{
    let mut changes = ArrayVec::new();
    add_drop(&mut changes, tables.current(centre));
    add(
        &mut changes,
        Change::Row {
            partner: row.partner,
            key: row.key,
            attribute: Attribute::Verified,
        },
    );
    add(
        &mut changes,
        Change::State {
            state: State::Confirmed,
        },
    );
    changes
}

/// Takes a Confirm-Key: the offered row, which opened it, is verified, and the current one is dropped.
///
/// # Errors
/// - Policy in any other form.
/// - Wrong state in rejoining, and where the row that opened it isn't the offered one.
#[tactic(auto, unfolding(zb_model::specs::Commands::take_confirm, zb_rules::specs::Chains::steps))]
pub fn take_confirm(
    network: &Network,
    tables: &Tables,
    heard: &Heard,
    status: u8,
    kind: u8,
    destination: Eui,
) -> Result<Effect, Refusal>
    ensures rule { decided result ≡ told
        (take_confirm network.now tables.now (heard_of heard.now) status kind destination.0) }
    ensures keeps { Keeps Aps result }
{
    if !is_confirm(network, heard, status, kind, destination) {
        return Err(Refusal::Policy { place: Place::Aps });
    }
    if is_rejoining(tables.state()) {
        return Err(Refusal::WrongState { place: Place::Aps });
    }
    let centre = network.centre();
    if !heard.is_under(tables.offered(centre)) {
        return Err(Refusal::WrongState { place: Place::Aps });
    }
    match tables.offered(centre) {
        None => Err(Refusal::WrongState { place: Place::Aps }),
        Some(row) => Ok(Effect::of_changes(confirmed(tables, centre, row))),
    }
}
