//! A device asks for a link key with the centre.
ghost use Rattle.std.specs.Prelude.{◌≡◌, ◌≤◌, ◌∷◌, [], length, map, option_map, true};
ghost use Rattle.std.specs.Option.{option_copied};
ghost use Rattle.zb_base.specs.declared.place.Place.TheVariants.{Aps};
ghost use Rattle.zb_node_types.specs.Changes.{edits};
ghost use Rattle.zb_model.specs.Commands.{answer_request, take_request, under_current};
ghost use Rattle.zb_model.specs.Data.{Draw, ForLoad, Moved, Row, TransportLink, Unverified};
ghost use Rattle.zb_model.specs.Rules.{Secret, sends, short_of};
ghost use Rattle.zb_centre_rules.specs.Forms.{is_request_form};
ghost use Rattle.zb_record.specs.RowViews.{link_key};
ghost use Rattle.zb_rules.specs.Hearing.{heard_of};
ghost use Rattle.zb_rules.specs.Outcomes.{decided, told, most_changes, Keeps};
ghost use Rattle.zb_send.specs.Sendings.{sending_of, CanBeSent};

use arrayvec::ArrayVec;
use zb_base::{Attribute, Eui, Key, Label, Place};
use zb_cmd::Command;
use zb_keys::Tables;
use zb_node_types::{Change, Changes, Refusal};
use zb_record::LinkRow;
use zb_rows::{is_any_spent, links_full, unless_held};
use zb_rules::{Effect, Heard, add, sending};
use zb_send::{Body, Sending};
use zb_setting::Network;

/// Returns whether the row that opened a request is the sender's current one, sealed for data.
pub(crate) fn is_under_current(tables: &Tables, heard: &Heard) -> bool
    ensures { result ≡ under_current tables.now (heard_of heard.now) }
{
    heard.is_sealed_for(Label::Data) && heard.is_under(tables.current(heard.sender()))
}

/// Returns whether the command is a Request-Key of a link key in the form in which it is taken.
fn is_request(network: &Network, tables: &Tables, heard: &Heard) -> bool
    ensures { result ≡ is_request_form network.now tables.now (heard_of heard.now) }
{
    network.is_centre() && is_under_current(tables, heard)
}

/// Returns what sends a link key to a device, sealed for load under its current row.
fn link_key_for(network: &Network, device: Eui, key: &Key, row: &LinkRow) -> Option<Sending>
    ensures what { option_map sending_of result ≡ sends (short_of network.now device.0) true
        (Secret ForLoad (link_key row.now).key (TransportLink key.now.0 device.0 network.now.me.eui)) }
    ensures fits { CanBeSent result }
{
    let command = Command::TransportLink {
        key: *key,
        destination: device,
        source: network.eui(),
    };
    let body = Body::Secret {
        label: Label::Load,
        key: row.key,
        command,
    };
    sending(network.short_of(device), true, body)
}

/// Lists what an offer changes: the key is drawn, and is the device's unverified one.
fn offered(device: Eui, key: &Key) -> Changes
    ensures made { edits result.items ≡ map Moved (Draw key.now.0 ∷ Row device.0 key.now.0 Unverified ∷ []) }
    ensures few { length result.items ≤ most_changes }
{
    let mut changes = ArrayVec::new();
    add(&mut changes, Change::Draw { key: *key });
    add(
        &mut changes,
        Change::Row {
            partner: device,
            key: *key,
            attribute: Attribute::Unverified,
        },
    );
    changes
}

/// Sends the offered key again, or draws a new one and offers it.
#[tactic(auto, unfolding(zb_rules::specs::Chains::steps))]
fn answer_request(
    network: &Network,
    tables: &Tables,
    device: Eui,
    draw: Option<Key>,
    row: &LinkRow,
    offer: Option<&LinkRow>,
) -> Result<Effect, Refusal>
    ensures rule { decided result ≡ told (answer_request network.now tables.now device.0
        (option_map (λ k. k.0) draw) (link_key row.now) (option_map link_key (option_copied offer.entry))) }
    ensures keeps { Keeps Aps result }
{
    if let Some(offer) = offer {
        if is_any_spent(tables) {
            return Err(Refusal::CounterSpent { place: Place::Aps });
        }
        let changes = ArrayVec::new();
        let sending = link_key_for(network, device, &offer.key, row);
        return Ok(Effect { changes, sending });
    }
    if links_full(tables) {
        return Err(Refusal::RowsFull { place: Place::Aps });
    }
    match unless_held(tables, draw) {
        None => Err(Refusal::NoDraw { place: Place::Aps }),
        Some(key) => {
            if is_any_spent(tables) {
                return Err(Refusal::CounterSpent { place: Place::Aps });
            }
            let changes = offered(device, &key);
            let sending = link_key_for(network, device, &key, row);
            Ok(Effect { changes, sending })
        }
    }
}

/// Takes a Request-Key of a link key with the centre. The offered key is sent again, or a new one is drawn and
/// offered. Either is sealed for load under the current row.
///
/// # Errors
/// Policy unless this is the centre, and the command is sealed for data under the sender's current row; rows full; no
/// draw; a counter is spent.
#[tactic(auto, unfolding(zb_model::specs::Commands::take_request, zb_rules::specs::Chains::steps))]
pub fn take_request(
    network: &Network,
    tables: &Tables,
    heard: &Heard,
    draw: Option<Key>,
) -> Result<Effect, Refusal>
    ensures rule { decided result ≡ told
        (take_request network.now tables.now (heard_of heard.now) (option_map (λ k. k.0) draw)) }
    ensures keeps { Keeps Aps result }
{
    if !is_request(network, tables, heard) {
        return Err(Refusal::Policy { place: Place::Aps });
    }
    let sender = heard.sender();
    match tables.current(sender) {
        None => Err(Refusal::Policy { place: Place::Aps }),
        Some(row) => answer_request(network, tables, sender, draw, row, tables.offered(sender)),
    }
}
