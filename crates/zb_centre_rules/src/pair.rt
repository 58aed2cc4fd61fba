//! A key of two devices: it is asked for, drawn, and shared with both.
ghost use Rattle.std.specs.Prelude.{◌≡◌, ◌≤◌, ◌∷◌, [], length, map, option_map, nat_eq, true};
ghost use Rattle.std.specs.Option.{option_copied};
ghost use Rattle.zb_base.specs.declared.place.Place.TheVariants.{Aps, Event};
ghost use Rattle.zb_node_types.specs.Changes.{edits};
ghost use Rattle.zb_model.specs.Commands.{answer_pair, greater, is_verified_row, lesser, take_app_request};
ghost use Rattle.zb_model.specs.Data.{Draw, ForLoad, Moved, Pair as Paired, TransportApp};
ghost use Rattle.zb_model.specs.OwnEvents.{share};
ghost use Rattle.zb_model.specs.Rules.{Secret, sends, short_of};
ghost use Rattle.zb_centre_rules.specs.Forms.{is_app_request_form};
ghost use Rattle.zb_record.specs.RowViews.{link_key, pair_key};
ghost use Rattle.zb_rules.specs.Hearing.{heard_of};
ghost use Rattle.zb_rules.specs.Outcomes.{decided, told, most_changes, Keeps};
ghost use Rattle.zb_send.specs.Sendings.{sending_of, CanBeSent};

use crate::request::is_under_current;
use arrayvec::ArrayVec;
use zb_base::{Eui, Key, Label, Place};
use zb_cmd::Command;
use zb_keys::{Pair, Tables};
use zb_node_types::{Change, Changes, Refusal};
use zb_record::LinkRow;
use zb_row_changes::add_pair;
use zb_rows::{is_any_spent, is_live, pairs_full, unless_held};
use zb_rules::{Effect, Heard, add, sending};
use zb_send::{Body, Sending};
use zb_setting::Network;

/// Returns what sends the key of a pair to a device, sealed for load under its current row.
///
/// `initiator`: 1 where the device asked for it.
fn app_key_for(
    network: &Network,
    device: Eui,
    partner: Eui,
    key: &Key,
    row: &LinkRow,
    initiator: u8,
) -> Option<Sending>
    ensures what { option_map sending_of result ≡ sends (short_of network.now device.0) true
        (Secret ForLoad (link_key row.now).key (TransportApp key.now.0 partner.0 initiator)) }
    ensures fits { CanBeSent result }
{
    let command = Command::TransportApplication {
        key: *key,
        partner,
        initiator,
    };
    let body = Body::Secret {
        label: Label::Load,
        key: row.key,
        command,
    };
    sending(network.short_of(device), true, body)
}

/// Sends the key of a pair to one of the two.
///
/// # Errors
/// No key without an active network key; not a member where either device isn't live; wrong state without a pair; a
/// counter is spent.
#[tactic(auto, unfolding(zb_model::specs::OwnEvents::share, zb_rules::specs::Chains::steps))]
pub fn share(
    network: &Network,
    tables: &Tables,
    device: Eui,
    partner: Eui,
) -> Result<Effect, Refusal>
    ensures rule { decided result ≡ told (share network.now tables.now device.0 partner.0) }
    ensures keeps { Keeps Event result }
{
    if tables.active_row().is_none() {
        return Err(Refusal::NoKey {
            place: Place::Event,
        });
    }
    if !(is_live(tables, device) && is_live(tables, partner)) {
        return Err(Refusal::NotMember {
            place: Place::Event,
        });
    }
    match tables.pair_between(device, partner) {
        None => Err(Refusal::WrongState {
            place: Place::Event,
        }),
        Some(pair) => match tables.current(device) {
            None => Err(Refusal::NotMember {
                place: Place::Event,
            }),
            Some(row) => {
                if is_any_spent(tables) {
                    return Err(Refusal::CounterSpent {
                        place: Place::Event,
                    });
                }
                let changes = ArrayVec::new();
                let sending = app_key_for(network, device, partner, &pair.key, row, 0);
                Ok(Effect { changes, sending })
            }
        },
    }
}

/// Returns whether that row is a verified one.
fn is_verified(row: Option<&LinkRow>) -> bool
    ensures { result ≡ is_verified_row (option_map link_key (option_copied row.entry)) }
{
    match row {
        Some(row) => row.is_verified(),
        None => false,
    }
}

/// Lists what a new pair changes: its key is drawn, and stands under the smaller address first.
fn paired(device: Eui, partner: Eui, key: &Key) -> Changes
    ensures made { edits result.items ≡ map Moved
        (Draw key.now.0 ∷ Paired (lesser device.0 partner.0) (greater device.0 partner.0) key.now.0 ∷ []) }
    ensures few { length result.items ≤ most_changes }
{
    let mut changes = ArrayVec::new();
    add(&mut changes, Change::Draw { key: *key });
    add_pair(&mut changes, device, partner, key);
    changes
}

/// Sends the key of a pair again, or draws one for the two.
#[tactic(auto, unfolding(zb_rules::specs::Chains::steps))]
fn answer_pair(
    network: &Network,
    tables: &Tables,
    device: Eui,
    partner: Eui,
    draw: Option<Key>,
    row: &LinkRow,
    pair: Option<&Pair>,
) -> Result<Effect, Refusal>
    ensures rule { decided result ≡ told (answer_pair network.now tables.now device.0 partner.0
        (option_map (λ k. k.0) draw) (link_key row.now) (option_map pair_key (option_copied pair.entry))) }
    ensures keeps { Keeps Aps result }
{
    if let Some(pair) = pair {
        if is_any_spent(tables) {
            return Err(Refusal::CounterSpent { place: Place::Aps });
        }
        let changes = ArrayVec::new();
        let sending = app_key_for(network, device, partner, &pair.key, row, 1);
        return Ok(Effect { changes, sending });
    }
    if pairs_full(tables) {
        return Err(Refusal::RowsFull { place: Place::Aps });
    }
    match unless_held(tables, draw) {
        None => Err(Refusal::NoDraw { place: Place::Aps }),
        Some(key) => {
            if is_any_spent(tables) {
                return Err(Refusal::CounterSpent { place: Place::Aps });
            }
            let changes = paired(device, partner, &key);
            let sending = app_key_for(network, device, partner, &key, row, 1);
            Ok(Effect { changes, sending })
        }
    }
}

/// Returns whether the command is a Request-Key of a key with a partner in the form in which it is taken.
fn is_app_request(network: &Network, tables: &Tables, heard: &Heard, partner: Eui) -> bool
    ensures { result ≡ is_app_request_form network.now tables.now (heard_of heard.now) partner.0 }
{
    network.is_centre()
        && is_under_current(tables, heard)
        && !(partner == heard.sender() || partner == network.eui())
}

/// Takes a Request-Key of a key with a partner: the pair's key is sent again, or drawn.
///
/// # Errors
/// Policy in any other form; not a member where the partner isn't live; wrong state where a current row of the two
/// isn't verified; rows full; no draw; a counter is spent.
#[tactic(auto, unfolding(zb_model::specs::Commands::take_app_request, zb_rules::specs::Chains::steps))]
pub fn take_app_request(
    network: &Network,
    tables: &Tables,
    heard: &Heard,
    draw: Option<Key>,
    partner: Eui,
) -> Result<Effect, Refusal>
    ensures rule { decided result ≡ told (take_app_request network.now tables.now (heard_of heard.now)
        (option_map (λ k. k.0) draw) partner.0) }
    ensures keeps { Keeps Aps result }
{
    if !is_app_request(network, tables, heard, partner) {
        return Err(Refusal::Policy { place: Place::Aps });
    }
    if !is_live(tables, partner) {
        return Err(Refusal::NotMember { place: Place::Aps });
    }
    let sender = heard.sender();
    if !(is_verified(tables.current(sender)) && is_verified(tables.current(partner))) {
        return Err(Refusal::WrongState { place: Place::Aps });
    }
    match tables.current(sender) {
        None => Err(Refusal::Policy { place: Place::Aps }),
        Some(row) => {
            let pair = tables.pair_between(sender, partner);
            answer_pair(network, tables, sender, partner, draw, row, pair)
        }
    }
}
