//! The rollover of the network key: a new key is drawn and sent to each device, and then all switch to it.
ghost use Rattle.std.specs.Prelude.{◌≡◌, ◌≤◌, ◌+◌, ◌%◌, ◌++◌, ◌∷◌, [], true, false, length, map, option_map};
ghost use Rattle.std.specs.Option.{option_copied};
ghost use Rattle.zb_base.specs.declared.place.Place.TheVariants.{Event};
ghost use Rattle.zb_node_types.specs.Changes.{edits};
ghost use Rattle.zb_model.specs.Data.{Active, Moved, Roll, SwitchKey, Told};
ghost use Rattle.zb_model.specs.Frames.{clear_broadcast, to_all};
ghost use Rattle.zb_model.specs.OwnEvents.{again, centre_timer, roll, switch_over, switch_to};
ghost use Rattle.zb_model.specs.Rules.{Clear, sends};
ghost use Rattle.zb_centre_rules.specs.Steps.{newest_to, rolled};
ghost use Rattle.zb_record.specs.RowViews.{net_key};
ghost use Rattle.zb_rules.specs.Outcomes.{decided, told, most_changes, Keeps};
ghost use Rattle.zb_send.specs.Sendings.{sending_of, CanBeSent};

use arrayvec::ArrayVec;
use zb_base::{Eui, Key, Label, Layer, Place, Rollover, Short};
use zb_cmd::Command;
use zb_keys::Tables;
use zb_node_types::{Change, Changes, Refusal};
use zb_record::NetRow;
use zb_roll::{add_start, may_switch, next_member};
use zb_rows::{is_any_spent, is_live, is_spent, is_told, nets_full, unless_held};
use zb_rules::{Effect, add, sending};
use zb_send::Body;
use zb_setting::Network;

/// Returns whether the centre gives a new network key to its devices.
fn is_sending(tables: &Tables) -> bool
    ensures { result ≡ tables.now.sending }
{
    matches!(tables.rolling(), Rollover::Sending)
}

/// Lists the change by which a device was told.
fn told_one(device: Eui) -> Changes
    ensures made { edits result.items ≡ map Moved (Told device.0 ∷ []) }
    ensures few { length result.items ≤ most_changes }
{
    let mut changes = ArrayVec::new();
    add(&mut changes, Change::Told { device });
    changes
}

/// Sends the newest network key to a device, sealed for transport under its current row.
#[tactic(auto, unfolding(zb_rules::specs::Chains::steps))]
fn hand_newest(network: &Network, tables: &Tables, device: Eui) -> Result<Effect, Refusal>
    ensures rule { decided result ≡ told (newest_to network.now tables.now device.0) }
    ensures keeps { Keeps Event result }
{
    match tables.newest() {
        None => Err(Refusal::NoKey {
            place: Place::Event,
        }),
        Some(new) => match tables.current(device) {
            None => Err(Refusal::WrongState {
                place: Place::Event,
            }),
            Some(row) => {
                if is_any_spent(tables) {
                    return Err(Refusal::CounterSpent {
                        place: Place::Event,
                    });
                }
                let command = Command::TransportNetwork {
                    key: new.key,
                    sequence: new.sequence,
                    destination: device,
                    source: network.eui(),
                };
                let body = Body::Secret {
                    label: Label::Transport,
                    key: row.key,
                    command,
                };
                Ok(Effect {
                    changes: told_one(device),
                    sending: sending(network.short_of(device), true, body),
                })
            }
        },
    }
}

/// Sends the newest network key to the next device: the smallest live one that wasn't told.
///
/// # Errors
/// No key without an active network key; wrong state unless the centre gives a key to its devices and one is waiting;
/// a counter is spent.
#[tactic(auto, unfolding(zb_model::specs::OwnEvents::centre_timer, zb_rules::specs::Chains::steps))]
pub fn centre_timer(network: &Network, tables: &Tables) -> Result<Effect, Refusal>
    ensures rule { decided result ≡ told (centre_timer network.now tables.now) }
    ensures keeps { Keeps Event result }
{
    if tables.active_row().is_none() {
        return Err(Refusal::NoKey {
            place: Place::Event,
        });
    }
    if !is_sending(tables) {
        return Err(Refusal::WrongState {
            place: Place::Event,
        });
    }
    match next_member(tables) {
        None => Err(Refusal::WrongState {
            place: Place::Event,
        }),
        Some(device) => hand_newest(network, tables, device),
    }
}

/// Lists what the beginning of a rollover changes: of two live network keys the one that isn't active is dropped.
fn rolled(tables: &Tables, net: &NetRow, key: &Key) -> Changes
    ensures made { edits result.items ≡ map Moved (rolled tables.now (net_key net.now) key.now.0) }
    ensures few { length result.items ≤ most_changes }
{
    let mut changes = ArrayVec::new();
    add(&mut changes, Change::Draw { key: *key });
    add_start(&mut changes, tables, net, key);
    changes
}

/// Draws a new network key, with the next sequence, which is to be sent to each device.
///
/// # Errors
/// No key without an active network key; wrong state while a key is given to devices; keys full where there are 256;
/// no draw where the supply is empty.
#[tactic(auto, unfolding(zb_model::specs::OwnEvents::roll, zb_rules::specs::Chains::steps))]
pub fn roll(tables: &Tables, draw: Option<Key>) -> Result<Effect, Refusal>
    ensures rule { decided result ≡ told (roll tables.now (option_map (λ k. k.0) draw)) }
    ensures keeps { Keeps Event result }
{
    match tables.active_row() {
        None => Err(Refusal::NoKey {
            place: Place::Event,
        }),
        Some(net) => {
            if is_sending(tables) {
                return Err(Refusal::WrongState {
                    place: Place::Event,
                });
            }
            if nets_full(tables) {
                return Err(Refusal::KeysFull {
                    place: Place::Event,
                });
            }
            match unless_held(tables, draw) {
                None => Err(Refusal::NoDraw {
                    place: Place::Event,
                }),
                Some(key) => Ok(Effect::of_changes(rolled(tables, net, &key))),
            }
        }
    }
}

/// Sends a Switch-Key to all, in clear at APS, after these changes.
fn switch_to(net: &NetRow, changes: Changes) -> Effect
    ensures changes { result.changes ≡ changes }
    ensures sending { option_map sending_of result.sending
        ≡ sends to_all true (Clear clear_broadcast (SwitchKey (net_key net.now).sequence)) }
    ensures fits { CanBeSent result.sending }
{
    let command = Command::Switch {
        sequence: net.sequence,
    };
    let body = Body::Clear {
        control: 9,
        command,
    };
    Effect {
        changes,
        sending: sending(Short(0xffff), true, body),
    }
}

/// Lists what the end of a rollover changes: the newest key is active.
fn switched(new: &NetRow) -> Changes
    ensures made { edits result.items ≡ map Moved (Active (net_key new.now).key ∷ Roll false ∷ []) }
    ensures few { length result.items ≤ most_changes }
{
    let mut changes = ArrayVec::new();
    add(&mut changes, Change::Active { key: new.key });
    add(
        &mut changes,
        Change::Roll {
            rollover: Rollover::Idle,
        },
    );
    changes
}

/// Switches to the newest network key once every live device was told of it, and tells all of the switch. A Switch-Key
/// goes out, sealed under the key that was active before. Outside a rollover it tells all again.
///
/// # Errors
/// No key without an active network key; wrong state while a live device isn't told; the NWK counter is spent.
#[tactic(auto, unfolding(zb_model::specs::OwnEvents::switch_over, zb_rules::specs::Chains::steps))]
pub fn switch_over(tables: &Tables) -> Result<Effect, Refusal>
    ensures rule { decided result ≡ told (switch_over tables.now) }
    ensures keeps { Keeps Event result }
{
    match tables.active_row() {
        None => Err(Refusal::NoKey {
            place: Place::Event,
        }),
        Some(net) => {
            if !may_switch(tables) {
                return Err(Refusal::WrongState {
                    place: Place::Event,
                });
            }
            if is_spent(tables, Layer::Nwk) {
                return Err(Refusal::CounterSpent {
                    place: Place::Event,
                });
            }
            if !is_sending(tables) {
                return Ok(switch_to(net, ArrayVec::new()));
            }
            match tables.newest() {
                None => Err(Refusal::NoKey {
                    place: Place::Event,
                }),
                Some(new) => Ok(switch_to(new, switched(new))),
            }
        }
    }
}

/// Lets a device be sent the new network key once more.
///
/// # Errors
/// Not a member where the device isn't live; wrong state outside a rollover, and where it wasn't told.
#[tactic(auto, unfolding(zb_model::specs::OwnEvents::again, zb_rules::specs::Chains::steps))]
pub fn again(tables: &Tables, device: Eui) -> Result<Effect, Refusal>
    ensures rule { decided result ≡ told (again tables.now device.0) }
    ensures keeps { Keeps Event result }
{
    if !is_live(tables, device) {
        return Err(Refusal::NotMember {
            place: Place::Event,
        });
    }
    if !is_sending(tables) || !is_told(tables, device) {
        return Err(Refusal::WrongState {
            place: Place::Event,
        });
    }
    Ok(Effect::of_changes(zb_roll::again(tables, device)))
}
