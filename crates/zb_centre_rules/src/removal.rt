//! A device is removed.
ghost use Rattle.std.specs.Prelude.{◌≡◌, ◌≤◌, ◌++◌, ◌∷◌, [], length, map, option_map};
ghost use Rattle.std.specs.Option.{option_copied};
ghost use Rattle.zb_base.specs.declared.place.Place.TheVariants.{Event};
ghost use Rattle.zb_node_types.specs.Changes.{edits};
ghost use Rattle.zb_model.specs.Data.{Moved, Removed};
ghost use Rattle.zb_model.specs.OwnEvents.{remove_device, tell_leave, tell_parent};
ghost use Rattle.zb_model.specs.Rules.{drop_partner};
ghost use Rattle.zb_record.specs.RowViews.{link_key};
ghost use Rattle.zb_rules.specs.Outcomes.{decided, told, most_changes, Keeps};
ghost use Rattle.zb_send.specs.Sendings.{sending_of, CanBeSent};

use zb_base::{Eui, Label, Layer, Place};
use zb_cmd::Command;
use zb_keys::Tables;
use zb_node_types::{Change, Changes, Refusal};
use zb_record::LinkRow;
use zb_row_changes::drop_partner;
use zb_rows::{is_any_spent, is_live, is_spent};
use zb_rules::{Effect, add, sending};
use zb_send::{Body, Sending};
use zb_setting::Network;

/// Lists what a removal changes: the device's live rows are dropped, and its pairs end.
fn removed(tables: &Tables, device: Eui) -> Changes
    ensures made { edits result.items ≡ map Moved (drop_partner tables.now device.0 ++ Removed device.0 ∷ []) }
    ensures few { length result.items ≤ most_changes }
{
    let mut changes = drop_partner(tables, device);
    add(&mut changes, Change::Removed { device });
    changes
}

/// Returns the Leave to a child of the centre, where a frame can be sealed.
fn leave(network: &Network, tables: &Tables, device: Eui) -> Option<Sending>
    ensures what { option_map sending_of result ≡ tell_leave network.now tables.now device.0 }
    ensures fits { CanBeSent result }
{
    if tables.active_row().is_none() || is_spent(tables, Layer::Nwk) {
        return None;
    }
    sending(network.short_of(device), true, Body::Leaving)
}

/// Returns the Remove-Device to the device's parent, where a frame can be sealed.
fn remove_by(
    network: &Network,
    tables: &Tables,
    device: Eui,
    via: Eui,
    row: Option<&LinkRow>,
) -> Option<Sending>
    ensures what { option_map sending_of result
        ≡ tell_parent network.now tables.now device.0 via.0 (option_map link_key (option_copied row.entry)) }
    ensures fits { CanBeSent result }
{
    match row {
        None => None,
        Some(row) => {
            if tables.active_row().is_none() || is_any_spent(tables) {
                return None;
            }
            let key = row.key;
            let command = Command::Remove { target: device };
            let body = Body::Secret {
                label: Label::Data,
                key,
                command,
            };
            sending(network.short_of(via), true, body)
        }
    }
}

/// Removes a device: its live rows are dropped and its pairs end. Then a Leave goes to it, by way of the centre, or a
/// Remove-Device to its parent, unless no frame can be sealed.
///
/// # Errors
/// Not a member where the device isn't live.
#[tactic(auto, unfolding(zb_model::specs::OwnEvents::remove_device, zb_rules::specs::Chains::steps))]
pub fn remove_device(
    network: &Network,
    tables: &Tables,
    device: Eui,
    via: Eui,
) -> Result<Effect, Refusal>
    ensures rule { decided result ≡ told (remove_device network.now tables.now device.0 via.0) }
    ensures keeps { Keeps Event result }
{
    if !is_live(tables, device) {
        return Err(Refusal::NotMember {
            place: Place::Event,
        });
    }
    let changes = removed(tables, device);
    let sending = if via == network.eui() {
        leave(network, tables, device)
    } else {
        remove_by(network, tables, device, via, tables.current(via))
    };
    Ok(Effect { changes, sending })
}
