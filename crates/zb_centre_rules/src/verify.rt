//! A device proves that it holds its link key.
ghost use Rattle.std.specs.Prelude.{◌≡◌, option_map, true};
ghost use Rattle.zb_base.specs.declared.place.Place.TheVariants.{Aps};
ghost use Rattle.zb_model.specs.Commands.{names_eui, take_verify};
ghost use Rattle.zb_model.specs.Data.{ConfirmKey, ForData};
ghost use Rattle.zb_model.specs.Rules.{Secret, sends, short_of};
ghost use Rattle.zb_model_real.specs.Real.{real};
ghost use Rattle.zb_centre_rules.specs.Forms.{is_verify_form};
ghost use Rattle.zb_centre_rules.specs.Steps.{confirmed_by};
ghost use Rattle.zb_rules.specs.Hearing.{heard_of};
ghost use Rattle.zb_rules.specs.Outcomes.{decided, told, Keeps};
ghost use Rattle.zb_send.specs.Sendings.{sending_of, CanBeSent};

use arrayvec::ArrayVec;
use zb_base::{Eui, Key, Label, Place};
use zb_cmd::Command;
use zb_keys::Tables;
use zb_node_types::Refusal;
use zb_row_changes::{is_proved, verified, verified_row};
use zb_rows::{is_any_spent, is_live};
use zb_rules::{Effect, Heard, sending};
use zb_send::{Body, Sending};
use zb_setting::Network;

/// Returns whether that node is the source of the NWK layer.
fn names(heard: &Heard, device: Eui) -> bool
    ensures { result ≡ names_eui device.0 (heard_of heard.now).nwk_source }
{
    match heard.nwk_source() {
        Some(source) => device == source,
        None => false,
    }
}

/// Returns whether the command is a Verify-Key in the form in which it is taken.
fn is_verify(network: &Network, heard: &Heard, kind: u8, device: Eui) -> bool
    ensures { result ≡ is_verify_form network.now (heard_of heard.now) kind device.0 }
{
    network.is_centre() && heard.is_clear() && kind == 4 && names(heard, device)
}

/// Returns what confirms a key to a device, sealed for data under that key.
fn confirmation(network: &Network, device: Eui, key: &Key) -> Option<Sending>
    ensures what { option_map sending_of result ≡ sends (short_of network.now device.0) true
        (Secret ForData key.now.0 (ConfirmKey 0 4 device.0)) }
    ensures fits { CanBeSent result }
{
    let command = Command::Confirm {
        status: 0,
        kind: 4,
        destination: device,
    };
    let body = Body::Secret {
        label: Label::Data,
        key: *key,
        command,
    };
    sending(network.short_of(device), true, body)
}

/// Confirms the key that the hash is of: the offered one, which then is verified, or the verified current one.
#[tactic(auto, unfolding(zb_rules::specs::Chains::steps))]
fn confirm(
    network: &Network,
    tables: &Tables,
    device: Eui,
    hash: &[u8; 16],
) -> Result<Effect, Refusal>
    ensures rule { decided result ≡ told (confirmed_by real network.now tables.now device.0 hash.now) }
    ensures keeps { Keeps Aps result }
{
    if let Some(row) = tables.offered(device) {
        if is_proved(Some(row), hash) {
            let changes = verified(tables, device, &row.key);
            let sending = confirmation(network, device, &row.key);
            return Ok(Effect { changes, sending });
        }
    }
    if let Some(row) = verified_row(tables, device) {
        if is_proved(Some(row), hash) {
            let changes = ArrayVec::new();
            let sending = confirmation(network, device, &row.key);
            return Ok(Effect { changes, sending });
        }
    }
    Err(Refusal::WrongHash { place: Place::Aps })
}

/// Takes a Verify-Key. Of the offered key: it is verified, and the current one is dropped. Then, or of the verified
/// current key: Confirm-Key under that key.
///
/// # Errors
/// Policy in any other form; not a member where the device isn't live; wrong state without an offered row and a
/// verified current one; a counter is spent; wrong hash.
#[tactic(auto, unfolding(zb_model::specs::Commands::take_verify, zb_rules::specs::Chains::steps))]
pub fn take_verify(
    network: &Network,
    tables: &Tables,
    heard: &Heard,
    kind: u8,
    device: Eui,
    hash: &[u8; 16],
) -> Result<Effect, Refusal>
    ensures rule { decided result ≡ told
        (take_verify real network.now tables.now (heard_of heard.now) kind device.0 hash.now) }
    ensures keeps { Keeps Aps result }
{
    if !is_verify(network, heard, kind, device) {
        return Err(Refusal::Policy { place: Place::Aps });
    }
    if !is_live(tables, device) {
        return Err(Refusal::NotMember { place: Place::Aps });
    }
    if tables.offered(device).is_none() && verified_row(tables, device).is_none() {
        return Err(Refusal::WrongState { place: Place::Aps });
    }
    if is_any_spent(tables) {
        return Err(Refusal::CounterSpent { place: Place::Aps });
    }
    confirm(network, tables, device, hash)
}
