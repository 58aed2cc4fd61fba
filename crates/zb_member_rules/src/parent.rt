//! What a router does for its children: it reports them, asks them to leave, hands them what a Tunnel brings.
ghost use Rattle.std.specs.Prelude.{◌≡◌, ◌≤◌, length, option_map};
ghost use Rattle.std.specs.Option.{option_copied};
ghost use Rattle.zb_base.specs.declared.place.Place.TheVariants.{Aps, Event};
ghost use Rattle.zb_model.specs.Commands.{take_remove, take_tunnel};
ghost use Rattle.zb_model.specs.OwnEvents.{child_of_router, child_status, report_child};
ghost use Rattle.zb_record.specs.RowViews.{link_key};
ghost use Rattle.zb_rules.specs.Hearing.{heard_of};
ghost use Rattle.zb_rules.specs.Outcomes.{decided, told, Keeps};
ghost use Rattle.zb_member_rules.specs.Forms.{is_remove_form};
ghost use Rattle.zb_base.specs.Limits.{longest_tunnelled};

use zb_base::{Eui, Frame, Label, Layer, Place, Short};
use zb_cmd::Command;
use zb_cursor::frame_from;
use zb_keys::Tables;
use zb_node_types::Refusal;
use zb_record::LinkRow;
use zb_rows::{is_any_spent, is_spent, usable_active};
use zb_rules::{Effect, Heard, is_rejoining};
use zb_send::Body;
use zb_setting::Network;

/// Returns the status of an Update-Device: 1 for a join, 3 for a rejoin.
fn child_status(rejoin: bool) -> u8
    ensures { result ≡ child_status rejoin }
{
    if rejoin { 3 } else { 1 }
}

/// Reports a child to the centre, sealed under that row, or in clear at APS where there is none.
#[tactic(auto, unfolding(zb_rules::specs::Chains::steps))]
fn report_child(
    network: &Network,
    tables: &Tables,
    child: Eui,
    rejoin: bool,
    row: Option<&LinkRow>,
) -> Result<Effect, Refusal>
    ensures rule { decided result ≡ told
        (report_child network.now tables.now child.0 rejoin (option_map link_key (option_copied row.entry))) }
    ensures keeps { Keeps Event result }
{
    let command = Command::Update {
        device: child,
        short: network.short_of(child),
        status: child_status(rejoin),
    };
    match row {
        None => {
            if is_spent(tables, Layer::Nwk) {
                return Err(Refusal::CounterSpent {
                    place: Place::Event,
                });
            }
            Ok(Effect::of_sending(
                Short(0),
                true,
                Body::Clear {
                    control: 1,
                    command,
                },
            ))
        }
        Some(row) => {
            if is_any_spent(tables) {
                return Err(Refusal::CounterSpent {
                    place: Place::Event,
                });
            }
            let key = row.key;
            Ok(Effect::of_sending(
                Short(0),
                true,
                Body::Secret {
                    label: Label::Data,
                    key,
                    command,
                },
            ))
        }
    }
}

/// Reports a child that joins or rejoins to the centre, by an Update-Device.
///
/// It is sealed under the current row of the centre, or goes without APS security where there is none.
///
/// # Errors
/// - No key without a usable active network key.
/// - Wrong state in rejoining.
/// - Counter spent where a counter is that the frame needs.
#[tactic(auto, unfolding(zb_model::specs::OwnEvents::child_of_router, zb_rules::specs::Chains::steps))]
pub fn child_of_router(
    network: &Network,
    tables: &Tables,
    child: Eui,
    rejoin: bool,
) -> Result<Effect, Refusal>
    ensures rule { decided result ≡ told (child_of_router network.now tables.now child.0 rejoin) }
    ensures keeps { Keeps Event result }
{
    if usable_active(tables).is_none() {
        return Err(Refusal::NoKey {
            place: Place::Event,
        });
    }
    if is_rejoining(tables.state()) {
        return Err(Refusal::WrongState {
            place: Place::Event,
        });
    }
    report_child(
        network,
        tables,
        child,
        rejoin,
        tables.current(network.centre()),
    )
}

/// Returns whether the command is a Remove-Device in the form in which a router takes it.
fn is_remove(network: &Network, heard: &Heard, target: Eui) -> bool
    ensures { result ≡ is_remove_form network.now (heard_of heard.now) target.0 }
{
    network.is_router()
        && heard.is_sealed_for(Label::Data)
        && heard.is_from_centre(network)
        && !(target == network.eui() || network.from_centre(target))
}

/// Takes a Remove-Device: the target is asked to leave.
///
/// # Errors
/// - Policy unless this is a router, and the command is sealed for data, from the centre, about neither of the two.
/// - Not a member where the target isn't declared.
/// - Counter spent where the NWK counter is.
#[tactic(auto, unfolding(zb_model::specs::Commands::take_remove, zb_rules::specs::Chains::steps))]
pub fn take_remove(
    network: &Network,
    tables: &Tables,
    heard: &Heard,
    target: Eui,
) -> Result<Effect, Refusal>
    ensures rule { decided result ≡ told (take_remove network.now tables.now (heard_of heard.now) target.0) }
    ensures keeps { Keeps Aps result }
{
    if !is_remove(network, heard, target) {
        return Err(Refusal::Policy { place: Place::Aps });
    }
    if !network.is_declared(target) {
        return Err(Refusal::NotMember { place: Place::Aps });
    }
    if is_spent(tables, Layer::Nwk) {
        return Err(Refusal::CounterSpent { place: Place::Aps });
    }
    Ok(Effect::of_sending(network.short_of(target), true, Body::Leaving))
}

/// Takes a Tunnel: its inner frame goes to the destination, without NWK security.
///
/// Requires an inner frame that fits one.
///
/// # Errors
/// - Policy unless this is a router, and the command is in clear at APS, from the centre.
/// - Not a member where the destination isn't declared or is this node.
#[tactic(auto, unfolding(zb_model::specs::Commands::take_tunnel, zb_rules::specs::Chains::steps))]
pub fn take_tunnel(
    network: &Network,
    tables: &Tables,
    heard: &Heard,
    destination: Eui,
    inner: &Frame,
) -> Result<Effect, Refusal>
    requires room { length inner.now.items ≤ longest_tunnelled }
    ensures rule { decided result ≡ told
        (take_tunnel network.now tables.now (heard_of heard.now) destination.0 inner.now.items) }
    ensures keeps { Keeps Aps result }
{
    if !(network.is_router() && heard.is_clear() && heard.is_from_centre(network)) {
        return Err(Refusal::Policy { place: Place::Aps });
    }
    if !network.is_declared(destination) || destination == network.eui() {
        return Err(Refusal::NotMember { place: Place::Aps });
    }
    Ok(Effect::of_sending(
        network.short_of(destination),
        false,
        Body::Relayed {
            bytes: frame_from(inner.as_slice()),
        },
    ))
}
