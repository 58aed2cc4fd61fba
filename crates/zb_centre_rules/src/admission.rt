//! A device is admitted by the link key of its install code.
ghost use Rattle.std.specs.Prelude.{◌≡◌};
ghost use Rattle.zb_base.specs.declared.place.Place.TheVariants.{Event};
ghost use Rattle.zb_model.specs.OwnEvents.{provision};
ghost use Rattle.zb_rules.specs.Outcomes.{decided, told, Keeps};

use zb_base::{Eui, Key, Place};
use zb_keys::Tables;
use zb_node_types::Refusal;
use zb_rows::is_live;
use zb_rules::{Effect, refused};

/// Admits a device by the link key of its install code.
///
/// # Errors
/// Wrong state where the device is live; rows full where a new row has no room; key in use where another device has
/// the key.
#[tactic(auto, unfolding(zb_model::specs::OwnEvents::provision, zb_rules::specs::Chains::steps))]
pub fn provision(tables: &Tables, device: Eui, key: &Key) -> Result<Effect, Refusal>
    ensures rule { decided result ≡ told (provision tables.now device.0 key.now.0) }
    ensures keeps { Keeps Event result }
{
    if is_live(tables, device) {
        return Err(Refusal::WrongState {
            place: Place::Event,
        });
    }
    match zb_row_changes::provision(tables, device, key) {
        Ok(changes) => Ok(Effect::of_changes(changes)),
        Err(error) => Err(refused(Place::Event, error)),
    }
}
