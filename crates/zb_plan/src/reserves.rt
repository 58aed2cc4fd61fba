//! The limits that a frame needs to be reserved.
ghost use Rattle.std.specs.Prelude.{◌≡◌, ◌<◌, ◌≤◌, ◌+◌, ◌++◌, length, option_map};
ghost use Rattle.zb_node_types.specs.Changes.{edits, model_layer};
ghost use Rattle.zb_plan.specs.Storing.{reserve_edits};
ghost use Rattle.zb_rules.specs.Sendings.{sending_of};

use zb_base::Layer;
use zb_keys::Tables;
use zb_node_types::{Change, Changes};
use zb_rules::{Sending, add, reserve};
use zb_setting::Network;

/// Adds the limit that a frame reserves at a layer, where there is one.
///
/// Requires room for one more.
pub(crate) fn add_reserve(
    changes: &mut Changes,
    network: &Network,
    tables: &Tables,
    sending: &Option<Sending>,
    layer: Layer,
)
    requires room { length changes.old.items < 16 }
    ensures made { edits changes.new.items ≡ edits changes.old.items
        ++ reserve_edits network.now tables.now (option_map sending_of sending.now) (model_layer layer) }
    ensures longer { length changes.new.items ≤ length changes.old.items + 1 }
{
    match reserve(network, tables, sending, layer) {
        Some(limit) => add(changes, Change::Reserve { layer, limit }),
        None => {}
    }
}
