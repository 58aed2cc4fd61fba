//! The floors that accepted terms ask to be stored.
ghost use Rattle.std.specs.Prelude.{◌≡◌, ◌<◌, ◌≤◌, ◌+◌, ◌++◌, length, option_map, option_to_list, flat_map};
ghost use Rattle.zb_model.specs.Answer.{floor_for, stored_floor};
ghost use Rattle.zb_model_real.specs.Terms.{model_term};
ghost use Rattle.zb_node_types.specs.Changes.{edits};
ghost use Rattle.zb_plan.specs.Answers.{terms};
ghost use Rattle.zb_plan.specs.Storing.{floor_above, floor_edits, stored_by};

use zb_base::Layer;
use zb_counter::{Floor, Judge};
use zb_keys::Tables;
use zb_node_types::{Change, Changes};
use zb_rules::{add, floor_of, link_of, net_of};
use zb_seal::Term;
use zb_setting::Network;

/// Returns the stored floor of a term's sender under its key.
#[tactic(auto, unfolding(zb_model::specs::Answer::stored_floor))]
fn stored_floor(tables: &Tables, term: &Term) -> u32
    ensures { result ≡ stored_floor (model_term term.now) tables.now }
{
    match term.layer {
        Layer::Nwk => match net_of(tables, &term.base) {
            Some(row) => floor_of(row, term.source).stored,
            None => 0,
        },
        Layer::Aps => match link_of(tables, term.source, &term.base) {
            Some(row) => row.floor.stored,
            None => 0,
        },
    }
}

/// Returns the floor that a judgement asks to be stored, if it does.
///
/// Above the greatest counter there is none, so that one is its own.
fn store_to(judged: Judge) -> Option<u32>
    ensures { result ≡ stored_by judged }
{
    match judged {
        Judge::Fresh { store_to } => store_to,
        Judge::Stale { .. } => None,
        Judge::Max => Some(u32::MAX),
    }
}

/// Returns the floor that is stored for a counter: a block above it, unless it is below the stored floor.
fn floor_above(stored: u32, counter: u32, block: u32) -> Option<u32>
    ensures { result ≡ floor_above stored counter block }
{
    store_to(Floor::after_boot(stored).judge(counter, block))
}

/// Returns the floor that is to be stored for a term, if its counter isn't below the stored one.
fn floor_for(network: &Network, tables: &Tables, term: &Term) -> Option<u32>
    ensures { result ≡ floor_for network.now tables.now (model_term term.now) }
{
    floor_above(stored_floor(tables, term), term.counter, network.in_block())
}

/// Adds the floor that an accepted term asks for, if it does.
///
/// Requires room for one more.
fn add_floor(changes: &mut Changes, network: &Network, tables: &Tables, term: &Term)
    requires room { length changes.old.items < 16 }
    ensures made { edits changes.new.items ≡ edits changes.old.items
        ++ floor_edits network.now tables.now (model_term term.now) }
    ensures longer { length changes.new.items ≤ length changes.old.items + 1 }
{
    match floor_for(network, tables, term) {
        Some(value) => add(
            changes,
            Change::Floor {
                layer: term.layer,
                key: term.base,
                sender: term.source,
                value,
            },
        ),
        None => {}
    }
}

/// Adds the floors of a term, where there is one.
///
/// Requires room for one more.
fn add_floors_of(changes: &mut Changes, network: &Network, tables: &Tables, term: &Option<Term>)
    requires room { length changes.old.items < 16 }
    ensures made { edits changes.new.items ≡ edits changes.old.items
        ++ flat_map (floor_edits network.now tables.now) (option_to_list (option_map model_term term.now)) }
    ensures longer { length changes.new.items ≤ length changes.old.items + 1 }
{
    match term {
        Some(term) => add_floor(changes, network, tables, term),
        None => {}
    }
}

/// Adds the floors of the accepted terms, NWK before APS.
///
/// Requires room for two more.
pub(crate) fn add_floors(
    changes: &mut Changes,
    network: &Network,
    tables: &Tables,
    nwk: &Option<Term>,
    aps: &Option<Term>,
)
    requires room { length changes.old.items ≤ 14 }
    ensures made { edits changes.new.items ≡ edits changes.old.items
        ++ flat_map (floor_edits network.now tables.now) (terms nwk.now aps.now) }
    ensures longer { length changes.new.items ≤ length changes.old.items + 2 }
{
    add_floors_of(changes, network, tables, nwk);
    add_floors_of(changes, network, tables, aps);
}
