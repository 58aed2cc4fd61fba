//! Network keys come, and one of them becomes the active one.
ghost use Rattle.std.specs.Prelude.{◌≡◌, ◌≤◌, ◌+◌, ◌++◌, ◌∷◌, [], length, map, option_map};
ghost use Rattle.std.specs.Option.{option_copied};
ghost use Rattle.zb_base.specs.declared.place.Place.TheVariants.{Aps};
ghost use Rattle.zb_node_types.specs.Changes.{edits, model_state};
ghost use Rattle.zb_model.specs.Commands.{activate, is_member, is_verified_row, joined_state, take_net_key, take_switch};
ghost use Rattle.zb_model.specs.Data.{Install, Moved};
ghost use Rattle.zb_model.specs.Rules.{drop_old, waits_for_key};
ghost use Rattle.zb_member_rules.specs.Forms.{is_net_key_form};
ghost use Rattle.zb_record.specs.RowViews.{link_key};
ghost use Rattle.zb_rules.specs.Hearing.{heard_of};
ghost use Rattle.zb_rules.specs.Outcomes.{decided, told, most_changes, Keeps};

use arrayvec::ArrayVec;
use zb_base::{Eui, Key, Label, Place, State};
use zb_keys::Tables;
use zb_node_types::{Change, Changes, Refusal};
use zb_record::LinkRow;
use zb_rows::{activates, add_drop_old, dropped_place, has_net, live_of, nets_full};
use zb_rules::{Effect, Heard, add};
use zb_setting::Network;

/// Returns whether the command is a Transport-Key of a network key in the form in which it is taken.
fn is_net_key(network: &Network, heard: &Heard, destination: Eui, source: Eui) -> bool
    ensures { result ≡ is_net_key_form network.now (heard_of heard.now) destination.0 source.0 }
{
    !network.is_centre()
        && heard.is_sealed_for(Label::Transport)
        && heard.is_from_centre(network)
        && destination == network.eui()
        && network.from_centre(source)
}

/// Returns whether a node in that state waits for the network key.
fn waits_for_key(state: State) -> bool
    ensures { result ≡ waits_for_key (model_state state) }
{
    matches!(state, State::Knocked | State::Rejoining)
}

/// Returns whether that row is a verified one.
fn is_verified(row: Option<&LinkRow>) -> bool
    ensures { result ≡ is_verified_row (option_map link_key (option_copied row.entry)) }
{
    match row {
        Some(row) => row.is_verified(),
        None => false,
    }
}

/// Returns the state of a node that gets the network key, by the link rows of the centre.
fn joined_state(network: &Network, tables: &Tables) -> State
    ensures { model_state result ≡ joined_state network.now tables.now }
{
    if tables.offered(network.centre()).is_some() {
        State::Offered
    } else if is_verified(tables.current(network.centre())) {
        State::Confirmed
    } else {
        State::Joined
    }
}

/// Adds what a network key changes that comes: it becomes active in a node that waits for it, and where none was.
fn add_activation(changes: &mut Changes, network: &Network, tables: &Tables, key: &Key)
    requires room { length changes.old.items ≤ 3 }
    ensures made { edits changes.new.items ≡ edits changes.old.items
        ++ map Moved (activate network.now tables.now key.now.0) }
    ensures longer { length changes.new.items ≤ length changes.old.items + 2 }
{
    if activates(tables) {
        add(changes, Change::Active { key: *key });
    }
    if waits_for_key(tables.state()) {
        let state = joined_state(network, tables);
        add(changes, Change::State { state });
    }
}

/// Lists what a network key changes that has a row already.
fn known(network: &Network, tables: &Tables, key: &Key) -> Changes
    ensures made { edits result.items ≡ map Moved (activate network.now tables.now key.now.0) }
    ensures few { length result.items ≤ most_changes }
{
    let mut changes = ArrayVec::new();
    add_activation(&mut changes, network, tables, key);
    changes
}

/// Lists what a new network key changes: of two live rows the one that isn't active is dropped.
fn installed(network: &Network, tables: &Tables, key: &Key, sequence: u8) -> Changes
    ensures made { edits result.items ≡ map Moved
        (drop_old tables.now ++ (Install key.now.0 sequence ∷ activate network.now tables.now key.now.0)) }
    ensures few { length result.items ≤ most_changes }
{
    let mut changes = ArrayVec::new();
    add_drop_old(tables, &mut changes);
    add(
        &mut changes,
        Change::Install {
            key: *key,
            sequence,
        },
    );
    add_activation(&mut changes, network, tables, key);
    changes
}

/// Takes a Transport-Key of a network key.
///
/// A live equal key gives no row. Else there is a new row, after one of two live rows is dropped. It becomes active in
/// a node that waits for it, and where none was active. A node that waits goes to offered where there is an offered
/// row, else to confirmed where the current one is verified, else to joined.
///
/// # Errors
/// - Policy in any other form.
/// - Key old where a dropped row has the key.
/// - Keys full where there are 256.
#[tactic(auto, unfolding(zb_model::specs::Commands::take_net_key, zb_rules::specs::Chains::steps))]
pub fn take_net_key(
    network: &Network,
    tables: &Tables,
    heard: &Heard,
    key: &Key,
    sequence: u8,
    destination: Eui,
    source: Eui,
) -> Result<Effect, Refusal>
    ensures rule { decided result ≡ told
        (take_net_key network.now tables.now (heard_of heard.now) key.now.0 sequence destination.0 source.0) }
    ensures keeps { Keeps Aps result }
{
    if !is_net_key(network, heard, destination, source) {
        return Err(Refusal::Policy { place: Place::Aps });
    }
    if let Some(at) = dropped_place(tables, key) {
        return Err(Refusal::KeyOld {
            place: Place::Aps,
            at,
        });
    }
    if has_net(tables, key) {
        return Ok(Effect::of_changes(known(network, tables, key)));
    }
    if nets_full(tables) {
        return Err(Refusal::KeysFull { place: Place::Aps });
    }
    Ok(Effect::of_changes(installed(network, tables, key, sequence)))
}

/// Takes a Switch-Key: the newest live network key of that sequence becomes active.
///
/// # Errors
/// - Policy unless this is a router or device, and the command is sealed for data or in clear, from the centre.
/// - Wrong state where no live row has the sequence.
#[tactic(auto, unfolding(zb_model::specs::Commands::take_switch, zb_rules::specs::Chains::steps))]
pub fn take_switch(
    network: &Network,
    tables: &Tables,
    heard: &Heard,
    sequence: u8,
) -> Result<Effect, Refusal>
    ensures rule { decided result ≡ told (take_switch network.now tables.now (heard_of heard.now) sequence) }
    ensures keeps { Keeps Aps result }
{
    if network.is_centre() || !heard.is_clear_or_data() || !heard.is_from_centre(network) {
        return Err(Refusal::Policy { place: Place::Aps });
    }
    match live_of(tables, sequence) {
        None => Err(Refusal::WrongState { place: Place::Aps }),
        Some(row) => {
            let mut changes = ArrayVec::new();
            add(&mut changes, Change::Active { key: row.key });
            Ok(Effect::of_changes(changes))
        }
    }
}
