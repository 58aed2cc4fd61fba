//! The changes of a journal entry: a kind byte and the fields of that kind. Numbers and addresses are least
//! significant byte first.
ghost use Rattle.std.specs.Prelude.{◌≡◌, ◌∷◌, ◌++◌, ◌<◌, length, IfOk, OnOk};
ghost use Rattle.zb_node_types.specs.Changes.{edit};
ghost use Rattle.zb_cursor.specs.Reading.{Gives};
ghost use Rattle.zb_model.specs.Record.{edit_bytes};
ghost use Rattle.zb_record.specs.Changes.{reserve_at, floor_at, drop_net_at, drop_link_at, install_at, active_at, row_at, became_at, roll_at, told_at, untold_at, live_at, removed_at, start_at, pair_at, later_of, fields_of, change_at};

use crate::field::{read_attribute, read_layer, read_rollover, read_state};
use zb_cursor::Reader;
use zb_node_types::Change;

/// Reads a layer, and the limit up to which its counter is reserved.
#[tactic(auto, unfolding(crate::specs::Changes::reserve_at, zb_model::specs::Record::edit_bytes))]
fn read_reserve(reader: &mut Reader<usize>) -> Result<Change, usize>
    ensures exact { Gives result reader.new.rest.now (reserve_at reader.old.cut reader.old.rest.now) }
    ensures spelled { IfOk result (λ c. 1 ∷ reader.old.rest.now ≡ edit_bytes (edit c) ++ reader.new.rest.now) }
    ensures cut { reader.new.cut ≡ reader.old.cut }
{
    let layer = read_layer(reader)?;
    let limit = reader.number32()?;
    Ok(Change::Reserve { layer, limit })
}

/// Reads a layer, a key, and the floor of a sender.
#[tactic(auto, unfolding(crate::specs::Changes::floor_at, zb_model::specs::Record::edit_bytes))]
fn read_floor(reader: &mut Reader<usize>) -> Result<Change, usize>
    ensures exact { Gives result reader.new.rest.now (floor_at reader.old.cut reader.old.rest.now) }
    ensures spelled { IfOk result (λ c. 2 ∷ reader.old.rest.now ≡ edit_bytes (edit c) ++ reader.new.rest.now) }
    ensures cut { reader.new.cut ≡ reader.old.cut }
{
    let layer = read_layer(reader)?;
    let key = reader.key()?;
    let sender = reader.eui()?;
    let value = reader.number32()?;
    Ok(Change::Floor {
        layer,
        key,
        sender,
        value,
    })
}

/// Reads a network key that is dropped.
#[tactic(auto, unfolding(crate::specs::Changes::drop_net_at, zb_model::specs::Record::edit_bytes))]
fn read_drop_net(reader: &mut Reader<usize>) -> Result<Change, usize>
    ensures exact { Gives result reader.new.rest.now (drop_net_at reader.old.cut reader.old.rest.now) }
    ensures spelled { IfOk result (λ c. 3 ∷ reader.old.rest.now ≡ edit_bytes (edit c) ++ reader.new.rest.now) }
    ensures cut { reader.new.cut ≡ reader.old.cut }
{
    let key = reader.key()?;
    Ok(Change::DropNet { key })
}

/// Reads a partner and its link key that is dropped.
#[tactic(auto, unfolding(crate::specs::Changes::drop_link_at, zb_model::specs::Record::edit_bytes))]
fn read_drop_link(reader: &mut Reader<usize>) -> Result<Change, usize>
    ensures exact { Gives result reader.new.rest.now (drop_link_at reader.old.cut reader.old.rest.now) }
    ensures spelled { IfOk result (λ c. 4 ∷ reader.old.rest.now ≡ edit_bytes (edit c) ++ reader.new.rest.now) }
    ensures cut { reader.new.cut ≡ reader.old.cut }
{
    let partner = reader.eui()?;
    let key = reader.key()?;
    Ok(Change::DropLink { partner, key })
}

/// Reads a new network key and its sequence.
#[tactic(auto, unfolding(crate::specs::Changes::install_at, zb_model::specs::Record::edit_bytes))]
fn read_install(reader: &mut Reader<usize>) -> Result<Change, usize>
    ensures exact { Gives result reader.new.rest.now (install_at reader.old.cut reader.old.rest.now) }
    ensures spelled { IfOk result (λ c. 5 ∷ reader.old.rest.now ≡ edit_bytes (edit c) ++ reader.new.rest.now) }
    ensures cut { reader.new.cut ≡ reader.old.cut }
{
    let key = reader.key()?;
    let sequence = reader.byte()?;
    Ok(Change::Install { key, sequence })
}

/// Reads the network key that becomes active.
#[tactic(auto, unfolding(crate::specs::Changes::active_at, zb_model::specs::Record::edit_bytes))]
fn read_active(reader: &mut Reader<usize>) -> Result<Change, usize>
    ensures exact { Gives result reader.new.rest.now (active_at reader.old.cut reader.old.rest.now) }
    ensures spelled { IfOk result (λ c. 6 ∷ reader.old.rest.now ≡ edit_bytes (edit c) ++ reader.new.rest.now) }
    ensures cut { reader.new.cut ≡ reader.old.cut }
{
    let key = reader.key()?;
    Ok(Change::Active { key })
}

/// Reads a partner, its link key and the key's attribute.
#[tactic(auto, unfolding(crate::specs::Changes::row_at, zb_model::specs::Record::edit_bytes))]
fn read_row(reader: &mut Reader<usize>) -> Result<Change, usize>
    ensures exact { Gives result reader.new.rest.now (row_at reader.old.cut reader.old.rest.now) }
    ensures spelled { IfOk result (λ c. 7 ∷ reader.old.rest.now ≡ edit_bytes (edit c) ++ reader.new.rest.now) }
    ensures cut { reader.new.cut ≡ reader.old.cut }
{
    let partner = reader.eui()?;
    let key = reader.key()?;
    let attribute = read_attribute(reader)?;
    Ok(Change::Row {
        partner,
        key,
        attribute,
    })
}

/// Reads a state.
#[tactic(auto, unfolding(crate::specs::Changes::became_at, zb_model::specs::Record::edit_bytes))]
fn read_became(reader: &mut Reader<usize>) -> Result<Change, usize>
    ensures exact { Gives result reader.new.rest.now (became_at reader.old.cut reader.old.rest.now) }
    ensures spelled { IfOk result (λ c. 8 ∷ reader.old.rest.now ≡ edit_bytes (edit c) ++ reader.new.rest.now) }
    ensures cut { reader.new.cut ≡ reader.old.cut }
{
    let state = read_state(reader)?;
    Ok(Change::State { state })
}

/// Reads a rollover.
#[tactic(auto, unfolding(crate::specs::Changes::roll_at, zb_model::specs::Record::edit_bytes))]
fn read_roll(reader: &mut Reader<usize>) -> Result<Change, usize>
    ensures exact { Gives result reader.new.rest.now (roll_at reader.old.cut reader.old.rest.now) }
    ensures spelled { IfOk result (λ c. 9 ∷ reader.old.rest.now ≡ edit_bytes (edit c) ++ reader.new.rest.now) }
    ensures cut { reader.new.cut ≡ reader.old.cut }
{
    let rollover = read_rollover(reader)?;
    Ok(Change::Roll { rollover })
}

/// Reads a device that was told.
#[tactic(auto, unfolding(crate::specs::Changes::told_at, zb_model::specs::Record::edit_bytes))]
fn read_told(reader: &mut Reader<usize>) -> Result<Change, usize>
    ensures exact { Gives result reader.new.rest.now (told_at reader.old.cut reader.old.rest.now) }
    ensures spelled { IfOk result (λ c. 10 ∷ reader.old.rest.now ≡ edit_bytes (edit c) ++ reader.new.rest.now) }
    ensures cut { reader.new.cut ≡ reader.old.cut }
{
    let device = reader.eui()?;
    Ok(Change::Told { device })
}

/// Reads a device that is to be told of the new network key again.
#[tactic(auto, unfolding(crate::specs::Changes::untold_at, zb_model::specs::Record::edit_bytes))]
fn read_untold(reader: &mut Reader<usize>) -> Result<Change, usize>
    ensures exact { Gives result reader.new.rest.now (untold_at reader.old.cut reader.old.rest.now) }
    ensures spelled { IfOk result (λ c. 11 ∷ reader.old.rest.now ≡ edit_bytes (edit c) ++ reader.new.rest.now) }
    ensures cut { reader.new.cut ≡ reader.old.cut }
{
    let device = reader.eui()?;
    Ok(Change::Untold { device })
}

/// Reads a device that was admitted.
#[tactic(auto, unfolding(crate::specs::Changes::live_at, zb_model::specs::Record::edit_bytes))]
fn read_live(reader: &mut Reader<usize>) -> Result<Change, usize>
    ensures exact { Gives result reader.new.rest.now (live_at reader.old.cut reader.old.rest.now) }
    ensures spelled { IfOk result (λ c. 12 ∷ reader.old.rest.now ≡ edit_bytes (edit c) ++ reader.new.rest.now) }
    ensures cut { reader.new.cut ≡ reader.old.cut }
{
    let device = reader.eui()?;
    Ok(Change::Live { device })
}

/// Reads a device that was removed.
#[tactic(auto, unfolding(crate::specs::Changes::removed_at, zb_model::specs::Record::edit_bytes))]
fn read_removed(reader: &mut Reader<usize>) -> Result<Change, usize>
    ensures exact { Gives result reader.new.rest.now (removed_at reader.old.cut reader.old.rest.now) }
    ensures spelled { IfOk result (λ c. 13 ∷ reader.old.rest.now ≡ edit_bytes (edit c) ++ reader.new.rest.now) }
    ensures cut { reader.new.cut ≡ reader.old.cut }
{
    let device = reader.eui()?;
    Ok(Change::Removed { device })
}

/// Reads a network key and its first counter.
#[tactic(auto, unfolding(crate::specs::Changes::start_at, zb_model::specs::Record::edit_bytes))]
fn read_start(reader: &mut Reader<usize>) -> Result<Change, usize>
    ensures exact { Gives result reader.new.rest.now (start_at reader.old.cut reader.old.rest.now) }
    ensures spelled { IfOk result (λ c. 14 ∷ reader.old.rest.now ≡ edit_bytes (edit c) ++ reader.new.rest.now) }
    ensures cut { reader.new.cut ≡ reader.old.cut }
{
    let key = reader.key()?;
    let value = reader.number32()?;
    Ok(Change::Start { key, value })
}

/// Reads two devices and their key.
#[tactic(auto, unfolding(crate::specs::Changes::pair_at, zb_model::specs::Record::edit_bytes))]
fn read_pair(reader: &mut Reader<usize>) -> Result<Change, usize>
    ensures exact { Gives result reader.new.rest.now (pair_at reader.old.cut reader.old.rest.now) }
    ensures spelled { IfOk result (λ c. 15 ∷ reader.old.rest.now ≡ edit_bytes (edit c) ++ reader.new.rest.now) }
    ensures cut { reader.new.cut ≡ reader.old.cut }
{
    let first = reader.eui()?;
    let second = reader.eui()?;
    let key = reader.key()?;
    Ok(Change::Pair { first, second, key })
}

/// Reads the fields of the kinds 08 to 0F.
#[tactic(auto, unfolding(crate::specs::Changes::later_of))]
fn read_later_of(reader: &mut Reader<usize>, kind: u8) -> Result<Change, usize>
    ensures exact { Gives result reader.new.rest.now (later_of kind reader.old.cut reader.old.rest.now) }
    ensures spelled { IfOk result (λ c. kind ∷ reader.old.rest.now ≡ edit_bytes (edit c) ++ reader.new.rest.now) }
    ensures cut { reader.new.cut ≡ reader.old.cut }
{
    match kind {
        8 => read_became(reader),
        9 => read_roll(reader),
        10 => read_told(reader),
        11 => read_untold(reader),
        12 => read_live(reader),
        13 => read_removed(reader),
        14 => read_start(reader),
        15 => read_pair(reader),
        _ => Err(reader.cut),
    }
}

/// Reads the fields of a kind.
#[tactic(auto, unfolding(crate::specs::Changes::fields_of))]
fn read_fields_of(reader: &mut Reader<usize>, kind: u8) -> Result<Change, usize>
    ensures exact { Gives result reader.new.rest.now (fields_of kind reader.old.cut reader.old.rest.now) }
    ensures spelled { IfOk result (λ c. kind ∷ reader.old.rest.now ≡ edit_bytes (edit c) ++ reader.new.rest.now) }
    ensures cut { reader.new.cut ≡ reader.old.cut }
{
    match kind {
        1 => read_reserve(reader),
        2 => read_floor(reader),
        3 => read_drop_net(reader),
        4 => read_drop_link(reader),
        5 => read_install(reader),
        6 => read_active(reader),
        7 => read_row(reader),
        _ => read_later_of(reader, kind),
    }
}

/// Reads a change other than a draw, which isn't written.
///
/// # Errors
/// The reader's fault at bytes that aren't a change, the same as at a field that isn't whole.
#[tactic(auto, unfolding(crate::specs::Changes::change_at))]
pub fn read_change(reader: &mut Reader<usize>) -> Result<Change, usize>
    ensures exact { Gives result reader.new.rest.now (change_at reader.old.cut reader.old.rest.now) }
    ensures spelled { IfOk result (λ c. reader.old.rest.now ≡ edit_bytes (edit c) ++ reader.new.rest.now) }
    ensures cut { reader.new.cut ≡ reader.old.cut }
{
    let kind = reader.byte()?;
    let change = read_fields_of(reader, kind)?;
    Ok(change)
}
