//! Floors of senders in a record.
ghost use Rattle.std.specs.Prelude.{◌≡◌, ◌≤◌, [], IfOk, map, true};
ghost use Rattle.std.specs.Int.{w32};
ghost use Rattle.zb_cursor.specs.Reading.{byte_at, eui_at, number_at};
ghost use Rattle.zb_model.specs.Fits.{senders_ascend, most_senders};
ghost use Rattle.zb_record.specs.Placed.{Gives, field, rows_at};
ghost use Rattle.zb_record.specs.Rows.{sender_seen, net_seen, is_last, isnt_zero, has_few, sender_at, floors_at, live_floors_at, all_floors_at};

use crate::net::NetRecord;
use crate::place::begin;
use arrayvec::ArrayVec;
use zb_base::Eui;
use zb_cursor::Reader;

/// The floor of a sender of a record: its EUI 8, its stored floor 4.
#[derive(Clone, Copy, Debug, Default, PartialEq, Eq)]
pub struct SenderRecord {
    /// The sender of the frames.
    pub sender: Eui,
    /// The least counter that is taken.
    pub stored: u32,
}

/// Returns whether a sender may come after these, which ascend: it is above the last.
fn is_last(floors: &[SenderRecord], sender: Eui) -> bool
    requires { senders_ascend (map sender_seen floors.now) ≡ true }
    ensures { result ≡ is_last (map sender_seen floors.now) sender }
{
    match floors.last() {
        Some(floor) => floor.sender.0 < sender.0,
        None => true,
    }
}

/// Reads a sender after these.
fn read_address(reader: &mut Reader<usize>, floors: &[SenderRecord]) -> Result<Eui, usize>
    requires { senders_ascend (map sender_seen floors.now) ≡ true }
    ensures exact { Gives (λ e. e) result reader.new.rest.now
        (field eui_at (is_last (map sender_seen floors.now)) reader.old.rest.now) }
    ensures last { IfOk result (λ e. is_last (map sender_seen floors.now) e ≡ true) }
{
    let left = begin(reader);
    let sender = reader.eui()?;
    if is_last(floors, sender) {
        Ok(sender)
    } else {
        Err(left)
    }
}

/// Reads a floor, which isn't 0.
fn read_stored(reader: &mut Reader<usize>) -> Result<u32, usize>
    ensures { Gives (λ n. n) result reader.new.rest.now (field (number_at w32) isnt_zero reader.old.rest.now) }
{
    let left = begin(reader);
    let stored = reader.number32()?;
    if 0 < stored { Ok(stored) } else { Err(left) }
}

/// Reads the floor of a sender after these.
#[tactic(auto, unfolding(crate::specs::Rows::sender_at))]
fn read_sender(reader: &mut Reader<usize>, floors: &[SenderRecord]) -> Result<SenderRecord, usize>
    requires { senders_ascend (map sender_seen floors.now) ≡ true }
    ensures exact { Gives sender_seen result reader.new.rest.now
        (sender_at (map sender_seen floors.now) reader.old.rest.now) }
    ensures last { IfOk result (λ f. is_last (map sender_seen floors.now) f.sender ≡ true) }
{
    let sender = read_address(reader, floors)?;
    let stored = read_stored(reader)?;
    Ok(SenderRecord { sender, stored })
}

/// Reads `count` floors of senders, 64 at most.
fn read_senders(reader: &mut Reader<usize>, count: u8) -> Result<ArrayVec<SenderRecord, 64>, usize>
    requires { count ≤ most_senders }
    ensures { Gives (λ v. map sender_seen v.items) result reader.new.rest.now
        (rows_at sender_at count [] reader.old.rest.now) }
{
    let mut floors = ArrayVec::new();
    for _ in 0..count {
        let floor = read_sender(reader, floors.as_slice())?;
        floors.push(floor);
    }
    Ok(floors)
}

/// Reads how many floors there are: 64 at most.
fn read_count(reader: &mut Reader<usize>) -> Result<u8, usize>
    ensures exact { Gives (λ n. n) result reader.new.rest.now (field byte_at has_few reader.old.rest.now) }
    ensures few { IfOk result (λ n. n ≤ most_senders) }
{
    let left = begin(reader);
    let count = reader.byte()?;
    if count <= 64 { Ok(count) } else { Err(left) }
}

/// Reads the floors under a network key.
#[tactic(auto, unfolding(crate::specs::Rows::floors_at))]
fn read_floors(reader: &mut Reader<usize>) -> Result<ArrayVec<SenderRecord, 64>, usize>
    ensures { Gives (λ v. map sender_seen v.items) result reader.new.rest.now (floors_at reader.old.rest.now) }
{
    let count = read_count(reader)?;
    let floors = read_senders(reader, count)?;
    Ok(floors)
}

/// Reads the floors under a network key, if the key is live.
fn read_live_floors(reader: &mut Reader<usize>, row: &mut NetRecord) -> Result<(), usize>
    ensures { Gives (λ done. net_seen row.new) result reader.new.rest.now
        (live_floors_at (net_seen row.old) reader.old.rest.now) }
{
    if row.live {
        row.floors = read_floors(reader)?;
    }
    Ok(())
}

/// Reads the floors under the live network keys.
///
/// # Errors
/// The length from the first byte of the first bad field to the end. A field is bad if it isn't whole or breaks a
/// rule.
pub(crate) fn read_all_floors(
    reader: &mut Reader<usize>,
    rows: &mut [NetRecord],
) -> Result<(), usize>
    ensures { Gives (λ done. map net_seen rows.new) result reader.new.rest.now
        (all_floors_at [] (map net_seen rows.old) reader.old.rest.now) }
{
    for row in rows.iter_mut() {
        read_live_floors(reader, row)?;
    }
    Ok(())
}
