//! A record of tables is read as these tables after a reset.
ghost use Rattle.std.specs.Prelude.{◌≡◌, ◌≤◌, length, IfOk, Ok};
ghost use Rattle.zb_base.specs.Sizes.{record_room};
ghost use Rattle.zb_model.specs.Record.{record_of};
ghost use Rattle.zb_model.specs.State.{after_boot};
ghost use Rattle.zb_record.specs.Records.{record_read};

use crate::widths::tables_fit_a_record;
use std::alloc::Global;
use zb_base::{NoMemory, OrMemory};
use zb_keys::Tables;
use zb_record::a_written_record_is_read;

/// States that the record of any tables is read as these tables after a reset.
///
/// Counters go on from their limits, and floors are the stored ones.
pub fn a_record_is_read_as_its_tables(tables: &Tables)
    ensures { record_read (record_of tables.now) ≡ Ok (after_boot tables.now) }
{
    tables_fit_a_record(tables);
    tables.keep_rules();
    a_written_record_is_read();
}

/// Returns what `from_record` makes of the bytes that `record_bytes` writes: the tables after a reset.
///
/// Requires room for `RECORD_ROOM` bytes, where the record is written.
///
/// # Errors
/// `NoMemory` where memory is short, and nothing else.
pub fn written_and_read(alloc: Global, tables: &Tables, room: &mut [u8]) -> Result<Tables, NoMemory>
    requires { record_room ≤ length room.old }
    ensures { IfOk result (λ read. read ≡ after_boot tables.now) }
{
    a_record_is_read_as_its_tables(tables);
    let size = tables.record_bytes(room);
    match Tables::from_record(alloc, &room[..size as usize]) {
        Ok(read) => Ok(read),
        Err(OrMemory::NoMemory) => Err(NoMemory),
        Err(OrMemory::Fault(_)) => unreachable!(),
    }
}
