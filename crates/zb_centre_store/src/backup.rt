//! The line of a backup.
ghost use Rattle.std.specs.Prelude.{◌≡◌, ◌++◌, OnOk};
ghost use Rattle.zb_backup.specs.Format.{backup_text};
ghost use Rattle.zb_centre_store.specs.Calls.{IsShort};
ghost use Rattle.zb_text.specs.Pages.{ended};

use crate::AdminFault;
use std::alloc::Global;
use zb_backup::write_backup;
use zb_keys::Tables;
use zb_text::page::{end_line, put};

/// Prints the backup of tables as one line.
///
/// # Errors
/// `NoMemory`.
#[tactic(auto, using(std::proofs::Common::append_assoc))]
pub fn put_backup(alloc: Global, page: &mut Vec<u8>, tables: &Tables) -> Result<(), AdminFault>
    ensures text { OnOk result (page.new.items ≡ page.old.items ++ ended (backup_text tables.now)) }
    ensures short { IsShort result }
{
    let text = write_backup(alloc, tables)?;
    put(page, text.as_slice())?;
    end_line(page)?;
    Ok(())
}
