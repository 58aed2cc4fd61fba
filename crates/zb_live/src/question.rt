//! The questions of a session: what a line shows of the tables. A question changes nothing.
ghost use Rattle.std.specs.Prelude.{◌≡◌, ◌++◌, OnOk};
ghost use Rattle.zb_centre_store.specs.Calls.{IsShort};
ghost use Rattle.zb_live.specs.Questions.{question_text};

use std::alloc::Global;
use zb_centre_store::{AdminFault, put_backup, put_tables};
use zb_keys::Tables;

/// What a line shows of the tables.
#[derive(Clone, Copy, Debug, PartialEq, Eq)]
pub enum Question {
    /// `list`: what is kept.
    List,
    /// `backup`: the backup.
    Backup,
}

/// Prints what a question shows of tables.
///
/// # Errors
/// `NoMemory`.
pub(crate) fn put_asked(
    alloc: Global,
    page: &mut Vec<u8>,
    question: Question,
    tables: &Tables,
) -> Result<(), AdminFault>
    ensures text { OnOk result (page.new.items ≡ page.old.items ++ question_text question tables.now) }
    ensures short { IsShort result }
{
    match question {
        Question::List => {
            put_tables(page, tables)?;
            Ok(())
        }
        Question::Backup => put_backup(alloc, page, tables),
    }
}
