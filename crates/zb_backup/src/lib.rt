//! Backups of a centre's tables: a JSON object that a person can read and a script can keep, and the tables that it
//! gives again.
//!
//! `write_backup` writes it in one compact line. `read_backup` takes exactly the texts that are backups. The order of
//! members, white space and the case of hexadecimal digits are free there. Of a member that is there twice the last
//! one counts.
#![tactic(auto)]

mod digits;
mod error;
mod hold;
mod laws;
mod read;
mod told;
mod told_rows;
mod write;

pub use error::BackupError;
pub use laws::backups_are_read_both_ways;
pub use read::read_backup;
pub use write::write_backup;
