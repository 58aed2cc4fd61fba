//! The trust centre's store, served by a script: its commands are carried out one after the other, and what a command
//! changes is stored before its lines are written.
//!
//! The crate hands on how scripts and backups are read and written, and how a restored centre skips counters.
#![tactic(auto)]

mod lines;
mod service;

pub use service::serve;
pub use zb_backup::{BackupError, read_backup, write_backup};
pub use zb_centre_store::{AdminFault, skip};
pub use zb_script::{
    Order, Script, ScriptCause as AdminCause, ScriptError as AdminError, Step, read,
};
