//! The commands of the security plane, read and written: those of the APS (05-3474-21, 4.4.10) and Leave of the NWK
//! (3.4.4). Each has one spelling of at most 127 bytes.
#![tactic(auto)]

mod command;
mod fault;
mod laws;
mod leave;
mod request;
mod transport;
mod tunnel;

pub use command::{Command, read_command, write_command};
pub use fault::CmdError;
pub use laws::round_trips;
pub use leave::{Leave, read_leave, write_leave};
pub use tunnel::inner_ok;
pub use zb_cursor::TooLong;
