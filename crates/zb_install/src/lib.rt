//! Install codes (Base Device Behavior): the code that is printed on a device, with its CRC, and the link key that
//! results from it.
#![tactic(auto)]

pub use check::crc;
pub use code_error::CodeError;
pub use dividing::divide;
pub use install_code::InstallCode;

mod check;
mod code_error;
mod dividing;
mod install_code;
mod remainders;
