//! APS frames, read and written (05-3474-21, 2.2.5 and 4.5.1). A frame has at most 127 bytes. The reader makes a value
//! from bytes, or finds their first fault. The writer makes the one spelling of a value.
#![tactic(auto)]

mod auxiliary;
mod fault;
mod frame;
mod header;
mod laws;

pub use auxiliary::ApsAux;
pub use fault::ApsError;
pub use frame::{ApsFrame, read, read_into, write};
pub use header::{ApsHeader, Extended};
pub use laws::round_trips;
pub use zb_cursor::TooLong;
