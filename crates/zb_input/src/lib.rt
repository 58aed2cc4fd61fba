//! What a command reads: the whole input, a capture that arrives in parts, and the words that represent keys.
#![tactic(auto)]

mod capture;
mod incoming;
mod input;
mod keys;

pub use capture::{CaptureFault, read_capture_on};
pub use incoming::{Incoming, Taken};
pub use input::{InputFault, LONGEST, read_input};
pub use keys::{are_keys, read_keys};
