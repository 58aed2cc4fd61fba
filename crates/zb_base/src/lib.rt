//! The words that all crates of the security plane share: addresses, keys, frames, the roles and states of nodes, and
//! a node's configuration. The crate also has the two traits by which the program reads and writes.
#![tactic(auto)]

mod address;
mod fault;
mod frame;
mod key;
mod label;
mod limits;
mod list;
mod node;
mod numbers;
mod place;
mod sink;
mod sizes;
mod source;
mod state;

pub use address::{Eui, Short};
pub use fault::{Failed, NoMemory, OrMemory};
pub use frame::{Frame, Name};
pub use key::{Key, WELL_KNOWN};
pub use label::{Label, Layer};
pub use limits::{
    LAST_START, LONGEST_FRAME, MOST_EVENTS, MOST_FRAMES, MOST_IN_BLOCK, MOST_JOBS, MOST_KEYS,
    MOST_MADE, MOST_NODES, MOST_OUT_BLOCK, MOST_RUNS, MOST_STEPS,
};
pub use list::List;
pub use node::{Config, Peer, Role};
pub use place::Place;
pub use sink::{MemSink, NullSink, Sink, StdSink};
pub use sizes::{ENTRIES_ROOM, PAYLOAD_ROOM, RECORD_ROOM};
pub use source::{MemSource, Source, StdSource};
pub use state::{Attribute, Rollover, State};
