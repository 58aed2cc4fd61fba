//! What a disk keeps of a node, both ways: the rows of its tables, the record, and the changes of journal entries.
#![tactic(auto)]

mod change;
mod field;
mod laws;
mod link;
pub mod link_row;
mod links_so_far;
mod marks;
mod net;
pub mod net_row;
mod pair;
pub mod pair_row;
mod payload;
mod place;
mod record;
mod sender;
mod version;
mod write;
mod writing;

pub use change::read_change;
pub use laws::{
    a_first_version_has_one_limit, a_written_record_is_read, what_is_read_keeps_the_rules,
    written_changes_are_made_again,
};
pub use link::LinkRecord;
pub use link_row::LinkRow;
pub use net::NetRecord;
pub use net_row::{NetRow, SenderFloor};
pub use pair::PairRecord;
pub use pair_row::Pair;
pub use payload::{attribute_byte, change_bytes, state_byte};
pub use record::{Head, Node, Record, read_record};
pub use sender::SenderRecord;
pub use version::{Version, version_of};
pub use write::{Heading, role_byte, write_record};
