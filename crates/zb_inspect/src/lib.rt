//! The inspector: what the frames of a capture show to somebody who knows some keys, written as a report.
#![tactic(auto)]

mod block;
mod cut;
mod fault;
mod first;
mod key_ring;
mod keys;
mod lines;
mod piece;
mod reporting;
mod rounds;

pub use block::{Block, Seen};
pub use fault::InspectFault;
pub use key_ring::{Lead, Ring, RingKey};
pub use keys::ring;
pub use piece::Piece;
pub use reporting::report;
pub use rounds::{Opened, open_all};
pub use zb_capture::{Capture, CaptureCause, CaptureError, read_capture};
pub use zb_parallel::Gate;
