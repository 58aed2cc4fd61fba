//! Captures: a text with known keys, install codes and addresses, and the frames that were heard.
//!
//! A capture has lines `key KEY`, `code HEX`, `addr SHORT EUI` and `frame HEX`. Empty lines and lines that begin with
//! `#` are skipped, but have numbers.
#![tactic(auto)]

mod addresses;
mod capture;
mod draft;
mod fault;
mod fields;
mod frames;
mod pieces;
mod reader;
mod reading;
mod run;

pub use capture::Capture;
pub use fault::{CaptureCause, CaptureError};
pub use frames::Frames;
pub use pieces::whole_lines;
pub use reader::CaptureReader;
pub use reading::{read_capture, read_in_pieces};
pub use run::FrameRun;
