//! Capture files: packets of IEEE 802.15.4 that were heard, in pcap files, and the frames that they hold.
//!
//! A file has a header of 24 bytes and records of 16 bytes and a packet, in either byte order. The link type says
//! whether packets end with their check sequence. The frames are the payloads of plain MAC data frames.
#![tactic(auto)]

mod check;
mod extraction;
mod fault;
mod header;
mod mac;
mod packets;
mod pcap;

pub use check::fcs;
pub use extraction::{Counts, Extraction, extract};
pub use fault::{PcapCause, PcapError};
pub use mac::{Mac, classify};
pub use pcap::{Pcap, read_pcap};
