//! Proved parts of a Zigbee trust centre for C: keys of install codes, keyed hashes, opening and sealing frames.
//!
//! Each call reads its arguments and keeps nothing. It returns 0, or what was wrong first; then nothing was written.
//! The header is `include/tc.h`.
#![tactic(auto)]

mod key;
mod keyed;
mod laws;
mod link_key;
mod open_aps;
mod open_nwk;
mod opened;
mod seal_nwk;

pub use keyed::tc_keyed;
pub use laws::what_is_sealed_opens_again;
pub use link_key::tc_link_key;
pub use open_aps::tc_open_aps;
pub use open_nwk::tc_open_nwk;
pub use opened::TcOpened;
pub use seal_nwk::tc_seal_nwk;
