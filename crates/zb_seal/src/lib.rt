//! Sealing and opening the layers of a frame (05-3474-21, 4.3.1, 4.4.1 and 4.5).
#![tactic(auto)]

mod carrying;
mod envelope;
mod key;
mod laws;
mod memo;
mod opening;
mod sealing;
mod sealing_keys;
mod term;

pub use carrying::{carried, is_command};
pub use envelope::{Envelope, NwkEnvelope, OpenError};
pub use key::{nonce, real_level, sealing_key, zero_level};
pub use laws::wire_and_open;
pub use memo::KeyMemo;
pub use opening::{
    envelope_aps, envelope_nwk, label_of, look_aps, look_nwk, open_aps, open_aps_with, open_nwk,
    open_nwk_with,
};
pub use sealing::{wire, wire_with};
pub use sealing_keys::SealingKeys;
pub use term::Term;
pub use zb_cursor::TooLong;
