//! Plays a schedule. Each node is a host over a disk of its own, and each event is answered by the node that it is of.
//! What happens is written as a transcript, line by line.
#![tactic(auto)]

mod bench;
mod fault;
mod player;
mod run;
mod summary;

pub use bench::{Bench, Still};
pub use fault::PlayFault;
pub use player::{play, play_unread};
pub use summary::Summary;
pub use zb_player_start::Spare;
