//! How a delivered frame is judged: its NWK layer, then its APS part (05-3474-21, 4.3.1.2 and 4.4.1.2). Each reason is
//! tried in its order, and the first that holds is the answer. A layer that passes gives the term that is accepted.
#![tactic(auto)]

mod aps;
mod counter;
mod known;
mod nwk;
mod opening;

pub use aps::{Unsealed, judge_aps};
pub use known::Known;
pub use nwk::judge_nwk;
