//! Campaigns: many generated schedules, each of them played, and the ends of their runs, with any number of jobs.
#![tactic(auto)]

mod fault;
mod lines;
mod runs;
mod total;
mod writing;

pub use fault::CampaignFault;
pub use writing::campaign;
pub use zb_player::{PlayFault, Still, play};
