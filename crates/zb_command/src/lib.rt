//! The commands of the program, and `run`, which carries out one of them over a source and a sink.
#![tactic(auto)]

mod admin;
mod audit;
mod campaign;
mod command;
mod exit;
mod input;
mod inspect;
mod install;
mod make;
mod play;
mod process;
mod program;
mod sniff;
mod status;

pub use exit::ExitStatus;
pub use process::{Ending, run_process};
pub use program::run;
pub use status::{Cause, Status};
