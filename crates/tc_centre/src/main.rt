//! `tc_centre`: a proved Zigbee trust centre that runs. It answers the lines of standard input, each as it comes, over
//! the centre's store in a file.
#![tactic(auto)]

mod advice;
mod asked;
mod process;
mod status;

use process::run_process;
use std::process::ExitCode;

fn main(rt: HostRuntime) -> ExitCode {
    let ending = run_process(&rt);
    advice::advise(&rt, &ending);
    ExitCode::from(ending.status.number())
}
