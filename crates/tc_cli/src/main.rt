//! `tc`: a proved Zigbee trust centre. The program runs one command on its standard input and output.
#![tactic(auto)]

mod advice;

use std::process::ExitCode;
use zb_command::run_process;

fn main(rt: HostRuntime) -> ExitCode {
    let ending = run_process(&rt);
    advice::advise(&rt, &ending);
    ExitCode::from(ending.status.number())
}
