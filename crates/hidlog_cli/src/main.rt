//! The program `hidlog`: replays text logs of CTAPHID sessions.
#![tactic(auto)]

use std::process::ExitCode;

fn main(rt: HostRuntime) -> ExitCode {
    hidlog::run_process(&rt)
}
