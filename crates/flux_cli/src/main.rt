//! The program.
#![tactic(auto)]

use flux::program;
use std::process::ExitCode;

fn main(rt: HostRuntime) -> ExitCode {
    program(&rt, &rt)
}
