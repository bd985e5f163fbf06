//! The program once more, with a stored run whose words are no command's.
#![tactic(auto)]

use flux::program;
use std::process::ExitCode;

fn main(rt: HostRuntime) -> ExitCode {
    program(&rt, &rt)
}
