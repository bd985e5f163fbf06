//! The program once more, with a stored run whose text is refused.
#![tactic(auto)]

use flux::program;
use std::process::ExitCode;

fn main(rt: HostRuntime) -> ExitCode {
    program(&rt, &rt)
}
