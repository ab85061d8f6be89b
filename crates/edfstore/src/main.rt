//! The program `edfstore` takes, lists, exports and converts sleep recordings, by `edfstore_open`.
#![tactic(auto)]

use edfstore_open::run_program;
use std::process::ExitCode;

fn main(rt: HostRuntime) -> ExitCode {
    run_program(&rt)
}
