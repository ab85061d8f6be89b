//! A program, by the words after its name.

use crate::streams::{refuse_words, standard_error, standard_output, words};
use edf_cli::Status;
use edf_fragment::Output;
use std::alloc::Global;
use std::process::ExitCode;

/// A program reads its words as a command, and runs that over the system.
pub trait Program {
    type Command: Drop;

    /// Returns the command that the words after the program's name ask for.
    ///
    /// # Errors
    /// The status that the program ends with, where there is no command to run. Why was written.
    fn read<O: Output, F: Output>(
        alloc: Global,
        words: &[String],
        out: &mut O,
        err: &mut F,
    ) -> Result<Self::Command, Status>;

    /// Does what a command asks for, over the system's files and streams.
    fn run(rt: &HostRuntime, command: &Self::Command) -> Status;
}

/// Does what the words after the program's name ask for, and returns the status.
pub fn run_words<P: Program>(rt: &HostRuntime, words: &[String]) -> Status {
    let mut out = standard_output(rt);
    let mut err = standard_error(rt);
    match P::read(rt.alloc(), words, &mut out, &mut err) {
        Ok(command) => P::run(rt, &command),
        Err(status) => status,
    }
}

/// Does what the program's words ask for, and returns the exit status, 0 to 3.
pub fn run_program<P: Program>(rt: &HostRuntime) -> ExitCode {
    let status = match words(rt) {
        Ok(words) => run_words::<P>(rt, words.as_slice()),
        Err(error) => refuse_words(rt, &error),
    };
    ExitCode::from(status.code())
}
