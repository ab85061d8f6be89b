//! The program `edfruns`: lists the runs of a sleep recording, writes each as an EDF+C file, and
//! draws a picture of it. What is read, written and answered is `edfruns_command`'s; here the
//! system is handed to it.
#![tactic(auto)]

use edf_cli::Status;
use edf_fragment::Output;
use edf_os::{Files, PartFiles, Program, Streams, Terminal, refuse_terminal, run_program};
use edfruns_command::{RunsCommand, read_command, run_runs};
use std::alloc::Global;
use std::process::ExitCode;

/// Runs a command over the system's files and streams.
fn run_over(
    rt: &HostRuntime,
    command: &RunsCommand,
    inputs: &mut Files<'_>,
    outputs: &mut PartFiles<'_>,
    streams: &mut Streams<'_>,
) -> Status {
    run_runs(
        rt.alloc(),
        command,
        inputs,
        outputs,
        &mut streams.out,
        &mut streams.err,
    )
}

/// The program.
struct Edfruns;

impl Program for Edfruns {
    type Command = RunsCommand;

    fn read<O: Output, F: Output>(
        alloc: Global,
        words: &[String],
        out: &mut O,
        err: &mut F,
    ) -> Result<RunsCommand, Status> {
        read_command(alloc, words, out, err)
    }

    fn run(rt: &HostRuntime, command: &RunsCommand) -> Status {
        if command.writes_edf()
            && let Some(status) = refuse_terminal(rt)
        {
            return status;
        }
        let terminal = Terminal::new(rt, "reading", command.readings());
        let mut streams = Streams::new(rt, &terminal);
        let mut inputs = Files::new(rt, &terminal);
        let mut outputs = PartFiles::new(rt, &terminal);
        let status = run_over(rt, command, &mut inputs, &mut outputs, &mut streams);
        terminal.wipe_progress();
        status
    }
}

fn main(rt: HostRuntime) -> ExitCode {
    run_program::<Edfruns>(&rt)
}
