//! The program `edfmend`: makes an EDF+ file of one that is almost EDF+. What is read, written and
//! answered is `edfmend_command`'s; here the system is handed to it.
#![tactic(auto)]

use edf_cli::Status;
use edf_fragment::Output;
use edf_os::{Files, PartFiles, Program, Streams, Terminal, run_program};
use edfmend_command::{MendCommand, read_command, run_mend};
use std::alloc::Global;
use std::process::ExitCode;

/// Returns how often a file is read: once more where nothing is asked of it, for it may be good.
fn readings_of(command: &MendCommand) -> usize {
    if command.wanted.asks_nothing() { 3 } else { 2 }
}

/// Runs a command over the system's files and streams.
fn run_over(
    rt: &HostRuntime,
    command: &MendCommand,
    inputs: &mut Files<'_>,
    maker: &mut PartFiles<'_>,
    streams: &mut Streams<'_>,
) -> Status {
    run_mend(
        rt.alloc(),
        command,
        inputs,
        maker,
        &mut streams.out,
        &mut streams.err,
    )
}

/// The program.
struct Edfmend;

impl Program for Edfmend {
    type Command = MendCommand;

    fn read<O: Output, F: Output>(
        alloc: Global,
        words: &[String],
        out: &mut O,
        err: &mut F,
    ) -> Result<MendCommand, Status> {
        read_command(alloc, words, out, err)
    }

    fn run(rt: &HostRuntime, command: &MendCommand) -> Status {
        let terminal = Terminal::of_mender(rt, "reading", readings_of(command));
        let mut streams = Streams::new(rt, &terminal);
        let mut inputs = Files::regular(rt, &terminal);
        let mut maker = PartFiles::new(rt, &terminal);
        let status = run_over(rt, command, &mut inputs, &mut maker, &mut streams);
        terminal.wipe_progress();
        status
    }
}

fn main(rt: HostRuntime) -> ExitCode {
    run_program::<Edfmend>(&rt)
}
