//! Commands over stores that are files, each a run of its own, as those of the program are.

ghost use Rattle.std.specs.Prelude.{None};

use crate::{Outcome, print_outcome, words_of};
use edf_command::{Order, Status, read_command, store_path};
use edf_fragment::{Counted, Output};
use edf_os::{Files, Terminal};
use edf_sample::Sink;
use edf_store::StoreFault;
use edfstore_files::{Cap, Outputs, Watch, open_path, run_opened};
use sqlite::Unknown;
use std::io;

/// Nobody is told how an opening went.
#[derive(Drop)]
struct Unwatched;

impl Watch for Unwatched {
    ghost noticed = { λ _. None };

    fn opened<O: Output>(&mut self, _: &O) {}

    fn refused(&mut self, _: &StoreFault, _: bool) {}
}

/// Runs a command over the files of its store, whose recordings have `cap` data records at most.
fn run_at<O: Output, F: Output>(
    rt: &HostRuntime,
    cap: u32,
    command: &Order,
    outputs: &mut Outputs<O, F, Unwatched>,
) -> Status {
    let terminal = Terminal::new(rt, "file", 0);
    let mut inputs = Files::new(rt, &terminal);
    let (Some(path), Some(cap)) = (store_path(command), Cap::of(cap)) else {
        return Status::Usage;
    };
    let opened = open_path(rt, path, None, Unknown);
    match run_opened(rt.alloc(), opened, cap, command, &mut inputs, outputs) {
        Ok(session) => session.status,
        Err((status, _)) => status,
    }
}

/// Does what words ask for, over the files of a store.
fn outcome_of(rt: &HostRuntime, cap: u32, words: &[String]) -> Outcome {
    let mut out_bytes = Vec::new(rt.alloc());
    let mut err_bytes = Vec::new(rt.alloc());
    let mut out = Counted::new(Sink::whole(&mut out_bytes, 1_000));
    let mut err = Counted::new(Sink::whole(&mut err_bytes, 1_000));
    let status = match read_command(rt.alloc(), words, &mut out, &mut err) {
        Ok(command) => {
            let watch = Unwatched;
            let mut outputs = Outputs { out, err, watch };
            let status = run_at(rt, cap, &command, &mut outputs);
            drop(outputs);
            status
        }
        Err(status) => {
            drop((out, err));
            status
        }
    };
    Outcome {
        out: out_bytes,
        err: err_bytes,
        status,
    }
}

/// Plays a command with a cap before it, and with the name of the file that it is to write behind
/// it, where there is one.
pub(crate) fn play(rt: &HostRuntime, line: &str) -> io::Result<()> {
    let Some((cap, line)) = line.split_once(' ') else {
        return println!(rt; "no command");
    };
    let cap = cap.parse::<u32>().unwrap_or(0);
    let (command, name) = match line.split_once(" = ") {
        Some((command, name)) => (command, Some(name)),
        None => (line, None),
    };
    let words = words_of(rt, command)?;
    print_outcome(rt, &outcome_of(rt, cap, words.as_slice()), name)
}
