//! Memory that runs out, under each budget until one suffices.

ghost use Rattle.std.specs.Prelude.{None, map, string_bytes};

use crate::files::two_gaps;
use crate::folder::{Folder, free};
use edf_cli::{Inputs, Status};
use edf_fragment::Counted;
use edf_sample::{Scarce, Sink, Source};
use edfruns_command::{RunsCommand, run_runs};
use std::alloc::{AllocError, Global};

/// One file, whatever the name.
#[derive(Drop)]
struct Held<'a> {
    bytes: &'a [u8],
    /// The names that were opened, in turn.
    names: Vec<String>,
}

impl<'a> Inputs for Held<'a> {
    type Reader = Counted<Source<'a>>;

    ghost bytes = { λ _ _. None };

    ghost opened = { λ held. map string_bytes held.names.items };

    fn open(&mut self, alloc: Global, name: &str) -> Result<Counted<Source<'a>>, AllocError> {
        self.names.push(String::from_str(alloc, name)?)?;
        Ok(Counted::new(Source::whole(self.bytes, 300)))
    }
}

/// How a budget served.
#[derive(Clone, Copy, Debug, PartialEq, Eq)]
enum Served {
    /// Memory ran out.
    Short,
    /// It sufficed.
    Whole,
}

/// What `canonical` by onset tells of two gaps, in one of which an annotation lies.
const OUTSIDE: &[u8] = b"two.edf outside=1\n";

/// The same of standard input.
const STREAM_OUTSIDE: &[u8] = b"- outside=1\n";

/// Whether these are the lines of a command that was done.
fn are_lines_of_done(err: &[u8]) -> bool {
    err.is_empty() || err == OUTSIDE || err == STREAM_OUTSIDE
}

/// Whether these are the lines of a command without memory.
fn are_lines_of_short(err: &[u8]) -> bool {
    err.is_empty()
        || err == b"two.edf refused E41 Memory\n".as_slice()
        || err == b"- refused E41 Memory\n".as_slice()
        || err.starts_with(b"night-") && err.ends_with(b".edf refused E43 Write\n")
}

/// Whether each line that was written is of a file that is left, the last of which may have none.
fn has_files(out: &[u8], files: usize) -> bool {
    let lines = out.iter().filter(|byte| **byte == b'\n').count();
    (out.is_empty() || out.ends_with(b"\n")) && lines <= files && files - lines <= 1
}

/// How the budget served under which a command ended so, wrote so and left so many files; `None`
/// where it may not. For want of memory a file may also count as one that can't be written.
fn how_served(status: Status, out: &[u8], err: &[u8], files: usize) -> Option<Served> {
    match status {
        Status::Done if !out.is_empty() && are_lines_of_done(err) => Some(Served::Whole),
        Status::Trouble if has_files(out, files) && are_lines_of_short(err) => Some(Served::Short),
        _ => None,
    }
}

/// Runs a command over two gaps under a budget.
fn run_under(
    alloc: Global,
    command: &RunsCommand,
    scarce: &mut Scarce,
    budget: usize,
) -> Option<Served> {
    let bytes = two_gaps(alloc)?;
    let mut out_bytes = Vec::with_capacity(alloc, 10_000).ok()?;
    let mut err_bytes = Vec::with_capacity(alloc, 1_000).ok()?;
    let names = Vec::new(alloc);
    let mut held = Held {
        bytes: &bytes,
        names,
    };
    let mut folder = Folder::new(alloc, free());
    if !scarce.leave(alloc, budget) {
        return None;
    }
    let mut out = Counted::new(Sink::whole(&mut out_bytes, 1_000));
    let mut err = Counted::new(Sink::whole(&mut err_bytes, 1_000));
    let status = run_runs(alloc, command, &mut held, &mut folder, &mut out, &mut err);
    drop((out, err));
    scarce.ease();
    how_served(status, &out_bytes, &err_bytes, folder.left())
}

/// Under how many budgets memory runs out until one suffices; `None` where one is served otherwise,
/// or none suffices.
fn short_until_whole(alloc: Global, command: &RunsCommand) -> Option<u32> {
    let mut scarce = Scarce::new(alloc).ok()?;
    for turn in 0..10_000u32 {
        let budget = if turn == 0 {
            0
        } else {
            (turn as usize).saturating_mul(16).saturating_add(1_084)
        };
        match run_under(alloc, command, &mut scarce, budget)? {
            Served::Short => {}
            Served::Whole => return Some(turn),
        }
    }
    None
}

/// A text of the words.
fn word(alloc: Global, text: &str) -> Option<String> {
    String::from_str(alloc, text).ok()
}

/// The command to write the canonical file of two gaps.
fn canonical(alloc: Global, is_by_onset: bool) -> Option<RunsCommand> {
    Some(RunsCommand::Canonical {
        file: word(alloc, "two.edf")?,
        is_by_onset,
    })
}

/// The commands to list two gaps, to write its canonical file, as it is and by onset, to split it,
/// and to draw it.
fn commands(alloc: Global) -> Option<[RunsCommand; 5]> {
    let mut files = Vec::new(alloc);
    files.push(word(alloc, "two.edf")?).ok()?;
    let split = RunsCommand::Split {
        file: word(alloc, "two.edf")?,
        prefix: word(alloc, "night")?,
    };
    let picture = RunsCommand::Picture {
        file: word(alloc, "two.edf")?,
        has_code: true,
    };
    Some([
        RunsCommand::List { files },
        canonical(alloc, false)?,
        canonical(alloc, true)?,
        split,
        picture,
    ])
}

#[test]
fn a_command_without_memory_writes_at_most_lines_of_files_that_it_left(rt: HostRuntime) {
    let Some(commands) = commands(rt.alloc()) else {
        assert!(rt; false, "out of memory");
        return;
    };
    for command in &commands {
        let short = short_until_whole(rt.alloc(), command);
        assert!(rt; matches!(short, Some(10..)), "{command:?}: {short:?}");
    }
}
