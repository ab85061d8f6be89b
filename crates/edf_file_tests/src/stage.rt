//! Commands, run over a shelf and a folder.

use crate::folder::{Folder, Limits, free};
use crate::shelf::Shelf;
use edf_cli::Status;
use edf_fragment::{Counted, Output};
use edf_sample::Sink;
use std::alloc::Global;

/// What was written for a line of words, how it ended, and how many files are left.
#[derive(Drop)]
pub(crate) struct Outcome {
    pub(crate) out: Vec<u8>,
    pub(crate) err: Vec<u8>,
    pub(crate) status: Status,
    pub(crate) left: usize,
}

/// The words of a line.
fn words(alloc: Global, line: &str) -> Option<Vec<String>> {
    let mut words = Vec::new(alloc);
    for word in line.split_whitespace() {
        words.push(String::from_str(alloc, word).ok()?).ok()?;
    }
    Some(words)
}

/// Does what words ask `edfruns` for.
fn status_of_runs<O: Output, F: Output>(
    alloc: Global,
    words: &[String],
    shelf: &mut Shelf,
    folder: &mut Folder,
    out: &mut O,
    err: &mut F,
) -> Status {
    match edfruns_command::read_command(alloc, words, out, err) {
        Ok(command) => edfruns_command::run_runs(alloc, &command, shelf, folder, out, err),
        Err(status) => status,
    }
}

/// Does what words ask `edfmend` for.
fn status_of_mend<O: Output, F: Output>(
    alloc: Global,
    words: &[String],
    shelf: &mut Shelf,
    folder: &mut Folder,
    out: &mut O,
    err: &mut F,
) -> Status {
    match edfmend_command::read_command(alloc, words, out, err) {
        Ok(command) => edfmend_command::run_mend(alloc, &command, shelf, folder, out, err),
        Err(status) => status,
    }
}

/// Does what a line asks for, whose first word is the program. Standard output has this much room.
pub(crate) fn outcome_of(
    alloc: Global,
    mut shelf: Shelf,
    limits: Limits,
    room: usize,
    line: &str,
) -> Option<Outcome> {
    let words = words(alloc, line)?;
    let (program, asked) = words.split_first()?;
    let mut folder = Folder::new(alloc, limits);
    let mut out_bytes = Vec::new(alloc);
    let mut err_bytes = Vec::new(alloc);
    let mut out = Counted::new(Sink::of_room(&mut out_bytes, room, false));
    let mut err = Counted::new(Sink::whole(&mut err_bytes, 100));
    let status = if program.as_str() == "edfmend" {
        status_of_mend(alloc, asked, &mut shelf, &mut folder, &mut out, &mut err)
    } else {
        status_of_runs(alloc, asked, &mut shelf, &mut folder, &mut out, &mut err)
    };
    drop((out, err));
    Some(Outcome {
        out: out_bytes,
        err: err_bytes,
        status,
        left: folder.left(),
    })
}

/// The text of standard output, then that of standard error after `err: `, then the status and how
/// many files are left.
pub(crate) fn story(
    alloc: Global,
    shelf: Shelf,
    limits: Limits,
    room: usize,
    line: &str,
) -> Option<String> {
    let mut outcome = outcome_of(alloc, shelf, limits, room, line)?;
    if !outcome.err.is_empty() {
        outcome.out.extend_from_slice(b"err: ").ok()?;
        outcome.out.extend_from_slice(outcome.err.as_slice()).ok()?;
    }
    let (code, left) = (outcome.status.code(), outcome.left);
    let ended = format!(in alloc; "status {code}, {left} files\n").ok()?;
    outcome.out.extend_from_slice(ended.as_bytes()).ok()?;
    String::from_utf8(outcome.out).ok()
}

/// The story of a line over files that stay as they are, a folder without limits, and room for all.
pub(crate) fn plain_story(alloc: Global, line: &str) -> Option<String> {
    story(alloc, Shelf::new(alloc), free(), usize::MAX, line)
}
