//! The programs that have no store, over the files of the folder.

use crate::{Outcome, print_out, print_outcome, words_of};
use edf_fragment::Counted;
use edf_os::{Files, PartFiles, Terminal};
use edf_sample::Sink;
use std::{fs, io};

/// Does what words ask `edfruns` for.
fn outcome_of_runs(rt: &HostRuntime, words: &[String]) -> Outcome {
    let terminal = Terminal::new(rt, "file", 0);
    let mut inputs = Files::new(rt, &terminal);
    let mut folder = PartFiles::new(rt, &terminal);
    let mut out_bytes = Vec::new(rt.alloc());
    let mut err_bytes = Vec::new(rt.alloc());
    let mut out = Counted::new(Sink::whole(&mut out_bytes, 1_000));
    let mut err = Counted::new(Sink::whole(&mut err_bytes, 1_000));
    let status = match edfruns_command::read_command(rt.alloc(), words, &mut out, &mut err) {
        Ok(command) => edfruns_command::run_runs(
            rt.alloc(),
            &command,
            &mut inputs,
            &mut folder,
            &mut out,
            &mut err,
        ),
        Err(status) => status,
    };
    drop((out, err));
    Outcome {
        out: out_bytes,
        err: err_bytes,
        status,
    }
}

/// Does what words ask `edfmend` for.
fn outcome_of_mend(rt: &HostRuntime, words: &[String]) -> Outcome {
    let terminal = Terminal::new(rt, "file", 0);
    let mut inputs = Files::new(rt, &terminal);
    let mut folder = PartFiles::new(rt, &terminal);
    let mut out_bytes = Vec::new(rt.alloc());
    let mut err_bytes = Vec::new(rt.alloc());
    let mut out = Counted::new(Sink::whole(&mut out_bytes, 1_000));
    let mut err = Counted::new(Sink::whole(&mut err_bytes, 1_000));
    let status = match edfmend_command::read_command(rt.alloc(), words, &mut out, &mut err) {
        Ok(command) => edfmend_command::run_mend(
            rt.alloc(),
            &command,
            &mut inputs,
            &mut folder,
            &mut out,
            &mut err,
        ),
        Err(status) => status,
    };
    drop((out, err));
    Outcome {
        out: out_bytes,
        err: err_bytes,
        status,
    }
}

/// Plays words of a program, with the name of the file that standard output is to have.
fn play_words(
    rt: &HostRuntime,
    program: &str,
    words: &str,
    name: Option<&str>,
) -> io::Result<bool> {
    match program {
        "edfruns" => {
            let words = words_of(rt, words)?;
            print_outcome(rt, &outcome_of_runs(rt, words.as_slice()), name)?;
        }
        "edfmend" => {
            let words = words_of(rt, words)?;
            print_outcome(rt, &outcome_of_mend(rt, words.as_slice()), name)?;
        }
        "cat" => print_out(rt, fs::read(rt, words)?.as_slice(), name)?,
        _ => return Ok(false),
    }
    Ok(true)
}

/// Plays a line that begins with the name of a program. Whether it does.
pub(crate) fn play(rt: &HostRuntime, line: &str) -> io::Result<bool> {
    let Some((program, rest)) = line.split_once(' ') else {
        return Ok(false);
    };
    match rest.split_once(" = ") {
        Some((words, name)) => play_words(rt, program, words, Some(name)),
        None => play_words(rt, program, rest, None),
    }
}
