//! The program `edfstore`, run, and then what the file `orders` asks for, a line each:
//!
//! - `# TEXT`: a title, of the lines after it;
//! - `store N`: an empty store in memory, whose recordings have N data records at most;
//! - `edfstore WORDS`: the program by these words, over stores that are files;
//! - `files N WORDS`: a command over the files of the store that it names, a run of its own, whose
//!   recordings have N data records at most;
//! - `edfruns WORDS`, `edfmend WORDS`: a command of these programs, over files;
//! - `cat FILE`: the bytes of a file;
//! - other words: a command over the store in memory.
//!
//! After ` = NAME` a line says whether standard output has just the bytes of that file, in place of
//! the bytes. Each line is written out. After a command comes what it writes: to standard output,
//! and to standard error after `err: `, but for that of `edfstore WORDS`; then a line with its
//! status.
#![tactic(auto)]

mod file_programs;
mod over_files;

use edf_command::{Status, read_command, run};
use edf_fragment::Counted;
use edf_header::MOST_RECORDS;
use edf_os::{Files, Terminal};
use edf_sample::Sink;
use edf_store::Store;
use edfstore_open::{run_program, run_words};
use sqlite::{Connection, MemStore};
use std::alloc::{AllocError, Global};
use std::io::Write;
use std::process::ExitCode;
use std::{fs, io};

/// The words of a line.
fn words_of(rt: &HostRuntime, line: &str) -> Result<Vec<String>, AllocError> {
    let mut words = Vec::new(rt.alloc());
    for word in line.split_whitespace() {
        words.push(String::from_str(rt.alloc(), word)?)?;
    }
    Ok(words)
}

/// Runs the program by words.
fn run_line(rt: &HostRuntime, line: &str) -> io::Result<()> {
    let words = words_of(rt, line)?;
    let status = run_words(rt, words.as_slice());
    println!(rt; "status {}", status.code())
}

/// An empty store.
fn empty_store(alloc: Global, cap: &str) -> Option<Store<MemStore>> {
    let cap = cap.parse::<u32>().ok()?;
    if cap == 0 || cap > MOST_RECORDS {
        return None;
    }
    let conn = Connection::open_in_memory(alloc).ok()?;
    Store::open(alloc, conn, cap).ok()
}

/// What a command wrote, and how it ended.
#[derive(Drop)]
struct Outcome {
    out: Vec<u8>,
    err: Vec<u8>,
    status: Status,
}

/// Does what words ask for, over a store.
fn run_over(rt: &HostRuntime, store: &mut Store<MemStore>, words: &[String]) -> Outcome {
    let terminal = Terminal::new(rt, "file", 0);
    let mut inputs = Files::new(rt, &terminal);
    let mut out_bytes = Vec::new(rt.alloc());
    let mut err_bytes = Vec::new(rt.alloc());
    let mut out = Counted::new(Sink::whole(&mut out_bytes, 1_000));
    let mut err = Counted::new(Sink::whole(&mut err_bytes, 1_000));
    let status = match read_command(rt.alloc(), words, &mut out, &mut err) {
        Ok(command) => run(rt.alloc(), &command, store, &mut inputs, &mut out, &mut err),
        Err(status) => status,
    };
    drop((out, err));
    Outcome {
        out: out_bytes,
        err: err_bytes,
        status,
    }
}

/// Writes out what a command wrote, or whether that is the file of a name.
fn print_out(rt: &HostRuntime, out: &[u8], name: Option<&str>) -> io::Result<()> {
    let Some(name) = name else {
        return rt.stdout().write_all(out);
    };
    let expected = fs::read(rt, name)?;
    let len = out.len();
    if expected.as_slice() == out {
        println!(rt; "just {name}, {len} bytes")
    } else {
        println!(rt; "not {name}, {len} bytes")
    }
}

/// Writes out how a command ended, with the name of the file that it is to write.
fn print_outcome(rt: &HostRuntime, outcome: &Outcome, name: Option<&str>) -> io::Result<()> {
    print_out(rt, outcome.out.as_slice(), name)?;
    if !outcome.err.is_empty() {
        print!(rt; "err: ")?;
        rt.stdout().write_all(outcome.err.as_slice())?;
    }
    println!(rt; "status {}", outcome.status.code())
}

/// Plays a command over a store, with the name of the file that it is to write.
fn play_command(
    rt: &HostRuntime,
    store: &mut Store<MemStore>,
    line: &str,
    name: Option<&str>,
) -> io::Result<()> {
    let words = words_of(rt, line)?;
    print_outcome(rt, &run_over(rt, store, words.as_slice()), name)
}

/// Plays a line that is neither a title nor words of a program.
fn play_over(rt: &HostRuntime, store: &mut Option<Store<MemStore>>, line: &str) -> io::Result<()> {
    if let Some(cap) = line.strip_prefix("store ") {
        *store = empty_store(rt.alloc(), cap);
        return Ok(());
    }
    let Some(store) = store else {
        return println!(rt; "no store");
    };
    match line.split_once(" = ") {
        Some((command, name)) => play_command(rt, store, command, Some(name)),
        None => play_command(rt, store, line, None),
    }
}

fn play_all(rt: &HostRuntime) -> io::Result<()> {
    let orders = fs::read_to_string(rt, "orders")?;
    let mut store = None;
    for line in orders.as_str().lines() {
        println!(rt; "{line}")?;
        if let Some(words) = line.strip_prefix("edfstore ") {
            run_line(rt, words)?;
        } else if let Some(line) = line.strip_prefix("files ") {
            over_files::play(rt, line)?;
        } else if !line.starts_with('#') && !file_programs::play(rt, line)? {
            play_over(rt, &mut store, line)?;
        }
    }
    Ok(())
}

fn main(rt: HostRuntime) -> ExitCode {
    let status = run_program(&rt);
    match play_all(&rt) {
        Ok(()) => status,
        Err(_) => ExitCode::FAILURE,
    }
}
