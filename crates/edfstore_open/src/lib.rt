//! Stores by their paths: opened, waited for, and explained to a person; and the program
//! `edfstore`, which reads and answers by `edf_command`.
//!
//! ```rust
//! /// Copies the log of a store into its database file.
//! fn settle<F: Output>(rt: &HostRuntime, path: &str, err: &mut F) -> bool {
//!     let standing = Standing::new(rt, path);
//!     match open_standing(&standing, Unknown) {
//!         Ok(conn) => close(conn, Status::Done, err).failure.is_none() && standing.has_stood(),
//!         Err((_error, _rest)) => false,
//!     }
//! }
//! ```
//!
//! - [`run_program`] is the program; [`run_words`] runs it by words that the caller has.
//! - [`open_when_free`] opens the files of a store; [`open_standing`] opens those that stay open,
//!   for which a path has a [`Standing`].
//! - [`print_cause`], [`print_failure_of`] and [`print_lost`] print for a person why a store was
//!   [`Refused`], what of its disk failed, and that its files were lost.
#![tactic(auto)]

mod cache;
mod cache_size;
mod cause;
mod ended;
mod heap;
mod memory;
mod opening;
mod path;
mod reopen;
mod running;
mod same_files;
mod spare;

use cause::Teller;
pub use cause::{Refused, print_cause, print_failure_of, print_lost};
use edf_cli::print_bytes;
use edf_command::{Order, Status, read_command, store_path};
use edf_os::{
    Files, Streams, Terminal, refuse_terminal, refuse_words, standard_error, standard_output, words,
};
use edfstore_files::Outputs;
pub use opening::{Again, open_standing, open_when_free};
use path::look_at;
use running::run_over_store;
pub use same_files::Standing;
use sqlite::Unknown;
use std::io::IsTerminal;
use std::process::ExitCode;

/// It is printed for a person who gave no words and no file.
const READING: &[u8] =
    b"reading an EDF+ file from standard input; edfstore --help lists the commands\n";

/// Returns the terminal of a command, which shows a person how far `take` is.
fn terminal_of<'rt>(rt: &'rt HostRuntime, command: &Order) -> Terminal<'rt> {
    match command {
        Order::Take { store: _, files } => Terminal::new(rt, "file", files.len()),
        Order::List { .. } | Order::Export { .. } | Order::Convert { .. } => {
            Terminal::new(rt, "file", 0)
        }
    }
}

/// Is true of a command that writes an EDF+ file to standard output.
fn writes_file(command: &Order) -> bool {
    matches!(command, Order::Export { .. } | Order::Convert { .. })
}

/// Does what the command asks for, over the system's files and streams.
fn run_command(rt: &HostRuntime, command: &Order) -> Status {
    let terminal = terminal_of(rt, command);
    let Streams { out, err } = Streams::new(rt, &terminal);
    let path = store_path(command).unwrap_or("");
    let at = look_at(rt, path);
    let watch = Teller::new(&terminal, path, at);
    let mut inputs = Files::new(rt, &terminal);
    let mut outputs = Outputs { out, err, watch };
    let ended = run_over_store(rt, at, Unknown, command, &mut inputs, &mut outputs);
    terminal.wipe_progress();
    ended.status()
}

/// Does what the words after the program's name ask for, and returns the exit status, 0 to 3.
pub fn run_words(rt: &HostRuntime, words: &[String]) -> Status {
    let mut out = standard_output(rt);
    let mut err = standard_error(rt);
    let command = match read_command(rt.alloc(), words, &mut out, &mut err) {
        Ok(command) => command,
        Err(status) => return status,
    };
    if words.is_empty() && rt.stdin().is_terminal() {
        if rt.stderr().is_terminal() {
            let _ = print_bytes(&mut err, READING, Status::Done);
        }
    } else if writes_file(&command)
        && let Some(status) = refuse_terminal(rt)
    {
        return status;
    }
    run_command(rt, &command)
}

/// Does what the program's words ask for, and returns the exit status, 0 to 3.
pub fn run_program(rt: &HostRuntime) -> ExitCode {
    let status = match words(rt) {
        Ok(words) => run_words(rt, words.as_slice()),
        Err(error) => refuse_words(rt, &error),
    };
    ExitCode::from(status.code())
}
