//! The program `edfserve`: keeps a store open, and answers commands line by line. What is read,
//! written and answered, and what becomes of the store's files, is `edf_serve`'s; here the system
//! is handed to it.
#![tactic(auto)]

mod input;
mod journal;
mod keeper;
mod output;
mod sources;

use edf_cli::{Status, print_fault, print_memory};
use edf_fragment::Counted;
use edf_os::{Terminal, refuse_words, standard_error, standard_output, words};
use edf_serve::{Console, Lines, Room, ServeWords, parse_words, serve_opened};
use edfstore_files::Cap;
use edfstore_open::{Standing, open_standing};
use input::WatchedInput;
use journal::Journal;
use keeper::Keeper;
use output::StandardOutput;
use sources::SystemFiles;
use sqlite::Unknown;
use std::io::Stdin;
use std::process::ExitCode;

/// The lines of standard input.
type SystemLines<'s> = Lines<WatchedInput<'s, Counted<Stdin>>>;

/// What a session has beside its store and its lines: the system's files and streams.
type SystemRoom<'rt> = Room<SystemFiles<'rt>, Console<StandardOutput>, Keeper<'rt>>;

/// Serves the store of a path until the input ends or the store fails, and closes it.
fn serve_store(
    rt: &HostRuntime,
    standing: &Standing<'_>,
    folder: Option<&str>,
    lines: &mut SystemLines<'_>,
    room: &mut SystemRoom<'_>,
) -> Status {
    let mut err = standard_error(rt);
    let mut journal = Journal::new(rt, standing);
    let ended = serve_opened::<Unknown, _, _, _, _, _, _>(
        rt.alloc(),
        open_standing(standing, Unknown),
        Cap::most(),
        folder,
        lines,
        room,
        &mut err,
        &mut journal,
    );
    match ended {
        Ok(session) => journal.print_ended(&session, &mut err),
        Err((status, _)) => {
            journal.print_refusal();
            status
        }
    }
}

/// Serves the store that the words name by the system's files and streams. Standard input has the
/// lines, so a file named `-` is opened as every other is.
fn run_session(rt: &HostRuntime, words: &ServeWords) -> Status {
    let terminal = Terminal::new(rt, "file", 0);
    let standing = Standing::new(rt, words.store.as_str());
    let input = WatchedInput::new(Counted::new(rt.stdin()), &standing);
    let Ok(mut lines) = Lines::new(rt.alloc(), input) else {
        return print_memory(&mut standard_error(rt), "session");
    };
    let mut room = Room::new(
        rt.alloc(),
        SystemFiles::new(rt, &terminal, &standing),
        Console::new(StandardOutput::new(rt)),
        Keeper::new(&standing),
    );
    let folder = words.from.as_deref();
    serve_store(rt, &standing, folder, &mut lines, &mut room)
}

/// Does what the words after the program's name ask for, and answers how it went.
fn run_words(rt: &HostRuntime, words: &[String]) -> Status {
    match parse_words(rt.alloc(), words) {
        Ok(words) => run_session(rt, &words),
        Err(fault) => {
            let mut out = standard_output(rt);
            let mut err = standard_error(rt);
            print_fault(&fault, &mut out, &mut err)
        }
    }
}

fn main(rt: HostRuntime) -> ExitCode {
    let status = match words(&rt) {
        Ok(words) => run_words(&rt, words.as_slice()),
        Err(error) => refuse_words(&rt, &error),
    };
    ExitCode::from(status.code())
}
