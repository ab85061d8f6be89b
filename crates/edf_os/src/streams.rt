//! The words after a program's name, and its standard streams.

use crate::clearing::Clearing;
use crate::escaping::Escaping;
use crate::terminal::Terminal;
use edf_cli::{Status, print_bytes, print_memory};
use edf_fragment::Counted;
use std::io::{ErrorKind, IsTerminal, Stderr, Stdout};
use std::{env, io};

/// It is printed where an EDF+ file would go to a terminal.
const TO_TERMINAL: &[u8] =
    b"error: standard output is a terminal: write the EDF+ file to a new one, as by '> NEW.edf'\n";

/// Returns the words after the program's name.
///
/// # Errors
/// `InvalidData` where one is not UTF-8, another where memory ran out.
pub fn words(rt: &HostRuntime) -> io::Result<Vec<String>> {
    let words: Vec<String> = env::args(rt)?.skip(1).collect(rt.alloc())?;
    Ok(words)
}

/// Prints why the words can't be had: one is not UTF-8, or memory ran out.
pub fn refuse_words(rt: &HostRuntime, error: &io::Error) -> Status {
    let mut err = Counted::new(rt.stderr());
    if error.kind() == ErrorKind::InvalidData {
        print_bytes(&mut err, b"error: a word is not UTF-8\n", Status::Usage)
    } else {
        print_memory(&mut err, "command")
    }
}

/// Returns standard output, escaped where it is a terminal.
pub fn standard_output(rt: &HostRuntime) -> Escaping<Counted<Stdout>> {
    Escaping::new(rt, Counted::new(rt.stdout()), rt.stdout().is_terminal())
}

/// Returns standard error, escaped where it is a terminal.
pub fn standard_error(rt: &HostRuntime) -> Escaping<Counted<Stderr>> {
    Escaping::new(rt, Counted::new(rt.stderr()), rt.stderr().is_terminal())
}

/// Refuses a command that writes an EDF+ file to standard output, where that is a terminal. Returns
/// its status, if it was refused.
pub fn refuse_terminal(rt: &HostRuntime) -> Option<Status> {
    if rt.stdout().is_terminal() {
        let status = print_bytes(&mut standard_error(rt), TO_TERMINAL, Status::Usage);
        Some(status)
    } else {
        None
    }
}

/// Standard output and standard error.
#[derive(Drop)]
pub struct Streams<'t> {
    pub out: Clearing<'t, Escaping<Counted<Stdout>>>,
    pub err: Clearing<'t, Escaping<Counted<Stderr>>>,
}

impl<'t> Streams<'t> {
    /// Returns the streams of a program whose progress a terminal shows.
    pub fn new(rt: &'t HostRuntime, terminal: &'t Terminal<'t>) -> Streams<'t> {
        Streams {
            out: Clearing {
                rt,
                terminal,
                stream: standard_output(rt),
                is_output: true,
            },
            err: Clearing {
                rt,
                terminal,
                stream: standard_error(rt),
                is_output: false,
            },
        }
    }
}
