//! The words after the program's name, read by `clap`. Lines of help are broken where they stand,
//! since nothing else breaks them.

use clap::{Arg, ArgMatches, Command, Error};
use edf_cli::{CommandFault, VERSION, fault_by, refuse_value};
use std::alloc::{AllocError, Global};

/// What `edfserve` is.
const EDFSERVE: &str = "\
Keeps a store of sleep recordings open, and answers the commands that come line by
line from standard input, each before it reads the next.";

/// The lines, and what the statuses mean.
const EDFSERVE_MORE: &str = "\
Lines:
  take NAME           takes a file into the store, as 'edfstore take' does
  list                lists the recordings, as 'edfstore list' does

NAME is the rest of the line; '-' is a file of that name. With --from it leads below
the folder: it is relative, no part of it is '..', and no part of it is a link.

After the lines of an answer comes 'status N':
  0  done
  1  the file was refused, or is outside of the folder
  2  the line is no command
  3  trouble with the file, standard output, memory or the store

Example:
  printf 'take part1.edf\\nlist\\n' | edfserve night.db
  part1.edf accepted new=160 known=0
  status 0
  1 records=160 first=2023-11-04T22:15:00 patient=S-0118 investigation=OX-7
  status 0

The program ends at the end of its input with the worst status; with 3 where the
store can't be opened, or a call of it failed: then begin it again. 'edfserve help'
writes this; a store of that name is './help'.";

/// What `edfserve` is called, for its usage.
const NAME: &str = "edfserve";

/// Why an empty folder is refused.
const NO_FOLDER: &str = "a FOLDER has a name; the present one is '.'";

/// How `clap` refuses `--to`, which earlier versions had.
const UNKNOWN_TO: &str = "error: unexpected argument '--to' found\n";

/// What to do in its place.
const NO_TO: &str = "\
--to is gone: a session writes no files, but 'edfstore export' does once it has ended";

/// What the words ask for.
#[derive(Drop)]
pub struct ServeWords {
    /// The path of the store.
    pub store: String,
    /// The folder of the files of `take`, where there is one.
    pub from: Option<String>,
}

/// The program and its words.
fn edfserve_words<'a>(alloc: Global) -> Result<Command<'a>, AllocError> {
    let store = Arg::new(alloc, "STORE")
        .help("The store's file, which is made where there is none")
        .required(true);
    let from = Arg::new(alloc, "from")
        .long("from")
        .value_name("FOLDER")
        .help("Take files below this folder alone");
    Command::new(alloc, NAME)
        .bin_name(NAME)?
        .version(VERSION)
        .about(EDFSERVE)
        .after_help(EDFSERVE_MORE)
        .no_binary_name(true)
        .arg(from)?
        .arg(store)
}

/// The folder that the words name, where there is one.
fn folder_in(alloc: Global, values: &ArgMatches<'_>) -> Result<Option<String>, CommandFault> {
    match values.get_str("from") {
        Some("") => Err(refuse_value(alloc, edfserve_words(alloc)?, NAME, NO_FOLDER)?),
        Some(folder) => Ok(Some(String::from_str(alloc, folder)?)),
        None => Ok(None),
    }
}

/// Why words are refused that `clap` does not take.
fn refuse_words(alloc: Global, error: &Error) -> Result<CommandFault, AllocError> {
    let fault = fault_by(alloc, error);
    if let CommandFault::Usage(text) = &fault
        && text.as_str().starts_with(UNKNOWN_TO)
    {
        return refuse_value(alloc, edfserve_words(alloc)?, NAME, NO_TO);
    }
    Ok(fault)
}

/// What words other than the word for help ask for.
fn read_words(alloc: Global, words: &[String]) -> Result<ServeWords, CommandFault> {
    let mut command = edfserve_words(alloc)?;
    let values = match command.try_get_matches_from_mut(words) {
        Ok(values) => values,
        Err(error) => return Err(refuse_words(alloc, &error)?),
    };
    Ok(ServeWords {
        store: String::from_str(alloc, values.get_str("STORE").unwrap_or(""))?,
        from: folder_in(alloc, &values)?,
    })
}

/// What the words ask for. `help` alone asks for help, as the flag does.
///
/// # Errors
/// Help or the version, where they are asked for; `Usage` where the words are not one STORE and
/// perhaps the folder; `Memory` where memory ran out.
pub fn parse_words(alloc: Global, words: &[String]) -> Result<ServeWords, CommandFault> {
    if let [word] = words
        && word.as_str() == "help"
    {
        let flag = [String::from_str(alloc, "--help")?];
        return read_words(alloc, &flag);
    }
    read_words(alloc, words)
}
