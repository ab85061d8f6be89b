//! Lines for a person: on standard error, and only where that is a terminal; but causes are printed
//! elsewhere too, where the environment asks for them.
//!
//! Messages are lines; progress is one overwritten line, erased before other output.

use crate::streams::standard_error;
use edf_fragment::FragmentFault;
use std::cell::Cell;
use std::fmt::{Display, Write};
use std::io::IsTerminal;
use std::rt::Env;

/// Progress is written again each time this number of bytes was read.
const MEGABYTE: u64 = 1_000_000;

/// It is written over the line of progress, which is never longer.
const WIPED: &str = "\r                                                            \r";

/// The variable of the environment that is 1 where causes are printed off a terminal too.
const CAUSES: &str = "EDFSTORE_CAUSES";

/// Is true where the environment asks for causes.
fn wants_causes(rt: &HostRuntime) -> bool {
    let mut value = [0; 2];
    match rt.var(CAUSES, &mut value) {
        Ok(1) => value[0] == b'1',
        _ => false,
    }
}

/// Standard error as a person sees it. Nothing but causes is printed where it is no terminal.
#[derive(Drop)]
pub struct Terminal<'rt> {
    rt: &'rt HostRuntime,
    is_there: bool,
    /// It is true where it is printed why a file or a store could not be used.
    prints_causes: bool,
    /// The line of progress counts these, as `file`, up to their number; 0 where none is shown.
    unit: &'static str,
    units: usize,
    is_mending: bool,
    begun: Cell<usize>,
    /// The bytes that were read of the file that was begun last, and its size, where that is known.
    bytes: Cell<u64>,
    size: Cell<Option<u64>>,
    is_progress_shown: Cell<bool>,
    /// It is true once it was printed why a file could not be read.
    is_unread_printed: Cell<bool>,
    /// It is true once something was written to standard output.
    is_output_begun: Cell<bool>,
    /// It is true once a new file got its name.
    is_file_made: Cell<bool>,
    /// The numbers of the refusals that were explained, a bit each.
    explained: Cell<u64>,
}

impl<'rt> Terminal<'rt> {
    /// Returns one that shows the progress of reading so many units, if a person is there.
    fn of(
        rt: &'rt HostRuntime,
        is_there: bool,
        unit: &'static str,
        units: usize,
        is_mending: bool,
    ) -> Terminal<'rt> {
        Terminal {
            rt,
            is_there,
            prints_causes: is_there || wants_causes(rt),
            unit,
            units: if is_there { units } else { 0 },
            is_mending,
            begun: Cell::new(0),
            bytes: Cell::new(0),
            size: Cell::new(None),
            is_progress_shown: Cell::new(false),
            is_unread_printed: Cell::new(false),
            is_output_begun: Cell::new(false),
            is_file_made: Cell::new(false),
            explained: Cell::new(0),
        }
    }

    /// Returns a terminal that shows the progress of reading `units` files, or whatever else `unit`
    /// names, if there are any.
    pub fn new(rt: &'rt HostRuntime, unit: &'static str, units: usize) -> Terminal<'rt> {
        Terminal::of(rt, rt.stderr().is_terminal(), unit, units, false)
    }

    /// Returns the same for a program that mends files.
    pub fn of_mender(rt: &'rt HostRuntime, unit: &'static str, units: usize) -> Terminal<'rt> {
        Terminal::of(rt, rt.stderr().is_terminal(), unit, units, true)
    }

    /// Returns standard error for a service's journal, terminal or not: it gets messages, and no
    /// progress.
    pub fn journal(rt: &'rt HostRuntime) -> Terminal<'rt> {
        Terminal::of(rt, true, "file", 0, false)
    }

    /// Is true where it is printed why a file or a store could not be used: on a terminal, in a
    /// journal, and where the environment asks for it.
    pub fn prints_causes(&self) -> bool {
        self.prints_causes
    }

    /// Prints a line about what has this name, if it can be written.
    fn print(&self, name: &str, words: impl Display + Drop) {
        self.wipe_progress();
        let mut err = standard_error(self.rt);
        if err.put_name(name) {
            let _ = writeln!(err, ": {words}");
        }
    }

    /// Prints why the file or the store of this name could not be used.
    pub fn say(&self, name: &str, words: impl Display + Drop) {
        if self.prints_causes {
            self.print(name, words);
        }
    }

    /// Prints a line about the file or the store of this name for a person alone.
    pub fn advise(&self, name: &str, words: impl Display + Drop) {
        if self.is_there {
            self.print(name, words);
        }
    }

    /// Prints for a person the sentence of a fault of the file of this name, and these words.
    pub(crate) fn advise_of(&self, name: &str, fault: &FragmentFault, words: &str) {
        if self.is_there {
            self.wipe_progress();
            let mut err = standard_error(self.rt);
            if err.put_name(name) {
                let _ = writeln!(err, ": {fault}{words}");
            }
        }
    }

    /// Prints a line for a person once, by the number of a refusal.
    pub(crate) fn advise_once(&self, number: u8, name: &str, words: &str) {
        if self.is_first(number) {
            self.advise(name, words);
        }
    }

    pub(crate) fn is_mending(&self) -> bool {
        self.is_mending
    }

    /// Notes whether something was written to standard output.
    pub(crate) fn note_output(&self, count: usize) {
        if count != 0 {
            self.is_output_begun.set(true);
        }
    }

    /// Is true once something was written to standard output.
    pub fn is_output_begun(&self) -> bool {
        self.is_output_begun.get()
    }

    /// Notes that a new file got its name.
    pub(crate) fn note_file_made(&self) {
        self.is_file_made.set(true);
    }

    /// Is true once a new file got its name.
    pub(crate) fn is_file_made(&self) -> bool {
        self.is_file_made.get()
    }

    /// Notes that it was printed why a file could not be read.
    pub(crate) fn note_unread(&self) {
        self.is_unread_printed.set(true);
    }

    /// Is true once it was printed why a file could not be read.
    pub(crate) fn is_unread_printed(&self) -> bool {
        self.is_unread_printed.get()
    }

    /// Is true where no refusal of that number was explained before, and notes that one is now.
    pub(crate) fn is_first(&self, number: u8) -> bool {
        let bit = 1u64.checked_shl(u32::from(number)).unwrap_or(0);
        let explained = self.explained.get();
        self.explained.set(explained | bit);
        explained & bit == 0
    }

    /// Counts one more file as begun, of that size where it is known, and shows the progress.
    pub(crate) fn begin_file(&self, size: Option<u64>) {
        if self.units > 0 {
            self.begun.set(self.begun.get().saturating_add(1));
            self.bytes.set(0);
            self.size.set(size);
            self.wipe_progress();
            self.show_progress();
        }
    }

    /// Counts `count` more bytes as read, and shows the progress where a megabyte is full.
    pub(crate) fn add_bytes(&self, count: usize) {
        if self.units > 0 {
            let before = self.bytes.get();
            let after = before.saturating_add(count as u64);
            self.bytes.set(after);
            if before / MEGABYTE < after / MEGABYTE {
                self.show_progress();
            }
        }
    }

    fn show_progress(&self) {
        let (unit, begun, units) = (self.unit, self.begun.get(), self.units);
        let megabytes = self.bytes.get() / MEGABYTE;
        let _ = match self.size.get() {
            Some(size) => {
                let all = size.div_ceil(MEGABYTE);
                eprint!(self.rt; "\r{unit} {begun} of {units}, {megabytes} of {all} MB read")
            }
            None => eprint!(self.rt; "\r{unit} {begun} of {units}, {megabytes} MB read"),
        };
        self.is_progress_shown.set(true);
    }

    /// Erases the line of progress, if it is there.
    pub fn wipe_progress(&self) {
        if self.is_progress_shown.get() {
            let _ = eprint!(self.rt; "{WIPED}");
            self.is_progress_shown.set(false);
        }
    }
}
