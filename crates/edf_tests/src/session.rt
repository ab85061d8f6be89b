//! A run of the program, over files that are named and a disk that may stop.

ghost use Rattle.std.specs.Prelude.{None, map, string_bytes};

use edf_command::{Inputs, Order, Status};
use edf_disk_sample::{Night, stopping};
use edf_fragment::{Counted, Output};
use edf_header::MOST_RECORDS;
use edf_sample::{Sink, Source};
use edf_store::{Store, StoreFault};
use edf_tables::is_ours;
use edfstore_files::{Watch, close, leave, refuse};
use sqlite::{Connection, FileStore, Files, Options};
use sqlite_disk::{Crash, Disk, Memory};
use std::alloc::{AllocError, Global};
use std::io;

/// The two files of a store, which are there between runs.
#[derive(Drop)]
pub(crate) struct Place {
    log: Memory,
    db: Memory,
}

/// A file of the same bytes, all of them synced.
fn copy_of(alloc: Global, file: &Memory) -> Option<Memory> {
    let mut copy = Memory::new(alloc);
    copy.write_at(0, file.bytes()).ok()?;
    copy.sync().ok()?;
    Some(copy)
}

impl Place {
    /// No files yet.
    pub(crate) fn new(alloc: Global) -> Place {
        Place {
            log: Memory::new(alloc),
            db: Memory::new(alloc),
        }
    }

    /// The same two files elsewhere, where they may be opened and these stay as they are.
    fn copied(&self, alloc: Global) -> Option<Place> {
        Some(Place {
            log: copy_of(alloc, &self.log)?,
            db: copy_of(alloc, &self.db)?,
        })
    }
}

/// How a run ends.
#[derive(Clone, Copy, Debug)]
pub(crate) struct End {
    /// How many calls reach the log, and how many the database file.
    pub(crate) log_calls: u64,
    pub(crate) db_calls: u64,
    /// How long the log may grow before it is copied into the database file.
    pub(crate) frames: usize,
    /// Whether both files are closed, or let go as they are.
    pub(crate) closes: bool,
    /// Whether the log then loses what was not synced, and whether the database file does.
    pub(crate) log_loses: bool,
    pub(crate) db_loses: bool,
}

/// A run that nothing stops, and that closes its files.
pub(crate) const CLOSES: End = End {
    log_calls: u64::MAX,
    db_calls: u64::MAX,
    frames: 1000,
    closes: true,
    log_loses: false,
    db_loses: false,
};

/// Whether the log, and whether the database file, loses what was not synced. Where neither does,
/// the program died and the machine went on.
pub(crate) const LOSSES: &[(bool, bool)] = &[
    (false, false),
    (true, true),
    (true, false),
    (false, true),
];

impl End {
    /// The same end, after which the files lose what the pair says.
    pub(crate) fn losing(mut self, (log, db): (bool, bool)) -> End {
        self.log_loses = log;
        self.db_loses = db;
        self
    }
}

/// The files of a night by their numbers; another name stands for a file that can't be read.
#[derive(Drop)]
struct Shelf<'a> {
    night: &'a Night,
    /// The names that were opened, in turn.
    names: Vec<String>,
}

/// The bytes of a file of the night.
fn file_named<'a>(night: &'a Night, name: &str) -> Option<&'a [u8]> {
    let number = name.parse::<u32>().ok()?;
    let file = night.files.get(number as usize)?;
    Some(file.as_slice())
}

impl<'a> Inputs for Shelf<'a> {
    type Reader = Counted<Source<'a>>;

    ghost bytes = { λ _ _. None };

    ghost opened = { λ shelf. map string_bytes shelf.names.items };

    fn open(&mut self, alloc: Global, name: &str) -> Result<Counted<Source<'a>>, AllocError> {
        self.names.push(String::from_str(alloc, name)?)?;
        let source = match file_named(self.night, name) {
            Some(bytes) => Source::whole(bytes, 300),
            None => Source::failing(b"", 0, io::ErrorKind::Other),
        };
        Ok(Counted::new(source))
    }
}

/// How often a store was opened, and how often refused.
#[derive(Drop)]
pub(crate) struct Openings {
    pub(crate) opened: u32,
    pub(crate) refused: u32,
}

impl Watch for Openings {
    ghost noticed = { λ _. None };

    fn opened<O: Output>(&mut self, _: &O) {
        self.opened = self.opened.saturating_add(1);
    }

    fn refused(&mut self, _: &StoreFault, _: bool) {
        self.refused = self.refused.saturating_add(1);
    }
}

/// What a run came to.
#[derive(Drop)]
pub(crate) struct Ran {
    pub(crate) status: Status,
    /// Whether what is held was copied into the database file, and both files were closed.
    pub(crate) closed: bool,
    pub(crate) openings: Openings,
    pub(crate) out: Vec<u8>,
    pub(crate) err: Vec<u8>,
}

impl Ran {
    fn new(alloc: Global) -> Option<Ran> {
        Some(Ran {
            status: Status::Trouble,
            closed: false,
            openings: Openings {
                opened: 0,
                refused: 0,
            },
            out: Vec::with_capacity(alloc, 2_000).ok()?,
            err: Vec::with_capacity(alloc, 200).ok()?,
        })
    }

    /// Whether its store was opened, and not refused.
    pub(crate) fn was_opened(&self) -> bool {
        self.openings.opened == 1 && self.openings.refused == 0
    }

    /// Whether its store was refused, and it said so, and nothing else.
    pub(crate) fn was_refused(&self) -> bool {
        self.openings.opened == 0
            && self.openings.refused == 1
            && self.status == Status::Trouble
            && self.out.is_empty()
            && self.err.as_slice() == b"store refused E42 Store\n".as_slice()
    }

    /// Whether its store was opened and could not be closed, and it said so at the end.
    pub(crate) fn was_left(&self) -> bool {
        self.was_opened()
            && self.status == Status::Trouble
            && self.err.as_slice() == b"store not closed E42 Store\n".as_slice()
    }
}

/// The command to take the files of these numbers. One past the last can't be read.
pub(crate) fn take(alloc: Global, first: usize, end: usize) -> Option<Order> {
    let mut files = Vec::new(alloc);
    for number in first..end {
        files.push(format!(in alloc; "{number}").ok()?).ok()?;
    }
    let store = String::from_str(alloc, "night.db").ok()?;
    Some(Order::Take { store, files })
}

/// One run of a command over the store of a connection, whose files are closed, or let go as they
/// are.
fn run_on<D: Disk + Drop>(
    alloc: Global,
    conn: Connection<FileStore<D>>,
    command: &Order,
    shelf: &mut Shelf<'_>,
    closes: bool,
    ran: &mut Ran,
) {
    if !conn.is_autocommit() {
        return;
    }
    let mut out = Counted::new(Sink::whole(&mut ran.out, 1_000));
    let mut err = Counted::new(Sink::whole(&mut ran.err, 1_000));
    let has_our_tables = is_ours(conn.schema());
    let (status, closed) = match Store::open_or_return(alloc, conn, MOST_RECORDS) {
        Ok(mut store) => {
            ran.openings.opened(&out);
            let status = edf_command::run(alloc, command, &mut store, shelf, &mut out, &mut err);
            if closes {
                let ended = close(store.into_connection(), status, &mut err);
                (ended.status, ended.failure.is_none())
            } else {
                (leave(store.into_connection(), status).status, false)
            }
        }
        Err((fault, back)) => {
            let status = refuse(&fault, has_our_tables, &mut err, &mut ran.openings);
            (leave(back, status).status, closes)
        }
    };
    drop(out);
    drop(err);
    ran.status = status;
    ran.closed = closed;
}

/// One run over two files, as `edfstore_files::run_opened` does it over those of a path; they are
/// closed, or let go as they are.
fn run_over<D: Disk + Drop>(
    alloc: Global,
    files: Files<D>,
    command: &Order,
    shelf: &mut Shelf<'_>,
    end: End,
) -> Option<Ran> {
    if !files.may_be_used() {
        return None;
    }
    let mut ran = Ran::new(alloc)?;
    let mut options = Options::new(1);
    options.checkpoint_frames = end.frames;
    match Connection::open_files_with(alloc, files, options, true) {
        Ok(conn) => run_on(alloc, conn, command, shelf, end.closes, &mut ran),
        Err((error, _left)) => {
            let mut err = Counted::new(Sink::whole(&mut ran.err, 1_000));
            let fault = StoreFault::from(error);
            ran.status = refuse(&fault, false, &mut err, &mut ran.openings);
        }
    }
    Some(ran)
}

/// One run of a command over the files of a place, and what the machine then loses.
pub(crate) fn run(
    alloc: Global,
    night: &Night,
    place: &mut Place,
    command: &Order,
    end: End,
) -> Option<Ran> {
    let names = Vec::new(alloc);
    let mut shelf = Shelf { night, names };
    let (log_calls, db_calls) = (end.log_calls, end.db_calls);
    let files = stopping(&mut place.log, &mut place.db, log_calls, db_calls);
    let ran = run_over(alloc, files, command, &mut shelf, end);
    if end.log_loses {
        place.log.crash();
    }
    if end.db_loses {
        place.db.crash();
    }
    ran
}

/// How many of the night's files are held, in their order, by what a copy of the store exports.
pub(crate) fn held(alloc: Global, night: &Night, place: &Place) -> Option<usize> {
    let store = String::from_str(alloc, "night.db").ok()?;
    let command = Order::Export { store, place: 1 };
    let mut copy = place.copied(alloc)?;
    let ran = run(alloc, night, &mut copy, &command, CLOSES)?;
    if !ran.closed || !ran.was_opened() {
        return None;
    }
    let file = ran.out.as_slice();
    night.exports.iter().position(|one| one.as_slice() == file)
}

/// How many files a run accepted.
pub(crate) fn accepted(ran: &Ran) -> usize {
    let lines = ran.out.as_slice().split(|byte| *byte == b'\n');
    let mut count = 0usize;
    for line in lines {
        if line
            .windows(10)
            .any(|part| part == b" accepted ".as_slice())
        {
            count = count.saturating_add(1);
        }
    }
    count
}
