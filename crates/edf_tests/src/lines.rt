//! Lines and files that cannot be written whole.

ghost use Rattle.std.specs.Prelude.{None, map, string_bytes};

use crate::held::{CAP, empty_store, holds_both, store_of_both};
use crate::printed::{BOTH_NEW, LISTED, NO_EXPORT, NO_PLACE_2};
use edf_command::{Inputs, Order, Status, parse, run};
use edf_disk_sample::q_and_p5;
use edf_fragment::Counted;
use edf_sample::named::{file_p5, file_q};
use edf_sample::{Sink, Source};
use edf_store::Store;
use sqlite::MemStore;
use std::alloc::{AllocError, Global};

/// The files `p5.edf` and `q.edf`.
#[derive(Drop)]
pub(crate) struct Shelf<'a> {
    p5: &'a [u8],
    q: &'a [u8],
    /// The names that were opened, in turn.
    names: Vec<String>,
}

impl<'a> Shelf<'a> {
    pub(crate) fn new(alloc: Global, p5: &'a [u8], q: &'a [u8]) -> Shelf<'a> {
        Shelf {
            p5,
            q,
            names: Vec::new(alloc),
        }
    }
}

impl<'a> Inputs for Shelf<'a> {
    type Reader = Counted<Source<'a>>;

    ghost bytes = { λ _ _. None };

    ghost opened = { λ shelf. map string_bytes shelf.names.items };

    fn open(&mut self, alloc: Global, name: &str) -> Result<Counted<Source<'a>>, AllocError> {
        self.names.push(String::from_str(alloc, name)?)?;
        let bytes = if name == "q.edf" { self.q } else { self.p5 };
        Ok(Counted::new(Source::whole(bytes, 300)))
    }
}

/// The command of a line's words.
pub(crate) fn command(alloc: Global, line: &str) -> Option<Order> {
    let mut words = Vec::new(alloc);
    for word in line.split_whitespace() {
        words.push(String::from_str(alloc, word).ok()?).ok()?;
    }
    parse(alloc, words.as_slice()).ok()
}

/// The words that take both.
pub(crate) const TAKE: &str = "take night.db p5.edf q.edf";

/// What a command wrote.
#[derive(Drop)]
pub(crate) struct Said {
    pub(crate) out: Vec<u8>,
    pub(crate) err: Vec<u8>,
}

/// Nothing yet, with room for what is written.
pub(crate) fn silence(alloc: Global) -> Option<Said> {
    let out = Vec::with_capacity(alloc, 1_000).ok()?;
    let err = Vec::with_capacity(alloc, 1_000).ok()?;
    Some(Said { out, err })
}

/// Where a command writes: how many bytes fit on `out` and on `err`. After that, writes fail, or
/// take no byte where it is `full`.
#[derive(Clone, Copy)]
pub(crate) struct Room {
    pub(crate) out: usize,
    pub(crate) err: usize,
    pub(crate) full: bool,
}

/// Runs a command over a store and these files.
pub(crate) fn ran(
    alloc: Global,
    command: &Order,
    store: &mut Store<MemStore>,
    shelf: &mut Shelf<'_>,
    said: &mut Said,
    room: Room,
) -> Status {
    let mut out = Counted::new(Sink::of_room(&mut said.out, room.out, room.full));
    let mut err = Counted::new(Sink::of_room(&mut said.err, room.err, room.full));
    run(alloc, command, store, shelf, &mut out, &mut err)
}

/// The front of so many bytes.
fn front_of(bytes: &[u8], len: usize) -> &[u8] {
    bytes.get(..len).unwrap_or(bytes)
}

/// Does what words ask for over a store of both files, or over an empty one. The status; and
/// whether just the fronts that fit of these texts went to the two, and the store then holds both.
fn fills(
    alloc: Global,
    line: &str,
    has_both: bool,
    room: Room,
    (out, err): (&[u8], &[u8]),
) -> Option<(Status, bool)> {
    let (p5, q) = (file_p5(alloc).ok()?, file_q(alloc).ok()?);
    let mut shelf = Shelf::new(alloc, &p5, &q);
    let mut store = if has_both {
        store_of_both(alloc)?
    } else {
        empty_store(alloc, CAP)?
    };
    let mut said = silence(alloc)?;
    let command = command(alloc, line)?;
    let status = ran(alloc, &command, &mut store, &mut shelf, &mut said, room);
    let fits = said.out.as_slice() == front_of(out, room.out)
        && said.err.as_slice() == front_of(err, room.err);
    Some((status, fits && holds_both(alloc, &mut store)))
}

#[test]
fn files_are_taken_whose_lines_cannot_be_written(rt: HostRuntime) {
    for full in [false, true] {
        for out in 0..60usize {
            let room = Room {
                out,
                err: 100,
                full,
            };
            let ended = fills(rt.alloc(), TAKE, false, room, (BOTH_NEW, b""));
            let status = if out < 59 {
                Status::Trouble
            } else {
                Status::Done
            };
            assert_eq!(rt; ended, Some((status, true)), "room for {out}");
        }
    }
}

#[test]
fn a_list_whose_line_cannot_be_written_is_trouble(rt: HostRuntime) {
    let (err, full) = (100, false);
    for out in 0..67usize {
        let room = Room { out, err, full };
        let ended = fills(rt.alloc(), "list night.db", true, room, (LISTED, b""));
        let status = if out < 66 {
            Status::Trouble
        } else {
            Status::Done
        };
        assert_eq!(rt; ended, Some((status, true)), "room for {out}");
    }
}

#[test]
fn an_export_whose_file_cannot_be_written_is_trouble(rt: HostRuntime) {
    let Some(file) = q_and_p5(rt.alloc()) else {
        panic!(rt; "no memory");
    };
    let (err, full) = (100, false);
    for part in 0..24usize {
        let out = 35 * part;
        let room = Room { out, err, full };
        let texts = (file.as_slice(), NO_EXPORT);
        let ended = fills(rt.alloc(), "export night.db 1", true, room, texts);
        assert_eq!(rt; ended, Some((Status::Trouble, true)), "room for {out}");
    }
}

#[test]
fn an_export_whose_line_cannot_be_written_is_trouble(rt: HostRuntime) {
    let (out, full) = (100, false);
    for err in 0..25usize {
        let room = Room { out, err, full };
        let ended = fills(
            rt.alloc(),
            "export night.db 2",
            true,
            room,
            (b"", NO_PLACE_2),
        );
        let status = if err < 24 {
            Status::Trouble
        } else {
            Status::Refused
        };
        assert_eq!(rt; ended, Some((status, true)), "room for {err}");
    }
}
