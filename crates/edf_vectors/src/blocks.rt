//! Annotations blocks: one, and those of a data record that has several.

use crate::cells::{fault_text, number, quoted};
use edf_tal::{Note, Place, TalFault, block_len, read_block, read_blocks, same_notes, write_block};
use edf_time::Instant;
use std::alloc::{AllocError, Global};

/// 2002-03-02 23:59:50, where file Q starts.
pub(crate) const EVENING: u64 = 541_727_990_000_000_000;

/// The answer to blocks.
type Answer = Result<(Instant, Vec<Note>), TalFault>;

/// The annotations, their onsets counted from the file's start.
pub(crate) fn list(
    alloc: Global,
    notes: &[Note],
    file_start: Instant,
) -> Result<String, AllocError> {
    let mut text = String::new(alloc);
    for note in notes {
        let onset = note.onset().since(file_start);
        write!(text, "|{onset} {:?} {}", note.duration(), note.text())?;
    }
    Ok(text)
}

/// The start and the annotations, or the fault.
fn shown(alloc: Global, answer: &Answer, file_start: Instant) -> Option<String> {
    match answer {
        Ok((start, notes)) => {
            let list = list(alloc, notes, file_start).ok()?;
            format!(in alloc; "{}{list}", start.since(file_start)).ok()
        }
        Err(fault) => fault_text(alloc, fault.number(), fault),
    }
}

/// The start of a file: these nanoseconds, or else that of Q.
fn start_in(cell: &[u8]) -> Option<Instant> {
    match cell {
        [b'0'..=b'9', ..] => Instant::at(number(cell)),
        _ => Instant::at(EVENING),
    }
}

/// Any place, the place after a data record of one second at the file's start, or else the first.
fn place_in(cell: &[u8], start: Instant) -> Place {
    match cell {
        b"after" => Place::After {
            start,
            duration: 1_000_000_000,
        },
        b"any" => Place::Any,
        _ => Place::First,
    }
}

/// The block of a data record.
pub(crate) fn block(alloc: Global, cells: &[Vec<u8>]) -> Option<String> {
    let [place, block] = cells else {
        return None;
    };
    let start = start_in(place)?;
    let answer = read_block(alloc, block, start, place_in(place, start));
    shown(alloc, &answer, start)
}

/// Reads two blocks, one after the other.
fn read_two(alloc: Global, place: &[u8], first: &[u8], second: &[u8]) -> Option<Answer> {
    let start = start_in(place)?;
    let mut bytes = Vec::from_slice(alloc, first).ok()?;
    bytes.extend_from_slice(second).ok()?;
    let sizes = [first.len(), second.len()];
    let place = place_in(place, start);
    Some(read_blocks(alloc, &bytes, &sizes, start, place))
}

/// Reads three.
fn read_three(alloc: Global, place: &[u8], blocks: [&[u8]; 3]) -> Option<Answer> {
    let start = start_in(place)?;
    let [first, second, third] = blocks;
    let mut bytes = Vec::from_slice(alloc, first).ok()?;
    bytes.extend_from_slice(second).ok()?;
    bytes.extend_from_slice(third).ok()?;
    let sizes = [first.len(), second.len(), third.len()];
    let place = place_in(place, start);
    Some(read_blocks(alloc, &bytes, &sizes, start, place))
}

/// Reads one, two or three.
fn read(alloc: Global, cells: &[Vec<u8>]) -> Option<Answer> {
    match cells {
        [place, block] => {
            let start = start_in(place)?;
            let place = place_in(place, start);
            Some(read_blocks(alloc, block, &[block.len()], start, place))
        }
        [place, first, second] => read_two(alloc, place, first, second),
        [place, first, second, third] => read_three(alloc, place, [first, second, third]),
        _ => None,
    }
}

/// The blocks of a data record.
pub(crate) fn blocks(alloc: Global, cells: &[Vec<u8>]) -> Option<String> {
    let start = start_in(cells.first()?)?;
    shown(alloc, &read(alloc, cells)?, start)
}

/// How many annotations the blocks of a data record have, where they are many.
pub(crate) fn limits(alloc: Global, cells: &[Vec<u8>]) -> Option<String> {
    match read(alloc, cells)? {
        Ok((_, notes)) => format!(in alloc; "{} annotations", notes.len()).ok(),
        Err(fault) => fault_text(alloc, fault.number(), &fault),
    }
}

/// The canonical block of what is read of a block, and the length that `block_len` says it has.
fn write_again(alloc: Global, block: &[u8]) -> Option<(Vec<u8>, usize)> {
    let start = Instant::at(EVENING)?;
    let (first, notes) = read_block(alloc, block, start, Place::First).ok()?;
    let len = block_len(first, notes.as_slice(), start);
    let written = write_block(alloc, first, notes.as_slice(), start).ok()?;
    Some((written, len))
}

/// The canonical block of what is read of a block, or, beside a second cell, whether it is that
/// one; and its length.
pub(crate) fn written(alloc: Global, cells: &[Vec<u8>]) -> Option<String> {
    let (block, len) = write_again(alloc, cells.first()?)?;
    match cells {
        [_, expected] => format!(in alloc;
            "{} {len}",
            block.as_slice() == expected.as_slice()
        ).ok(),
        _ => {
            let block = quoted(alloc, &block).ok()?;
            format!(in alloc; "{block} {len}").ok()
        }
    }
}

/// The annotation at the file's start of this duration, or `none`, and this text.
pub(crate) fn annotation(alloc: Global, cells: &[Vec<u8>]) -> Option<String> {
    let [duration, text] = cells else {
        return None;
    };
    let copy = Vec::from_slice(alloc, text).ok()?;
    let text = String::from_utf8(copy).ok()?;
    match Note::new(Instant::at(EVENING)?, duration_in(duration), text) {
        Some(note) => note_text(alloc, &note),
        None => String::from_str(alloc, "none").ok(),
    }
}

fn duration_in(cell: &[u8]) -> Option<u64> {
    match cell {
        b"none" => None,
        digits => Some(number(digits)),
    }
}

fn note_text(alloc: Global, note: &Note) -> Option<String> {
    let text = quoted(alloc, note.text().as_bytes()).ok()?;
    format!(in alloc; "{} {:?} {text}", note.onset().nanos(), note.duration()).ok()
}

/// Whether two blocks have the same annotations.
pub(crate) fn same(alloc: Global, cells: &[Vec<u8>]) -> Option<String> {
    let [one, other] = cells else {
        return None;
    };
    let start = Instant::at(EVENING)?;
    let (_, first) = read_block(alloc, one, start, Place::First).ok()?;
    let (_, second) = read_block(alloc, other, start, Place::First).ok()?;
    format!(in alloc; "{}", same_notes(&first, &second)).ok()
}
