//! Fragments and their data records.

use crate::bases::{changed, counted};
use crate::blocks::{EVENING, list};
use crate::cells::{fault_text, quoted, signed, size};
use edf_fragment::{
    Counted, FragmentFault, FragmentReader, Input, OpenFragment, Record, read_fragment,
};
use edf_holdings::clash;
use edf_sample::Source;
use edf_tal::Note;
use edf_time::Instant;
use std::alloc::Global;

/// A data record, its start and its onsets counted from the file's start.
fn record_text(alloc: Global, record: &Record, file_start: Instant) -> Option<String> {
    let at = record.start().since(file_start);
    let samples = quoted(alloc, record.samples()).ok()?;
    let notes = list(alloc, record.notes(), file_start).ok()?;
    format!(in alloc; "; {at} {samples}{notes}").ok()
}

/// The nanosecond at which a fragment starts, the count in its header, how many data records it
/// has, and each of them.
fn records_text(
    alloc: Global,
    start: Instant,
    count: Option<u32>,
    records: &[Record],
) -> Option<String> {
    let nanos = start.nanos();
    let len = records.len();
    let mut text = format!(in alloc; "start {nanos} count {count:?} records {len}").ok()?;
    push_records(&mut text, alloc, start, records)?;
    Some(text)
}

fn push_records(
    text: &mut String,
    alloc: Global,
    start: Instant,
    records: &[Record],
) -> Option<()> {
    for record in records {
        let one = record_text(alloc, record, start)?;
        text.push_str(one.as_str()).ok()?;
    }
    Some(())
}

/// The data records of a fragment.
pub(crate) fn fragment(alloc: Global, cells: &[Vec<u8>]) -> Option<String> {
    let bytes = changed(alloc, cells)?;
    match read_fragment(alloc, &mut Counted::new(Source::whole(&bytes, 100))) {
        Ok((header, records)) => records_text(alloc, header.start(), header.count(), &records),
        Err(FragmentFault::Header(fault)) => fault_text(alloc, fault.number(), &fault),
        Err(fault) => fault_text(alloc, fault.number(), &fault),
    }
}

/// Adds the data records that are left, at most nine; `None` where there is one after the end.
fn read_on<R: Input>(reader: &mut FragmentReader<'_, R>, records: &mut Vec<Record>) -> Option<()> {
    for _ in 0..10u8 {
        match reader.next().ok()? {
            Some(record) => records.push(record).ok()?,
            None => {
                let again = reader.next().ok()?;
                return if again.is_none() { Some(()) } else { None };
            }
        }
    }
    None
}

/// The data records of a fragment, read one after another from a reader that gives at most so many
/// bytes a read.
pub(crate) fn pieces(alloc: Global, cells: &[Vec<u8>]) -> Option<String> {
    let (step, bytes) = counted(alloc, cells)?;
    let mut input = Counted::new(Source::whole(&bytes, usize::try_from(step).ok()?));
    let fragment = OpenFragment::read(alloc, &mut input).ok()?;
    read_pieces(alloc, &mut input, fragment)
}

/// Reads an open fragment to its end.
fn read_pieces<R: Input>(
    alloc: Global,
    input: &mut R,
    mut fragment: OpenFragment,
) -> Option<String> {
    let start = fragment.header().start();
    let mut records = Vec::new(alloc);
    records.push(fragment.next(input).ok()??).ok()?;
    let mut reader = FragmentReader::of(input, fragment);
    read_on(&mut reader, &mut records)?;
    if reader.header().start() != start {
        return None;
    }
    records_text(alloc, start, reader.into_header().count(), &records)
}

/// Annotations at Q's start, with this text.
fn notes(alloc: Global, count: usize, text: &[u8]) -> Option<Vec<Note>> {
    let text = str::from_utf8(text).ok()?;
    let mut list = Vec::new(alloc);
    for _ in 0..count {
        list.push(note(alloc, text)?).ok()?;
    }
    Some(list)
}

fn note(alloc: Global, text: &str) -> Option<Note> {
    let text = String::from_str(alloc, text).ok()?;
    Note::new(Instant::at(EVENING)?, None, text)
}

/// How many annotations a data record has that is made of these samples and of so many annotations
/// of this text; `none` where none can be made.
pub(crate) fn record(alloc: Global, cells: &[Vec<u8>]) -> Option<String> {
    let [samples, count, text] = cells else {
        return None;
    };
    let samples = Vec::from_slice(alloc, samples).ok()?;
    let notes = notes(alloc, size(count), text)?;
    match Record::new(Instant::at(EVENING)?, samples, notes) {
        Some(record) => format!(in alloc; "{} annotations", record.notes().len()).ok(),
        None => String::from_str(alloc, "none").ok(),
    }
}

/// The data record of these samples and one annotation.
fn one(alloc: Global, start: Instant, samples: &[u8], text: &[u8]) -> Option<Record> {
    let samples = Vec::from_slice(alloc, samples).ok()?;
    Record::new(start, samples, notes(alloc, 1, text)?)
}

/// Whether a data record that starts so many nanoseconds after one of a second is the same, and how
/// each clashes with the other.
pub(crate) fn clashes(alloc: Global, cells: &[Vec<u8>]) -> Option<String> {
    let [later, samples, text] = cells else {
        return None;
    };
    let start = Instant::at(EVENING)?;
    let first = one(alloc, start, b"\x01\0", b"Turn")?;
    let second = one(alloc, start.after(signed(later))?, samples, text)?;
    clash_text(alloc, &first, &second)
}

fn clash_text(alloc: Global, first: &Record, second: &Record) -> Option<String> {
    let same = first.same(second);
    let one = clash(first, second, 1_000_000_000);
    let other = clash(second, first, 1_000_000_000);
    format!(in alloc; "same {same} {one:?} {other:?}").ok()
}
