//! The texts of header fields.

use crate::cells::{eight, eighty, number, quoted};
use edf_field::{
    are_spaces, follows_startdate, is_patient, next_subfield, physical_values_differ,
    read_duration, read_recording, read_signed, read_whole, spaces_len, without_sign,
};
use edf_time::{Day, Instant};
use std::alloc::Global;

pub(crate) fn whole(alloc: Global, cells: &[Vec<u8>]) -> Option<String> {
    let [field] = cells else {
        return None;
    };
    format!(in alloc; "{:?}", read_whole(&eight(field))).ok()
}

pub(crate) fn signed(alloc: Global, cells: &[Vec<u8>]) -> Option<String> {
    let [field] = cells else {
        return None;
    };
    format!(in alloc; "{:?}", read_signed(&eight(field))).ok()
}

/// The nanoseconds of the duration of a data record.
pub(crate) fn duration(alloc: Global, cells: &[Vec<u8>]) -> Option<String> {
    let [field] = cells else {
        return None;
    };
    format!(in alloc; "{:?}", read_duration(&eight(field))).ok()
}

/// Whether a physical minimum and maximum differ.
pub(crate) fn differ(alloc: Global, cells: &[Vec<u8>]) -> Option<String> {
    let [minimum, maximum] = cells else {
        return None;
    };
    let differ = physical_values_differ(&eight(minimum), &eight(maximum));
    format!(in alloc; "{differ}").ok()
}

pub(crate) fn spaces(alloc: Global, cells: &[Vec<u8>]) -> Option<String> {
    let [text] = cells else {
        return None;
    };
    format!(in alloc; "{}", are_spaces(text)).ok()
}

/// How many spaces a text begins with.
pub(crate) fn leading(alloc: Global, cells: &[Vec<u8>]) -> Option<String> {
    let [text] = cells else {
        return None;
    };
    format!(in alloc; "{}", spaces_len(text)).ok()
}

/// A number without its sign.
pub(crate) fn unsigned(alloc: Global, cells: &[Vec<u8>]) -> Option<String> {
    let [text] = cells else {
        return None;
    };
    quoted(alloc, without_sign(text)).ok()
}

/// The first subfield of a text, and what is after it.
pub(crate) fn subfield(alloc: Global, cells: &[Vec<u8>]) -> Option<String> {
    let [text] = cells else {
        return None;
    };
    let Some((first, rest)) = next_subfield(text) else {
        return String::from_str(alloc, "none").ok();
    };
    let first = quoted(alloc, first).ok()?;
    let rest = quoted(alloc, rest).ok()?;
    format!(in alloc; "{first} {rest}").ok()
}

pub(crate) fn patient(alloc: Global, cells: &[Vec<u8>]) -> Option<String> {
    let [text] = cells else {
        return None;
    };
    format!(in alloc; "{}", is_patient(text)).ok()
}

/// The day of a second.
fn day_of(second: &[u8]) -> Option<Day> {
    Some(Instant::at(number(second).wrapping_mul(1_000_000_000))?.day())
}

/// Whether the startdate of a recording identification is the day of this second, or none for `X`;
/// and what comes after it.
pub(crate) fn recording(alloc: Global, cells: &[Vec<u8>]) -> Option<String> {
    let [text, second] = cells else {
        return None;
    };
    let field = eighty(text);
    let Ok((day, rest)) = read_recording(&field) else {
        return String::from_str(alloc, "none").ok();
    };
    let expected = match second.as_slice() {
        b"X" => None,
        digits => day_of(digits),
    };
    let rest = quoted(alloc, rest).ok()?;
    format!(in alloc; "{} {rest}", day == expected).ok()
}

/// Whether a text may come after the startdate.
pub(crate) fn rest(alloc: Global, cells: &[Vec<u8>]) -> Option<String> {
    let [text] = cells else {
        return None;
    };
    format!(in alloc; "{}", follows_startdate(text)).ok()
}
