//! Decimals of seconds, instants, and the texts of dates and times.

use crate::cells::{eight, number, signed};
use edf_time::{
    Day, Instant, date_field, id_date, id_date_text, instant_text, read_seconds, seconds_len,
    start_of, time_field, write_seconds,
};
use std::alloc::{AllocError, Global};

/// The nanoseconds of a decimal.
pub(crate) fn decimal(alloc: Global, cells: &[Vec<u8>]) -> Option<String> {
    let [text] = cells else {
        return None;
    };
    format!(in alloc; "{:?}", read_seconds(text)).ok()
}

/// The shortest decimal of nanoseconds, and the length that `seconds_len` says it has.
pub(crate) fn shortest(alloc: Global, cells: &[Vec<u8>]) -> Option<String> {
    let [cell] = cells else {
        return None;
    };
    let nanos = number(cell);
    let text = String::from_utf8(write_seconds(alloc, nanos).ok()?).ok()?;
    format!(in alloc; "{text} {}", seconds_len(nanos)).ok()
}

/// The second that a startdate and a starttime name beside a day or none, or their fault.
fn second(alloc: Global, date: &[u8; 8], time: &[u8; 8], day: Option<Day>) -> Option<String> {
    match start_of(date, time, day) {
        Ok(start) => format!(in alloc; "{}", start.nanos() / 1_000_000_000).ok(),
        Err(fault) => format!(in alloc; "{fault:?}").ok(),
    }
}

/// The second in which a file starts, by its startdate, its starttime and its Startdate subfield.
pub(crate) fn start(alloc: Global, cells: &[Vec<u8>]) -> Option<String> {
    let [date, time, subfield] = cells else {
        return None;
    };
    let day = match subfield.as_slice() {
        b"X" => None,
        text => Some(id_date(text)?),
    };
    second(alloc, &eight(date), &eight(time), day)
}

/// Whether a text is a date of an identification.
pub(crate) fn date(alloc: Global, cells: &[Vec<u8>]) -> Option<String> {
    let [text] = cells else {
        return None;
    };
    format!(in alloc; "{}", id_date(text).is_some()).ok()
}

/// Whether one date of an identification is before another.
pub(crate) fn before(alloc: Global, cells: &[Vec<u8>]) -> Option<String> {
    let [one, other] = cells else {
        return None;
    };
    format!(in alloc; "{}", id_date(one)? < id_date(other)?).ok()
}

/// The texts of an instant: its startdate, its starttime, its date in an identification, and the
/// text that a person is shown.
fn texts(alloc: Global, at: Instant) -> Option<String> {
    let mut text = Vec::new(alloc);
    push_texts(&mut text, alloc, at).ok()?;
    String::from_utf8(text).ok()
}

fn push_texts(text: &mut Vec<u8>, alloc: Global, at: Instant) -> Result<(), AllocError> {
    text.extend_from_slice(&date_field(at))?;
    text.push(b' ')?;
    text.extend_from_slice(&time_field(at))?;
    text.push(b' ')?;
    text.extend_from_slice(&id_date_text(at))?;
    text.push(b' ')?;
    text.extend_from_slice(instant_text(alloc, at)?.as_slice())
}

/// The texts of an instant, its second, the seconds that its startdate and starttime name beside
/// its date and beside `X`, whether its date is that of its day, and whether two digits name its
/// year.
pub(crate) fn instant(alloc: Global, cells: &[Vec<u8>]) -> Option<String> {
    let [cell] = cells else {
        return None;
    };
    let Some(at) = Instant::at(number(cell)) else {
        return String::from_str(alloc, "outside").ok();
    };
    let text = texts(alloc, at)?;
    let seconds = seconds(alloc, at)?;
    let same = id_date(&id_date_text(at)) == Some(at.day());
    let digits = at.has_two_digit_year();
    format!(in alloc; "{text} {seconds} {same} {digits}").ok()
}

/// The second of an instant, and those that its texts name.
fn seconds(alloc: Global, at: Instant) -> Option<String> {
    let whole = at.second().nanos() / 1_000_000_000;
    let day = id_date(&id_date_text(at));
    let dated = second(alloc, &date_field(at), &time_field(at), day)?;
    let undated = second(alloc, &date_field(at), &time_field(at), None)?;
    format!(in alloc; "{whole} {dated} {undated}").ok()
}

/// Where an instant is after it is moved.
pub(crate) fn moved(alloc: Global, cells: &[Vec<u8>]) -> Option<String> {
    let [cell, delta] = cells else {
        return None;
    };
    match Instant::at(number(cell))?.after(signed(delta)) {
        Some(at) => format!(in alloc; "{}", at.nanos()).ok(),
        None => String::from_str(alloc, "outside").ok(),
    }
}

/// How much later an instant is than another, and whether it and its day are before the other.
pub(crate) fn since(alloc: Global, cells: &[Vec<u8>]) -> Option<String> {
    let [cell, other] = cells else {
        return None;
    };
    let one = Instant::at(number(cell))?;
    let two = Instant::at(number(other))?;
    let later = one.since(two);
    format!(in alloc; "{later} {} {}", one < two, one.day() < two.day()).ok()
}
