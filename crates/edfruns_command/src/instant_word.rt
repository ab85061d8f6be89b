//! Instants and lengths of time, as words of a command line and lines have them.

use edf_cli::spelled;
use edf_time::{Instant, read_seconds};
use jiff::civil::Date;
use std::alloc::{AllocError, Global};

/// 1985-01-01 comes this many days after the calendar's first date.
const FIRST_DAY: i64 = 4_371_587 + 5_479;

const SECOND: u64 = 1_000_000_000;

/// How many days there are from 1985 to 2184.
const DAYS: i64 = 73_049;

/// After all instants, in nanoseconds from 1985.
pub(crate) const END: u64 = DAYS as u64 * 86_400 * SECOND;

/// Returns the number that digits write, at most four of them; `None` where there are others.
fn number(digits: &[u8]) -> Option<u16> {
    let mut value = 0;
    for digit in digits {
        if !digit.is_ascii_digit() || value > 999 {
            return None;
        }
        value = 10 * value + u16::from(*digit - b'0');
    }
    Some(value)
}

/// Returns the nanoseconds from 1985 to the midnight of a date `yyyy-mm-dd`.
fn midnight(text: &[u8]) -> Option<u64> {
    if text.len() != 10 || text[4] != b'-' || text[7] != b'-' {
        return None;
    }
    let (year, month, day) = (
        number(&text[..4])?,
        number(&text[5..7])?,
        number(&text[8..])?,
    );
    if year > 9_999 || month > 12 || day > 31 {
        return None;
    }
    let Ok(date) = Date::new(year as i16, month as i8, day as i8) else {
        return None;
    };
    let days = i64::from(date.to_plain().days_since_min()) - FIRST_DAY;
    if !(0..DAYS).contains(&days) {
        return None;
    }
    Some(days as u64 * 86_400 * SECOND)
}

/// Returns the nanoseconds of `:ss` with a dot and at most nine decimals, or none, behind it.
fn seconds(text: &[u8]) -> Option<u64> {
    let [b':', tens, units, decimals @ ..] = text else {
        return None;
    };
    let whole = number(&[*tens, *units])?;
    if whole > 59 {
        return None;
    }
    match decimals {
        [] => {}
        [b'.', digits @ ..] if !digits.is_empty() && digits.len() <= 9 => {}
        _ => return None,
    }
    read_seconds(&text[1..]).ok()
}

/// Returns the nanoseconds of a time `hh:mm`, `hh:mm:ss` or that with decimals.
fn time_of_day(text: &[u8]) -> Option<u64> {
    if text.len() < 5 || text[2] != b':' {
        return None;
    }
    let (hour, minute) = (number(&text[..2])?, number(&text[3..5])?);
    if hour > 23 || minute > 59 {
        return None;
    }
    let rest = if text.len() == 5 {
        0
    } else {
        seconds(&text[5..])?
    };
    let minutes = (3_600 * u64::from(hour) + 60 * u64::from(minute)) * SECOND;
    minutes.checked_add(rest)
}

/// Returns the instant of a word such as `2023-11-05T01:30:00.25`; `None` where it is none.
pub(crate) fn instant_of(word: &str) -> Option<Instant> {
    let text = word.as_bytes();
    if text.len() < 16 || text[10] != b'T' {
        return None;
    }
    let (day, time) = (midnight(&text[..10])?, time_of_day(&text[11..])?);
    Instant::at(day.checked_add(time)?)
}

/// Returns the text of an instant, in nanoseconds; after all instants, that of the last.
pub(crate) fn text_of_instant(alloc: Global, nanos: u64) -> Result<Vec<u8>, AllocError> {
    match Instant::at(nanos.min(END - 1)) {
        Some(instant) => spelled(alloc, instant),
        None => Ok(Vec::new(alloc)),
    }
}

/// Returns the nanoseconds of a decimal of hours, or of seconds, each of which has so many.
pub(crate) fn length_of(word: &str, unit: u64) -> Option<u64> {
    let seconds = read_seconds(word.as_bytes()).ok()?;
    seconds.checked_mul(unit / SECOND)
}
