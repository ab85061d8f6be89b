ghost use Rattle.std.specs.Prelude.{IfOk, string_bytes};
ghost use Rattle.edf_picture.specs.Picture.{IsInstantLabel};

use crate::escape::text_with;
use edf_time::{Instant, instant_text, write_seconds};
use std::alloc::{AllocError, Global};

pub(crate) const SECOND: u64 = 1_000_000_000;

pub(crate) const DAY: u64 = 86_400 * SECOND;

/// A length with all its decimals: `8 h 00 min 20 s`, `1 min 03.5 s`, `0.25 s`.
pub(crate) fn length_text(alloc: Global, nanos: u64) -> Result<String, AllocError> {
    let (all, rest) = (nanos / SECOND, nanos % (60 * SECOND));
    let (hours, minutes) = (all / 3_600, all / 60 % 60);
    let seconds = text_with(alloc, &write_seconds(alloc, rest)?, b'.', b'.')?;
    let zero = if rest < 10 * SECOND { "0" } else { "" };
    match (hours, minutes) {
        (0, 0) => format!(in alloc; "{seconds} s"),
        (0, _) => format!(in alloc; "{minutes} min {zero}{seconds} s"),
        _ => format!(in alloc; "{hours} h {minutes:02} min {zero}{seconds} s"),
    }
}

/// An instant as a person reads it: `2002-03-02 22:00:00`, and its fraction where it has one.
pub(crate) fn instant_label(alloc: Global, nanos: u64) -> Result<String, AllocError>
    ensures { IfOk result (λ label. IsInstantLabel nanos (string_bytes label)) }
{
    match Instant::at(nanos) {
        Some(instant) => text_with(alloc, &instant_text(alloc, instant)?, b'T', b' '),
        None => String::from_str(alloc, "after 2184"),
    }
}

/// A part of that: the characters from one place to before another.
pub(crate) fn instant_part(
    alloc: Global,
    nanos: u64,
    places: (usize, usize),
) -> Result<String, AllocError> {
    let label = instant_label(alloc, nanos)?;
    let part = label.as_str().get(places.0..places.1);
    String::from_str(alloc, part.unwrap_or(""))
}
