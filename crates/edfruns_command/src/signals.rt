//! The ordinary signals of an identity, as a picture and the lines of a filled file name them.

use edf_field::nearest_to_zero;
use edf_header::Identity;
use edf_picture::Signal;
use std::alloc::{AllocError, Global};

/// Where the rows of the signals begin in an identity's bytes, and how long each is.
const ROWS: usize = 158;

const ROW: usize = 256;

/// Where the fields of a row begin that are shown. Each ends where the next begins.
const LABEL_END: usize = 16;

const DIMENSION: usize = 96;

const PHYSICAL_MINIMUM: usize = 104;

const PHYSICAL_MAXIMUM: usize = 112;

const DIGITAL_MINIMUM: usize = 120;

const DIGITAL_MAXIMUM: usize = 128;

const DIGITAL_END: usize = 136;

const SAMPLES: usize = 216;

const SAMPLES_END: usize = 224;

/// The signals of an identity, by its bytes, in the order of the header.
pub(crate) fn signals_in(alloc: Global, bytes: &[u8]) -> Result<Vec<Signal<'_>>, AllocError> {
    let mut signals = Vec::new(alloc);
    let (_, rows) = bytes.split_at(ROWS.min(bytes.len()));
    for row in rows.chunks_exact(ROW) {
        signals.push(Signal {
            label: part(row, 0, LABEL_END),
            dimension: part(row, DIMENSION, PHYSICAL_MINIMUM),
            physical_minimum: part(row, PHYSICAL_MINIMUM, PHYSICAL_MAXIMUM),
            physical_maximum: part(row, PHYSICAL_MAXIMUM, DIGITAL_MINIMUM),
            digital_minimum: part(row, DIGITAL_MINIMUM, DIGITAL_MAXIMUM),
            digital_maximum: part(row, DIGITAL_MAXIMUM, DIGITAL_END),
            samples: number(part(row, SAMPLES, SAMPLES_END)),
        })?;
    }
    Ok(signals)
}

/// The bytes of a row from one place to before another.
fn part(row: &[u8], from: usize, to: usize) -> &[u8] {
    let (front, _) = row.split_at(to.min(row.len()));
    let (_, part) = front.split_at(from.min(front.len()));
    part
}

/// The number that the digits of a field write.
fn number(field: &[u8]) -> u32 {
    let mut number = 0u32;
    for byte in field {
        if byte.is_ascii_digit() {
            let digit = u32::from(byte.saturating_sub(b'0'));
            number = number.saturating_mul(10).saturating_add(digit);
        }
    }
    number
}

/// Returns a field of a row without the spaces behind it.
fn trimmed(row: &[u8], from: usize, to: usize) -> &[u8] {
    part(row, from, to).trim_ascii_end()
}

/// Is true where all digits of a physical value are 0.
fn is_zero(field: &[u8]) -> bool {
    field.iter().all(|byte| !(b'1'..=b'9').contains(byte))
}

/// Returns the physical limit of a row that is nearer to 0, where 0 is not between both.
fn nearer_limit(row: &[u8]) -> Option<&[u8]> {
    let low = part(row, PHYSICAL_MINIMUM, PHYSICAL_MAXIMUM);
    let high = part(row, PHYSICAL_MAXIMUM, DIGITAL_MINIMUM);
    let is_between = low.starts_with(b"-") != high.starts_with(b"-");
    if is_between || is_zero(low) || is_zero(high) || low.len() > 8 || high.len() > 8 {
        return None;
    }
    match nearest_to_zero(low, high, 1)? {
        0 => Some(low.trim_ascii_end()),
        _ => Some(high.trim_ascii_end()),
    }
}

/// Returns a line for each signal whose physical limits don't have 0 between them: what its flat
/// samples show.
pub(crate) fn outside_lines(alloc: Global, identity: &Identity) -> Result<Vec<u8>, AllocError> {
    let mut text = Vec::new(alloc);
    for (at, row) in identity.signal_rows().chunks_exact(ROW).enumerate() {
        let Some(limit) = nearer_limit(row) else {
            continue;
        };
        let number = at + 1;
        let front = format!(in alloc; "signal {number}")?;
        text.extend_from_slice(front.as_bytes())?;
        let dimension = trimmed(row, DIMENSION, PHYSICAL_MINIMUM);
        for word in [trimmed(row, 0, LABEL_END), b"is flat at", limit, dimension] {
            if !word.is_empty() {
                text.push(b' ')?;
                text.extend_from_slice(word)?;
            }
        }
        text.extend_from_slice(b": 0 is outside its limits\n".as_slice())?;
    }
    Ok(text)
}
