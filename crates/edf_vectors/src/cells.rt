//! The cells of a case, as bytes, as numbers and as fields; bytes and faults as texts.

use std::alloc::{AllocError, Global};
use std::fmt::Debug;

/// The value of a hex digit.
fn hex(digit: u8) -> u8 {
    if digit < b'a' {
        digit.wrapping_sub(b'0')
    } else {
        digit.wrapping_sub(b'a').wrapping_add(10)
    }
}

/// Adds the bytes of a text in which `\` and two hex digits stand for a byte.
fn push_bytes(bytes: &mut Vec<u8>, text: &str) -> Result<(), AllocError> {
    let mut pieces = text.split('\\');
    bytes.extend_from_slice(pieces.next().unwrap_or("").as_bytes())?;
    for piece in pieces {
        if let [high, low, rest @ ..] = piece.as_bytes() {
            bytes.push(hex(*high).wrapping_mul(16).wrapping_add(hex(*low)))?;
            bytes.extend_from_slice(rest)?;
        }
    }
    Ok(())
}

/// Adds the bytes of `3*ab`, three times `ab`, or of `2*3*ab`, twice that.
fn push_repeated(alloc: Global, bytes: &mut Vec<u8>, text: &str) -> Result<(), AllocError> {
    let mut parts = text.rsplit('*');
    let mut unit = Vec::new(alloc);
    push_bytes(&mut unit, parts.next().unwrap_or(""))?;
    for count in parts {
        unit = repeated(alloc, &unit, number(count.as_bytes()))?;
    }
    bytes.extend_from_slice(&unit)
}

/// Bytes, so many times.
fn repeated(alloc: Global, unit: &[u8], count: u64) -> Result<Vec<u8>, AllocError> {
    let mut all = Vec::new(alloc);
    for _ in 0..count {
        all.extend_from_slice(unit)?;
    }
    Ok(all)
}

/// The bytes of a cell, in which `{3*ab}` stands for three times `ab`, `{2*3*ab}` for twice that.
pub(crate) fn bytes(alloc: Global, cell: &str) -> Result<Vec<u8>, AllocError> {
    let mut bytes = Vec::new(alloc);
    let mut pieces = cell.split('{');
    push_bytes(&mut bytes, pieces.next().unwrap_or(""))?;
    for piece in pieces {
        let (repeated, rest) = piece.split_once('}').unwrap_or((piece, ""));
        push_repeated(alloc, &mut bytes, repeated)?;
        push_bytes(&mut bytes, rest)?;
    }
    Ok(bytes)
}

/// The value of digits.
pub(crate) fn number(cell: &[u8]) -> u64 {
    let mut value = 0u64;
    for digit in cell {
        let digit = u64::from(digit.wrapping_sub(b'0'));
        value = value.wrapping_mul(10).wrapping_add(digit);
    }
    value
}

/// The value of digits, after a `-` or none.
pub(crate) fn signed(cell: &[u8]) -> i64 {
    match cell {
        [b'-', digits @ ..] => i64::try_from(number(digits)).unwrap_or(0).wrapping_neg(),
        _ => i64::try_from(number(cell)).unwrap_or(i64::MAX),
    }
}

/// The value of digits, as a size.
pub(crate) fn size(cell: &[u8]) -> usize {
    usize::try_from(number(cell)).unwrap_or(0)
}

/// A field of eight bytes, filled with spaces.
pub(crate) fn eight(cell: &[u8]) -> [u8; 8] {
    let mut field = [b' '; 8];
    for (written, byte) in field.iter_mut().zip(cell) {
        *written = *byte;
    }
    field
}

/// A field of eighty bytes.
pub(crate) fn eighty(cell: &[u8]) -> [u8; 80] {
    let mut field = [b' '; 80];
    for (written, byte) in field.iter_mut().zip(cell) {
        *written = *byte;
    }
    field
}

/// Bytes in quotes, with `\` and two hex digits for each that is not printable.
pub(crate) fn quoted(alloc: Global, bytes: &[u8]) -> Result<String, AllocError> {
    let mut text = String::from_str(alloc, "\"")?;
    for byte in bytes {
        match *byte {
            32..=126 => text.push(char::from(*byte))?,
            other => write!(text, "\\{other:02x}")?,
        }
    }
    text.push('"')?;
    Ok(text)
}

/// A fault, with its number before it.
pub(crate) fn fault_text<F: Debug>(alloc: Global, number: u8, fault: &F) -> Option<String> {
    format!(in alloc; "E{number} {fault:?}").ok()
}

/// The fields of these widths, one after the other, without the spaces that fill them.
pub(crate) fn fields(alloc: Global, bytes: &[u8], widths: &[usize]) -> Option<String> {
    let mut text = String::new(alloc);
    push_fields(&mut text, bytes, widths)?;
    Some(text)
}

fn push_fields(text: &mut String, bytes: &[u8], widths: &[usize]) -> Option<()> {
    let mut rest = bytes;
    for width in widths {
        let (field, after) = rest.split_at_checked(*width)?;
        rest = after;
        text.push_str(str::from_utf8(field).ok()?.trim_end()).ok()?;
        text.push('|').ok()?;
    }
    Some(())
}
