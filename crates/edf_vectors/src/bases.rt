//! The files that cases name, with changes.
//!
//! A file is named by its letter: Q, P5, R9, N1, N2, N3, K, U, V; A is the identity of Q's
//! recording, as bytes. Small letters stand for the header of Q with other signals: `e` is its EEG
//! signal, `a` and `b` are annotations signals of three and eight samples.
//!
//! A change is `name=text`. The name is that of a field, with the signal's number where it is one
//! of a signal's; or an offset; or `cut`, to so many bytes; or `more`, bytes at the end.

use crate::cells::{number, size};
use edf_sample::named::{
    file_k, file_n1, file_n2, file_n3, file_p5, file_q, file_r9, file_u, file_v, identity_q,
};
use edf_sample::{Signal, file, q};
use std::alloc::Global;

/// The signal of a letter.
fn signal(letter: u8) -> Option<Signal<'static>> {
    match letter {
        b'e' => Some(Signal::eeg()),
        b'a' => Some(Signal::annotations("3")),
        b'b' => Some(Signal::annotations("8")),
        _ => None,
    }
}

/// The signals of these letters.
fn signals_of(alloc: Global, letters: &[u8]) -> Option<Vec<Signal<'static>>> {
    let mut signals = Vec::new(alloc);
    for letter in letters {
        signals.push(signal(*letter)?).ok()?;
    }
    Some(signals)
}

/// The header of Q with these signals instead of its own.
fn header_with(alloc: Global, signals: &[Signal<'_>]) -> Option<Vec<u8>> {
    let count = signals.len();
    let bytes = count.saturating_mul(256).saturating_add(256);
    let count = format!(in alloc; "{count}").ok()?;
    let bytes = format!(in alloc; "{bytes}").ok()?;
    let header = q()
        .signals(count.as_str())
        .header_bytes(bytes.as_str())
        .listed(signals);
    file(alloc, &header, &[]).ok()
}

/// The bytes of this name.
fn named(alloc: Global, name: &[u8]) -> Option<Vec<u8>> {
    match name {
        b"A" => identity_q(alloc).ok(),
        b"Q" => file_q(alloc).ok(),
        b"P5" => file_p5(alloc).ok(),
        b"R9" => file_r9(alloc).ok(),
        b"N1" => file_n1(alloc).ok(),
        b"N2" => file_n2(alloc).ok(),
        b"N3" => file_n3(alloc).ok(),
        b"K" => file_k(alloc).ok(),
        b"U" => file_u(alloc).ok(),
        b"V" => file_v(alloc).ok(),
        letters => header_with(alloc, signals_of(alloc, letters)?.as_slice()),
    }
}

/// Where the signals begin in the bytes of this name, and how many there are.
#[derive(Clone, Copy)]
struct Shape {
    signals_at: usize,
    signals: usize,
}

fn shape_of(name: &[u8]) -> Shape {
    let (signals_at, signals) = match name {
        b"A" => (158, 1),
        b"V" => (256, 3),
        [b'a'..=b'z', ..] => (256, name.len()),
        _ => (256, 2),
    };
    Shape {
        signals_at,
        signals,
    }
}

/// The fields of the fixed part of a header, one after the other, each with its width.
const FIXED: &[(&str, usize)] = &[
    ("version", 8),
    ("patient", 80),
    ("recording", 80),
    ("startdate", 8),
    ("starttime", 8),
    ("header bytes", 8),
    ("reserved", 44),
    ("count", 8),
    ("duration", 8),
    ("signals", 4),
];

/// Those of an identity: `dated` is `D`, or `X` where there is no date; `rest` is what comes after
/// the startdate.
const IDENTITY: &[(&str, usize)] = &[("patient", 80), ("dated", 1), ("rest", 69), ("duration", 8)];

/// Those of a signal.
const SIGNAL: &[(&str, usize)] = &[
    ("label", 16),
    ("transducer", 80),
    ("dimension", 8),
    ("physical minimum", 8),
    ("physical maximum", 8),
    ("digital minimum", 8),
    ("digital maximum", 8),
    ("prefiltering", 80),
    ("samples", 8),
    ("reserved", 32),
];

/// Where the field of this name is, and its width.
fn field_in(fields: &[(&str, usize)], name: &[u8]) -> Option<(usize, usize)> {
    let mut at = 0usize;
    for (field, width) in fields {
        if field.as_bytes() == name {
            return Some((at, *width));
        }
        at = at.wrapping_add(*width);
    }
    None
}

/// Where a field is, and its width, which is 0 for an offset.
fn field(name: &[u8], shape: Shape) -> Option<(usize, usize)> {
    match name {
        [b'0'..=b'9', ..] => Some((size(name), 0)),
        [name @ .., b' ', nth @ b'1'..=b'9'] => {
            let (at, width) = field_in(SIGNAL, name)?;
            let before = at.wrapping_mul(shape.signals);
            let earlier = width.wrapping_mul(usize::from(nth.wrapping_sub(b'1')));
            let at = shape.signals_at.wrapping_add(before).wrapping_add(earlier);
            Some((at, width))
        }
        _ if shape.signals_at == 158 => field_in(IDENTITY, name),
        _ => field_in(FIXED, name),
    }
}

/// Writes a text at an offset, into a field of this width that is filled with spaces.
fn put(bytes: &mut [u8], at: usize, width: usize, text: &[u8]) {
    for filled in bytes.iter_mut().skip(at).take(width) {
        *filled = b' ';
    }
    for (written, byte) in bytes.iter_mut().skip(at).zip(text) {
        *written = *byte;
    }
}

/// Makes a change, where it is one.
fn change(bytes: &mut Vec<u8>, shape: Shape, change: &[u8]) -> Option<()> {
    let end = change.iter().position(|byte| *byte == b'=')?;
    let name = change.get(..end)?;
    let text = change.get(end.wrapping_add(1)..)?;
    match name {
        b"cut" => bytes.truncate(size(text)),
        b"more" => bytes.extend_from_slice(text).ok()?,
        _ => {
            let (at, width) = field(name, shape)?;
            put(bytes.as_mut_slice(), at, width, text);
        }
    }
    Some(())
}

/// The bytes that the first cell names, with the changes of the others.
pub(crate) fn changed(alloc: Global, cells: &[Vec<u8>]) -> Option<Vec<u8>> {
    let (name, changes) = cells.split_first()?;
    let mut bytes = named(alloc, name)?;
    change_each(&mut bytes, shape_of(name), changes)?;
    Some(bytes)
}

fn change_each(bytes: &mut Vec<u8>, shape: Shape, changes: &[Vec<u8>]) -> Option<()> {
    for text in changes {
        change(bytes, shape, text)?;
    }
    Some(())
}

/// The number in the first cell, and the bytes that the others name.
pub(crate) fn counted(alloc: Global, cells: &[Vec<u8>]) -> Option<(u64, Vec<u8>)> {
    let (first, rest) = cells.split_first()?;
    Some((number(first), changed(alloc, rest)?))
}
