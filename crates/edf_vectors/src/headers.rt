//! Headers, and the identities of recordings.

use crate::bases::{changed, counted};
use crate::cells::{fault_text, fields};
use edf_header::{
    Block, Header, HeaderFault, Identity, read_fixed, read_signals, signal_row, write_header,
};
use edf_sample::named::identity_q;
use edf_time::Instant;
use std::alloc::{AllocError, Global};

/// The widths of an identity of one ordinary signal.
const IDENTITY: &[usize] = &[80, 1, 69, 8, 16, 80, 8, 8, 8, 8, 8, 80, 8, 32];

/// The widths of a header of two signals.
const HEADER: &[usize] = &[
    8, 80, 80, 8, 8, 8, 44, 8, 8, 4, 16, 16, 80, 80, 8, 8, 8, 8, 8, 8, 8, 8, 8, 8, 80, 80, 8, 8,
    32, 32,
];

/// The widths of a signal.
const SIGNAL: &[usize] = &[16, 80, 8, 8, 8, 8, 8, 80, 8, 32];

/// How many signals a fixed part has, or its fault.
pub(crate) fn fixed(alloc: Global, cells: &[Vec<u8>]) -> Option<String> {
    let bytes = changed(alloc, cells)?;
    match read_fixed(bytes.first_chunk::<256>()?) {
        Ok(fixed) => format!(in alloc; "{} signals", fixed.signals()).ok(),
        Err(fault) => fault_text(alloc, fault.number(), &fault),
    }
}

/// The first `most` bytes, or all where there are fewer.
fn front(bytes: &[u8], most: usize) -> &[u8] {
    bytes.get(..most).unwrap_or(bytes)
}

/// Reads a header, and none of the bytes after it.
fn read(alloc: Global, bytes: &[u8]) -> Option<Result<Header, HeaderFault>> {
    let fixed = match read_fixed(bytes.first_chunk::<256>()?) {
        Ok(fixed) => fixed,
        Err(fault) => return Some(Err(fault)),
    };
    let signals = front(bytes.get(256..)?, 256 * fixed.signals());
    if signals.len() > 256 * fixed.signals() {
        return None;
    }
    Some(read_signals(alloc, fixed, signals))
}

/// The nanosecond at which a header starts, its count, whether its recording is dated, the duration
/// of a data record; the bytes of the annotations blocks, of a data record and of ordinary samples.
fn layout(alloc: Global, header: &Header) -> Option<String> {
    let start = header.start().nanos();
    let count = header.count();
    let identity = header.identity();
    let dated = identity.dated();
    let nanos = identity.duration();
    let notes = header.block_bytes();
    let all = header.record_bytes();
    let own = identity.ordinary_bytes();
    format!(in alloc;
        "start {start} count {count:?} dated {dated} duration {nanos} bytes {notes} {all} {own}"
    ).ok()
}

pub(crate) fn header(alloc: Global, cells: &[Vec<u8>]) -> Option<String> {
    match read(alloc, &changed(alloc, cells)?)? {
        Ok(header) => layout(alloc, &header),
        Err(fault) => fault_text(alloc, fault.number(), &fault),
    }
}

/// The fields of the last signal of a header.
pub(crate) fn row(alloc: Global, cells: &[Vec<u8>]) -> Option<String> {
    let bytes = changed(alloc, cells)?;
    let signals = read_fixed(bytes.first_chunk::<256>()?).ok()?.signals();
    let columns = front(bytes.get(256..)?, 256 * signals);
    if signals < 1 || columns.len() != 256 * signals {
        return None;
    }
    fields(alloc, &signal_row(columns, signals, signals - 1), SIGNAL)
}

/// How many annotations blocks a data record has; the offset and the bytes of each.
pub(crate) fn offsets(alloc: Global, cells: &[Vec<u8>]) -> Option<String> {
    let header = read(alloc, &changed(alloc, cells)?)?.ok()?;
    let mut text = String::new(alloc);
    push_offsets(&mut text, header.blocks()).ok()?;
    Some(text)
}

fn push_offsets(text: &mut String, blocks: &[Block]) -> Result<(), AllocError> {
    write!(text, "{}", blocks.len())?;
    for block in blocks {
        write!(text, " {}:{}", block.at, block.bytes)?;
    }
    Ok(())
}

/// How many bytes an identity has, and its fields up to those of the first ordinary signal.
fn spelled(alloc: Global, identity: &Identity) -> Option<String> {
    let bytes = identity.to_bytes(alloc).ok()?;
    let text = fields(alloc, &bytes, IDENTITY)?;
    format!(in alloc; "{} {text}", bytes.len()).ok()
}

/// The identity of a header.
pub(crate) fn identity_of(alloc: Global, cells: &[Vec<u8>]) -> Option<String> {
    let header = read(alloc, &changed(alloc, cells)?)?.ok()?;
    spelled(alloc, &header.into_identity())
}

/// Whether an identity is that of Q.
fn is_of_q(alloc: Global, identity: &Identity) -> Option<bool> {
    let of_q = Identity::from_bytes(alloc, &identity_q(alloc).ok()?).ok()?;
    Some(of_q.same(identity))
}

/// The parts of an identity, and whether it is that of Q.
fn parts(alloc: Global, identity: &Identity) -> Option<String> {
    let code = str::from_utf8(identity.patient_code()).ok()?;
    let test = str::from_utf8(identity.investigation_code()).ok()?;
    let nanos = identity.duration();
    let signals = identity.signals();
    let bytes = identity.ordinary_bytes();
    let dated = identity.dated();
    let same = is_of_q(alloc, identity)?;
    format!(in alloc;
        "{code} {test} duration {nanos} signals {signals} bytes {bytes} dated {dated} same {same}"
    ).ok()
}

/// The parts of the identity of these bytes, or its fault.
pub(crate) fn identity(alloc: Global, cells: &[Vec<u8>]) -> Option<String> {
    match Identity::from_bytes(alloc, &changed(alloc, cells)?) {
        Ok(identity) => parts(alloc, &identity),
        Err(fault) => format!(in alloc; "{fault:?}").ok(),
    }
}

/// The bytes of the identity of these bytes.
pub(crate) fn bytes(alloc: Global, cells: &[Vec<u8>]) -> Option<String> {
    spelled(
        alloc,
        &Identity::from_bytes(alloc, &changed(alloc, cells)?).ok()?,
    )
}

/// Whether a recording may start at a nanosecond.
pub(crate) fn may_start(alloc: Global, cells: &[Vec<u8>]) -> Option<String> {
    let (nanos, bytes) = counted(alloc, cells)?;
    let identity = Identity::from_bytes(alloc, &bytes).ok()?;
    format!(in alloc; "{}", identity.may_start(Instant::at(nanos)?)).ok()
}

/// The canonical header of one data record that starts in a second, field by field, and whether its
/// identity is the same.
pub(crate) fn canonical(alloc: Global, cells: &[Vec<u8>]) -> Option<String> {
    let (second, bytes) = counted(alloc, cells)?;
    let identity = Identity::from_bytes(alloc, &bytes).ok()?;
    canonical_text(
        alloc,
        &identity,
        Instant::at(second.wrapping_mul(1_000_000_000))?,
    )
}

fn canonical_text(alloc: Global, identity: &Identity, start: Instant) -> Option<String> {
    if !identity.may_start(start) {
        return String::from_str(alloc, "may not start").ok();
    }
    let written = write_header(alloc, identity, start, 1, 3).ok()?;
    let same = names(alloc, &written, identity)?;
    let text = fields(alloc, &written, HEADER)?;
    format!(in alloc; "{} {text} {same}", written.len()).ok()
}

/// Whether a header's identity is this one.
fn names(alloc: Global, bytes: &[u8], identity: &Identity) -> Option<bool> {
    let header = read(alloc, bytes)?.ok()?;
    Some(header.identity().same(identity))
}
