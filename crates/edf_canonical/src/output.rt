//! Writing through a buffer of 256 KiB, which the caller holds beside its writer.

ghost use Rattle.std.specs.Prelude.{◌≡◌, ◌+◌, ◌-◌, ◌≤◌, [], length, vec_len, replicate};
ghost use Rattle.edf_canonical.specs.Output.{buffered, IsWrittenOrBuffered, IsFlushed};
ghost use Rattle.edf_canonical.specs.declared.output.TheConstants.{MOST_HELD};

use crate::fault::OutputFault;
use edf_fragment::{Output, send};
use std::alloc::Global;

/// The most bytes that are held back: 256 KiB.
const MOST_HELD: usize = 262_144;

/// Bytes that are held back before they are written.
#[derive(Drop)]
pub struct Buffer {
    pub(crate) alloc: Global,
    bytes: Vec<u8>,
    ghost within: { vec_len bytes ≤ MOST_HELD },
}

impl Buffer {
    /// Returns an empty buffer.
    pub fn new(alloc: Global) -> Buffer
        ensures { result.bytes.items ≡ [] }
    {
        Buffer {
            alloc,
            bytes: Vec::new(alloc),
        }
    }
}

/// Writes all that is held back.
///
/// # Errors
/// `Write` where a write failed, or took none of some bytes; a prefix of what is held was written
/// then.
pub fn flush<W: Output>(out: &mut W, held: &mut Buffer) -> Result<(), OutputFault>
    ensures { IsFlushed (buffered W.Output out.old held.old.bytes.items)
        (buffered W.Output out.new held.new.bytes.items) result }
{
    if !send(out, held.bytes.as_slice()) {
        return Err(OutputFault::Write);
    }
    held.bytes.clear();
    Ok(())
}

/// Writes the held bytes, and then these.
fn put_through<W: Output>(out: &mut W, held: &mut Buffer, bytes: &[u8]) -> Result<(), OutputFault>
    ensures { IsWrittenOrBuffered (buffered W.Output out.old held.old.bytes.items)
        (buffered W.Output out.new held.new.bytes.items) bytes.now result }
{
    flush(out, held)?;
    if !send(out, bytes) {
        return Err(OutputFault::Write);
    }
    Ok(())
}

/// Holds these bytes back after those already held.
fn hold<W: Output>(out: &mut W, held: &mut Vec<u8>, bytes: &[u8]) -> Result<(), OutputFault>
    ensures put { IsWrittenOrBuffered (buffered W.Output out.old held.old.items)
        (buffered W.Output out.new held.new.items) bytes.now result }
    ensures grown { vec_len held.new ≤ vec_len held.old + length bytes.now }
{
    match held.extend_from_slice(bytes) {
        Ok(()) => Ok(()),
        Err(_) => Err(OutputFault::Memory),
    }
}

/// Holds these bytes back after those already held where they fit, and else writes those that are
/// held first.
///
/// # Errors
/// `Write` where a write failed, or took none of some bytes; `Memory` where memory ran out. A
/// prefix of what was held and of these bytes was written then.
pub fn put<W: Output>(out: &mut W, held: &mut Buffer, bytes: &[u8]) -> Result<(), OutputFault>
    ensures { IsWrittenOrBuffered (buffered W.Output out.old held.old.bytes.items)
        (buffered W.Output out.new held.new.bytes.items) bytes.now result }
{
    if bytes.len() >= MOST_HELD {
        return put_through(out, held, bytes);
    }
    if bytes.len() <= MOST_HELD - held.bytes.len() {
        return hold(out, &mut held.bytes, bytes);
    }
    flush(out, held)?;
    hold(out, &mut held.bytes, bytes)
}

/// The most zeros that are put at once.
const MOST_ZEROS: usize = 4_096;

const ZEROS: [u8; MOST_ZEROS] = [0; MOST_ZEROS];

/// Puts `count` zeros.
pub(crate) fn put_zeros<W: Output>(
    out: &mut W,
    held: &mut Buffer,
    count: usize,
) -> Result<(), OutputFault>
    ensures { IsWrittenOrBuffered (buffered W.Output out.old held.old.bytes.items)
        (buffered W.Output out.new held.new.bytes.items) (replicate count 0) result }
{
    let mut left = count;
    while left > 0 {
        let piece = left.min(MOST_ZEROS);
        put(out, held, &ZEROS[..piece])?;
        left -= piece;
    }
    Ok(())
}
