//! A data record as it is in a canonical file.

ghost use Rattle.std.specs.Prelude.{◌≡◌, ◌≤◌, length};
ghost use Rattle.edf_canonical.specs.File.{block_of, samples_of, filled_block, record_text};
ghost use Rattle.edf_canonical.specs.Output.{buffered, IsWrittenOrBuffered};

use crate::fault::OutputFault;
use crate::output::{Buffer, put, put_zeros};
use edf_fragment::{Output, Record};
use edf_tal::{MOST_CANONICAL_BLOCK_SAMPLES, block_len, write_block};
use edf_time::Instant;

/// Returns how many samples, two bytes each, hold the block of a data record, with onsets counted
/// from `file_start`: half of its bytes, rounded up.
pub fn samples_of(data_record: &Record, file_start: Instant) -> u32
    ensures value { result ≡ samples_of file_start data_record.now }
    ensures some { 1 ≤ result }
    ensures few { result ≤ MOST_CANONICAL_BLOCK_SAMPLES }
{
    let len = block_len(data_record.start(), data_record.notes(), file_start);
    len.div_ceil(2) as u32
}

/// Puts the block of a data record, and then zeros, `size` bytes in all.
fn put_block<W: Output>(
    out: &mut W,
    held: &mut Buffer,
    data_record: &Record,
    file_start: Instant,
    size: usize,
) -> Result<(), OutputFault>
    requires { length (block_of file_start data_record.now) ≤ size }
    ensures { IsWrittenOrBuffered (buffered W.Output out.old held.old.bytes.items)
        (buffered W.Output out.new held.new.bytes.items)
        (filled_block file_start size data_record.now) result }
{
    let start = data_record.start();
    let Ok(block) = write_block(held.alloc, start, data_record.notes(), file_start) else {
        return Err(OutputFault::Memory);
    };
    put(out, held, block.as_slice())?;
    put_zeros(out, held, size - block.len())
}

/// Puts a data record as it is in a canonical file: its samples, its block, and then zeros, `size`
/// bytes from the block on.
///
/// # Errors
/// `Memory` where memory ran out, `Write` where a write failed; a prefix of the data record may
/// have been written then.
pub(crate) fn put_record<W: Output>(
    out: &mut W,
    held: &mut Buffer,
    data_record: &Record,
    file_start: Instant,
    size: usize,
) -> Result<(), OutputFault>
    requires { length (block_of file_start data_record.now) ≤ size }
    ensures { IsWrittenOrBuffered (buffered W.Output out.old held.old.bytes.items)
        (buffered W.Output out.new held.new.bytes.items)
        (record_text file_start size data_record.now) result }
{
    put(out, held, data_record.samples())?;
    put_block(out, held, data_record, file_start, size)
}
