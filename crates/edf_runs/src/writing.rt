//! The file of a run, written data record by data record in a second reading.

ghost use Rattle.std.specs.Prelude.{◌≡◌, ◌≢◌, ◌+◌, ◌*◌, ◌≤◌, ◌↔◌, Err, IfOk, IfErr, length};
ghost use Rattle.edf_header.specs.Key.{MayStart};
ghost use Rattle.edf_runs.specs.Again.{RereadsRun};
ghost use Rattle.edf_runs.specs.File.{marked_continuous};
ghost use Rattle.edf_runs.specs.Written.{CountsCalls, IsRunHeader, IsRunWritten, IsRunUnwritten};

use crate::fault::WriteFault;
use crate::rereading::RunAgain;
use crate::run::Run;
use crate::tally::Tally;
use crate::written::Written;
use edf_canonical::{FilePlan, Measure, send};
use edf_fragment::{Input, OpenFragment, Output};
use edf_header::laws::{header_is_layout, identity_is_key};
use edf_header::{Identity, MOST_SIGNALS, write_header};
use std::alloc::{AllocError, Global};

/// A header with EDF+C at the front of the reserved field, which begins at byte 192.
pub(crate) fn marked_continuous(alloc: Global, plain: &[u8]) -> Result<Vec<u8>, AllocError>
    requires { 197 ≤ length plain.now }
    ensures { IfOk result (λ header. header.items ≡ marked_continuous plain.now) }
{
    let (before, marked) = plain.split_at(192);
    let after = &marked[5..];
    let mut header = Vec::from_slice(alloc, before)?;
    header.extend_from_slice(b"EDF+C".as_slice())?;
    header.extend_from_slice(after)?;
    Ok(header)
}

/// The header of a run's file: the canonical one, marked EDF+C.
fn run_header(alloc: Global, identity: &Identity, run: &Run) -> Result<Vec<u8>, AllocError>
    requires { MayStart identity.now run.now.first }
    ensures header { IfOk result (λ header. IsRunHeader header.items identity.now run.now) }
    ensures short { IfOk result (λ header. length header.items ≤ 256 * (MOST_SIGNALS + 1)) }
{
    identity_is_key(identity);
    let plain = write_header(
        alloc,
        identity,
        run.first(),
        run.records(),
        run.block_samples(),
    )?;
    let header = marked_continuous(alloc, plain.as_slice())?;
    Ok(header)
}

/// Reads the data records of a run again, which come next in its file, and writes the run's file:
/// their canonical file, but EDF+C in place of EDF+D. It tells the length in bytes, how many
/// annotations the file has, and how many of these have an onset outside of the run.
///
/// One data record is in memory at a time beside a buffer of 256 KiB. The writer is not flushed.
///
/// # Errors
/// `Undated` where no header can name the run's start; then nothing was read or written. `Changed`
/// where data records come that start at other instants than were listed, or fewer, or with other
/// blocks; `Read` (E40) where a read failed, `Memory` (E41) where memory ran out, `Write` (E43)
/// where a write failed or took none of some bytes. Then a front of the file may have been written.
pub fn write_run<R: Input, W: Output>(
    alloc: Global,
    fragment: &mut OpenFragment,
    input: &mut R,
    run: &Run,
    out: &mut W,
) -> Result<Written, WriteFault>
    ensures reread { RereadsRun fragment.old fragment.new (R.remaining input.old) run.now result }
    ensures written { IfOk result
        (IsRunWritten fragment.old.header fragment.old.progress fragment.new.progress
        (R.remaining input.old) (R.remaining input.new) (W.contents out.old) (W.contents out.new)
        run.now) }
    ensures refused { IfErr result
        (IsRunUnwritten fragment.old.header fragment.old.progress fragment.new.progress
        (R.remaining input.old) (R.remaining input.new) (W.contents out.old) (W.contents out.new)
        run.now) }
    ensures dated { (result ≢ Err WriteFault.Undated)
        ↔ MayStart fragment.old.header.key run.now.first }
    ensures counted { CountsCalls (R.failures input.old) (R.failures input.new)
        (W.failures out.old) (W.failures out.new) result }
{
    header_is_layout(fragment.header());
    let identity = fragment.header().identity();
    if !identity.may_start(run.first()) {
        return Err(WriteFault::Undated);
    }
    let Ok(header) = run_header(alloc, identity, run) else {
        return Err(WriteFault::Memory);
    };
    let record_bytes = identity.ordinary_bytes() + 2 * run.block_samples() as usize;
    let mut source = RunAgain {
        run,
        nth: 0,
        next: run.first().nanos(),
        tally: Tally::of(run, identity.duration()),
    };
    let measure = Measure {
        first: run.first,
        records: run.records,
        block_samples: run.block_samples,
    };
    let file = FilePlan {
        header: header.as_slice(),
        measure,
    };
    send(alloc, &mut source, fragment, input, &file, out)?;
    Ok(Written {
        bytes: header.len() as u64 + run.records() as u64 * record_bytes as u64,
        annotations: source.tally.annotations,
        outside: source.tally.outside,
    })
}
