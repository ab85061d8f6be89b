//! The writer of a header and of the data records of a source.

ghost use Rattle.std.specs.Prelude.{List};
ghost use Rattle.edf_fragment.specs.Fragment.{DataRecord};
ghost use Rattle.edf_canonical.specs.Measure.{IsMeasuredSoFar};
ghost use Rattle.edf_canonical.specs.Output.{buffered};
ghost use Rattle.edf_canonical.specs.Sending.{PutsNext, PutsAll, Sends};
ghost use Rattle.edf_canonical.specs.Source.{at};

use crate::data_record::put_record;
use crate::fault::{OutputFault, SendFault};
use crate::measure::Measure;
use crate::output::{Buffer, flush, put};
use crate::plan::FilePlan;
use crate::source::Source;
use edf_fragment::{Output, Record};
use std::alloc::Global;

/// Puts one data record more. Returns the measure with it, or `None`, and does not put it, where it
/// can't be among the first of those that were measured.
fn put_next<W: Output>(
    out: &mut W,
    held: &mut Buffer,
    plan: &FilePlan<'_>,
    so_far: Option<Measure>,
    data_record: &Record,
) -> Result<Option<Measure>, OutputFault>
    ensures { (records : List DataRecord) → IsMeasuredSoFar records so_far →
        PutsNext (buffered W.Output out.old held.old.bytes.items)
        (buffered W.Output out.new held.new.bytes.items) plan.now.measure records
        data_record.now result }
{
    let whole = plan.measure;
    let nth = Measure::count(&so_far);
    if nth >= whole.records as usize {
        return Ok(None);
    }
    let measure = Measure::after(so_far, data_record);
    if !measure.is_within_measure(&whole) {
        return Ok(None);
    }
    let base = whole.first.second();
    let size = 2 * whole.block_samples as usize;
    put_record(out, held, data_record, base, size)?;
    Ok(Some(measure))
}

/// Puts all data records of a source. They must be those that were measured.
fn put_all<F, R, S: Source<F, R>, W: Output>(
    source: &mut S,
    file: &mut F,
    input: &mut R,
    plan: &FilePlan<'_>,
    out: &mut W,
    held: &mut Buffer,
) -> Result<(), SendFault<S::Fault>>
    requires { S.ready source.old file.old input.old }
    ensures { PutsAll S.answers (at source.old file.old input.old)
        (at source.new file.new input.new) plan.now.measure
        (buffered W.Output out.old held.old.bytes.items)
        (buffered W.Output out.new held.new.bytes.items) result }
{
    let mut so_far: Option<Measure> = None;
    'records: loop {
        match source.next(file, input) {
            Ok(Some(data_record)) => {
                let put = put_next(out, held, plan, so_far, &data_record)?;
                let Some(measure) = put else {
                    return Err(SendFault::Unlike);
                };
                so_far = Some(measure);
            }
            Ok(None) => {
                let Some(measure) = so_far else {
                    return Err(SendFault::Unlike);
                };
                if !measure.is_whole(&plan.measure) {
                    return Err(SendFault::Unlike);
                }
                return Ok(());
            }
            Err(fault) => return Err(SendFault::Source(fault)),
        }
    }
}

/// Writes a header, and then all data records of a source, through a buffer of 256 KiB. The writer
/// is not flushed. One data record is in memory at a time. The data records must be those that were
/// measured.
///
/// # Errors
/// `Source` where the source has a fault; `Unlike` where a data record can't be among the first of
/// those that were measured, or the source ends before the last; `Output` where a write failed or
/// memory ran out. A prefix of the header and of the data records may have been written then.
pub fn send<F, R, S: Source<F, R>, W: Output>(
    alloc: Global,
    source: &mut S,
    file: &mut F,
    input: &mut R,
    plan: &FilePlan<'_>,
    out: &mut W,
) -> Result<(), SendFault<S::Fault>>
    requires { S.ready source.old file.old input.old }
    ensures { Sends S.answers (at source.old file.old input.old)
        (at source.new file.new input.new) plan.now.measure
        (W.contents out.old) (W.contents out.new)
        (W.failures out.old) (W.failures out.new) plan.now.header.now result }
{
    let mut held = Buffer::new(alloc);
    put(out, &mut held, plan.header)?;
    put_all(source, file, input, plan, out, &mut held)?;
    flush(out, &mut held)?;
    Ok(())
}
