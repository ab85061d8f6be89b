//! The progress of a reader, and its next data record.

ghost use Rattle.std.specs.Prelude.{◌≡◌, ◌≢◌, ◌+◌, ◌-◌, ◌^◌, ◌<◌, ◌≤◌, length, IfOk, IfSome};
ghost use Rattle.std.specs.Bool.{MatchBool};
ghost use Rattle.std.specs.Io.KnownBytes.{Consumes};
ghost use Rattle.edf_header.specs.Header.{least_records, most_records};
ghost use Rattle.edf_fragment.specs.Reading.{IsEndOfRecords, IsNextFault, IsNextResult};
ghost use Rattle.edf_fragment.specs.Reading.{progress_after};
ghost use Rattle.edf_fragment.specs.Call.{ReadsInput, ValueOrFault, input_state};
ghost use Rattle.edf_fragment.specs.Inside.Buffers.{FitOneRecord};
ghost use Rattle.edf_fragment.specs.Inside.Steps.{ReadsEnd, IsEndFault};

use crate::buffers::{Buffers, cut_record};
use crate::fault::FragmentFault;
use crate::record::Record;
use crate::streams::{Filled, Input, fill};
use edf_header::{Header, MOST_RECORDS};
use edf_tal::{Place, TalFault, read_blocks};
use std::alloc::Global;

/// The state of a reader of data records.
#[derive(Clone, Copy, Debug, PartialEq, Eq)]
pub enum ReaderState {
    /// It met neither the end nor a fault.
    Reading,
    /// It returned the last data record, and no byte follows.
    Ended,
    /// It met a fault.
    Stopped,
}

/// The progress of a reader of data records.
#[derive(Clone, Copy, Debug, PartialEq, Eq)]
pub struct Progress {
    /// The number of data records that it returned.
    pub given: u32,
    /// The place of the next one.
    pub place: Place,
    pub state: ReaderState,
}

impl Progress {
    ghost use Rattle.std.specs.Prelude.{◌≡◌};
    ghost use Rattle.edf_fragment.specs.Reading.{initial_progress};

    /// Returns the progress of a reader before the first data record.
    pub(crate) fn initial_progress() -> Progress
        ensures { result ≡ initial_progress }
    {
        Progress {
            given: 0,
            place: Place::First,
            state: ReaderState::Reading,
        }
    }
}

/// Returns the refusal for a fault of the nth data record's blocks, or for want of memory.
fn block_refusal(nth: u32, fault: TalFault) -> FragmentFault
    ensures memory { fault ≡ TalFault.Memory → result ≡ FragmentFault.Memory }
    ensures other { fault ≢ TalFault.Memory → result ≡ FragmentFault.Tal nth fault }
{
    match fault {
        TalFault::Memory => FragmentFault::Memory,
        _ => FragmentFault::Tal { nth, fault },
    }
}

/// Returns the least number of data records that a fragment has.
fn least_given(header: &Header) -> u32
    ensures { result ≡ least_records header.now.count }
{
    match header.count() {
        Some(count) => count,
        None => 1,
    }
}

/// Returns the greatest number of data records that a fragment has.
fn most_given(header: &Header) -> u32
    ensures { result ≡ most_records header.now.count }
{
    match header.count() {
        Some(count) => count,
        None => MOST_RECORDS,
    }
}

/// Fills a buffer with the next data record. Returns `false` where none must come, and the input
/// ended before its first byte.
fn fill_record<R: Input>(
    input: &mut R,
    header: &Header,
    progress: Progress,
    whole: &mut [u8],
) -> Result<bool, FragmentFault>
    requires may_come { progress.given < most_records header.now.count }
    requires countable { progress.given < 2 ^ 32 - 1 }
    requires fits { length whole.old ≡ header.now.record_bytes }
    ensures { ReadsInput
        (ValueOrFault (λ before rest there. MatchBool there
        (Consumes before rest whole.new) (IsEndOfRecords header.now progress before rest))
        (IsNextFault header.now progress))
        (input_state R.Input input.old) (input_state R.Input input.new) result }
{
    match fill(input, whole) {
        Filled::Full => Ok(true),
        Filled::Cut { at } => {
            if at == 0 && least_given(header) <= progress.given {
                return Ok(false);
            }
            Err(FragmentFault::CutRecord {
                nth: progress.given + 1,
            })
        }
        Filled::Failed => Err(FragmentFault::Read),
    }
}

/// Reads the next data record through buffers that fit it. Returns `None` where none must come, and
/// the input ended.
fn read_record<R: Input>(
    alloc: Global,
    input: &mut R,
    header: &Header,
    progress: Progress,
    buffers: &mut Buffers,
) -> Result<Option<Record>, FragmentFault>
    requires may_come { progress.given < most_records header.now.count }
    requires countable { progress.given < 2 ^ 32 - 1 }
    requires fits { FitOneRecord header.now buffers.old }
    ensures fits { FitOneRecord header.now buffers.new }
    ensures read { ReadsInput (IsNextResult header.now progress)
        (input_state R.Input input.old) (input_state R.Input input.new) result }
{
    let ordinary_bytes = header.record_bytes() - header.block_bytes();
    let Ok(mut samples) = Vec::with_capacity(alloc, ordinary_bytes) else {
        return Err(FragmentFault::Memory);
    };
    if !fill_record(input, header, progress, buffers.whole.as_mut_slice())? {
        return Ok(None);
    }
    cut_record(
        header,
        buffers.whole.as_slice(),
        &mut samples,
        buffers.joined.as_mut_slice(),
    );
    let joined = buffers.joined.as_slice();
    match read_blocks(
        alloc,
        joined,
        buffers.sizes.as_slice(),
        header.start(),
        progress.place,
    ) {
        Ok((start, notes)) => Ok(Some(Record::within_limits(start, samples, notes))),
        Err(fault) => Err(block_refusal(progress.given + 1, fault)),
    }
}

/// Checks that no byte follows the last data record.
fn find_end<R: Input>(input: &mut R) -> Result<(), FragmentFault>
    ensures { ReadsInput (ValueOrFault (λ before rest _. ReadsEnd before rest) IsEndFault)
        (input_state R.Input input.old) (input_state R.Input input.new) result }
{
    let mut byte = [0u8; 1];
    match fill(input, &mut byte) {
        Filled::Full => Err(FragmentFault::Trailing),
        Filled::Cut { .. } => Ok(()),
        Filled::Failed => Err(FragmentFault::Read),
    }
}

/// Reads the next data record, or the end after the last.
pub(crate) fn record_or_end<R: Input>(
    alloc: Global,
    input: &mut R,
    header: &Header,
    progress: Progress,
    buffers: &mut Buffers,
) -> Result<Option<Record>, FragmentFault>
    requires within { progress.given ≤ most_records header.now.count }
    requires fits { FitOneRecord header.now buffers.old }
    ensures fits { FitOneRecord header.now buffers.new }
    ensures read { ReadsInput (IsNextResult header.now progress)
        (input_state R.Input input.old) (input_state R.Input input.new) result }
{
    if progress.given < most_given(header) {
        read_record(alloc, input, header, progress, buffers)
    } else {
        find_end(input)?;
        Ok(None)
    }
}

/// Returns the progress of a reader after this answer.
pub(crate) fn progress_after(
    header: &Header,
    progress: Progress,
    answer: &Result<Option<Record>, FragmentFault>,
) -> Progress
    requires { IfOk answer.now (λ next. IfSome next (λ r. progress.given < 2 ^ 32 - 1)) }
    ensures { result ≡ progress_after header.now progress answer.now }
{
    match answer {
        Ok(Some(record)) => Progress {
            given: progress.given + 1,
            place: Place::After {
                start: record.start(),
                duration: header.identity().duration(),
            },
            state: ReaderState::Reading,
        },
        Ok(None) => Progress {
            state: ReaderState::Ended,
            ..progress
        },
        Err(_) => Progress {
            state: ReaderState::Stopped,
            ..progress
        },
    }
}
