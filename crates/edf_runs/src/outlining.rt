//! An outline of a file is read, with the samples of one data record in memory.

ghost use Rattle.std.specs.Prelude.{◌≡◌, ◌++◌, ◌∷◌, [], ℕ, List, Option, MatchOption, MatchResult};
ghost use Rattle.std.specs.Prelude.{OnOk, true};
ghost use Rattle.edf_fragment.specs.Fragment.{DataRecord};
ghost use Rattle.edf_fragment.specs.Reading.{CountsReadFailures, ReadsHeader, initial_progress};
ghost use Rattle.edf_fragment.specs.Whole.{FailsAfterRecords, ReadsFragmentFault};
ghost use Rattle.edf_fragment.specs.Inside.Steps.{ReadsRecords};
ghost use Rattle.edf_runs.specs.Outline.{AreSpans, IsMiscounted, ReadsOutline};

use crate::outline::{Outline, Spans};
use crate::spots::copy_notes;
use edf_fragment::{FragmentFault, Input, OpenFragment, Record};
use edf_header::Header;
use edf_header::laws::header_is_layout;
use std::alloc::{AllocError, Global};

/// Adds one data record more.
fn push_record(alloc: Global, spans: &mut Spans, data_record: &Record) -> Result<(), AllocError>
    ensures { OnOk result ((records : List DataRecord) → AreSpans records spans.old →
        AreSpans (records ++ data_record.now ∷ []) spans.new) }
{
    let notes = data_record.notes();
    spans.starts.push(data_record.start())?;
    spans.counts.push(notes.len() as u16)?;
    copy_notes(alloc, notes, &mut spans.notes)
}

/// Reads the data records that follow a header that was just read.
fn read_spans<R: Input>(
    alloc: Global,
    fragment: &mut OpenFragment,
    input: &mut R,
) -> Result<Spans, FragmentFault>
    requires { fragment.old.progress ≡ initial_progress }
    ensures header { fragment.new.header ≡ fragment.old.header }
    ensures answer { MatchResult result
        (λ spans. (records : List DataRecord) × ReadsRecords fragment.old.header
        (R.remaining input.old) (R.remaining input.new) records × AreSpans records spans)
        (FailsAfterRecords fragment.old.header (R.remaining input.old) (R.remaining input.new)) }
    ensures counted { CountsReadFailures (R.failures input.old) (R.failures input.new) result }
{
    header_is_layout(fragment.header());
    let mut spans = Spans {
        starts: Vec::new(alloc),
        counts: Vec::new(alloc),
        notes: Vec::new(alloc),
    };
    'records: loop {
        match fragment.next(input)? {
            Some(data_record) => {
                if push_record(alloc, &mut spans, &data_record).is_err() {
                    return Err(FragmentFault::Memory);
                }
            }
            None => return Ok(spans),
        }
    }
}

/// Reads a whole file of EDF+C or EDF+D, with the samples of one data record in memory.
///
/// # Errors
/// The first fault of the bytes by the order of the header, the data records and the end; `Read`
/// where a read failed, `Memory` where memory ran out, each in place of whatever would have been
/// found later.
pub fn read_outline<R: Input>(alloc: Global, input: &mut R) -> Result<Outline, FragmentFault>
    ensures answer { MatchResult result
        (ReadsOutline (R.remaining input.old) (R.remaining input.new))
        (ReadsFragmentFault (R.remaining input.old) (R.remaining input.new)) }
    ensures counted { CountsReadFailures (R.failures input.old) (R.failures input.new) result }
{
    let mut fragment = OpenFragment::read(alloc, input)?;
    let spans = read_spans(alloc, &mut fragment, input)?;
    Ok(Outline {
        identity: fragment.into_header().into_identity(),
        spans,
    })
}

/// Is true where the header counts other data records than an input of these bytes has.
fn is_miscounted(header: &Header, bytes: Option<u64>) -> bool
    ensures { result ≡ true → (input remaining : Option (List ℕ)) →
        ReadsHeader input remaining header.now → IsMiscounted bytes input remaining }
{
    let (Some(count), Some(bytes)) = (header.count(), bytes) else {
        return false;
    };
    let signals = header.identity().signals() + header.blocks().len();
    let expected = 256 * (1 + signals as u64) + u64::from(count) * header.record_bytes() as u64;
    bytes != expected
}

/// Reads a file as [read_outline] does. Where the number of its bytes is known, and the header
/// counts other data records than these have, it returns `None` and reads no byte more.
///
/// # Errors
/// Those of [read_outline].
pub fn read_outline_of<R: Input>(
    alloc: Global,
    input: &mut R,
    bytes: Option<u64>,
) -> Result<Option<Outline>, FragmentFault>
    ensures answer { MatchResult result
        (λ found. MatchOption found
        (IsMiscounted bytes (R.remaining input.old) (R.remaining input.new))
        (ReadsOutline (R.remaining input.old) (R.remaining input.new)))
        (ReadsFragmentFault (R.remaining input.old) (R.remaining input.new)) }
    ensures counted { CountsReadFailures (R.failures input.old) (R.failures input.new) result }
{
    let mut fragment = OpenFragment::read(alloc, input)?;
    if is_miscounted(fragment.header(), bytes) {
        return Ok(None);
    }
    let spans = read_spans(alloc, &mut fragment, input)?;
    Ok(Some(Outline {
        identity: fragment.into_header().into_identity(),
        spans,
    }))
}
