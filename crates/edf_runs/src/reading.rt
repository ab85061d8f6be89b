//! Data records of a file that is read a second time.

ghost use Rattle.std.specs.Prelude.{◌≡◌, IfOk, MatchResult};
ghost use Rattle.edf_fragment.specs.Reading.{ReadsHeader, initial_progress};
ghost use Rattle.edf_runs.specs.Again.{fault_again, CountsRereads, IsNotReopened, StopsAt};
ghost use Rattle.edf_runs.specs.Inside.Steps.{ReadsNext, StepsOn};

use crate::fault::WriteFault;
use crate::run_list::Listing;
use edf_fragment::{FragmentFault, Input, OpenFragment, Record};
use edf_header::Identity;
use std::alloc::Global;

/// Why a second reading stops, by the fault that it met. The file had no fault of form when its
/// runs were listed, so one of form means that it changed.
pub(crate) fn fault_again(fault: FragmentFault) -> WriteFault
    ensures { result ≡ fault_again fault }
{
    match fault {
        FragmentFault::Read => WriteFault::Read,
        FragmentFault::Memory => WriteFault::Memory,
        _ => WriteFault::Changed,
    }
}

/// Reads again the header of a file, which must name this recording.
pub(crate) fn open_again<R: Input>(
    alloc: Global,
    input: &mut R,
    identity: &Identity,
) -> Result<OpenFragment, WriteFault>
    ensures answer { MatchResult result
        (λ fragment. ReadsHeader (R.remaining input.old) (R.remaining input.new) fragment.header
        × (fragment.progress ≡ initial_progress) × (fragment.header.key ≡ identity.now))
        (IsNotReopened (R.remaining input.old) (R.remaining input.new) identity.now) }
    ensures counted { CountsRereads (R.failures input.old) (R.failures input.new) result }
{
    match OpenFragment::read(alloc, input) {
        Ok(fragment) => {
            if fragment.header().identity().same(identity) {
                Ok(fragment)
            } else {
                Err(WriteFault::Changed)
            }
        }
        Err(fault) => Err(fault_again(fault)),
    }
}

/// Reads again the header of a file whose runs were listed.
///
/// # Errors
/// `Changed` where the header is refused now, or names another recording; `Read` where a read
/// failed, `Memory` where memory ran out.
pub fn reopen_listed<R: Input>(
    alloc: Global,
    input: &mut R,
    listing: &Listing,
) -> Result<OpenFragment, WriteFault>
    ensures answer { MatchResult result
        (λ fragment. ReadsHeader (R.remaining input.old) (R.remaining input.new) fragment.header
        × (fragment.progress ≡ initial_progress) × (fragment.header.key ≡ listing.now.identity))
        (IsNotReopened (R.remaining input.old) (R.remaining input.new) listing.now.identity) }
    ensures counted { CountsRereads (R.failures input.old) (R.failures input.new) result }
{
    open_again(alloc, input, &listing.identity)
}

/// The next data record of a file that is read again, which must start at this instant.
pub(crate) fn next_at<R: Input>(
    fragment: &mut OpenFragment,
    input: &mut R,
    instant: u64,
) -> Result<Record, WriteFault>
    ensures header { fragment.new.header ≡ fragment.old.header }
    ensures step { MatchResult result
        (StepsOn fragment.old.header fragment.old.progress fragment.new.progress
        (R.remaining input.old) (R.remaining input.new) instant)
        (StopsAt fragment.old.header fragment.old.progress fragment.new.progress
        (R.remaining input.old) (R.remaining input.new) instant) }
    ensures counted { CountsRereads (R.failures input.old) (R.failures input.new) result }
{
    match fragment.next(input) {
        Ok(Some(data_record)) => {
            if data_record.start().nanos() == instant {
                Ok(data_record)
            } else {
                Err(WriteFault::Changed)
            }
        }
        Ok(None) => Err(WriteFault::Changed),
        Err(fault) => Err(fault_again(fault)),
    }
}

/// The next data record of a file that is read again, or `None` at its end.
pub(crate) fn next_again<R: Input>(
    fragment: &mut OpenFragment,
    input: &mut R,
) -> Result<Option<Record>, WriteFault>
    ensures header { fragment.new.header ≡ fragment.old.header }
    ensures step { IfOk result (ReadsNext fragment.old.header fragment.old.progress
        fragment.new.progress (R.remaining input.old) (R.remaining input.new)) }
{
    match fragment.next(input) {
        Ok(next) => Ok(next),
        Err(fault) => Err(fault_again(fault)),
    }
}
