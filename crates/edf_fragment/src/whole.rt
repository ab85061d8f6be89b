ghost use Rattle.std.specs.Prelude.{◌≡◌};
ghost use Rattle.edf_fragment.specs.Reading.{initial_progress};
ghost use Rattle.edf_fragment.specs.Whole.{ReadsFragment, FailsAfterRecords, ReadsFragmentFault};
ghost use Rattle.edf_fragment.specs.Call.{ReadsInput, ValueOrFault, input_state};
ghost use Rattle.edf_fragment.specs.Inside.Steps.{ReadsRecords};

use crate::fault::FragmentFault;
use crate::open_fragment::OpenFragment;
use crate::record::Record;
use crate::streams::Input;
use edf_header::Header;
use std::alloc::Global;

/// Reads all data records after a header that was just read.
fn read_records<R: Input>(
    alloc: Global,
    fragment: &mut OpenFragment,
    input: &mut R,
) -> Result<Vec<Record>, FragmentFault>
    requires { fragment.old.progress ≡ initial_progress }
    ensures header { fragment.new.header ≡ fragment.old.header }
    ensures read { ReadsInput
        (ValueOrFault (λ before rest records. ReadsRecords fragment.old.header before rest
        records.items)
        (FailsAfterRecords fragment.old.header))
        (input_state R.Input input.old) (input_state R.Input input.new) result }
{
    let mut records = Vec::new(alloc);
    'records: loop {
        match fragment.next(input)? {
            Some(record) => {
                if records.push(record).is_err() {
                    return Err(FragmentFault::Memory);
                }
            }
            None => return Ok(records),
        }
    }
}

/// Reads a whole fragment into memory: its header and its data records in order.
///
/// # Errors
/// The first fault of the bytes by the order of the header, the data records and the end; `Read`
/// where a read failed, `Memory` where memory ran out, each in place of any later fault.
pub fn read_fragment<R: Input>(
    alloc: Global,
    input: &mut R,
) -> Result<(Header, Vec<Record>), FragmentFault>
    ensures { ReadsInput
        (ValueOrFault (λ before rest r. ReadsFragment before rest r.0 r.1.items) ReadsFragmentFault)
        (input_state R.Input input.old) (input_state R.Input input.new) result }
{
    let mut fragment = OpenFragment::read(alloc, input)?;
    let records = read_records(alloc, &mut fragment, input)?;
    Ok((fragment.into_header(), records))
}
