//! A file whose header was read, and its data records one after another.

ghost use Rattle.std.specs.Prelude.{◌≡◌, IfOk, vec_len};
ghost use Rattle.edf_fragment.specs.Sound.{IsValidRecord};
ghost use Rattle.edf_mend.specs.Body.{record_size, RecordReadsAs};

use crate::changes::Change;
use crate::fault::MendFault;
use crate::record::{plain_record, timed_record};
use edf_canonical::Source;
use edf_fragment::{Filled, Input, Record, fill};
use edf_header::Header;
use edf_tal::Place;
use std::alloc::Global;

/// A file whose header was read.
#[derive(Drop)]
pub(crate) struct LenientFile {
    pub(crate) alloc: Global,
    /// Its good form.
    pub(crate) header: Header,
    /// Its data records say when they start.
    pub(crate) timed: bool,
    /// A whole data record.
    pub(crate) whole: Vec<u8>,
    /// The place of the next one.
    pub(crate) place: Place,
    /// The number of those that were read.
    pub(crate) given: u32,
    /// The number of bytes behind the last one, which are left out.
    pub(crate) left_out: usize,
    /// What differs in the header, and in the annotations that were read.
    pub(crate) changes: Vec<Change>,
    ghost capacity: { vec_len whole ≡ record_size timed header },
}

/// Returns the nth data record, whose bytes were read, and what differs of its annotations.
fn record_of(file: &LenientFile, nth: u32) -> Result<(Record, Vec<Change>), MendFault>
    ensures read { IfOk result (λ r. RecordReadsAs file.now.timed file.now.header file.now.place nth
        file.now.whole.items r.0 r.1.items) }
    ensures valid { IfOk result (λ r. IsValidRecord r.0) }
{
    let bytes = file.whole.as_slice();
    let (data_record, changes) = if file.timed {
        timed_record(file.alloc, &file.header, file.place, nth, bytes)?
    } else {
        let data_record = plain_record(file.alloc, &file.header, file.place, nth, bytes)?;
        (data_record, Vec::new(file.alloc))
    };
    let _valid = data_record.start();
    Ok((data_record, changes))
}

/// The source of its data records.
#[derive(Drop)]
pub(crate) struct LenientSource;

impl<R: Input> Source<LenientFile, R> for LenientSource {
    ghost use Rattle.std.specs.Prelude.{⊤};
    ghost use Rattle.edf_mend.specs.Inside.{ReadsLeniently};

    type Fault = MendFault;

    ghost ready = { λ source file input. ⊤ };

    ghost answers = { ReadsLeniently R.Input };

    fn next(&mut self, file: &mut LenientFile, input: &mut R) -> Result<Option<Record>, MendFault> {
        match fill(input, file.whole.as_mut_slice()) {
            Filled::Full => {
                let Some(nth) = file.given.checked_add(1) else {
                    return Err(MendFault::Count);
                };
                let (data_record, mut changes) = record_of(file, nth)?;
                file.changes.append(&mut changes)?;
                file.place = Place::After {
                    start: data_record.start(),
                    duration: file.header.identity().duration(),
                };
                file.given = nth;
                Ok(Some(data_record))
            }
            Filled::Cut { at } => {
                file.left_out = at;
                Ok(None)
            }
            Filled::Failed => Err(MendFault::Read),
        }
    }
}
