//! The data records of a file, read leniently.

ghost use Rattle.std.specs.Prelude.{◌≡◌, length, IfOk, IfSome};
ghost use Rattle.edf_mend.specs.Inside.{IsGoodRecord};
ghost use Rattle.edf_mend.specs.Body.{TimedRecordReadsAs, PlainRecordReadsAs, next_start};

use crate::block::push_block;
use crate::changes::Change;
use crate::columns::field_at;
use crate::fault::MendFault;
use edf_fragment::{FragmentFault, Record};
use edf_header::Header;
use edf_header::laws::header_is_layout;
use edf_tal::{Place, TalFault, read_blocks};
use edf_time::Instant;
use std::alloc::{AllocError, Global};

/// The samples of a data record, and the good form of its blocks: their bytes one after another,
/// the number of bytes of each, and what differs.
#[derive(Drop)]
struct GoodRecord {
    samples: Vec<u8>,
    joined: Vec<u8>,
    sizes: Vec<usize>,
    changes: Vec<Change>,
}

/// Returns the parts of the nth data record; `None` where a block is no lists and what fills it.
fn good_record(
    alloc: Global,
    header: &Header,
    nth: usize,
    bytes: &[u8],
) -> Result<Option<GoodRecord>, AllocError>
    requires { length bytes.now ≡ header.now.record_bytes }
    ensures { IfOk result (λ good. IfSome good (IsGoodRecord header.now nth bytes.now)) }
{
    let mut good = GoodRecord {
        samples: Vec::new(alloc),
        joined: Vec::new(alloc),
        sizes: Vec::new(alloc),
        changes: Vec::new(alloc),
    };
    let mut done = 0;
    for block in header.blocks() {
        good.samples.extend_from_slice(&bytes[done..block.at])?;
        let old = field_at(bytes, block.at, block.bytes);
        let before = good.joined.len();
        let (out, changes) = (&mut good.joined, &mut good.changes);
        if !push_block(alloc, out, changes, nth, block.at, old)? {
            return Ok(None);
        }
        good.sizes.push(good.joined.len() - before)?;
        done = block.at + block.bytes;
    }
    good.samples.extend_from_slice(&bytes[done..])?;
    Ok(Some(good))
}

/// Returns a data record that says when it starts, from its bytes, and what differs of its
/// annotations.
pub(crate) fn timed_record(
    alloc: Global,
    header: &Header,
    place: Place,
    nth: u32,
    bytes: &[u8],
) -> Result<(Record, Vec<Change>), MendFault>
    requires { length bytes.now ≡ header.now.record_bytes }
    ensures { IfOk result
        (λ r. TimedRecordReadsAs header.now place nth bytes.now r.0 r.1.items) }
{
    header_is_layout(header);
    let Some(good) = good_record(alloc, header, nth as usize, bytes)? else {
        let fault = TalFault::Tal { offset: 0 };
        return Err(MendFault::Refused(FragmentFault::Tal { nth, fault }));
    };
    let read = read_blocks(
        alloc,
        good.joined.as_slice(),
        good.sizes.as_slice(),
        header.start(),
        place,
    );
    match read {
        Ok((start, notes)) => match Record::new(start, good.samples, notes) {
            Some(data_record) => Ok((data_record, good.changes)),
            None => Err(MendFault::Check),
        },
        Err(TalFault::Memory) => Err(MendFault::Memory),
        Err(fault) => Err(MendFault::Refused(FragmentFault::Tal { nth, fault })),
    }
}

/// Returns the start of a data record that doesn't say it.
fn start_after(header: &Header, place: Place) -> Option<Instant>
    ensures { IfSome result (λ start. start ≡ next_start header.now place) }
{
    match place {
        Place::After { start, duration } => Instant::at(start.nanos().checked_add(duration)?),
        Place::First => Some(header.start()),
        Place::Any => Some(header.start()),
    }
}

/// Returns a data record of samples alone, from its bytes.
pub(crate) fn plain_record(
    alloc: Global,
    header: &Header,
    place: Place,
    nth: u32,
    bytes: &[u8],
) -> Result<Record, MendFault>
    ensures { IfOk result (PlainRecordReadsAs header.now place bytes.now) }
{
    let Some(start) = start_after(header, place) else {
        let fault = TalFault::Window;
        return Err(MendFault::Refused(FragmentFault::Tal { nth, fault }));
    };
    let samples = Vec::from_slice(alloc, bytes)?;
    match Record::new(start, samples, Vec::new(alloc)) {
        Some(data_record) => Ok(data_record),
        None => Err(MendFault::Check),
    }
}
