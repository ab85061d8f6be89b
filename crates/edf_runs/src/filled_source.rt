//! The data records of a filled file, with the samples of a recording that is read a second time.

ghost use Rattle.std.specs.Prelude.{◌≡◌, ◌<◌, IfOk, None, length};
ghost use Rattle.edf_fragment.specs.Fragment.{DataRecord};
ghost use Rattle.edf_fragment.specs.Sound.{IsValidRecord};
ghost use Rattle.edf_runs.specs.Inside.Refilling.{Fetches, ReadsEnd};
ghost use Rattle.edf_runs.specs.Inside.ToCome.{IsPart, part_by};

use crate::division::push_part;
use crate::fault::WriteFault;
use crate::filled_places::{Origin, Place, Places};
use crate::parted::FilledParts;
use crate::reading::{next_again, next_at};
use edf_canonical::Source;
use edf_fragment::{Input, OpenFragment, Record};
use edf_tal::Note;
use edf_time::Instant;
use std::alloc::Global;

/// Gives them, one after another.
#[derive(Drop)]
pub(crate) struct FilledSource<'o> {
    pub(crate) alloc: Global,
    pub(crate) places: Places<'o>,
    /// The data record that was read last.
    pub(crate) last: Option<Record>,
    /// How many bytes of samples each of them has.
    pub(crate) bytes: usize,
}

/// Returns the samples of a part of a data record.
fn samples_of_part(
    alloc: Global,
    parts: &FilledParts,
    nth: u32,
    whole: &Record,
) -> Result<Vec<u8>, WriteFault>
    requires { nth < parts.now.division.parts }
    ensures { IfOk result (λ samples. samples.items
        ≡ part_by parts.now nth whole.now.samples) }
{
    let samples = whole.samples();
    if samples.len() != parts.bytes {
        return Err(WriteFault::Changed);
    }
    let mut part = Vec::new(alloc);
    let sizes = parts.sizes.as_slice();
    match push_part(&mut part, sizes, parts.division.parts, nth, samples) {
        Ok(()) => Ok(part),
        Err(_) => Err(WriteFault::Memory),
    }
}

/// Returns the samples of a place. Those of a first part are read, and its data record is then the
/// last one.
fn samples_of<R: Input>(
    alloc: Global,
    parts: &FilledParts,
    origin: Origin,
    last: &mut Option<Record>,
    fragment: &mut OpenFragment,
    input: &mut R,
) -> Result<Vec<u8>, WriteFault>
    requires { IsPart parts.now.division.parts origin }
    ensures header { fragment.new.header ≡ fragment.old.header }
    ensures fetched { IfOk result (λ samples. Fetches R.Input parts.now fragment.old fragment.new
        input.old input.new origin last.old last.new samples.items) }
{
    match origin {
        Origin::Flat => match Vec::from_slice(alloc, parts.flat.as_slice()) {
            Ok(flat) => Ok(flat),
            Err(_) => Err(WriteFault::Memory),
        },
        Origin::First(start) => {
            let whole = next_at(fragment, input, start.nanos())?;
            let samples = samples_of_part(alloc, parts, 0, &whole)?;
            *last = Some(whole);
            Ok(samples)
        }
        Origin::Later(nth) => match last.as_ref() {
            Some(whole) => samples_of_part(alloc, parts, nth, whole),
            None => Err(WriteFault::Changed),
        },
    }
}

/// Returns the data record of a place, whose samples must have so many bytes.
fn record_of(
    bytes: usize,
    start: Instant,
    samples: Vec<u8>,
    notes: Vec<Note>,
) -> Result<Record, WriteFault>
    ensures { IfOk result (λ made. IsValidRecord made × (length made.samples ≡ bytes)
        × (made ≡ record { start = start; samples = samples.items; annotations = notes.items })) }
{
    if samples.len() != bytes {
        return Err(WriteFault::Changed);
    }
    match Record::new(start, samples, notes) {
        Some(made) => Ok(made),
        None => Err(WriteFault::Changed),
    }
}

/// Reads the end of a file, where no data record may follow.
fn read_end<R: Input>(fragment: &mut OpenFragment, input: &mut R) -> Result<(), WriteFault>
    ensures header { fragment.new.header ≡ fragment.old.header }
    ensures end { IfOk result (λ none. ReadsEnd R.Input fragment.old fragment.new input.old
        input.new) }
{
    match next_again(fragment, input)? {
        Some(_) => Err(WriteFault::Changed),
        None => Ok(()),
    }
}

impl<'o, R: Input> Source<OpenFragment, R> for FilledSource<'o> {
    ghost use Rattle.std.specs.Prelude.{⊤};
    ghost use Rattle.edf_runs.specs.Inside.Refilling.{FillsNext};

    type Fault = WriteFault;

    ghost ready = { λ source fragment input. ⊤ };

    ghost answers = { FillsNext R.Input };

    fn next(
        &mut self,
        fragment: &mut OpenFragment,
        input: &mut R,
    ) -> Result<Option<Record>, WriteFault> {
        let Ok(next) = self.places.next(self.alloc) else {
            return Err(WriteFault::Memory);
        };
        match next {
            Some(place) => {
                let Place {
                    start,
                    notes,
                    origin,
                } = place;
                let parts = self.places.parts;
                let last = &mut self.last;
                let samples = samples_of(self.alloc, parts, origin, last, fragment, input)?;
                Ok(Some(record_of(self.bytes, start, samples, notes)?))
            }
            None => {
                read_end(fragment, input)?;
                Ok(None)
            }
        }
    }
}
