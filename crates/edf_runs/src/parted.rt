//! The data records of a recording, as they are divided into the parts of its filled file.

ghost use Rattle.std.specs.Prelude.{◌≡◌, ◌<◌, ◌≤◌, ◌*◌, sum};
ghost use Rattle.edf_field.specs.declared.number.TheConstants.{MOST_DURATION};

use crate::division::Division;
use edf_field::MOST_DURATION;
use edf_time::Instant;

/// The data records of a recording, and how they are divided into the parts of its filled file.
#[derive(Clone, Copy)]
pub(crate) struct Parted<'s> {
    pub(crate) starts: &'s [Instant],
    pub(crate) first: Instant,
    pub(crate) duration: u64,
    pub(crate) division: Division,
    ghost lasts: { 0 < duration },
    ghost short: { duration ≤ MOST_DURATION },
}

/// What the places of a filled file have: samples of a part, or flat ones.
#[derive(Drop)]
pub(crate) struct FilledParts {
    pub(crate) division: Division,
    /// When the first place starts.
    pub(crate) first: Instant,
    /// How many samples each signal of the recording has in a data record.
    pub(crate) sizes: Vec<u32>,
    /// How many bytes all of them have.
    pub(crate) bytes: usize,
    /// The samples of a flat place.
    pub(crate) flat: Vec<u8>,
    ghost whole: { 2 * sum sizes.items ≡ bytes },
}
