//! The filled file of a recording, as it is known before its first byte is written.

ghost use Rattle.std.specs.Prelude.{◌≡◌};
ghost use Rattle.edf_field.specs.Number.{duration_of};

use crate::parted::FilledParts;
use edf_canonical::Measure;
use edf_header::Identity;
use edf_tal::Note;

/// How long a gap may be, and how far a data record may move, in nanoseconds.
#[derive(Clone, Copy, Debug, PartialEq, Eq, Drop)]
pub struct FillLimits {
    pub longest_gap: u64,
    pub moved: u64,
}

/// What is counted of a filled file.
#[derive(Clone, Copy, Debug, PartialEq, Eq, Drop)]
pub struct FillCounts {
    /// How many data records it has.
    pub records: u32,
    /// How many of them are flat.
    pub flat: u32,
    /// How many gaps the recording has.
    pub gaps: u32,
    /// How many of these came to no place.
    pub closed: u32,
    /// The furthest move of a data record, in nanoseconds.
    pub moved: u64,
}

/// A filled file, without the samples of the recording.
#[derive(Drop)]
pub struct Filled {
    pub(crate) identity: Identity,
    pub(crate) parts: FilledParts,
    pub(crate) notes: Vec<Note>,
    pub(crate) measure: Measure,
    pub(crate) counts: FillCounts,
    ghost lasts: { parts.division.unit ≡ duration_of identity.duration },
}

impl Filled {
    /// Returns what is counted of it.
    pub fn counts(&self) -> FillCounts
        ensures { result ≡ self.now.counts }
    {
        self.counts
    }
}
