ghost use Rattle.std.specs.Prelude.{◌≡◌, ◌≤◌};
ghost use Rattle.edf_header.specs.declared.limits.TheConstants.{MOST_RECORDS};
ghost use Rattle.edf_tal.specs.declared.limits.TheConstants.{MOST_CANONICAL_BLOCK_SAMPLES};

use edf_time::Instant;

/// What is known of a run once it was read: data records, each of which starts where the one before
/// ends.
#[derive(Clone, Copy, Debug, PartialEq, Eq, Drop)]
pub struct Run {
    pub(crate) first: Instant,
    pub(crate) last: Instant,
    pub(crate) records: u32,
    pub(crate) block_samples: u32,
    ghost records_some: { 1 ≤ records },
    ghost records_few: { records ≤ MOST_RECORDS },
    ghost block_some: { 1 ≤ block_samples },
    ghost block_few: { block_samples ≤ MOST_CANONICAL_BLOCK_SAMPLES },
}

impl Run {
    /// When its first data record starts.
    pub fn first(&self) -> Instant
        ensures { result ≡ self.now.first }
    {
        self.first
    }

    /// When its last data record starts.
    pub fn last(&self) -> Instant
        ensures { result ≡ self.now.last }
    {
        self.last
    }

    /// How many data records it has, 1 to [`MOST_RECORDS`](edf_header::MOST_RECORDS).
    pub fn records(&self) -> u32
        ensures value { result ≡ self.now.records }
        ensures some { 1 ≤ result }
        ensures few { result ≤ MOST_RECORDS }
    {
        self.records
    }

    /// How many samples, two bytes each, the annotations signal of its file has in a data record:
    /// the fewest that hold its longest block, with onsets counted from the second in which it
    /// starts.
    pub fn block_samples(&self) -> u32
        ensures value { result ≡ self.now.block_samples }
        ensures some { 1 ≤ result }
        ensures few { result ≤ MOST_CANONICAL_BLOCK_SAMPLES }
    {
        self.block_samples
    }
}
