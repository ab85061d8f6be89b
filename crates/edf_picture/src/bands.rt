ghost use Rattle.std.specs.Prelude.{◌<◌, ◌≤◌, ◌↔◌, ℕ, ◌++◌, List};
ghost use Rattle.edf_picture.specs.Bands.{IsRange, Meets, levels};

use crate::extent::{COLUMNS, Extent, Signal};
use std::alloc::{AllocError, Global};

pub(crate) const DRAWN: usize = 16;

/// What is drawn of a signal: a range for each column.
#[derive(Drop)]
pub(crate) struct Band {
    /// How many samples a data record has of it.
    samples: u32,
    pub(crate) columns: Vec<Option<Range>>,
}

/// What is drawn of the samples of a recording, of the first sixteen signals.
#[derive(Drop)]
pub struct Bands {
    axis: Extent,
    /// The nanoseconds of a data record.
    duration: u64,
    pub(crate) bands: Vec<Band>,
    ghost lasts: { 0 < duration },
}

impl Bands {
    /// Before the first data record of a recording that has these runs.
    ///
    /// # Errors
    /// Where memory runs out.
    pub fn new(
        alloc: Global,
        runs: &[Extent],
        duration: u64,
        signals: &[Signal<'_>],
    ) -> Result<Bands, AllocError>
        requires { 0 < duration }
    {
        let mut bands = Vec::new(alloc);
        for signal in signals.iter().take(DRAWN) {
            let mut columns = Vec::with_capacity(alloc, COLUMNS as usize)?;
            for _ in 0..COLUMNS {
                columns.push(None)?;
            }
            let samples = signal.samples;
            bands.push(Band { samples, columns })?;
        }
        Ok(Bands {
            axis: Extent::of(runs),
            duration,
            bands,
        })
    }

    /// Takes the data record of this start, with the bytes of each signal in turn.
    pub fn add(&mut self, start: u64, samples: &[u8]) {
        let (axis, duration) = (self.axis, self.duration);
        let first = axis.column_of(start);
        let last = axis.last_column(start.saturating_add(duration));
        let time = (axis.length(), start.saturating_sub(axis.from), duration);
        let mut rest = samples;
        for band in &mut self.bands {
            let size = (band.samples as usize).saturating_mul(2);
            let (bytes, more) = rest.split_at(size.min(rest.len()));
            band.add(time, bytes, first, last);
            rest = more;
        }
    }
}

impl Band {
    fn add(&mut self, time: (u64, u64, u64), bytes: &[u8], first: u64, last: u64)
        requires lasts { 0 < time.2 }
        requires last { last < COLUMNS }
    {
        for column in first..last.saturating_add(1) {
            let (from, to) = samples_during(time, self.samples, column);
            let (front, _) = bytes.split_at((to as usize).saturating_mul(2).min(bytes.len()));
            let (_, part) = front.split_at((from as usize).saturating_mul(2).min(front.len()));
            self.widen(column, part);
        }
    }

    fn widen(&mut self, column: u64, bytes: &[u8]) {
        if let Some(range) = self.columns.get_mut(column as usize) {
            *range = joined(*range, range_of(bytes));
        }
    }
}

/// Which samples of so many in a data record are during a column: from the first of these numbers
/// to before the second. `time` is the length of the axis, how long after its start the data record
/// is, and how long it lasts.
fn samples_during(time: (u64, u64, u64), count: u32, column: u64) -> (u32, u32)
    requires duration { 0 < time.2 }
    requires column { column < COLUMNS }
    ensures { (nth : ℕ) → nth < count →
        ((result.0 ≤ nth) × (nth < result.1)) ↔ Meets time.0 time.1 time.2 count nth column }
{
    let before = u128::from(time.1) * u128::from(count) * u128::from(COLUMNS);
    let each = u128::from(time.2) * u128::from(COLUMNS);
    let wide = u128::from(time.0) * u128::from(count);
    let from = (wide * u128::from(column)).saturating_sub(before) / each;
    let end = (wide * u128::from(column + 1)).saturating_sub(before);
    let to = (end + (each - 1)) / each;
    let most = u128::from(count);
    (from.min(most) as u32, to.min(most) as u32)
}

/// The least and the greatest of some levels. A level is a sample's value and 32,768, so that it is
/// never below 0.
#[derive(Clone, Copy)]
pub(crate) struct Range {
    pub(crate) least: u16,
    pub(crate) greatest: u16,
}

/// The range of two that follow one another.
pub(crate) fn joined(before: Option<Range>, after: Option<Range>) -> Option<Range>
    ensures { (one other : List ℕ) → IsRange one before → IsRange other after →
        IsRange (one ++ other) result }
{
    match (before, after) {
        (Some(one), Some(other)) => Some(Range {
            least: one.least.min(other.least),
            greatest: one.greatest.max(other.greatest),
        }),
        (Some(one), None) => Some(one),
        (None, other) => other,
    }
}

/// The range of the samples in these bytes, two for a sample, the lower first.
pub(crate) fn range_of(bytes: &[u8]) -> Option<Range>
    ensures { IsRange (levels bytes.now) result }
{
    let (mut least, mut greatest) = (u16::MAX, 0u16);
    for nth in 0..bytes.len() / 2 {
        let sample = u16::from(bytes[2 * nth]) + 256 * u16::from(bytes[2 * nth + 1]);
        let level = sample.wrapping_add(32_768);
        least = least.min(level);
        greatest = greatest.max(level);
    }
    if bytes.len() < 2 {
        return None;
    }
    Some(Range { least, greatest })
}
