//! What is known of a cut file before its first byte is written.

ghost use Rattle.std.specs.Prelude.{◌≡◌, ◌≤◌, ◌+◌, min, max, nat_lt};
ghost use Rattle.edf_field.specs.Number.{duration_of};
ghost use Rattle.edf_field.specs.declared.number.TheConstants.{MOST_DURATION};

use crate::outline::Outline;
use edf_canonical::Measure;
use edf_field::MOST_DURATION;
use edf_time::Instant;

/// The time between two instants, in nanoseconds, for data records of a duration.
#[derive(Clone, Copy, Debug, PartialEq, Eq, Drop)]
pub(crate) struct Window {
    pub(crate) from: u64,
    pub(crate) to: u64,
    pub(crate) duration: u64,
    ghost short: { duration ≤ MOST_DURATION },
}

impl Window {
    /// Is true where the data record that starts then has time in common with this one.
    pub(crate) fn has(&self, start: Instant) -> bool
        ensures { result ≡ nat_lt (max self.now.from start)
            (min self.now.to (start + self.now.duration)) }
    {
        self.from.max(start.nanos()) < self.to.min(start.nanos() + self.duration)
    }
}

/// The cut file of an outline has those of its data records that last in a window.
#[derive(Clone, Copy)]
pub struct Cut<'o> {
    pub(crate) outline: &'o Outline,
    pub(crate) window: Window,
    pub(crate) measure: Measure,
    ghost lasts: { window.duration ≡ duration_of outline.now.identity.duration },
}

impl<'o> Cut<'o> {
    ghost use Rattle.std.specs.Prelude.{◌≡◌};

    /// Returns when the first data record of the file starts.
    pub fn first(&self) -> Instant
        ensures { result ≡ self.now.measure.first }
    {
        self.measure.first
    }
}
