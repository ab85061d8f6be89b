ghost use Rattle.std.specs.Prelude.{◌<◌, ◌≤◌};

/// How many columns the axis has. A column is about a pixel wide.
pub(crate) const COLUMNS: u64 = 1_000;

/// A time with its start and without its end, in nanoseconds from 1985-01-01.
#[derive(Clone, Copy, Debug, PartialEq, Eq)]
pub struct Extent {
    /// The first instant.
    pub from: u64,
    /// The first instant after it.
    pub to: u64,
}

fn part(dividend: u128, divisor: u64, most: u64) -> u64
    ensures { result ≤ most }
{
    let quotient = dividend.checked_div(u128::from(divisor)).unwrap_or(0);
    u64::try_from(quotient).unwrap_or(most).min(most)
}

impl Extent {
    /// The time from the start of the first run to the end of the last.
    pub(crate) fn of(runs: &[Extent]) -> Extent {
        let from = runs.first().map_or(0, |run| run.from);
        let to = runs.last().map_or(0, |run| run.to);
        Extent { from, to }
    }

    pub(crate) fn length(self) -> u64 {
        self.to.saturating_sub(self.from)
    }

    pub(crate) fn has(self, at: u64) -> bool {
        self.from <= at && at < self.to
    }

    /// How far an instant is along this axis: a column is as long as the axis.
    pub(crate) fn parts_before(self, at: u64) -> u128 {
        u128::from(at.saturating_sub(self.from)).saturating_mul(u128::from(COLUMNS))
    }

    /// The same in columns, at most their count.
    pub(crate) fn place_of(self, at: u64) -> u64 {
        part(self.parts_before(at), self.length(), COLUMNS)
    }

    /// The column of an instant: the first for what is before, the last for what is after.
    pub(crate) fn column_of(self, at: u64) -> u64 {
        self.place_of(at).min(COLUMNS - 1)
    }

    /// The last column that has something of what ends at this instant.
    pub(crate) fn last_column(self, end: u64) -> u64
        ensures { result < COLUMNS }
    {
        let parts = self.parts_before(end).saturating_sub(1);
        part(parts, self.length(), COLUMNS - 1)
    }

    /// The instant in the middle of a column, cut to nanoseconds.
    pub(crate) fn middle_of(self, column: u64) -> u64 {
        let halves = u128::from(column.saturating_mul(2).saturating_add(1));
        let parts = u128::from(self.length()).saturating_mul(halves);
        self.from.saturating_add(part(parts, 2 * COLUMNS, u64::MAX))
    }
}

/// An annotation.
#[derive(Debug, Drop)]
pub struct Note {
    /// When it is.
    pub onset: u64,
    /// How long it lasts, where that is stated.
    pub duration: Option<u64>,
    /// What it says.
    pub text: String,
}

/// An ordinary signal, as its header has it, in printable ASCII; spaces may follow.
#[derive(Clone, Copy)]
pub struct Signal<'a> {
    pub label: &'a [u8],
    /// The physical dimension.
    pub dimension: &'a [u8],
    pub physical_minimum: &'a [u8],
    pub physical_maximum: &'a [u8],
    pub digital_minimum: &'a [u8],
    pub digital_maximum: &'a [u8],
    /// How many of its samples a data record has.
    pub samples: u32,
}

/// What a picture shows of a recording, beside its samples.
#[derive(Clone, Copy)]
pub struct Night<'a> {
    /// The nanoseconds of a data record.
    pub duration: u64,
    /// The times of all runs, in order.
    pub runs: &'a [Extent],
    /// The annotations, in any order.
    pub notes: &'a [Note],
    /// The ordinary signals, in the order of the header.
    pub signals: &'a [Signal<'a>],
}
