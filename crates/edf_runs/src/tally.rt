ghost use Rattle.std.specs.Prelude.{◌≤◌};

/// What was counted so far of the data records of a run.
#[derive(Clone, Copy, Drop)]
pub(crate) struct Tally {
    /// When the run starts, in nanoseconds.
    pub(crate) first: u64,
    /// When it ends.
    pub(crate) end: u64,
    pub(crate) annotations: u64,
    /// Those with an onset before the run starts, or at or after its end.
    pub(crate) outside: u64,
    ghost part: { outside ≤ annotations },
}
