//! Where two files are compared.

ghost use Rattle.std.specs.Prelude.{◌<◌, ◌≤◌};
ghost use Rattle.edf_field.specs.declared.number.TheConstants.{MOST_DURATION};

use crate::stretch::Stretch;
use edf_field::MOST_DURATION;
use edf_fragment::{FragmentFault, Record};
use std::alloc::AllocError;

/// Where two files are compared.
#[derive(Drop)]
pub(crate) struct Sides {
    pub(crate) duration: u64,
    /// The next data record of each.
    pub(crate) first: Option<Record>,
    pub(crate) second: Option<Record>,
    /// When the last data record of the first that was passed ends.
    pub(crate) passed: u64,
    /// The stretches of each so far.
    pub(crate) firsts: Vec<Stretch>,
    pub(crate) seconds: Vec<Stretch>,
    ghost lasts: { 0 < duration },
    ghost short: { duration ≤ MOST_DURATION },
}

/// One of the files has a fault, or memory ran out.
#[derive(Clone, Copy, Debug, PartialEq, Eq, Drop)]
pub(crate) enum SideFault {
    First(FragmentFault),
    Second(FragmentFault),
    Memory,
}

impl From<AllocError> for SideFault {
    ghost use Rattle.std.specs.Prelude.{◌≡◌};
    ghost use Rattle.edf_runs.specs.declared.sides.SideFault.{SideFault};

    ghost from_gives = { λ refused fault. fault ≡ SideFault.Memory };

    fn from(_refused: AllocError) -> SideFault {
        SideFault::Memory
    }
}

/// Which files go on to their next data record.
#[derive(Clone, Copy, Debug, PartialEq, Eq, Drop)]
pub(crate) enum Step {
    First,
    Second,
    Both,
    Neither,
}
