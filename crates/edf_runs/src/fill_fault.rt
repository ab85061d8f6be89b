use crate::moving::MoveFault;
use edf_time::Instant;
use std::alloc::AllocError;

/// A recording has no filled file.
#[derive(Clone, Copy, Debug, PartialEq, Eq, Drop)]
pub enum FillFault {
    /// A gap is longer than allowed.
    LongGap {
        /// When it begins, in nanoseconds from 1985.
        from: u64,
        /// How many nanoseconds it has.
        nanos: u64,
    },
    /// Its recording field has no room for the word `filled`.
    NoRoom,
    /// A data record would move further than allowed.
    Moved {
        /// When it starts.
        start: Instant,
        /// By how many nanoseconds it would move.
        nanos: u64,
    },
    /// The file would have more than 99,999,999 data records.
    TooLong,
    /// A data record or an annotation would be after the year 2184.
    Late,
    /// E28: a data record would have too many annotations.
    Crowded,
    /// E41: memory ran out.
    Memory,
}

impl From<AllocError> for FillFault {
    ghost use Rattle.std.specs.Prelude.{◌≡◌};
    ghost use Rattle.edf_runs.specs.declared.fill_fault.FillFault.{FillFault};

    ghost from_gives = { λ refused fault. fault ≡ FillFault.Memory };

    fn from(_refused: AllocError) -> FillFault {
        FillFault::Memory
    }
}

impl From<MoveFault> for FillFault {
    ghost use Rattle.std.specs.Prelude.{◌≡◌};
    ghost use Rattle.edf_runs.specs.Inside.FillFaults.{fault_of_move};

    ghost from_gives = { λ refused fault. fault ≡ fault_of_move refused };

    fn from(refused: MoveFault) -> FillFault {
        match refused {
            MoveFault::Late => FillFault::Late,
            MoveFault::Memory => FillFault::Memory,
        }
    }
}
