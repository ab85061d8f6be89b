use std::alloc::AllocError;
use thiserror::Error;

/// The annotations of an outline can't be by onset.
#[derive(Clone, Copy, Debug, PartialEq, Eq, Drop, Error)]
pub enum CrowdedFault {
    /// E28: a data record in the run of this number, from 1, would have more than 10,000
    /// annotations, or more than 1,000,000 bytes of texts, and none before it would. The file
    /// itself has no such fault.
    #[error("a data record of run {0} would have too many annotations")]
    Crowded(usize),
    /// E41: memory ran out.
    #[error("out of memory")]
    Memory,
}

impl From<AllocError> for CrowdedFault {
    ghost use Rattle.std.specs.Prelude.{◌≡◌};
    ghost use Rattle.edf_runs.specs.declared.crowded_fault.CrowdedFault.{CrowdedFault};

    ghost from_gives = { λ refused fault. fault ≡ CrowdedFault.Memory };

    fn from(_refused: AllocError) -> CrowdedFault {
        CrowdedFault::Memory
    }
}
