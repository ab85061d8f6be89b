//! The faults of an export.

use edf_canonical::{OutputFault, SendFault};
use edf_store::StoreFault;
use thiserror::Error;

/// A recording is not exported, or not to its end.
#[derive(Clone, Copy, Debug, PartialEq, Eq, Drop, Error)]
pub enum ExportFault {
    /// E44: nothing is held under the identity. Nothing was written.
    #[error("nothing is held under the identity")]
    NoRecording,
    /// E41, E42 or E45: the store refused.
    #[error("{0}")]
    Store(StoreFault),
    /// E41: memory ran out.
    #[error("out of memory")]
    Memory,
    /// E43: a write failed, or took none of some bytes.
    #[error("a write failed")]
    Write,
}

impl ExportFault {
    ghost use Rattle.std.specs.Prelude.{◌≡◌};
    ghost use Rattle.edf_export.specs.Export.{export_fault_number, export_fault_name};

    /// Returns the number after the `E`.
    pub fn number(&self) -> u8
        ensures { result ≡ export_fault_number self.now }
    {
        match self {
            ExportFault::NoRecording => 44,
            ExportFault::Store(fault) => fault.number(),
            ExportFault::Memory => 41,
            ExportFault::Write => 43,
        }
    }

    /// Returns the name of the variant, or of the store's fault.
    pub fn name(&self) -> &'static str
        ensures { result.now ≡ export_fault_name self.now }
    {
        match self {
            ExportFault::NoRecording => "NoRecording",
            ExportFault::Store(fault) => fault.name(),
            ExportFault::Memory => "Memory",
            ExportFault::Write => "Write",
        }
    }
}

impl From<StoreFault> for ExportFault {
    ghost use Rattle.std.specs.Prelude.{◌≡◌};
    ghost use Rattle.edf_export.specs.declared.fault.ExportFault.{ExportFault};

    ghost from_gives = { λ refused fault. fault ≡ ExportFault.Store refused };

    fn from(refused: StoreFault) -> ExportFault {
        ExportFault::Store(refused)
    }
}

impl From<SendFault<StoreFault>> for ExportFault {
    ghost use Rattle.std.specs.Prelude.{◌≡◌};
    ghost use Rattle.edf_export.specs.Inside.Walks.{export_fault_of};

    ghost from_gives = { λ refused fault. fault ≡ export_fault_of refused };

    fn from(refused: SendFault<StoreFault>) -> ExportFault {
        match refused {
            SendFault::Source(fault) => ExportFault::Store(fault),
            SendFault::Unlike => ExportFault::Store(StoreFault::Foreign),
            SendFault::Output(OutputFault::Write) => ExportFault::Write,
            SendFault::Output(OutputFault::Memory) => ExportFault::Memory,
        }
    }
}
