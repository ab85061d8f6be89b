use edf_canonical::{OutputFault, SendFault};
use thiserror::Error;

/// Why a run is not written, or not to its end.
#[derive(Clone, Copy, Debug, PartialEq, Eq, Drop, Error)]
pub enum WriteFault {
    /// No header can name when the run starts: the file has no date, and the two digits of a year
    /// don't tell years after 2084. Nothing was read or written.
    #[error("the run starts after 2084, and the file has no date")]
    Undated,
    /// E40: what is read is no longer what was listed.
    #[error("the file changed since its runs were listed")]
    Changed,
    /// E40: a read failed.
    #[error("a read failed")]
    Read,
    /// E41: memory ran out.
    #[error("out of memory")]
    Memory,
    /// E43: a write failed, or took none of some bytes.
    #[error("a write failed")]
    Write,
}

impl From<OutputFault> for WriteFault {
    ghost use Rattle.std.specs.Prelude.{◌≡◌};
    ghost use Rattle.edf_runs.specs.Inside.Steps.{fault_out};

    ghost from_gives = { λ refused fault. fault ≡ fault_out refused };

    fn from(refused: OutputFault) -> WriteFault {
        match refused {
            OutputFault::Write => WriteFault::Write,
            OutputFault::Memory => WriteFault::Memory,
        }
    }
}

impl From<SendFault<WriteFault>> for WriteFault {
    ghost use Rattle.std.specs.Prelude.{◌≡◌};
    ghost use Rattle.edf_runs.specs.Inside.Steps.{send_fault};

    ghost from_gives = { λ refused fault. fault ≡ send_fault refused };

    fn from(refused: SendFault<WriteFault>) -> WriteFault {
        match refused {
            SendFault::Source(fault) => fault,
            SendFault::Unlike => WriteFault::Changed,
            SendFault::Output(OutputFault::Write) => WriteFault::Write,
            SendFault::Output(OutputFault::Memory) => WriteFault::Memory,
        }
    }
}
