use thiserror::Error;

/// A reason why bytes could not be written.
#[derive(Clone, Copy, Debug, PartialEq, Eq, Drop, Error)]
pub enum OutputFault {
    /// A write failed, or took none of some bytes.
    #[error("a write failed")]
    Write,
    /// Memory ran out.
    #[error("out of memory")]
    Memory,
}

/// A reason why the data records of a source were not all written.
#[derive(Debug, Drop)]
pub enum SendFault<E> {
    /// The source had a fault.
    Source(E),
    /// They are not those that were measured.
    Unlike,
    /// They could not be written.
    Output(OutputFault),
}

impl<E> From<OutputFault> for SendFault<E> {
    ghost use Rattle.std.specs.Prelude.{◌≡◌};
    ghost use Rattle.edf_canonical.specs.declared.fault.SendFault.{SendFault};

    ghost from_gives = { λ refused fault. fault ≡ SendFault.Output refused };

    fn from(refused: OutputFault) -> SendFault<E> {
        SendFault::Output(refused)
    }
}
