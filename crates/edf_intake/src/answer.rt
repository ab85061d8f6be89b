//! Answers to submissions.

ghost use Rattle.std.specs.Prelude.{◌≡◌, ◌≢◌, List, Some, None, Err, length, IfSome};
ghost use Rattle.edf_header.specs.Key.{Key};
ghost use Rattle.edf_fragment.specs.Fragment.{DataRecord};
ghost use Rattle.edf_fragment.specs.Parsed.{Fragment};
ghost use Rattle.edf_holdings.specs.Holdings.{Holdings};
ghost use Rattle.edf_holdings.specs.Reply.{reply};
ghost use Rattle.edf_intake.specs.Inside.Halt.{refusal_of_fragment_fault};
ghost use Rattle.edf_intake.specs.Inside.Taken.{IsConflict, MayBeAccepted};
ghost use Rattle.edf_intake.specs.Inside.Verdict.{IsSpare, AreFindings};
ghost use Rattle.edf_intake.specs.Refusal.{refusal_number, refusal_name, reply_of};

use crate::data_records::{Destination, Findings, Starts};
use edf_fragment::FragmentFault;
use edf_header::Identity;
use edf_store::StoreFault;
use edf_time::Instant;
use thiserror::Error;

/// The answer to an accepted fragment: its recording, and the counts of its data records.
#[derive(Drop)]
pub struct Receipt {
    pub identity: Identity,
    /// The number of data records that were added.
    pub new: u32,
    /// The number that were held already.
    pub known: u32,
}

/// A fragment is not accepted. What was held before the submission is held after it.
#[derive(Clone, Copy, Debug, PartialEq, Eq, Drop, Error)]
pub enum Refusal {
    /// The input is no fragment. The fault is neither a failed read nor want of memory.
    #[error("{0}")]
    Form(FragmentFault),
    /// E30: a data record overlaps a stored one that starts at another instant. It is the first of
    /// the fragment that clashes, and the stored one is the earliest that it clashes with.
    #[error("a data record overlaps a stored one")]
    Overlap { start: Instant, stored: Instant },
    /// E31: another data record is stored at this start, which is that of the first data record of
    /// the fragment that clashes.
    #[error("another data record is stored at the same start")]
    Differs { start: Instant },
    /// E32: no data record clashes, but the recording has `held` data records, and with the
    /// fragment's `new` ones it would have more than `cap`.
    #[error("the recording has {held} data records, and {new} more are past the cap of {cap}")]
    Full { held: u32, new: u32, cap: u32 },
    /// E40: a read failed.
    #[error("a read failed")]
    Read,
    /// E41: memory ran out.
    #[error("out of memory")]
    Memory,
    /// E42 or E45: the store refused.
    #[error("{0}")]
    Store(StoreFault),
}

impl Refusal {
    /// Returns the number after the `E`.
    pub fn number(&self) -> u8
        ensures { result ≡ refusal_number self.now }
    {
        match self {
            Refusal::Form(fault) => fault.number(),
            Refusal::Overlap { .. } => 30,
            Refusal::Differs { .. } => 31,
            Refusal::Full { .. } => 32,
            Refusal::Read => 40,
            Refusal::Memory => 41,
            Refusal::Store(fault) => fault.number(),
        }
    }

    /// Returns the name of the variant, or of its fault.
    pub fn name(&self) -> &'static str
        ensures { result.now ≡ refusal_name self.now }
    {
        match self {
            Refusal::Form(fault) => fault.name(),
            Refusal::Overlap { .. } => "Overlap",
            Refusal::Differs { .. } => "Differs",
            Refusal::Full { .. } => "Full",
            Refusal::Read => "Read",
            Refusal::Memory => "Memory",
            Refusal::Store(fault) => fault.name(),
        }
    }
}

/// If memory ran out, the refusal is `Memory`, and not `Store`.
impl From<StoreFault> for Refusal {
    ghost use Rattle.edf_intake.specs.Inside.Halt.{refusal_of_store_fault};

    ghost from_gives = { λ fault refusal. refusal ≡ refusal_of_store_fault fault };

    fn from(fault: StoreFault) -> Refusal {
        match fault {
            StoreFault::Memory => Refusal::Memory,
            fault => Refusal::Store(fault),
        }
    }
}

/// The reason why a submission's transaction is rolled back.
#[derive(Clone, Copy)]
pub(crate) enum Stop {
    /// The fragment is refused, or could not be read.
    Input(Refusal),
    /// A call of the store was refused.
    Store(StoreFault),
}

impl From<StoreFault> for Stop {
    ghost use Rattle.edf_intake.specs.declared.answer.Stop.TheVariants.{Store};

    ghost from_gives = { λ fault stop. stop ≡ Store fault };

    fn from(fault: StoreFault) -> Stop {
        Stop::Store(fault)
    }
}

impl From<FragmentFault> for Stop {
    ghost use Rattle.edf_intake.specs.Inside.Halt.{refusal_of_fragment_fault};
    ghost use Rattle.edf_intake.specs.declared.answer.Stop.TheVariants.{Input};

    ghost from_gives = { λ fault stop. stop ≡ Input (refusal_of_fragment_fault fault) };

    fn from(fault: FragmentFault) -> Stop {
        Stop::Input(refusal_of_fragment_fault(fault))
    }
}

/// Returns the refusal for a fault. A failed read and want of memory have their own.
pub(crate) fn refusal_of_fragment_fault(fault: FragmentFault) -> Refusal
    ensures { result ≡ refusal_of_fragment_fault fault }
{
    match fault {
        FragmentFault::Read => Refusal::Read,
        FragmentFault::Memory => Refusal::Memory,
        fault => Refusal::Form(fault),
    }
}

/// Returns the refusal for a clash.
fn clash_refusal(starts: Starts) -> Refusal
    ensures differs { starts.start ≡ starts.stored → result ≡ Refusal.Differs starts.start }
    ensures overlaps { starts.start ≢ starts.stored →
        result ≡ Refusal.Overlap starts.start starts.stored }
{
    let start = starts.start;
    let stored = starts.stored;
    if start == stored {
        Refusal::Differs { start }
    } else {
        Refusal::Overlap { start, stored }
    }
}

/// Returns the conflict of a whole fragment: its first clash, or `Full`. `None` accepts it.
pub(crate) fn conflict(destination: Destination, cap: u32, findings: Findings) -> Option<Refusal>
    ensures accepted { result ≡ None → MayBeAccepted destination.spare findings }
    ensures refused { IfSome result IsConflict }
    ensures answer { IfSome result (λ refusal.
        (key : Key) (h : Holdings) (records : List DataRecord) →
        IsSpare cap (length (h key)) (length records) destination.spare →
        AreFindings key h records findings →
        reply_of (Err refusal) ≡ Some (reply cap h (Fragment key records))) }
{
    match findings.clash {
        Some(starts) => Some(clash_refusal(starts)),
        None => {
            if findings.new > destination.spare {
                Some(Refusal::Full {
                    held: cap.saturating_sub(destination.spare),
                    new: findings.new,
                    cap,
                })
            } else {
                None
            }
        }
    }
}
