//! Reasons why a file is not mended.

use edf_canonical::{OutputFault, SendFault};
use edf_fragment::FragmentFault;
use edf_header::HeaderFault;
use std::alloc::AllocError;
use thiserror::Error;

/// A reason why a file is not mended.
#[derive(Debug, Drop, Error)]
pub enum MendFault {
    /// A strict reading of its good form has this fault.
    #[error("{0}")]
    Refused(FragmentFault),
    #[error("the file names no code of a patient")]
    Code,
    /// It names this code, and another was given.
    #[error("the file names another code")]
    Unused { own: Vec<u8> },
    /// It has this startdate, with dots, and another was given.
    #[error("the file has a startdate")]
    Startdate { own: [u8; 8] },
    /// It has this starttime, with dots, and another was given.
    #[error("the file has a starttime")]
    Starttime { own: [u8; 8] },
    #[error("the patient field has no room for its text")]
    Patient,
    #[error("the recording field has no room for the word mended")]
    NoRoom,
    #[error("signal {signal}: a text has no room")]
    Text { signal: u32 },
    /// Not all data records that are there are counted, or more are counted than are there.
    #[error("the number of data records is another")]
    Count,
    /// The good form of its header is not one that may be: an error of this program.
    #[error("the good form of the header failed its check")]
    Check,
    /// It changed between its two readings.
    #[error("the file changed")]
    Changed,
    #[error("a read failed")]
    Read,
    /// A write failed, or took nothing.
    #[error("a write failed")]
    Write,
    #[error("out of memory")]
    Memory,
}

impl From<AllocError> for MendFault {
    fn from(_: AllocError) -> MendFault {
        MendFault::Memory
    }
}

impl From<HeaderFault> for MendFault {
    fn from(fault: HeaderFault) -> MendFault {
        match fault {
            HeaderFault::Memory => MendFault::Memory,
            fault => MendFault::Refused(FragmentFault::Header(fault)),
        }
    }
}

impl From<SendFault<MendFault>> for MendFault {
    fn from(fault: SendFault<MendFault>) -> MendFault {
        match fault {
            SendFault::Source(fault) => fault,
            SendFault::Unlike => MendFault::Changed,
            SendFault::Output(OutputFault::Write) => MendFault::Write,
            SendFault::Output(OutputFault::Memory) => MendFault::Memory,
        }
    }
}
