ghost use Rattle.std.specs.Prelude.{◌≡◌};
ghost use Rattle.edf_header.specs.Fault.{header_fault_number, header_fault_name};
ghost use Rattle.edf_header.specs.Fault.{header_fault_offset, header_fault_signal};

use crate::format::Format;
use edf_field::{PatientFault, RecordingFault};
use thiserror::Error;

/// Says what is wrong with a file of this format, which has an unprintable byte or no EDF version.
fn format_words(format: &Format) -> &'static str {
    match format {
        Format::Edf => "a byte of its header is no printable ASCII",
        Format::Bdf => "a BDF file, whose samples have 24 bits",
        Format::Zip => "a ZIP file",
        Format::Sqlite => "an SQLite file",
        Format::Other => "its first bytes are not those of EDF",
    }
}

/// A header is refused for the first of these that is true (EDF, header record; EDF+, additional
/// specifications and the annotations signal). Signals count from 1, offsets in bytes from the
/// file's first, which is 0. Each sentence is for a person who has its line, which names these.
#[derive(Clone, Copy, Debug, PartialEq, Eq, Drop, Error)]
pub enum HeaderFault {
    /// E1: the file has fewer than 256 bytes.
    #[error("it has fewer than 256 bytes")]
    Cut,
    /// E2: a byte of the fixed part is not 32 to 126. The file is what its first bytes say.
    #[error("{what}", what = format_words(.format))]
    Unprintable { offset: usize, format: Format },
    /// E3: the version is not `0` and seven spaces. The file is what its first bytes say.
    #[error("{what}", what = format_words(.0))]
    Version(Format),
    /// E4: the patient field is no patient identification of EDF+.
    #[error("{0}")]
    Patient(PatientFault),
    /// E5: the recording field is no recording identification of EDF+.
    #[error("{0}")]
    Recording(RecordingFault),
    /// E6: the startdate is not `dd.mm.yy` of a day of 1985 to 2084, nor such a text with the
    /// letters `yy` and a date in the Startdate subfield.
    #[error("its startdate is no day as dd.mm.yy")]
    Startdate,
    /// E7: the starttime is not `hh.mm.ss` of a second of a day.
    #[error("its starttime is no second as hh.mm.ss")]
    Starttime,
    /// E8: the Startdate subfield is a date, and not the startdate's.
    #[error("its startdate and the one in its recording field differ")]
    DatesDiffer,
    /// E9: the reserved field does not begin with `EDF+C` or `EDF+D`.
    #[error("plain EDF has no annotations signal and no start for each data record")]
    NotPlus,
    /// E10: the number of data records is no whole number from 1 on, and not `-1` and six spaces.
    #[error("its number of data records is no number above 0")]
    Count,
    /// E11: the duration of a data record is no decimal, or out of range.
    #[error("its duration of data records is no decimal above 0")]
    Duration,
    /// E12: the number of signals is no whole number from 2 to [`crate::MOST_SIGNALS`].
    #[error("its number of signals is not from 2 to 640")]
    Signals,
    /// E13: the number of header bytes is not 256 and 256 for each signal.
    #[error("its header was edited or is damaged")]
    HeaderBytes,
    /// E14: the file ends in the signal part of the header.
    #[error("it ends in its header")]
    CutSignals,
    /// E15: a byte of the signal part is not 32 to 126.
    #[error("a byte of its signals' headers is no printable ASCII")]
    UnprintableSignals { offset: usize },
    /// E16: no signal is labelled `EDF Annotations` and a space, or every signal; or of one so
    /// labelled the digital minimum is not -32,768, the maximum not 32,767, or the physical ones
    /// are no numbers, or equal.
    #[error("it has no annotations signal, or nothing else, or that signal's limits are not those \
        of EDF+")]
    Annotations,
    /// E17: an ordinary signal's physical minimum and maximum are no numbers, or equal.
    #[error("this signal's physical limits are no numbers, or equal")]
    Physical { signal: u32 },
    /// E18: an ordinary signal's digital minimum and maximum are no whole numbers of -32,768 to
    /// 32,767, or do not rise.
    #[error("this signal's digital limits are no numbers of 16 bits, or don't rise")]
    Digital { signal: u32 },
    /// E19: a signal's samples per data record are no whole number from 1 on.
    #[error("this signal has no samples")]
    Samples { signal: u32 },
    /// E20: the ordinary samples of a data record, or its annotations blocks together, have more
    /// than 4,194,304 bytes.
    #[error("its data records are too long")]
    Size,
    /// E41: memory ran out.
    #[error("out of memory")]
    Memory,
}

impl HeaderFault {
    /// Returns its number: 1 to 20, or 41 where memory ran out.
    pub fn number(&self) -> u8
        ensures { result ≡ header_fault_number self.now }
    {
        match self {
            HeaderFault::Cut => 1,
            HeaderFault::Unprintable { .. } => 2,
            HeaderFault::Version(_) => 3,
            HeaderFault::Patient(_) => 4,
            HeaderFault::Recording(_) => 5,
            HeaderFault::Startdate => 6,
            HeaderFault::Starttime => 7,
            HeaderFault::DatesDiffer => 8,
            HeaderFault::NotPlus => 9,
            HeaderFault::Count => 10,
            HeaderFault::Duration => 11,
            HeaderFault::Signals => 12,
            HeaderFault::HeaderBytes => 13,
            HeaderFault::CutSignals => 14,
            HeaderFault::UnprintableSignals { offset: _ } => 15,
            HeaderFault::Annotations => 16,
            HeaderFault::Physical { signal: _ } => 17,
            HeaderFault::Digital { signal: _ } => 18,
            HeaderFault::Samples { signal: _ } => 19,
            HeaderFault::Size => 20,
            HeaderFault::Memory => 41,
        }
    }

    /// Returns the name of the variant.
    pub fn name(&self) -> &'static str
        ensures { result.now ≡ header_fault_name self.now }
    {
        match self {
            HeaderFault::Cut => "Cut",
            HeaderFault::Unprintable { .. } => "Unprintable",
            HeaderFault::Version(_) => "Version",
            HeaderFault::Patient(_) => "Patient",
            HeaderFault::Recording(_) => "Recording",
            HeaderFault::Startdate => "Startdate",
            HeaderFault::Starttime => "Starttime",
            HeaderFault::DatesDiffer => "DatesDiffer",
            HeaderFault::NotPlus => "NotPlus",
            HeaderFault::Count => "Count",
            HeaderFault::Duration => "Duration",
            HeaderFault::Signals => "Signals",
            HeaderFault::HeaderBytes => "HeaderBytes",
            HeaderFault::CutSignals => "CutSignals",
            HeaderFault::UnprintableSignals { offset: _ } => "UnprintableSignals",
            HeaderFault::Annotations => "Annotations",
            HeaderFault::Physical { signal: _ } => "Physical",
            HeaderFault::Digital { signal: _ } => "Digital",
            HeaderFault::Samples { signal: _ } => "Samples",
            HeaderFault::Size => "Size",
            HeaderFault::Memory => "Memory",
        }
    }

    /// Returns the offset in the file of the byte that is not printable, for E2 and E15.
    pub fn offset(&self) -> Option<usize>
        ensures { result ≡ header_fault_offset self.now }
    {
        match self {
            HeaderFault::Unprintable { offset, .. } => Some(*offset),
            HeaderFault::UnprintableSignals { offset } => Some(*offset),
            _ => None,
        }
    }

    /// Returns the signal that is refused, for E17 to E19.
    pub fn signal(&self) -> Option<u32>
        ensures { result ≡ header_fault_signal self.now }
    {
        match self {
            HeaderFault::Physical { signal } => Some(*signal),
            HeaderFault::Digital { signal } => Some(*signal),
            HeaderFault::Samples { signal } => Some(*signal),
            _ => None,
        }
    }
}
