ghost use Rattle.std.specs.Prelude.{◌≡◌, ◌≤◌, MatchResult};
ghost use Rattle.edf_field.specs.Number.{IsDuration, duration_of};
ghost use Rattle.edf_header.specs.Fields.{duration_field};
ghost use Rattle.edf_header.specs.Fixed.{IsFixed, IsFixedHeader, fixed_at, is_dated};
ghost use Rattle.edf_header.specs.Fault.{FixedPartFails, IsFirst};

use crate::fault::HeaderFault;
use crate::fields::{DURATION, PATIENT, RECORDING};
use crate::fixed_fields::{
    check_header_bytes, check_patient, check_plus, check_printable, check_version, field_at,
    read_count, read_nanos, read_signal_count, read_start, read_startdate,
};
use crate::limits::MOST_SIGNALS;
use edf_time::{Day, Instant};
use std::marker::Model;

/// The fixed part of a header, its first 256 bytes, says to which recording the file belongs, when
/// it starts, and how many data records and signals it has (EDF, header record).
///
/// Of the startdate, the starttime and the recording field it has the meaning alone: the instant at
/// which the file starts, the day of the Startdate subfield or none where that is `X`, and what
/// follows that subfield.
#[derive(Drop)]
pub struct Fixed {
    patient: [u8; 80],
    recording: [u8; 80],
    startdate: Option<Day>,
    start: Instant,
    count: Option<u32>,
    duration: [u8; 8],
    nanos: u64,
    signals: usize,
}

impl Model for Fixed {
    ghost use Rattle.std.specs.Prelude.{◌≡◌};
    ghost use Rattle.edf_field.specs.Number.{duration_of};
    ghost use Rattle.edf_header.specs.Fixed.{FixedPart, IsFixed, fixed_from};

    ghost Value = { FixedPart };

    ghost view = { λ f.
        fixed_from f.patient f.recording f.startdate f.start f.count f.duration f.signals };

    ghost invariant = { λ f.
        IsFixed (fixed_from f.patient f.recording f.startdate f.start f.count f.duration f.signals)
        × (f.nanos ≡ duration_of f.duration) };
}

impl Fixed {
    /// Returns the number of signals, 2 to [`MOST_SIGNALS`], bytes 252 to 255 of the header, with
    /// the annotations signals. For each a header of 256 bytes follows the fixed part.
    pub fn signals(&self) -> usize
        ensures value { result ≡ self.now.signal_count }
        ensures from { 2 ≤ result }
        ensures to { result ≤ MOST_SIGNALS }
        ensures fixed { IsFixed self.now }
    {
        self.signals
    }

    /// Returns the patient field, 80 bytes.
    pub(crate) fn patient(&self) -> &[u8]
        ensures { result.now ≡ self.now.patient }
    {
        self.patient.as_slice()
    }

    /// Is true where the Startdate subfield is a date, and not `X`.
    pub(crate) fn dated(&self) -> bool
        ensures { result ≡ is_dated self.now.startdate }
    {
        self.startdate.is_some()
    }

    /// Returns what follows the Startdate subfield: 59 bytes after a date, 69 after `X`.
    pub(crate) fn after(&self) -> &[u8]
        ensures { result.now ≡ self.now.after }
    {
        match self.startdate {
            Some(_) => &self.recording[21..],
            None => &self.recording[11..],
        }
    }

    pub(crate) fn start(&self) -> Instant
        ensures { result ≡ self.now.start }
    {
        self.start
    }

    /// Returns the number of data records, or none where the field is `-1`.
    pub(crate) fn count(&self) -> Option<u32>
        ensures { result ≡ self.now.count }
    {
        self.count
    }

    /// Returns the field of the duration of a data record, 8 bytes.
    pub(crate) fn duration(&self) -> &[u8]
        ensures { result.now ≡ self.now.duration }
    {
        self.duration.as_slice()
    }

    /// Returns the duration of a data record in nanoseconds.
    pub(crate) fn nanos(&self) -> u64
        ensures { result ≡ duration_of self.now.duration }
    {
        self.nanos
    }
}

/// Returns the fixed part that the bytes are, with what was read of them.
fn fixed_of(
    bytes: &[u8; 256],
    startdate: Option<Day>,
    start: Instant,
    count: Option<u32>,
    nanos: u64,
    signals: u32,
) -> Fixed
    requires spelled { IsFixedHeader bytes.now (fixed_at bytes.now startdate start count signals) }
    requires duration { IsDuration (duration_field bytes.now) nanos }
    ensures { IsFixedHeader bytes.now result }
{
    let patient = field_at(bytes, PATIENT);
    let recording = field_at(bytes, RECORDING);
    let duration = field_at(bytes, DURATION);
    Fixed {
        patient,
        recording,
        startdate,
        start,
        count,
        duration,
        nanos,
        signals: signals as usize,
    }
}

/// Reads the fixed part of a header, its first 256 bytes (EDF, header record; EDF+, additional
/// specifications).
///
/// The fields are those of EDF with the identification fields of EDF+: version, bytes 0 to 7;
/// patient, 8 to 87; recording, 88 to 167; startdate, 168 to 175; starttime, 176 to 183; number of
/// header bytes, 184 to 191; reserved, 192 to 235, which begins with `EDF+C` or `EDF+D`; number of
/// data records, 236 to 243, `-1` while the recording goes on; duration of a data record, 244 to
/// 251; number of signals, 252 to 255.
///
/// # Errors
/// It fails with the first fault of E2 to E13 in the order of their numbers: `Unprintable` with the
/// offset of the first such byte, `Version`, `Patient`, `Recording`, `Startdate`, `Starttime`,
/// `DatesDiffer` where the Startdate subfield is a date and not the startdate, `NotPlus`, `Count`,
/// `Duration`, `Signals`, `HeaderBytes`.
pub fn read_fixed(bytes: &[u8; 256]) -> Result<Fixed, HeaderFault>
    ensures { MatchResult result (IsFixedHeader bytes.now) (IsFirst (FixedPartFails bytes.now)) }
{
    check_printable(bytes)?;
    check_version(bytes)?;
    check_patient(bytes)?;
    let startdate = read_startdate(bytes)?;
    let start = read_start(bytes, &startdate)?;
    check_plus(bytes)?;
    let count = read_count(bytes)?;
    let nanos = read_nanos(bytes)?;
    let signals = read_signal_count(bytes)?;
    check_header_bytes(bytes, signals)?;
    Ok(fixed_of(bytes, startdate, start, count, nanos, signals))
}
