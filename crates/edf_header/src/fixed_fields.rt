//! The fields of a header's fixed part are read in the order of their faults: each reader relies on
//! those before it, and answers with its own fault alone.
ghost use Rattle.std.specs.Prelude.{◌≡◌, ℕ, ◌+◌, ◌*◌, ◌≤◌, ◌↔◌, All, IsTrue, codes, length};
ghost use Rattle.std.specs.Prelude.{MatchResult};
ghost use Rattle.edf_time.specs.Civil.{IsCivil};
ghost use Rattle.edf_field.specs.Number.{field, IsDuration, IsNumber};
ghost use Rattle.edf_field.specs.Text.{IsPrintable, IsPatient, IsRecording, after_startdate_of};
ghost use Rattle.edf_header.specs.Fields.{version_field, patient_field, recording_field};
ghost use Rattle.edf_header.specs.Fields.{startdate_field, starttime_field, header_bytes_field};
ghost use Rattle.edf_header.specs.Fields.{reserved_field, count_field, duration_field};
ghost use Rattle.edf_header.specs.Fixed.{IsCount, IsPlus};
ghost use Rattle.edf_header.specs.Fault.{FixedPartFails, IsClean, IsFirst};
ghost use Rattle.edf_header.specs.Condition.{HasSignals};

use crate::fault::HeaderFault;
use crate::fields::{
    COUNT, DURATION, FIXED_END, HEADER_BYTES, PATIENT, RECORDING, RESERVED, SIGNALS, STARTDATE,
    STARTTIME, VERSION,
};
use crate::format::format_of;
use crate::limits::MOST_SIGNALS;
use crate::signal_checks::first_unprintable;
use edf_field::{patient_fault, read_duration, read_recording, read_whole};
use edf_time::{Day, Instant, StartFault, start_of};

/// Returns the field of N bytes at this offset.
pub(crate) fn field_at<const N: usize>(bytes: &[u8; 256], at: usize) -> [u8; N]
    requires { at + N ≤ 256 }
    ensures { result ≡ field bytes.now at N }
{
    let mut text = [0; N];
    text.copy_from_slice(&bytes[at..at + N]);
    text
}

/// Every byte is printable, or E2 is the first fault.
pub(crate) fn check_printable(bytes: &[u8; 256]) -> Result<(), HeaderFault>
    ensures { MatchResult result
        (λ _. All IsPrintable bytes.now × IsClean (FixedPartFails bytes.now) 3)
        (IsFirst (FixedPartFails bytes.now)) }
{
    match first_unprintable(bytes.as_slice()) {
        Some(offset) => {
            let format = format_of(bytes);
            Err(HeaderFault::Unprintable { offset, format })
        }
        None => Ok(()),
    }
}

/// The version, bytes 0 to 7, is `0` and seven spaces; or E3 is the first fault.
pub(crate) fn check_version(bytes: &[u8; 256]) -> Result<(), HeaderFault>
    requires { IsClean (FixedPartFails bytes.now) 3 }
    ensures { MatchResult result
        (λ _. (version_field bytes.now ≡ codes "0       ") × IsClean (FixedPartFails bytes.now) 4)
        (IsFirst (FixedPartFails bytes.now)) }
{
    if &bytes[VERSION..PATIENT] != b"0       ".as_slice() {
        return Err(HeaderFault::Version(format_of(bytes)));
    }
    Ok(())
}

/// The patient field, bytes 8 to 87, is a patient identification; or E4 is the first fault.
pub(crate) fn check_patient(bytes: &[u8; 256]) -> Result<(), HeaderFault>
    requires { IsClean (FixedPartFails bytes.now) 4 }
    ensures { MatchResult result
        (λ _. IsPatient (patient_field bytes.now) × IsClean (FixedPartFails bytes.now) 5)
        (IsFirst (FixedPartFails bytes.now)) }
{
    match patient_fault(&bytes[PATIENT..RECORDING]) {
        Some(why) => Err(HeaderFault::Patient(why)),
        None => Ok(()),
    }
}

/// Returns the day of the Startdate subfield in the recording field, bytes 88 to 167, or none where
/// that subfield is `X`; or E5 is the first fault.
pub(crate) fn read_startdate(bytes: &[u8; 256]) -> Result<Option<Day>, HeaderFault>
    requires { IsClean (FixedPartFails bytes.now) 5 }
    ensures { MatchResult result
        (λ startdate. IsRecording (recording_field bytes.now) startdate
        (after_startdate_of startdate (recording_field bytes.now))
        × IsClean (FixedPartFails bytes.now) 6)
        (IsFirst (FixedPartFails bytes.now)) }
{
    match read_recording(&bytes[RECORDING..STARTDATE]) {
        Ok((startdate, _)) => Ok(startdate),
        Err(why) => Err(HeaderFault::Recording(why)),
    }
}

/// Returns the start, by the startdate, bytes 168 to 175, the starttime, bytes 176 to 183, and the
/// day of the Startdate subfield; or E6, E7 or E8 is the first fault.
pub(crate) fn read_start(bytes: &[u8; 256], startdate: &Option<Day>) -> Result<Instant, HeaderFault>
    requires recording { IsRecording (recording_field bytes.now) startdate.now
        (after_startdate_of startdate.now (recording_field bytes.now)) }
    requires clean { IsClean (FixedPartFails bytes.now) 6 }
    ensures { MatchResult result
        (λ start.
        IsCivil (startdate_field bytes.now) (starttime_field bytes.now) startdate.now start
        × IsClean (FixedPartFails bytes.now) 9)
        (IsFirst (FixedPartFails bytes.now)) }
{
    let date: [u8; 8] = field_at(bytes, STARTDATE);
    let time: [u8; 8] = field_at(bytes, STARTTIME);
    match start_of(&date, &time, *startdate) {
        Ok(start) => Ok(start),
        Err(StartFault::Date) => Err(HeaderFault::Startdate),
        Err(StartFault::Time) => Err(HeaderFault::Starttime),
        Err(StartFault::Differs) => Err(HeaderFault::DatesDiffer),
    }
}

/// Is true where a reserved field names a file of EDF+.
fn is_plus(reserved: &[u8]) -> bool
    requires { 5 ≤ length reserved.now }
    ensures { IsTrue result ↔ IsPlus reserved.now }
{
    let kind = &reserved[..5];
    kind == b"EDF+C".as_slice() || kind == b"EDF+D".as_slice()
}

/// The reserved field, bytes 192 to 235, begins with `EDF+C` or `EDF+D`; or E9 is the first fault.
pub(crate) fn check_plus(bytes: &[u8; 256]) -> Result<(), HeaderFault>
    requires { IsClean (FixedPartFails bytes.now) 9 }
    ensures { MatchResult result
        (λ _. IsPlus (reserved_field bytes.now) × IsClean (FixedPartFails bytes.now) 10)
        (IsFirst (FixedPartFails bytes.now)) }
{
    if !is_plus(&bytes[RESERVED..COUNT]) {
        return Err(HeaderFault::NotPlus);
    }
    Ok(())
}

/// Returns the number of data records, bytes 236 to 243, or none where that is `-1`; or E10 is the
/// first fault.
pub(crate) fn read_count(bytes: &[u8; 256]) -> Result<Option<u32>, HeaderFault>
    requires { IsClean (FixedPartFails bytes.now) 10 }
    ensures { MatchResult result
        (λ count. IsCount (count_field bytes.now) count × IsClean (FixedPartFails bytes.now) 11)
        (IsFirst (FixedPartFails bytes.now)) }
{
    let text = &bytes[COUNT..DURATION];
    if text == b"-1      ".as_slice() {
        return Ok(None);
    }
    match read_whole(text) {
        Some(count) if count >= 1 => Ok(Some(count)),
        _ => Err(HeaderFault::Count),
    }
}

/// Returns the nanoseconds of a data record, bytes 244 to 251; or E11 is the first fault.
pub(crate) fn read_nanos(bytes: &[u8; 256]) -> Result<u64, HeaderFault>
    requires { IsClean (FixedPartFails bytes.now) 11 }
    ensures { MatchResult result
        (λ nanos. IsDuration (duration_field bytes.now) nanos
        × ((n : ℕ) × IsDuration (duration_field bytes.now) n)
        × IsClean (FixedPartFails bytes.now) 12)
        (IsFirst (FixedPartFails bytes.now)) }
{
    match read_duration(&bytes[DURATION..SIGNALS]) {
        Some(nanos) => Ok(nanos),
        None => Err(HeaderFault::Duration),
    }
}

/// Returns the number of signals, bytes 252 to 255; or E12 is the first fault.
pub(crate) fn read_signal_count(bytes: &[u8; 256]) -> Result<u32, HeaderFault>
    requires { IsClean (FixedPartFails bytes.now) 12 }
    ensures { MatchResult result
        (λ signals. HasSignals bytes.now signals × IsClean (FixedPartFails bytes.now) 13)
        (IsFirst (FixedPartFails bytes.now)) }
{
    match read_whole(&bytes[SIGNALS..FIXED_END]) {
        Some(signals) if 2 <= signals && signals <= MOST_SIGNALS as u32 => Ok(signals),
        _ => Err(HeaderFault::Signals),
    }
}

/// The number of header bytes, bytes 184 to 191, is that of `signals` signals; or E13 is the first
/// fault.
pub(crate) fn check_header_bytes(bytes: &[u8; 256], signals: u32) -> Result<(), HeaderFault>
    requires signals { HasSignals bytes.now signals }
    requires clean { IsClean (FixedPartFails bytes.now) 13 }
    ensures { MatchResult result
        (λ _. IsNumber (header_bytes_field bytes.now) (256 + 256 * signals))
        (IsFirst (FixedPartFails bytes.now)) }
{
    match read_whole(&bytes[HEADER_BYTES..RESERVED]) {
        Some(len) if len == 256 + 256 * signals => Ok(()),
        _ => Err(HeaderFault::HeaderBytes),
    }
}
