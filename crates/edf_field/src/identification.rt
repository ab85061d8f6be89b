//! The patient and the recording identification have subfields: the parts between runs of spaces.
ghost use Rattle.std.specs.Prelude.{◌≡◌, ◌∷◌, ◌==◌, [], not, MatchOption, ◌↔◌, IsTrue, ◌≤◌, length};
ghost use Rattle.std.specs.Prelude.{MatchResult};
ghost use Rattle.std.specs.List.{prefix_len};
ghost use Rattle.edf_field.specs.Number.{unpadded_len};
ghost use Rattle.edf_field.specs.Text.{subfields, IsPatient, IsSex, IsBirthdate, IsStartdate};
ghost use Rattle.edf_field.specs.Text.{IsRecording, FollowsStartdate};
ghost use Rattle.edf_field.specs.Fault.{IsPatientFault, IsRecordingFault, IsStartdateFault};

use crate::fault::{PatientFault, RecordingFault};
use edf_time::{Day, id_date};

/// Returns the number of leading spaces.
pub fn spaces_len(text: &[u8]) -> usize
    ensures { result ≡ prefix_len (λ b. b == 32) text.now }
{
    for (i, b) in text.iter().enumerate() {
        if *b != b' ' {
            return i;
        }
    }
    text.len()
}

/// Returns the number of bytes before the first space.
pub(crate) fn unpadded_len(text: &[u8]) -> usize
    ensures { result ≡ unpadded_len text.now }
{
    for (i, b) in text.iter().enumerate() {
        if *b == b' ' {
            return i;
        }
    }
    text.len()
}

/// Returns the first subfield of a text (EDF+, additional specifications), and what follows it;
/// `None` where the text has only spaces, or nothing.
pub fn next_subfield(text: &[u8]) -> Option<(&[u8], &[u8])>
    ensures { MatchOption result
        (subfields text.now ≡ [])
        (λ split. subfields text.now ≡ split.0.now ∷ subfields split.1.now) }
{
    let (_, text) = text.split_at(spaces_len(text));
    if text.is_empty() {
        return None;
    }
    Some(text.split_at(unpadded_len(text)))
}

/// Is true where a subfield is a sex: `F`, `M` or `X`.
fn is_sex(text: &[u8]) -> bool
    ensures { IsTrue result ↔ IsSex text.now }
{
    matches!(text, [b'F' | b'M' | b'X'])
}

/// Is true where a subfield is a birthdate: a date `dd-MMM-yyyy`, or `X`.
fn is_birthdate(text: &[u8]) -> bool
    ensures { IsTrue result ↔ IsBirthdate text.now }
{
    text == b"X".as_slice() || id_date(text).is_some()
}

/// Returns the fault of a patient identification, or `None` where it is one: code, sex `F`, `M` or
/// `X`, birthdate `dd-MMM-yyyy` or `X`, and name, and maybe more subfields.
///
/// A header has it in bytes 8 to 87, filled with spaces (EDF, header record; EDF+, additional
/// specifications).
pub fn patient_fault(text: &[u8]) -> Option<PatientFault>
    ensures { MatchOption result (IsPatient text.now) (IsPatientFault text.now) }
{
    let Some((_, rest)) = next_subfield(text) else {
        return Some(PatientFault::Few);
    };
    let Some((sex, rest)) = next_subfield(rest) else {
        return Some(PatientFault::Few);
    };
    if !is_sex(sex) {
        return Some(PatientFault::NoSex);
    }
    let Some((birthdate, name)) = next_subfield(rest) else {
        return Some(PatientFault::Few);
    };
    if !is_birthdate(birthdate) {
        return Some(PatientFault::NoBirthdate);
    }
    match next_subfield(name) {
        Some(_) => None,
        None => Some(PatientFault::Few),
    }
}

/// Is true where a text is a patient identification.
pub fn is_patient(text: &[u8]) -> bool
    ensures { IsTrue result ↔ IsPatient text.now }
{
    patient_fault(text).is_none()
}

/// Is true where a text has three subfields or more.
fn has_three(text: &[u8]) -> bool
    ensures { IsTrue result ↔ (3 ≤ length (subfields text.now)) }
{
    let Some((_, rest)) = next_subfield(text) else {
        return false;
    };
    let Some((_, rest)) = next_subfield(rest) else {
        return false;
    };
    next_subfield(rest).is_some()
}

/// Is true where what follows a Startdate subfield, 59 bytes after a date or 69 after `X`, begins
/// with a space and has an investigation code, a technician and an equipment code, and maybe more
/// subfields (EDF+, additional specifications).
pub fn follows_startdate(after: &[u8]) -> bool
    ensures { IsTrue result ↔ FollowsStartdate after.now }
{
    match after {
        [b' ', ..] => has_three(after),
        _ => false,
    }
}

/// Reads `Startdate`, a space and the Startdate subfield. Returns its day, or none where it is `X`,
/// and what follows it.
fn read_startdate(text: &[u8]) -> Result<(Option<Day>, &[u8]), RecordingFault>
    requires { length text.now ≡ 80 }
    ensures { MatchResult result
        (λ read. IsStartdate text.now read.0 read.1.now) (IsStartdateFault text.now) }
{
    if &text[..10] != b"Startdate ".as_slice() {
        return Err(RecordingFault::NoStartdate);
    }
    if text[10] == b'X' {
        return Ok((None, &text[11..]));
    }
    let Some(day) = id_date(&text[10..21]) else {
        return Err(RecordingFault::NoDate);
    };
    Ok((Some(day), &text[21..]))
}

/// Reads a recording field, bytes 88 to 167 of a header: the day of its Startdate subfield, or none
/// where that is `X`; and what follows it (EDF, header record; EDF+, additional specifications).
///
/// # Errors
/// It fails with `NoStartdate` where the field does not begin with `Startdate` and one space,
/// `NoDate` where neither a date `dd-MMM-yyyy` nor `X` follows, `Few` where the rest is none by
/// `follows_startdate`.
pub fn read_recording(text: &[u8]) -> Result<(Option<Day>, &[u8]), RecordingFault>
    requires { length text.now ≡ 80 }
    ensures { MatchResult result
        (λ read. IsRecording text.now read.0 read.1.now) (IsRecordingFault text.now) }
{
    match read_startdate(text) {
        Ok((startdate, after)) => {
            if follows_startdate(after) {
                Ok((startdate, after))
            } else {
                Err(RecordingFault::Few)
            }
        }
        Err(why) => Err(why),
    }
}
