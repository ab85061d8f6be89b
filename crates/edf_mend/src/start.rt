//! The start of a file.

ghost use Rattle.std.specs.Prelude.{◌≡◌, ◌↔◌, ℕ, ℤ, IsTrue, IfOk, MatchOption, Some};
ghost use Rattle.edf_mend.specs.Header.{AreParted, dotted, HasNoTime, KeepsTime, KeepsDate, HasDay};
ghost use Rattle.edf_mend.specs.Header.{AgreesWithDay, HasNoStartdate};
ghost use Rattle.edf_time.specs.Civil.{IsTimeText, IsDateText, AreStartdates};

use crate::fault::MendFault;
use crate::recording::date_in;
use crate::texts::{in_capitals, spaced};
use edf_time::{Day, StartFault, id_date, start_of};
use std::alloc::{AllocError, Global};

/// Returns three parts of two bytes with dots between them, whatever stood there.
fn dotted(field: &[u8; 8]) -> [u8; 8]
    ensures { result ≡ dotted field.now }
{
    [
        field[0], field[1], b'.', field[3], field[4], b'.', field[6], field[7],
    ]
}

/// Is true where between three parts of two bytes are no digits.
fn are_parted(field: &[u8; 8]) -> bool
    ensures { IsTrue result ↔ AreParted field.now }
{
    !field[2].is_ascii_digit() && !field[5].is_ascii_digit()
}

/// Is true where a text is no time of a day.
fn is_no_time(text: &[u8; 8]) -> bool
    ensures { IsTrue result → (seconds : ℕ) → ¬ IsTimeText text.now seconds }
{
    matches!(start_of(b"01.01.85", text, None), Err(StartFault::Time))
}

/// Is true where a text is no date of the years 1985 to 2084.
fn is_no_date(text: &[u8; 8]) -> bool
    ensures { IsTrue result → (days : ℕ) → ¬ IsDateText text.now days }
{
    matches!(start_of(text, b"00.00.00", None), Err(StartFault::Date))
}

/// Is true where a file has no starttime.
fn has_no_time(field: &[u8; 8]) -> bool
    ensures { IsTrue result → HasNoTime field.now }
{
    if !are_parted(field) {
        return true;
    }
    is_no_time(&dotted(field))
}

/// Returns the good form of a starttime.
pub(crate) fn good_time(given: &Option<[u8; 8]>, old: &[u8; 8]) -> Result<[u8; 8], MendFault>
    ensures { IfOk result (KeepsTime given.now old.now) }
{
    match given {
        None => {
            if !are_parted(old) {
                return Err(MendFault::from(edf_header::HeaderFault::Starttime));
            }
            Ok(dotted(old))
        }
        Some(time) => {
            if !has_no_time(old) {
                return Err(MendFault::Starttime { own: dotted(old) });
            }
            Ok(*time)
        }
    }
}

/// Returns the day that a recording field has, in any letters.
fn day_in(alloc: Global, recording: &[u8]) -> Result<Option<Day>, AllocError>
    ensures { IfOk result (λ found. MatchOption found ((day : ℤ) → ¬ HasDay recording.now day)
        (HasDay recording.now)) }
{
    let field = spaced(alloc, recording)?;
    let Some((date, _)) = date_in(alloc, field.as_slice())? else {
        return Ok(None);
    };
    let text = in_capitals(alloc, date)?;
    Ok(id_date(text.as_slice()))
}

/// Is true where a startdate is a day, beside this one of a recording field.
fn is_day(date: &[u8; 8], day: Day) -> bool
    ensures { IsTrue result ↔ ((days : ℕ) × AreStartdates date.now (Some day) days) }
{
    start_of(date, b"00.00.00", Some(day)).is_ok()
}

/// Is true where a startdate is the day of a recording field.
fn agrees(alloc: Global, recording: &[u8], date: &[u8; 8]) -> Result<bool, AllocError>
    ensures { IfOk result (λ ok. IsTrue ok ↔ AgreesWithDay recording.now date.now) }
{
    match day_in(alloc, recording)? {
        Some(day) => Ok(is_day(date, day)),
        None => Ok(false),
    }
}

/// Is true where a file has no startdate.
fn has_no_startdate(alloc: Global, recording: &[u8], date: &[u8; 8]) -> Result<bool, AllocError>
    ensures { IfOk result (λ ok. IsTrue ok → HasNoStartdate recording.now date.now) }
{
    if !is_no_date(date) {
        return Ok(false);
    }
    let agreed = agrees(alloc, recording, &dotted(date))?;
    Ok(!agreed)
}

/// Returns the good form of a startdate. One in another form than dd.mm.yy stays as it is, and is
/// refused by the strict reading, where the recording field has another day or none.
pub(crate) fn good_date(
    alloc: Global,
    given: &Option<[u8; 8]>,
    recording: &[u8],
    old: &[u8; 8],
) -> Result<[u8; 8], MendFault>
    ensures { IfOk result (KeepsDate given.now recording.now old.now) }
{
    match given {
        None => {
            let text = dotted(old);
            if !are_parted(old) {
                return Ok(*old);
            }
            if agrees(alloc, recording, &text)? {
                return Ok(text);
            }
            Ok(*old)
        }
        Some(date) => {
            if !has_no_startdate(alloc, recording, old)? {
                return Err(MendFault::Startdate { own: dotted(old) });
            }
            Ok(*date)
        }
    }
}
