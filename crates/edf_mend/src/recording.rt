//! The recording that a file is of.

ghost use Rattle.std.specs.Prelude.{◌≡◌, ◌⊎◌, ◌↔◌, ◌-◌, ◌∷◌, ◌++◌, [], length, IsTrue, IfOk};
ghost use Rattle.std.specs.Prelude.{MatchOption, codes, slice_index_or, drop};
ghost use Rattle.edf_field.specs.Text.{subfields};
ghost use Rattle.edf_mend.specs.Texts.{unfilled, spaced, joined_by, spelling};
ghost use Rattle.edf_mend.specs.Identification.{IsPlainRecording, AreDated, HasDate, IsRedated};
ghost use Rattle.edf_mend.specs.Identification.{lacking_codes, IsDateOf, StandsBehind, IsDateAlone};
ghost use Rattle.edf_mend.specs.Identification.{KeepsRecording, StaysBehindDate, mark};
ghost use Rattle.edf_mend.specs.declared.wanted.Who.TheVariants.{AsNamed};

use crate::fault::MendFault;
use crate::letters::spelling;
use crate::texts::{in_capitals, is_date_or_x, is_printable, is_same, joined_by, spaced, unfilled};
use crate::wanted::Who;
use edf_field::{RecordingFault, next_subfield, read_recording};
use edf_header::HeaderFault;
use edf_time::{id_date_text, start_of};
use std::alloc::{AllocError, Global};

/// Is true where a field is a recording identification as it stands, but for zeros that fill it.
fn is_plain_recording(alloc: Global, field: &[u8]) -> Result<bool, AllocError>
    requires { length field.now ≡ 80 }
    ensures { IfOk result (λ r. IsTrue r ↔ IsPlainRecording field.now) }
{
    let text = spaced(alloc, field)?;
    if !is_printable(text.as_slice()) {
        return Ok(false);
    }
    match read_recording(text.as_slice()) {
        Ok(_) => Ok(true),
        Err(_) => Ok(false),
    }
}

/// Returns the date that a text has behind the word, in any letters, and what follows it.
pub(crate) fn date_in(alloc: Global, text: &[u8]) -> Result<Option<(&[u8], &[u8])>, AllocError>
    ensures { IfOk result (λ found. MatchOption found (¬ AreDated (subfields text.now))
        (λ two. AreDated (subfields text.now)
        × (two.0.now ≡ slice_index_or (subfields text.now) 1 [])
        × (subfields two.1.now ≡ drop 2 (subfields text.now)))) }
{
    let Some((word, behind_word)) = next_subfield(text) else {
        return Ok(None);
    };
    let Some((date, after)) = next_subfield(behind_word) else {
        return Ok(None);
    };
    let word = in_capitals(alloc, word)?;
    if word.as_slice() != b"STARTDATE".as_slice() {
        return Ok(None);
    }
    let capitals = in_capitals(alloc, date)?;
    if !is_date_or_x(capitals.as_slice()) {
        return Ok(None);
    }
    Ok(Some((date, after)))
}

/// Returns X for each code that a text lacks.
fn lacking_codes(after: &[u8]) -> &'static [u8]
    ensures { result.now ≡ lacking_codes (subfields after.now) }
{
    let Some((_, rest)) = next_subfield(after) else {
        return b" X X X".as_slice();
    };
    let Some((_, rest)) = next_subfield(rest) else {
        return b" X X".as_slice();
    };
    match next_subfield(rest) {
        Some(_) => b"".as_slice(),
        None => b" X".as_slice(),
    }
}

/// Returns the word, a date, and two texts behind it.
fn dated_text(alloc: Global, date: &[u8], one: &[u8], two: &[u8]) -> Result<Vec<u8>, AllocError>
    ensures { IfOk result
        (λ text. text.items ≡ codes "Startdate " ++ (date.now ++ (one.now ++ two.now))) }
{
    let mut text = Vec::from_slice(alloc, b"Startdate ".as_slice())?;
    text.extend_from_slice(date)?;
    text.extend_from_slice(one)?;
    text.extend_from_slice(two)?;
    Ok(text)
}

/// Returns the text of a field that has a date of its own: the date in capitals, the codes in
/// ASCII, and X for those that it lacks; `None` where it has no date.
fn redated(alloc: Global, old: &[u8]) -> Result<Option<Vec<u8>>, AllocError>
    ensures { IfOk result (λ found. MatchOption found (¬ HasDate old.now)
        (λ text. IsRedated old.now text.items)) }
{
    let field = spaced(alloc, old)?;
    let Some((date, after)) = date_in(alloc, field.as_slice())? else {
        return Ok(None);
    };
    let date = in_capitals(alloc, date)?;
    let joined = joined_by(alloc, b' ', after)?;
    let spelled = spelling(alloc, joined.as_slice())?;
    let text = dated_text(
        alloc,
        date.as_slice(),
        spelled.as_slice(),
        lacking_codes(spelled.as_slice()),
    )?;
    Ok(Some(text))
}

/// Returns the day of a startdate that says its year, as identifications write one.
fn day_text(date: &[u8; 8]) -> Result<[u8; 11], MendFault>
    ensures { IfOk result (IsDateOf date.now) }
{
    match start_of(date, b"00.00.00", None) {
        Ok(start) => Ok(id_date_text(start)),
        Err(_) => Err(MendFault::from(HeaderFault::Recording(RecordingFault::NoStartdate))),
    }
}

/// Returns the text of a field that has no date of its own: that of the startdate, three codes X,
/// and all that the field says, as far as there is room.
fn behind_codes(alloc: Global, old: &[u8], date: &[u8; 8]) -> Result<Vec<u8>, MendFault>
    requires { ¬ HasDate old.now }
    ensures { IfOk result (λ text. StandsBehind date.now old.now text.items) }
{
    let day = day_text(date)?;
    let field = spaced(alloc, old)?;
    let spelled = spelling(alloc, field.as_slice())?;
    let joined = joined_by(alloc, b' ', spelled.as_slice())?;
    let mut text = dated_text(alloc, &day, b" X X X".as_slice(), joined.as_slice())?;
    text.truncate(73);
    Ok(text)
}

/// Returns the text of a field of which nothing stays but its date.
fn date_alone(alloc: Global, old: &[u8], date: &[u8; 8]) -> Result<Vec<u8>, MendFault>
    ensures { IfOk result (λ text. IsDateAlone date.now old.now text.items) }
{
    let field = spaced(alloc, old)?;
    let codes = b" X X X".as_slice();
    match date_in(alloc, field.as_slice())? {
        Some((own, _)) => {
            let own = in_capitals(alloc, own)?;
            Ok(dated_text(alloc, own.as_slice(), codes, b"".as_slice())?)
        }
        None => {
            let day = day_text(date)?;
            Ok(dated_text(alloc, &day, codes, b"".as_slice())?)
        }
    }
}

/// Returns the text of a field that is shown.
fn shown(alloc: Global, old: &[u8], date: &[u8; 8]) -> Result<Vec<u8>, MendFault>
    requires { length old.now ≡ 80 }
    ensures { IfOk result (λ text. KeepsRecording AsNamed date.now old.now text.items) }
{
    if is_plain_recording(alloc, old)? {
        return Ok(Vec::from_slice(alloc, unfilled(old))?);
    }
    if let Some(text) = redated(alloc, old)? {
        return Ok(text);
    }
    Ok(behind_codes(alloc, old, date)?)
}

/// Returns the text of the good form of a recording field, without the mark.
pub(crate) fn good_recording(
    alloc: Global,
    who: &Who,
    old: &[u8],
    date: &[u8; 8],
) -> Result<Vec<u8>, MendFault>
    requires { length old.now ≡ 80 }
    ensures { IfOk result (λ text. KeepsRecording who.now date.now old.now text.items) }
{
    match who {
        Who::Hidden(_) => date_alone(alloc, old, date),
        Who::AsNamed => shown(alloc, old, date),
        Who::Given(_) => shown(alloc, old, date),
        Who::Replaced(_) => shown(alloc, old, date),
    }
}

/// Is true where two texts have the same subfields, but for the mark at the end of the second.
fn is_same_behind(old: &[u8], new: &[u8]) -> bool
    ensures { IsTrue result → (subfields new.now ≡ subfields old.now)
        ⊎ (subfields new.now ≡ subfields old.now ++ mark ∷ []) }
{
    let mut left = old;
    let mut right = new;
    for _ in 0..81 {
        match (next_subfield(left), next_subfield(right)) {
            (None, None) => return true,
            (None, Some((word, rest))) => {
                return word == b"mended".as_slice() && next_subfield(rest).is_none();
            }
            (Some(_), None) => return false,
            (Some((one, more)), Some((other, rest))) => {
                if !is_same(one, other) {
                    return false;
                }
                left = more;
                right = rest;
            }
        }
    }
    false
}

/// Is true where a field has a date of its own, and the same codes stay behind it.
pub(crate) fn stays_behind_date(alloc: Global, old: &[u8], new: &[u8]) -> Result<bool, AllocError>
    requires { length new.now ≡ 80 }
    ensures { IfOk result (λ ok. IsTrue ok → StaysBehindDate old.now new.now) }
{
    let field = spaced(alloc, old)?;
    let Some((_, codes)) = date_in(alloc, field.as_slice())? else {
        return Ok(false);
    };
    match read_recording(new) {
        Ok((_, after)) => Ok(is_same_behind(codes, after)),
        Err(_) => Ok(false),
    }
}
