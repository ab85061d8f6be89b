//! The good form of a header: it is proposed, read strictly, and checked against the header.

ghost use Rattle.std.specs.Prelude.{◌≡◌, ◌≢◌, ◌⊎◌, ◌+◌, ◌*◌, ◌≤◌, length, take, codes, IsTrue};
ghost use Rattle.std.specs.Prelude.{IfOk, OnOk, false, if◌then◌else◌};
ghost use Rattle.edf_header.specs.Fields.{version_field, patient_field, recording_field};
ghost use Rattle.edf_header.specs.Fields.{startdate_field, starttime_field, duration_field};
ghost use Rattle.edf_header.specs.Fields.{reserved_field};
ghost use Rattle.edf_header.specs.declared.limits.TheConstants.{MOST_SIGNALS};
ghost use Rattle.edf_mend.specs.Texts.{spaced, first_subfield, IsNoCode};
ghost use Rattle.edf_mend.specs.Identification.{StaysBehindDate};
ghost use Rattle.edf_mend.specs.Header.{KeepsFixed, KeepsRow, KeepsSignals};
ghost use Rattle.edf_mend.specs.Inside.{IsGoodFixed};
ghost use Rattle.edf_mend.specs.declared.wanted.Who.TheVariants.{AsNamed};

use crate::columns::{Headers, columns};
use crate::fault::MendFault;
use crate::patient::good_patient;
use crate::recording::{good_recording, stays_behind_date};
use crate::signal::{
    annotations_row, eight, good_signal, is_labelled, keeps_signal, speaks_of_annotations,
    was_labelled,
};
use crate::start::{good_date, good_time};
use crate::texts::{first_subfield, is_no_code, is_same, numeral, put, spaced};
use crate::wanted::{Wanted, Who};
use edf_header::{HeaderFault, read_fixed, signal_row};
use std::alloc::{AllocError, Global};

/// Refuses what is no EDF, as a strict reading does: its version is another, but for zeros that
/// fill it.
pub(crate) fn check_version(alloc: Global, first: &[u8; 256]) -> Result<(), MendFault>
    ensures { OnOk result (spaced (version_field first.now) ≡ codes "0       ") }
{
    let text = spaced(alloc, &first[..8])?;
    if text.as_slice() == b"0       ".as_slice() {
        return Ok(());
    }
    match read_fixed(first) {
        Err(fault) => Err(MendFault::from(fault)),
        Ok(_) => Err(MendFault::Check),
    }
}

/// Is true where codes of a recording stay where its patient has none, and none is given.
fn keeps_nobody(
    alloc: Global,
    who: &Who,
    old: &[u8; 256],
    new: &[u8; 256],
) -> Result<bool, AllocError>
    ensures { IfOk result (λ ok. IsTrue ok → who.now ≡ AsNamed
        → (¬ IsNoCode (first_subfield (patient_field new.now)))
        ⊎ StaysBehindDate (recording_field old.now) (recording_field new.now)) }
{
    match who {
        Who::AsNamed => {
            if !is_no_code(first_subfield(&new[8..88])) {
                return Ok(true);
            }
            Ok(stays_behind_date(alloc, &old[88..168], &new[88..168])?)
        }
        _ => Ok(true),
    }
}

/// The good form of the fixed part, and the text in its recording field without the mark.
#[derive(Drop)]
pub(crate) struct GoodFixed {
    pub(crate) patient: [u8; 80],
    pub(crate) text: Vec<u8>,
    pub(crate) date: [u8; 8],
    pub(crate) time: [u8; 8],
    pub(crate) duration: Vec<u8>,
}

/// Returns the good form of the fixed part.
fn good_fixed(alloc: Global, wanted: &Wanted, first: &[u8; 256]) -> Result<GoodFixed, MendFault>
    ensures { IfOk result (IsGoodFixed wanted.now first.now) }
{
    check_version(alloc, first)?;
    let patient = good_patient(alloc, &wanted.who, &first[8..88])?;
    let date = good_date(
        alloc,
        &wanted.startdate,
        &first[88..168],
        &eight(&first[168..176]),
    )?;
    let time = good_time(&wanted.starttime, &eight(&first[176..184]))?;
    let text = good_recording(alloc, &wanted.who, &first[88..168], &date)?;
    let duration = numeral(alloc, &first[244..252])?;
    Ok(GoodFixed {
        patient,
        text,
        date,
        time,
        duration,
    })
}

/// Is true where a header has these fields.
fn has_fixed(good: &GoodFixed, new: &[u8; 256]) -> bool
    ensures { IsTrue result → (patient_field new.now ≡ good.now.patient)
        × (startdate_field new.now ≡ good.now.date) × (starttime_field new.now ≡ good.now.time)
        × (duration_field new.now ≡ good.now.duration.items) }
{
    if !is_same(&new[8..88], &good.patient) {
        return false;
    }
    if !is_same(&new[168..176], &good.date) {
        return false;
    }
    if !is_same(&new[176..184], &good.time) {
        return false;
    }
    is_same(&new[244..252], good.duration.as_slice())
}

/// Is true where a file is not marked as one that has gaps.
fn has_no_gaps(first: &[u8; 256]) -> bool
    ensures { IsTrue result → take 5 (reserved_field first.now) ≢ codes "EDF+D" }
{
    !is_same(&first[192..197], b"EDF+D")
}

/// Is true where one of the signals may be the good form of a file's.
fn keeps_row(
    alloc: Global,
    timed: bool,
    old: &[u8; 256],
    new: &[u8; 256],
) -> Result<bool, AllocError>
    ensures { IfOk result (λ ok. IsTrue ok → KeepsRow timed old.now new.now) }
{
    if !keeps_signal(alloc, old, new)? {
        return Ok(false);
    }
    if timed {
        return Ok(true);
    }
    if is_labelled(new) {
        return Ok(false);
    }
    if speaks_of_annotations(alloc, &old[0..16])? {
        return Ok(false);
    }
    let still = speaks_of_annotations(alloc, &new[0..16])?;
    Ok(!still)
}

/// Is true where there are as many signals, or one more.
fn are_as_many(timed: bool, n: usize, count: usize) -> bool
    ensures { IsTrue result → count ≡ (if timed then n else n + 1) }
{
    if timed {
        count == n
    } else {
        count > 0 && count - 1 == n
    }
}

/// Is true where the signals may be the good form of a file's.
pub(crate) fn keeps_signals(
    alloc: Global,
    timed: bool,
    headers: &Headers<'_>,
) -> Result<bool, AllocError>
    ensures { IfOk result (λ ok. IsTrue ok → KeepsSignals timed headers.now.n headers.now.second.now
        headers.now.count headers.now.strict_signals.now) }
{
    if !are_as_many(timed, headers.n, headers.count) {
        return Ok(false);
    }
    for i in 0..headers.n {
        if !keeps_row(alloc, timed, &headers.old_row(i), &headers.new_row(i))? {
            return Ok(false);
        }
    }
    Ok(true)
}

/// Is true where the fixed part may be the good form of a file's.
pub(crate) fn keeps_fixed(
    alloc: Global,
    wanted: &Wanted,
    good: &GoodFixed,
    old: &[u8; 256],
    new: &[u8; 256],
) -> Result<bool, AllocError>
    requires { IsGoodFixed wanted.now old.now good.now }
    ensures { IfOk result (λ ok. IsTrue ok
        → KeepsFixed wanted.now old.now new.now good.now.text.items) }
{
    if !has_fixed(good, new) {
        return Ok(false);
    }
    Ok(keeps_nobody(alloc, &wanted.who, old, new)?)
}

// ---- the proposal

/// The good form of a header.
#[derive(Drop)]
pub(crate) struct Proposed {
    pub(crate) fixed: GoodFixed,
    pub(crate) first: [u8; 256],
    pub(crate) second: Vec<u8>,
    pub(crate) timed: bool,
}

/// Is true where one of the signals is an annotations signal.
fn has_annotations(alloc: Global, second: &[u8], n: usize) -> Result<bool, AllocError>
    requires size { length second.now ≡ 256 * n }
    requires few { n ≤ MOST_SIGNALS }
{
    for i in 0..n {
        if was_labelled(alloc, &signal_row(second, n, i))? {
            return Ok(true);
        }
    }
    Ok(false)
}

/// Refuses a file without an annotations signal that is not plain EDF.
fn check_plain(alloc: Global, first: &[u8; 256], second: &[u8], n: usize) -> Result<(), MendFault>
    requires size { length second.now ≡ 256 * n }
    requires few { n ≤ MOST_SIGNALS }
    ensures { OnOk result (take 5 (reserved_field first.now) ≢ codes "EDF+D") }
{
    if !has_no_gaps(first) {
        return Err(MendFault::from(HeaderFault::Annotations));
    }
    for i in 0..n {
        let row = signal_row(second, n, i);
        if speaks_of_annotations(alloc, &row[0..16])? {
            return Err(MendFault::from(HeaderFault::Annotations));
        }
    }
    Ok(())
}

/// Returns the good form of all signals, one after another.
fn good_rows(alloc: Global, second: &[u8], n: usize, timed: bool) -> Result<Vec<u8>, MendFault>
    requires size { length second.now ≡ 256 * n }
    requires few { n ≤ MOST_SIGNALS }
{
    let mut rows = Vec::new(alloc);
    for i in 0..n {
        let old = signal_row(second, n, i);
        let row = good_signal(alloc, &old, i as u32 + 1, (256 + 96 * n + 8 * i) as u32)?;
        // letters that ASCII lacks may have stood in the word
        if !timed && speaks_of_annotations(alloc, &row[0..16])? {
            return Err(MendFault::from(HeaderFault::Annotations));
        }
        rows.extend_from_slice(&row)?;
    }
    if !timed {
        rows.extend_from_slice(&annotations_row(b"32".as_slice()))?;
    }
    Ok(rows)
}

/// Writes a number into a field.
fn put_number(
    alloc: Global,
    bytes: &mut [u8; 256],
    at: usize,
    width: usize,
    number: usize,
) -> Result<(), AllocError>
    requires { at + width ≤ 256 }
{
    let text = number.to_string(alloc)?;
    put(bytes, at, width, text.as_bytes());
    Ok(())
}

/// Returns the good form of the fixed part, as it is proposed, without the mark.
fn fixed_bytes(alloc: Global, fixed: &GoodFixed, count: usize) -> Result<[u8; 256], AllocError>
    requires { count ≤ 641 }
{
    let mut good = [b' '; 256];
    put(&mut good, 0, 8, b"0".as_slice());
    put(&mut good, 8, 80, &fixed.patient);
    put(&mut good, 88, 80, fixed.text.as_slice());
    put(&mut good, 168, 8, &fixed.date);
    put(&mut good, 176, 8, &fixed.time);
    put_number(alloc, &mut good, 184, 8, 256 + 256 * count)?;
    put(&mut good, 192, 44, b"EDF+D".as_slice());
    put(&mut good, 236, 8, b"-1".as_slice());
    put(&mut good, 244, 8, fixed.duration.as_slice());
    put_number(alloc, &mut good, 252, 4, count)?;
    Ok(good)
}

/// Returns the good form of a header, as it is proposed, without the mark.
pub(crate) fn propose(
    alloc: Global,
    wanted: &Wanted,
    first: &[u8; 256],
    second: &[u8],
    n: usize,
) -> Result<Proposed, MendFault>
    requires size { length second.now ≡ 256 * n }
    requires few { n ≤ MOST_SIGNALS }
    ensures { IfOk result (λ p. IsGoodFixed wanted.now first.now p.fixed
        × (p.timed ≡ false → take 5 (reserved_field first.now) ≢ codes "EDF+D")) }
{
    let fixed = good_fixed(alloc, wanted, first)?;
    let timed = has_annotations(alloc, second, n)?;
    if !timed {
        check_plain(alloc, first, second, n)?;
    }
    let rows = good_rows(alloc, second, n, timed)?;
    let count = if timed { n } else { n + 1 };
    let good = fixed_bytes(alloc, &fixed, count)?;
    if !keeps_nobody(alloc, &wanted.who, first, &good)? {
        return Err(MendFault::Code);
    }
    Ok(Proposed {
        fixed,
        first: good,
        second: columns(alloc, rows.as_slice())?,
        timed,
    })
}
