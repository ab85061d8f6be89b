//! The bytes of an identity are checked in the order of their faults.
ghost use Rattle.std.specs.Prelude.{◌≡◌, ◌≢◌, ◌≤◌, ◌+◌, ◌*◌, ◌↔◌, IsTrue, MatchResult, All, length};
ghost use Rattle.edf_field.specs.Number.{duration_of};
ghost use Rattle.edf_field.specs.Text.{FollowsStartdate};
ghost use Rattle.edf_header.specs.Signal.{samples_in_all, Passes, rows_of, ordinary, HasSamples};
ghost use Rattle.edf_header.specs.Key.{key_at};
ghost use Rattle.edf_header.specs.Identity.{HasLength, HasMark, signals_at, IsCleanKey};
ghost use Rattle.edf_header.specs.Identity.{IsFirstKeyFault};
ghost use Rattle.edf_header.specs.Inside.Shape.{IsIdentity, IsKeyPrefix, check_order};

use crate::columns::row_in;
use crate::fields::{
    KEY_AFTER, KEY_DURATION, KEY_FILL, KEY_MARK, KEY_PATIENT, KEY_SIGNALS, SAMPLES, SIGNAL_RESERVED,
};
use crate::identity::IdentityFault;
use crate::limits::{MOST_BLOCK_BYTES, MOST_ORDINARY_SIGNALS, MOST_SIGNALS};
use crate::signal_checks::{Check, first_bad, first_unprintable, is_labelled};
use edf_field::{are_spaces, follows_startdate, is_patient, read_duration, read_whole};

/// Is true where the length is that of an identity.
fn has_length(bytes: &[u8]) -> bool
    ensures { IsTrue result ↔ HasLength bytes.now }
{
    let n = bytes.len().saturating_sub(KEY_SIGNALS) / 256;
    bytes.len() == KEY_SIGNALS + 256 * n && 1 <= n && n <= MOST_ORDINARY_SIGNALS
}

/// Is true where the mark of the Startdate subfield is `D` with its spaces, or `X`.
fn has_mark(bytes: &[u8]) -> bool
    requires { 158 ≤ length bytes.now }
    ensures { IsTrue result ↔ HasMark bytes.now }
{
    match bytes[KEY_MARK] {
        b'D' => are_spaces(&bytes[KEY_FILL..KEY_DURATION]),
        b'X' => true,
        _ => false,
    }
}

/// Returns what follows the Startdate subfield.
pub(crate) fn after(bytes: &[u8]) -> &[u8]
    requires { 158 ≤ length bytes.now }
    ensures { result.now ≡ (key_at bytes.now).after }
{
    if bytes[KEY_MARK] == b'D' {
        &bytes[KEY_AFTER..KEY_FILL]
    } else {
        &bytes[KEY_AFTER..KEY_DURATION]
    }
}

/// Is true where the bytes have a recording identification without its date.
fn has_recording(bytes: &[u8]) -> bool
    requires { 158 ≤ length bytes.now }
    ensures { IsTrue result ↔ HasMark bytes.now × FollowsStartdate (key_at bytes.now).after }
{
    has_mark(bytes) && follows_startdate(after(bytes))
}

/// An identity's bytes have these numbers: the duration of a data record in nanoseconds, and the
/// bytes of its ordinary samples.
#[derive(Clone, Copy)]
pub(crate) struct KeyNumbers {
    pub(crate) duration: u64,
    pub(crate) ordinary_bytes: usize,
}

/// Checks what comes before the signals, and reads the duration of a data record in nanoseconds.
fn check_key_prefix(bytes: &[u8]) -> Result<u64, IdentityFault>
    ensures { MatchResult result
        (λ nanos. IsKeyPrefix bytes.now × (nanos ≡ duration_of (key_at bytes.now).duration))
        (IsFirstKeyFault bytes.now) }
{
    if !has_length(bytes) {
        return Err(IdentityFault::Length);
    }
    if let Some(offset) = first_unprintable(bytes) {
        return Err(IdentityFault::Unprintable(offset));
    }
    if !is_patient(&bytes[KEY_PATIENT..KEY_MARK]) {
        return Err(IdentityFault::Patient);
    }
    if !has_recording(bytes) {
        return Err(IdentityFault::Recording);
    }
    match read_duration(&bytes[KEY_DURATION..KEY_SIGNALS]) {
        Some(nanos) => Ok(nanos),
        None => Err(IdentityFault::Duration),
    }
}

/// Checks that no signal fails a check, or finds the first that does.
fn check_signals(check: Check, bytes: &[u8]) -> Result<(), IdentityFault>
    requires length { HasLength bytes.now }
    requires ordinary { check ≢ Check.Annotations }
    requires clean { IsCleanKey bytes.now (check_order check) }
    ensures { MatchResult result
        (λ _. All (Passes check) (signals_at bytes.now)
        × IsCleanKey bytes.now (check_order check + 1))
        (IsFirstKeyFault bytes.now) }
{
    let Some(at) = first_bad(check, &bytes[KEY_SIGNALS..]) else {
        return Ok(());
    };
    let signal = at as u32 + 1;
    Err(match check {
        Check::Label => IdentityFault::Label(signal),
        Check::Annotations => unreachable!(),
        Check::Physical => IdentityFault::Physical(signal),
        Check::Digital => IdentityFault::Digital(signal),
        Check::Samples => IdentityFault::Samples(signal),
    })
}

/// Returns the bytes of a data record's ordinary samples, unless they are too many.
fn check_size(bytes: &[u8]) -> Result<usize, IdentityFault>
    requires length { HasLength bytes.now }
    requires label { All (Passes Check.Label) (signals_at bytes.now) }
    requires samples { All (Passes Check.Samples) (signals_at bytes.now) }
    requires clean { IsCleanKey bytes.now 10 }
    ensures { MatchResult result
        (λ size. (size ≡ 2 * samples_in_all (signals_at bytes.now)) × (size ≤ MOST_BLOCK_BYTES)
        × IsCleanKey bytes.now 11)
        (IsFirstKeyFault bytes.now) }
{
    let size = 2 * ordinary_samples(&bytes[KEY_SIGNALS..]);
    if size > MOST_BLOCK_BYTES {
        return Err(IdentityFault::Size);
    }
    Ok(size)
}

/// Checks bytes that may be an identity's, and reads their numbers.
pub(crate) fn check_key(bytes: &[u8]) -> Result<KeyNumbers, IdentityFault>
    ensures { MatchResult result
        (λ numbers. IsIdentity bytes.now numbers.duration numbers.ordinary_bytes
        × IsCleanKey bytes.now 11)
        (IsFirstKeyFault bytes.now) }
{
    let duration = check_key_prefix(bytes)?;
    check_signals(Check::Label, bytes)?;
    check_signals(Check::Physical, bytes)?;
    check_signals(Check::Digital, bytes)?;
    check_signals(Check::Samples, bytes)?;
    let ordinary_bytes = check_size(bytes)?;
    Ok(KeyNumbers {
        duration,
        ordinary_bytes,
    })
}

/// Returns the number of samples that the ordinary signals have in a data record.
pub(crate) fn ordinary_samples(rows: &[u8]) -> usize
    requires few { length rows.now ≤ 256 * MOST_SIGNALS }
    requires each { All HasSamples (rows_of rows.now) }
    ensures value { result ≡ samples_in_all (ordinary (rows_of rows.now)) }
    ensures bound { result ≤ 64_000_000_000 }
{
    let mut total = 0;
    for i in 0..rows.len() / 256 {
        let row = row_in(rows, i);
        if is_labelled(row) {
            continue;
        }
        let Some(n) = read_whole(&row[SAMPLES..SIGNAL_RESERVED]) else {
            continue;
        };
        total += n as usize;
    }
    total
}
