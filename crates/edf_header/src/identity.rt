ghost use Rattle.std.specs.Prelude.{◌≡◌, ◌≤◌, ◌<◌, ◌+◌, ◌*◌, ◌↔◌, ◌++◌, IfOk};
ghost use Rattle.std.specs.Prelude.{OnOk, IsTrue, MatchResult, length};
ghost use Rattle.edf_field.specs.Number.{duration_of};
ghost use Rattle.edf_header.specs.Flat.{AreFlat};
ghost use Rattle.edf_header.specs.Signal.{rows_of, ordinary, samples_in_all};
ghost use Rattle.edf_header.specs.Key.{Key, IsKey, MayStart, dated_bytes, key_bytes, key_at};
ghost use Rattle.edf_header.specs.Key.{patient_code, investigation_code};
ghost use Rattle.edf_header.specs.Identity.{IsFirstKeyFault};
ghost use Rattle.edf_header.specs.Inside.Shape.{key_from};

use crate::columns::{Columns, row_in};
use crate::fields::{KEY_DURATION, KEY_MARK, KEY_PATIENT, KEY_SIGNALS};
use crate::fixed::Fixed;
use crate::flat::push_flat;
use crate::header_signals::push_ordinary;
use crate::identity_checks::{KeyNumbers, after, check_key};
use crate::laws::identity_is_key;
use crate::limits::MOST_BLOCK_BYTES;
use edf_field::{MOST_DURATION, next_subfield};
use edf_time::Instant;
use std::alloc::{AllocError, Global};
use std::marker::Model;
use thiserror::Error;

/// Bytes are no identity for the first of these that is true. Signals count from 1, offsets from 0.
#[derive(Clone, Copy, Debug, PartialEq, Eq, Drop, Error)]
pub enum IdentityFault {
    /// There are not 158 bytes and 256 for each of 1 to 639 signals.
    #[error("the length is not that of an identity")]
    Length,
    /// A byte is not 32 to 126.
    #[error("byte {0} is not printable")]
    Unprintable(usize),
    /// Bytes 0 to 79 are no patient identification.
    #[error("the patient identification is not that of EDF+")]
    Patient,
    /// Byte 80 is not `D` or `X`, or what follows is not the rest of a recording identification.
    #[error("the recording identification is not that of EDF+")]
    Recording,
    /// Bytes 150 to 157 are no duration of a data record.
    #[error("the duration of a data record is not a decimal, or out of range")]
    Duration,
    /// A signal has the label of an annotations signal.
    #[error("signal {0} is an annotations signal")]
    Label(u32),
    /// A signal's physical minimum and maximum are no numbers, or equal.
    #[error("signal {0} has no two different physical values")]
    Physical(u32),
    /// A signal's digital minimum and maximum are no numbers of 16 bits, or do not rise.
    #[error("signal {0} has no two rising digital values of 16 bits")]
    Digital(u32),
    /// A signal's samples per data record are no whole number from 1 on.
    #[error("signal {0} has no samples per data record")]
    Samples(u32),
    /// The ordinary samples of a data record have more than 4,194,304 bytes.
    #[error("a data record is too large")]
    Size,
    /// Memory ran out; no other condition is true.
    #[error("out of memory")]
    Memory,
}

/// A fragment belongs to a recording by the patient identification, the recording identification
/// without its date, the duration of a data record, and the headers of the ordinary signals (EDF,
/// header record; EDF+, additional specifications). Two fragments are of one recording where all
/// these bytes are the same.
///
/// Bytes 0 to 79 are the patient field; 80 is `D` where the Startdate subfield is a date, else `X`;
/// 81 to 149 are what follows that subfield, filled with spaces; 150 to 157 are the duration field.
/// Then come 256 for each of 1 to 639 ordinary signals, its ten fields one after the other, as
/// `read_signals` has them.
#[derive(Drop)]
pub struct Identity {
    pub(crate) bytes: Vec<u8>,
    duration: u64,
    ordinary_bytes: usize,
}

impl Model for Identity {
    ghost use Rattle.edf_header.specs.Key.{Key, key_at};
    ghost use Rattle.edf_header.specs.Inside.Shape.{IsIdentity};

    ghost Value = { Key };

    ghost view = { λ i. key_at i.bytes.items };

    ghost invariant = { λ i. IsIdentity i.bytes.items i.duration i.ordinary_bytes };
}

/// Adds to an identity's bytes the mark of its Startdate subfield, `D` for a date and `X` for none;
/// what follows that subfield, 59 bytes behind a date and 69 behind `X`; and behind a date ten
/// spaces (EDF+, the local recording identification).
///
/// # Errors
/// Where memory ran out. Then `out` may have some of these bytes.
pub fn push_dated(out: &mut Vec<u8>, dated: bool, after: &[u8]) -> Result<(), AllocError>
    ensures { OnOk result (out.new.items ≡ out.old.items ++ dated_bytes dated after.now) }
{
    if dated {
        out.push(b'D')?;
        out.extend_from_slice(after)?;
        out.extend_from_slice(b"          ".as_slice())?;
    } else {
        out.push(b'X')?;
        out.extend_from_slice(after)?;
    }
    Ok(())
}

/// Returns the bytes of an identity, from a header's fixed part and all its signals.
fn bytes_from(alloc: Global, fixed: &Fixed, signals: &Columns<'_>) -> Result<Vec<u8>, AllocError>
    ensures { IfOk result
        (λ v. v.items ≡ key_bytes (key_from fixed.now (ordinary signals.now))) }
{
    let mut bytes = Vec::with_capacity(alloc, KEY_SIGNALS)?;
    bytes.extend_from_slice(fixed.patient())?;
    push_dated(&mut bytes, fixed.dated(), fixed.after())?;
    bytes.extend_from_slice(fixed.duration())?;
    push_ordinary(&mut bytes, signals)?;
    Ok(bytes)
}

impl Identity {
    /// Returns the identity that has these bytes.
    ///
    /// # Errors
    /// It fails with the first fault that is true of the bytes, in the order of `IdentityFault`;
    /// with `Memory` where memory runs out and none is true.
    pub fn from_bytes(alloc: Global, bytes: &[u8]) -> Result<Identity, IdentityFault>
        ensures { MatchResult result
            (λ i. (key_bytes i ≡ bytes.now) × IsKey i) (IsFirstKeyFault bytes.now) }
    {
        let KeyNumbers {
            duration,
            ordinary_bytes,
        } = check_key(bytes)?;
        let Ok(copy) = Vec::from_slice(alloc, bytes) else {
            return Err(IdentityFault::Memory);
        };
        Ok(Identity {
            bytes: copy,
            duration,
            ordinary_bytes,
        })
    }

    /// Returns the identity of a header, from its fixed part, all its signals, and the bytes of a
    /// data record's ordinary samples.
    pub(crate) fn from_header(
        alloc: Global,
        fixed: &Fixed,
        signals: &Columns<'_>,
        ordinary_bytes: usize,
    ) -> Result<Identity, AllocError>
        requires key { IsKey (key_from fixed.now (ordinary signals.now)) }
        requires ordinary { ordinary_bytes ≡ 2 * samples_in_all (ordinary signals.now) }
        ensures { IfOk result (λ i. i ≡ key_from fixed.now (ordinary signals.now)) }
    {
        let bytes = bytes_from(alloc, fixed, signals)?;
        let duration = fixed.nanos();
        Ok(Identity {
            bytes,
            duration,
            ordinary_bytes,
        })
    }

    /// Returns the bytes of the identity: 158, and 256 for each ordinary signal.
    ///
    /// # Errors
    /// It fails where memory runs out.
    pub fn to_bytes(&self, alloc: Global) -> Result<Vec<u8>, AllocError>
        ensures bytes { IfOk result (λ v. v.items ≡ key_bytes self.now) }
        ensures key { IsKey self.now }
    {
        Vec::from_slice(alloc, self.bytes.as_slice())
    }

    /// Is true where two identities are the same, byte for byte: two texts of one value differ.
    pub fn same(&self, other: &Identity) -> bool
        ensures same { IsTrue result ↔ (self.now ≡ other.now) }
        ensures key { IsKey self.now × IsKey other.now }
    {
        self.bytes.as_slice() == other.bytes.as_slice()
    }

    /// Is true where the Startdate subfield of the recording identification is a date, and not `X`.
    pub fn dated(&self) -> bool
        ensures { result ≡ self.now.dated }
    {
        self.bytes[KEY_MARK] == b'D'
    }

    /// Is true where a file of its recording may start at `start`. Where the identity has no date,
    /// it may before 2085 alone, since only two digits of the startdate name the year (EDF+, the
    /// clipping date).
    pub fn may_start(&self, start: Instant) -> bool
        ensures { IsTrue result ↔ MayStart self.now start }
    {
        self.dated() || start.has_two_digit_year()
    }

    /// Returns the number of ordinary signals: 1 to 639.
    pub fn signals(&self) -> usize
        ensures count { result ≡ length self.now.signals }
        ensures key { IsKey self.now }
    {
        (self.bytes.len() - KEY_SIGNALS) / 256
    }

    /// Returns the bytes of a data record's ordinary samples, two for each: at most 4,194,304.
    pub fn ordinary_bytes(&self) -> usize
        ensures value { result ≡ 2 * samples_in_all self.now.signals }
        ensures bound { result ≤ MOST_BLOCK_BYTES }
        ensures key { IsKey self.now }
    {
        self.ordinary_bytes
    }

    /// Returns the duration of a data record in nanoseconds: above 0, at most [`MOST_DURATION`].
    pub fn duration(&self) -> u64
        ensures value { result ≡ duration_of self.now.duration }
        ensures positive { 0 < result }
        ensures bound { result ≤ MOST_DURATION }
        ensures key { IsKey self.now }
    {
        self.duration
    }

    /// Returns the patient code: the first subfield of the patient identification.
    pub fn patient_code(&self) -> &[u8]
        ensures { result.now ≡ patient_code self.now }
    {
        match next_subfield(&self.bytes[KEY_PATIENT..KEY_MARK]) {
            Some((code, _)) => code,
            None => unreachable!(),
        }
    }

    /// Returns the investigation code: the first subfield after the Startdate subfield.
    pub fn investigation_code(&self) -> &[u8]
        ensures { result.now ≡ investigation_code self.now }
    {
        match next_subfield(after(&self.bytes)) {
            Some((code, _)) => code,
            None => unreachable!(),
        }
    }

    /// Returns the samples of a flat data record, where there was no recording: of each signal the
    /// digital value that stands for the physical value nearest to 0.
    ///
    /// # Errors
    /// It fails where memory runs out.
    pub fn flat_samples(&self, alloc: Global) -> Result<Vec<u8>, AllocError>
        ensures { IfOk result (λ flat. AreFlat self.now.signals flat.items) }
    {
        identity_is_key(self);
        let rows = self.signal_rows();
        let mut flat = Vec::new(alloc);
        for i in 0..rows.len() / 256 {
            push_flat(&mut flat, row_in(rows, i))?;
        }
        Ok(flat)
    }

    /// Returns the patient field, 80 bytes.
    pub(crate) fn patient_field(&self) -> &[u8]
        ensures { result.now ≡ self.now.patient }
    {
        &self.bytes[KEY_PATIENT..KEY_MARK]
    }

    /// Returns what follows the Startdate subfield: 59 bytes where that is a date, else 69.
    pub(crate) fn after_startdate(&self) -> &[u8]
        ensures { result.now ≡ self.now.after }
    {
        after(&self.bytes)
    }

    /// Returns the field of the duration of a data record, 8 bytes.
    pub(crate) fn duration_field(&self) -> &[u8]
        ensures { result.now ≡ self.now.duration }
    {
        &self.bytes[KEY_DURATION..KEY_SIGNALS]
    }

    /// Returns the ordinary signals' headers, each in a row of 256 bytes.
    pub fn signal_rows(&self) -> &[u8]
        ensures { rows_of result.now ≡ self.now.signals }
    {
        &self.bytes[KEY_SIGNALS..]
    }
}
