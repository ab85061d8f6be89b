//! Each function states a law of the texts of fields in its contract, and does nothing.
ghost use Rattle.std.specs.Prelude.{◌≡◌, ℕ, Bool, List, [], ◌∷◌, Option, ◌≤◌, ◌<◌, ◌⊎◌, length, ℤ};
ghost use Rattle.std.specs.Option.{unwrap_or};
ghost use Rattle.edf_field.specs.Number.{IsDuration, IsDurationInRange, duration_of};
ghost use Rattle.edf_field.specs.Grammar.{AreDigits, IsSpelledAs, spelled};
ghost use Rattle.edf_field.specs.Text.{IsPatient, IsRecording};
ghost use Rattle.edf_field.specs.Fault.{IsPatientFault, IsRecordingFault};
ghost use Rattle.edf_field.specs.declared.fault.PatientFault.{PatientFault};
ghost use Rattle.edf_field.specs.declared.fault.RecordingFault.{RecordingFault};

use crate::number::MOST_DURATION;

/// A physical value is read as its digits.
pub fn physical_read()
    ensures { (sign : Option Bool) (d : ℕ) (ds : List ℕ) (point : Option (List ℕ)) (n : ℕ) →
        AreDigits (d ∷ ds) → AreDigits (unwrap_or point []) →
        IsSpelledAs (spelled sign (d ∷ ds) point n) (d ∷ ds) (unwrap_or point []) }
{}

/// Each number is in the range of a duration or is not, and each in the range is above 0.
pub fn duration_range()
    ensures some { (nanos : ℕ) → IsDurationInRange nanos → 0 < nanos }
    ensures decided { (nanos : ℕ) → IsDurationInRange nanos ⊎ (¬ IsDurationInRange nanos) }
{}

/// A duration field has one value, that of its digits; eight bytes have at most [`MOST_DURATION`].
pub fn duration_value()
    ensures value { (field : List ℕ) (nanos : ℕ) → IsDuration field nanos →
        nanos ≡ duration_of field }
    ensures bound { (field : List ℕ) (nanos : ℕ) → length field ≤ 8 → IsDuration field nanos →
        nanos ≤ MOST_DURATION }
{}

/// A patient identification has no fault, and any other text has one at most.
pub fn one_patient_fault()
    ensures none { (text : List ℕ) (fault : PatientFault) → IsPatient text →
        ¬ IsPatientFault text fault }
    ensures one { (text : List ℕ) (fault other : PatientFault) → IsPatientFault text fault →
        IsPatientFault text other → fault ≡ other }
{}

/// A recording identification has no fault, and any other text has one at most.
pub fn one_recording_fault()
    ensures none { (text : List ℕ) (startdate : Option ℤ) (after : List ℕ)
        (fault : RecordingFault) → IsRecording text startdate after →
        ¬ IsRecordingFault text fault }
    ensures one { (text : List ℕ) (fault other : RecordingFault) → IsRecordingFault text fault →
        IsRecordingFault text other → fault ≡ other }
{}
