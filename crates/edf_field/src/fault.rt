use thiserror::Error;

/// A text is no patient identification, for one of these reasons.
#[derive(Clone, Copy, Debug, PartialEq, Eq, Drop, Error)]
pub enum PatientFault {
    /// The second subfield is no sex.
    #[error("the second subfield of its patient field is no sex (F, M or X)")]
    NoSex,
    /// The second subfield is a sex, and the third no birthdate.
    #[error("the third subfield of its patient field is no birthdate (dd-MMM-yyyy, in capitals, or \
        X)")]
    NoBirthdate,
    /// There are fewer than four subfields, and none of those is wrong.
    #[error("its patient field has fewer than the four subfields code, sex, birthdate and name")]
    Few,
}

/// A text is no recording identification, for one of these reasons.
#[derive(Clone, Copy, Debug, PartialEq, Eq, Drop, Error)]
pub enum RecordingFault {
    /// It does not begin with `Startdate` and a space.
    #[error("its recording field does not begin with Startdate and a space")]
    NoStartdate,
    /// Neither a date nor `X` follows that.
    #[error("after Startdate its recording field has no date (dd-MMM-yyyy, in capitals) and no X")]
    NoDate,
    /// What follows the Startdate subfield is no space and three subfields or more.
    #[error("its recording field has fewer than the three subfields investigation, technician and \
        equipment after its date")]
    Few,
}
