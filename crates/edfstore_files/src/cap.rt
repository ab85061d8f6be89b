//! The greatest number of data records that a recording may have.

ghost use Rattle.std.specs.Prelude.{◌≡◌, ◌≤◌, MatchOption};
ghost use Rattle.edf_header.specs.declared.limits.TheConstants.{MOST_RECORDS};

use edf_header::MOST_RECORDS;
use std::marker::Model;

/// The cap of a recording: from one data record to as many as a file may have. Contracts see it as
/// a number.
#[derive(Clone, Copy, Debug, PartialEq, Eq)]
pub struct Cap {
    records: u32,
}

impl Model for Cap {
    ghost use Rattle.std.specs.Prelude.{ℕ, ◌≤◌};
    ghost use Rattle.edf_header.specs.declared.limits.TheConstants.{MOST_RECORDS};

    ghost Value = { ℕ };

    ghost view = { λ cap. cap.records };

    ghost invariant = { λ cap. (1 ≤ cap.records) × (cap.records ≤ MOST_RECORDS) };

    ghost inverse = { λ n. record { records = n } };
}

impl Cap {
    /// Returns the greatest cap: as many data records as a file may have.
    pub fn most() -> Cap
        ensures { result ≡ MOST_RECORDS }
    {
        Cap {
            records: MOST_RECORDS,
        }
    }

    /// Returns this cap, or `None` where it is 0 or more than a file may have.
    pub fn of(records: u32) -> Option<Cap>
        ensures { MatchOption result (¬ ((1 ≤ records) × (records ≤ MOST_RECORDS)))
            (λ cap. cap ≡ records) }
    {
        if 1 <= records && records <= MOST_RECORDS {
            Some(Cap { records })
        } else {
            None
        }
    }

    pub fn records(self) -> u32
        ensures value { result ≡ self }
        ensures bound { (1 ≤ result) × (result ≤ MOST_RECORDS) }
    {
        self.records
    }
}
