//! What a person says of a file.

use crate::texts::{are_visible, is_no_code};
use std::alloc::{AllocError, Global};
use std::marker::Model;

/// A code of a patient: 1 to 60 printable characters of ASCII without a space, and not X.
#[derive(Debug, Drop)]
pub struct Code {
    text: Vec<u8>,
}

impl Model for Code {
    ghost use Rattle.std.specs.Prelude.{ℕ, List};
    ghost use Rattle.edf_mend.specs.Texts.{IsCode};

    ghost Value = { List ℕ };

    ghost view = { λ code. code.text.items };

    ghost invariant = { λ code. IsCode code.text.items };
}

impl Code {
    ghost use Rattle.std.specs.Prelude.{◌≡◌, IfOk, MatchOption};
    ghost use Rattle.edf_mend.specs.Texts.{IsCode};

    /// Returns the code that a text is, if it can be one.
    pub fn new(alloc: Global, text: &[u8]) -> Result<Option<Code>, AllocError>
        ensures { IfOk result (λ found. MatchOption found (¬ IsCode text.now)
            (λ code. code ≡ text.now)) }
    {
        if text.is_empty() || text.len() > 60 {
            return Ok(None);
        }
        if is_no_code(text) {
            return Ok(None);
        }
        if !are_visible(text) {
            return Ok(None);
        }
        let text = Vec::from_slice(alloc, text)?;
        Ok(Some(Code { text }))
    }

    /// Returns its bytes.
    pub fn as_bytes(&self) -> &[u8]
        ensures text { result.now ≡ self.now }
        ensures code { IsCode self.now }
    {
        self.text.as_slice()
    }
}

/// The patient of a file.
#[derive(Debug, Drop)]
pub enum Who {
    /// The one that its patient field names.
    AsNamed,
    /// This code, where the file names nobody.
    Given(Code),
    /// This code, whatever the file names.
    Replaced(Code),
    /// This code in place of all that the file says of its patient.
    Hidden(Code),
}

/// What a person says of a file.
#[derive(Debug, Drop)]
pub struct Wanted {
    /// The patient.
    pub who: Who,
    /// The startdate of a file that has none.
    pub startdate: Option<[u8; 8]>,
    /// The starttime of a file that has none.
    pub starttime: Option<[u8; 8]>,
    /// All whole data records that are there are of this recording.
    pub all: bool,
}

impl Wanted {
    ghost use Rattle.std.specs.Prelude.{◌↔◌, IsTrue};
    ghost use Rattle.edf_mend.specs.Mends.{AsksNothing};

    /// Is true where nothing is said.
    pub fn asks_nothing(&self) -> bool
        ensures { IsTrue result ↔ AsksNothing self.now }
    {
        if self.all || self.startdate.is_some() || self.starttime.is_some() {
            return false;
        }
        matches!(self.who, Who::AsNamed)
    }
}
