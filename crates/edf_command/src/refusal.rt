//! The texts of refusals.

ghost use Rattle.std.specs.Prelude.{◌≡◌, ℕ, ◌++◌, List, IfOk, codes};
ghost use Rattle.edf_command.specs.Refusals.{details, refusal_text};
ghost use Rattle.edf_cli.specs.Text.{IsInstantFormat};

use edf_cli::{concat, fragment_details, spelled};
use edf_fragment::Remark;
use edf_intake::Refusal;
use edf_time::Instant;
use std::alloc::{AllocError, Global};

/// Returns the starts of two data records that overlap.
fn overlap_details(alloc: Global, start: Instant, stored: Instant) -> Result<Vec<u8>, AllocError>
    ensures { IfOk result (λ r. (spell : ℕ → List ℕ) → IsInstantFormat spell →
        r.items ≡ codes " start=" ++ (spell start ++ (codes " stored=" ++ spell stored))) }
{
    let first = spelled(alloc, start)?;
    let second = spelled(alloc, stored)?;
    let parts = [
        b" start=".as_slice(),
        first.as_slice(),
        b" stored=",
        second.as_slice(),
    ];
    concat(alloc, &parts)
}

/// Returns the start of two data records that differ.
fn differs_details(alloc: Global, start: Instant) -> Result<Vec<u8>, AllocError>
    ensures { IfOk result (λ r. (spell : ℕ → List ℕ) → IsInstantFormat spell →
        r.items ≡ codes " start=" ++ spell start) }
{
    let first = spelled(alloc, start)?;
    concat(alloc, &[b" start=".as_slice(), first.as_slice()])
}

/// Returns the values that a refusal names, each after its label.
fn refusal_details(alloc: Global, refusal: &Refusal) -> Result<Vec<u8>, AllocError>
    ensures { IfOk result
        (λ r. (spell : ℕ → List ℕ) → IsInstantFormat spell → r.items ≡ details spell refusal.now) }
{
    match refusal {
        Refusal::Form(fault) => Ok(fragment_details(alloc, fault)?.into_bytes()),
        Refusal::Overlap { start, stored } => overlap_details(alloc, *start, *stored),
        Refusal::Differs { start } => differs_details(alloc, *start),
        Refusal::Full { held, new, cap } => {
            Ok(format!(in alloc; " held={held} new={new} cap={cap}")?.into_bytes())
        }
        _ => Ok(Vec::new(alloc)),
    }
}

/// Returns the remark on a refusal, for a person.
pub(crate) fn remark_of(refusal: &Refusal) -> Remark {
    match refusal {
        Refusal::Form(fault) => Remark::Fault(*fault),
        _ => Remark::Refused(refusal.number()),
    }
}

/// Returns the text of a refusal: `E` and its number, its name, and the details.
///
/// Records and signals count from 1, offsets from 0; instants are written by [`spelled`].
pub fn refusal_text(alloc: Global, refusal: &Refusal) -> Result<Vec<u8>, AllocError>
    ensures { IfOk result
        (λ r. (spell : ℕ → List ℕ) → IsInstantFormat spell →
        r.items ≡ refusal_text spell refusal.now) }
{
    let number = format!(in alloc; "{}", refusal.number())?;
    let details = refusal_details(alloc, refusal)?;
    let parts = [
        b"E".as_slice(),
        number.as_bytes(),
        b" ",
        refusal.name().as_bytes(),
        details.as_slice(),
    ];
    concat(alloc, &parts)
}
