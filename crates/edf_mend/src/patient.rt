//! The patient that a file names: nobody is guessed.

ghost use Rattle.std.specs.Prelude.{◌≡◌, ◌↔◌, ◌∷◌, ◌++◌, [], ◌<◌, IsTrue, IfOk, OnOk, IfSome};
ghost use Rattle.std.specs.Prelude.{codes, length};
ghost use Rattle.edf_field.specs.Text.{subfields};
ghost use Rattle.edf_mend.specs.Texts.{fitted, spaced, IsNoCode};
ghost use Rattle.edf_mend.specs.Identification.{IsPlain, IsNamed, IsRespelled, KeepsName, GetsCode};
ghost use Rattle.edf_mend.specs.Identification.{IsCodeAlone, KeepsPatient, code_of, names_text};
ghost use Rattle.edf_mend.specs.Identification.{one_subfield, StaysNamed, KeepsCode};
ghost use Rattle.edf_mend.specs.Identification.{StandsBehindCode};

use crate::fault::MendFault;
use crate::letters::spelling;
use crate::texts::{
    are_visible, first_subfield, fitted_80, in_capitals, is_no_code, is_printable, joined_by,
    push_part, spaced, unfilled,
};
use crate::wanted::Who;
use edf_field::{is_patient, next_subfield};
use std::alloc::{AllocError, Global};

/// Is true where a field is a patient identification as it stands, but for zeros that fill it.
fn is_plain(alloc: Global, field: &[u8]) -> Result<bool, AllocError>
    ensures { IfOk result (λ r. IsTrue r ↔ IsPlain field.now) }
{
    let text = spaced(alloc, field)?;
    Ok(is_printable(text.as_slice()) && is_patient(text.as_slice()))
}

/// Returns the first three subfields of a text, and what follows them.
fn three_of(text: &[u8]) -> Option<(&[u8], &[u8], &[u8], &[u8])>
    ensures { IfSome result (λ found. subfields text.now
        ≡ found.0.now ∷ found.1.now ∷ found.2.now ∷ subfields found.3.now) }
{
    let (first, rest) = next_subfield(text)?;
    let (second, rest) = next_subfield(rest)?;
    let (third, rest) = next_subfield(rest)?;
    Some((first, second, third, rest))
}

/// Is true where a field names somebody.
fn is_named(alloc: Global, field: &[u8]) -> Result<bool, AllocError>
    ensures { IfOk result (λ r. IsTrue r ↔ IsNamed field.now) }
{
    let text = spaced(alloc, field)?;
    let capitals = in_capitals(alloc, text.as_slice())?;
    Ok(are_visible(first_subfield(text.as_slice())) && is_patient(capitals.as_slice()))
}

/// Returns three subfields, and what follows them.
fn parts_text(
    alloc: Global,
    code: &[u8],
    sex: &[u8],
    birthdate: &[u8],
    rest: &[u8],
) -> Result<Vec<u8>, AllocError>
    ensures { IfOk result (λ text. text.items
        ≡ code.now ++ (32 ∷ (sex.now ++ (32 ∷ (birthdate.now ++ rest.now))))) }
{
    let mut text = Vec::from_slice(alloc, code)?;
    push_part(&mut text, b' ', sex)?;
    push_part(&mut text, b' ', birthdate)?;
    text.extend_from_slice(rest)?;
    Ok(text)
}

/// Returns the names behind a birthdate in ASCII, or X where these are blanks alone.
fn names_text(alloc: Global, rest: &[u8]) -> Result<Vec<u8>, AllocError>
    ensures { IfOk result (λ r. r.items ≡ names_text (subfields rest.now)) }
{
    let names = joined_by(alloc, b' ', rest)?;
    let names = spelling(alloc, names.as_slice())?;
    if next_subfield(names.as_slice()).is_none() {
        return Vec::from_slice(alloc, b" X".as_slice());
    }
    Ok(names)
}

/// Returns a field with this code, sex and birthdate in capitals, and the rest in ASCII; `None`
/// where it has no more than two subfields.
fn respelled(alloc: Global, code: &[u8], field: &[u8]) -> Result<Option<[u8; 80]>, MendFault>
    ensures { IfOk result (λ found. IfSome found (IsRespelled code.now field.now)) }
{
    let spaced_text = spaced(alloc, field)?;
    let Some((_, sex, birthdate, rest)) = three_of(spaced_text.as_slice()) else {
        return Ok(None);
    };
    let sex = in_capitals(alloc, sex)?;
    let birthdate = in_capitals(alloc, birthdate)?;
    let names = names_text(alloc, rest)?;
    let text = parts_text(
        alloc,
        code,
        sex.as_slice(),
        birthdate.as_slice(),
        names.as_slice(),
    )?;
    if text.len() > 80 {
        return Err(MendFault::Patient);
    }
    Ok(Some(fitted_80(text.as_slice())))
}

/// Returns the code of a field.
fn code_of(alloc: Global, field: &[u8]) -> Result<Vec<u8>, AllocError>
    ensures { IfOk result (λ r. r.items ≡ code_of field.now) }
{
    let text = spaced(alloc, field)?;
    Vec::from_slice(alloc, first_subfield(text.as_slice()))
}

/// Returns a field that is no patient identification as it stands, with its own code.
fn renamed(alloc: Global, old: &[u8]) -> Result<Option<[u8; 80]>, MendFault>
    requires { ¬ IsPlain old.now }
    ensures { IfOk result (λ found. IfSome found (StaysNamed old.now)) }
{
    let code = code_of(alloc, old)?;
    if is_no_code(code.as_slice()) {
        return Ok(None);
    }
    if !is_named(alloc, old)? {
        return Ok(None);
    }
    let Some(field) = respelled(alloc, code.as_slice(), old)? else {
        return Ok(None);
    };
    if first_subfield(&field) != code.as_slice() {
        return Ok(None);
    }
    Ok(Some(field))
}

/// Returns the field as it names its patient itself, if it does.
fn own_patient(alloc: Global, old: &[u8]) -> Result<Option<[u8; 80]>, MendFault>
    requires { length old.now ≡ 80 }
    ensures { IfOk result (λ found. IfSome found (KeepsName old.now)) }
{
    if is_plain(alloc, old)? {
        return Ok(Some(fitted_80(unfilled(old))));
    }
    renamed(alloc, old)
}

/// Returns all that a field says as one subfield.
fn one_subfield(alloc: Global, old: &[u8]) -> Result<Vec<u8>, AllocError>
    ensures { IfOk result (λ r. r.items ≡ one_subfield old.now) }
{
    let text = spaced(alloc, old)?;
    let text = spelling(alloc, text.as_slice())?;
    if next_subfield(text.as_slice()).is_none() {
        return Vec::from_slice(alloc, b"X".as_slice());
    }
    let joined = joined_by(alloc, b'_', text.as_slice())?;
    match joined.as_slice() {
        [_, rest @ ..] => Vec::from_slice(alloc, rest),
        [] => Ok(joined),
    }
}

/// Returns a field with a code, X and X, and a text.
fn coded(alloc: Global, code: &[u8], text: &[u8]) -> Result<[u8; 80], AllocError>
    ensures { IfOk result (λ r. r ≡ fitted 80 (code.now ++ (codes " X X " ++ text.now))) }
{
    let mut made = Vec::from_slice(alloc, code)?;
    made.extend_from_slice(b" X X ".as_slice())?;
    made.extend_from_slice(text)?;
    Ok(fitted_80(made.as_slice()))
}

/// Returns a code that was given and what a field says.
fn behind_code(alloc: Global, code: &[u8], old: &[u8]) -> Result<[u8; 80], MendFault>
    ensures { IfOk result (StandsBehindCode code.now old.now) }
{
    if is_named(alloc, old)? {
        return match respelled(alloc, code, old)? {
            Some(field) => Ok(field),
            None => Err(MendFault::Code),
        };
    }
    let text = one_subfield(alloc, old)?;
    Ok(coded(alloc, code, text.as_slice())?)
}

/// Returns a field with a code that was given.
fn given_patient(alloc: Global, code: &[u8], old: &[u8]) -> Result<[u8; 80], MendFault>
    ensures { IfOk result (GetsCode code.now old.now) }
{
    let field = behind_code(alloc, code, old)?;
    if first_subfield(&field) != code {
        return Err(MendFault::Check);
    }
    Ok(field)
}

/// Returns a field that names somebody by this code, as it names its patient itself.
fn same_patient(alloc: Global, code: &[u8], old: &[u8]) -> Result<Option<[u8; 80]>, MendFault>
    requires { length old.now ≡ 80 }
    ensures { IfOk result (λ found. IfSome found (KeepsCode code.now old.now)) }
{
    let own = code_of(alloc, old)?;
    if own.as_slice() != code {
        return Ok(None);
    }
    own_patient(alloc, old)
}

/// Refuses a code beside another that a field has.
fn check_unused(alloc: Global, old: &[u8]) -> Result<(), MendFault>
    ensures { OnOk result (IsNamed old.now → IsNoCode (code_of old.now)) }
{
    let own = code_of(alloc, old)?;
    if is_no_code(own.as_slice()) {
        return Ok(());
    }
    if is_named(alloc, old)? {
        return Err(MendFault::Unused { own });
    }
    Ok(())
}

/// Refuses a code of a field that names somebody by it.
fn check_other(alloc: Global, code: &[u8], old: &[u8]) -> Result<(), MendFault>
    ensures { OnOk result (¬ (IsNamed old.now × (code_of old.now ≡ code.now))) }
{
    let own = code_of(alloc, old)?;
    if own.as_slice() != code {
        return Ok(());
    }
    if is_named(alloc, old)? {
        return Err(MendFault::Code);
    }
    Ok(())
}

/// Returns the field with a code alone.
fn code_alone(alloc: Global, code: &[u8]) -> Result<[u8; 80], MendFault>
    ensures { IfOk result (IsCodeAlone code.now) }
{
    let field = coded(alloc, code, b"X".as_slice())?;
    if first_subfield(&field) != code {
        return Err(MendFault::Check);
    }
    Ok(field)
}

/// Returns the good form of a patient field.
pub(crate) fn good_patient(alloc: Global, who: &Who, old: &[u8]) -> Result<[u8; 80], MendFault>
    requires { length old.now ≡ 80 }
    ensures { IfOk result (KeepsPatient who.now old.now) }
{
    match who {
        Who::AsNamed => match own_patient(alloc, old)? {
            Some(field) => Ok(field),
            None => Err(MendFault::Code),
        },
        Who::Given(code) => {
            if let Some(field) = same_patient(alloc, code.as_bytes(), old)? {
                return Ok(field);
            }
            check_unused(alloc, old)?;
            Ok(given_patient(alloc, code.as_bytes(), old)?)
        }
        Who::Replaced(code) => {
            if let Some(field) = same_patient(alloc, code.as_bytes(), old)? {
                return Ok(field);
            }
            check_other(alloc, code.as_bytes(), old)?;
            Ok(given_patient(alloc, code.as_bytes(), old)?)
        }
        Who::Hidden(code) => Ok(code_alone(alloc, code.as_bytes())?),
    }
}
