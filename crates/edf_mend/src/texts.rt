//! Texts of fields: what fills them, numbers that stand at the right, and subfields.

ghost use Rattle.std.specs.Prelude.{◌≡◌, ◌+◌, ◌-◌, ◌↔◌, ◌==◌, ◌||◌, ◌++◌, ◌∷◌, ◌<◌, ◌≤◌, ℕ, length};
ghost use Rattle.std.specs.Prelude.{IfOk, OnOk, IsTrue, All, MatchOption};
ghost use Rattle.std.specs.List.{suffix_len};
ghost use Rattle.std.specs.Str.{str_to_ascii_uppercase};
ghost use Rattle.edf_field.specs.Number.{IsNumber};
ghost use Rattle.edf_field.specs.Text.{IsPrintable, IsBirthdate, subfields};
ghost use Rattle.edf_time.specs.Civil.{IsVisible};
ghost use Rattle.edf_mend.specs.Texts.{unfilled, spaced, fitted, numeral, numeral_text};
ghost use Rattle.edf_mend.specs.Texts.{first_subfield, joined_by, IsNoCode};

use edf_field::{next_subfield, read_whole, spaces_len};
use edf_time::id_date;
use std::alloc::{AllocError, Global};

/// Is true where a byte fills a text at its end.
fn is_fill(b: u8) -> bool
    ensures { result ≡ ((b == 0) || (b == 32)) }
{
    b == 0 || b == b' '
}

/// Returns the number of bytes before the zeros and spaces that fill a text.
fn filled_len(text: &[u8]) -> usize
    ensures { result ≡ length text.now - suffix_len (λ b. (b == 0) || (b == 32)) text.now }
{
    let mut end = text.len();
    while end > 0 && is_fill(text[end - 1]) {
        end -= 1;
    }
    end
}

/// Returns a text without what fills it.
pub(crate) fn unfilled(text: &[u8]) -> &[u8]
    ensures { result.now ≡ unfilled text.now }
{
    &text[..filled_len(text)]
}

/// Returns a text without its leading spaces and what fills it.
pub(crate) fn numeral_text(text: &[u8]) -> &[u8]
    ensures { result.now ≡ numeral_text text.now }
{
    let text = unfilled(text);
    let (_, number) = text.split_at(spaces_len(text));
    number
}

/// Is true where two texts are the same.
pub(crate) fn is_same(one: &[u8], other: &[u8]) -> bool
    ensures { IsTrue result ↔ (one.now ≡ other.now) }
{
    one == other
}

/// Writes a text into a field: it is cut, or filled with spaces.
pub(crate) fn fit(field: &mut [u8], text: &[u8])
    ensures { field.new ≡ fitted (length field.old) text.now }
{
    let len = text.len().min(field.len());
    field.fill(b' ');
    field[..len].copy_from_slice(&text[..len]);
}

/// Writes a text into a field of 256 bytes.
pub(crate) fn put(bytes: &mut [u8; 256], at: usize, width: usize, text: &[u8])
    requires { at + width ≤ 256 }
{
    fit(&mut bytes[at..at + width], text);
}

/// Returns a text in a field as wide as another.
pub(crate) fn fitted_as(alloc: Global, field: &[u8], text: &[u8]) -> Result<Vec<u8>, AllocError>
    ensures { IfOk result (λ r. r.items ≡ fitted (length field.now) text.now) }
{
    let mut new = Vec::from_slice(alloc, field)?;
    fit(new.as_mut_slice(), text);
    Ok(new)
}

/// Returns a text in a field of 80 bytes: it is cut, or filled with spaces.
pub(crate) fn fitted_80(text: &[u8]) -> [u8; 80]
    ensures { result ≡ fitted 80 text.now }
{
    let mut field = [0u8; 80];
    fit(&mut field, text);
    field
}

/// Returns a field with spaces for what fills it.
pub(crate) fn spaced(alloc: Global, field: &[u8]) -> Result<Vec<u8>, AllocError>
    ensures { IfOk result (λ r. r.items ≡ spaced field.now) }
{
    fitted_as(alloc, field, unfilled(field))
}

/// Returns a field with its number at the left.
pub(crate) fn numeral(alloc: Global, field: &[u8]) -> Result<Vec<u8>, AllocError>
    ensures { IfOk result (λ r. r.items ≡ numeral field.now) }
{
    fitted_as(alloc, field, numeral_text(field))
}

/// Returns the whole number of a field.
pub(crate) fn number_in(alloc: Global, field: &[u8]) -> Result<Option<u32>, AllocError>
    requires { length field.now ≤ 8 }
    ensures { IfOk result (λ found. MatchOption found
        ((n : ℕ) → ¬ IsNumber (numeral field.now) n) (λ n. IsNumber (numeral field.now) n
        × (n < 100_000_000))) }
{
    let text = numeral(alloc, field)?;
    Ok(read_whole(text.as_slice()))
}

/// Is true where each byte is printable.
pub(crate) fn is_printable(text: &[u8]) -> bool
    ensures { IsTrue result ↔ All IsPrintable text.now }
{
    text.iter().all(|b| 32 <= *b && *b <= 126)
}

/// Is true where each byte is printable and no space.
pub(crate) fn are_visible(text: &[u8]) -> bool
    ensures { IsTrue result ↔ All IsVisible text.now }
{
    text.iter().all(|b| 33 <= *b && *b <= 126)
}

/// Is true where a subfield stands for no code.
pub(crate) fn is_no_code(code: &[u8]) -> bool
    ensures { IsTrue result ↔ IsNoCode code.now }
{
    matches!(code, [b'X' | b'x'])
}

/// Is true where a text is a date, or X.
pub(crate) fn is_date_or_x(text: &[u8]) -> bool
    ensures { IsTrue result ↔ IsBirthdate text.now }
{
    text == b"X".as_slice() || id_date(text).is_some()
}

/// Returns a text with capital letters.
pub(crate) fn in_capitals(alloc: Global, text: &[u8]) -> Result<Vec<u8>, AllocError>
    ensures { IfOk result (λ r. r.items ≡ str_to_ascii_uppercase text.now) }
{
    text.iter().map(|b| b.to_ascii_uppercase()).collect(alloc)
}

/// Returns the first subfield of a text, or nothing where it has none.
pub(crate) fn first_subfield(text: &[u8]) -> &[u8]
    ensures { result.now ≡ first_subfield text.now }
{
    match next_subfield(text) {
        Some((first, _)) => first,
        None => &text[text.len()..],
    }
}

/// Adds a part behind a byte.
pub(crate) fn push_part(text: &mut Vec<u8>, byte: u8, part: &[u8]) -> Result<(), AllocError>
    ensures { OnOk result (text.new.items ≡ text.old.items ++ byte ∷ part.now) }
{
    text.push(byte)?;
    text.extend_from_slice(part)
}

/// Returns the subfields of a text, each behind a byte.
pub(crate) fn joined_by(alloc: Global, byte: u8, text: &[u8]) -> Result<Vec<u8>, AllocError>
    ensures { IfOk result (λ r. r.items ≡ joined_by byte (subfields text.now)) }
{
    let mut joined = Vec::new(alloc);
    let mut left = text;
    while let Some((part, rest)) = next_subfield(left) {
        push_part(&mut joined, byte, part)?;
        left = rest;
    }
    Ok(joined)
}
