//! Letters that ASCII lacks: what it has in their place in texts, and in physical dimensions.

ghost use Rattle.std.specs.Prelude.{◌≡◌, ◌++◌, IfOk, OnOk, map, if◌then◌else◌};
ghost use Rattle.std.specs.Str.{chars, is_utf8};
ghost use Rattle.edf_mend.specs.Texts.{by_rows, letters, letter_row, spelled_by, spelling};

use std::alloc::{AllocError, Global};
use std::str;

/// The characters from one code to another become a text, by the first row that has them. Control
/// bytes and the no-break space; signs of units; letters of Latin-1, Ä Ö Ü ä ö ü ß Æ æ Å å Ø ø
/// before the ranges in which they lie.
pub(crate) const TEXT_ROWS: [(u32, u32, &[u8]); 42] = [
    (0, 31, b" "),
    (127, 127, b" "),
    (160, 160, b" "),
    (181, 181, b"u"),
    (956, 956, b"u"),
    (176, 176, b"deg"),
    (186, 186, b"deg"),
    (937, 937, b"Ohm"),
    (8486, 8486, b"Ohm"),
    (178, 178, b"2"),
    (179, 179, b"3"),
    (177, 177, b"+-"),
    (196, 196, b"Ae"),
    (228, 228, b"ae"),
    (214, 214, b"Oe"),
    (246, 246, b"oe"),
    (220, 220, b"Ue"),
    (252, 252, b"ue"),
    (223, 223, b"ss"),
    (198, 198, b"AE"),
    (230, 230, b"ae"),
    (197, 197, b"Aa"),
    (229, 229, b"aa"),
    (216, 216, b"Oe"),
    (248, 248, b"oe"),
    (192, 195, b"A"),
    (224, 227, b"a"),
    (199, 199, b"C"),
    (231, 231, b"c"),
    (200, 203, b"E"),
    (232, 235, b"e"),
    (204, 207, b"I"),
    (236, 239, b"i"),
    (209, 209, b"N"),
    (241, 241, b"n"),
    (210, 213, b"O"),
    (242, 245, b"o"),
    (217, 219, b"U"),
    (249, 251, b"u"),
    (221, 221, b"Y"),
    (253, 253, b"y"),
    (255, 255, b"y"),
];

/// The same in a dimension: the micro sign, the Greek letter, and æ, which the micro sign of DOS is
/// in Latin-1; degree signs; ohm signs; small 2 and 3. A dimension decides the scale, so no other is
/// guessed: 236 is a mu in Greek pages, and milli in Cyrillic ones. For what it becomes there is no
/// room.
pub(crate) const DIMENSION_ROWS: [(u32, u32, &[u8]); 10] = [
    (181, 181, b"u"),
    (956, 956, b"u"),
    (230, 230, b"u"),
    (176, 176, b"deg"),
    (186, 186, b"deg"),
    (937, 937, b"Ohm"),
    (8486, 8486, b"Ohm"),
    (178, 178, b"2"),
    (179, 179, b"3"),
    (0, 1_114_111, b"no reading"),
];

/// Returns what ASCII has in place of a character, by these rows.
fn by_rows(rows: &[(u32, u32, &'static [u8])], code: u32) -> &'static [u8]
    ensures { result.now ≡ by_rows (map letter_row rows.now) code }
{
    let mut left = rows;
    while let [row, rest @ ..] = left {
        if row.0 <= code && code <= row.1 {
            return row.2;
        }
        left = rest;
    }
    b"?".as_slice()
}

/// Adds a character as ASCII has it.
fn push_letters(
    text: &mut Vec<u8>,
    rows: &[(u32, u32, &'static [u8])],
    code: u32,
) -> Result<(), AllocError>
    ensures { OnOk result
        (text.new.items ≡ text.old.items ++ letters (map letter_row rows.now) code) }
{
    if 32 <= code && code <= 126 {
        text.push(code as u8)?;
        return Ok(());
    }
    text.extend_from_slice(by_rows(rows, code))
}

/// Returns the codes of the characters of a text of UTF-8.
fn codes_of(alloc: Global, text: &str) -> Result<Vec<u32>, AllocError>
    ensures { IfOk result (λ r. r.items ≡ chars text.now) }
{
    text.chars().map(|letter| letter as u32).collect(alloc)
}

/// Returns the bytes of a text as codes.
fn codes_of_bytes(alloc: Global, text: &[u8]) -> Result<Vec<u32>, AllocError>
    ensures { IfOk result (λ r. r.items ≡ text.now) }
{
    text.iter().map(|b| u32::from(*b)).collect(alloc)
}

/// Returns the codes of the characters of a text: those of its UTF-8 or, where it is none, its
/// bytes.
fn characters(alloc: Global, text: &[u8]) -> Result<Vec<u32>, AllocError>
    ensures { IfOk result (λ r. r.items ≡ (if is_utf8 text.now then chars text.now else text.now)) }
{
    match str::from_utf8(text) {
        Ok(letters) => codes_of(alloc, letters),
        Err(_) => codes_of_bytes(alloc, text),
    }
}

/// Returns a text as ASCII has it by these rows, in any length.
pub(crate) fn spelled_by(
    alloc: Global,
    rows: &[(u32, u32, &'static [u8])],
    text: &[u8],
) -> Result<Vec<u8>, AllocError>
    ensures { IfOk result (λ r. r.items ≡ spelled_by (map letter_row rows.now) text.now) }
{
    let mut spelled = Vec::new(alloc);
    for code in characters(alloc, text)?.as_slice() {
        push_letters(&mut spelled, rows, *code)?;
    }
    Ok(spelled)
}

/// Returns a text as ASCII has it, in any length.
pub(crate) fn spelling(alloc: Global, text: &[u8]) -> Result<Vec<u8>, AllocError>
    ensures { IfOk result (λ r. r.items ≡ spelling text.now) }
{
    spelled_by(alloc, &TEXT_ROWS, text)
}
