//! The annotations blocks of a data record in the form that a strict reading reads: annotations to
//! the nanosecond and in UTF-8 (EDF+, time-stamped annotations lists).

ghost use Rattle.std.specs.Char.{is_ascii_digit};
ghost use Rattle.std.specs.Prelude.{◌≡◌, ◌↔◌, ◌⊎◌, ◌+◌, ◌^◌, ◌<◌, ◌≤◌, ◌∷◌, ◌++◌, ℕ, List, length};
ghost use Rattle.std.specs.Prelude.{drop, All, true, IfOk, OnOk, IfSome, IsTrue, string_bytes};
ghost use Rattle.std.specs.Prelude.{encode_utf8_all};
ghost use Rattle.edf_tal.specs.Tal.{IsText};
ghost use Rattle.edf_mend.specs.Body.{TimeReadsAs, TimesReadAs, TextReadsAs, PartReadsAs};
ghost use Rattle.edf_mend.specs.Body.{BlockReadsAs};
ghost use Rattle.edf_mend.specs.Changes.{FieldChange, changed};

use crate::changes::{Change, FieldPlace, push_changed};
use std::alloc::{AllocError, Global};
use std::str;

/// The byte after the times of a list, and after each of its texts.
const TEXT_END: u8 = 20;

/// The byte between an onset and a duration.
const DURATION_MARK: u8 = 21;

/// The byte after a list.
const TAL_END: u8 = 0;

/// The place of what differs in annotations: it is in no header.
const ANNOTATIONS: usize = 256;

/// Returns what comes before the first byte that ends a text or a list, that byte, and what follows
/// it.
fn next_token(bytes: &[u8]) -> Option<(&[u8], u8, &[u8])>
    ensures { IfSome result (λ t. IsText t.0.now × ((t.1 ≡ 0) ⊎ (t.1 ≡ 20))
        × (bytes.now ≡ t.0.now ++ t.1 ∷ t.2.now)) }
{
    for (i, b) in bytes.iter().enumerate() {
        if *b == TAL_END || *b == TEXT_END {
            return Some((&bytes[..i], *b, &bytes[i + 1..]));
        }
    }
    None
}

/// Is true where there are only digits.
fn are_digits(text: &[u8]) -> bool
    ensures { IsTrue result ↔ All (λ b. IsTrue (is_ascii_digit b)) text.now }
{
    text.iter().all(|b| b.is_ascii_digit())
}

/// Returns a decimal without its digits past the ninth behind the dot.
fn cut_time(text: &[u8]) -> &[u8]
    ensures { TimeReadsAs text.now result.now }
{
    for (i, b) in text.iter().enumerate() {
        if *b == b'.' {
            if text.len() - i <= 10 {
                return text;
            }
            let (front, finer) = text.split_at(i + 10);
            if are_digits(finer) {
                return front;
            }
            return text;
        }
    }
    text
}

/// Returns what comes before the first byte 21, and what follows it.
fn split_times(text: &[u8]) -> Option<(&[u8], &[u8])>
    ensures { IfSome result (λ sides. text.now ≡ sides.0.now ++ 21 ∷ sides.1.now) }
{
    for (i, b) in text.iter().enumerate() {
        if *b == DURATION_MARK {
            return Some((&text[..i], &text[i + 1..]));
        }
    }
    None
}

/// Adds the times of a list.
fn push_times(out: &mut Vec<u8>, text: &[u8]) -> Result<(), AllocError>
    ensures { OnOk result ((new : List ℕ) × TimesReadAs text.now new
        × (out.new.items ≡ out.old.items ++ new)) }
{
    match split_times(text) {
        None => out.extend_from_slice(cut_time(text))?,
        Some((onset, duration)) => {
            out.extend_from_slice(cut_time(onset))?;
            out.push(DURATION_MARK)?;
            out.extend_from_slice(cut_time(duration))?;
        }
    }
    Ok(())
}

/// Returns a text of Latin-1 in UTF-8.
fn latin_as_utf8(alloc: Global, text: &[u8]) -> Result<String, AllocError>
    ensures { IfOk result (λ letters. string_bytes letters ≡ encode_utf8_all text.now) }
{
    let mut letters = String::new(alloc);
    for b in text {
        letters.push(char::from(*b))?;
    }
    Ok(letters)
}

/// Adds a text: as it is, where it is UTF-8, or else as one of Latin-1.
fn push_text(alloc: Global, out: &mut Vec<u8>, text: &[u8]) -> Result<(), AllocError>
    ensures { OnOk result ((new : List ℕ) × TextReadsAs text.now new
        × (out.new.items ≡ out.old.items ++ new)) }
{
    match str::from_utf8(text) {
        Ok(_) => out.extend_from_slice(text),
        Err(_) => {
            let letters = latin_as_utf8(alloc, text)?;
            out.extend_from_slice(letters.as_bytes())
        }
    }
}

/// Adds the times of a list, or one of its texts.
fn push_part(
    alloc: Global,
    out: &mut Vec<u8>,
    are_times: bool,
    text: &[u8],
) -> Result<(), AllocError>
    ensures { OnOk result ((new : List ℕ) × PartReadsAs are_times text.now new
        × (out.new.items ≡ out.old.items ++ new)) }
{
    if are_times {
        push_times(out, text)
    } else {
        push_text(alloc, out, text)
    }
}

/// Returns the number of bytes before what fills a block: the byte that ends its last list is one
/// of them.
fn front_len(block: &[u8]) -> usize
    ensures within { result ≤ length block.now }
    ensures fill { All (λ b. (b ≡ 0) ⊎ (b ≡ 32)) (drop result block.now) }
{
    let mut end = block.len();
    while end > 0 && (block[end - 1] == TAL_END || block[end - 1] == b' ') {
        end -= 1;
    }
    if end == 0 || end == block.len() {
        return end;
    }
    end + 1
}

/// Adds a part of a list, and what differs of it.
fn push_token(
    alloc: Global,
    out: &mut Vec<u8>,
    changes: &mut Vec<Change>,
    place: FieldPlace,
    are_times: bool,
    text: &[u8],
) -> Result<(), AllocError>
    ensures { OnOk result ((new : List ℕ) × PartReadsAs are_times text.now new
        × (out.new.items ≡ out.old.items ++ new)
        × (changes.new.items ≡ changes.old.items
        ++ changed place.place place.signal place.at text.now new)) }
{
    let mut part = Vec::new(alloc);
    push_part(alloc, &mut part, are_times, text)?;
    out.extend_from_slice(part.as_slice())?;
    push_changed(alloc, changes, place, text, part.as_slice())
}

/// Adds the good form of a block of the nth data record, which begins at this byte of it, and what
/// differs. Returns `false` where it is no lists and what fills it; a prefix of it was added then.
pub(crate) fn push_block(
    alloc: Global,
    out: &mut Vec<u8>,
    changes: &mut Vec<Change>,
    nth: usize,
    at: usize,
    block: &[u8],
) -> Result<bool, AllocError>
    requires { at + length block.now < 2 ^ 64 }
    ensures { IfOk result (λ good. IsTrue good → (new : List ℕ) × (told : List FieldChange)
        × BlockReadsAs nth at block.now new told × (out.new.items ≡ out.old.items ++ new)
        × (changes.new.items ≡ changes.old.items ++ told)) }
{
    let end = front_len(block);
    let mut rest = &block[..end];
    let mut are_times = true;
    while let Some((text, stop, more)) = next_token(rest) {
        let place = FieldPlace {
            place: ANNOTATIONS,
            signal: nth,
            at: at + (end - rest.len()),
        };
        push_token(alloc, out, changes, place, are_times, text)?;
        out.push(stop)?;
        are_times = stop == TAL_END;
        rest = more;
    }
    Ok(rest.is_empty())
}
