ghost use Rattle.std.specs.Prelude.{◌≡◌, ℕ, ◌+◌, ◌^◌, ◌≤◌, ◌<◌, ◌↔◌, length, slice_index};
ghost use Rattle.std.specs.Prelude.{MatchOption, IsTrue};
ghost use Rattle.std.specs.Char.{is_ascii_digit};
ghost use Rattle.std.specs.Str.Parse.{digits_value};
ghost use Rattle.edf_field.specs.Number.{AreSpaces, digits_len, digits, after_digits, IsWhole};
ghost use Rattle.edf_field.specs.Number.{whole_value, unsigned, IsSigned, signed_value, IsDuration};

use crate::identification::unpadded_len;
use edf_time::read_seconds;

/// No duration of a data record has more nanoseconds: eight bytes write less than 100,000,000 s.
pub const MOST_DURATION: u64 = 100_000_000_000_000_000;

/// Returns the index of the first byte that is no digit, or the length.
fn digits_end(text: &[u8]) -> usize
    ensures { result ≡ digits_len text.now }
{
    for (i, b) in text.iter().enumerate() {
        if !b.is_ascii_digit() {
            return i;
        }
    }
    text.len()
}

/// Returns the number that at most eight digits write.
pub(crate) fn read_digits(text: &[u8]) -> u32
    requires digits { (k : ℕ) → k < length text.now →
        IsTrue (is_ascii_digit (slice_index text.now k)) }
    requires short { length text.now ≤ 8 }
    ensures value { result ≡ digits_value 10 text.now }
    ensures bound { result < 10 ^ length text.now }
    ensures small { result < 100_000_000 }
{
    let mut number = 0;
    for d in text {
        number = number * 10 + u32::from(*d - b'0');
    }
    number
}

/// Is true where there are only spaces, which fill a field after its text (EDF, header record).
pub fn are_spaces(text: &[u8]) -> bool
    ensures { IsTrue result ↔ AreSpaces text.now }
{
    text.iter().all(|b| *b == b' ')
}

/// Returns the text without its leading sign, or all of it where it has none.
pub fn without_sign(text: &[u8]) -> &[u8]
    ensures value { result.now ≡ unsigned text.now }
    ensures len { length result.now ≤ length text.now }
{
    match text {
        [b'+' | b'-', rest @ ..] => rest,
        _ => text,
    }
}

/// Returns the leading digits, and what follows them.
pub fn split_digits(text: &[u8]) -> (&[u8], &[u8])
    ensures digits { result.0.now ≡ digits text.now }
    ensures rest { result.1.now ≡ after_digits text.now }
    ensures each { (k : ℕ) → k < length result.0.now →
        IsTrue (is_ascii_digit (slice_index result.0.now k)) }
    ensures len { length result.0.now + length result.1.now ≡ length text.now }
{
    text.split_at(digits_end(text))
}

/// Reads a field of at most eight bytes as a whole number, at most 99,999,999: one digit or more,
/// leading zeros allowed, and then only spaces. Any other text gives `None`.
///
/// So a header has its own length, bytes 184 to 191; the data records, 236 to 243; the signals, 252
/// to 255; and each signal's samples per data record, 8 bytes at 216 of its row of 256 (EDF, header
/// record).
pub fn read_whole(field: &[u8]) -> Option<u32>
    requires { length field.now ≤ 8 }
    ensures { MatchOption result (¬ IsWhole field.now)
        (λ n. IsWhole field.now × (n ≡ whole_value field.now) × (n < 100_000_000)) }
{
    let (digits, rest) = split_digits(field);
    if digits.is_empty() || !are_spaces(rest) {
        return None;
    }
    Some(read_digits(digits))
}

/// Reads a field of at most eight bytes as a whole number after a sign or none, and then only
/// spaces. Any other text gives `None`.
///
/// So a header has each signal's digital minimum and maximum, 8 bytes at 120 and 8 at 128 of its
/// row of 256 (EDF, header record).
pub fn read_signed(field: &[u8]) -> Option<i32>
    requires { length field.now ≤ 8 }
    ensures { MatchOption result (¬ IsSigned field.now)
        (λ z. IsSigned field.now × (z ≡ signed_value field.now)) }
{
    let size = read_whole(without_sign(field))? as i32;
    if let [b'-', ..] = field {
        return Some(-size);
    }
    Some(size)
}

/// Reads a field of at most eight bytes as the duration of a data record, in nanoseconds: a decimal
/// of seconds above 0, and then only spaces. Any other text gives `None`, and so does 0.
///
/// A header has it in bytes 244 to 251 (EDF, header record).
pub fn read_duration(field: &[u8]) -> Option<u64>
    requires { length field.now ≤ 8 }
    ensures { MatchOption result ((n : ℕ) → ¬ IsDuration field.now n) (IsDuration field.now) }
{
    let (seconds, rest) = field.split_at(unpadded_len(field));
    if !are_spaces(rest) {
        return None;
    }
    match read_seconds(seconds) {
        Ok(nanos) if nanos > 0 => Some(nanos),
        Ok(_) => None,
        Err(_) => None,
    }
}
