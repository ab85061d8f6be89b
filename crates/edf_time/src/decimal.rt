ghost use Rattle.std.specs.Prelude.{◌≡◌, ℕ, ◌+◌, ◌-◌, ◌*◌, ◌/◌, ◌^◌, ◌≤◌, ◌<◌, ◌↔◌, List, length};
ghost use Rattle.std.specs.Prelude.{min, slice_index, ◌≢◌, IsTrue, MatchResult, MatchOption};
ghost use Rattle.std.specs.Str.Parse.{IsNumeral, AllDigits, digits_value};
ghost use Rattle.edf_time.specs.Decimal.{IsDecimal, IsFine, IsSeconds, IsDecimalFault};
ghost use Rattle.edf_time.specs.Decimal.{fraction_value};

use thiserror::Error;

/// A text is not read as a decimal of seconds, for one of these reasons.
#[derive(Clone, Copy, Debug, Drop, PartialEq, Eq, Error)]
pub enum DecimalFault {
    /// It is neither digits alone nor digits, a dot and digits.
    #[error("not a decimal of seconds")]
    Syntax,
    /// A digit past the ninth after the dot is not 0.
    #[error("finer than a nanosecond")]
    TooFine,
    /// It is worth more than 9,223,372,036,854,775,807 nanoseconds.
    #[error("more than 9,223,372,036,854,775,807 nanoseconds")]
    TooLarge,
}

/// Is true where the text is one digit or more, and nothing else.
fn are_digits(text: &[u8]) -> bool
    ensures { IsTrue result ↔ IsNumeral 10 text.now }
{
    for b in text {
        if !b.is_ascii_digit() {
            return false;
        }
    }
    !text.is_empty()
}

/// No number of whole seconds that is read is as great as this one.
const MANY: u64 = 1_000_000_000_000_000_000;

/// Returns the number that the digits write, or MANY where it is more.
fn capped_number(text: &[u8]) -> u64
    requires { IsNumeral 10 text.now }
    ensures { result ≡ min (digits_value 10 text.now) MANY }
{
    let mut number = 0;
    for b in text {
        number = (number * 10 + u64::from(*b - b'0')).min(MANY);
    }
    number
}

/// This many digits after the dot count a nanosecond or more.
const DECIMALS: usize = 9;

/// Returns the nanoseconds that the digits after a dot are worth.
fn fraction_nanos(digits: &[u8]) -> Result<u64, DecimalFault>
    requires { AllDigits 10 digits.now }
    ensures { MatchResult result
        (λ n. IsFine digits.now × (n ≡ fraction_value (10 ^ 8) digits.now) × (n < 10 ^ 9))
        (λ e. (e ≡ DecimalFault.TooFine) × ¬ IsFine digits.now) }
{
    let mut nanos = 0;
    let mut unit = 100_000_000;
    for (i, d) in digits.iter().enumerate() {
        if i >= DECIMALS && *d != b'0' {
            return Err(DecimalFault::TooFine);
        }
        nanos += u64::from(*d - b'0') * unit;
        unit /= 10;
    }
    Ok(nanos)
}

/// Returns the index of the first dot, or the length.
fn first_dot(text: &[u8]) -> usize
    ensures within { result ≤ length text.now }
    ensures before { (k : ℕ) → k < result → slice_index text.now k ≢ 46 }
    ensures is_dot { result < length text.now → slice_index text.now result ≡ 46 }
{
    for (i, b) in text.iter().enumerate() {
        if *b == b'.' {
            return i;
        }
    }
    text.len()
}

/// Returns the digits of a decimal before the dot and after it.
fn parts(text: &[u8]) -> Option<(&[u8], &[u8])>
    ensures { MatchOption result
        ((whole fraction : List ℕ) → ¬ IsDecimal text.now whole fraction)
        (λ p. IsDecimal text.now p.0.now p.1.now) }
{
    let (whole, rest) = text.split_at(first_dot(text));
    if !are_digits(whole) {
        return None;
    }
    match rest {
        [] => Some((whole, rest)),
        [_, fraction @ ..] => {
            if !are_digits(fraction) {
                return None;
            }
            Some((whole, fraction))
        }
    }
}

/// Returns the nanoseconds that a decimal of seconds is worth. So the duration of a data record is
/// written (EDF, header record), and the onsets and durations of annotations (EDF+, time-stamped
/// annotations lists).
///
/// A decimal is one or more digits, or such digits, a dot and one or more digits. Zeros may lead,
/// and zeros may follow the ninth digit after the dot.
///
/// # Errors
/// It fails with `Syntax` where the text is no decimal, else `TooFine` where a digit past the ninth
/// after the dot is not 0, else `TooLarge` above 9,223,372,036,854,775,807 nanoseconds.
pub fn read_seconds(text: &[u8]) -> Result<u64, DecimalFault>
    ensures { MatchResult result
        (λ nanos. IsSeconds text.now nanos × (nanos < 2 ^ 63))
        (IsDecimalFault text.now) }
{
    let Some((whole, fraction)) = parts(text) else {
        return Err(DecimalFault::Syntax);
    };
    let nanos = fraction_nanos(fraction)?;
    let seconds = capped_number(whole);
    if seconds > 9_223_372_036 {
        return Err(DecimalFault::TooLarge);
    }
    let total = seconds * 1_000_000_000 + nanos;
    if total >= 1 << 63 {
        return Err(DecimalFault::TooLarge);
    }
    Ok(total)
}
