ghost use Rattle.std.specs.Prelude.{◌≡◌, ◌≢◌, ℕ, ◌-◌, ◌*◌, ◌^◌, ◌≤◌, ◌<◌, ◌↔◌, ◌==◌, length};
ghost use Rattle.std.specs.Prelude.{slice_index, MatchOption, IsTrue};
ghost use Rattle.std.specs.Char.{is_ascii_digit};
ghost use Rattle.edf_field.specs.Number.{fraction, after_fraction, IsPhysical, fraction_len};
ghost use Rattle.edf_field.specs.Number.{unscaled, signed, DifferAsNumbers};
ghost use Rattle.edf_field.specs.Nearest.{IsNearest, IsNearestZero};

use crate::number::{are_spaces, read_digits, split_digits, without_sign};

/// A physical value has a sign, the number that all its digits write, and a number of digits after
/// the dot.
#[derive(Clone, Copy)]
struct Physical {
    negative: bool,
    unscaled: u32,
    fraction_len: u32,
    ghost small: { unscaled < 10 ^ 8 },
    ghost few: { fraction_len < 8 },
}

/// Returns the digits after a leading dot, or none where no dot is there, and what follows.
fn split_fraction(text: &[u8]) -> (&[u8], &[u8])
    ensures digits { result.0.now ≡ fraction text.now }
    ensures rest { result.1.now ≡ after_fraction text.now }
    ensures each { (k : ℕ) → k < length result.0.now →
        IsTrue (is_ascii_digit (slice_index result.0.now k)) }
    ensures len { length result.0.now ≤ length text.now - 1 }
{
    match text {
        [b'.', rest @ ..] => split_digits(rest),
        _ => text.split_at(0),
    }
}

/// Reads a field of at most eight bytes as a physical value; `None` where it is none.
fn read_physical(field: &[u8]) -> Option<Physical>
    requires { length field.now ≤ 8 }
    ensures { MatchOption result
        (¬ IsPhysical field.now)
        (λ p. IsPhysical field.now × (p.negative ≡ (slice_index field.now 0 == 45))
        × (p.unscaled ≡ unscaled field.now) × (p.fraction_len ≡ fraction_len field.now)) }
{
    let (whole, rest) = split_digits(without_sign(field));
    let (fraction, rest) = split_fraction(rest);
    if whole.is_empty() || !are_spaces(rest) {
        return None;
    }
    let fraction_len = fraction.len() as u32;
    Some(Physical {
        negative: matches!(field, [b'-', ..]),
        unscaled: read_digits(whole) * 10u32.pow(fraction_len) + read_digits(fraction),
        fraction_len,
    })
}

/// Is true where two values differ: a zero has no sign.
fn differ(a: Physical, b: Physical) -> bool
    ensures { IsTrue result ↔ (signed a.negative (a.unscaled * 10 ^ b.fraction_len)
        ≢ signed b.negative (b.unscaled * 10 ^ a.fraction_len)) }
{
    let a_unscaled = u64::from(a.unscaled) * 10u64.pow(b.fraction_len);
    let b_unscaled = u64::from(b.unscaled) * 10u64.pow(a.fraction_len);
    a_unscaled != b_unscaled || (a.negative != b.negative && a_unscaled != 0)
}

/// Is true where two texts of at most eight bytes are physical values that differ as numbers. Each
/// is a sign or none, one digit or more, maybe a dot and zero or more digits, and then only spaces.
///
/// So a header has each signal's physical minimum and maximum, 8 bytes at 104 and 8 at 112 of its
/// row of 256 (EDF, header record).
pub fn physical_values_differ(minimum: &[u8], maximum: &[u8]) -> bool
    requires minimum { length minimum.now ≤ 8 }
    requires maximum { length maximum.now ≤ 8 }
    ensures { IsTrue result
        ↔ IsPhysical minimum.now × IsPhysical maximum.now
        × DifferAsNumbers minimum.now maximum.now }
{
    match (read_physical(minimum), read_physical(maximum)) {
        (Some(low), Some(high)) => differ(low, high),
        _ => false,
    }
}

/// Returns how far above the first of digital values the one is that stands for the value nearest
/// to 0, where the first stands for `low`, and the last, `steps` above it, for `high`.
fn nearest(low: Physical, high: Physical, steps: u32) -> u32
    requires { signed low.negative (low.unscaled * 10 ^ high.fraction_len)
        ≢ signed high.negative (high.unscaled * 10 ^ low.fraction_len) }
    ensures { IsNearestZero (signed low.negative (low.unscaled * 10 ^ high.fraction_len))
        (signed high.negative (high.unscaled * 10 ^ low.fraction_len)) steps result }
{
    let low_size = u64::from(low.unscaled) * 10u64.pow(high.fraction_len);
    let high_size = u64::from(high.unscaled) * 10u64.pow(low.fraction_len);
    if low.negative == high.negative {
        return if low_size <= high_size { 0 } else { steps };
    }
    let span = u128::from(low_size + high_size);
    let above = 2 * u128::from(low_size) * u128::from(steps) + span - 1;
    (above / (2 * span)) as u32
}

/// Returns how far above the first of digital values the one is that stands for the physical value
/// nearest to 0, or the lesser of two; `None` where [`physical_values_differ`] is false.
///
/// Digital values stand for physical ones by the line through both limits: the first stands for
/// `minimum`, and the last, `steps` above it, for `maximum`. Either of these may be the greater.
pub fn nearest_to_zero(minimum: &[u8], maximum: &[u8], steps: u32) -> Option<u32>
    requires minimum { length minimum.now ≤ 8 }
    requires maximum { length maximum.now ≤ 8 }
    ensures { MatchOption result
        (¬ (IsPhysical minimum.now × IsPhysical maximum.now
        × DifferAsNumbers minimum.now maximum.now))
        (IsNearest minimum.now maximum.now steps) }
{
    let low = read_physical(minimum)?;
    let high = read_physical(maximum)?;
    if !differ(low, high) {
        return None;
    }
    Some(nearest(low, high, steps))
}
