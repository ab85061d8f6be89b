ghost use Rattle.std.specs.Prelude.{◌≡◌, ℕ, ◌+◌, ◌-◌, ◌*◌, ◌/◌, ◌%◌, ◌^◌, ◌≤◌, ◌<◌, ◌++◌, length};
ghost use Rattle.std.specs.Prelude.{IfOk, OnOk};
ghost use Rattle.std.specs.Fmt.{decimal};
ghost use Rattle.edf_time.specs.Decimal.{IsShortest, short, fraction_text};

use std::alloc::{AllocError, Global};

/// Returns the shortest decimal of seconds that is worth `nanos` nanoseconds: no zero leads but one
/// before the dot, none trails, and no dot is without a fraction. It has at most 21 bytes.
///
/// So the onsets and durations of annotations are written (EDF+, time-stamped annotations lists).
///
/// # Errors
/// It fails where memory runs out.
pub fn write_seconds(alloc: Global, nanos: u64) -> Result<Vec<u8>, AllocError>
    ensures text { IfOk result (λ v. v.items ≡ short nanos) }
    ensures shortest { IfOk result (λ v. IsShortest v.items nanos) }
{
    let mut text = (nanos / 1_000_000_000).to_string(alloc)?.into_bytes();
    push_fraction(&mut text, nanos % 1_000_000_000)?;
    Ok(text)
}

/// Appends a dot and the decimals of a part of a second, in nanoseconds, where it is not 0.
///
/// # Errors
/// It fails where memory runs out.
pub(crate) fn push_fraction(text: &mut Vec<u8>, mut part: u64) -> Result<(), AllocError>
    requires { part < 10 ^ 9 }
    ensures { OnOk result (text.new.items ≡ text.old.items ++ fraction_text part) }
{
    if part == 0 {
        return Ok(());
    }
    text.push(b'.')?;
    let mut unit = 100_000_000;
    while part > 0 {
        text.push(b'0' + (part / unit) as u8)?;
        part %= unit;
        unit /= 10;
    }
    Ok(())
}

/// Returns the length in bytes of what `write_seconds` writes, 1 to 21.
pub fn seconds_len(nanos: u64) -> usize
    ensures { result ≡ length (short nanos) }
{
    whole_len(nanos / 1_000_000_000) + fraction_len(nanos % 1_000_000_000)
}

/// Returns the number of digits of a whole number.
fn whole_len(mut number: u64) -> usize
    ensures value { result ≡ length (decimal number) }
    ensures bound { result ≤ 20 }
{
    let mut digits = 1;
    while number >= 10 {
        digits += 1;
        number /= 10;
    }
    digits
}

/// Returns the length in bytes of what `push_fraction` appends.
fn fraction_len(mut part: u64) -> usize
    requires { part < 10 ^ 9 }
    ensures value { result ≡ length (fraction_text part) }
    ensures bound { result ≤ 10 }
{
    if part == 0 {
        return 0;
    }
    let mut len = 1;
    let mut unit = 100_000_000;
    while part > 0 {
        len += 1;
        part %= unit;
        unit /= 10;
    }
    len
}
