//! Numbers of eight bytes, in any spelling.

ghost use Rattle.std.specs.Prelude.{◌≡◌, ◌↔◌, ◌≤◌, ◌+◌, ◌++◌, length, IsTrue, IfOk, IfSome};
ghost use Rattle.edf_field.specs.Number.{IsNumber, IsPhysical};
ghost use Rattle.edf_mend.specs.Texts.{numeral, numeral_text};
ghost use Rattle.edf_mend.specs.Signal.{part, after_part, IsExponent, IsMoved, IsClear, IsDecimal};
ghost use Rattle.edf_mend.specs.Signal.{IsMultiple, IsOneNumber, KeepsNumber};

use crate::texts::{fit, numeral, numeral_text};
use edf_field::{physical_values_differ, read_whole, split_digits, without_sign};
use std::alloc::{AllocError, Global};

/// A number: that of its digits, divided by ten so many times.
#[derive(Clone, Copy)]
pub(crate) struct Decimal {
    pub(crate) negative: bool,
    pub(crate) digits: u32,
    pub(crate) places: u32,
}

/// Returns the digits behind a leading dot or comma, or none, and what follows.
fn split_part(text: &[u8]) -> (&[u8], &[u8])
    ensures part { result.0.now ≡ part text.now }
    ensures rest { result.1.now ≡ after_part text.now }
    ensures len { length result.0.now + length result.1.now ≤ length text.now }
{
    match text {
        [b'.' | b',', rest @ ..] => split_digits(rest),
        _ => text.split_at(0),
    }
}

/// Returns whether an exponent is negative, and its size, which is 0 where there is none.
fn exponent_in(text: &[u8]) -> Option<(bool, u32)>
    requires { length text.now ≤ 8 }
    ensures { IfSome result (λ found. IsExponent text.now found.0 found.1) }
{
    match text {
        [] => Some((false, 0)),
        [b'e' | b'E', rest @ ..] => {
            let size = read_whole(without_sign(rest))?;
            Some((rest.starts_with(b"-".as_slice()), size))
        }
        _ => None,
    }
}

/// Returns how many places a point moves to the left: 99 more than it does.
fn moved(minus: bool, size: u32, len: usize) -> Option<u32>
    requires { len ≤ 8 }
    ensures { IfSome result (λ places. IsMoved minus size places len) }
{
    if size > 99 {
        return None;
    }
    let places = len as u32 + 99;
    if minus {
        Some(places + size)
    } else {
        Some(places - size)
    }
}

/// Returns the whole number of two texts, one behind the other.
fn joined(alloc: Global, front: &[u8], back: &[u8]) -> Result<Option<u32>, AllocError>
    requires { length front.now + length back.now ≤ 8 }
    ensures { IfOk result (λ found. IfSome found (λ n. IsNumber (front.now ++ back.now) n)) }
{
    let mut text = Vec::from_slice(alloc, front)?;
    text.extend_from_slice(back)?;
    Ok(read_whole(text.as_slice()))
}

/// Is true where the number of a field has no comma that might part thousands.
pub(crate) fn is_clear(field: &[u8]) -> bool
    ensures { IsTrue result → IsClear field.now }
{
    let (whole, rest) = split_digits(without_sign(numeral_text(field)));
    if !rest.starts_with(b",".as_slice()) {
        return true;
    }
    let (part, _) = split_part(rest);
    part.len() != 3 || whole.is_empty() || whole.len() >= 4 || whole == b"0".as_slice()
}

/// Returns the number that a field spells.
pub(crate) fn decimal_in(alloc: Global, field: &[u8]) -> Result<Option<Decimal>, AllocError>
    requires { length field.now ≤ 8 }
    ensures { IfOk result (λ found. IfSome found
        (λ d. IsDecimal (numeral_text field.now) d.negative d.digits d.places)) }
{
    let text = numeral_text(field);
    let (whole, rest) = split_digits(without_sign(text));
    let (part, rest) = split_part(rest);
    let Some((minus, size)) = exponent_in(rest) else {
        return Ok(None);
    };
    let Some(places) = moved(minus, size, part.len()) else {
        return Ok(None);
    };
    let Some(digits) = joined(alloc, whole, part)? else {
        return Ok(None);
    };
    Ok(Some(Decimal {
        negative: text.starts_with(b"-".as_slice()),
        digits,
        places,
    }))
}

/// Is true where one is the other times ten, some times.
fn is_multiple(n: u32, from: u32, m: u32, to: u32) -> bool
    ensures { IsTrue result → IsMultiple n from m to }
{
    if to < from || to - from > 9 {
        return false;
    }
    u64::from(n) * 10u64.pow(to - from) == u64::from(m)
}

/// Is true where two fields spell one number.
pub(crate) fn is_one_number(alloc: Global, a: &[u8], b: &[u8]) -> Result<bool, AllocError>
    requires one { length a.now ≤ 8 }
    requires other { length b.now ≤ 8 }
    ensures { IfOk result (λ ok. IsTrue ok → IsOneNumber a.now b.now) }
{
    let Some(one) = decimal_in(alloc, a)? else {
        return Ok(false);
    };
    let Some(two) = decimal_in(alloc, b)? else {
        return Ok(false);
    };
    if one.negative != two.negative && one.digits != 0 {
        return Ok(false);
    }
    Ok(
        is_multiple(one.digits, one.places, two.digits, two.places)
            || is_multiple(two.digits, two.places, one.digits, one.places),
    )
}

/// Is true where a field has the number of another, at its left.
pub(crate) fn is_numeral(alloc: Global, old: &[u8], new: &[u8]) -> Result<bool, AllocError>
    ensures { IfOk result (λ ok. IsTrue ok → new.now ≡ numeral old.now) }
{
    let made = numeral(alloc, old)?;
    Ok(new == made.as_slice())
}

/// Is true where a field is a physical value.
fn is_physical(field: &[u8]) -> bool
    requires { length field.now ≤ 8 }
    ensures { IsTrue result ↔ IsPhysical field.now }
{
    physical_values_differ(field, b"0".as_slice()) || physical_values_differ(field, b"1".as_slice())
}

/// Is true where a number stays: as it stands where it is a physical value, and otherwise in
/// another spelling.
pub(crate) fn keeps_number(alloc: Global, old: &[u8], new: &[u8]) -> Result<bool, AllocError>
    requires old { length old.now ≤ 8 }
    requires new { length new.now ≤ 8 }
    ensures { IfOk result (λ ok. IsTrue ok → KeepsNumber old.now new.now) }
{
    let text = numeral(alloc, old)?;
    if is_physical(text.as_slice()) {
        return Ok(new == text.as_slice());
    }
    if !is_clear(old) {
        return Ok(false);
    }
    Ok(is_one_number(alloc, old, new)?)
}

/// Returns a number as a text: its sign and its digits, so many of them behind a dot.
fn number_text(
    alloc: Global,
    negative: bool,
    number: u64,
    behind: usize,
) -> Result<Vec<u8>, AllocError> {
    let mut text = Vec::new(alloc);
    if negative {
        text.push(b'-')?;
    }
    let digits = number.to_string(alloc)?;
    let zeros = behind.saturating_add(1).saturating_sub(digits.len());
    let mut padded = vec![in alloc; b'0'; zeros]?;
    padded.extend_from_slice(digits.as_bytes())?;
    let padded = padded.as_slice();
    let (whole, part) = padded.split_at(padded.len().saturating_sub(behind));
    text.extend_from_slice(whole)?;
    if !part.is_empty() {
        text.push(b'.')?;
        text.extend_from_slice(part)?;
    }
    Ok(text)
}

/// Returns a number in eight bytes, if it has room there: zeros at its end go where it would be
/// longer.
fn spelled_number(alloc: Global, found: Decimal) -> Result<Option<[u8; 8]>, AllocError> {
    let mut number = u64::from(found.digits);
    for _ in found.places..99 {
        number = number.saturating_mul(10);
    }
    let mut behind = found.places.saturating_sub(99) as usize;
    for _ in 0..9 {
        let text = number_text(alloc, found.negative, number, behind)?;
        if text.len() <= 8 {
            let mut field = [b' '; 8];
            fit(&mut field, text.as_slice());
            return Ok(Some(field));
        }
        if behind == 0 || number % 10 != 0 {
            return Ok(None);
        }
        number /= 10;
        behind -= 1;
    }
    Ok(None)
}

/// Returns a field of eight bytes with its number at the left.
pub(crate) fn number_at(field: &[u8]) -> [u8; 8] {
    let mut made = [b' '; 8];
    fit(&mut made, numeral_text(field));
    made
}

/// Returns the good form of a limit, if it has one: it is checked where it is used.
pub(crate) fn good_limit(alloc: Global, old: &[u8; 8]) -> Result<Option<[u8; 8]>, AllocError> {
    let field = number_at(old);
    if is_physical(&field) {
        return Ok(Some(field));
    }
    if !is_clear(old) {
        return Ok(None);
    }
    match decimal_in(alloc, old)? {
        Some(found) => spelled_number(alloc, found),
        None => Ok(None),
    }
}
