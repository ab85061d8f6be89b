ghost use Rattle.std.specs.Prelude.{◌≡◌, ℕ, ◌+◌, ◌<◌, ◌↔◌, ◌∷◌, ◌++◌, ℤ};
ghost use Rattle.std.specs.Prelude.{Option, MatchOption, MatchResult, IsTrue, IsUtf8};
ghost use Rattle.edf_time.specs.Decimal.{IsSeconds};
ghost use Rattle.edf_tal.specs.Tal.{Tal};
ghost use Rattle.edf_tal.specs.Inside.Scan.{Lacks, NoTal, capped, IsSecondsAndDuration};
ghost use Rattle.edf_tal.specs.Inside.Scan.{IsOnsetAndDuration, IsCappedOnset, IsCappedDuration};
ghost use Rattle.edf_tal.specs.Inside.Scan.{IsEmptyOrEndsWith20, IsLeadingTal, HasNonUtf8TextAmong};
ghost use Rattle.edf_tal.specs.Inside.Scan.{BeginWithUtf8Texts};

use edf_time::{DecimalFault, read_seconds};

/// The byte after the times of a TAL, and after each of its texts.
pub(crate) const TEXT_END: u8 = 20;

/// The byte between an onset and a duration.
pub(crate) const DURATION_MARK: u8 = 21;

/// The byte after a TAL, which also fills the rest of a block.
pub(crate) const TAL_END: u8 = 0;

/// The onset and the duration of a TAL in nanoseconds, each capped at 2 ^ 63.
#[derive(Clone, Copy)]
pub(crate) struct Times {
    pub(crate) ahead: bool,
    pub(crate) onset: u64,
    pub(crate) duration: Option<u64>,
}

/// The TAL that some bytes begin with.
#[derive(Clone, Copy)]
pub(crate) struct LeadingTal<'a> {
    pub(crate) times: Times,
    /// The texts, each with the byte that ends it.
    pub(crate) texts: &'a [u8],
    /// The bytes after the TAL.
    pub(crate) rest: &'a [u8],
}

/// Returns the bytes before the first such byte, and those after it.
pub(crate) fn split_first(bytes: &[u8], byte: u8) -> Option<(&[u8], &[u8])>
    ensures { MatchOption result (Lacks byte bytes.now)
        (λ sides. Lacks byte sides.0.now × (bytes.now ≡ sides.0.now ++ byte ∷ sides.1.now)) }
{
    for (i, b) in bytes.iter().enumerate() {
        if *b == byte {
            return Some((&bytes[..i], &bytes[i + 1..]));
        }
    }
    None
}

/// Returns the nanoseconds of a decimal, capped at 2 ^ 63.
pub(crate) fn capped_seconds(text: &[u8]) -> Option<u64>
    ensures { MatchOption result ((n : ℕ) → ¬ IsSeconds text.now n)
        (λ nanos. (n : ℕ) × IsSeconds text.now n × (nanos ≡ capped n)) }
{
    match read_seconds(text) {
        Ok(nanos) => Some(nanos),
        Err(DecimalFault::TooLarge) => Some(1 << 63),
        Err(DecimalFault::Syntax) => None,
        Err(DecimalFault::TooFine) => None,
    }
}

/// Reads an onset without its sign, and a duration or none.
fn spans(bytes: &[u8]) -> Option<(u64, Option<u64>)>
    ensures { MatchOption result ((n : ℕ) (d : Option ℕ) → ¬ IsSecondsAndDuration bytes.now n d)
        (λ r. (n : ℕ) × (d : Option ℕ) × IsSecondsAndDuration bytes.now n d
        × (r.0 ≡ capped n) × IsCappedDuration r.1 d) }
{
    match split_first(bytes, DURATION_MARK) {
        None => {
            let onset = capped_seconds(bytes)?;
            Some((onset, None))
        }
        Some((prefix, suffix)) => {
            let onset = capped_seconds(prefix)?;
            let duration = capped_seconds(suffix)?;
            Some((onset, Some(duration)))
        }
    }
}

/// Reads the times after a sign.
fn signed_times(sign: u8, unsigned: &[u8]) -> Option<Times>
    ensures { MatchOption result ((z : ℤ) (d : Option ℕ) →
        ¬ IsOnsetAndDuration (sign ∷ unsigned.now) z d)
        (λ t. (z : ℤ) × (d : Option ℕ) × IsOnsetAndDuration (sign ∷ unsigned.now) z d
        × IsCappedOnset t.ahead t.onset z × IsCappedDuration t.duration d) }
{
    let (onset, duration) = spans(unsigned)?;
    let ahead = match sign {
        b'+' => true,
        b'-' => false,
        _ => return None,
    };
    Some(Times {
        ahead,
        onset,
        duration,
    })
}

/// Reads the times before a TAL's first byte 20.
fn head_times(head: &[u8]) -> Option<Times>
    ensures { MatchOption result ((z : ℤ) (d : Option ℕ) → ¬ IsOnsetAndDuration head.now z d)
        (λ t. (z : ℤ) × (d : Option ℕ) × IsOnsetAndDuration head.now z d
        × IsCappedOnset t.ahead t.onset z × IsCappedDuration t.duration d) }
{
    match head {
        [] => None,
        [sign, unsigned @ ..] => signed_times(*sign, unsigned),
    }
}

/// Is true where there is no byte, or the last one ends a text.
fn is_ended(bytes: &[u8]) -> bool
    ensures { IsTrue result ↔ IsEmptyOrEndsWith20 bytes.now }
{
    bytes.is_empty() || bytes[bytes.len() - 1] == TEXT_END
}

/// Reads the TAL that the bytes begin with.
pub(crate) fn first_tal(bytes: &[u8]) -> Option<LeadingTal<'_>>
    ensures { MatchOption result (NoTal bytes.now)
        (λ f. (t : Tal) × IsLeadingTal bytes.now f.texts.now f.rest.now t
        × IsCappedOnset f.times.ahead f.times.onset t.onset
        × IsCappedDuration f.times.duration t.duration) }
{
    let (body, rest) = split_first(bytes, TAL_END)?;
    let (head, texts) = split_first(body, TEXT_END)?;
    if !is_ended(texts) {
        return None;
    }
    let times = head_times(head)?;
    Some(LeadingTal { times, texts, rest })
}

/// Counts the texts. The error is where the first one begins that is not UTF-8.
pub(crate) fn check_texts(texts: &[u8]) -> Result<usize, usize>
    ensures { MatchResult result (BeginWithUtf8Texts texts.now) (HasNonUtf8TextAmong texts.now) }
{
    let len = texts.len();
    let mut rest = texts;
    let mut count = 0;
    while let Some((text, more)) = split_first(rest, TEXT_END) {
        let Ok(_) = simdutf8::basic::from_utf8(text) else {
            return Err(len - rest.len());
        };
        count += 1;
        rest = more;
    }
    Ok(count)
}
