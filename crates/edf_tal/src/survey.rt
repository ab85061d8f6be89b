ghost use Rattle.std.specs.Prelude.{◌≡◌, ◌+◌, ◌<◌, ◌↔◌, ℤ, pos, ◌+ℤ◌, MatchOption};
ghost use Rattle.std.specs.Prelude.{MatchResult, IsTrue};
ghost use Rattle.edf_time.specs.Civil.{IsInWindow};
ghost use Rattle.edf_tal.specs.Tal.{Tal, IsTalInWindow, instant};
ghost use Rattle.edf_tal.specs.Condition.{HasNonUtf8TextAt};
ghost use Rattle.edf_tal.specs.Inside.Scan.{NoTal, IsCappedOnset, IsCappedDuration, FollowsTals};
ghost use Rattle.edf_tal.specs.Inside.Scan.{IsSurvey};

use crate::note::is_duration;
use crate::scan::{Times, check_texts, first_tal};
use edf_time::Instant;

/// The totals of a block's TALs, whose texts are all UTF-8.
#[derive(Clone, Copy)]
pub(crate) struct Totals<'a> {
    /// The bytes after the last TAL.
    pub(crate) rest: &'a [u8],
    /// Is true where each onset and duration fits the window.
    pub(crate) in_window: bool,
    /// The number of annotations, with the time-keeping one.
    pub(crate) count: usize,
    /// The number of bytes of their texts.
    pub(crate) text_bytes: usize,
}

/// The first text that is not UTF-8.
#[derive(Clone, Copy)]
pub(crate) struct BadText<'a> {
    pub(crate) offset: usize,
    /// The bytes after the last TAL.
    pub(crate) rest: &'a [u8],
}

/// Returns the instant of an onset, or `None` where it is outside the window.
pub(crate) fn onset_instant(ahead: bool, onset: u64, file_start: Instant) -> Option<Instant>
    ensures { (z : ℤ) → IsCappedOnset ahead onset z →
        MatchOption result (¬ IsInWindow (pos file_start +ℤ z))
        (λ i. IsInWindow (pos file_start +ℤ z) × (i ≡ instant file_start z)) }
{
    let start = file_start.nanos();
    if ahead {
        Instant::at(start.saturating_add(onset))
    } else if onset <= start {
        Instant::at(start - onset)
    } else {
        None
    }
}

/// Is true where an onset and a duration fit the window.
pub(crate) fn is_in_window(times: Times, file_start: Instant) -> bool
    ensures { (t : Tal) →
        IsCappedOnset times.ahead times.onset t.onset → IsCappedDuration times.duration t.duration →
        (IsTrue result ↔ IsTalInWindow file_start t) }
{
    match onset_instant(times.ahead, times.onset, file_start) {
        None => false,
        Some(_) => is_duration(times.duration),
    }
}

/// Returns the bytes after all leading TALs.
pub(crate) fn after_tals(bytes: &[u8]) -> &[u8]
    ensures whole { FollowsTals bytes.now result.now }
    ensures last { NoTal result.now }
{
    let mut rest = bytes;
    while let Some(tal) = first_tal(rest) {
        rest = tal.rest;
    }
    rest
}

/// Returns the totals of all leading TALs, or the first of their texts that is not UTF-8.
pub(crate) fn survey(block: &[u8], file_start: Instant) -> Result<Totals<'_>, BadText<'_>>
    ensures { MatchResult result
        (λ s. IsSurvey block.now file_start s.rest.now s.in_window s.count s.text_bytes
        × NoTal s.rest.now)
        (λ b. FollowsTals block.now b.rest.now × NoTal b.rest.now
        × HasNonUtf8TextAt block.now b.offset) }
{
    let mut rest = block;
    let mut in_window = true;
    let mut count = 0;
    let mut text_bytes = 0;
    while let Some(tal) = first_tal(rest) {
        match check_texts(tal.texts) {
            Ok(texts) => {
                in_window &= is_in_window(tal.times, file_start);
                count += texts;
                text_bytes += tal.texts.len() - texts;
                rest = tal.rest;
            }
            Err(at) => {
                return Err(BadText {
                    offset: block.len() - tal.rest.len() - 1 - tal.texts.len() + at,
                    rest: after_tals(tal.rest),
                });
            }
        }
    }
    Ok(Totals {
        rest,
        in_window,
        count,
        text_bytes,
    })
}
