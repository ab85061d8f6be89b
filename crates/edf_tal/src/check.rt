ghost use Rattle.std.specs.Prelude.{◌≡◌, ℕ, ◌+◌, ◌≤◌, ◌<◌, ◌↔◌, ℤ, MatchResult, IfSome, IsTrue};
ghost use Rattle.std.specs.Prelude.{List, [], ◌∷◌};
ghost use Rattle.edf_tal.specs.Block.{BlocksParseTo, BlocksHaveFirstFault, split_by_sizes};
ghost use Rattle.edf_tal.specs.Inside.Scan.{capped, IsCappedOnset, StartsInFirstSecond};
ghost use Rattle.edf_tal.specs.Inside.Scan.{StartsInOrder};
ghost use Rattle.edf_tal.specs.Inside.Blocks.{AreBlockSizes, HaveSums, IsChecked};
ghost use Rattle.edf_tal.specs.Inside.Blocks.{IsTimeKeepingBlock};
ghost use Rattle.edf_tal.specs.declared.place.Place.{Place};

use crate::blocks::{Sums, are_zeros, survey_blocks};
use crate::limits::{MOST_ANNOTATIONS, MOST_TEXT_BYTES};
use crate::place::{Place, TalFault};
use crate::scan::{TAL_END, TEXT_END, capped_seconds, first_tal, split_first};
use crate::survey::onset_instant;
use edf_time::Instant;

/// The start and the size of the list that blocks without a fault parse to.
#[derive(Clone, Copy)]
pub(crate) struct Checked {
    pub(crate) start: Instant,
    /// The number of annotations, without the time-keeping one.
    pub(crate) count: usize,
}

/// Is true where the first text is empty.
fn is_time_keeping(texts: &[u8]) -> bool
    ensures { IsTrue result ↔ ((rest : List ℕ) × (texts.now ≡ 20 ∷ rest)) }
{
    match texts {
        [] => false,
        [first, ..] => *first == TEXT_END,
    }
}

/// Is false where a first data record's onset is outside the second that the header names.
fn keeps_second(place: &Place, ahead: bool, onset: u64) -> bool
    ensures { (z : ℤ) → IsCappedOnset ahead onset z →
        (IsTrue result ↔ StartsInFirstSecond place.now z) }
{
    match place {
        Place::First => (ahead || onset == 0) && onset < 1_000_000_000,
        Place::After { .. } => true,
        Place::Any => true,
    }
}

/// Is false where a later data record starts before the one before it ends.
fn keeps_order(place: &Place, start: Instant) -> bool
    ensures { IsTrue result ↔ StartsInOrder place.now start }
{
    match place {
        Place::First => true,
        Place::After {
            start: before,
            duration,
        } => { before.nanos() <= start.nanos() && *duration <= start.nanos() - before.nanos() }
        Place::Any => true,
    }
}

/// Checks the TALs of a data record: the time-keeping annotation, the first onset, the window, the
/// order and the limits. `first` is its first block, and `sums` has the totals of all its blocks.
fn check_tals(
    first: &[u8],
    sums: Sums,
    file_start: Instant,
    place: Place,
) -> Result<Checked, TalFault>
    requires { (later : List (List ℕ)) × HaveSums (first.now ∷ later) file_start sums }
    ensures { (later : List (List ℕ)) → HaveSums (first.now ∷ later) file_start sums →
        MatchResult result
        (λ c. IsChecked (first.now ∷ later) file_start place c.start c.count)
        (BlocksHaveFirstFault (first.now ∷ later) file_start place) }
{
    let Some(first) = first_tal(first) else {
        return Err(TalFault::NotTimed);
    };
    if !is_time_keeping(first.texts) {
        return Err(TalFault::NotTimed);
    }
    if !keeps_second(&place, first.times.ahead, first.times.onset) {
        return Err(TalFault::FirstOnset);
    }
    if !sums.in_window {
        return Err(TalFault::Window);
    }
    let Some(start) = onset_instant(first.times.ahead, first.times.onset, file_start) else {
        return Err(TalFault::Window);
    };
    if !keeps_order(&place, start) {
        return Err(TalFault::Order);
    }
    if sums.count > MOST_ANNOTATIONS + 1 || sums.text_bytes > MOST_TEXT_BYTES {
        return Err(TalFault::TooMany);
    }
    Ok(Checked {
        start,
        count: sums.count - 1,
    })
}

/// Checks the blocks of a data record, and allocates nothing.
pub(crate) fn check_blocks(
    block: &[u8],
    sizes: &[usize],
    file_start: Instant,
    place: Place,
) -> Result<Checked, TalFault>
    requires { AreBlockSizes sizes.now block.now }
    ensures { MatchResult result
        (λ c. IsChecked (split_by_sizes sizes.now block.now) file_start place c.start c.count)
        (BlocksHaveFirstFault (split_by_sizes sizes.now block.now) file_start place) }
{
    let sums = survey_blocks(block, sizes, file_start)?;
    check_tals(&block[..sizes[0]], sums, file_start, place)
}

/// Returns the onset's capped nanoseconds of a block that is the time-keeping TAL alone: `+`, a
/// decimal, two bytes 20, and zeros.
fn bare_onset(block: &[u8]) -> Option<u64>
    ensures { IfSome result
        (λ onset. (n : ℕ) × (onset ≡ capped n) × IsTimeKeepingBlock block.now n) }
{
    let (tal, zeros) = split_first(block, TAL_END)?;
    match tal {
        [b'+', onset @ .., TEXT_END, TEXT_END] if are_zeros(zeros) => capped_seconds(onset),
        _ => None,
    }
}

/// Returns the start of a data record whose one block is the time-keeping TAL alone, where the
/// start fits its place. `None` says nothing: the blocks may still have no fault.
pub(crate) fn bare_start(
    block: &[u8],
    sizes: &[usize],
    file_start: Instant,
    place: &Place,
) -> Option<Instant>
    requires { AreBlockSizes sizes.now block.now }
    ensures { IfSome result (λ start.
        BlocksParseTo (split_by_sizes sizes.now block.now) file_start place.now start []) }
{
    if sizes.len() != 1 {
        return None;
    }
    let onset = bare_onset(block)?;
    if !keeps_second(place, true, onset) {
        return None;
    }
    let start = onset_instant(true, onset, file_start)?;
    if !keeps_order(place, start) {
        return None;
    }
    Some(start)
}
