ghost use Rattle.std.specs.Prelude.{◌≡◌, ℕ, ◌≤◌, ◌<◌, IfOk, IfSome, OnOk, IsUtf8, MatchResult};
ghost use Rattle.std.specs.Prelude.{List, [], ◌∷◌, ◌++◌, length, map, sum};
ghost use Rattle.std.specs.List.{flat_map};
ghost use Rattle.edf_time.specs.Civil.{window};
ghost use Rattle.edf_tal.specs.Tal.{Tal, Annotation, IsText, HasTimeKeepingTal, tal_annotations};
ghost use Rattle.edf_tal.specs.Tal.{annotations};
ghost use Rattle.edf_tal.specs.Block.{BlocksParseTo, BlocksAreRefused, BlockParsesTo};
ghost use Rattle.edf_tal.specs.Block.{BlockIsRefused, split_by_sizes};
ghost use Rattle.edf_tal.specs.Inside.Scan.{AreUtf8Texts, IsScannedTal};
ghost use Rattle.edf_tal.specs.Inside.Blocks.{AreBlockSizes, AreSoundTals};
ghost use Rattle.edf_tal.specs.declared.place.Place.{Place};

use crate::blocks::push_blocks;
use crate::check::{bare_start, check_blocks};
use crate::note::Note;
use crate::place::{Place, TalFault};
use crate::scan::{TEXT_END, Times, first_tal, split_first};
use crate::survey::onset_instant;
use edf_time::Instant;
use std::alloc::{AllocError, Global};
use std::str::from_utf8_unchecked;

/// Makes an annotation with a copy of the text.
fn make_note(
    alloc: Global,
    onset: Instant,
    duration: Option<u64>,
    text: &[u8],
) -> Result<Note, AllocError>
    requires duration { IfSome duration (λ d. d < window) }
    requires text { IsText text.now }
    requires utf8 { IsUtf8 text.now }
    ensures { IfOk result
        (λ n. n ≡ record { onset = onset; duration = duration; text = text.now }) }
{
    // a survey of the block found that its texts are UTF-8
    let text = unsafe { from_utf8_unchecked(text) };
    let copy = String::from_str(alloc, text)?;
    Ok(Note::of_parts(onset, duration, copy))
}

/// Appends an annotation for each text.
fn push_texts(
    alloc: Global,
    list: &mut Vec<Note>,
    onset: Instant,
    duration: Option<u64>,
    texts: &[u8],
) -> Result<(), AllocError>
    requires duration { IfSome duration (λ d. d < window) }
    requires texts { (xs : List (List ℕ)) × AreUtf8Texts texts.now xs }
    ensures { (xs : List (List ℕ)) → AreUtf8Texts texts.now xs → OnOk result (list.new.items
        ≡ list.old.items
        ++ map (λ text. record { onset = onset; duration = duration; text = text }) xs) }
{
    let mut rest = texts;
    while let Some((text, more)) = split_first(rest, TEXT_END) {
        let note = make_note(alloc, onset, duration, text)?;
        list.push(note)?;
        rest = more;
    }
    Ok(())
}

/// Appends the annotations of a TAL.
fn push_tal(
    alloc: Global,
    list: &mut Vec<Note>,
    times: Times,
    texts: &[u8],
    file_start: Instant,
) -> Result<(), AllocError>
    requires { (t : Tal) × IsScannedTal texts.now times.ahead times.onset times.duration file_start
        t }
    ensures { (t : Tal) → IsScannedTal texts.now times.ahead times.onset times.duration file_start t
        → OnOk result (list.new.items ≡ list.old.items ++ tal_annotations file_start t) }
{
    let Some(onset) = onset_instant(times.ahead, times.onset, file_start) else {
        unreachable!()
    };
    push_texts(alloc, list, onset, times.duration, texts)
}

/// Appends the annotations of TALs and zeros.
pub(crate) fn push_tals(
    alloc: Global,
    list: &mut Vec<Note>,
    tals: &[u8],
    file_start: Instant,
) -> Result<(), AllocError>
    requires { (ts : List Tal) × AreSoundTals tals.now file_start ts }
    ensures { (ts : List Tal) → AreSoundTals tals.now file_start ts →
        OnOk result (list.new.items ≡ list.old.items ++ flat_map (tal_annotations file_start) ts) }
{
    let mut rest = tals;
    while let Some(tal) = first_tal(rest) {
        push_tal(alloc, list, tal.times, tal.texts, file_start)?;
        rest = tal.rest;
    }
    Ok(())
}

/// Returns the texts after an empty first one.
fn after_empty(texts: &[u8]) -> &[u8]
    requires { (rest : List ℕ) × (texts.now ≡ 20 ∷ rest) }
    ensures { (rest : List ℕ) → texts.now ≡ 20 ∷ rest → result.now ≡ rest }
{
    match texts {
        [_, rest @ ..] => rest,
        [] => unreachable!(),
    }
}

/// Appends the annotations of the first block, without the time-keeping one.
fn push_first(
    alloc: Global,
    list: &mut Vec<Note>,
    block: &[u8],
    file_start: Instant,
) -> Result<(), AllocError>
    requires { (ts : List Tal) × AreSoundTals block.now file_start ts × HasTimeKeepingTal ts }
    ensures { (ts : List Tal) → AreSoundTals block.now file_start ts → HasTimeKeepingTal ts →
        OnOk result (list.new.items ≡ list.old.items ++ annotations file_start ts) }
{
    let Some(first) = first_tal(block) else {
        unreachable!()
    };
    let texts = after_empty(first.texts);
    push_tal(alloc, list, first.times, texts, file_start)?;
    push_tals(alloc, list, first.rest, file_start)
}

/// Returns the annotations of blocks without a fault.
fn list_notes(
    alloc: Global,
    block: &[u8],
    sizes: &[usize],
    count: usize,
    file_start: Instant,
) -> Result<Vec<Note>, AllocError>
    requires sizes { AreBlockSizes sizes.now block.now }
    requires read { (place : Place) × (start : ℕ) × (list : List Annotation)
        × BlocksParseTo (split_by_sizes sizes.now block.now) file_start place start list }
    ensures { (place : Place) (start : ℕ) (list : List Annotation) →
        BlocksParseTo (split_by_sizes sizes.now block.now) file_start place start list →
        IfOk result (λ v. v.items ≡ list) }
{
    let mut list = Vec::with_capacity(alloc, count)?;
    let (first, later) = block.split_at(sizes[0]);
    push_first(alloc, &mut list, first, file_start)?;
    push_blocks(alloc, &mut list, later, &sizes[1..], file_start)?;
    Ok(list)
}

/// Reads the start and the annotations of a data record from its annotations blocks (EDF+,
/// time-stamped annotations lists).
///
/// `block` has the bytes of the annotations signals in the data record, joined in file order, and
/// `sizes` the number of bytes of each: there is at least one, and their sum is the length of
/// `block`. Each block by itself is TALs one after the other, then bytes 0 to its end. A TAL is an
/// onset in seconds, maybe byte 21 and a duration in seconds, byte 20, each text with a byte 20
/// after it, and byte 0. Onsets count from `file_start`, the instant of the header's startdate and
/// starttime. The first annotation of the first block's first TAL is the time-keeping one: it is
/// empty, its onset is the data record's start, and it is not in the list. The list has all other
/// annotations, block after block. All annotations of a TAL share its onset and duration.
///
/// # Errors
/// The first `TalFault` that is true, with offsets over `block`: `FirstOnset` only at
/// `Place::First`, `Order` only at `Place::After`. `Memory` where an allocation was refused; the
/// blocks then have no fault.
pub fn read_blocks(
    alloc: Global,
    block: &[u8],
    sizes: &[usize],
    file_start: Instant,
    place: Place,
) -> Result<(Instant, Vec<Note>), TalFault>
    requires some { 1 ≤ length sizes.now }
    requires sizes { sum sizes.now ≡ length block.now }
    ensures { MatchResult result
        (λ r. BlocksParseTo (split_by_sizes sizes.now block.now) file_start place r.0 r.1.items)
        (BlocksAreRefused (split_by_sizes sizes.now block.now) file_start place) }
{
    // most data records have the time-keeping annotation alone, which needs no survey
    if let Some(start) = bare_start(block, sizes, file_start, &place) {
        return Ok((start, Vec::new(alloc)));
    }
    match check_blocks(block, sizes, file_start, place) {
        Ok(checked) => match list_notes(alloc, block, sizes, checked.count, file_start) {
            Ok(list) => Ok((checked.start, list)),
            Err(_) => Err(TalFault::Memory),
        },
        Err(fault) => Err(fault),
    }
}

/// Reads the start and the annotations of a data record with one annotations block, as
/// `read_blocks` does.
///
/// # Errors
/// Those of `read_blocks`.
pub fn read_block(
    alloc: Global,
    block: &[u8],
    file_start: Instant,
    place: Place,
) -> Result<(Instant, Vec<Note>), TalFault>
    ensures { MatchResult result
        (λ r. BlockParsesTo block.now file_start place r.0 r.1.items)
        (BlockIsRefused block.now file_start place) }
{
    read_blocks(alloc, block, &[block.len()], file_start, place)
}
