ghost use Rattle.std.specs.Prelude.{◌≡◌, ℕ, ◌^◌, ◌<◌, ◌↔◌, MatchResult, OnOk, IsTrue};
ghost use Rattle.std.specs.Prelude.{List, [], ◌∷◌, ◌++◌, length, sum, sum_by};
ghost use Rattle.std.specs.List.{flat_map};
ghost use Rattle.edf_tal.specs.Tal.{Tal, all_tals, tal_annotations};
ghost use Rattle.edf_tal.specs.Block.{BlocksHaveFirstFault, split_by_sizes};
ghost use Rattle.edf_tal.specs.Condition.{AreMalformedAt};
ghost use Rattle.edf_tal.specs.Inside.Scan.{AreZeros};
ghost use Rattle.edf_tal.specs.Inside.Blocks.{HaveSums, HasForm, AreSoundBlocks};
ghost use Rattle.edf_tal.specs.declared.place.Place.{Place};

use crate::note::Note;
use crate::place::TalFault;
use crate::read::push_tals;
use crate::survey::survey;
use edf_time::Instant;
use std::alloc::{AllocError, Global};

/// The totals of some blocks' TALs, whose texts are all UTF-8.
#[derive(Clone, Copy)]
pub(crate) struct Sums {
    /// Is true where each onset and duration fits the window.
    pub(crate) in_window: bool,
    /// The number of annotations, with the time-keeping one.
    pub(crate) count: usize,
    /// The number of bytes of their texts.
    pub(crate) text_bytes: usize,
}

/// The form of blocks that are TALs and zeros.
#[derive(Clone, Copy)]
pub(crate) enum Form {
    /// All their texts are UTF-8.
    Good(Sums),
    /// A text is not UTF-8; the first such text begins at `offset`.
    BadText { offset: usize },
}

pub(crate) fn are_zeros(bytes: &[u8]) -> bool
    ensures { IsTrue result ↔ AreZeros bytes.now }
{
    bytes.iter().all(|b| *b == 0)
}

/// Returns the form of a block that is TALs and zeros. The error of any other block is where its
/// longest prefix of whole TALs ends.
fn form_of(block: &[u8], file_start: Instant) -> Result<Form, usize>
    ensures { MatchResult result (HasForm (block.now ∷ []) file_start)
        (AreMalformedAt (block.now ∷ [])) }
{
    match survey(block, file_start) {
        Ok(totals) => {
            if !are_zeros(totals.rest) {
                return Err(block.len() - totals.rest.len());
            }
            Ok(Form::Good(Sums {
                in_window: totals.in_window,
                count: totals.count,
                text_bytes: totals.text_bytes,
            }))
        }
        Err(bad) => {
            if !are_zeros(bad.rest) {
                return Err(block.len() - bad.rest.len());
            }
            Ok(Form::BadText { offset: bad.offset })
        }
    }
}

/// Joins the form of some blocks with that of the blocks after them, which begin at `start`.
fn with_next(form: Form, start: usize, next: Form) -> Form
    requires { (s : ℕ) × (before after : List (List ℕ)) ×
        HasForm before s form × (start ≡ sum_by length before) × HasForm after s next
        × (sum_by length (before ++ after) < 2 ^ 64) }
    ensures { (s : ℕ) (before after : List (List ℕ)) →
        HasForm before s form → start ≡ sum_by length before → HasForm after s next →
        HasForm (before ++ after) s result }
{
    match (form, next) {
        (Form::Good(sums), Form::Good(more)) => Form::Good(Sums {
            in_window: sums.in_window & more.in_window,
            count: sums.count + more.count,
            text_bytes: sums.text_bytes + more.text_bytes,
        }),
        (Form::Good(_), Form::BadText { offset }) => Form::BadText {
            offset: start + offset,
        },
        (Form::BadText { offset }, _) => Form::BadText { offset },
    }
}

/// Surveys each block of a data record by itself. It goes on after a text that is not UTF-8, since
/// a later block that is not TALs and zeros is the first fault.
pub(crate) fn survey_blocks(
    block: &[u8],
    sizes: &[usize],
    file_start: Instant,
) -> Result<Sums, TalFault>
    requires { sum sizes.now ≡ length block.now }
    ensures { MatchResult result (HaveSums (split_by_sizes sizes.now block.now) file_start)
        (λ fault. (place : Place) →
        BlocksHaveFirstFault (split_by_sizes sizes.now block.now) file_start place fault) }
{
    let mut rest = block;
    let mut form = Form::Good(Sums {
        in_window: true,
        count: 0,
        text_bytes: 0,
    });
    for size in sizes {
        let start = block.len() - rest.len();
        let (prefix, suffix) = rest.split_at(*size);
        match form_of(prefix, file_start) {
            Ok(next) => form = with_next(form, start, next),
            Err(offset) => {
                return Err(TalFault::Tal {
                    offset: start + offset,
                });
            }
        }
        rest = suffix;
    }
    match form {
        Form::Good(sums) => Ok(sums),
        Form::BadText { offset } => Err(TalFault::Text { offset }),
    }
}

/// Appends the annotations of some blocks.
pub(crate) fn push_blocks(
    alloc: Global,
    list: &mut Vec<Note>,
    block: &[u8],
    sizes: &[usize],
    file_start: Instant,
) -> Result<(), AllocError>
    requires sizes { sum sizes.now ≡ length block.now }
    requires sound { (tss : List (List Tal))
        × AreSoundBlocks (split_by_sizes sizes.now block.now) file_start tss }
    ensures { (tss : List (List Tal)) →
        AreSoundBlocks (split_by_sizes sizes.now block.now) file_start tss →
        OnOk result (list.new.items
        ≡ list.old.items ++ flat_map (tal_annotations file_start) (all_tals tss)) }
{
    let mut rest = block;
    for size in sizes {
        let (prefix, suffix) = rest.split_at(*size);
        push_tals(alloc, list, prefix, file_start)?;
        rest = suffix;
    }
    Ok(())
}
