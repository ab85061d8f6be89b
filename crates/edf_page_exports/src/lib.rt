//! What the script of a page calls: the functions of [`edf_page`] over slices of the module's
//! memory. Nothing is kept from one call to the next.
//!
//! - [`page_night`]: what comes of files.
//! - [`page_runs`], [`page_mend`]: what `edfruns` and `edfmend` do with one file.
//! - [`page_compare`]: what `edfruns compare` says of two files.
//!
//! They answer 0 to 3, and what they give is laid in `out`, piece after piece:
//!
//! - 0: `parts` has how many pieces there are, and then how many bytes each has. What is behind
//!   them in `out` and `parts` is as it was.
//! - 1: they have no room in `out`, or in `parts`. `parts` has how many they are, and how many
//!   bytes they have in all; `out` is as it was. No clause says that the next call has as many, so
//!   nobody is to try for ever.
//! - 2: memory ran out, also before it could be told whether this is a call, or the store of
//!   [`page_night`] refused; and nothing is given. `out` has the line that says so, as far as it
//!   has room, and `parts` how many bytes of it lie there.
//! - 3: what is given is no call, by its sizes or its number, since a text is not in UTF-8, or
//!   since `parts` has no room for two numbers. Nothing is written.
#![tactic(auto)]

ghost use Rattle.std.specs.Prelude.{◌≡◌, ◌⊎◌, ◌≤◌, IfOk, IsOkAnd, length};
ghost use Rattle.edf_page.specs.Programs.{RunsDone, pieces_of_ran};
ghost use Rattle.edf_page_exports.specs.Asked.{Asks, asked_by};
ghost use Rattle.edf_page_exports.specs.Laid.{IsAnswer, LieFiles, ComeOfFiles, AnyStop, IsMemory};
ghost use Rattle.edf_page_exports.specs.Laid.{LieRuns, ComeOfRuns, LieValues, ComeOfValues};
ghost use Rattle.edf_page_exports.specs.Laid.{ComeOfCompare};
ghost use Rattle.edf_page_exports.specs.Laid.{AreLaid, HaveNoRoom, TellsWhy};

mod asked;
mod given;
pub mod laws;
mod laying;
mod pieces;
#[cfg(test)]
mod tests;

use asked::{MOST, command_by, values_of};
use edf_page::{GivenFile, Ran, Stopped, give_night, run_compare, run_edfmend, run_edfruns};
use given::{files_in, texts_in};
use laying::{NO_CALL, give, print_text, refuse};
use pieces::{pieces_of_night, pieces_of_ran};
use std::alloc::{AllocError, Global};

/// What comes of files that are taken in turn.
///
/// `names` has the files' names one after another, in UTF-8, and `bytes` their bytes;
/// `name_sizes` and `sizes` say how many bytes each has of them. The pieces are: for each file its
/// line of `edfstore take`; then the lines of `edfstore list`; and for each recording, in the order
/// of these, its EDF+D file, the lines of `edfruns list` and its picture.
#[unsafe(no_mangle)]
pub extern "C" fn page_night(
    alloc: Global,
    names: &[u8],
    name_sizes: &[u64],
    bytes: &[u8],
    sizes: &[u64],
    out: &mut [u8],
    parts: &mut [u64],
) -> u32
    ensures { IsAnswer out.old out.new parts.old parts.new
        (LieFiles names.now name_sizes.now bytes.now sizes.now)
        (ComeOfFiles names.now name_sizes.now bytes.now sizes.now) AnyStop result }
{
    if parts.len() < 2 {
        return NO_CALL;
    }
    let files = match files_in(alloc, names, name_sizes, bytes, sizes) {
        Ok(files) => files,
        Err(fault) => return refuse(fault, out, parts),
    };
    let night = match give_night(alloc, files.as_slice()) {
        Ok(night) => night,
        Err(stopped) => return print_text(stopped, out, parts),
    };
    match pieces_of_night(alloc, &night) {
        Ok(pieces) => give(pieces.as_slice(), out, parts),
        Err(_) => print_text(Stopped::Memory, out, parts),
    }
}

/// Gives what a program did, if memory was enough for that.
fn give_ran(alloc: Global, ran: &Result<Ran, AllocError>, out: &mut [u8], parts: &mut [u64]) -> u32
    requires { 2 ≤ length parts.old }
    ensures { ((result ≡ 2) × TellsWhy out.old out.new parts.old parts.new Stopped.Memory)
        ⊎ IsOkAnd ran.now (λ ran.
        ((result ≡ 0) × AreLaid out.old out.new parts.old parts.new (pieces_of_ran ran))
        ⊎ ((result ≡ 1) × HaveNoRoom out.old out.new parts.old parts.new (pieces_of_ran ran))) }
{
    let Ok(ran) = ran else {
        return print_text(Stopped::Memory, out, parts);
    };
    let status = [ran.status.code()];
    match pieces_of_ran(alloc, &status, ran) {
        Ok(pieces) => give(pieces.as_slice(), out, parts),
        Err(_) => print_text(Stopped::Memory, out, parts),
    }
}

/// What `edfruns` does by this number.
fn runs_by(
    alloc: Global,
    which: u32,
    time: (u64, u64),
    prefix: &str,
    file: &GivenFile<'_>,
) -> Result<Ran, AllocError>
    requires { Asks which }
    ensures { IfOk result (RunsDone file.now.name.now file.now.bytes.now
        (asked_by which file.now.name.now prefix.now time.0 time.1)) }
{
    let command = command_by(alloc, which, file.name, prefix, time)?;
    run_edfruns(alloc, &command, file)
}

/// What `edfruns` does by this number with one file, whose name is IN: 0 is `list IN`, 1
/// `canonical --by-onset IN`, 2 `picture --without-code IN`, 3 `split IN PREFIX`, 4 `fill IN` and 5
/// `cut IN` between both instants, in nanoseconds from 1985. 3 alone has a use for `prefix`, and 5
/// for `from` and `to`.
///
/// The pieces are: the number of the program's status, in one byte; what it wrote to standard
/// output; what it wrote to standard error; and for each file that it made and that is there, in
/// turn, its name and its bytes. With status 3 what it wrote may be a front of it.
#[unsafe(no_mangle)]
pub extern "C" fn page_runs(
    alloc: Global,
    which: u32,
    from: u64,
    to: u64,
    prefix: &[u8],
    name: &[u8],
    bytes: &[u8],
    out: &mut [u8],
    parts: &mut [u64],
) -> u32
    ensures { IsAnswer out.old out.new parts.old parts.new
        (LieRuns which prefix.now name.now)
        (ComeOfRuns which from to prefix.now name.now bytes.now) IsMemory result }
{
    if parts.len() < 2 || which > MOST {
        return NO_CALL;
    }
    let Ok(prefix) = std::str::from_utf8(prefix) else {
        return NO_CALL;
    };
    let Ok(name) = std::str::from_utf8(name) else {
        return NO_CALL;
    };
    let file = GivenFile { name, bytes };
    let ran = runs_by(alloc, which, (from, to), prefix, &file);
    give_ran(alloc, &ran, out, parts)
}

/// What `edfruns compare` says of two files: what the first has of the second. The pieces are as
/// those of [`page_runs`]; lines call the files `first` and `second`.
#[unsafe(no_mangle)]
pub extern "C" fn page_compare(
    alloc: Global,
    first: &[u8],
    second: &[u8],
    out: &mut [u8],
    parts: &mut [u64],
) -> u32
    ensures { IsAnswer out.old out.new parts.old parts.new (Unit {0})
        (ComeOfCompare first.now second.now) IsMemory result }
{
    if parts.len() < 2 {
        return NO_CALL;
    }
    let ran = run_compare(alloc, first, second);
    give_ran(alloc, &ran, out, parts)
}

/// What `edfmend` does with one file, whose name is IN.
///
/// `values` has just seven texts one after another, in UTF-8, and `value_sizes` how many bytes each
/// has: OUT, what `--patient`, `--set-patient`, `--deidentify`, `--startdate` and `--starttime`
/// have, and any text for `--all`. An empty one is none; without OUT it is `--dry-run`. The pieces
/// are as those of [`page_runs`].
#[unsafe(no_mangle)]
pub extern "C" fn page_mend(
    alloc: Global,
    values: &[u8],
    value_sizes: &[u64],
    name: &[u8],
    bytes: &[u8],
    out: &mut [u8],
    parts: &mut [u64],
) -> u32
    ensures { IsAnswer out.old out.new parts.old parts.new
        (LieValues values.now value_sizes.now name.now)
        (ComeOfValues values.now value_sizes.now name.now bytes.now) IsMemory result }
{
    if parts.len() < 2 {
        return NO_CALL;
    }
    let Ok(name) = std::str::from_utf8(name) else {
        return NO_CALL;
    };
    let texts = match texts_in(alloc, values, value_sizes) {
        Ok(texts) => texts,
        Err(fault) => return refuse(fault, out, parts),
    };
    let Some(values) = values_of(name, texts.as_slice()) else {
        return NO_CALL;
    };
    let ran = run_edfmend(alloc, &values, &GivenFile { name, bytes });
    give_ran(alloc, &ran, out, parts)
}
