//! The pieces of what is given, in their order.

ghost use Rattle.std.specs.Prelude.{◌≡◌, ◌∷◌, [], ◌++◌, IfOk, OnOk, map};
ghost use Rattle.std.specs.List.{flat_map};
ghost use Rattle.edf_cli.specs.Status.{exit_code};
ghost use Rattle.edf_page.specs.Night.{pieces_of, pieces_of_one, taken_lines};
ghost use Rattle.edf_page.specs.Programs.{pieces_of_file, pieces_of_ran};

use edf_page::{GivenNight, NamedFile, Ran, Recording};
use std::alloc::{AllocError, Global};

/// Adds the lines of files.
fn push_lines<'n>(pieces: &mut Vec<&'n [u8]>, lines: &'n [Vec<u8>]) -> Result<(), AllocError>
    ensures { OnOk result (map (λ piece. piece.now) pieces.new.items
        ≡ map (λ piece. piece.now) pieces.old.items ++ map (λ line. line.items) lines.now) }
{
    for line in lines {
        pieces.push(line.as_slice())?;
    }
    Ok(())
}

/// Adds the pieces of a recording.
fn push_recording<'n>(
    pieces: &mut Vec<&'n [u8]>,
    recording: &'n Recording,
) -> Result<(), AllocError>
    ensures { OnOk result (map (λ piece. piece.now) pieces.new.items
        ≡ map (λ piece. piece.now) pieces.old.items ++ pieces_of_one recording.now) }
{
    pieces.push(recording.file.as_slice())?;
    pieces.push(recording.runs.as_slice())?;
    pieces.push(recording.picture.as_slice())?;
    Ok(())
}

/// The pieces of what comes of files.
pub(crate) fn pieces_of_night(alloc: Global, night: &GivenNight) -> Result<Vec<&[u8]>, AllocError>
    ensures { IfOk result (λ all. map (λ piece. piece.now) all.items ≡ pieces_of night.now) }
{
    let mut pieces = Vec::new(alloc);
    push_lines(&mut pieces, night.taken.as_slice())?;
    pieces.push(night.listed.as_slice())?;
    for recording in night.recordings.as_slice() {
        push_recording(&mut pieces, recording)?;
    }
    Ok(pieces)
}

/// Adds the pieces of a file that was made.
fn push_file<'r>(pieces: &mut Vec<&'r [u8]>, file: &'r NamedFile) -> Result<(), AllocError>
    ensures { OnOk result (map (λ piece. piece.now) pieces.new.items
        ≡ map (λ piece. piece.now) pieces.old.items ++ pieces_of_file file.now) }
{
    pieces.push(file.name.as_bytes())?;
    pieces.push(file.bytes.as_slice())?;
    Ok(())
}

/// The pieces of what a program did, of which this is the number of its status.
pub(crate) fn pieces_of_ran<'r>(
    alloc: Global,
    status: &'r [u8],
    ran: &'r Ran,
) -> Result<Vec<&'r [u8]>, AllocError>
    ensures { status.now ≡ exit_code ran.now.status ∷ [] →
        IfOk result (λ all. map (λ piece. piece.now) all.items ≡ pieces_of_ran ran.now) }
{
    let mut pieces = Vec::new(alloc);
    pieces.push(status)?;
    pieces.push(ran.out.as_slice())?;
    pieces.push(ran.err.as_slice())?;
    for file in ran.files.as_slice() {
        push_file(&mut pieces, file)?;
    }
    Ok(pieces)
}
