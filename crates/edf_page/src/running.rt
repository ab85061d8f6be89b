//! The runs of a recording's file, and its picture, as `edfruns` gives them.

ghost use Rattle.std.specs.Prelude.{◌≡◌, ◌∷◌, [], List, Some, IfOk, MatchResult, true};
ghost use Rattle.edfruns_command.specs.Run.{Asked, meaning};
ghost use Rattle.edfruns_command.specs.Run.Asked.{list, picture};
ghost use Rattle.edf_page.specs.Inside.{IsWrittenOf, ListsFile, DrawsFile, recording_name};

use crate::folder::Folder;
use crate::given::{GivenFile, OneFile};
use crate::stopped::Stopped;
use crate::text::Text;
use edf_cli::Status;
use edfruns_command::{RunsCommand, run_runs};
use std::alloc::{AllocError, Global};

/// What lines call the file where a command stops.
const NAME: &str = "recording";

/// What a command writes of just this file.
fn written_of(
    alloc: Global,
    command: Result<RunsCommand, AllocError>,
    bytes: &[u8],
) -> Result<Vec<u8>, Stopped>
    ensures { (asked : Asked) → IfOk command (λ c. meaning c ≡ asked) →
        IfOk result (λ text. IsWrittenOf asked bytes.now text.items) }
{
    let Ok(command) = command else {
        return Err(Stopped::Memory);
    };
    let mut out = Text::new(alloc);
    let mut err = Text::new(alloc);
    let mut input = OneFile::new(alloc, bytes);
    let mut none = Folder::new(alloc, &GivenFile { name: NAME, bytes })?;
    match run_runs(alloc, &command, &mut input, &mut none, &mut out, &mut err) {
        Status::Done => Ok(out.bytes),
        _ => Err(Stopped::Memory),
    }
}

/// What lists runs.
fn list_of(alloc: Global) -> Result<RunsCommand, AllocError>
    ensures { IfOk result (λ c. meaning c ≡ list (recording_name ∷ [])) }
{
    let mut files = Vec::new(alloc);
    files.push(String::from_str(alloc, NAME)?)?;
    Ok(RunsCommand::List { files })
}

/// What draws a picture.
fn picture_of(alloc: Global) -> Result<RunsCommand, AllocError>
    ensures { IfOk result (λ c. meaning c ≡ picture recording_name true) }
{
    Ok(RunsCommand::Picture {
        file: String::from_str(alloc, NAME)?,
        has_code: true,
    })
}

/// The lines of the runs of a file.
pub(crate) fn list_runs_of(alloc: Global, bytes: &[u8]) -> Result<Vec<u8>, Stopped>
    ensures { IfOk result (λ text. ListsFile bytes.now text.items) }
{
    written_of(alloc, list_of(alloc), bytes)
}

/// The picture of a file.
pub(crate) fn draw(alloc: Global, bytes: &[u8]) -> Result<Vec<u8>, Stopped>
    ensures { IfOk result (λ picture. DrawsFile bytes.now picture.items) }
{
    written_of(alloc, picture_of(alloc), bytes)
}
