//! The programs of files, over one file or two, and in memory.

ghost use Rattle.std.specs.Prelude.{◌≡◌, IfOk};
ghost use Rattle.edfruns_command.specs.Run.Asked.{compare};
ghost use Rattle.edfmend_command.specs.Run.{meaning as mend_meaning};
ghost use Rattle.edfruns_command.specs.Run.{meaning};
ghost use Rattle.edf_page.specs.InsideFolder.{first_name, second_name};
ghost use Rattle.edf_page.specs.Programs.{RunsDone, CompareDone, MendDone, TellsUsage, IsMendRan};

use crate::begun::NamedFile;
use crate::folder::Folder;
use crate::given::{FIRST, GivenFile, OneFile, TwoFiles};
use crate::text::Text;
use edf_cli::{CommandFault, Status, print_fault};
use edfmend_command::{MendCommand, MendValues, command_of, run_mend};
use edfruns_command::{RunsCommand, run_runs};
use std::alloc::{AllocError, Global};

/// What a program did.
#[derive(Debug, Drop)]
pub struct Ran {
    /// How it ended.
    pub status: Status,
    /// What it wrote to standard output.
    pub out: Vec<u8>,
    /// What it wrote to standard error.
    pub err: Vec<u8>,
    /// The files that it made and that are there, in turn.
    pub files: Vec<NamedFile>,
}

/// Returns what a program did that ended so, with the files that it made.
///
/// # Errors
/// Where a call or a write failed, as it does in memory where that runs out.
fn ran_of(
    status: Status,
    out: Text,
    err: Text,
    failed: u64,
    files: Vec<NamedFile>,
) -> Result<Ran, AllocError>
    ensures { IfOk result (λ ran.
        (ran ≡ record { status = status; out = out.bytes; err = err.bytes; files = files })
        × (failed ≡ 0) × (out.failures ≡ 0) × (err.failures ≡ 0)) }
{
    if failed > 0 || out.failures > 0 || err.failures > 0 {
        return Err(AllocError);
    }
    Ok(Ran {
        status,
        out: out.bytes,
        err: err.bytes,
        files,
    })
}

/// What `edfruns` does where this is asked for, with a file. Each name that the command has of a
/// file to read stands for that file. Its name alone is one that no file can be made under.
///
/// With status 3, as where memory ran out, what was written may be a front of it.
///
/// # Errors
/// Where memory ran out for what is written or made.
pub fn run_edfruns(
    alloc: Global,
    command: &RunsCommand,
    file: &GivenFile<'_>,
) -> Result<Ran, AllocError>
    ensures { IfOk result
        (RunsDone file.now.name.now file.now.bytes.now (meaning command.now)) }
{
    let mut out = Text::new(alloc);
    let mut err = Text::new(alloc);
    let mut input = OneFile::new(alloc, file.bytes);
    let mut folder = Folder::new(alloc, file)?;
    let status = run_runs(alloc, command, &mut input, &mut folder, &mut out, &mut err);
    let failed = folder.failed;
    let files = folder.into_named(alloc)?;
    ran_of(status, out, err, failed, files)
}

/// What compares two files.
fn comparison(alloc: Global) -> Result<RunsCommand, AllocError>
    ensures { IfOk result (λ c. meaning c ≡ compare first_name second_name) }
{
    Ok(RunsCommand::Compare {
        file: String::from_str(alloc, FIRST)?,
        other: String::from_str(alloc, "second")?,
    })
}

/// What `edfruns compare` answers of two files: what the first has of the second. Lines call them
/// `first` and `second`.
///
/// # Errors
/// Where memory ran out.
pub fn run_compare(alloc: Global, first: &[u8], second: &[u8]) -> Result<Ran, AllocError>
    ensures { IfOk result (CompareDone first.now second.now) }
{
    let command = comparison(alloc)?;
    let mut out = Text::new(alloc);
    let mut err = Text::new(alloc);
    let mut inputs = TwoFiles::new(alloc, first, second);
    let mut none = Folder::new(
        alloc,
        &GivenFile {
            name: FIRST,
            bytes: first,
        },
    )?;
    let status = run_runs(alloc, &command, &mut inputs, &mut none, &mut out, &mut err);
    ran_of(status, out, err, none.failed, Vec::new(alloc))
}

/// What a command of `edfmend` does with a file.
fn mend_of(alloc: Global, command: &MendCommand, file: &GivenFile<'_>) -> Result<Ran, AllocError>
    ensures { IfOk result
        (MendDone file.now.name.now file.now.bytes.now (mend_meaning command.now)) }
{
    let mut out = Text::new(alloc);
    let mut err = Text::new(alloc);
    let mut input = OneFile::new(alloc, file.bytes);
    let mut folder = Folder::new(alloc, file)?;
    let status = run_mend(alloc, command, &mut input, &mut folder, &mut out, &mut err);
    let failed = folder.failed;
    let files = folder.into_named(alloc)?;
    ran_of(status, out, err, failed, files)
}

/// What is told where the values ask for nothing that can be done.
fn refusal_of(alloc: Global, text: String) -> Result<Ran, AllocError>
    ensures { IfOk result (TellsUsage text) }
{
    let mut out = Text::new(alloc);
    let mut err = Text::new(alloc);
    let status = print_fault(&CommandFault::Usage(text), &mut out, &mut err);
    ran_of(status, out, err, 0, Vec::new(alloc))
}

/// What `edfmend` does by these values of its words, with a file, which is IN under any name: of
/// files as [`run_edfruns`].
///
/// # Errors
/// Where memory ran out for the words, or for what is written or made.
pub fn run_edfmend(
    alloc: Global,
    values: &MendValues<'_>,
    file: &GivenFile<'_>,
) -> Result<Ran, AllocError>
    ensures { IfOk result (IsMendRan values.now file.now.name.now file.now.bytes.now) }
{
    match command_of(alloc, values) {
        Ok(command) => mend_of(alloc, &command, file),
        Err(CommandFault::Usage(text)) => refusal_of(alloc, text),
        Err(CommandFault::Help(_) | CommandFault::Memory) => Err(AllocError),
    }
}
