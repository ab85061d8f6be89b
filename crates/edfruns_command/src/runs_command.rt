//! The commands: what each asks for, how often it reads its file, and its work.

ghost use Rattle.edf_cli.specs.Output.{output_change};
ghost use Rattle.edf_cli.specs.Making.{making};
ghost use Rattle.edfruns_command.specs.Run.{IsDone, HasMade, HasOpened, meaning};

use crate::canonical_command::canonical;
use crate::compare_command::compare;
use crate::cut_command::cut;
use crate::fill_command::fill_file;
use crate::list_command::list;
use crate::picture_command::picture;
use crate::split_command::split;
use edf_cli::{Inputs, NewFiles, Status};
use edf_fragment::Output;
use edf_runs::FillLimits;
use std::alloc::Global;

/// What a command line of `edfruns` asks for. A file is a path. None of them is looked at here.
#[derive(Debug, Drop)]
pub enum RunsCommand {
    /// List the runs of files.
    List {
        /// The files, one at least.
        files: Vec<String>,
    },
    /// Write the canonical EDF+D file to standard output.
    Canonical {
        /// The file. It is not `-`.
        file: String,
        /// Whether each annotation is in the data record that has its onset.
        is_by_onset: bool,
    },
    /// Write the filled file to standard output.
    Fill {
        /// The file. It is not `-`.
        file: String,
        /// How long a gap may be, and how far a data record may move.
        limits: FillLimits,
    },
    /// Write the data records of a time to standard output.
    Cut {
        /// The file. It is not `-`.
        file: String,
        /// When the time begins, in nanoseconds from 1985.
        from: u64,
        /// When it ends.
        to: u64,
    },
    /// Say what of a second file the first has.
    Compare {
        /// The first file. It is not `-`.
        file: String,
        /// The second. It is not `-`.
        other: String,
    },
    /// Write each run to an EDF+C file of its own.
    Split {
        /// The file. It is not `-`.
        file: String,
        /// How the names of the new files begin.
        prefix: String,
    },
    /// Write a picture of the file to standard output.
    Picture {
        /// The file.
        file: String,
        /// Whether its title has the code of the patient.
        has_code: bool,
    },
}

impl RunsCommand {
    ghost use Rattle.std.specs.Prelude.{◌≡◌};
    ghost use Rattle.edfruns_command.specs.Run.{meaning, readings_of};

    /// How often it reads a file, if nothing is wrong.
    pub fn readings(&self) -> usize
        ensures { result ≡ readings_of (meaning self.now) }
    {
        match self {
            RunsCommand::List { files } => files.len(),
            RunsCommand::Canonical {
                file: _,
                is_by_onset: _,
            } => 2,
            RunsCommand::Fill { file: _, limits: _ } => 2,
            RunsCommand::Cut {
                file: _,
                from: _,
                to: _,
            } => 2,
            RunsCommand::Compare { file: _, other: _ } => 2,
            RunsCommand::Split { file: _, prefix: _ } => 2,
            RunsCommand::Picture {
                file: _,
                has_code: _,
            } => 2,
        }
    }

    /// Is true where it writes an EDF file to standard output, which is not for a terminal.
    pub fn writes_edf(&self) -> bool {
        matches!(
            self,
            RunsCommand::Canonical { .. } | RunsCommand::Fill { .. } | RunsCommand::Cut { .. }
        )
    }
}

/// Runs a command.
///
/// Lists, files and pictures go to `out`, and why something is not done, and the lines of a file of
/// `Canonical` or `Fill`, to `err`. The list of a file goes out whole, or a front of it where a
/// write failed, which a line tells, or nothing where memory ran out. `Split` leaves all its files
/// where it is done, and else whole files of the first runs, and a line as each is whole. The
/// clauses say what `List` and `Canonical` do; which files `Split` makes, what `Fill` and `Cut`
/// write, and what the status of `Compare` tells, but no line of these; and of `Picture` all but
/// what it shows beside its title and its times.
pub fn run_runs<I: Inputs, P: NewFiles, O: Output, F: Output>(
    alloc: Global,
    command: &RunsCommand,
    inputs: &mut I,
    outputs: &mut P,
    out: &mut O,
    err: &mut F,
) -> Status
    ensures done { IsDone (I.bytes inputs.old) (making P.NewFiles outputs.old outputs.new)
        (output_change O.Output out.old out.new) (output_change F.Output err.old err.new)
        (meaning command.now)
        result }
    ensures made { HasMade (making P.NewFiles outputs.old outputs.new) (meaning command.now) }
    ensures opened { HasOpened
        (I.opened inputs.old) (I.opened inputs.new) (meaning command.now) result }
{
    match command {
        RunsCommand::List { files } => list(alloc, files.as_slice(), inputs, out, err),
        RunsCommand::Canonical { file, is_by_onset } => {
            canonical(alloc, file.as_str(), *is_by_onset, inputs, out, err)
        }
        RunsCommand::Fill { file, limits } => {
            fill_file(alloc, file.as_str(), *limits, inputs, out, err)
        }
        RunsCommand::Cut { file, from, to } => {
            cut(alloc, file.as_str(), (*from, *to), inputs, out, err)
        }
        RunsCommand::Compare { file, other } => {
            compare(alloc, file.as_str(), other.as_str(), inputs, out, err)
        }
        RunsCommand::Split { file, prefix } => split(
            alloc,
            file.as_str(),
            prefix.as_str(),
            inputs,
            outputs,
            out,
            err,
        ),
        RunsCommand::Picture { file, has_code } => {
            picture(alloc, file.as_str(), *has_code, inputs, out, err)
        }
    }
}
