//! What a number or values ask of a program.

ghost use Rattle.std.specs.Prelude.{◌≡◌, [], IfOk, map, option_map};
ghost use Rattle.edfruns_command.specs.Run.{meaning};
ghost use Rattle.edf_page_exports.specs.Asked.{Asks, asked_by, value_of, values_of};

use edf_runs::FillLimits;
use edfmend_command::MendValues;
use edfruns_command::RunsCommand;
use std::alloc::{AllocError, Global};

/// The greatest number that asks `edfruns` for something.
pub(crate) const MOST: u32 = 5;

/// What `fill` has without options: gaps of 24 hours, and moves of half a second.
const LIMITS: FillLimits = FillLimits {
    longest_gap: 86_400_000_000_000,
    moved: 500_000_000,
};

/// The list of a file.
fn list_of(alloc: Global, name: &str) -> Result<RunsCommand, AllocError>
    ensures { IfOk result (λ command. meaning command ≡ asked_by 0 name.now [] 0 0) }
{
    let mut files = Vec::new(alloc);
    files.push(String::from_str(alloc, name)?)?;
    Ok(RunsCommand::List { files })
}

/// What a number asks `edfruns` for.
pub(crate) fn command_by(
    alloc: Global,
    which: u32,
    name: &str,
    prefix: &str,
    time: (u64, u64),
) -> Result<RunsCommand, AllocError>
    requires { Asks which }
    ensures { IfOk result (λ command.
        meaning command ≡ asked_by which name.now prefix.now time.0 time.1) }
{
    let file = String::from_str(alloc, name)?;
    match which {
        0 => list_of(alloc, name),
        1 => Ok(RunsCommand::Canonical {
            file,
            is_by_onset: true,
        }),
        2 => Ok(RunsCommand::Picture {
            file,
            has_code: false,
        }),
        3 => Ok(RunsCommand::Split {
            file,
            prefix: String::from_str(alloc, prefix)?,
        }),
        4 => Ok(RunsCommand::Fill {
            file,
            limits: LIMITS,
        }),
        _ => Ok(RunsCommand::Cut {
            file,
            from: time.0,
            to: time.1,
        }),
    }
}

/// A value, which is none where it is empty.
fn value_of(text: &str) -> Option<&str>
    ensures { option_map (λ text. text.now) result ≡ value_of text.now }
{
    if text.is_empty() { None } else { Some(text) }
}

/// The values for `edfmend` that texts are.
pub(crate) fn values_of<'a>(name: &'a str, texts: &[&'a str]) -> Option<MendValues<'a>>
    ensures { result ≡ values_of name.now (map (λ text. text.now) texts.now) }
{
    let [
        output,
        patient,
        set_patient,
        deidentify,
        startdate,
        starttime,
        all,
    ] = texts
    else {
        return None;
    };
    Some(MendValues {
        input: name,
        output: value_of(output),
        dry: output.is_empty(),
        patient: value_of(patient),
        set_patient: value_of(set_patient),
        deidentify: value_of(deidentify),
        startdate: value_of(startdate),
        starttime: value_of(starttime),
        all: !all.is_empty(),
    })
}
