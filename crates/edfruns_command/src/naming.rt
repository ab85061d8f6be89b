//! The names of the files of runs.

ghost use Rattle.std.specs.Prelude.{◌≡◌, ◌++◌, ◌-◌, IfOk, OnOk, map, string_bytes};
ghost use Rattle.edfruns_command.specs.Naming.{padded, run_name, run_names, first_names};

use std::alloc::{AllocError, Global};

/// A number with zeros before it, so that it has `width` digits at least.
fn padded(alloc: Global, width: usize, number: usize) -> Result<String, AllocError>
    ensures { IfOk result (λ r. string_bytes r ≡ padded width number) }
{
    let digits = format!(in alloc; "{number}")?;
    let mut text = String::new(alloc);
    for _ in 0..width.saturating_sub(digits.len()) {
        text.push('0')?;
    }
    text.push_str(digits.as_str())?;
    Ok(text)
}

/// The name of the file of the run of that number.
fn run_name(alloc: Global, prefix: &str, width: usize, number: usize) -> Result<String, AllocError>
    ensures { IfOk result (λ r. string_bytes r ≡ run_name prefix.now width number) }
{
    let digits = padded(alloc, width, number)?;
    format!(in alloc; "{prefix}-{digits}.edf")
}

/// The names of the files of so many runs: `PREFIX-1.edf` and so on, where all numbers have as many
/// digits as the last.
pub(crate) fn run_names(
    alloc: Global,
    prefix: &str,
    count: usize,
) -> Result<Vec<String>, AllocError>
    ensures { IfOk result (λ r. map string_bytes r.items ≡ run_names prefix.now count) }
{
    let last = format!(in alloc; "{count}")?;
    let width = last.len();
    let mut names = Vec::new(alloc);
    for at in 0..count {
        names.push(run_name(alloc, prefix, width, at + 1)?)?;
    }
    Ok(names)
}

/// The greatest count of digits of a run's number: a file has at most 99,999,999 data records.
const MOST_DIGITS: usize = 8;

/// Adds the names of the files of the first run with 1, 2 and up to 8 digits: one of them is there
/// where an earlier split had this prefix and its first file was not moved away.
pub(crate) fn push_first_names(
    alloc: Global,
    prefix: &str,
    names: &mut Vec<String>,
) -> Result<(), AllocError>
    ensures { OnOk result (map string_bytes names.new.items
        ≡ map string_bytes names.old.items ++ first_names prefix.now) }
{
    for at in 0..MOST_DIGITS {
        names.push(run_name(alloc, prefix, at + 1, 1)?)?;
    }
    Ok(())
}
