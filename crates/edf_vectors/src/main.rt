//! Cases of the crates below the store. Each is a line of standard input: a name; its cells, each
//! after a `|`; ` = ` and the answer that the standards and the documents give. A line that begins
//! with `#` is a title. Titles are written out, and each case whose answer is another.
//!
//! In a cell `\` and two hex digits stand for a byte, `{3*ab}` for three times `ab`, `{2*3*ab}` for
//! twice that. Fields are filled with spaces.
//!
//! - `times`, `texts`: decimals, instants and dates; the texts of header fields.
//! - `blocks`: annotations blocks.
//! - `headers`, `fragments`: files by their names and the changes of them, which `bases` has.
#![tactic(auto)]

mod bases;
mod blocks;
mod cells;
mod fragments;
mod headers;
mod texts;
mod times;

use std::alloc::{AllocError, Global};
use std::io;

/// The answer to a case of times or of the text of a field.
fn of_texts(alloc: Global, name: &str, cells: &[Vec<u8>]) -> Option<String> {
    match name {
        "decimal" => times::decimal(alloc, cells),
        "shortest" => times::shortest(alloc, cells),
        "start" => times::start(alloc, cells),
        "date" => times::date(alloc, cells),
        "before" => times::before(alloc, cells),
        "instant" => times::instant(alloc, cells),
        "moved" => times::moved(alloc, cells),
        "since" => times::since(alloc, cells),
        "whole" => texts::whole(alloc, cells),
        "signed" => texts::signed(alloc, cells),
        "duration" => texts::duration(alloc, cells),
        "differ" => texts::differ(alloc, cells),
        "spaces" => texts::spaces(alloc, cells),
        "leading" => texts::leading(alloc, cells),
        "unsigned" => texts::unsigned(alloc, cells),
        "subfield" => texts::subfield(alloc, cells),
        "patient" => texts::patient(alloc, cells),
        "recording" => texts::recording(alloc, cells),
        "rest" => texts::rest(alloc, cells),
        _ => None,
    }
}

/// The answer to a case of blocks, headers or fragments.
fn of_files(alloc: Global, name: &str, cells: &[Vec<u8>]) -> Option<String> {
    match name {
        "block" => blocks::block(alloc, cells),
        "blocks" => blocks::blocks(alloc, cells),
        "limits" => blocks::limits(alloc, cells),
        "written" => blocks::written(alloc, cells),
        "annotation" => blocks::annotation(alloc, cells),
        "same" => blocks::same(alloc, cells),
        "fixed" => headers::fixed(alloc, cells),
        "header" => headers::header(alloc, cells),
        "row" => headers::row(alloc, cells),
        "offsets" => headers::offsets(alloc, cells),
        "identity of" => headers::identity_of(alloc, cells),
        "identity" => headers::identity(alloc, cells),
        "bytes" => headers::bytes(alloc, cells),
        "may start" => headers::may_start(alloc, cells),
        "canonical" => headers::canonical(alloc, cells),
        "fragment" => fragments::fragment(alloc, cells),
        "pieces" => fragments::pieces(alloc, cells),
        "record" => fragments::record(alloc, cells),
        "clash" => fragments::clashes(alloc, cells),
        _ => None,
    }
}

/// The answer to a case.
fn answer(alloc: Global, case: &str) -> Option<String> {
    let mut parts = case.split('|');
    let name = parts.next()?;
    let mut cells = Vec::new(alloc);
    for part in parts {
        cells.push(cells::bytes(alloc, part).ok()?).ok()?;
    }
    match of_texts(alloc, name, cells.as_slice()) {
        Some(answer) => Some(answer),
        None => of_files(alloc, name, cells.as_slice()),
    }
}

/// What is written of a case that has this answer.
fn compared(
    alloc: Global,
    case: &str,
    answer: &str,
    expected: &str,
) -> Result<Option<String>, AllocError> {
    if answer == expected {
        return Ok(None);
    }
    Ok(Some(format!(in alloc; "{case} = {answer}, and not {expected}")?))
}

/// What is written of a line: a title, or a case that has no answer, or another than it expects.
fn shown(alloc: Global, line: &str) -> Result<Option<String>, AllocError> {
    if line.is_empty() {
        return Ok(None);
    }
    if line.starts_with('#') {
        return Ok(Some(String::from_str(alloc, line)?));
    }
    let (case, expected) = line.split_once(" = ").unwrap_or((line, ""));
    match answer(alloc, case) {
        Some(answer) => compared(alloc, case, answer.as_str(), expected),
        None => Ok(Some(format!(in alloc; "{line} has no answer")?)),
    }
}

fn main(rt: HostRuntime) -> io::Result<()> {
    for line in rt.lines(rt.alloc()) {
        if let Some(text) = shown(rt.alloc(), line?.as_str())? {
            println!(rt; "{text}")?;
        }
    }
    Ok(())
}
