//! The lines why a file is not mended.

ghost use Rattle.std.specs.Prelude.{◌≡◌, ◌+◌, ◌≤◌, length, IfOk};
ghost use Rattle.std.specs.List.{flat_map};
ghost use Rattle.edf_cli.specs.Output.{output_change, IsWritten};
ghost use Rattle.edfmend_command.specs.Run.{SaysWhy, why_status};

use edf_cli::{Status, concat, fragment_fault_text, print_line, print_parts, status_of_number};
use edf_fragment::{Output, Remark};
use edf_mend::MendFault;
use std::alloc::{AllocError, Global};

/// The names of the file to mend and of the new one.
#[derive(Clone, Copy)]
pub(crate) struct Names<'a> {
    pub(crate) old: &'a str,
    pub(crate) new: &'a str,
}

/// What is said of a file that is asked something.
const NO_CODE: &[u8] = b" names no code of a patient: give one by --patient CODE";

const NO_PATIENT: &[u8] = b" has a patient field that has no room in ASCII";

const NO_COUNT: &[u8] =
    b" has another number of data records than its header says: --all takes all that are there";

const NO_ROOM: &[u8] =
    b" has no room for the word mended in its recording field: 7 bytes are wanted";

/// Returns some words between two texts.
fn said(alloc: Global, front: &[u8], words: &[u8], back: &[u8]) -> Result<Vec<u8>, AllocError>
    requires { 1 ≤ length words.now }
    ensures { IfOk result (λ r. 1 ≤ length r.items) }
{
    concat(alloc, &[front, words, back])
}

/// Returns the line why a file is not mended, without its end.
fn why_text(alloc: Global, names: Names<'_>, fault: &MendFault) -> Result<Vec<u8>, AllocError>
    ensures { IfOk result (λ r. 1 ≤ length r.items) }
{
    let (old, new) = (names.old.as_bytes(), names.new.as_bytes());
    let none = b"".as_slice();
    match fault {
        MendFault::Refused(met) => {
            let text = fragment_fault_text(alloc, met)?;
            said(alloc, old, b" refused ", text.as_bytes())
        }
        MendFault::Code => said(alloc, old, NO_CODE, none),
        MendFault::Unused { own } => {
            let front = concat(alloc, &[b"patient unused: ", old])?;
            said(alloc, front.as_slice(), b" names ", own.as_slice())
        }
        MendFault::Startdate { own } => {
            let front = concat(alloc, &[b"startdate unused: ", old])?;
            said(alloc, front.as_slice(), b" has ", own)
        }
        MendFault::Starttime { own } => {
            let front = concat(alloc, &[b"starttime unused: ", old])?;
            said(alloc, front.as_slice(), b" has ", own)
        }
        MendFault::Text { signal } => {
            let text = format!(in alloc; "{signal} that has no room in ASCII")?;
            said(alloc, old, b" has a text of signal ", text.as_bytes())
        }
        MendFault::Patient => said(alloc, old, NO_PATIENT, none),
        MendFault::Count => said(alloc, old, NO_COUNT, none),
        MendFault::NoRoom => said(alloc, old, NO_ROOM, none),
        MendFault::Check => said(alloc, old, b" was read wrongly: an error of edfmend", none),
        MendFault::Changed => said(alloc, old, b" changed between its readings", none),
        MendFault::Read => said(alloc, old, b" refused E40 Read", none),
        MendFault::Memory => said(alloc, old, b" refused E41 Memory", none),
        MendFault::Write => said(alloc, new, b" refused E43 Write", none),
    }
}

/// Returns the status of a fault.
fn why_status(fault: &MendFault) -> Status
    ensures { result ≡ why_status fault.now }
{
    match fault {
        MendFault::Refused(met) => status_of_number(met.number()),
        MendFault::Check => Status::Trouble,
        MendFault::Changed => Status::Trouble,
        MendFault::Read => Status::Trouble,
        MendFault::Memory => Status::Trouble,
        MendFault::Write => Status::Trouble,
        _ => Status::Refused,
    }
}

/// Returns what the terminal says below the line of a fault, and of which file.
fn remark_of<'a>(names: Names<'a>, fault: &MendFault) -> Option<(&'a str, Remark)> {
    match fault {
        MendFault::Refused(met) => Some((names.old, Remark::Fault(*met))),
        MendFault::Read => Some((names.old, Remark::Refused(40))),
        MendFault::Memory => Some((names.old, Remark::Refused(41))),
        MendFault::Write => Some((names.new, Remark::Refused(43))),
        _ => None,
    }
}

/// Prints the lines of a fault. A remark comes behind the line that it is about.
fn print_why<F: Output>(
    names: Names<'_>,
    fault: &MendFault,
    parts: &[&[u8]],
    status: Status,
    err: &mut F,
) -> Status
    ensures { IsWritten (output_change F.Output err.old err.new)
        (flat_map (λ part. part.now) parts.now) status result }
{
    match remark_of(names, fault) {
        Some((name, remark)) => print_line(err, parts, name, remark, status),
        None => print_parts(err, parts, status),
    }
}

/// Prints the line of a fault, of two parts, and that a part of the new file could not be removed.
fn print_left<F: Output>(
    names: Names<'_>,
    fault: &MendFault,
    front: &[u8],
    back: &[u8],
    is_left: bool,
    err: &mut F,
) -> Status
    requires { 1 ≤ length front.now + length back.now }
    ensures { SaysWhy (output_change F.Output err.old err.new) names.entry.new.now fault.now is_left
        result }
{
    if is_left {
        let end = b".part could not be removed\n".as_slice();
        let parts = [front, back, b"\n", names.new.as_bytes(), end];
        return print_why(names, fault, &parts, Status::Trouble, err);
    }
    let parts = [front, back, b"\n"];
    print_why(names, fault, &parts, why_status(fault), err)
}

/// Prints why a file is not mended, or can't be written, and that a part of the new file could not
/// be removed.
pub(crate) fn refuse<F: Output>(
    alloc: Global,
    names: Names<'_>,
    fault: &MendFault,
    is_left: bool,
    err: &mut F,
) -> Status
    ensures { SaysWhy (output_change F.Output err.old err.new) names.entry.new.now fault.now is_left
        result }
{
    match why_text(alloc, names, fault) {
        Ok(text) => print_left(names, fault, text.as_slice(), b"", is_left, err),
        Err(_) => {
            let (old, words) = (names.old.as_bytes(), b" refused E41 Memory".as_slice());
            print_left(names, &MendFault::Memory, old, words, is_left, err)
        }
    }
}
