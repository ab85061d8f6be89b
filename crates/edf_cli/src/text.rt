//! Texts of instants, and of refusals: `E`, the number, the name, and the details.

ghost use Rattle.std.specs.Prelude.{◌≡◌, ◌++◌, ℕ, List, IfOk, OnOk, string_bytes};
ghost use Rattle.std.specs.List.{flat_map};
ghost use Rattle.edf_cli.specs.Output.{output_change, IsWritten};
ghost use Rattle.edf_cli.specs.Text.{IsInstantFormat, detail, fragment_details};
ghost use Rattle.edf_cli.specs.Text.{fragment_fault_text, memory_line, refused_line, there_line};

use crate::output::print_line;
use crate::status::Status;
use edf_fragment::{FragmentFault, Output, Remark};
use edf_time::laws::instant_is_in_window;
use edf_time::{Instant, instant_text};
use itoa::Buffer;
use std::alloc::{AllocError, Global};

/// Joins the parts of a text.
pub fn concat(alloc: Global, parts: &[&[u8]]) -> Result<Vec<u8>, AllocError>
    ensures { IfOk result (λ r. r.items ≡ flat_map (λ part. part.now) parts.now) }
{
    let mut text = Vec::new(alloc);
    for part in parts {
        text.extend_from_slice(part)?;
    }
    Ok(text)
}

/// Returns the text of an instant.
pub fn spelled(alloc: Global, instant: Instant) -> Result<Vec<u8>, AllocError>
    ensures { IfOk result (λ r. (spell : ℕ → List ℕ) → IsInstantFormat spell →
        r.items ≡ spell instant) }
{
    // An instant of the window has one text.
    instant_is_in_window(instant);
    let text = instant_text(alloc, instant)?;
    Ok(text)
}

/// Widens a number that a fault names, if it names one.
fn widened(number: Option<u32>) -> Option<usize>
    ensures { result ≡ number }
{
    match number {
        Some(number) => Some(number as usize),
        None => None,
    }
}

/// Appends the value that a fault names, if it names one, after its label.
fn push_detail(text: &mut String, label: &str, value: Option<usize>) -> Result<(), AllocError>
    ensures { OnOk result
        (string_bytes text.new ≡ string_bytes text.old ++ detail label.now value) }
{
    match value {
        Some(value) => write!(text, "{label}{value}"),
        None => Ok(()),
    }
}

/// Returns the data record, the offset and the signal that a fault names, each after its label.
///
/// Data records and signals count from 1. An offset counts from 0: in the file for a header's fault
/// (E2, E15), in the data record's blocks for a fault of these (E22, E23).
pub fn fragment_details(alloc: Global, fault: &FragmentFault) -> Result<String, AllocError>
    ensures { IfOk result (λ r. string_bytes r ≡ fragment_details fault.now) }
{
    let mut text = String::new(alloc);
    push_detail(&mut text, " record=", widened(fault.record()))?;
    push_detail(&mut text, " offset=", fault.offset())?;
    push_detail(&mut text, " signal=", widened(fault.signal()))?;
    Ok(text)
}

/// Returns the text of a fragment's fault, which the line of a file that is refused for it has.
pub fn fragment_fault_text(alloc: Global, fault: &FragmentFault) -> Result<String, AllocError>
    ensures { IfOk result (λ r. string_bytes r ≡ fragment_fault_text fault.now) }
{
    let (number, name) = (fault.number(), fault.name());
    let details = fragment_details(alloc, fault)?;
    format!(in alloc; "E{number} {name}{details}")
}

/// Prints why something is refused: its name, and the fault's number and name. Printing takes no
/// memory.
pub fn print_refused<F: Output>(
    err: &mut F,
    name: &str,
    number: u8,
    fault: &str,
    status: Status,
) -> Status
    ensures { IsWritten (output_change F.Output err.old err.new)
        (refused_line name.now number fault.now) status result }
{
    let mut buffer = Buffer::new();
    let digits = buffer.format(number);
    let parts = [
        name.as_bytes(),
        b" refused E",
        digits.as_bytes(),
        b" ",
        fault.as_bytes(),
        b"\n",
    ];
    print_line(err, &parts, name, Remark::Refused(number), status)
}

/// Prints that something is refused for want of memory. Printing takes none.
pub fn print_memory<F: Output>(err: &mut F, name: &str) -> Status
    ensures { IsWritten (output_change F.Output err.old err.new)
        (memory_line name.now) Status.Trouble
        result }
{
    let fault = FragmentFault::Memory;
    print_refused(err, name, fault.number(), fault.name(), Status::Trouble)
}

/// Prints that something has the name that a file was to get. Printing takes no memory.
pub fn print_name_taken<F: Output>(err: &mut F, name: &str) -> Status
    ensures { IsWritten (output_change F.Output err.old err.new)
        (there_line name.now) Status.Refused
        result }
{
    let parts = [name.as_bytes(), b" is there already; nothing was written\n"];
    print_line(err, &parts, name, Remark::Taken, Status::Refused)
}
