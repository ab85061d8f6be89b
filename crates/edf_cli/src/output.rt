//! Writing lines.

ghost use Rattle.std.specs.Prelude.{◌≡◌, ℕ, [], List, false, IfOk, MatchResult};
ghost use Rattle.std.specs.List.{flat_map};
ghost use Rattle.edf_cli.specs.Output.{output_change, Gets, IsPut, IsLineWritten, IsWritten};
ghost use Rattle.edf_cli.specs.Output.{IsLinePrinted};

use crate::status::Status;
use edf_fragment::{Output, Remark, send};
use std::alloc::AllocError;

/// Writes a line, which has its own line feed. Is true if it was written whole; a line for whose
/// text there was no memory is not written.
pub fn put_line<W: Output>(out: &mut W, line: Result<Vec<u8>, AllocError>) -> bool
    ensures line { let w = output_change W.Output out.old out.new in
        MatchResult line (λ l. IsPut w l.items result) (λ _. Gets w [] × (result ≡ false)) }
    ensures put { (text : List ℕ) → IfOk line (λ l. l.items ≡ text) →
        IsLineWritten (output_change W.Output out.old out.new) text result }
{
    match line {
        Ok(line) => send(out, line.as_slice()),
        Err(_) => false,
    }
}

/// Writes bytes. Returns the status, or trouble if they were not written whole.
pub fn print_bytes<W: Output>(out: &mut W, bytes: &[u8], status: Status) -> Status
    ensures { IsWritten (output_change W.Output out.old out.new) bytes.now status result }
{
    if send(out, bytes) {
        status
    } else {
        Status::Trouble
    }
}

/// Writes a line, which has its own line feed. Returns the status, or trouble if it is not written.
pub fn print_text<W: Output>(
    out: &mut W,
    line: Result<Vec<u8>, AllocError>,
    status: Status,
) -> Status
    ensures line { let w = output_change W.Output out.old out.new in MatchResult line
        (λ l. IsWritten w l.items status result) (λ _. Gets w [] × (result ≡ Status.Trouble)) }
    ensures printed { (text : List ℕ) → IfOk line (λ l. l.items ≡ text) →
        IsLinePrinted (output_change W.Output out.old out.new) text status result }
{
    if put_line(out, line) {
        status
    } else {
        Status::Trouble
    }
}

/// Writes the parts of a text in turn. Is true if all were written. It takes no memory.
pub fn put_parts<W: Output>(out: &mut W, parts: &[&[u8]]) -> bool
    ensures { IsPut (output_change W.Output out.old out.new) (flat_map (λ part. part.now) parts.now)
        result }
{
    for part in parts {
        if !send(out, part) {
            return false;
        }
    }
    true
}

/// Writes the parts of a text in turn. Returns the status, or trouble if not all were written.
pub fn print_parts<W: Output>(out: &mut W, parts: &[&[u8]], status: Status) -> Status
    ensures { IsWritten (output_change W.Output out.old out.new)
        (flat_map (λ part. part.now) parts.now)
        status result }
{
    if put_parts(out, parts) {
        status
    } else {
        Status::Trouble
    }
}

/// Writes the parts of a line, and gives a remark on it for a person. Returns the status, or
/// trouble if the line was not written whole. It takes no memory.
pub fn print_line<W: Output>(
    out: &mut W,
    parts: &[&[u8]],
    name: &str,
    remark: Remark,
    status: Status,
) -> Status
    ensures { IsWritten (output_change W.Output out.old out.new)
        (flat_map (λ part. part.now) parts.now)
        status result }
{
    let printed = print_parts(out, parts, status);
    out.remark(name, remark);
    printed
}
