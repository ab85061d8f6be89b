//! The lines of a ledger: a line for each field that differs.

ghost use Rattle.std.specs.Prelude.{◌≡◌, ◌++◌, ◌∷◌, [], ◌<◌, length, IfOk, OnOk};
ghost use Rattle.edf_cli.specs.Output.{output_change};
ghost use Rattle.edfmend_command.specs.Run.{AreLines, one_line, IsLedger, IsLedgerPrinted};

use edf_cli::{Status, concat, print_parts};
use edf_fragment::{Output, send};
use edf_mend::{Change, Mended};
use std::alloc::{AllocError, Global};

/// Returns a digit to the base 16.
fn hex_digit(n: u8) -> u8
    requires { n < 16 }
{
    if n <= 9 { 48 + n } else { 87 + n }
}

/// Adds a byte of a text in quotes: one that is not printable as `\x` and two digits.
fn push_quoted_byte(text: &mut Vec<u8>, b: u8) -> Result<(), AllocError> {
    if b == b'"' || b == b'\\' {
        text.extend_from_slice(&[b'\\', b])
    } else if 32 <= b && b <= 126 {
        text.extend_from_slice(&[b])
    } else {
        text.extend_from_slice(&[b'\\', b'x', hex_digit(b / 16), hex_digit(b % 16)])
    }
}

/// Returns bytes in quotes.
fn quoted(alloc: Global, bytes: &[u8]) -> Result<Vec<u8>, AllocError> {
    let mut text = Vec::new(alloc);
    for b in bytes {
        push_quoted_byte(&mut text, *b)?;
    }
    concat(alloc, &[b"\"", text.as_slice(), b"\""])
}

/// Returns a field without the spaces at its end.
fn trimmed(field: &[u8]) -> &[u8] {
    let mut end = field.len();
    while end > 0 && field[end - 1] == b' ' {
        end -= 1;
    }
    &field[..end]
}

/// Returns the name of a field, by its offset in the fixed part or in a signal.
fn field_name(is_fixed: bool, place: usize) -> &'static str {
    match (is_fixed, place) {
        (true, 0) => "version",
        (true, 8) => "patient",
        (true, 88) => "recording",
        (true, 168) => "startdate",
        (true, 176) => "starttime",
        (true, 184) => "header_bytes",
        (true, 192) => "reserved",
        (true, 236) => "count",
        (true, 244) => "duration",
        (true, _) => "signals",
        (false, 0) => "label",
        (false, 16) => "transducer",
        (false, 96) => "dimension",
        (false, 104) => "physical_minimum",
        (false, 112) => "physical_maximum",
        (false, 120) => "digital_minimum",
        (false, 128) => "digital_maximum",
        (false, 136) => "prefiltering",
        (false, 216) => "samples",
        (false, _) => "reserved",
    }
}

/// Returns the name of a field that differs, behind its signal.
fn place_text(alloc: Global, change: &Change) -> Result<Vec<u8>, AllocError> {
    if change.place == 256 {
        let record = change.signal;
        let text = format!(in alloc; "annotations record={record}")?;
        return Ok(text.into_bytes());
    }
    let name = field_name(change.signal == 0, change.place);
    if change.signal == 0 {
        return Vec::from_slice(alloc, name.as_bytes());
    }
    let signal = change.signal;
    let text = format!(in alloc; "signal {signal} {name}")?;
    Ok(text.into_bytes())
}

/// Returns the line of a field that differs, without its end: where it is, its bytes and the new
/// ones.
fn change_line(alloc: Global, change: &Change) -> Result<Vec<u8>, AllocError> {
    let place = place_text(alloc, change)?;
    let at = change.at;
    let front = format!(in alloc; " at={at} old=")?;
    let old = quoted(alloc, trimmed(change.old.as_slice()))?;
    let new = quoted(alloc, trimmed(change.new.as_slice()))?;
    let parts = [
        place.as_slice(),
        front.as_bytes(),
        old.as_slice(),
        b" new=",
        new.as_slice(),
    ];
    concat(alloc, &parts)
}

/// Adds a line.
fn push_line(text: &mut Vec<u8>, line: &[u8]) -> Result<(), AllocError>
    ensures { OnOk result (text.new.items ≡ text.old.items ++ (line.now ++ (10 ∷ []))) }
{
    text.extend_from_slice(line)?;
    text.push(b'\n')?;
    Ok(())
}

/// Returns the lines of fields that differ.
fn changes_text(alloc: Global, changes: &[Change]) -> Result<Vec<u8>, AllocError>
    ensures { IfOk result (λ r. AreLines (length changes.now) r.items) }
{
    let mut text = Vec::new(alloc);
    for change in changes {
        let line = change_line(alloc, change)?;
        push_line(&mut text, line.as_slice())?;
    }
    Ok(text)
}

/// Returns the line of a file in which no field differs.
fn one_line(alloc: Global, file: &str, is_good: bool) -> Result<Vec<u8>, AllocError>
    ensures { IfOk result (λ r. r.items ≡ one_line is_good file.now) }
{
    if is_good {
        return concat(alloc, &[file.as_bytes(), b" needs nothing\n"]);
    }
    concat(alloc, &[file.as_bytes(), b" differs in fill at most\n"])
}

/// Returns a line for each field that differs, and one for bytes that were left out; or the one of
/// a file in which no field differs.
fn ledger_text(
    alloc: Global,
    file: &str,
    is_good: bool,
    mended: &Mended,
) -> Result<Vec<u8>, AllocError>
    ensures { IfOk result (λ r. IsLedger is_good file.now mended.now.changes.items
        mended.now.left_out r.items) }
{
    let mut text = changes_text(alloc, mended.changes.as_slice())?;
    if mended.left_out != 0 {
        let bytes = mended.left_out;
        let line = format!(in alloc; "left_out bytes={bytes}")?;
        push_line(&mut text, line.as_bytes())?;
        return Ok(text);
    }
    if mended.changes.is_empty() {
        return Ok(one_line(alloc, file, is_good)?);
    }
    Ok(text)
}

/// Prints a line for each field that differs; where these can't be written, a line that says so
/// goes to `err`. All lines are in memory before the first is written.
pub(crate) fn print_ledger<O: Output, F: Output>(
    alloc: Global,
    file: &str,
    is_good: bool,
    mended: &Mended,
    out: &mut O,
    err: &mut F,
) -> Status
    ensures { IsLedgerPrinted (output_change O.Output out.old out.new)
        (output_change F.Output err.old err.new) is_good file.now mended.now result }
{
    let Ok(text) = ledger_text(alloc, file, is_good, mended) else {
        let parts = [b"standard output refused E41 Memory\n".as_slice()];
        return print_parts(err, &parts, Status::Trouble);
    };
    if send(out, text.as_slice()) {
        return Status::Done;
    }
    let parts = [b"standard output refused E43 Write\n".as_slice()];
    print_parts(err, &parts, Status::Trouble)
}
