//! The lines why a command is not done.

ghost use Rattle.std.specs.Prelude.{◌⊎◌};
ghost use Rattle.edf_cli.specs.Output.{output_change, IsWritten};
ghost use Rattle.edf_cli.specs.Text.{memory_line};
ghost use Rattle.edfruns_command.specs.Canonical.{TellsOutside};
ghost use Rattle.edfruns_command.specs.Lines.{canonical_refused_line, crowded_line};
ghost use Rattle.edfruns_command.specs.Lines.{file_refused_line, file_refused_status};
ghost use Rattle.edfruns_command.specs.Lines.{reread_line, undated_line, unwritten_line};

use edf_cli::{
    Status, fragment_fault_text, print_line, print_memory, print_parts, print_refused,
    status_of_number,
};
use edf_fragment::{FragmentFault, Output, Remark};
use edf_runs::WriteFault;
use itoa::Buffer;
use std::alloc::Global;

/// What the line names where standard output can't be written.
pub(crate) const STANDARD_OUTPUT: &str = "standard output";

/// Prints why a file is refused, or can't be read.
pub(crate) fn refuse<F: Output>(
    alloc: Global,
    file: &str,
    fault: FragmentFault,
    err: &mut F,
) -> Status
    ensures { let w = output_change F.Output err.old err.new in
        IsWritten w (file_refused_line file.now fault) (file_refused_status fault) result
        ⊎ IsWritten w (memory_line file.now) Status.Trouble result }
{
    let status = status_of_number(fault.number());
    match fragment_fault_text(alloc, &fault) {
        Ok(text) => {
            let parts = [file.as_bytes(), b" refused ", text.as_bytes(), b"\n"];
            print_line(err, &parts, file, Remark::Fault(fault), status)
        }
        Err(_) => print_memory(err, file),
    }
}

/// Prints that the run of that number starts where no file without a date can. Printing takes no
/// memory.
pub(crate) fn tell_undated<F: Output>(err: &mut F, number: usize) -> Status
    ensures { IsWritten (output_change F.Output err.old err.new)
        (undated_line number) Status.Refused
        result }
{
    let mut buffer = Buffer::new();
    let digits = buffer.format(number);
    let parts = [
        b"run ".as_slice(),
        digits.as_bytes(),
        b" starts after 2084, which a file without a date can't tell\n",
    ];
    print_parts(err, &parts, Status::Refused)
}

/// Prints that by onset a data record of the run of that number would have more annotations than
/// one may have. Printing takes no memory.
pub(crate) fn tell_crowded<F: Output>(err: &mut F, number: u64) -> Status
    ensures { IsWritten (output_change F.Output err.old err.new)
        (crowded_line number) Status.Refused
        result }
{
    let mut buffer = Buffer::new();
    let digits = buffer.format(number);
    let parts = [
        b"run ".as_slice(),
        digits.as_bytes(),
        b" would have too many annotations in a data record\n",
    ];
    print_parts(err, &parts, Status::Refused)
}

/// Prints why the second reading of a file stopped. Printing takes no memory.
pub(crate) fn print_reread<F: Output>(
    err: &mut F,
    file: &str,
    fault: WriteFault,
    status: Status,
) -> Status
    ensures { IsWritten (output_change F.Output err.old err.new) (reread_line file.now fault) status
        result }
{
    let (read, memory) = (FragmentFault::Read, FragmentFault::Memory);
    match fault {
        WriteFault::Changed => {
            let parts = [
                file.as_bytes(),
                b" changed between its readings\n".as_slice(),
            ];
            print_parts(err, &parts, status)
        }
        WriteFault::Memory => print_refused(err, file, memory.number(), memory.name(), status),
        _ => print_refused(err, file, read.number(), read.name(), status),
    }
}

/// Prints that an output can't be written. Printing takes no memory.
pub(crate) fn print_unwritten<F: Output>(err: &mut F, output: &str, status: Status) -> Status
    ensures { IsWritten (output_change F.Output err.old err.new) (unwritten_line output.now) status
        result }
{
    print_refused(err, output, 43, "Write", status)
}

/// Prints why a canonical file is not written. Printing takes no memory.
pub(crate) fn refuse_canonical<F: Output>(file: &str, fault: WriteFault, err: &mut F) -> Status
    ensures { IsWritten (output_change F.Output err.old err.new)
        (canonical_refused_line file.now fault)
        Status.Trouble result }
{
    match fault {
        WriteFault::Write => print_unwritten(err, STANDARD_OUTPUT, Status::Trouble),
        _ => print_reread(err, file, fault, Status::Trouble),
    }
}

/// Prints of how many annotations no data record has the onset, where there are any. Printing takes
/// no memory.
pub(crate) fn tell_outside<F: Output>(err: &mut F, file: &str, outside: u64) -> Status
    ensures { TellsOutside (output_change F.Output err.old err.new) file.now outside result }
{
    if outside == 0 {
        return Status::Done;
    }
    let mut buffer = Buffer::new();
    let digits = buffer.format(outside);
    let parts = [
        file.as_bytes(),
        b" outside=".as_slice(),
        digits.as_bytes(),
        b"\n",
    ];
    print_parts(err, &parts, Status::Done)
}
