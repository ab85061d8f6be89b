//! The version of the programs, and the faults of their command lines.

ghost use Rattle.std.specs.Prelude.{◌≡◌, false, true, IfOk};
ghost use Rattle.clap.specs.Words.{kind_of};
ghost use Rattle.edf_cli.specs.Output.{output_change};
ghost use Rattle.edf_cli.specs.Words.{IsNoHelp, IsNoUsage, IsCommandFaultPrinted, is_mistake};

use crate::output::print_bytes;
use crate::status::Status;
use crate::text::print_memory;
use clap::error::ErrorKind;
use clap::{Command, Error};
use edf_fragment::Output;
use std::alloc::{AllocError, Global};

/// The version, as `--version` prints it. No other place of the repository has it.
pub const VERSION: &str = "2.0.1";

/// A command line asks for nothing.
#[derive(Debug, Drop, thiserror::Error)]
pub enum CommandFault {
    /// Help or the version was asked for: its text, for standard output.
    #[error("{0}")]
    Help(String),
    /// The words ask for nothing that can be done: why, and how the command is used, for standard
    /// error.
    #[error("{0}")]
    Usage(String),
    /// Memory ran out.
    #[error("out of memory")]
    Memory,
}

impl From<AllocError> for CommandFault {
    ghost use Rattle.edf_cli.specs.declared.words.CommandFault.{CommandFault};

    ghost from_gives = { λ _ fault. fault ≡ CommandFault.Memory };

    fn from(_refused: AllocError) -> CommandFault {
        CommandFault::Memory
    }
}

/// Returns the fault for what `clap` refused, by its kind and with its text.
pub fn fault_by(alloc: Global, error: &Error) -> CommandFault
    ensures memory { kind_of error.now ≡ ErrorKind.OutOfMemory → result ≡ CommandFault.Memory }
    ensures usage { is_mistake (kind_of error.now) ≡ true → IsNoHelp result }
    ensures help { is_mistake (kind_of error.now) ≡ false → IsNoUsage result }
{
    if error.kind() == ErrorKind::OutOfMemory {
        return CommandFault::Memory;
    }
    match format!(in alloc; "{error}") {
        Err(_) => CommandFault::Memory,
        Ok(text) if error.use_stderr() => CommandFault::Usage(text),
        Ok(text) => CommandFault::Help(text),
    }
}

/// Returns the fault for a value that `clap` takes as any text, with the usage of its command,
/// which is called by `name` there.
pub fn refuse_value(
    alloc: Global,
    command: Command<'_>,
    name: &str,
    why: &str,
) -> Result<CommandFault, AllocError>
    ensures { IfOk result IsNoHelp }
{
    let mut named = command.bin_name(name)?;
    let error = named.error(ErrorKind::ValueValidation, why)?;
    Ok(fault_by(alloc, &error))
}

/// Prints why no command is run: help to `out`; else to `err` why the words ask for nothing, or
/// that memory ran out.
pub fn print_fault<O: Output, F: Output>(fault: &CommandFault, out: &mut O, err: &mut F) -> Status
    ensures { IsCommandFaultPrinted (output_change O.Output out.old out.new)
        (output_change F.Output err.old err.new)
        fault.now result }
{
    match fault {
        CommandFault::Help(text) => print_bytes(out, text.as_bytes(), Status::Done),
        CommandFault::Usage(text) => print_bytes(err, text.as_bytes(), Status::Usage),
        CommandFault::Memory => print_memory(err, "command"),
    }
}
