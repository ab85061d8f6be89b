//! The command: a file is read twice, and the mended one is made.

ghost use Rattle.std.specs.Prelude.{◌⊎◌, ℕ, List, Some, false, MatchResult, string_bytes};
ghost use Rattle.edf_cli.specs.Opened.{OpensUpTo};
ghost use Rattle.edf_cli.specs.Output.{output_change};
ghost use Rattle.edf_cli.specs.Making.{making};
ghost use Rattle.edfmend_command.specs.Inside.{Plans, MakesFile, StopsMaking, is_good};
ghost use Rattle.edfmend_command.specs.Run.{IsMended, IsRefused, IsDoneTo, IsMendDone, meaning};

use crate::lines::print_ledger;
use crate::planning::{Plan, plan_of, write_again};
use crate::refusal::{Names, refuse};
use edf_cli::{Inputs, NewFiles, Status, print_name_taken};
use edf_fragment::{Counted, Output};
use edf_mend::{MendFault, Mended, Wanted};
use std::alloc::Global;
use std::io;

/// What a command line of `edfmend` asks for.
#[derive(Debug, Drop)]
pub struct MendCommand {
    /// The file to mend. It is not `-`.
    pub input: String,
    /// The new file, or none where only the changes are told.
    pub output: Option<String>,
    /// What it is asked for.
    pub wanted: Wanted,
}

/// The reason why no file was made, and whether a part of it is left, which could not be removed.
#[derive(Drop)]
struct Stop {
    fault: MendFault,
    is_left: bool,
}

/// Reads a file as often as it is read, writes nothing, and prints its changes, or why there are
/// none.
fn print_changes<I: Inputs, O: Output, F: Output>(
    alloc: Global,
    file: &str,
    wanted: &Wanted,
    inputs: &mut I,
    out: &mut O,
    err: &mut F,
) -> Status
    ensures printed { let o = output_change O.Output out.old out.new in
        let e = output_change F.Output err.old err.new in
        let bytes = I.bytes inputs.old file.now in
        ((new : List ℕ) × IsMended o e file.now bytes wanted.now result new)
        ⊎ IsRefused o e file.now bytes wanted.now result file.now false }
    ensures opened { OpensUpTo (I.opened inputs.old) (I.opened inputs.new) file.now 3 }
{
    let names = Names {
        old: file,
        new: file,
    };
    let plan = match plan_of(alloc, file, wanted, inputs) {
        Ok(plan) => plan,
        Err(fault) => return refuse(alloc, names, &fault, false, err),
    };
    let mut nowhere = Counted::new(io::sink());
    match write_again(alloc, file, wanted, &plan, inputs, &mut nowhere) {
        Ok(mended) => print_ledger(alloc, file, plan.is_good(), &mended, out, err),
        Err(fault) => refuse(alloc, names, &fault, false, err),
    }
}

/// Makes the mended file. After an error no part of it is left, if it could be removed.
fn make_file<I: Inputs, M: NewFiles>(
    alloc: Global,
    file: &str,
    wanted: &Wanted,
    plan: &Plan,
    name: &str,
    inputs: &mut I,
    maker: &mut M,
) -> Result<Mended, Stop>
    ensures answer { Plans (I.bytes inputs.old file.now) wanted.now plan.now → MatchResult result
        (MakesFile (I.bytes inputs.old file.now) wanted.now (M.made maker.old) (M.made maker.new)
        name.now (M.known maker.old) (is_good plan.now))
        (StopsMaking (I.bytes inputs.old file.now) wanted.now (M.made maker.old) (M.made maker.new)
        name.now) }
    ensures opened { OpensUpTo (I.opened inputs.old) (I.opened inputs.new) file.now 1 }
{
    let place = maker.count();
    let Ok(mut writer) = maker.create(alloc, name) else {
        return Err(Stop {
            fault: MendFault::Write,
            is_left: false,
        });
    };
    match write_again(alloc, file, wanted, plan, inputs, &mut writer) {
        Ok(mended) => match maker.finish(writer) {
            Ok(_) => Ok(mended),
            Err(_) => {
                let is_left = !maker.remove(place);
                let fault = MendFault::Write;
                Err(Stop { fault, is_left })
            }
        },
        Err(fault) => {
            maker.abandon(writer);
            let is_left = !maker.remove(place);
            Err(Stop { fault, is_left })
        }
    }
}

/// Makes the mended file, and prints its changes. Where anything fails before it has its name,
/// nothing is left.
fn mend_to<I: Inputs, M: NewFiles, O: Output, F: Output>(
    alloc: Global,
    file: &str,
    wanted: &Wanted,
    name: &str,
    inputs: &mut I,
    maker: &mut M,
    out: &mut O,
    err: &mut F,
) -> Status
    ensures done { IsDoneTo (making M.NewFiles maker.old maker.new)
        (output_change O.Output out.old out.new) (output_change F.Output err.old err.new)
        file.now (I.bytes inputs.old file.now) wanted.now (Some name.now) result }
    ensures opened { OpensUpTo (I.opened inputs.old) (I.opened inputs.new) file.now 3 }
{
    if maker.is_there(name) {
        return print_name_taken(err, name);
    }
    let names = Names {
        old: file,
        new: name,
    };
    let plan = match plan_of(alloc, file, wanted, inputs) {
        Ok(plan) => plan,
        Err(fault) => return refuse(alloc, names, &fault, false, err),
    };
    match make_file(alloc, file, wanted, &plan, name, inputs, maker) {
        Ok(mended) => print_ledger(alloc, file, plan.is_good(), &mended, out, err),
        Err(stop) => refuse(alloc, names, &stop.fault, stop.is_left, err),
    }
}

/// Mends a file: the new one is made, or only its changes are printed. IN is read twice, or three
/// times where nothing is asked of it and it is no good file. It is never written.
///
/// The new file has its name once it is whole; where there is something of that name, nothing is
/// made. Then its changes go to `out`, a line a change. Where that can't be written whole the
/// answer is `Trouble`, the new file stays, and a line of `err` says so. Why it is not made goes to
/// `err`; then no part of it is left, or one more line names the part that could not be removed.
pub fn run_mend<I: Inputs, M: NewFiles, O: Output, F: Output>(
    alloc: Global,
    command: &MendCommand,
    inputs: &mut I,
    maker: &mut M,
    out: &mut O,
    err: &mut F,
) -> Status
    ensures done { IsMendDone (making M.NewFiles maker.old maker.new)
        (output_change O.Output out.old out.new) (output_change F.Output err.old err.new)
        (I.bytes inputs.old (string_bytes command.now.input)) (meaning command.now) result }
    ensures opened { OpensUpTo (I.opened inputs.old) (I.opened inputs.new)
        (string_bytes command.now.input) 3 }
{
    let file = command.input.as_str();
    match &command.output {
        Some(name) => {
            let name = name.as_str();
            mend_to(alloc, file, &command.wanted, name, inputs, maker, out, err)
        }
        None => print_changes(alloc, file, &command.wanted, inputs, out, err),
    }
}
