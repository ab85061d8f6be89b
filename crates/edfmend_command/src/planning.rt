//! The two readings of a file: a good one of which nothing is asked is read strictly, any other
//! leniently.

ghost use Rattle.std.specs.Prelude.{◌≡◌, ◌⊎◌, ◌++◌, ℕ, List, IfOk, IfErr, MatchResult, replicate};
ghost use Rattle.edf_cli.specs.Opened.{OpensUpTo};
ghost use Rattle.edfmend_command.specs.Inside.{PlansStrictly, Plans, MendsAs, is_good};
ghost use Rattle.edfmend_command.specs.Run.{IsNotMended, IsTrouble};

use edf_canonical::Measure;
use edf_cli::Inputs;
use edf_fragment::{FragmentFault, Input, Output};
use edf_mend::{MendFault, Mended, Wanted, measure, write_mended};
use edf_runs::{Outline, WriteFault, read_outline_of, write_canonical};
use std::alloc::Global;

/// What a first reading found.
#[derive(Drop)]
pub(crate) enum Plan {
    /// The file is good, and nothing is asked: this is all of it but its samples.
    Strict(Outline),
    /// It is mended: this is the measure of what is read of it.
    Lenient(Measure),
}

impl Plan {
    ghost use Rattle.std.specs.Prelude.{◌≡◌};
    ghost use Rattle.edfmend_command.specs.Inside.{is_good};

    /// Is true where the file is good.
    pub(crate) fn is_good(&self) -> bool
        ensures { result ≡ is_good self.now }
    {
        match self {
            Plan::Strict(_) => true,
            Plan::Lenient(_) => false,
        }
    }
}

/// Returns the outline of a good file; `None` where it is none. A file whose length does not fit
/// its header's count is not read to the end.
fn plan_strictly<I: Inputs>(
    alloc: Global,
    file: &str,
    inputs: &mut I,
) -> Result<Option<Outline>, MendFault>
    ensures plan { IfOk result (PlansStrictly (I.bytes inputs.old file.now)) }
    ensures trouble { IfErr result
        (λ fault. (fault ≡ MendFault.Read) ⊎ (fault ≡ MendFault.Memory)) }
    ensures opened { MatchResult result
        (λ _. I.opened inputs.new ≡ I.opened inputs.old ++ replicate 1 file.now)
        (λ _. OpensUpTo (I.opened inputs.old) (I.opened inputs.new) file.now 1) }
    ensures same { (name : List ℕ) → I.bytes inputs.new name ≡ I.bytes inputs.old name }
{
    let bytes = inputs.length(file);
    let Ok(mut reader) = inputs.open(alloc, file) else {
        return Err(MendFault::Memory);
    };
    match read_outline_of(alloc, &mut reader, bytes) {
        Ok(found) => Ok(found),
        Err(FragmentFault::Read) => Err(MendFault::Read),
        Err(FragmentFault::Memory) => Err(MendFault::Memory),
        Err(_) => Ok(None),
    }
}

/// Measures what a lenient reading gets of a file.
fn plan_leniently<I: Inputs>(
    alloc: Global,
    file: &str,
    wanted: &Wanted,
    inputs: &mut I,
) -> Result<Measure, MendFault>
    ensures opened { MatchResult result
        (λ _. I.opened inputs.new ≡ I.opened inputs.old ++ replicate 1 file.now)
        (λ _. OpensUpTo (I.opened inputs.old) (I.opened inputs.new) file.now 1) }
    ensures same { (name : List ℕ) → I.bytes inputs.new name ≡ I.bytes inputs.old name }
{
    match inputs.open(alloc, file) {
        Ok(mut reader) => measure(alloc, &mut reader, wanted),
        Err(_) => Err(MendFault::Memory),
    }
}

/// Reads a file first.
pub(crate) fn plan_of<I: Inputs>(
    alloc: Global,
    file: &str,
    wanted: &Wanted,
    inputs: &mut I,
) -> Result<Plan, MendFault>
    ensures plan { IfOk result (Plans (I.bytes inputs.old file.now) wanted.now) }
    ensures trouble { IfErr result (IsNotMended (I.bytes inputs.old file.now) wanted.now) }
    ensures opened { OpensUpTo (I.opened inputs.old) (I.opened inputs.new) file.now 2 }
    ensures same { (name : List ℕ) → I.bytes inputs.new name ≡ I.bytes inputs.old name }
{
    if wanted.asks_nothing() {
        if let Some(outline) = plan_strictly(alloc, file, inputs)? {
            return Ok(Plan::Strict(outline));
        }
    }
    let measured = plan_leniently(alloc, file, wanted, inputs)?;
    Ok(Plan::Lenient(measured))
}

/// Returns the reason why a good file was not written.
fn fault_of(fault: WriteFault) -> MendFault
    ensures { (fault ≡ WriteFault.Changed) ⊎ ((fault ≡ WriteFault.Undated) ⊎ IsTrouble result) }
{
    match fault {
        WriteFault::Read => MendFault::Read,
        WriteFault::Memory => MendFault::Memory,
        WriteFault::Write => MendFault::Write,
        _ => MendFault::Changed,
    }
}

/// Writes the canonical file that was planned.
fn write_planned<R: Input, W: Output>(
    alloc: Global,
    input: &mut R,
    wanted: &Wanted,
    plan: &Plan,
    out: &mut W,
) -> Result<Mended, MendFault>
    ensures answer { Plans (R.remaining input.old) wanted.now plan.now → MatchResult result
        (MendsAs (R.remaining input.old) wanted.now (is_good plan.now) (W.contents out.old)
        (W.contents out.new))
        (IsNotMended (R.remaining input.old) wanted.now) }
{
    match plan {
        Plan::Strict(outline) => match write_canonical(alloc, input, outline, out) {
            Ok(_) => Ok(Mended {
                changes: Vec::new(alloc),
                left_out: 0,
            }),
            Err(fault) => Err(fault_of(fault)),
        },
        Plan::Lenient(measured) => write_mended(alloc, input, wanted, measured, out),
    }
}

/// Reads a file again, and writes the canonical file that was planned.
pub(crate) fn write_again<I: Inputs, W: Output>(
    alloc: Global,
    file: &str,
    wanted: &Wanted,
    plan: &Plan,
    inputs: &mut I,
    out: &mut W,
) -> Result<Mended, MendFault>
    ensures answer { Plans (I.bytes inputs.old file.now) wanted.now plan.now → MatchResult result
        (MendsAs (I.bytes inputs.old file.now) wanted.now (is_good plan.now) (W.contents out.old)
        (W.contents out.new))
        (IsNotMended (I.bytes inputs.old file.now) wanted.now) }
    ensures opened { OpensUpTo (I.opened inputs.old) (I.opened inputs.new) file.now 1 }
{
    match inputs.open(alloc, file) {
        Ok(mut reader) => write_planned(alloc, &mut reader, wanted, plan, out),
        Err(_) => Err(MendFault::Memory),
    }
}
