//! The outline of a file, which is read once.

ghost use Rattle.std.specs.Prelude.{◌≡◌, ◌⊎◌, ◌++◌, ◌∷◌, [], ℕ, List, Option, MatchResult};
ghost use Rattle.edf_runs.specs.Outline.{ReadsOutline};
ghost use Rattle.edfruns_command.specs.Inside.{OpensUpTo};
ghost use Rattle.edfruns_command.specs.Listing.{HasFault};

use edf_cli::Inputs;
use edf_fragment::FragmentFault;
use edf_runs::{Outline, read_outline};
use std::alloc::Global;

/// Returns the outline of a file.
pub(crate) fn outline_of<I: Inputs>(
    alloc: Global,
    file: &str,
    inputs: &mut I,
) -> Result<Outline, FragmentFault>
    ensures answer { MatchResult result
        (λ outline. (rest : Option (List ℕ)) × ReadsOutline (I.bytes inputs.old file.now) rest
        outline)
        (λ fault. HasFault (I.bytes inputs.old file.now) fault
        ⊎ (fault ≡ FragmentFault.Memory)) }
    ensures opened { MatchResult result
        (λ _. I.opened inputs.new ≡ I.opened inputs.old ++ (file.now ∷ []))
        (λ _. OpensUpTo (I.opened inputs.old) (I.opened inputs.new) file.now 1) }
    ensures same { (name : List ℕ) → I.bytes inputs.new name ≡ I.bytes inputs.old name }
{
    match inputs.open(alloc, file) {
        Ok(mut reader) => read_outline(alloc, &mut reader),
        Err(_) => Err(FragmentFault::Memory),
    }
}
