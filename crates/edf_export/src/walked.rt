//! The data records of a recording in the store, as a source for the writer.

ghost use Rattle.std.specs.Prelude.{◌≡◌, false};

use edf_canonical::Source;
use edf_fragment::Record;
use edf_store::{Records, StoreFault};
use sqlite::Alter;

/// The source that gives the data records of a walk.
#[derive(Drop)]
pub(crate) struct Walked;

impl<'s, S: Alter> Source<Records<'s, S>, ()> for Walked {
    ghost use Rattle.edf_store.specs.Walk.{IsWalking};
    ghost use Rattle.edf_export.specs.Inside.Steps.{IsSourceStep};

    type Fault = StoreFault;

    ghost ready = { λ source walk input. walk.failed ≡ false → IsWalking S.Store walk };

    ghost answers = { IsSourceStep S.Store };

    fn next(
        &mut self,
        walk: &mut Records<'s, S>,
        _input: &mut (),
    ) -> Result<Option<Record>, StoreFault> {
        walk.next()
    }
}
