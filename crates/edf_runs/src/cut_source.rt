//! The data records of a time, of a recording that is read a second time.

ghost use Rattle.std.specs.Prelude.{◌≡◌};
ghost use Rattle.edf_canonical.specs.Source.{at};
ghost use Rattle.edf_runs.specs.Again.{CountsRereads};
ghost use Rattle.edf_runs.specs.Inside.Selecting.{AnswersNoted, EndsReading};

use crate::cut::Window;
use crate::fault::WriteFault;
use crate::reading::{fault_again, next_at};
use crate::spots::{Slot, Spots};
use edf_canonical::Source;
use edf_fragment::{Input, OpenFragment, Record};
use std::alloc::Global;

/// Gives those of a window, with the annotations that its outline has.
#[derive(Drop)]
pub(crate) struct CutSource<'o> {
    pub(crate) alloc: Global,
    pub(crate) window: Window,
    pub(crate) spots: Spots<'o>,
}

/// Reads the end of a file, where no data record may follow.
fn read_no_more<R: Input>(
    fragment: &mut OpenFragment,
    input: &mut R,
) -> Result<Option<Record>, WriteFault>
    ensures header { fragment.new.header ≡ fragment.old.header }
    ensures end { EndsReading fragment.old.header fragment.old.progress fragment.new.progress
        (R.remaining input.old) (R.remaining input.new) result }
    ensures counted { CountsRereads (R.failures input.old) (R.failures input.new) result }
{
    match fragment.next(input) {
        Ok(None) => Ok(None),
        Ok(Some(_)) => Err(WriteFault::Changed),
        Err(fault) => Err(fault_again(fault)),
    }
}

impl<'o> CutSource<'o> {
    /// Reads the next data record of the recording, which must start when that of the outline does,
    /// and returns it with that one's annotations.
    fn next_noted<R: Input>(
        &mut self,
        fragment: &mut OpenFragment,
        input: &mut R,
    ) -> Result<Option<Record>, WriteFault>
        ensures { AnswersNoted R.Input (at self.old fragment.old input.old)
            (at self.new fragment.new input.new) result }
    {
        let Ok(spot) = self.spots.take(self.alloc) else {
            return Err(WriteFault::Memory);
        };
        let Some(slot) = spot else {
            return read_no_more(fragment, input);
        };
        let Slot { start, notes } = slot;
        let data_record = next_at(fragment, input, start.nanos())?;
        match data_record.with(start, notes) {
            Some(noted) => Ok(Some(noted)),
            None => Err(WriteFault::Changed),
        }
    }
}

impl<'o, R: Input> Source<OpenFragment, R> for CutSource<'o> {
    ghost use Rattle.std.specs.Prelude.{⊤};
    ghost use Rattle.edf_runs.specs.Inside.Selecting.{GivesSelected};

    type Fault = WriteFault;

    ghost ready = { λ source fragment input. ⊤ };

    ghost answers = { GivesSelected R.Input };

    fn next(
        &mut self,
        fragment: &mut OpenFragment,
        input: &mut R,
    ) -> Result<Option<Record>, WriteFault> {
        'skipped: loop {
            match self.next_noted(fragment, input)? {
                Some(noted) => {
                    if self.window.has(noted.start()) {
                        return Ok(Some(noted));
                    }
                }
                None => return Ok(None),
            }
        }
    }
}
