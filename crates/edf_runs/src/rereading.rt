//! The data records of a run, which is read a second time.

ghost use Rattle.std.specs.Prelude.{◌≡◌};

use crate::fault::WriteFault;
use crate::reading::next_at;
use crate::run::Run;
use crate::tally::Tally;
use edf_canonical::Source;
use edf_fragment::{Input, OpenFragment, Record};

/// Gives the data records of a run that comes next, each of which must start where the one before
/// ends, and counts their annotations.
#[derive(Drop)]
pub(crate) struct RunAgain<'r> {
    pub(crate) run: &'r Run,
    /// How many came so far.
    pub(crate) nth: u32,
    /// When the next one is to start.
    pub(crate) next: u64,
    pub(crate) tally: Tally,
}

impl<'r, R: Input> Source<OpenFragment, R> for RunAgain<'r> {
    ghost use Rattle.std.specs.Prelude.{⊤};
    ghost use Rattle.edf_runs.specs.Inside.Putting.{ReadsRun};

    type Fault = WriteFault;

    ghost ready = { λ source fragment input. ⊤ };

    ghost answers = { ReadsRun R.Input };

    fn next(
        &mut self,
        fragment: &mut OpenFragment,
        input: &mut R,
    ) -> Result<Option<Record>, WriteFault> {
        let duration = fragment.header().identity().duration();
        if self.nth >= self.run.records() {
            if self.next != self.run.last().nanos() + duration {
                return Err(WriteFault::Changed);
            }
            return Ok(None);
        }
        let data_record = next_at(fragment, input, self.next)?;
        self.tally = self.tally.with(&data_record);
        self.nth += 1;
        self.next += duration;
        Ok(Some(data_record))
    }
}
