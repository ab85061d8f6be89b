ghost use Rattle.std.specs.Prelude.{◌≡◌, ◌≤◌, IfOk, IfSome};
ghost use Rattle.edf_header.specs.Header.{most_records};
ghost use Rattle.edf_fragment.specs.Inside.Buffers.{FitOneRecord};
ghost use Rattle.edf_fragment.specs.Sound.{IsSoundRecord};
ghost use Rattle.edf_fragment.specs.Reading.{ReadsHeader, IsOpenFault, IsNextResult};
ghost use Rattle.edf_fragment.specs.Reading.{initial_progress, progress_after};

use crate::advance::{Progress, ReaderState, progress_after, record_or_end};
use crate::buffers::Buffers;
use crate::fault::FragmentFault;
use crate::opening::read_header;
use crate::record::Record;
use crate::streams::Input;
use edf_header::Header;
use edf_header::laws::header_is_layout;
use std::alloc::Global;

/// A fragment whose header was read, with the progress of its data records.
///
/// It doesn't hold the input: each call takes the one that the header was read from. Use it where
/// the input is read on after the last record or after a fault, or where a proof follows it there;
/// `FragmentReader` holds both, and suits callers that read a fragment and nothing else.
#[derive(Drop)]
pub struct OpenFragment {
    alloc: Global,
    header: Header,
    buffers: Buffers,
    progress: Progress,
    ghost fits: { FitOneRecord header buffers },
    ghost within: { progress.given ≤ most_records header.count },
}

impl OpenFragment {
    ghost use Rattle.edf_fragment.specs.Call.{ReadsInput, ValueOrFault, ReadsNext, input_state};

    /// Reads the header, and no byte more.
    ///
    /// # Errors
    /// `Header` where the header is refused, `Read` where a read failed, `Memory` where memory ran
    /// out. The input then is where reading stopped.
    pub fn read<R: Input>(alloc: Global, input: &mut R) -> Result<OpenFragment, FragmentFault>
        ensures { ReadsInput
            (ValueOrFault (λ before rest o. ReadsHeader before rest o.header
            × (o.progress ≡ initial_progress)) IsOpenFault)
            (input_state R.Input input.old) (input_state R.Input input.new) result }
    {
        let header = read_header(alloc, input)?;
        let Ok(buffers) = Buffers::of(alloc, &header) else {
            return Err(FragmentFault::Memory);
        };
        Ok(OpenFragment {
            alloc,
            header,
            buffers,
            progress: Progress::initial_progress(),
        })
    }

    /// Returns the header.
    pub fn header(&self) -> &Header
        ensures { result.now ≡ self.now.header }
    {
        &self.header
    }

    /// Returns the header, and drops the reader.
    pub fn into_header(self) -> Header
        ensures { result ≡ self.header }
    {
        let OpenFragment {
            alloc: _,
            header,
            buffers: _,
            progress: _,
        } = self;
        header
    }

    /// Reads the next data record. Returns `None` after the last, where no byte follows it, and at
    /// every later call. Where the header's count is unknown, the last is the one after which the
    /// input ends.
    ///
    /// # Errors
    /// `CutRecord` where the input ends inside the data record, or before one that must come;
    /// `Tal` where its annotations are refused, `Trailing` where bytes follow the last, `Read`
    /// where a read failed, `Memory` where memory ran out. After any of these, `Failed`.
    pub fn next<R: Input>(&mut self, input: &mut R) -> Result<Option<Record>, FragmentFault>
        ensures { ReadsNext self.old self.new
            (input_state R.Input input.old) (input_state R.Input input.new) result }
    {
        match self.progress.state {
            ReaderState::Reading => self.advance(input),
            ReaderState::Ended => Ok(None),
            ReaderState::Stopped => Err(FragmentFault::Failed),
        }
    }

    /// Reads on, where neither the end nor a fault was met.
    fn advance<R: Input>(&mut self, input: &mut R) -> Result<Option<Record>, FragmentFault>
        ensures header { self.new.header ≡ self.old.header }
        ensures progress { self.new.progress
            ≡ progress_after self.old.header self.old.progress result }
        ensures read { ReadsInput (IsNextResult self.old.header self.old.progress)
            (input_state R.Input input.old) (input_state R.Input input.new) result }
        ensures sound { IfOk result
            (λ next. IfSome next (λ r. IsSoundRecord self.old.header.key r)) }
    {
        header_is_layout(&self.header);
        let answer = record_or_end(
            self.alloc,
            input,
            &self.header,
            self.progress,
            &mut self.buffers,
        );
        self.progress = progress_after(&self.header, self.progress, &answer);
        answer
    }
}
