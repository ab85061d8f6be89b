ghost use Rattle.std.specs.Prelude.{◌≡◌, ℕ, List, Option, IfOk, IfErr};
ghost use Rattle.edf_fragment.specs.Reading.{ReadsHeader, IsOpenFault, initial_progress};
ghost use Rattle.edf_fragment.specs.Call.{ReadsNext, input_state};

use crate::fault::FragmentFault;
use crate::open_fragment::OpenFragment;
use crate::record::Record;
use crate::streams::Input;
use edf_header::Header;
use std::alloc::Global;

/// The data records of a fragment, one at a time, from a reader that is at its first byte.
///
/// It reads no byte early: `open` reads those of the header, and `next` those of one data record.
/// After the last one `next` reads on, to check that no byte follows. It holds one data record at a
/// time.
///
/// Use it where a fragment is read and nothing else. Where the input is read on after a fault or
/// the end, or a proof is to follow it there, use `OpenFragment`, which doesn't hold the input.
pub struct FragmentReader<'a, R> {
    input: &'a mut R,
    fragment: OpenFragment,
}

impl<R> Drop for FragmentReader<'_, R> {
    fn drop(self) {
        let FragmentReader {
            input: _,
            fragment: _,
        } = self;
    }
}

impl<'a, R: Input> FragmentReader<'a, R> {
    /// Joins a fragment with the input that it was read from so far.
    pub fn of(input: &'a mut R, fragment: OpenFragment) -> FragmentReader<'a, R>
        ensures same_reference { result.input.ghost_name ≡ input.entry.ghost_name }
        ensures remaining { R.remaining result.input.now ≡ R.remaining input.old }
        ensures counted { R.failures result.input.now ≡ R.failures input.old }
        ensures fragment { result.fragment ≡ fragment }
    {
        FragmentReader { input, fragment }
    }

    /// Reads the header, and no byte more.
    ///
    /// # Errors
    /// `Header` where the header is refused, `Read` where a read failed, `Memory` where memory ran
    /// out. The input then is where reading stopped; `OpenFragment::read`, which does the same,
    /// also says so in its contract.
    pub fn open(alloc: Global, input: &'a mut R) -> Result<FragmentReader<'a, R>, FragmentFault>
        ensures same_reference { IfOk result (λ r. r.input.ghost_name ≡ input.entry.ghost_name) }
        ensures opened { IfOk result
            (λ r. ReadsHeader (R.remaining input.old) (R.remaining r.input.now) r.fragment.header) }
        ensures counted { IfOk result (λ r. R.failures r.input.now ≡ R.failures input.old) }
        ensures initial_progress { IfOk result (λ r. r.fragment.progress ≡ initial_progress) }
        ensures refused { IfErr result
            (λ fault. (rest : Option (List ℕ)) × IsOpenFault (R.remaining input.old) rest fault) }
    {
        let fragment = OpenFragment::read(alloc, input)?;
        Ok(FragmentReader::of(input, fragment))
    }

    /// Returns the header.
    pub fn header(&self) -> &Header
        ensures { result.now ≡ self.now.fragment.header }
    {
        self.fragment.header()
    }

    /// Returns the header, and drops the reader.
    pub fn into_header(self) -> Header
        ensures { result ≡ self.entry.fragment.header }
    {
        let FragmentReader { input: _, fragment } = self;
        fragment.into_header()
    }

    /// Reads the next data record, as `OpenFragment::next` does.
    ///
    /// # Errors
    /// Those of `OpenFragment::next`.
    pub fn next(&mut self) -> Result<Option<Record>, FragmentFault>
        ensures same_reference { self.new.input.ghost_name ≡ self.old.input.ghost_name }
        ensures next { ReadsNext self.old.fragment self.new.fragment
            (input_state R.Input self.old.input.now) (input_state R.Input self.new.input.now)
            result }
    {
        self.fragment.next(self.input)
    }
}
