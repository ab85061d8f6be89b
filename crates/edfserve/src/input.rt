//! Standard input, beside which the store is looked at.

ghost use Rattle.std.specs.Prelude.{◌≡◌};

use edf_fragment::Input;
use edfstore_open::Standing;
use std::io;

/// An input, after each of whose reads it is asked whether the files of the store stand: so also
/// where it ends, just before the store is closed.
#[derive(Drop)]
pub(crate) struct WatchedInput<'s, R> {
    inner: R,
    standing: &'s Standing<'s>,
}

impl<'s, R: Input> WatchedInput<'s, R> {
    pub(crate) fn new(inner: R, standing: &'s Standing<'s>) -> WatchedInput<'s, R>
        ensures { result.inner ≡ inner }
    {
        WatchedInput { inner, standing }
    }
}

impl<R: Input> Input for WatchedInput<'_, R> {
    ghost remaining = { λ input. R.Input.remaining input.inner };

    ghost failures = { λ input. R.Input.failures input.inner };

    fn read(&mut self, buf: &mut [u8]) -> io::Result<usize> {
        let answer = self.inner.read(buf);
        let _ = self.standing.stands();
        answer
    }
}
