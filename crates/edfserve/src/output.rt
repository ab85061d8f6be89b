//! Standard output, flushed at the end of each answer.

ghost use Rattle.std.specs.Prelude.{None};

use edf_fragment::{Counted, Output, saturating_increment};
use edf_os::{Escaping, standard_output};
use edf_serve::Flush;
use std::io::{self, Stdout, Write};

/// Standard output, and how many writes to it failed, up to `u64::MAX`.
#[derive(Drop)]
pub(crate) struct StandardOutput {
    stream: Escaping<Counted<Stdout>>,
    /// The same stream, which is flushed.
    flushed: Stdout,
    failures: u64,
}

impl StandardOutput {
    pub(crate) fn new(rt: &HostRuntime) -> StandardOutput {
        StandardOutput {
            stream: standard_output(rt),
            flushed: rt.stdout(),
            failures: 0,
        }
    }
}

impl Output for StandardOutput {
    ghost contents = { λ _. None };

    ghost failures = { λ output. output.failures };

    fn write(&mut self, buf: &[u8]) -> io::Result<usize> {
        match self.stream.write(buf) {
            Ok(count) => {
                if count == 0 && !buf.is_empty() {
                    self.failures = saturating_increment(self.failures);
                }
                Ok(count)
            }
            Err(error) => {
                self.failures = saturating_increment(self.failures);
                Err(error)
            }
        }
    }
}

impl Flush for StandardOutput {
    ghost sent = { λ _. None };

    fn flush(&mut self) -> io::Result<()> {
        match self.flushed.flush() {
            Ok(()) => Ok(()),
            Err(error) => {
                self.failures = saturating_increment(self.failures);
                Err(error)
            }
        }
    }
}
