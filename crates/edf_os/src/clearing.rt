//! A standard stream beside what a person sees.

use crate::cause::print_unwritten;
use crate::explain::explain;
use crate::terminal::Terminal;
use edf_fragment::{Output, Remark};
use std::io;

/// A standard stream that erases the line of progress before it writes, and explains its lines to
/// a person.
#[derive(Drop)]
pub struct Clearing<'t, W> {
    pub(crate) rt: &'t HostRuntime,
    pub(crate) terminal: &'t Terminal<'t>,
    pub(crate) stream: W,
    /// It is true of standard output.
    pub(crate) is_output: bool,
}

impl<W: Output> Output for Clearing<'_, W> {
    ghost contents = { λ c. W.contents c.stream };

    ghost failures = { λ c. W.failures c.stream };

    fn write(&mut self, buf: &[u8]) -> io::Result<usize> {
        self.terminal.wipe_progress();
        let answer = self.stream.write(buf);
        if self.is_output {
            match &answer {
                Ok(count) => self.terminal.note_output(*count),
                Err(error) => print_unwritten(self.rt, self.terminal, error),
            }
        }
        answer
    }

    fn remark(&mut self, name: &str, remark: Remark) {
        explain(self.terminal, name, remark);
    }
}
