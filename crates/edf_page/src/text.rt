//! What commands write, in memory.

ghost use Rattle.std.specs.Prelude.{◌≡◌, []};

use edf_fragment::{Output, saturating_increment};
use std::alloc::Global;
use std::io;

/// A text in memory. A write fails where memory runs out.
#[derive(Drop)]
pub(crate) struct Text {
    pub(crate) bytes: Vec<u8>,
    pub(crate) failures: u64,
}

impl Text {
    /// An empty text.
    pub(crate) fn new(alloc: Global) -> Text
        ensures empty { result.bytes.items ≡ [] }
        ensures counted { result.failures ≡ 0 }
    {
        Text {
            bytes: Vec::new(alloc),
            failures: 0,
        }
    }
}

impl Output for Text {
    ghost use Rattle.std.specs.Prelude.{Some};

    ghost contents = { λ text. Some text.bytes.items };

    ghost failures = { λ text. text.failures };

    fn write(&mut self, buf: &[u8]) -> io::Result<usize> {
        match self.bytes.extend_from_slice(buf) {
            Ok(()) => Ok(buf.len()),
            Err(error) => {
                self.failures = saturating_increment(self.failures);
                Err(io::Error::from(error))
            }
        }
    }
}
