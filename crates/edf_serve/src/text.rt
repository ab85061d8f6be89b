//! Texts in memory.

ghost use Rattle.std.specs.Prelude.{◌≡◌, [], Some};
ghost use Rattle.edf_serve.specs.Lines.{whole_lines};

use edf_fragment::{Output, saturating_increment};
use std::alloc::Global;
use std::io;

/// A text in memory. A write fails where memory runs out.
#[derive(Drop)]
pub(crate) struct Text {
    pub(crate) bytes: Vec<u8>,
    pub(crate) failures: u64,
}

impl Text {
    /// An empty text.
    pub(crate) fn new(alloc: Global) -> Text
        ensures empty { result.bytes.items ≡ [] }
        ensures counted { result.failures ≡ 0 }
    {
        Text {
            bytes: Vec::new(alloc),
            failures: 0,
        }
    }

    /// Takes away what was written.
    pub(crate) fn clear(&mut self)
        ensures empty { self.new.bytes.items ≡ [] }
        ensures counted { self.new.failures ≡ 0 }
    {
        self.bytes.clear();
        self.failures = 0;
    }

    /// The lines that were written whole.
    pub(crate) fn lines(&self) -> &[u8]
        ensures { result.now ≡ whole_lines self.now.bytes.items }
    {
        whole_lines(self.bytes.as_slice())
    }
}

/// The bytes up to and with the last line feed.
fn whole_lines(bytes: &[u8]) -> &[u8]
    ensures { result.now ≡ whole_lines bytes.now }
{
    let mut end = bytes.len();
    while end > 0 {
        if bytes[end - 1] == b'\n' {
            return &bytes[..end];
        }
        end -= 1;
    }
    &bytes[..0]
}

impl Output for Text {
    ghost use Rattle.std.specs.Prelude.{Some};

    ghost contents = { λ text. Some text.bytes.items };

    ghost failures = { λ text. text.failures };

    fn write(&mut self, buf: &[u8]) -> io::Result<usize> {
        match self.bytes.extend_from_slice(buf) {
            Ok(()) => Ok(buf.len()),
            Err(error) => {
                self.failures = saturating_increment(self.failures);
                Err(io::Error::from(error))
            }
        }
    }
}
