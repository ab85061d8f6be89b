//! A header and its good form, whose signals are in columns (EDF, header record).

ghost use Rattle.std.specs.Prelude.{◌≡◌, ◌+◌, ◌*◌, ◌≤◌, ◌<◌, length};
ghost use Rattle.edf_field.specs.Number.{field};
ghost use Rattle.edf_header.specs.Signal.{row_at};
ghost use Rattle.edf_header.specs.declared.limits.TheConstants.{MOST_SIGNALS};

use edf_header::signal_row;
use std::alloc::{AllocError, Global};

/// Each field of a row begins at its first number and has as many bytes as its second.
pub(crate) const ROW: [(usize, usize); 10] = [
    (0, 16),
    (16, 80),
    (96, 8),
    (104, 8),
    (112, 8),
    (120, 8),
    (128, 8),
    (136, 80),
    (216, 8),
    (224, 32),
];

/// Returns the offset behind the fixed part at which a field of one of `n` signals begins.
pub(crate) fn offset_of(n: usize, i: usize, at: usize, width: usize) -> usize
    requires few { n ≤ MOST_SIGNALS }
    requires inside { i < n }
    requires fits { at + width ≤ 256 }
    ensures value { result ≡ n * at + i * width }
    ensures within { result + width ≤ 256 * n }
{
    n * at + i * width
}

/// Returns a field, which begins at this byte.
pub(crate) fn field_at(bytes: &[u8], at: usize, width: usize) -> &[u8]
    requires { at + width ≤ length bytes.now }
    ensures { result.now ≡ field bytes.now at width }
{
    &bytes[at..at + width]
}

/// Returns signals in columns, which lie one after another in rows.
pub(crate) fn columns(alloc: Global, rows: &[u8]) -> Result<Vec<u8>, AllocError> {
    let mut made = Vec::new(alloc);
    for (at, width) in &ROW {
        for row in rows.chunks_exact(256) {
            if let Some(field) = row.get(*at..*at + *width) {
                made.extend_from_slice(field)?;
            }
        }
    }
    Ok(made)
}

/// A header and its good form: the fixed part, and the signals in columns.
#[derive(Clone, Copy)]
pub(crate) struct Headers<'a> {
    pub(crate) first: &'a [u8; 256],
    pub(crate) second: &'a [u8],
    pub(crate) n: usize,
    pub(crate) strict: &'a [u8; 256],
    pub(crate) strict_signals: &'a [u8],
    pub(crate) count: usize,
    ghost sized: { length second.now ≡ 256 * n },
    ghost strict_sized: { length strict_signals.now ≡ 256 * count },
    ghost few: { count ≤ MOST_SIGNALS },
    ghost less: { n ≤ count },
}

impl<'a> Headers<'a> {
    ghost use Rattle.std.specs.Prelude.{◌≡◌, ◌<◌};
    ghost use Rattle.edf_header.specs.Signal.{row_at};

    /// Returns one of the signals of the file.
    pub(crate) fn old_row(&self, i: usize) -> [u8; 256]
        requires { i < self.now.n }
        ensures { result ≡ row_at self.now.second.now self.now.n i }
    {
        signal_row(self.second, self.n, i)
    }

    /// Returns its good form.
    pub(crate) fn new_row(&self, i: usize) -> [u8; 256]
        requires { i < self.now.n }
        ensures { result ≡ row_at self.now.strict_signals.now self.now.count i }
    {
        signal_row(self.strict_signals, self.count, i)
    }
}
