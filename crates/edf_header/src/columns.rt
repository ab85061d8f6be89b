//! The signal part of a header has its fields in columns: each field of all signals in turn (EDF,
//! header record). In an identity the fields of one signal are in a row.
ghost use Rattle.std.specs.Prelude.{◌≡◌, ℕ, ◌+◌, ◌*◌, ◌/◌, ◌≤◌, ◌<◌, List, [], ◌∷◌, ◌++◌};
ghost use Rattle.std.specs.Prelude.{length, slice_index_or, OnOk};
ghost use Rattle.edf_field.specs.Number.{field};
ghost use Rattle.edf_header.specs.Signal.{column_of, columns, row_at, rows_of, signals_of};

use crate::fields::ROW;
use crate::limits::MOST_SIGNALS;
use std::alloc::AllocError;
use std::marker::Model;

/// The signals of a header have their fields in columns. Contracts see the signals in file order,
/// each in a row of 256 bytes.
#[derive(Drop)]
pub(crate) struct Columns<'a> {
    bytes: &'a [u8],
    count: usize,
}

impl<'a> Model for Columns<'a> {
    ghost use Rattle.std.specs.Prelude.{◌≡◌, ℕ, ◌*◌, ◌≤◌, List, length};
    ghost use Rattle.edf_header.specs.Signal.{signals_of};
    ghost use Rattle.edf_header.specs.declared.limits.TheConstants.{MOST_SIGNALS};

    ghost Value = { List (List ℕ) };

    ghost view = { λ c. signals_of c.bytes.now c.count };

    ghost invariant = { λ c. (length c.bytes.now ≡ 256 * c.count) × (c.count ≤ MOST_SIGNALS) };
}

impl<'a> Columns<'a> {
    /// Returns the columns of `count` signals.
    pub(crate) fn new(bytes: &'a [u8], count: usize) -> Columns<'a>
        requires size { length bytes.now ≡ 256 * count }
        requires few { count ≤ MOST_SIGNALS }
        ensures { result ≡ signals_of bytes.now count }
    {
        Columns { bytes, count }
    }

    /// Returns the number of signals.
    pub(crate) fn count(&self) -> usize
        ensures value { result ≡ length self.now }
        ensures bound { result ≤ MOST_SIGNALS }
    {
        self.count
    }

    /// Returns one of the signals in a row, which is on the stack: so the checks take no memory.
    pub(crate) fn row(&self, i: usize) -> [u8; 256]
        requires { i < length self.now }
        ensures { result ≡ slice_index_or self.now i [] }
    {
        signal_row(self.bytes, self.count, i)
    }
}

/// Returns a field of one of `n` signals from its column.
fn column(bytes: &[u8], n: usize, i: usize, at: usize, width: usize) -> &[u8]
    requires size { length bytes.now ≡ 256 * n }
    requires few { n ≤ MOST_SIGNALS }
    requires inside { i < n }
    requires fits { at + width ≤ 256 }
    ensures { result.now ≡ field bytes.now (n * at + i * width) width }
{
    let from = n * at + i * width;
    &bytes[from..from + width]
}

/// Returns one of `n` signals in a row of 256 bytes, its fields read from their columns (EDF,
/// header record).
pub fn signal_row(bytes: &[u8], n: usize, i: usize) -> [u8; 256]
    requires size { length bytes.now ≡ 256 * n }
    requires few { n ≤ MOST_SIGNALS }
    requires inside { i < n }
    ensures { result ≡ row_at bytes.now n i }
{
    let mut row = [0; 256];
    for (at, width) in &ROW {
        row[*at..*at + *width].copy_from_slice(column(bytes, n, i, *at, *width));
    }
    row
}

/// Returns one of the rows that lie one after another.
pub(crate) fn row_in(rows: &[u8], i: usize) -> &[u8; 256]
    requires { i < length rows.now / 256 }
    ensures { result.now ≡ slice_index_or (rows_of rows.now) i [] }
{
    rows[256 * i..256 * i + 256].as_array().unwrap()
}

/// Writes one field of all signals in turn, those in rows and then the last.
fn push_column(
    out: &mut Vec<u8>,
    rows: &[u8],
    last: &[u8; 256],
    at: usize,
    width: usize,
) -> Result<(), AllocError>
    requires { at + width ≤ 256 }
    ensures { OnOk result (out.new.items
        ≡ out.old.items ++ column_of (at, width) (rows_of rows.now ++ last.now ∷ [])) }
{
    for i in 0..rows.len() / 256 {
        let row = row_in(rows, i);
        out.extend_from_slice(&row[at..at + width])?;
    }
    out.extend_from_slice(&last[at..at + width])?;
    Ok(())
}

/// Writes the signals field by field.
pub(crate) fn push_columns(
    out: &mut Vec<u8>,
    rows: &[u8],
    last: &[u8; 256],
) -> Result<(), AllocError>
    ensures { OnOk result
        (out.new.items ≡ out.old.items ++ columns (rows_of rows.now ++ last.now ∷ [])) }
{
    for (at, width) in &ROW {
        push_column(out, rows, last, *at, *width)?;
    }
    Ok(())
}
