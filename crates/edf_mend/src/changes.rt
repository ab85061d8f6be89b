//! The fields of a header that differ from those of its good form.

ghost use Rattle.std.specs.Prelude.{◌≡◌, ◌<◌, ◌≤◌, ◌++◌, OnOk, IfOk, decimal};
ghost use Rattle.edf_mend.specs.Texts.{fitted};
ghost use Rattle.edf_header.specs.declared.limits.TheConstants.{MOST_SIGNALS};
ghost use Rattle.edf_mend.specs.Changes.{changed, changes_of_fixed, changes_of_row};
ghost use Rattle.edf_mend.specs.Changes.{changes_of_signals};

use crate::columns::{Headers, ROW, field_at, offset_of};
use crate::texts::fit;
use std::alloc::{AllocError, Global};
use std::marker::Model;

/// A field that differs.
#[derive(Debug, Drop)]
pub struct Change {
    /// Its offset in the fixed part, or in a signal; 256 is a part of annotations.
    pub place: usize,
    /// Its signal, of which the first is 1; 0 is the fixed part. Of annotations, their data record.
    pub signal: usize,
    /// The byte of the file at which it begins; of annotations, that of the data record.
    pub at: usize,
    /// Its bytes.
    pub old: Vec<u8>,
    /// The bytes of the good form.
    pub new: Vec<u8>,
}

impl Model for Change {
    ghost use Rattle.edf_mend.specs.Changes.{FieldChange};

    ghost Value = { FieldChange };

    ghost view = { λ c. record {
      place = c.place;
      signal = c.signal;
      at = c.at;
      old = c.old.items;
      new = c.new.items;
    } };
}

/// The place of a field: its offset in the fixed part or in a signal, the signal, and the byte of
/// the file.
#[derive(Clone, Copy)]
pub(crate) struct FieldPlace {
    pub(crate) place: usize,
    pub(crate) signal: usize,
    pub(crate) at: usize,
}

/// Adds a field where it differs.
pub(crate) fn push_changed(
    alloc: Global,
    out: &mut Vec<Change>,
    place: FieldPlace,
    old: &[u8],
    new: &[u8],
) -> Result<(), AllocError>
    ensures { OnOk result (out.new.items
        ≡ out.old.items ++ changed place.place place.signal place.at old.now new.now) }
{
    if old == new {
        return Ok(());
    }
    let old = Vec::from_slice(alloc, old)?;
    let new = Vec::from_slice(alloc, new)?;
    let FieldPlace { place, signal, at } = place;
    out.push(Change {
        place,
        signal,
        at,
        old,
        new,
    })?;
    Ok(())
}

/// The fields of the fixed part but the count: where each begins, and how many bytes it has.
const FIXED: [(usize, usize); 9] = [
    (0, 8),
    (8, 80),
    (88, 80),
    (168, 8),
    (176, 8),
    (184, 8),
    (192, 44),
    (244, 8),
    (252, 4),
];

/// Adds the fields of the fixed part.
fn push_fixed(
    alloc: Global,
    out: &mut Vec<Change>,
    old: &[u8; 256],
    new: &[u8; 256],
) -> Result<(), AllocError>
    ensures { OnOk result (out.new.items ≡ out.old.items ++ changes_of_fixed old.now new.now) }
{
    for (at, width) in &FIXED {
        let place = FieldPlace {
            place: *at,
            signal: 0,
            at: *at,
        };
        let was = field_at(old, *at, *width);
        push_changed(alloc, out, place, was, field_at(new, *at, *width))?;
    }
    Ok(())
}

/// Adds the fields of one of n signals.
fn push_row(
    alloc: Global,
    out: &mut Vec<Change>,
    n: usize,
    i: usize,
    old: &[u8; 256],
    new: &[u8; 256],
) -> Result<(), AllocError>
    requires few { n ≤ MOST_SIGNALS }
    requires inside { i < n }
    ensures { OnOk result (out.new.items ≡ out.old.items ++ changes_of_row n i old.now new.now) }
{
    for (at, width) in &ROW {
        let place = FieldPlace {
            place: *at,
            signal: i + 1,
            at: 256 + offset_of(n, i, *at, *width),
        };
        let was = field_at(old, *at, *width);
        push_changed(alloc, out, place, was, field_at(new, *at, *width))?;
    }
    Ok(())
}

/// Adds the fields of the signals.
fn push_signals(
    alloc: Global,
    out: &mut Vec<Change>,
    headers: &Headers<'_>,
) -> Result<(), AllocError>
    ensures { OnOk result (out.new.items ≡ out.old.items ++ changes_of_signals headers.now.n
        headers.now.second.now headers.now.count headers.now.strict_signals.now headers.now.n) }
{
    for i in 0..headers.n {
        let old = headers.old_row(i);
        let new = headers.new_row(i);
        push_row(alloc, out, headers.n, i, &old, &new)?;
    }
    Ok(())
}

/// Returns the fields of a header that differ from those of its good form.
pub(crate) fn changes_of_header(
    alloc: Global,
    headers: &Headers<'_>,
) -> Result<Vec<Change>, AllocError>
    ensures { IfOk result (λ v. v.items ≡ changes_of_fixed headers.now.first.now
        headers.now.strict.now ++ changes_of_signals headers.now.n headers.now.second.now
        headers.now.count headers.now.strict_signals.now headers.now.n) }
{
    let mut out = Vec::new(alloc);
    push_fixed(alloc, &mut out, headers.first, headers.strict)?;
    push_signals(alloc, &mut out, headers)?;
    Ok(out)
}

/// Adds the number of data records, where the header has another, or writes it otherwise.
pub(crate) fn push_count(
    alloc: Global,
    out: &mut Vec<Change>,
    old: &[u8],
    records: u32,
) -> Result<(), AllocError>
    ensures { OnOk result (out.new.items
        ≡ out.old.items ++ changed 236 0 236 old.now (fitted 8 (decimal records))) }
{
    let digits = records.to_string(alloc)?;
    let mut new = [b' '; 8];
    fit(&mut new, digits.as_bytes());
    let place = FieldPlace {
        place: 236,
        signal: 0,
        at: 236,
    };
    push_changed(alloc, out, place, old, &new)
}
