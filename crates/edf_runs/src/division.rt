//! Into how many parts a data record is divided, so that none moves by more than half a second.

ghost use Rattle.std.specs.Prelude.{◌≡◌, ◌≤◌, ◌<◌, ◌↔◌, ◌*◌, ◌++◌, ◌∷◌, ℕ, List, IfOk, OnOk};
ghost use Rattle.std.specs.Prelude.{IsTrue};
ghost use Rattle.std.specs.Prelude.{length, map, sum};
ghost use Rattle.edf_field.specs.declared.number.TheConstants.{MOST_DURATION};
ghost use Rattle.edf_header.specs.Signal.{samples};
ghost use Rattle.edf_runs.specs.Inside.Dividing.{DividesSizes, IsBestOf, part_of};

use edf_field::{MOST_DURATION, read_whole};
use edf_header::Identity;
use edf_header::laws::identity_is_key;
use edf_time::seconds_len;
use std::alloc::{AllocError, Global};

/// The most characters of a duration: its field has 8 bytes.
const MOST_NAMED: usize = 8;

/// A part is wanted to be a second long, or less.
const SECOND: u64 = 1_000_000_000;

/// Data records are divided into parts of this many nanoseconds.
#[derive(Clone, Copy, Debug, PartialEq, Eq, Drop)]
pub(crate) struct Division {
    pub(crate) parts: u32,
    pub(crate) unit: u64,
    ghost some: { 1 ≤ parts },
    ghost lasts: { 0 < unit },
    ghost short: { unit ≤ MOST_DURATION },
}

/// Returns how many samples each signal has in a data record.
pub(crate) fn sizes_of(alloc: Global, identity: &Identity) -> Result<Vec<u32>, AllocError>
    ensures { IfOk result (λ sizes. sizes.items ≡ map samples identity.now.signals) }
{
    identity_is_key(identity);
    let rows = identity.signal_rows();
    let mut sizes = Vec::new(alloc);
    for i in 0..rows.len() / 256 {
        let row = &rows[256 * i..256 * i + 256];
        let Some(size) = read_whole(&row[216..224]) else {
            unreachable!()
        };
        sizes.push(size)?;
    }
    Ok(sizes)
}

/// Is true where a data record that lasts so long, with so many samples of each signal, may be
/// divided into so many parts.
fn divides(duration: u64, sizes: &[u32], parts: u32) -> bool
    requires { 1 ≤ parts }
    ensures { IsTrue result ↔ DividesSizes duration sizes.now parts }
{
    duration % u64::from(parts) == 0
        && seconds_len(duration / u64::from(parts)) <= MOST_NAMED
        && sizes.iter().all(|size: &u32| size % parts == 0)
}

/// Returns the division of data records that last so long, with so many samples of each signal: the
/// fewest parts of at most a second, or, where none are so short, the most.
pub(crate) fn divide(duration: u64, sizes: &[u32]) -> Division
    requires some { 0 < duration }
    requires few { duration ≤ MOST_DURATION }
    requires sized { (size : ℕ) × (others : List ℕ) × (sizes.now ≡ size ∷ others) × (1 ≤ size) }
    requires whole { DividesSizes duration sizes.now 1 }
    ensures { IsBestOf duration sizes.now result.parts result.unit }
{
    let Some(most) = sizes.first().copied() else {
        unreachable!()
    };
    let mut parts = 1;
    for before in 0..most {
        let more = before + 1;
        if divides(duration, sizes, more) {
            let unit = duration / u64::from(more);
            if unit <= SECOND {
                return Division { parts: more, unit };
            }
            parts = more;
        }
    }
    Division {
        parts,
        unit: duration / u64::from(parts),
    }
}

/// Adds the samples of one of the parts of a data record: of each signal that part of its own.
pub(crate) fn push_part(
    out: &mut Vec<u8>,
    sizes: &[u32],
    parts: u32,
    nth: u32,
    samples: &[u8],
) -> Result<(), AllocError>
    requires some { nth < parts }
    requires whole { 2 * sum sizes.now ≡ length samples.now }
    ensures { OnOk result (out.new.items
        ≡ out.old.items ++ part_of sizes.now parts nth samples.now) }
{
    let mut left = samples;
    for size in sizes {
        let (signal, after) = left.split_at(2 * *size as usize);
        let part = signal.len() / parts as usize;
        let at = nth as usize * part;
        out.extend_from_slice(&signal[at..at + part])?;
        left = after;
    }
    Ok(())
}
