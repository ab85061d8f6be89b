//! The header of a file, and its good form.

ghost use Rattle.std.specs.Prelude.{◌≡◌, ◌*◌, ◌≤◌, ◌≢◌, IfOk, length, take, codes, false};
ghost use Rattle.std.specs.Io.KnownBytes.{Consumes};
ghost use Rattle.edf_field.specs.Number.{IsNumber};
ghost use Rattle.edf_header.specs.Fields.{signals_field, reserved_field};
ghost use Rattle.edf_header.specs.Header.{HeaderRecord, layout_of};
ghost use Rattle.edf_mend.specs.Texts.{numeral};
ghost use Rattle.edf_mend.specs.Body.{record_size};
ghost use Rattle.edf_mend.specs.Header.{KeepsHeader};
ghost use Rattle.edf_mend.specs.Inside.{IsGoodFixed, OpensLeniently};
ghost use Rattle.edf_mend.specs.Mends.{ListsHeader};

use crate::changes::{Change, changes_of_header};
use crate::columns::Headers;
use crate::fault::MendFault;
use crate::header::{Proposed, check_version, keeps_fixed, keeps_signals, propose};
use crate::mark::{is_marked_right, marked, stays_all};
use crate::reading::LenientFile;
use crate::texts::{number_in, put};
use crate::wanted::Wanted;
use edf_fragment::{Filled, Input, fill};
use edf_header::laws::header_is_layout;
use edf_header::{Header, HeaderFault, read_fixed, read_signals};
use edf_tal::Place;
use std::alloc::Global;

/// A file whose header was read: the fixed part as it stands, and how many signals it names.
#[derive(Drop)]
pub(crate) struct Opened {
    pub(crate) first: [u8; 256],
    pub(crate) signals: usize,
    pub(crate) file: LenientFile,
}

/// Returns how many signals a header names.
fn signals_in(alloc: Global, first: &[u8; 256]) -> Result<usize, MendFault>
    ensures { IfOk result (λ n. IsNumber (numeral (signals_field first.now)) n × (1 ≤ n)
        × (n ≤ 640)) }
{
    match number_in(alloc, &first[252..256])? {
        Some(n) => {
            if n < 1 || n > 640 {
                return Err(MendFault::from(HeaderFault::Signals));
            }
            Ok(n as usize)
        }
        None => Err(MendFault::from(HeaderFault::Signals)),
    }
}

/// Marks the good form of a header where it must be.
fn mark_good(
    alloc: Global,
    wanted: &Wanted,
    first: &[u8; 256],
    second: &[u8],
    n: usize,
    good: &Proposed,
) -> Result<[u8; 256], MendFault>
    requires len { length second.now ≡ 256 * n }
    requires few { n ≤ 640 }
{
    let mut strict = good.first;
    let strict_signals = good.second.as_slice();
    let count = strict_signals.len() / 256;
    if strict_signals.len() != 256 * count || count > 640 || n > count {
        return Err(MendFault::Check);
    }
    let headers = Headers {
        first,
        second,
        n,
        strict: &good.first,
        strict_signals,
        count,
    };
    let text = good.fixed.text.as_slice();
    if !stays_all(alloc, wanted, &headers, text)? {
        put(&mut strict, 88, 80, &marked(alloc, text)?);
    }
    Ok(strict)
}

/// Returns the good form of a header, which a strict reading reads, and the fields in which it
/// differs.
fn good_header(
    alloc: Global,
    wanted: &Wanted,
    first: &[u8; 256],
    second: &[u8],
    n: usize,
    good: &Proposed,
) -> Result<(Header, Vec<Change>), MendFault>
    requires len { length second.now ≡ 256 * n }
    requires few { n ≤ 640 }
    requires number { IsNumber (numeral (signals_field first.now)) n }
    requires fixed { IsGoodFixed wanted.now first.now good.now.fixed }
    requires gaps { good.now.timed ≡ false → take 5 (reserved_field first.now) ≢ codes "EDF+D" }
    ensures { IfOk result (λ r. (h : HeaderRecord)
        × (x : KeepsHeader wanted.now first.now second.now good.now.timed h) × (x.n ≡ n)
        × ListsHeader x r.1.items × (r.0 ≡ layout_of h)) }
{
    let strict = mark_good(alloc, wanted, first, second, n, good)?;
    let fixed = read_fixed(&strict)?;
    let count = fixed.signals();
    let strict_signals = good.second.as_slice();
    if strict_signals.len() != 256 * count || n > count {
        return Err(MendFault::Check);
    }
    let header = read_signals(alloc, fixed, strict_signals)?;
    let headers = Headers {
        first,
        second,
        n,
        strict: &strict,
        strict_signals,
        count,
    };
    if !keeps_fixed(alloc, wanted, &good.fixed, first, &strict)? {
        return Err(MendFault::Check);
    }
    if !keeps_signals(alloc, good.timed, &headers)? {
        return Err(MendFault::Check);
    }
    if !is_marked_right(alloc, wanted, &headers, good.fixed.text.as_slice())? {
        return Err(MendFault::Check);
    }
    let changes = changes_of_header(alloc, &headers)?;
    Ok((header, changes))
}

/// Returns the number of bytes of a data record.
fn size_of(timed: bool, header: &Header) -> usize
    ensures { result ≡ record_size timed header.now }
{
    header_is_layout(header);
    if timed {
        header.record_bytes()
    } else {
        header.record_bytes() - header.block_bytes()
    }
}

/// Reads the fixed part.
fn read_first<R: Input>(input: &mut R) -> Result<[u8; 256], MendFault>
    ensures { IfOk result (Consumes (R.remaining input.old) (R.remaining input.new)) }
{
    let mut first = [0u8; 256];
    match fill(input, &mut first) {
        Filled::Full => Ok(first),
        Filled::Cut { .. } => Err(MendFault::from(HeaderFault::Cut)),
        Filled::Failed => Err(MendFault::Read),
    }
}

/// Reads the signals.
fn read_second<R: Input>(alloc: Global, input: &mut R, size: usize) -> Result<Vec<u8>, MendFault>
    ensures { IfOk result (λ v. Consumes (R.remaining input.old) (R.remaining input.new) v.items
        × (length v.items ≡ size)) }
{
    let mut second = vec![in alloc; 0u8; size]?;
    match fill(input, second.as_mut_slice()) {
        Filled::Full => Ok(second),
        Filled::Cut { .. } => Err(MendFault::from(HeaderFault::CutSignals)),
        Filled::Failed => Err(MendFault::Read),
    }
}

/// Reads a header.
pub(crate) fn open<R: Input>(
    alloc: Global,
    input: &mut R,
    wanted: &Wanted,
) -> Result<Opened, MendFault>
    ensures { IfOk result
        (OpensLeniently wanted.now (R.remaining input.old) (R.remaining input.new)) }
{
    let first = read_first(input)?;
    check_version(alloc, &first)?;
    let signals = signals_in(alloc, &first)?;
    let second = read_second(alloc, input, 256 * signals)?;
    let second = second.as_slice();
    let good = propose(alloc, wanted, &first, second, signals)?;
    let (header, changes) = good_header(alloc, wanted, &first, second, signals, &good)?;
    let whole = vec![in alloc; 0u8; size_of(good.timed, &header)]?;
    Ok(Opened {
        first,
        signals,
        file: LenientFile {
            alloc,
            header,
            timed: good.timed,
            whole,
            place: Place::First,
            given: 0,
            left_out: 0,
            changes,
        },
    })
}
