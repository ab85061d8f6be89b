//! What lies one after another where a call is given it.

ghost use Rattle.std.specs.Prelude.{◌≡◌, ◌++◌, ◌<◌, ◌≤◌, ℕ, List, Err, None, All, IfOk, IfSome};
ghost use Rattle.std.specs.Prelude.{length, map};
ghost use Rattle.std.specs.Str.{IsUtf8};
ghost use Rattle.edf_page_exports.specs.Laid.{AreCut, AreTexts, AreFiles, LieFiles};

use edf_page::GivenFile;
use std::alloc::{AllocError, Global};

/// Why a call is not answered with what it asks for.
#[derive(Clone, Copy, Debug, PartialEq, Eq, Drop)]
pub(crate) enum Fault {
    /// What lies there is no call.
    NoCall,
    /// Memory ran out.
    Memory,
}

impl From<AllocError> for Fault {
    ghost use Rattle.std.specs.Prelude.{◌≡◌};
    ghost use Rattle.edf_page_exports.specs.declared.given.Fault.{Fault};

    ghost from_gives = { λ _ fault. fault ≡ Fault.Memory };

    fn from(_refused: AllocError) -> Fault {
        Fault::Memory
    }
}

/// The front of so many bytes, and what is behind it.
fn cut(bytes: &[u8], size: u64) -> Option<(&[u8], &[u8])>
    ensures all { IfSome result (λ both. bytes.now ≡ both.0.now ++ both.1.now) }
    ensures sized { IfSome result (λ both. length both.0.now ≡ size) }
    ensures none { result ≡ None → length bytes.now < size }
{
    let size = size as usize;
    if size <= bytes.len() {
        Some(bytes.split_at(size))
    } else {
        None
    }
}

/// The pieces of these sizes, which are all of the bytes.
fn pieces_in<'a>(alloc: Global, bytes: &'a [u8], sizes: &[u64]) -> Result<Vec<&'a [u8]>, Fault>
    ensures cut { IfOk result
        (λ pieces. AreCut bytes.now sizes.now (map (λ piece. piece.now) pieces.items)) }
    ensures none { result ≡ Err Fault.NoCall →
        (pieces : List (List ℕ)) → ¬ AreCut bytes.now sizes.now pieces }
{
    let mut pieces = Vec::new(alloc);
    let mut left = bytes;
    for size in sizes {
        let Some((piece, behind)) = cut(left, *size) else {
            return Err(Fault::NoCall);
        };
        if pieces.push(piece).is_err() {
            return Err(Fault::Memory);
        }
        left = behind;
    }
    if left.is_empty() {
        Ok(pieces)
    } else {
        Err(Fault::NoCall)
    }
}

/// The texts of these sizes, which are all of the bytes.
pub(crate) fn texts_in<'a>(
    alloc: Global,
    bytes: &'a [u8],
    sizes: &[u64],
) -> Result<Vec<&'a str>, Fault>
    ensures texts { IfOk result
        (λ texts. AreTexts bytes.now sizes.now (map (λ text. text.now) texts.items)) }
    ensures none { result ≡ Err Fault.NoCall →
        (texts : List (List ℕ)) → ¬ AreTexts bytes.now sizes.now texts }
{
    let pieces = pieces_in(alloc, bytes, sizes)?;
    let mut texts = Vec::new(alloc);
    for piece in pieces.as_slice() {
        let Ok(text) = std::str::from_utf8(piece) else {
            return Err(Fault::NoCall);
        };
        if texts.push(text).is_err() {
            return Err(Fault::Memory);
        }
    }
    Ok(texts)
}

/// Files by names and bytes, of which there are as many.
fn files_of<'a>(
    alloc: Global,
    names: &[&'a str],
    pieces: &[&'a [u8]],
) -> Result<Vec<GivenFile<'a>>, AllocError>
    requires { length names.now ≡ length pieces.now }
    ensures names { IfOk result (λ files.
        map (λ file. file.name.now) files.items ≡ map (λ name. name.now) names.now) }
    ensures bytes { IfOk result (λ files.
        map (λ file. file.bytes.now) files.items ≡ map (λ piece. piece.now) pieces.now) }
{
    let mut files = Vec::new(alloc);
    for (at, name) in names.iter().enumerate() {
        files.push(GivenFile {
            name,
            bytes: pieces[at],
        })?;
    }
    Ok(files)
}

/// The files whose names and bytes lie there.
pub(crate) fn files_in<'a>(
    alloc: Global,
    names: &'a [u8],
    name_sizes: &[u64],
    bytes: &'a [u8],
    sizes: &[u64],
) -> Result<Vec<GivenFile<'a>>, Fault>
    ensures files { IfOk result (λ files. AreFiles names.now name_sizes.now bytes.now sizes.now
        (map (λ file. file.name.now) files.items) (map (λ file. file.bytes.now) files.items)) }
    ensures none { result ≡ Err Fault.NoCall →
        ¬ LieFiles names.now name_sizes.now bytes.now sizes.now }
{
    let own_names = texts_in(alloc, names, name_sizes)?;
    let pieces = pieces_in(alloc, bytes, sizes)?;
    if own_names.len() != pieces.len() {
        return Err(Fault::NoCall);
    }
    let files = files_of(alloc, own_names.as_slice(), pieces.as_slice())?;
    Ok(files)
}
