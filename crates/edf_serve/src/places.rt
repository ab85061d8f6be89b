//! What a name stands for.

ghost use Rattle.std.specs.Prelude.{◌≡◌, ◌≢◌, ◌↔◌, IsTrue, IfOk, All, codes, string_bytes};
ghost use Rattle.std.specs.Prelude.{option_map};
ghost use Rattle.std.specs.Bool.{MatchBool};
ghost use Rattle.edf_serve.specs.Files.{IsBelow, IsPlace, parts_of};

use crate::files::Sources;
use std::alloc::{AllocError, Global};

/// What separates the parts of a name.
const SLASH: u8 = b'/';

/// Whether a part of a name leads up.
fn is_up(part: &[u8]) -> bool
    ensures { MatchBool result (part.now ≡ codes "..") (part.now ≢ codes "..") }
{
    part == b"..".as_slice()
}

/// Whether no part of a name is `..`.
fn leads_down(name: &[u8]) -> bool
    ensures { IsTrue result ↔ All (λ part. part ≢ codes "..") (parts_of name.now) }
{
    name.split(|byte| *byte == SLASH).all(|part| !is_up(part))
}

/// Whether a name leads to something below the folder that it is taken from: it is not empty, does
/// not begin with a slash, and none of its parts is `..`.
fn is_below(name: &[u8]) -> bool
    ensures { IsTrue result ↔ IsBelow name.now }
{
    match name.first() {
        None => false,
        Some(first) => *first != SLASH && leads_down(name),
    }
}

/// What a name stands for: itself, or the path below the folder, where there is one. `None` where a
/// name does not lead below the folder, or a part of it is a link.
///
/// # Errors
/// Where memory ran out.
pub(crate) fn place_of<I: Sources>(
    alloc: Global,
    folder: Option<&str>,
    name: &str,
    sources: &I,
) -> Result<Option<String>, AllocError>
    ensures { IfOk result (λ path. IsPlace (I.paths sources.now)
        (option_map (λ f. f.now) folder.entry) name.now (option_map string_bytes path)) }
{
    let Some(folder) = folder else {
        return Ok(Some(String::from_str(alloc, name)?));
    };
    if !is_below(name.as_bytes()) {
        return Ok(None);
    }
    if sources.has_link(folder, name) {
        return Ok(None);
    }
    Ok(Some(format!(in alloc; "{folder}/{name}")?))
}
