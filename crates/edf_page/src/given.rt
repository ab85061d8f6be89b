//! A file that was given, and what opens it for a command.

ghost use Rattle.std.specs.Prelude.{◌≡◌, [], Some};
ghost use Rattle.edf_page.specs.InsideFolder.{two_files};

use edf_cli::Inputs;
use edf_fragment::Counted;
use std::alloc::{AllocError, Global};

/// A file: its name, as lines have it, and its bytes.
#[derive(Clone, Copy, Debug, Drop)]
pub struct GivenFile<'a> {
    pub name: &'a str,
    pub bytes: &'a [u8],
}

/// What opens just one file, under any name.
#[derive(Drop)]
pub(crate) struct OneFile<'a> {
    pub(crate) bytes: &'a [u8],
    /// The names that were asked for, in turn.
    names: Vec<String>,
}

impl<'a> OneFile<'a> {
    pub(crate) fn new(alloc: Global, bytes: &'a [u8]) -> OneFile<'a>
        ensures bytes { result.bytes.now ≡ bytes.now }
        ensures unopened { result.names.items ≡ [] }
    {
        OneFile {
            bytes,
            names: Vec::new(alloc),
        }
    }
}

impl<'a> Inputs for OneFile<'a> {
    ghost use Rattle.std.specs.Prelude.{Some, map, string_bytes};

    type Reader = Counted<&'a [u8]>;

    ghost bytes = { λ file _. Some file.bytes.now };

    ghost opened = { λ file. map string_bytes file.names.items };

    fn open(&mut self, alloc: Global, name: &str) -> Result<Counted<&'a [u8]>, AllocError> {
        self.names.push(String::from_str(alloc, name)?)?;
        Ok(Counted::new(self.bytes))
    }
}

/// What lines call the first of two files.
pub(crate) const FIRST: &str = "first";

/// What opens two files: one under this name, and the other under any other.
#[derive(Drop)]
pub(crate) struct TwoFiles<'a> {
    pub(crate) first: &'a [u8],
    pub(crate) second: &'a [u8],
    /// The names that were asked for, in turn.
    names: Vec<String>,
}

impl<'a> TwoFiles<'a> {
    pub(crate) fn new(alloc: Global, first: &'a [u8], second: &'a [u8]) -> TwoFiles<'a>
        ensures first { result.first.now ≡ first.now }
        ensures second { result.second.now ≡ second.now }
    {
        TwoFiles {
            first,
            second,
            names: Vec::new(alloc),
        }
    }

    /// The bytes that a name stands for.
    fn bytes_of(&self, name: &str) -> &'a [u8]
        ensures { Some result.now
            ≡ two_files self.now.first.now self.now.second.now name.now }
    {
        if FIRST == name {
            self.first
        } else {
            self.second
        }
    }
}

impl<'a> Inputs for TwoFiles<'a> {
    ghost use Rattle.std.specs.Prelude.{map, string_bytes};
    ghost use Rattle.edf_page.specs.InsideFolder.{two_files};

    type Reader = Counted<&'a [u8]>;

    ghost bytes = { λ files. two_files files.first.now files.second.now };

    ghost opened = { λ files. map string_bytes files.names.items };

    fn open(&mut self, alloc: Global, name: &str) -> Result<Counted<&'a [u8]>, AllocError> {
        let bytes = self.bytes_of(name);
        self.names.push(String::from_str(alloc, name)?)?;
        Ok(Counted::new(bytes))
    }
}
