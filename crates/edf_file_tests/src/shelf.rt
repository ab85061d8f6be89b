//! What gives files in place of a disk.

ghost use Rattle.std.specs.Prelude.{None, map, string_bytes};

use crate::files::file_named;
use edf_cli::Inputs;
use edf_fragment::Counted;
use std::alloc::{AllocError, Global};
use std::io::{self, Read};

/// A reader of a file, whose reads fail from a byte on. A missing one fails at the first read.
#[derive(Drop)]
pub(crate) struct Shelved {
    bytes: Option<Vec<u8>>,
    at: usize,
    cut: usize,
}

impl Read for Shelved {
    fn read(&mut self, buf: &mut [u8]) -> io::Result<usize> {
        let Some(bytes) = &self.bytes else {
            return Err(io::Error::from(io::ErrorKind::NotFound));
        };
        if self.at >= self.cut {
            return Err(io::Error::from(io::ErrorKind::Other));
        }
        let Some(mut rest) = bytes.get(self.at..self.cut.min(bytes.len())) else {
            return Ok(0);
        };
        let count = rest.read(buf)?;
        self.at = self.at.saturating_add(count);
        Ok(count)
    }
}

/// Files by their names, as each of two readings finds them.
#[derive(Drop)]
pub(crate) struct Shelf {
    /// The second reading finds this file in place of the named one, where there is one.
    again: Option<Vec<u8>>,
    /// From which byte on reads fail, in the first reading and in the second.
    cuts: [usize; 2],
    /// The names that were opened, in turn.
    names: Vec<String>,
}

impl Shelf {
    /// The same files in each reading, none of which fails.
    pub(crate) fn new(alloc: Global) -> Shelf {
        Shelf {
            again: None,
            cuts: [usize::MAX, usize::MAX],
            names: Vec::new(alloc),
        }
    }

    /// This file in the second reading.
    pub(crate) fn changed(mut self, again: Vec<u8>) -> Shelf {
        self.again = Some(again);
        self
    }

    /// Reads that fail from these bytes on, in the first reading and in the second.
    pub(crate) fn failing(mut self, first: usize, second: usize) -> Shelf {
        self.cuts = [first, second];
        self
    }
}

impl Inputs for Shelf {
    type Reader = Counted<Shelved>;

    ghost bytes = { λ _ _. None };

    ghost opened = { λ shelf. map string_bytes shelf.names.items };

    fn open(&mut self, alloc: Global, name: &str) -> Result<Counted<Shelved>, AllocError> {
        let [first, second] = self.cuts;
        let (bytes, cut) = match (self.names.is_empty(), &self.again) {
            (true, _) => (file_named(alloc, name), first),
            (false, None) => (file_named(alloc, name), second),
            (false, Some(again)) => (Some(Vec::from_slice(alloc, again.as_slice())?), second),
        };
        self.names.push(String::from_str(alloc, name)?)?;
        Ok(Counted::new(Shelved { bytes, at: 0, cut }))
    }
}
