//! The files that `take` names.

ghost use Rattle.std.specs.Prelude.{None};

use edf_cli::Inputs;
use edf_fragment::Counted;
use edf_os::{FileReader, Files, Terminal};
use edf_serve::Sources;
use edfstore_open::Standing;
use std::alloc::{AllocError, Global};
use std::fs;

/// What separates the parts of a name.
const SLASH: u8 = b'/';

/// Opens regular files, of which it keeps no list. Before each it is asked whether the files of the
/// store stand.
#[derive(Drop)]
pub(crate) struct SystemFiles<'rt> {
    rt: &'rt HostRuntime,
    terminal: &'rt Terminal<'rt>,
    standing: &'rt Standing<'rt>,
}

impl<'rt> SystemFiles<'rt> {
    pub(crate) fn new(
        rt: &'rt HostRuntime,
        terminal: &'rt Terminal<'rt>,
        standing: &'rt Standing<'rt>,
    ) -> SystemFiles<'rt> {
        SystemFiles {
            rt,
            terminal,
            standing,
        }
    }
}

/// Whether there is a link of that path. Where the system does not answer, there is none, and the
/// path can't be opened.
fn is_link(rt: &HostRuntime, path: &str) -> bool {
    match fs::symlink_metadata(rt, path) {
        Ok(found) => found.is_symlink(),
        Err(_) => false,
    }
}

/// Whether a part of a path is a link, after the front of `whole` bytes.
fn is_linked_after(rt: &HostRuntime, path: &str, whole: usize) -> bool {
    for (at, byte) in path.as_bytes().iter().enumerate() {
        if at > whole
            && *byte == SLASH
            && let Some(front) = path.get(..at)
            && is_link(rt, front)
        {
            return true;
        }
    }
    is_link(rt, path)
}

impl<'rt> Sources for SystemFiles<'rt> {
    type Reader = Counted<FileReader<'rt>>;

    ghost paths = { λ _. record {
      bytes = λ _. None;
      links = λ _ _. None;
      opened = None;
    } };

    fn has_link(&self, folder: &str, name: &str) -> bool {
        match format!(in self.rt.alloc(); "{folder}/{name}") {
            Ok(path) => is_linked_after(self.rt, path.as_str(), folder.len()),
            Err(_) => true,
        }
    }

    fn open(&mut self, alloc: Global, path: &str) -> Result<Counted<FileReader<'rt>>, AllocError> {
        let _ = self.standing.stands();
        Files::regular(self.rt, self.terminal).open(alloc, path)
    }
}
