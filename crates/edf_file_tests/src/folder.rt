//! What takes files in place of a disk.

ghost use Rattle.std.specs.Prelude.{◌≡◌, [], None, Some, true, IfOk};

use edf_cli::{MadeFiles, NewFiles, Unfinished};
use edf_fragment::{Output, saturating_increment};
use std::alloc::Global;
use std::io;

/// A writer that takes so many bytes, and then fails.
#[derive(Drop)]
pub(crate) struct Page {
    bytes: Vec<u8>,
    room: usize,
    failures: u64,
}

impl Output for Page {
    ghost contents = { λ page. Some page.bytes.items };

    ghost failures = { λ page. page.failures };

    fn write(&mut self, buf: &[u8]) -> io::Result<usize> {
        let most = buf.len().min(self.room.saturating_sub(self.bytes.len()));
        let is_full = most == 0 && !buf.is_empty();
        if is_full || self.bytes.extend_from_slice(&buf[..most]).is_err() {
            self.failures = saturating_increment(self.failures);
            return Err(io::Error::from(io::ErrorKind::StorageFull));
        }
        Ok(most)
    }
}

/// What a folder can't do.
#[derive(Clone, Copy)]
pub(crate) struct Limits {
    /// How many bytes each new file takes.
    pub(crate) room: usize,
    /// Which file from the first can't be made, ended and removed; 0 where each can.
    pub(crate) unmade: usize,
    pub(crate) unfinished: usize,
    pub(crate) unremoved: usize,
}

/// No limits.
pub(crate) fn free() -> Limits {
    Limits {
        room: usize::MAX,
        unmade: 0,
        unfinished: 0,
        unremoved: 0,
    }
}

/// A folder that is empty at first, and the files that were made there.
#[derive(Drop)]
pub(crate) struct Folder {
    made: MadeFiles,
    limits: Limits,
    asked: usize,
    removed: usize,
}

impl Folder {
    pub(crate) fn new(alloc: Global, limits: Limits) -> Folder {
        Folder {
            made: MadeFiles::new(alloc),
            limits,
            asked: 0,
            removed: 0,
        }
    }

    /// How many files are there.
    pub(crate) fn left(&self) -> usize {
        self.asked.saturating_sub(self.removed)
    }

    /// A new, empty file.
    fn page(&mut self, alloc: Global) -> io::Result<Page>
        ensures page { IfOk result (λ page. (page.bytes.items ≡ []) × (page.failures ≡ 0)) }
        ensures made { self.new.made ≡ self.old.made }
    {
        let nth = self.asked.saturating_add(1);
        if nth == self.limits.unmade {
            return Err(io::Error::from(io::ErrorKind::AlreadyExists));
        }
        self.asked = nth;
        Ok(Page {
            bytes: Vec::new(alloc),
            room: self.limits.room,
            failures: 0,
        })
    }
}

impl NewFiles for Folder {
    type Writer = Page;

    ghost known = { λ _. true };

    ghost there = { λ _ _. None };

    ghost made = { λ folder. folder.made.files };

    ghost begun_count = { λ folder. folder.made.begun_count };

    ghost failed = { λ folder. folder.made.failed };

    fn is_there(&mut self, _name: &str) -> bool {
        false
    }

    fn create(&mut self, alloc: Global, name: &str) -> io::Result<Page> {
        self.made.begin(alloc, name)?;
        match self.page(alloc) {
            Ok(page) => {
                self.made.confirm();
                Ok(page)
            }
            Err(error) => {
                self.made.cancel();
                Err(error)
            }
        }
    }

    fn finish(&mut self, writer: Page) -> Result<u64, Unfinished> {
        let Page {
            bytes,
            room: _,
            failures,
        } = writer;
        let is_writing = self.made.is_writing();
        if !is_writing || failures > 0 || self.asked == self.limits.unfinished {
            self.removed = self.removed.saturating_add(is_writing as usize);
            self.made.fail(Unfinished::Failed, Some(bytes), is_writing);
            return Err(Unfinished::Failed);
        }
        let count = bytes.len() as u64;
        self.made.finish(Some(bytes));
        Ok(count)
    }

    fn abandon(&mut self, writer: Page) {
        let Page {
            bytes,
            room: _,
            failures,
        } = writer;
        self.made.abandon(Some(bytes), failures);
    }

    fn count(&self) -> usize {
        self.made.count()
    }

    fn remove(&mut self, place: usize) -> bool {
        if place >= self.made.count() {
            return false;
        }
        let is_gone = place.saturating_add(1) != self.limits.unremoved;
        self.made.end(place, is_gone);
        self.removed = self.removed.saturating_add(is_gone as usize);
        is_gone
    }

    fn forget(&mut self) {
        self.made.forget();
    }
}
