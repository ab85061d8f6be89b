//! A folder in memory: a file is there, and a program makes new ones.

ghost use Rattle.std.specs.Prelude.{◌≡◌, ◌++◌, ◌∷◌, [], ℕ, List, Bool, false, true, All, IfOk};
ghost use Rattle.std.specs.Prelude.{◌||◌, IfErr, MatchResult, bytes_eq};
ghost use Rattle.std.specs.List.{AllZip};
ghost use Rattle.edf_cli.specs.Made.{MadeFile, begun, WritesNone};
ghost use Rattle.edf_page.specs.InsideFolder.{is_among, unforgotten};
ghost use Rattle.edf_page.specs.Programs.{IsGivenBack, IsWholeOrGone, finished_of};

use crate::begun::{BegunFiles, NamedFile};
use crate::given::GivenFile;
use crate::names::Names;
use crate::text::Text;
use edf_cli::{FileStage, NewFiles, Unfinished};
use edf_fragment::saturating_increment;
use std::alloc::{AllocError, Global};
use std::io;

/// A folder with a file, and what a program makes beside it. Once that is forgotten, nothing more
/// is made: no command that has this folder forgets anything.
#[derive(Drop)]
pub(crate) struct Folder<'a> {
    pub(crate) given: GivenFile<'a>,
    /// The names of which there is something.
    pub(crate) names: Names,
    pub(crate) files: BegunFiles,
    pub(crate) is_forgotten: bool,
    pub(crate) begun_count: u64,
    pub(crate) failed: u64,
}

impl<'a> Folder<'a> {
    /// Nothing was made yet.
    pub(crate) fn new(alloc: Global, given: &GivenFile<'a>) -> Result<Folder<'a>, AllocError>
        ensures given { IfOk result (λ folder. folder.given ≡ given.now) }
        ensures named { IfOk result (λ folder. (other : List ℕ) →
            is_among folder.names.all.items other ≡ bytes_eq given.now.name.now other) }
        ensures none { IfOk result (λ folder. folder.files ≡ []) }
        ensures unforgotten { IfOk result (λ folder. folder.is_forgotten ≡ false) }
        ensures unfailed { IfOk result (λ folder. folder.failed ≡ 0) }
    {
        let names = Names::of(alloc, given.name)?;
        Ok(Folder {
            given: *given,
            names,
            files: BegunFiles::new(alloc),
            is_forgotten: false,
            begun_count: 0,
            failed: 0,
        })
    }

    /// Notes the name of the file that is written among those of which there is something. None is
    /// written where a write to it failed.
    fn take_name(&mut self, failures: u64) -> Result<(), Unfinished>
        ensures given { self.new.given ≡ self.old.given }
        ensures files { self.new.files ≡ self.old.files }
        ensures forgotten { self.new.is_forgotten ≡ self.old.is_forgotten }
        ensures begun_count { self.new.begun_count ≡ self.old.begun_count }
        ensures failed { self.new.failed ≡ self.old.failed }
        ensures unfailed { IfOk result (λ _. failures ≡ 0) }
        ensures names { (files : List MadeFile) (name : List ℕ) →
            self.old.files ≡ files ++ (begun name ∷ []) → MatchResult result
            (λ _. (is_among self.old.names.all.items name ≡ false)
            × ((other : List ℕ) → is_among self.new.names.all.items other
            ≡ (is_among self.old.names.all.items other || bytes_eq name other)))
            (λ why. why ≡ Unfinished.IsThere → is_among self.old.names.all.items name ≡ true) }
        ensures stay { IfErr result (λ _. self.new.names.all.items ≡ self.old.names.all.items) }
        ensures none { WritesNone (unforgotten self.old.is_forgotten self.old.files) →
            IfOk result (λ _. ⊥) }
    {
        if self.is_forgotten || failures > 0 {
            return Err(Unfinished::Failed);
        }
        let Ok(Some(name)) = self.files.written_name() else {
            return Err(Unfinished::Failed);
        };
        if self.names.have(name.as_str()) {
            return Err(Unfinished::IsThere);
        }
        match self.names.add(name) {
            Ok(()) => Ok(()),
            Err(_) => Err(Unfinished::Failed),
        }
    }

    /// The files that were made and are there, in turn.
    pub(crate) fn into_named(self, alloc: Global) -> Result<Vec<NamedFile>, AllocError>
        ensures given_back { IfOk result (λ files. AllZip IsGivenBack
            (finished_of (unforgotten self.entry.is_forgotten self.entry.files)) files.items) }
        ensures gone { IfOk result (λ _. All IsWholeOrGone
            (unforgotten self.entry.is_forgotten self.entry.files)) }
    {
        if self.is_forgotten {
            return Ok(Vec::new(alloc));
        }
        self.files.into_named(alloc)
    }
}

impl<'a> NewFiles for Folder<'a> {
    ghost use Rattle.std.specs.Prelude.{true};
    ghost use Rattle.edf_page.specs.InsideFolder.{there_in, unforgotten};

    type Writer = Text;

    ghost known = { λ _. true };

    ghost there = { λ folder. there_in folder.given.name.now folder.given.bytes.now
        folder.names.all.items folder.files };

    ghost made = { λ folder. unforgotten folder.is_forgotten folder.files };

    ghost begun_count = { λ folder. folder.begun_count };

    ghost failed = { λ folder. folder.failed };

    fn is_there(&mut self, name: &str) -> bool {
        self.names.have(name)
    }

    fn create(&mut self, alloc: Global, name: &str) -> io::Result<Text> {
        let is_refused = self.is_forgotten || self.names.have(name);
        if is_refused || self.files.push(alloc, name).is_err() {
            self.failed = saturating_increment(self.failed);
            return Err(io::Error::from(io::ErrorKind::AlreadyExists));
        }
        self.begun_count = saturating_increment(self.begun_count);
        Ok(Text::new(alloc))
    }

    fn finish(&mut self, writer: Text) -> Result<u64, Unfinished> {
        let Text { bytes, failures } = writer;
        if let Err(why) = self.take_name(failures) {
            if !self.is_forgotten {
                self.files
                    .give_back(FileStage::Removed, false, Some(bytes), Some(why));
            }
            self.failed = saturating_increment(self.failed);
            return Err(why);
        }
        let count = bytes.len() as u64;
        self.files
            .give_back(FileStage::Finished, true, Some(bytes), None);
        Ok(count)
    }

    fn abandon(&mut self, writer: Text) {
        let Text { bytes, failures } = writer;
        if !self.is_forgotten {
            self.files
                .give_back(FileStage::Abandoned, false, Some(bytes), None);
        }
        self.failed = self.failed.saturating_add(failures);
    }

    fn count(&self) -> usize {
        if self.is_forgotten {
            0
        } else {
            self.files.count()
        }
    }

    fn remove(&mut self, place: usize) -> bool {
        if self.is_forgotten {
            return false;
        }
        if place >= self.files.count() {
            return false;
        }
        let Some(name) = self.files.named_at(place) else {
            self.files.remove(place);
            return true;
        };
        self.names.remove(name);
        self.files.remove(place);
        true
    }

    fn forget(&mut self) {
        self.is_forgotten = true;
    }
}
