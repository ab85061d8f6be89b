//! New files of the system.

ghost use Rattle.std.specs.Prelude.{◌≡◌, None, false, IfOk};

use crate::parts::{NewFile, Parts};
use crate::terminal::Terminal;
use edf_cli::{FileStage, MadeFiles, NewFiles, Unfinished};
use std::alloc::Global;
use std::io::{self, ErrorKind};

/// Makes new files, and prints why that failed. Each is written as `NAME.part`, and gets its name
/// once it is whole and on the disk.
#[derive(Drop)]
pub struct PartFiles<'rt> {
    system: Parts<'rt>,
    made: MadeFiles,
    names: Vec<MadeNames>,
}

/// The names that a file has.
#[derive(Drop)]
struct MadeNames {
    /// The name `NAME.part`, while it has that.
    part: Option<String>,
    /// It is true where it has its own name.
    is_named: bool,
}

impl<'rt> PartFiles<'rt> {
    /// Returns one that has made no file.
    pub fn new(rt: &'rt HostRuntime, terminal: &'rt Terminal<'rt>) -> PartFiles<'rt> {
        PartFiles {
            system: Parts::new(rt, terminal),
            made: MadeFiles::new(rt.alloc()),
            names: Vec::new(rt.alloc()),
        }
    }

    /// Begins a file. Its names are noted first, since nothing may fail once it is made.
    fn begin(&mut self, alloc: Global, name: &str) -> io::Result<NewFile<'rt>>
        ensures unfailed { IfOk result (λ file. file.failures ≡ 0) }
        ensures made { self.new.made ≡ self.old.made }
    {
        let part = format!(in alloc; "{name}.part")?;
        let kept = String::from_str(alloc, part.as_str())?;
        let name = String::from_str(alloc, name)?;
        self.names.reserve(1)?;
        let file = self.system.create(name, part)?;
        self.names.push(MadeNames {
            part: Some(kept),
            is_named: false,
        })?;
        Ok(file)
    }

    /// Notes that the file that was begun last has its name, and its part no more if `is_whole`.
    fn name_last(&mut self, is_whole: bool)
        ensures { self.new.made ≡ self.old.made }
    {
        let count = self.names.len();
        if count > 0 {
            self.names[count - 1].is_named = true;
            if is_whole {
                self.names[count - 1].part = None;
            }
        }
    }

    /// Removes the file at a place, under the names that it has, and is true where it is gone.
    fn is_removed(&self, place: usize) -> bool {
        let Some(names) = self.names.get(place) else {
            return false;
        };
        let has_part = match &names.part {
            Some(part) => !self.system.is_removed(part.as_str()),
            None => false,
        };
        let has_name = match self.made.name(place) {
            Some(name) if names.is_named => !self.system.is_removed(name),
            _ => false,
        };
        !has_part && !has_name
    }
}

impl<'rt> NewFiles for PartFiles<'rt> {
    type Writer = NewFile<'rt>;

    ghost known = { λ _. false };

    ghost there = { λ _ _. None };

    ghost made = { λ files. files.made.files };

    ghost begun_count = { λ files. files.made.begun_count };

    ghost failed = { λ files. files.made.failed };

    fn is_there(&mut self, name: &str) -> bool {
        self.system.is_there(name)
    }

    fn create(&mut self, alloc: Global, name: &str) -> io::Result<NewFile<'rt>> {
        self.made.begin(alloc, name)?;
        match self.begin(alloc, name) {
            Ok(writer) => {
                self.made.confirm();
                Ok(writer)
            }
            Err(error) => {
                self.made.cancel();
                Err(error)
            }
        }
    }

    fn finish(&mut self, writer: NewFile<'rt>) -> Result<u64, Unfinished> {
        if !self.made.is_writing() {
            self.made.fail(Unfinished::Failed, None, false);
            return Err(Unfinished::Failed);
        }
        let bytes = writer.bytes;
        match self.system.finish(writer) {
            Ok(()) => {
                self.name_last(true);
                self.made.finish(None);
                Ok(bytes)
            }
            Err(unnamed) => {
                if unnamed.is_name_left {
                    self.name_last(false);
                }
                let last = self.made.count().saturating_sub(1);
                let is_gone = self.is_removed(last);
                let why = match unnamed.error.kind() {
                    ErrorKind::AlreadyExists => Unfinished::IsThere,
                    _ => Unfinished::Failed,
                };
                self.made.fail(why, None, is_gone);
                Err(why)
            }
        }
    }

    fn abandon(&mut self, writer: NewFile<'rt>) {
        self.made.abandon(None, writer.failures);
    }

    fn count(&self) -> usize {
        self.made.count()
    }

    fn remove(&mut self, place: usize) -> bool {
        if place >= self.made.count() {
            return false;
        }
        let was_gone = matches!(self.made.stage(place), Some(FileStage::Removed));
        let is_gone = was_gone || self.is_removed(place);
        self.made.end(place, is_gone);
        is_gone
    }

    fn forget(&mut self) {
        self.names.clear();
        self.made.forget();
    }
}
