//! The files that a program began, in turn, with their bytes.

ghost use Rattle.std.specs.Prelude.{◌≡◌, ◌≤◌, ◌++◌, ◌∷◌, [], ℕ, false, List, All, IfOk};
ghost use Rattle.std.specs.Prelude.{Option, Some, None, MatchOption, MatchResult, OnOk, length};
ghost use Rattle.std.specs.Prelude.{option_map, string_bytes};
ghost use Rattle.std.specs.List.{AllZip};
ghost use Rattle.edf_cli.specs.Made.{MadeFile, made_file, begun, removed, WritesNone};
ghost use Rattle.edf_cli.specs.There.{HasName};
ghost use Rattle.edf_page.specs.InsideFolder.{last_held};
ghost use Rattle.edf_page.specs.Programs.{IsGivenBack, IsWholeOrGone, finished_of, made_of};
ghost use Rattle.edf_page.specs.declared.begun.NamedFile.{NamedFile};

use edf_cli::{FileStage, Unfinished};
use std::alloc::{AllocError, Global};
use std::marker::Model;

/// A file, by its name and its bytes.
#[derive(Debug, Drop)]
pub struct NamedFile {
    pub name: String,
    pub bytes: Vec<u8>,
}

/// A file that was begun: how far it is, whether it was finished, what its writer held when it was
/// given back, and why it did not get its name.
#[derive(Drop)]
struct BegunFile {
    name: String,
    stage: FileStage,
    is_whole: bool,
    bytes: Option<Vec<u8>>,
    why: Option<Unfinished>,
}

impl BegunFile {
    ghost use Rattle.std.specs.Prelude.{◌≡◌, ◌↔◌, IsTrue, false};
    ghost use Rattle.edf_cli.specs.There.{HasName};
    ghost use Rattle.edf_page.specs.Programs.{made_of};

    /// Its writer was given back.
    fn give_back(
        &mut self,
        stage: FileStage,
        is_whole: bool,
        bytes: Option<Vec<u8>>,
        why: Option<Unfinished>,
    )
        ensures name { self.new.name ≡ self.old.name }
        ensures stage { self.new.stage ≡ stage }
        ensures whole { self.new.is_whole ≡ is_whole }
        ensures bytes { self.new.bytes ≡ bytes }
        ensures why { self.new.why ≡ why }
    {
        self.stage = stage;
        self.is_whole = is_whole;
        self.bytes = bytes;
        self.why = why;
    }

    /// Whether it is written.
    fn is_begun(&self) -> bool
        ensures { IsTrue result ↔ (self.now.stage ≡ FileStage.Begun) × (self.now.is_whole ≡ false) }
    {
        self.stage == FileStage::Begun && !self.is_whole
    }

    /// Whether it has its name.
    fn is_named(&self) -> bool
        ensures { IsTrue result ↔ HasName (made_of self.now) }
    {
        self.is_whole && self.stage != FileStage::Removed
    }
}

/// Adds a file to those that are there, if it is there; else it was removed. None is left half
/// written, and none is kept: all can be removed.
fn push_finished(files: &mut Vec<NamedFile>, file: BegunFile) -> Result<(), AllocError>
    ensures added { OnOk result ((added : List NamedFile)
        × (files.new.items ≡ files.old.items ++ added)
        × AllZip IsGivenBack (finished_of (made_of file ∷ [])) added) }
    ensures gone { OnOk result (IsWholeOrGone (made_of file)) }
{
    if file.stage == FileStage::Removed {
        return Ok(());
    }
    if file.stage != FileStage::Finished {
        return Err(AllocError);
    }
    let BegunFile {
        name,
        stage: _,
        is_whole: _,
        bytes,
        why: _,
    } = file;
    let Some(bytes) = bytes else {
        return Err(AllocError);
    };
    files.push(NamedFile { name, bytes })?;
    Ok(())
}

/// The files that were begun, in turn.
#[derive(Drop)]
pub(crate) struct BegunFiles {
    entries: Vec<BegunFile>,
}

impl Model for BegunFiles {
    ghost use Rattle.std.specs.Prelude.{List, map, option_map, string_bytes};
    ghost use Rattle.edf_cli.specs.Made.{MadeFile, made_file};

    ghost Value = { List MadeFile };

    ghost view = { λ files. map (λ entry. made_file (string_bytes entry.name) entry.stage
        entry.is_whole (option_map (λ bytes. bytes.items) entry.bytes) entry.why)
        files.entries.items };
}

impl BegunFiles {
    /// No file yet.
    pub(crate) fn new(alloc: Global) -> BegunFiles
        ensures { result ≡ [] }
    {
        BegunFiles {
            entries: Vec::new(alloc),
        }
    }

    /// How many there are.
    pub(crate) fn count(&self) -> usize
        ensures { result ≡ length self.now }
    {
        self.entries.len()
    }

    /// The name of the file that is written, the last of them, if one is.
    pub(crate) fn written_name(&self) -> Result<Option<String>, AllocError>
        ensures some { (files : List MadeFile) (name : List ℕ) →
            self.now ≡ files ++ (begun name ∷ []) →
            IfOk result (λ found. option_map string_bytes found ≡ Some name) }
        ensures none { WritesNone self.now → IfOk result (λ found. found ≡ None) }
    {
        let count = self.entries.len();
        if count == 0 || !self.entries[count - 1].is_begun() {
            return Ok(None);
        }
        Ok(Some(self.entries[count - 1].name.clone()?))
    }

    /// The name of the file at a place, where it has that.
    pub(crate) fn named_at(&self, place: usize) -> Option<&str>
        ensures { (front later : List MadeFile) (file : MadeFile) →
            self.now ≡ front ++ (file ∷ later) → length front ≡ place →
            MatchOption result (¬ HasName file)
            (λ name. HasName file × (name.now ≡ file.name)) }
    {
        if place >= self.entries.len() {
            return None;
        }
        let entry = &self.entries[place];
        if !entry.is_named() {
            return None;
        }
        Some(entry.name.as_str())
    }

    /// Adds a file of that name that is begun.
    pub(crate) fn push(&mut self, alloc: Global, name: &str) -> Result<(), AllocError>
        ensures { MatchResult result
            (λ _. self.new ≡ self.old ++ (begun name.now ∷ []))
            (λ _. self.new ≡ self.old) }
    {
        let name = String::from_str(alloc, name)?;
        self.entries.push(BegunFile {
            name,
            stage: FileStage::Begun,
            is_whole: false,
            bytes: None,
            why: None,
        })?;
        Ok(())
    }

    /// Notes how far the file is that is written, whose writer was given back.
    pub(crate) fn give_back(
        &mut self,
        stage: FileStage,
        is_whole: bool,
        bytes: Option<Vec<u8>>,
        why: Option<Unfinished>,
    )
        ensures files { (files : List MadeFile) (name : List ℕ) →
            self.old ≡ files ++ (begun name ∷ []) → self.new ≡ files
            ++ (made_file name stage is_whole (option_map (λ bytes. bytes.items) bytes) why ∷ []) }
        ensures none { WritesNone self.old → self.new ≡ self.old }
        ensures held { is_whole ≡ false → (name : List ℕ) (other : Option (List ℕ)) →
            last_held self.new name other ≡ last_held self.old name other }
    {
        let count = self.entries.len();
        if count > 0 && self.entries[count - 1].is_begun() {
            self.entries[count - 1].give_back(stage, is_whole, bytes, why);
        }
    }

    /// Removes the file at a place, if there is one.
    pub(crate) fn remove(&mut self, place: usize)
        ensures files { (front later : List MadeFile) (file : MadeFile) →
            self.old ≡ front ++ (file ∷ later) → length front ≡ place →
            self.new ≡ front ++ (removed file ∷ later) }
        ensures none { length self.old ≤ place → self.new ≡ self.old }
    {
        if place < self.entries.len() {
            self.entries[place].stage = FileStage::Removed;
        }
    }

    /// Those that are there, in turn.
    pub(crate) fn into_named(self, alloc: Global) -> Result<Vec<NamedFile>, AllocError>
        ensures given_back { IfOk result (λ files.
            AllZip IsGivenBack (finished_of self) files.items) }
        ensures gone { IfOk result (λ _. All IsWholeOrGone self) }
    {
        let BegunFiles { entries } = self;
        let mut files = Vec::new(alloc);
        for entry in entries {
            push_finished(&mut files, entry)?;
        }
        Ok(files)
    }
}
