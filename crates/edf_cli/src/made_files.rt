//! The list of the files that a maker of files began.

ghost use Rattle.std.specs.Prelude.{◌≡◌, ◌≤◌, ◌++◌, ◌∷◌, [], ℕ, true, false, List, MatchResult};
ghost use Rattle.std.specs.Prelude.{length, option_map, slice_get};
ghost use Rattle.std.specs.Bool.{MatchBool};
ghost use Rattle.edf_fragment.specs.Failures.{saturating_increment};
ghost use Rattle.edf_cli.specs.Made.{MadeFile, made_file, begun, half, finished, removed};
ghost use Rattle.edf_cli.specs.Made.{not_removed, unnamed, stage_after, WritesNone, failed_with};

use crate::new_files::{FileStage, Unfinished};
use edf_fragment::saturating_increment;
use std::alloc::{AllocError, Global};
use std::marker::Model;

/// A file that was begun. `bytes` are what its writer held when it was given back, where known.
#[derive(Drop)]
struct MadeEntry {
    name: String,
    stage: FileStage,
    is_whole: bool,
    bytes: Option<Vec<u8>>,
    why: Option<Unfinished>,
}

impl MadeEntry {
    ghost use Rattle.std.specs.Prelude.{◌≡◌};

    /// Sets all but the name, as its writer is given back.
    fn give_back(
        &mut self,
        stage: FileStage,
        is_whole: bool,
        bytes: Option<Vec<u8>>,
        why: Option<Unfinished>,
    )
        ensures name { self.new.name ≡ self.old.name }
        ensures stage { self.new.stage ≡ stage }
        ensures whole { self.new.is_whole ≡ is_whole }
        ensures bytes { self.new.bytes ≡ bytes }
        ensures why { self.new.why ≡ why }
    {
        self.stage = stage;
        self.is_whole = is_whole;
        self.bytes = bytes;
        self.why = why;
    }
}

/// Returns the stage of a file that was to be removed.
fn stage_after(is_gone: bool) -> FileStage
    ensures { result ≡ stage_after is_gone }
{
    if is_gone {
        FileStage::Removed
    } else {
        FileStage::NotRemoved
    }
}

/// The files that were begun, in turn, without forgotten ones; the count of all; and the count of
/// those that could not be begun or finished and of failed writes of abandoned ones. Counts go up
/// to `u64::MAX`.
#[derive(Drop)]
pub struct MadeFiles {
    entries: Vec<MadeEntry>,
    begun_count: u64,
    failed: u64,
}

impl Model for MadeFiles {
    ghost use Rattle.std.specs.Prelude.{map, option_map, string_bytes};
    ghost use Rattle.edf_cli.specs.Made.{Made, made_file};

    ghost Value = { Made };

    ghost view = { λ made. record {
      files = map (λ entry. made_file (string_bytes entry.name) entry.stage entry.is_whole
          (option_map (λ bytes. bytes.items) entry.bytes) entry.why) made.entries.items;
      begun_count = made.begun_count;
      failed = made.failed;
    } };
}

impl MadeFiles {
    pub fn new(alloc: Global) -> MadeFiles
        ensures files { result.files ≡ [] }
        ensures begun_count { result.begun_count ≡ 0 }
        ensures failed { result.failed ≡ 0 }
    {
        MadeFiles {
            entries: Vec::new(alloc),
            begun_count: 0,
            failed: 0,
        }
    }

    /// Returns how many files are listed.
    pub fn count(&self) -> usize
        ensures { result ≡ length self.now.files }
    {
        self.entries.len()
    }

    /// Is true if a file is being written: the last one.
    pub fn is_writing(&self) -> bool
        ensures some { result ≡ true → ¬ WritesNone self.now.files }
        ensures none { result ≡ false → WritesNone self.now.files }
    {
        let count = self.entries.len();
        count > 0 && self.entries[count - 1].stage == FileStage::Begun
    }

    /// Adds a file of that name, as begun.
    fn push(&mut self, alloc: Global, name: &str) -> Result<(), AllocError>
        ensures files { MatchResult result
            (λ _. self.new.files ≡ self.old.files ++ (begun name.now ∷ []))
            (λ _. self.new.files ≡ self.old.files) }
        ensures failed { self.new.failed ≡ self.old.failed }
        ensures begun_count { self.new.begun_count ≡ self.old.begun_count }
    {
        let name = String::from_str(alloc, name)?;
        self.entries.push(MadeEntry {
            name,
            stage: FileStage::Begun,
            is_whole: false,
            bytes: None,
            why: None,
        })?;
        Ok(())
    }

    /// Notes that a file of that name is to be begun. Then `confirm` or `cancel` says if it was.
    ///
    /// # Errors
    /// Memory ran out. Then no file is noted, but one more failed.
    pub fn begin(&mut self, alloc: Global, name: &str) -> Result<(), AllocError>
        ensures files { MatchResult result
            (λ _. self.new.files ≡ self.old.files ++ (begun name.now ∷ []))
            (λ _. self.new.files ≡ self.old.files) }
        ensures failed { MatchResult result
            (λ _. self.new.failed ≡ self.old.failed)
            (λ _. self.new.failed ≡ saturating_increment self.old.failed) }
        ensures begun_count { self.new.begun_count ≡ self.old.begun_count }
    {
        match self.push(alloc, name) {
            Ok(()) => Ok(()),
            Err(error) => {
                self.failed = saturating_increment(self.failed);
                Err(error)
            }
        }
    }

    /// Counts the file that was noted last as begun.
    pub fn confirm(&mut self)
        ensures files { self.new.files ≡ self.old.files }
        ensures failed { self.new.failed ≡ self.old.failed }
        ensures begun_count { self.new.begun_count ≡ saturating_increment self.old.begun_count }
    {
        self.begun_count = saturating_increment(self.begun_count);
    }

    /// Removes the file that was noted last, which could not be begun.
    pub fn cancel(&mut self)
        ensures files { (files : List MadeFile) (file : MadeFile) →
            self.old.files ≡ files ++ (file ∷ []) → self.new.files ≡ files }
        ensures none { self.old.files ≡ [] → self.new.files ≡ [] }
        ensures failed { self.new.failed ≡ saturating_increment self.old.failed }
        ensures begun_count { self.new.begun_count ≡ self.old.begun_count }
    {
        self.entries.pop();
        self.failed = saturating_increment(self.failed);
    }

    /// Notes how the file that is being written ended, as its writer is given back.
    fn give_back(
        &mut self,
        stage: FileStage,
        is_whole: bool,
        bytes: Option<Vec<u8>>,
        why: Option<Unfinished>,
    )
        ensures files { (files : List MadeFile) (name : List ℕ) →
            self.old.files ≡ files ++ (begun name ∷ []) → self.new.files ≡ files
            ++ (made_file name stage is_whole (option_map (λ bytes. bytes.items) bytes) why ∷ []) }
        ensures none { WritesNone self.old.files → self.new.files ≡ self.old.files }
        ensures failed { self.new.failed ≡ self.old.failed }
        ensures begun_count { self.new.begun_count ≡ self.old.begun_count }
    {
        let count = self.entries.len();
        if count > 0 && self.entries[count - 1].stage == FileStage::Begun {
            self.entries[count - 1].give_back(stage, is_whole, bytes, why);
        }
    }

    /// Notes that the file that is being written is whole, with these bytes, and has its name.
    pub fn finish(&mut self, bytes: Option<Vec<u8>>)
        ensures files { (files : List MadeFile) (name : List ℕ) →
            self.old.files ≡ files ++ (begun name ∷ []) → self.new.files
            ≡ files ++ (finished name (option_map (λ bytes. bytes.items) bytes) ∷ []) }
        ensures none { WritesNone self.old.files → self.new.files ≡ self.old.files }
        ensures failed { self.new.failed ≡ self.old.failed }
        ensures begun_count { self.new.begun_count ≡ self.old.begun_count }
    {
        self.give_back(FileStage::Finished, true, bytes, None);
    }

    /// Notes why the file that is being written did not get its name, and whether it is gone.
    pub fn fail(&mut self, why: Unfinished, bytes: Option<Vec<u8>>, is_gone: bool)
        ensures files { (files : List MadeFile) (name : List ℕ) →
            self.old.files ≡ files ++ (begun name ∷ []) → self.new.files ≡ files
            ++ (unnamed name why (option_map (λ bytes. bytes.items) bytes) is_gone ∷ []) }
        ensures none { WritesNone self.old.files → self.new.files ≡ self.old.files }
        ensures failed { self.new.failed ≡ saturating_increment self.old.failed }
        ensures begun_count { self.new.begun_count ≡ self.old.begun_count }
    {
        self.give_back(stage_after(is_gone), false, bytes, Some(why));
        self.failed = saturating_increment(self.failed);
    }

    /// Notes that the file that is being written was abandoned, after so many failures.
    pub fn abandon(&mut self, bytes: Option<Vec<u8>>, failures: u64)
        ensures files { (files : List MadeFile) (name : List ℕ) →
            self.old.files ≡ files ++ (begun name ∷ []) → self.new.files
            ≡ files ++ (half name (option_map (λ bytes. bytes.items) bytes) ∷ []) }
        ensures none { WritesNone self.old.files → self.new.files ≡ self.old.files }
        ensures failed { self.new.failed ≡ failed_with self.old.failed failures }
        ensures begun_count { self.new.begun_count ≡ self.old.begun_count }
    {
        self.give_back(FileStage::Abandoned, false, bytes, None);
        self.failed = self.failed.saturating_add(failures);
    }

    /// Returns the name of the file at a place, from 0, if there is one.
    pub fn name(&self, place: usize) -> Option<&str>
        ensures { option_map (λ name. name.now) result
            ≡ option_map (λ (file : MadeFile). file.name) (slice_get self.now.files place) }
    {
        match self.entries.get(place) {
            Some(entry) => Some(entry.name.as_str()),
            None => None,
        }
    }

    /// Returns the stage of the file at a place, from 0, if there is one.
    pub fn stage(&self, place: usize) -> Option<FileStage>
        ensures { result
            ≡ option_map (λ (file : MadeFile). file.stage) (slice_get self.now.files place) }
    {
        match self.entries.get(place) {
            Some(entry) => Some(entry.stage),
            None => None,
        }
    }

    /// Notes that the file at a place was to be removed, and whether it is gone.
    pub fn end(&mut self, place: usize, is_gone: bool)
        ensures files { (before later : List MadeFile) (file : MadeFile) →
            self.old.files ≡ before ++ (file ∷ later) → length before ≡ place →
            MatchBool is_gone
            (self.new.files ≡ before ++ (removed file ∷ later))
            (self.new.files ≡ before ++ (not_removed file ∷ later)) }
        ensures none { length self.old.files ≤ place → self.new.files ≡ self.old.files }
        ensures failed { self.new.failed ≡ self.old.failed }
        ensures begun_count { self.new.begun_count ≡ self.old.begun_count }
    {
        let stage = stage_after(is_gone);
        if place < self.entries.len() {
            self.entries[place].stage = stage;
        }
    }

    /// Forgets all files, but not how many calls failed.
    pub fn forget(&mut self)
        ensures files { self.new.files ≡ [] }
        ensures failed { self.new.failed ≡ self.old.failed }
        ensures begun_count { self.new.begun_count ≡ self.old.begun_count }
    {
        self.entries.clear();
    }
}
