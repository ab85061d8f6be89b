//! Makers of new files.

ghost use Rattle.std.specs.Prelude.{◌≡◌, ◌≤◌, ◌++◌, ◌∷◌, [], ℕ, Bool, true, false, List, Some};
ghost use Rattle.std.specs.Prelude.{IfOk, IfSome, MatchResult, length};
ghost use Rattle.std.specs.Bool.{MatchBool};
ghost use Rattle.edf_fragment.specs.Failures.{saturating_increment};
ghost use Rattle.edf_cli.specs.Made.{MadeFile, begun, half, removed, not_removed};
ghost use Rattle.edf_cli.specs.Made.{IsEnded, WritesNone, failed_with};
ghost use Rattle.edf_cli.specs.There.{There, IsVacant, MayBeThere, IsSame, IsNamed, IsTakenAway};

use edf_fragment::Output;
use std::alloc::Global;
use std::io;

/// The stage of a file that was begun.
#[derive(Clone, Copy, Debug, PartialEq, Eq, Drop)]
pub enum FileStage {
    /// It is being written, and does not have its name.
    Begun,
    /// It was abandoned, half written.
    Abandoned,
    /// It is there under its name with all that was written.
    Finished,
    /// It was removed again.
    Removed,
    /// It was to be removed, and could not be.
    NotRemoved,
}

/// A file that was written did not get its name.
#[derive(Clone, Copy, Debug, PartialEq, Eq, Drop)]
pub enum Unfinished {
    /// Something got that name in between, and is unchanged.
    IsThere,
    /// It could not be made whole or named.
    Failed,
}

/// Makes new files, one at a time: a writer is given back before the next file is begun.
///
/// What was there is never touched: a file is begun only where nothing has its name, and only files
/// that were begun here are removed. A file is written under another name. It gets its own, if
/// nothing has that, once it is whole and on the disk. So a file that has its name is whole.
///
/// Contracts speak of the files that were begun, in turn, and, where known, of their bytes and of
/// what has each name. The bytes of files on a disk are not known.
pub trait NewFiles {
    type Writer: Output + Drop;

    // It is true if the bytes of the files that are made here are known.
    ghost known: { Self → Bool };

    // The entry of each name, where that is known. A file has its name once it is finished.
    ghost there: { Self → There };

    // The files that were begun here, in turn, without those that were forgotten.
    ghost made: { Self → List MadeFile };

    // The number of files that were begun here, with those that were forgotten.
    ghost begun_count: { Self → ℕ };

    // The files that could not be begun or finished, and the failed writes of abandoned, counted.
    ghost failed: { Self → ℕ };

    /// Is true if something has that name. If that can't be known here, `create` or `finish` learns
    /// it.
    fn is_there(&mut self, name: &str) -> bool
        ensures answer { MatchBool result
            (MayBeThere (there self.old) name.now)
            (IsVacant (there self.old) name.now) }
        ensures there { IsSame (there self.old) (there self.new) }
        ensures made { made self.new ≡ made self.old }
        ensures begun_count { begun_count self.new ≡ begun_count self.old }
        ensures failed { failed self.new ≡ failed self.old }
        ensures known { known self.new ≡ known self.old };

    /// Begins a new, empty file of that name, and returns its writer.
    ///
    /// # Errors
    /// No file of that name could be made, or something had the name and is unchanged.
    fn create(&mut self, alloc: Global, name: &str) -> io::Result<Self::Writer>
        ensures made { MatchResult result
            (λ _. made self.new ≡ made self.old ++ (begun name.now ∷ []))
            (λ _. made self.new ≡ made self.old) }
        ensures begun_count { MatchResult result
            (λ _. begun_count self.new ≡ saturating_increment (begun_count self.old))
            (λ _. begun_count self.new ≡ begun_count self.old) }
        ensures failed { MatchResult result
            (λ _. failed self.new ≡ failed self.old)
            (λ _. failed self.new ≡ saturating_increment (failed self.old)) }
        ensures empty { IfOk result (λ writer. known self.old ≡ true →
            Self.Writer.contents writer ≡ Some []) }
        ensures unfailed { IfOk result (λ writer. Self.Writer.failures writer ≡ 0) }
        ensures vacant { IfOk result (λ _. IsVacant (there self.old) name.now) }
        ensures there { IsSame (there self.old) (there self.new) }
        ensures known { known self.new ≡ known self.old };

    /// Finishes the file that was begun last with all that this writer of it wrote, gives it its
    /// name, and returns how many bytes it has.
    ///
    /// # Errors
    /// It did not get its name, and was removed if that could be done. If none is being written, as
    /// after `forget`, nothing gets a name.
    fn finish(&mut self, writer: Self::Writer) -> Result<u64, Unfinished>
        ensures made { (files : List MadeFile) (name : List ℕ) →
            made self.old ≡ files ++ (begun name ∷ []) →
            IsEnded files name (Self.Writer.contents writer) (made self.new) result }
        ensures none { WritesNone (made self.old) → IfOk result (λ _. ⊥)
            × (made self.new ≡ made self.old) × IsSame (there self.old) (there self.new) }
        ensures begun_count { begun_count self.new ≡ begun_count self.old }
        ensures failed { MatchResult result
            (λ _. failed self.new ≡ failed self.old)
            (λ _. failed self.new ≡ saturating_increment (failed self.old)) }
        ensures whole { IfOk result (λ bytes. (Self.Writer.failures writer ≡ 0)
            × IfSome (Self.Writer.contents writer) (λ held. length held ≡ bytes)) }
        ensures there { (files : List MadeFile) (name : List ℕ) →
            made self.old ≡ files ++ (begun name ∷ []) →
            IsNamed (there self.old) (there self.new) name (Self.Writer.contents writer) result }
        ensures known { known self.new ≡ known self.old };

    /// Takes back the writer of the file that was begun last, which stays half written.
    fn abandon(&mut self, writer: Self::Writer)
        ensures made { (files : List MadeFile) (name : List ℕ) →
            made self.old ≡ files ++ (begun name ∷ []) →
            made self.new ≡ files ++ (half name (Self.Writer.contents writer) ∷ []) }
        ensures none { WritesNone (made self.old) → made self.new ≡ made self.old }
        ensures begun_count { begun_count self.new ≡ begun_count self.old }
        ensures failed { failed self.new
            ≡ failed_with (failed self.old) (Self.Writer.failures writer) }
        ensures there { IsSame (there self.old) (there self.new) }
        ensures known { known self.new ≡ known self.old };

    /// Returns how many files `made` has, with those that were removed again.
    fn count(&self) -> usize
        ensures { result ≡ length (made self.now) };

    /// Removes the file at this place, from 0, of those that were begun here. Is true if there was
    /// one and it is gone.
    fn remove(&mut self, place: usize) -> bool
        ensures made { (before later : List MadeFile) (file : MadeFile) →
            made self.old ≡ before ++ (file ∷ later) → length before ≡ place →
            MatchBool result
            (made self.new ≡ before ++ (removed file ∷ later))
            (made self.new ≡ before ++ (not_removed file ∷ later)) }
        ensures none { length (made self.old) ≤ place → (result ≡ false)
            × (made self.new ≡ made self.old) × IsSame (there self.old) (there self.new) }
        ensures begun_count { begun_count self.new ≡ begun_count self.old }
        ensures failed { failed self.new ≡ failed self.old }
        ensures there { (before later : List MadeFile) (file : MadeFile) →
            made self.old ≡ before ++ (file ∷ later) → length before ≡ place →
            IsTakenAway (there self.old) (there self.new) file result }
        ensures known { known self.new ≡ known self.old };

    /// Forgets the files that were begun here. They are unchanged, and can't be removed here now.
    fn forget(&mut self)
        ensures made { made self.new ≡ [] }
        ensures begun_count { begun_count self.new ≡ begun_count self.old }
        ensures failed { failed self.new ≡ failed self.old }
        ensures there { IsSame (there self.old) (there self.new) }
        ensures known { known self.new ≡ known self.old };
}
