//! Readers by name.

ghost use Rattle.std.specs.Prelude.{◌≡◌, ◌++◌, ◌∷◌, [], ℕ, List, length, Option, IfOk, IfSome};
ghost use Rattle.std.specs.Prelude.{MatchResult};

use edf_fragment::Input;
use std::alloc::{AllocError, Global};

/// Opens a reader for each name. Contracts speak of the bytes that a name stands for, where these
/// are known: those of a file are not.
pub trait Inputs {
    type Reader: Input + Drop;

    // The bytes that a name stands for, where they are known.
    ghost bytes: { Self → List ℕ → Option (List ℕ) };

    // The names whose readers were opened, in turn.
    ghost opened: { Self → List (List ℕ) };

    /// Returns how many bytes the name stands for, where that is known before they are read. A file
    /// may have others by then.
    fn length(&self, _name: &str) -> Option<u64>
        ensures { IfSome result
            (λ n. IfSome (bytes self.now _name.now) (λ known. length known ≡ n)) }
    {
        None
    }

    /// Opens a reader of just the bytes that the name stands for. If that is nothing, its first
    /// read fails.
    ///
    /// # Errors
    /// Memory ran out. The name is then not among those opened.
    fn open(&mut self, alloc: Global, name: &str) -> Result<Self::Reader, AllocError>
        ensures reader { IfOk result (λ r. Self.Reader.remaining r ≡ bytes self.old name.now) }
        ensures same { (other : List ℕ) → bytes self.new other ≡ bytes self.old other }
        ensures names { MatchResult result
            (λ _. opened self.new ≡ opened self.old ++ (name.now ∷ []))
            (λ _. opened self.new ≡ opened self.old) };
}
