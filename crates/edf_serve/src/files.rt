//! What opens the files that lines name.

ghost use Rattle.std.specs.Prelude.{◌≡◌, IfOk, IfSome, MatchResult};
ghost use Rattle.edf_serve.specs.Files.{Paths, opens};

use edf_fragment::Input;
use std::alloc::{AllocError, Global};

/// What opens the files that `take` names.
///
/// Contracts speak of the bytes that a path stands for, and of the paths that were opened, where
/// they are known: those of the system are not.
pub trait Sources {
    /// The readers.
    type Reader: Input + Drop;

    // What is known of paths.
    ghost paths: { Self → Paths };

    /// Whether a part of this name below the folder is a link.
    fn has_link(&self, folder: &str, name: &str) -> bool
        ensures { IfSome ((paths self.now).links folder.now name.now)
            (λ linked. result ≡ linked) };

    /// A reader of just the bytes that the path stands for. A path that stands for nothing, or for
    /// what is no regular file, gives a reader whose first read fails.
    ///
    /// # Errors
    /// Where memory ran out. The path is then not among those opened.
    fn open(&mut self, alloc: Global, path: &str) -> Result<Self::Reader, AllocError>
        ensures reader { IfOk result
            (λ r. Self.Reader.remaining r ≡ (paths self.old).bytes path.now) }
        ensures opened { MatchResult result
            (λ _. paths self.new ≡ opens (paths self.old) path.now)
            (λ _. paths self.new ≡ paths self.old) };
}
