//! The names of which there is something.

ghost use Rattle.std.specs.Prelude.{◌≡◌, ◌||◌, ◌&&◌, ℕ, List, IfOk, MatchResult, bytes_eq, not};
ghost use Rattle.std.specs.Prelude.{string_bytes};
ghost use Rattle.edf_page.specs.InsideFolder.{is_among};

use std::alloc::{AllocError, Global};

/// Names.
#[derive(Drop)]
pub(crate) struct Names {
    pub(crate) all: Vec<String>,
}

impl Names {
    /// One name.
    pub(crate) fn of(alloc: Global, name: &str) -> Result<Names, AllocError>
        ensures { IfOk result (λ names. (other : List ℕ) →
            is_among names.all.items other ≡ bytes_eq name.now other) }
    {
        let mut all = Vec::new(alloc);
        all.push(String::from_str(alloc, name)?)?;
        Ok(Names { all })
    }

    /// Whether this is one of them.
    pub(crate) fn have(&self, name: &str) -> bool
        ensures { result ≡ is_among self.now.all.items name.now }
    {
        self.all.iter().any(|other| other.as_str() == name)
    }

    /// Adds one.
    pub(crate) fn add(&mut self, name: String) -> Result<(), AllocError>
        ensures { MatchResult result
            (λ _. (other : List ℕ) → is_among self.new.all.items other
            ≡ (is_among self.old.all.items other || bytes_eq (string_bytes name) other))
            (λ _. self.new.all.items ≡ self.old.all.items) }
    {
        self.all.push(name)?;
        Ok(())
    }

    /// Removes one, however often it is there.
    pub(crate) fn remove(&mut self, name: &str)
        ensures { (other : List ℕ) → is_among self.new.all.items other
            ≡ (not (bytes_eq other name.now) && is_among self.old.all.items other) }
    {
        self.all.retain(|other| other.as_str() != name);
    }
}
