//! Laws of what lies in memory: the contract of each function is laws, and its body does nothing.

ghost use Rattle.std.specs.Prelude.{◌≡◌, ℕ, List};
ghost use Rattle.edf_page_exports.specs.Laid.{AreCut};

/// Bytes are cut by sizes in one way at most.
pub fn one_cut()
    ensures { (bytes sizes : List ℕ) (pieces others : List (List ℕ)) →
        AreCut bytes sizes pieces → AreCut bytes sizes others → pieces ≡ others }
{}
