//! Laws of what comes of files: the contract of each function is laws, and its body does nothing.

ghost use Rattle.std.specs.Prelude.{ℕ, List};
ghost use Rattle.edf_cli.specs.Text.{IsInstantFormat};
ghost use Rattle.edf_page.specs.Laws.{ListWritesRuns, OneNightComes, StoppedAsRefused};
ghost use Rattle.edf_page.specs.Laws.{TakeWritesLines};

/// Of the same files the same comes, but for pictures: the same lines, recordings and runs.
pub fn one_night_comes()
    ensures { OneNightComes }
{}

/// What comes of files is what the programs write of them, each of the whole list; so is the line
/// where nothing comes.
pub fn the_programs_write_this()
    ensures take { TakeWritesLines }
    ensures runs { ListWritesRuns }
    ensures stopped { StoppedAsRefused }
{}

/// Instants have a spelling, as lines have them.
pub fn instants_have_a_spelling()
    ensures { (spell : ℕ → List ℕ) × IsInstantFormat spell }
{}
