//! What a page in a browser gives of files: their bytes, and memory, are all that it stands on. No
//! file is opened and none is made; nothing is kept from one call to the next.
//!
//! - [`give_night`]: files are taken in turn into an empty store, and this is what comes of them:
//!   the line of `edfstore take` for each, the lines of `edfstore list`, and of each recording its
//!   EDF+D file, the lines of `edfruns list` and its picture ([`GivenNight`], [`Recording`]).
//! - [`run_edfruns`], [`run_edfmend`]: what these programs do with one file where this is asked
//!   for: what they write, and the files that they make ([`Ran`], [`NamedFile`]).
//! - [`run_compare`]: what `edfruns compare` says of two files.
//! - [`GivenFile`]: a file, by its name and its bytes.
//! - [`Stopped`]: why nothing is given.
//! - [`laws`]: what comes of files is one thing, but for pictures, and is what the programs say.
#![tactic(auto)]

mod begun;
mod folder;
mod given;
mod holding;
pub mod laws;
mod names;
mod night;
mod programs;
mod running;
mod stopped;
mod text;

pub use begun::NamedFile;
pub use given::GivenFile;
pub use night::{GivenNight, Recording, give_night};
pub use programs::{Ran, run_compare, run_edfmend, run_edfruns};
pub use stopped::Stopped;
