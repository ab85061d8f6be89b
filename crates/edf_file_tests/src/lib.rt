//! Tests below the store: what is read, runs, pictures and mended files, where no stored run shows
//! it.
//!
//! They are in a crate of their own, so that the crates that they test are proved once. A value and
//! its answer are a line of `edf_vectors`; what `edfruns` and `edfmend` write of small named files
//! is a story of `edfstore_stored_run`. Here are reads and writes that fail, memory that runs out,
//! pictures, calls that no program makes, and the little that would be no story.
//!
//! - `failing`: reads that fail after any number of bytes; after a refusal a reader answers only
//!   that it failed.
//! - `stops`: how many reads there are where the input ends or fails once and then goes on; buffers
//!   that are filled, and writes that fail.
//! - `files`: small files of runs, and some to mend.
//! - `shelf`, `folder`: what gives files in place of a disk, and what takes them.
//! - `stage`: commands of `edfruns` and `edfmend`, run over both.
//! - `faults`: readers and writers that fail under them, and files that change.
//! - `memory`: memory that runs out, under each budget until one suffices.
//! - `words`: the version, standard input, that pictures are SVG, and the text of a fault.
//! - `library`: functions of `edf_runs` and `edf_mend`, each called once.
//! - `picture`: what pictures say.
#![tactic(auto)]

#[cfg(test)]
mod failing;
#[cfg(test)]
mod faults;
#[cfg(test)]
mod files;
#[cfg(test)]
mod folder;
#[cfg(test)]
mod library;
#[cfg(test)]
mod memory;
#[cfg(test)]
mod picture;
#[cfg(test)]
mod shelf;
#[cfg(test)]
mod stage;
#[cfg(test)]
mod stops;
#[cfg(test)]
mod words;
