//! Tests of the product beside the stored run `edfstore_stored_run`, which has the lines, exports
//! and refusals of small named files, the words of a command, and files of other tables: answers by
//! value, and hostile use. What was held stays, and each refusal is the exact one.
//!
//! The tests are in a crate of their own, so that the crates that they test are proved once. Each
//! expected file is spelled by the builders of files, and by no program.
//!
//! The store:
//!
//! - `rows`: rows of data records, as they are written and read.
//! - `adding`: data records added, and looked for with room for more.
//! - `kept`: data records that are added, given up and read again, in memory and on a disk in
//!   memory.
//!
//! Answers:
//!
//! - `answers`: lists of no files, receipts, recordings that are not held, refused stores.
//! - `printed`: what the program prints, each text once.
//!
//! Hostile use, over stores in memory:
//!
//! - `held`: stores, what they answer and what they hold.
//! - `memory`: memory that runs out, under each budget until one suffices.
//! - `readers`, `writers`, `lines`: readers that fail, and files and lines that cannot be written.
//! - `large`, `flushes`: a recording whose file is longer than the buffer of an export, and the
//!   writes of that file.
//! - `cut_files`: files that are cut at every byte, texts that are too long.
//!
//! Runs of the program over the files of a store, one after another, on disks in memory: some end,
//! some are refused, some stop at one of their calls or let their files go, and the machine may
//! then lose what was not synced. Whichever call is the last one to reach the log or the database
//! file, the next run finds what a front of the submissions leaves, and takes all of them again.
//!
//! - `session`: a run of a command, over files that are named and a disk that may stop.
//! - `seconds`: a night of twenty files, and its canonical file after the first few.
//! - `nights`: a night in twenty runs.
//! - `stops`: a run that stops at each of its calls in turn.
#![tactic(auto)]

#[cfg(test)]
mod adding;
#[cfg(test)]
mod answers;
#[cfg(test)]
mod cut_files;
#[cfg(test)]
mod flushes;
#[cfg(test)]
mod held;
#[cfg(test)]
mod kept;
#[cfg(test)]
mod large;
#[cfg(test)]
mod lines;
#[cfg(test)]
mod memory;
#[cfg(test)]
mod nights;
#[cfg(test)]
mod printed;
#[cfg(test)]
mod readers;
#[cfg(test)]
mod rows;
#[cfg(test)]
mod seconds;
#[cfg(test)]
mod session;
#[cfg(test)]
mod stops;
#[cfg(test)]
mod writers;
