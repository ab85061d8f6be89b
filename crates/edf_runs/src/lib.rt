//! The runs of a recording, its longest stretches of data records without a gap, and the EDF+C file
//! of each, which readers open that refuse EDF+D.
//!
//! - [`read_outline`], [`read_outline_of`]: an [`Outline`], all of a file but its samples;
//!   [`by_onset`]: with each annotation where its onset is; [`count_outside`]: of how many no data
//!   record has it.
//! - [`list_outline`]: a [`Listing`] of its [`Run`]s; [`add_record`]: how they grow, for a caller
//!   that reads itself.
//! - [`reopen_listed`], [`write_run`]: a second reading, over one run after another whose files are
//!   written; what was [`Written`], with the annotations that lie outside of the run;
//!   [`WriteFault`]: why it was not.
//! - [`write_canonical`]: the canonical file of an outline, with the samples of a second reading.
//! - [`plan_cut`], [`write_cut`]: the canonical file of those of its data records that last in a
//!   time, with the samples of a second reading; of the whole time it is that of all;
//!   [`cut_laws`]: laws of both.
//! - [`fill`], [`write_filled`]: one EDF+C file of the whole recording, flat where it has a gap;
//!   [`FillLimits`], [`FillCounts`]: what it keeps and what it counts; [`FillFault`]: why there is
//!   none; [`filled_laws`]: its laws.
//! - [`compare_files`]: what one file has of another of the same recording; [`compared_laws`].
//! - [`laws`]: each list of data records has its runs; a run's file is read again; nothing is lost
//!   where a file is split into its runs. These functions do nothing: their contracts are laws.
#![tactic(auto)]

mod adding;
mod compared;
pub mod compared_laws;
mod comparing;
mod counting;
mod crowded_fault;
mod cut;
pub mod cut_laws;
mod cut_source;
mod cutting;
mod division;
mod fault;
mod fill_fault;
mod filled;
mod filled_identity;
pub mod filled_laws;
mod filled_places;
mod filled_source;
mod filling;
pub mod laws;
mod moving;
mod onsets;
mod ordering;
mod outline;
mod outlining;
mod outside;
mod parted;
mod places;
mod reading;
mod rereading;
mod run;
mod run_list;
mod sides;
mod spots;
mod stretch;
mod tally;
mod writing;
mod writing_filled;
mod written;

pub use adding::add_record;
pub use compared::{CompareFault, Comparison, compare_files};
pub use crowded_fault::CrowdedFault;
pub use cut::Cut;
pub use cutting::{plan_cut, write_canonical, write_cut};
pub use fault::WriteFault;
pub use fill_fault::FillFault;
pub use filled::{FillCounts, FillLimits, Filled};
pub use filling::fill;
pub use onsets::by_onset;
pub use outline::Outline;
pub use outlining::{read_outline, read_outline_of};
pub use outside::count_outside;
pub use reading::reopen_listed;
pub use run::Run;
pub use run_list::{Listing, list_outline};
pub use stretch::{Stretch, Word};
pub use writing::write_run;
pub use writing_filled::write_filled;
pub use written::Written;
