//! Draws a night as one SVG for a person, all over one time axis from the first data record to the
//! last: what is recorded, stages of sleep, events, and each signal.
//!
//! - [`draw`] draws; [`Title`] has the codes; [`Night`] has runs, annotations and [`Signal`]s.
//! - [`Bands`] gathers samples; [`Extent`] is a time; [`Note`] is an annotation.
//!
//! The axis has a thousand columns. A picture has the codes of its title and the instants of its
//! runs by proof; gaps, which samples a column has, and their range are proved where they are
//! found.
#![tactic(auto)]

mod axis;
mod bands;
mod curve;
mod drawing;
mod escape;
mod extent;
mod gaps;
mod heading;
mod lanes;
mod sheet;
mod stages;
mod times;

pub use bands::Bands;
pub use drawing::draw;
pub use extent::{Extent, Night, Note, Signal};
pub use heading::Title;
