//! The plan of a canonical file.

use crate::measure::Measure;

/// A canonical file that was planned: its header, and the measure of its data records.
#[derive(Clone, Copy)]
pub struct FilePlan<'p> {
    pub header: &'p [u8],
    pub measure: Measure,
}
