use crate::fault::FragmentFault;

/// The cause of a line that was written, for a writer that explains it to a person.
#[derive(Clone, Copy, Debug, PartialEq, Eq, Drop)]
pub enum Remark {
    /// A file is refused for its form, or could not be read.
    Fault(FragmentFault),
    /// Something is refused for another reason, which has this number.
    Refused(u8),
    /// The name that a new file was to get is taken.
    Taken,
    /// Annotations lie outside of the run whose file was written.
    Outside,
}
