/// What went out of a run.
#[derive(Clone, Copy, Debug, PartialEq, Eq, Drop)]
pub struct Written {
    /// The length of its file in bytes.
    pub bytes: u64,
    /// How many annotations the file has. Time-keeping annotations are none of them.
    pub annotations: u64,
    /// How many of these have an onset outside of the run: before its first data record starts, or
    /// at or after the end of its last.
    pub outside: u64,
}
