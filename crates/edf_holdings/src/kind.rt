/// Two data records of one recording clash in one of two ways.
#[derive(Clone, Copy, Debug, PartialEq, Eq)]
pub enum Clash {
    /// They start at different instants, less than a data record's duration apart.
    Overlap,
    /// They start at the same instant, and their samples or annotations differ.
    Differs,
}
