ghost use Rattle.edf_header.specs.Format.{IsFormat};

/// A file has a format by its first bytes.
#[derive(Clone, Copy, Debug, PartialEq, Eq, Drop)]
pub enum Format {
    /// EDF begins with `0` and seven spaces.
    Edf,
    /// BDF, whose samples have 24 bits, begins with byte 255 and `BIOSEMI`.
    Bdf,
    /// ZIP begins with `PK`, byte 3 and byte 4.
    Zip,
    /// A database of SQLite begins with `SQLite format 3`.
    Sqlite,
    /// The file begins with none of these.
    Other,
}

/// Returns the format of a file that begins with these bytes.
pub fn format_of(bytes: &[u8; 256]) -> Format
    ensures { IsFormat bytes.now result }
{
    if &bytes[..8] == b"0       ".as_slice() {
        Format::Edf
    } else if &bytes[..8] == b"\xffBIOSEMI".as_slice() {
        Format::Bdf
    } else if &bytes[..4] == b"PK\x03\x04".as_slice() {
        Format::Zip
    } else if &bytes[..15] == b"SQLite format 3".as_slice() {
        Format::Sqlite
    } else {
        Format::Other
    }
}
