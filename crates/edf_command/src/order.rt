//! The order that a command line parses to.

ghost use Rattle.std.specs.Prelude.{◌≡◌};
ghost use Rattle.edf_command.specs.Arguments.{place_of};

/// A command with its values, as a command line has them.
///
/// A store is the path of a SQLite file, or `:memory:` for an empty store in memory. A file is a
/// path, or `-` for standard input. None of them is opened here.
#[derive(Debug, Drop)]
pub enum Order {
    /// Submit each file to the store, in the order of the words.
    Take {
        store: String,
        /// The files, at least one.
        files: Vec<String>,
    },
    /// List the recordings of the store.
    List {
        store: String,
    },
    /// Write one recording of the store to standard output.
    Export {
        store: String,
        /// The recording's place in the list, from 1.
        place: u32,
    },
    /// Write one file's canonical form to standard output.
    Convert {
        file: String,
    },
}

/// A `u32` is also parsed after this sign.
const PLUS: u8 = b'+';

/// Parses a place: digits without a sign, from 1 to 4,294,967,295.
pub(crate) fn read_place(text: &str) -> Option<u32>
    ensures { result ≡ place_of text.now }
{
    let bytes = text.as_bytes();
    if !bytes.is_empty() && bytes[0] == PLUS {
        return None;
    }
    match text.parse::<u32>() {
        Ok(place) => { if place == 0 { None } else { Some(place) } }
        Err(_) => None,
    }
}
