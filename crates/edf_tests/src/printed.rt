//! What the program prints: each text stands here once.

use std::alloc::{AllocError, Global};

/// The answer to a file of one data record that is new.
pub(crate) const NEW: &str = "accepted new=1 known=0";

/// Why a file, an export or a store is refused.
pub(crate) const NO_MEMORY: &str = "refused E41 Memory";

pub(crate) const NO_STORE: &str = "refused E42 Store";

pub(crate) const FOREIGN: &str = "refused E45 Foreign";

/// The lines of files, or of what the program was at, each with its answer.
pub(crate) fn lines(alloc: Global, answers: &[(&str, &str)]) -> Result<String, AllocError> {
    let mut text = String::new(alloc);
    for (name, answer) in answers.iter().copied() {
        text.push_str(name)?;
        text.push(' ')?;
        text.push_str(answer)?;
        text.push('\n')?;
    }
    Ok(text)
}

/// What a `take` of P5 and Q prints where both are new.
pub(crate) const BOTH_NEW: &[u8] = b"p5.edf accepted new=1 known=0\nq.edf accepted new=1 known=0\n";

/// What an export is answered whose file can't be written.
pub(crate) const NO_EXPORT: &[u8] = b"export refused E43 Write\n";

/// P5 and Q in a list of recordings.
pub(crate) const LISTED: &[u8] =
    b"1 records=2 first=2002-03-02T23:59:50 patient=P7 investigation=N1\n";

/// What an export is answered where there is one recording.
pub(crate) const NO_PLACE_2: &[u8] = b"no recording at place 2\n";
