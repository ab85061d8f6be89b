//! What a line asks for.

ghost use Rattle.std.specs.Prelude.{option_map};
ghost use Rattle.edf_serve.specs.Line.{IsRead, asked_by};

/// How many bytes a line may have, without its line feed.
pub(crate) const LONGEST_LINE: usize = 65_536;

/// What a line asks for.
#[derive(Clone, Copy, Debug, PartialEq, Eq, Drop)]
pub(crate) enum LineCommand<'l> {
    /// Submit the file of that name.
    Take {
        /// The name, which is not empty.
        name: &'l str,
    },
    /// List the recordings.
    List,
}

/// What a line asks for, which stands here without its line feed.
///
/// It is `take NAME` or `list`. NAME is the rest of the line, byte for byte, and is not empty.
/// `None` for every other line, and for one that is longer than [`LONGEST_LINE`] or is not UTF-8.
pub(crate) fn parse_line(line: &[u8]) -> Option<LineCommand<'_>>
    ensures { IsRead line.now (option_map asked_by result) }
{
    if line.len() > LONGEST_LINE {
        return None;
    }
    let Ok(text) = str::from_utf8(line) else {
        return None;
    };
    if text == "list" {
        return Some(LineCommand::List);
    }
    let name = text.strip_prefix("take ")?;
    if name.is_empty() {
        return None;
    }
    Some(LineCommand::Take { name })
}
