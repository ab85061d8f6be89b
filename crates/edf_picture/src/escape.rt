ghost use Rattle.std.specs.Prelude.{◌≡◌, ◌++◌, ◌<◌, All, IfOk, OnOk, chars, string_bytes};
ghost use Rattle.edf_picture.specs.Markup.{escaped_text, piece, IsPlain};
ghost use Rattle.edf_picture.specs.Picture.{piece_with, text_with};
ghost use Rattle.edf_picture.specs.Readable.{readable_text, glyph, IsReadable};

use std::alloc::{AllocError, Global};

/// A text as XML has it in an element or an attribute: bytes that are not printable ASCII are left
/// out. After the first `limit` bytes it is cut, and `...` marks the cut.
pub(crate) fn escaped(alloc: Global, text: &[u8], limit: usize) -> Result<String, AllocError>
    ensures text { IfOk result (λ t. string_bytes t ≡ escaped_text limit text.now) }
    ensures plain { IfOk result (λ t. All IsPlain (string_bytes t)) }
{
    let mut out = String::new(alloc);
    for byte in text.iter().take(limit) {
        push_piece(&mut out, *byte)?;
    }
    if text.len() > limit {
        out.push_str("...")?;
    }
    Ok(out)
}

fn push_piece(out: &mut String, byte: u8) -> Result<(), AllocError>
    ensures { OnOk result (string_bytes out.new ≡ string_bytes out.old ++ piece byte) }
{
    match byte {
        b'&' => out.push_str("&amp;"),
        b'<' => out.push_str("&lt;"),
        b'>' => out.push_str("&gt;"),
        b'"' => out.push_str("&quot;"),
        b'\'' => out.push_str("&#39;"),
        b' '..=b'~' => out.push(char::from(byte)),
        _ => Ok(()),
    }
}

/// Appends what stands for a byte: `to` for `from`, and for any other what XML has.
fn push_piece_with(out: &mut String, byte: u8, from: u8, to: u8) -> Result<(), AllocError>
    requires { to < 128 }
    ensures { OnOk result
        (string_bytes out.new ≡ string_bytes out.old ++ piece_with from to byte) }
{
    if byte == from {
        out.push(char::from(to))
    } else {
        push_piece(out, byte)
    }
}

/// A text in an element, with `to` in the place of each `from`.
pub(crate) fn text_with(alloc: Global, text: &[u8], from: u8, to: u8) -> Result<String, AllocError>
    requires { to < 128 }
    ensures { IfOk result (λ t. string_bytes t ≡ text_with from to text.now) }
{
    let mut out = String::new(alloc);
    for byte in text {
        push_piece_with(&mut out, *byte, from, to)?;
    }
    Ok(out)
}

/// The same with characters beyond ASCII, but for control characters, and U+FFFE and U+FFFF, which
/// XML refuses; a tab and what ends a line become a space. `limit` counts characters.
pub(crate) fn readable(alloc: Global, text: &str, limit: usize) -> Result<String, AllocError>
    ensures text { IfOk result (λ t. string_bytes t ≡ readable_text limit (chars text.now)) }
    ensures plain { IfOk result (λ t. All IsReadable (string_bytes t)) }
{
    let mut out = String::new(alloc);
    for character in text.chars().take(limit) {
        push_glyph(&mut out, character)?;
    }
    if text.chars().count() > limit {
        out.push_str("...")?;
    }
    Ok(out)
}

fn push_glyph(out: &mut String, character: char) -> Result<(), AllocError>
    ensures { OnOk result (string_bytes out.new ≡ string_bytes out.old ++ glyph character) }
{
    match character {
        '\t' | '\n' | '\r' => out.push(' '),
        '\0'..='~' => push_piece(out, character as u8),
        '\u{fffe}' | '\u{ffff}' => Ok(()),
        '\u{a0}'.. => out.push(character),
        _ => Ok(()),
    }
}
