//! A text that a terminal can't take for a command.
ghost use Rattle.std.specs.Prelude.{◌≡◌, IsTrue, IfOk, chars, string_bytes};
ghost use Rattle.indicatif_text.specs.Columns.{is_plain};
ghost use Rattle.meter_parts.specs.Plain.{plain_char, plain_text};

use std::alloc::{AllocError, Global};
use unicode_width::UnicodeWidthChar;

/// The character, or U+FFFD for one without a width: a control character, such as ESC, a tab or a line end.
fn plain_char(c: char) -> char
    ensures { result ≡ plain_char c }
{
    if c.width().is_some() { c } else { '\u{FFFD}' }
}

/// The text with U+FFFD for each control character, so that no escape sequence is left in it: for a text from outside that a bar shows,
/// such as a file's name. It has as many characters as the text.
///
/// ```
/// assert_eq!(plain_text(alloc, "a\u{1b}[2Jb")?.as_str(), "a\u{fffd}[2Jb");
/// ```
///
/// Refused: want of memory.
pub fn plain_text(alloc: Global, text: &str) -> Result<String, AllocError>
    ensures text { IfOk result (λ made. chars (string_bytes made) ≡ plain_text (chars text.now)) }
    ensures plain { IfOk result (λ made. IsTrue (is_plain (chars (string_bytes made)))) }
{
    text.chars().map(plain_char).collect(alloc)
}

/// The longest prefix of a plain text that takes at most `room` columns.
///
/// ```
/// assert_eq!(cut(alloc, "ab国", 3)?.as_str(), "ab");
/// ```
///
/// Refused: want of memory.
pub fn cut(alloc: Global, text: &str, room: usize) -> Result<String, AllocError> {
    let mut made = String::new(alloc);
    let mut left = room;
    for c in text.chars() {
        let wide = c.width().unwrap_or(0);
        if wide > left {
            break;
        }
        left -= wide;
        made.push(c)?;
    }
    Ok(made)
}
