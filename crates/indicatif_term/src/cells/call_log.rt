//! The calls of a terminal in memory as text.
ghost use Rattle.std.specs.Prelude.{◌≡◌, ◌+◌, ◌<◌, ◌++◌, ◌∷◌, IfOk, IfErr, OnOk, [], codes, chars, flat_map, encode_utf8_all, string_bytes};
ghost use Rattle.indicatif_term.specs.Cells.{move_text, written_text, quoted_char, code_text, hex_digit};

use indicatif_text::columns::Refusal;
use std::alloc::Global;

/// A line of the log for a move by `n`. Refused: `Memory`.
pub(crate) fn move_line(alloc: Global, name: &str, n: usize) -> Result<String, Refusal>
    ensures line { IfOk result (λ t. string_bytes t ≡ move_text name.now n) }
    ensures refused { IfErr result (λ e. e ≡ Refusal.Memory) }
{
    let line = format!(in alloc; "{name}({n})\n")?;
    Ok(line)
}

/// A line of the log for a written text. Refused: `Memory`.
pub(crate) fn text_line(alloc: Global, text: &str) -> Result<String, Refusal>
    ensures line { IfOk result (λ t. string_bytes t ≡ written_text text.now) }
    ensures refused { IfErr result (λ e. e ≡ Refusal.Memory) }
{
    let mut line = String::from_str(alloc, "Str(\"")?;
    quote(text, &mut line)?;
    line.push_str("\")\n")?;
    Ok(line)
}

/// A line of the log for a written text, and one for the line's end. Refused: `Memory`.
pub(crate) fn ended_line(alloc: Global, text: &str) -> Result<String, Refusal>
    ensures line { IfOk result (λ t. string_bytes t ≡ written_text text.now ++ codes "NewLine\n") }
    ensures refused { IfErr result (λ e. e ≡ Refusal.Memory) }
{
    let mut line = text_line(alloc, text)?;
    line.push_str("NewLine\n")?;
    Ok(line)
}

/// A copy of a line of the log. Refused: `Memory`.
pub(crate) fn own_line(alloc: Global, line: &str) -> Result<String, Refusal>
    ensures line { IfOk result (λ t. string_bytes t ≡ line.now) }
    ensures refused { IfErr result (λ e. e ≡ Refusal.Memory) }
{
    let line = String::from_str(alloc, line)?;
    Ok(line)
}

/// Appends a text to `out` as it is written between quotation marks. Refused: `Memory`.
fn quote(text: &str, out: &mut String) -> Result<(), Refusal>
    ensures quoted { OnOk result (string_bytes out.new
        ≡ string_bytes out.old ++ encode_utf8_all (flat_map quoted_char (chars text.now))) }
    ensures refused { IfErr result (λ e. e ≡ Refusal.Memory) }
{
    let mut rest = text.chars();
    while let Some(c) = rest.next() {
        quote_character(c, out)?;
    }
    Ok(())
}

/// Appends a character to `out` as it is written between quotation marks. Refused: `Memory`.
fn quote_character(c: char, out: &mut String) -> Result<(), Refusal>
    ensures quoted { OnOk result (string_bytes out.new ≡ string_bytes out.old ++ encode_utf8_all (quoted_char c)) }
    ensures refused { IfErr result (λ e. e ≡ Refusal.Memory) }
{
    match c {
        '"' | '\\' => push_escaped(c, out),
        '\n' => push_escaped('n', out),
        '\r' => push_escaped('r', out),
        '\t' => push_escaped('t', out),
        '\0' => push_escaped('0', out),
        '\u{1}'..='\u{1F}' | '\u{7F}' => escape_code(c as u32, out),
        _ => {
            out.push(c)?;
            Ok(())
        }
    }
}

/// Appends a backslash and a character to `out`. Refused: `Memory`.
fn push_escaped(c: char, out: &mut String) -> Result<(), Refusal>
    ensures escaped { OnOk result (string_bytes out.new ≡ string_bytes out.old ++ encode_utf8_all (0x5C ∷ c ∷ [])) }
    ensures refused { IfErr result (λ e. e ≡ Refusal.Memory) }
{
    out.push('\\')?;
    out.push(c)?;
    Ok(())
}

/// Appends a code below 128 to `out` in hexadecimal digits. Refused: `Memory`.
fn escape_code(code: u32, out: &mut String) -> Result<(), Refusal>
    requires { code < 128 }
    ensures escaped { OnOk result (string_bytes out.new ≡ string_bytes out.old ++ encode_utf8_all (code_text code)) }
    ensures refused { IfErr result (λ e. e ≡ Refusal.Memory) }
{
    push_escaped('u', out)?;
    out.push('{')?;
    if code >= 16 {
        out.push(hex_digit(code / 16))?;
    }
    out.push(hex_digit(code % 16))?;
    out.push('}')?;
    Ok(())
}

/// The hexadecimal digit of an escaped character's code.
fn hex_digit(value: u32) -> char
    requires { value < 16 }
    ensures { result ≡ hex_digit value }
{
    if value < 10 {
        char::from(48 + value as u8)
    } else {
        char::from(87 + value as u8)
    }
}
