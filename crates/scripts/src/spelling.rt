//! Numbers and escapes.
use crate::got::Bad;
use std::alloc::Global;
use std::fmt;
use std::str::FromStr;

/// A text as a number.
pub fn number<N: FromStr>(text: &str) -> Result<N, Bad>
where
    N::Err: Drop,
{
    text.parse::<N>().ok().ok_or(Bad::Step)
}

/// A number, or `-` for none.
pub fn optional(text: &str) -> Result<Option<u64>, Bad> {
    match text {
        "-" => Ok(None),
        _ => Ok(Some(number(text)?)),
    }
}

/// `yes` or `no`.
pub fn flag(text: &str) -> Result<bool, Bad> {
    match text {
        "yes" => Ok(true),
        "no" => Ok(false),
        _ => Err(Bad::Step),
    }
}

/// The text with its escapes replaced: `\n`, `\t`, `\r`, `\0`, `\e`, `\s` for a space, `\u{HEX}` for a character, `\xHH` for a byte, and
/// `\\`.
pub fn unescaped(alloc: Global, text: &str) -> Result<String, Bad> {
    let text = String::from_utf8(unescaped_bytes(alloc, text)?);
    text.ok().ok_or(Bad::Step)
}

/// The bytes of a text with its escapes replaced, which may not be UTF-8.
pub fn unescaped_bytes(alloc: Global, text: &str) -> Result<Vec<u8>, Bad> {
    let mut bytes = Vec::new(alloc);
    let mut rest = text;
    for _ in 0..text.len() {
        let (plain, escape) = match rest.split_once('\\') {
            Some(parts) => parts,
            None => break,
        };
        bytes.extend_from_slice(plain.as_bytes())?;
        rest = push_escape(escape, &mut bytes)?;
    }
    bytes.extend_from_slice(rest.as_bytes())?;
    Ok(bytes)
}

/// Appends what the escape at the front of a text stands for, behind its backslash; the text behind it.
fn push_escape<'a>(text: &'a str, bytes: &mut Vec<u8>) -> Result<&'a str, Bad> {
    let mut chars = text.chars();
    let byte = match chars.next() {
        Some('u') => return push_char(chars.as_str(), bytes),
        Some('x') => return push_byte(chars.as_str(), bytes),
        Some('n') => b'\n',
        Some('t') => b'\t',
        Some('r') => b'\r',
        Some('0') => 0,
        Some('e') => 0x1B,
        Some('s') => b' ',
        Some('\\') => b'\\',
        _ => return Err(Bad::Step),
    };
    bytes.push(byte)?;
    Ok(chars.as_str())
}

/// Appends the character with the number between braces.
fn push_char<'a>(text: &'a str, bytes: &mut Vec<u8>) -> Result<&'a str, Bad> {
    let (digits, behind) = text.split_once('}').ok_or(Bad::Step)?;
    let digits = digits.strip_prefix('{').ok_or(Bad::Step)?;
    let c = char::from_u32(hexadecimal(digits)?).ok_or(Bad::Step)?;
    let mut buffer = [0; 4];
    bytes.extend_from_slice(c.encode_utf8(&mut buffer).as_bytes())?;
    Ok(behind)
}

/// Appends the byte with the number of two digits.
fn push_byte<'a>(text: &'a str, bytes: &mut Vec<u8>) -> Result<&'a str, Bad> {
    let (digits, behind) = text.split_at_checked(2).ok_or(Bad::Step)?;
    let [byte, _, _, _] = hexadecimal(digits)?.to_le_bytes();
    bytes.push(byte)?;
    Ok(behind)
}

fn hexadecimal(digits: &str) -> Result<u32, Bad> {
    let mut number: u32 = 0;
    for c in digits.chars() {
        let digit = c.to_digit(16).ok_or(Bad::Step)?;
        number = number.saturating_mul(16).saturating_add(digit);
    }
    Ok(number)
}

/// A text with its escapes, as in rows. Format options are ignored.
#[derive(Clone, Copy, Drop)]
pub struct Escaped<'a>(pub &'a str);

impl fmt::Display for Escaped<'_> {
    fn fmt<W: fmt::Write>(&self, f: &mut fmt::Formatter<W>) -> fmt::Result {
        let mut written = Ok(());
        for c in self.0.chars() {
            if written.is_ok() {
                written = match escape_of(c) {
                    Some(escape) => f.write_str(escape),
                    None => f.write_char(c),
                };
            }
        }
        written
    }
}

/// The escape of a character that has one.
fn escape_of(c: char) -> Option<&'static str> {
    match c {
        '\n' => Some("\\n"),
        '\t' => Some("\\t"),
        '\r' => Some("\\r"),
        '\0' => Some("\\0"),
        '\u{1B}' => Some("\\e"),
        '\\' => Some("\\\\"),
        _ => None,
    }
}
