//! Printable characters at the front of bytes, with the usual lengths: one byte (ASCII), and three.
ghost use Rattle.std.specs.Prelude.{◌<◌, ◌≤◌, ◌∷◌, [], IfSome};
ghost use Rattle.indicatif_term.specs.Inside.Scanners.{IsWholeChar};

/// A character and how many bytes spell it.
#[derive(Clone, Copy, Drop)]
pub(crate) struct WholeChar {
    pub(crate) character: char,
    pub(crate) len: usize,
}

/// The printable character at the front, if it has one byte (ASCII) or three; the scanner reads the others.
#[inline]
pub(crate) fn whole_char_of(bytes: &[u8]) -> Option<WholeChar>
    ensures { IfSome result (λ f. IsWholeChar bytes.now f.character f.len) }
{
    let first = *bytes.first()?;
    if first < 0x80 {
        return printable(first);
    }
    if first < 0xE1 || first > 0xEF || bytes.len() < 3 {
        return None;
    }
    of_three(first, (bytes[1], bytes[2]))
}

/// A whole printable character of ASCII.
#[inline]
fn printable(byte: u8) -> Option<WholeChar>
    requires { byte < 0x80 }
    ensures { IfSome result (λ f. IsWholeChar (byte ∷ []) f.character f.len) }
{
    if byte < 0x20 {
        return None;
    }
    Some(WholeChar {
        character: char::from(byte),
        len: 1,
    })
}

/// The whole character that these three bytes spell.
#[inline]
fn of_three(first: u8, rest: (u8, u8)) -> Option<WholeChar>
    requires first { (0xE1 ≤ first) × (first ≤ 0xEF) }
    ensures { IfSome result (λ f. IsWholeChar (first ∷ rest.0 ∷ rest.1 ∷ []) f.character f.len) }
{
    let (second, third) = rest;
    if second < 0x80 || second > 0xBF || third < 0x80 || third > 0xBF {
        return None;
    }
    let high = u32::from(first - 0xE0) * 4096;
    let code = high + u32::from(second - 0x80) * 64 + u32::from(third - 0x80);
    let character = char::from_u32(code)?;
    Some(WholeChar { character, len: 3 })
}
