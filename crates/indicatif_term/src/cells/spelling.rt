//! The bytes of an incomplete character.
ghost use Rattle.std.specs.Prelude.{◌≡◌, ◌<◌, [], if◌then◌else◌, length, nat_lt, IsTrue, Some, None};
ghost use Rattle.std.specs.Str.{is_utf8};
ghost use Rattle.indicatif_term.specs.Terminal.{is_leading, spelling_with, first_char};

use std::marker::Model;
use std::str;

/// At most four bytes, the most that a character has.
#[derive(Drop)]
pub(crate) struct Spelling {
    bytes: [u8; 4],
    len: usize,
}

impl Model for Spelling {
    ghost use Rattle.std.specs.Prelude.{List, ℕ, ◌≤◌, take};

    ghost Value = { List ℕ };

    ghost view = { λ s. take s.len s.bytes };

    ghost invariant = { λ s. s.len ≤ 4 };
}

impl Spelling {
    /// The spelling of no bytes.
    pub(crate) fn empty() -> Spelling
        ensures { result ≡ [] }
    {
        Spelling {
            bytes: [0; 4],
            len: 0,
        }
    }

    /// Whether the spelling has no bytes.
    #[inline]
    pub(crate) fn is_empty(&self) -> bool
        ensures { IsTrue result → self.now ≡ [] }
    {
        self.len == 0
    }

    /// The spelling's bytes and one more; only that one if it can begin a character.
    pub(crate) fn with(&self, byte: u8) -> Spelling
        requires { length self.now < 4 }
        ensures { result ≡ spelling_with self.now byte }
    {
        let mut bytes = self.bytes;
        let len = if is_leading(byte) { 0 } else { self.len };
        bytes[len] = byte;
        Spelling {
            bytes,
            len: len + 1,
        }
    }

    /// The character that the bytes spell.
    pub(crate) fn character(&self) -> Option<char>
        requires { 0 < length self.now }
        ensures { result ≡ (if is_utf8 self.now then Some (first_char self.now) else None) }
    {
        match str::from_utf8(&self.bytes[..self.len]) {
            Ok(text) => text.chars().next(),
            Err(_) => None,
        }
    }

    /// What is kept of bytes that are no character: nothing once they are four.
    pub(crate) fn left_over(self) -> Spelling
        ensures left_over { result ≡ (if nat_lt (length self) 4 then self else []) }
        ensures short { length result < 4 }
    {
        if self.len < 4 {
            self
        } else {
            Spelling::empty()
        }
    }
}

/// Whether a byte can begin the spelling of a character.
fn is_leading(byte: u8) -> bool
    ensures { result ≡ is_leading byte }
{
    byte < 0x80 || byte >= 0xC0
}
