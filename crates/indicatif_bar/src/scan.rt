//! Bytes of ASCII found in a text.
ghost use Rattle.std.specs.Prelude.{◌≡◌, ◌∷◌, ◌<◌, ◌==◌, [], length, MatchOption};
ghost use Rattle.std.specs.List.{list_any, slice_split};
ghost use Rattle.std.specs.Str.{IsUtf8};

use memchr::memchr;

/// Whether a text has this byte.
pub(crate) fn has_byte(byte: u8, text: &str) -> bool
    ensures { result ≡ list_any (λ b. b == byte) text.now }
{
    memchr(byte, text.as_bytes()).is_some()
}

/// The text before the first such byte, and the text after it; `None` if there is none.
pub(crate) fn cut_at(byte: u8, text: &str) -> Option<(&str, &str)>
    requires ascii { byte < 128 }
    ensures parts { MatchOption result (slice_split (λ b. b == byte) text.now ≡ text.now ∷ [])
        (λ parts. slice_split (λ b. b == byte) text.now ≡ parts.0.now ∷ slice_split (λ b. b == byte) parts.1.now) }
    ensures utf8 { MatchOption result Unit (λ parts. IsUtf8 parts.1.now) }
    ensures shorter { MatchOption result Unit (λ parts. length parts.1.now < length text.now) }
{
    let Some(place) = memchr(byte, text.as_bytes()) else {
        return None;
    };
    let (before, _) = text.split_at(place);
    let (_, behind) = text.split_at(place + 1);
    Some((before, behind))
}
