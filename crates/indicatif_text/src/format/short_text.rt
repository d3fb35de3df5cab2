//! A short text on the stack.
ghost use Rattle.std.specs.Prelude.{◌≡◌, ℕ, ◌+◌, ◌<◌, ◌≤◌, List, [], ◌∷◌, ◌++◌, length, drop, IsAscii};
ghost use Rattle.std.specs.Fmt.{decimal};
ghost use Rattle.indicatif_text.specs.Format.{last_digits, human_count};

use itoa::write_digits;
use std::marker::Model;
use std::str::from_utf8_unchecked;

/// The most bytes of a text.
const ROOM: usize = 64;

/// ASCII bytes as a text.
#[inline(always)]
pub(crate) fn ascii_text(bytes: &[u8]) -> &str
    requires { IsAscii bytes.now }
    ensures { result.now ≡ bytes.now }
{
    unsafe { from_utf8_unchecked(bytes) }
}

/// A text of at most 64 ASCII bytes, written from its end to its front.
#[derive(Drop)]
pub(crate) struct ShortText {
    bytes: [u8; ROOM],
    start: usize,
}

/// Contracts see a short text as its bytes.
impl Model for ShortText {
    ghost Value = { List ℕ };

    ghost view = { λ text. drop text.start text.bytes };

    ghost invariant = { λ text. (text.start ≤ 64) × IsAscii (drop text.start text.bytes) };
}

impl ShortText {
    /// The empty short text.
    #[inline(always)]
    pub(crate) fn new() -> ShortText
        ensures { result ≡ [] }
    {
        ShortText {
            bytes: [0; ROOM],
            start: ROOM,
        }
    }

    /// The short text as it stands.
    #[inline(always)]
    pub(crate) fn as_str(&self) -> &str
        ensures { result.now ≡ self.now }
    {
        ascii_text(&self.bytes[self.start..])
    }

    /// Puts an ASCII byte in front.
    #[inline(always)]
    pub(crate) fn prepend(&mut self, byte: u8)
        requires room { length self.old < 64 }
        requires ascii { byte < 128 }
        ensures { self.new ≡ byte ∷ self.old }
    {
        self.start -= 1;
        self.bytes[self.start] = byte;
    }

    /// Puts an ASCII text in front.
    #[inline(always)]
    pub(crate) fn prepend_str(&mut self, text: &str)
        requires room { length text.now + length self.old ≤ 64 }
        requires ascii { IsAscii text.now }
        ensures { self.new ≡ text.now ++ self.old }
    {
        self.prepend_bytes(text.as_bytes());
    }

    /// Puts ASCII bytes in front.
    #[inline(always)]
    pub(crate) fn prepend_bytes(&mut self, text: &[u8])
        requires room { length text.now + length self.old ≤ 64 }
        requires ascii { IsAscii text.now }
        ensures { self.new ≡ text.now ++ self.old }
    {
        let end = self.start;
        self.start -= text.len();
        let bytes = &mut self.bytes[..];
        bytes[self.start..end].copy_from_slice(text);
    }

    /// Puts the decimal numeral of a number in front.
    #[inline(always)]
    pub(crate) fn prepend_number(&mut self, n: u64)
        requires { length (decimal n) + length self.old ≤ 64 }
        ensures { self.new ≡ decimal n ++ self.old }
    {
        self.start = write_digits(n, &mut self.bytes, self.start);
    }

    /// Puts the last two decimal digits of a number in front.
    #[inline(always)]
    pub(crate) fn prepend_two_digits(&mut self, n: u64)
        requires { 2 + length self.old ≤ 64 }
        ensures { self.new ≡ last_digits 2 n ++ self.old }
    {
        self.prepend(b'0' + (n % 10) as u8);
        self.prepend(b'0' + (n / 10 % 10) as u8);
    }

    /// Puts the last three decimal digits of a number in front.
    #[inline(always)]
    pub(crate) fn prepend_three_digits(&mut self, n: u64)
        requires { 3 + length self.old ≤ 64 }
        ensures { self.new ≡ last_digits 3 n ++ self.old }
    {
        self.prepend_two_digits(n);
        self.prepend(b'0' + (n / 100 % 10) as u8);
    }

    /// Puts the numeral of a number in front, with a comma before every third digit from the right.
    pub(crate) fn prepend_count(&mut self, n: u64)
        requires { length (human_count n) + length self.old ≤ 64 }
        ensures { self.new ≡ human_count n ++ self.old }
    {
        let mut left = n;
        while left >= 1000 {
            self.prepend_three_digits(left % 1000);
            self.prepend(b',');
            left /= 1000;
        }
        self.prepend_number(left);
    }

    /// Puts the numeral of a number of 128 bits in front, with a comma before every third digit from the right.
    pub(crate) fn prepend_wide_count(&mut self, n: u128)
        requires { length (human_count n) + length self.old ≤ 64 }
        ensures { self.new ≡ human_count n ++ self.old }
    {
        let mut left = n;
        while left > u128::from(u64::MAX) {
            self.prepend_three_digits((left % 1000) as u64);
            self.prepend(b',');
            left /= 1000;
        }
        self.prepend_count(left as u64);
    }
}
