//! The moves of the cursor as bytes.
ghost use Rattle.std.specs.Prelude.{◌≡◌, ◌<◌, drop};
ghost use Rattle.indicatif_term.specs.Calls.{move_bytes};

use itoa::write_digits;
use std::marker::Model;

/// The bytes of a move of the cursor, built without memory.
#[derive(Drop)]
pub(crate) struct MoveBytes {
    bytes: [u8; 24],
    start: usize,
}

impl Model for MoveBytes {
    ghost use Rattle.std.specs.Prelude.{List, ℕ, ◌≤◌, drop};

    ghost Value = { List ℕ };

    ghost view = { λ m. drop m.start m.bytes };

    ghost invariant = { λ m. m.start ≤ 24 };
}

impl MoveBytes {
    /// The bytes of a move: ESC `[`, the number and the letter.
    pub(crate) fn new(letter: u8, n: usize) -> MoveBytes
        requires { 0 < n }
        ensures { result ≡ move_bytes letter n }
    {
        let mut bytes = [0; 24];
        bytes[23] = letter;
        let start = write_digits(n as u64, &mut bytes, 23);
        bytes[start - 1] = b'[';
        bytes[start - 2] = 0x1B;
        MoveBytes {
            bytes,
            start: start - 2,
        }
    }

    /// The bytes of the move.
    pub(crate) fn as_slice(&self) -> &[u8]
        ensures { result.now ≡ self.now }
    {
        &self.bytes[self.start..]
    }
}
