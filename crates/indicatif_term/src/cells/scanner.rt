//! The operations of bytes: characters first, escape sequences next.
ghost use Rattle.std.specs.Prelude.{◌≡◌, ◌<◌, ◌≤◌, length, slice_index, IsTrue, IfSome, option_map};
ghost use Rattle.indicatif_text.specs.Columns.{is_parameter};
ghost use Rattle.indicatif_term.specs.Terminal.{idle, byte_step, char_step, plain_step, sequence_op, number_with};
ghost use Rattle.indicatif_term.specs.Inside.Grids.{op_of};
ghost use Rattle.indicatif_term.specs.Inside.Scanners.{stage_place, IsWholeSequence, IsSequenceFront};

use crate::cells::grid::Op;
use crate::cells::spelling::Spelling;
use indicatif_text::columns::{is_parameter, is_parameter_byte};
use std::marker::Model;

/// The place of the next character in an escape sequence.
#[derive(Clone, Copy, Drop)]
pub(crate) enum ScanState {
    /// Outside.
    Outside,
    /// After ESC.
    AfterEscape,
    /// After ESC `[` and the digits of this number, at most 65,535; none after a semicolon.
    InSequence(Option<u16>),
}

impl ScanState {
    /// The operation of a character, and the place of the next one.
    pub(crate) fn step(self, c: char) -> (Option<Op>, ScanState)
        ensures op { option_map op_of result.0 ≡ (char_step (stage_place self) c).0 }
        ensures place { stage_place result.1 ≡ (char_step (stage_place self) c).1 }
    {
        match self {
            ScanState::Outside => plain_step(c),
            ScanState::AfterEscape => {
                if c == '[' {
                    (None, ScanState::InSequence(Some(0)))
                } else {
                    plain_step(c)
                }
            }
            ScanState::InSequence(number) => {
                if is_parameter(c) {
                    (None, ScanState::InSequence(number_with(number, c)))
                } else {
                    (sequence_op(number, c), ScanState::Outside)
                }
            }
        }
    }
}

/// The operation of a character outside a sequence, and the place of the next one.
fn plain_step(c: char) -> (Option<Op>, ScanState)
    ensures op { option_map op_of result.0 ≡ (plain_step c).0 }
    ensures place { stage_place result.1 ≡ (plain_step c).1 }
{
    match c {
        '\u{1B}' => (None, ScanState::AfterEscape),
        '\r' => (Some(Op::Return), ScanState::Outside),
        '\n' => (Some(Op::LineFeed), ScanState::Outside),
        _ => (Some(Op::Put(c)), ScanState::Outside),
    }
}

/// The number of a sequence with one more digit, at most 65,535; none with a semicolon.
fn number_with(number: Option<u16>, c: char) -> Option<u16>
    ensures { result ≡ number_with number c }
{
    match number {
        Some(n) if c.is_ascii_digit() => {
            let more = u32::from(n) * 10 + (c as u32 - '0' as u32);
            Some(more.min(65535) as u16)
        }
        _ => None,
    }
}

/// The operation of the sequence with this number and this last character.
fn sequence_op(number: Option<u16>, c: char) -> Option<Op>
    ensures { option_map op_of result ≡ sequence_op number c }
{
    let n = number?;
    let count = if n == 0 { 1 } else { n };
    match c {
        'A' => Some(Op::Up(count)),
        'B' => Some(Op::Down(count)),
        'C' => Some(Op::Right(count)),
        'D' => Some(Op::Left(count)),
        'K' if n == 2 => Some(Op::EmptyRow),
        _ => None,
    }
}

/// A whole escape sequence at the front of bytes: its number, its last character, and how many bytes it has.
#[derive(Clone, Copy, Drop)]
pub(crate) struct WholeSequence {
    number: Option<u16>,
    last: char,
    pub(crate) len: usize,
}

impl WholeSequence {
    /// The whole escape sequence at the front of bytes, if there is one whose last character is ASCII.
    pub(crate) fn of(bytes: &[u8]) -> Option<WholeSequence>
        ensures { IfSome result (λ s. IsWholeSequence bytes.now s.number s.last s.len) }
    {
        if bytes.len() < 3 || bytes[0] != 0x1B || bytes[1] != b'[' {
            return None;
        }
        let (number, len) = sequence_front(bytes);
        if len == bytes.len() {
            return None;
        }
        let byte = bytes[len];
        if byte >= 0x80 || is_parameter_byte(byte) {
            return None;
        }
        let last = char::from(byte);
        Some(WholeSequence {
            number,
            last,
            len: len + 1,
        })
    }

    /// The operation of the sequence.
    pub(crate) fn op(self) -> Option<Op>
        ensures { option_map op_of result ≡ sequence_op self.number self.last }
    {
        sequence_op(self.number, self.last)
    }
}

/// The number of the escape sequence at the front, and how many bytes precede its last character.
fn sequence_front(bytes: &[u8]) -> (Option<u16>, usize)
    requires some { 2 ≤ length bytes.now }
    requires escape { slice_index bytes.now 0 ≡ 0x1B }
    requires bracket { slice_index bytes.now 1 ≡ 0x5B }
    ensures { IsSequenceFront bytes.now result.0 result.1 }
{
    let mut number = Some(0);
    let mut len: usize = 2;
    'bytes: while len < bytes.len() && is_parameter_byte(bytes[len]) {
        let digit = char::from(bytes[len]);
        number = number_with(number, digit);
        len += 1;
    }
    (number, len)
}

/// The operation of a byte, and the scanner after it.
#[derive(Drop)]
pub(crate) struct Reading {
    pub(crate) op: Option<Op>,
    pub(crate) next: Scanner,
}

/// The state after the bytes read of a character and of a sequence.
#[derive(Drop)]
pub(crate) struct Scanner {
    stage: ScanState,
    spelling: Spelling,
}

impl Model for Scanner {
    ghost use Rattle.std.specs.Prelude.{◌<◌, length};
    ghost use Rattle.indicatif_term.specs.Terminal.{Reader};

    ghost Value = { Reader };

    ghost use Rattle.indicatif_term.specs.Inside.Scanners.{stage_place};

    ghost view = { λ s. record { place = stage_place s.stage; spelling = s.spelling } };

    ghost invariant = { λ s. length s.spelling < 4 };
}

impl Scanner {
    /// The scanner before any byte.
    pub(crate) fn new() -> Scanner
        ensures { result ≡ idle }
    {
        Scanner {
            stage: ScanState::Outside,
            spelling: Spelling::empty(),
        }
    }

    /// Whether the scanner is between two characters and outside a sequence.
    #[inline]
    pub(crate) fn is_idle(&self) -> bool
        ensures { IsTrue result → self.now ≡ idle }
    {
        match self.stage {
            ScanState::Outside => self.spelling.is_empty(),
            _ => false,
        }
    }

    /// The operation of a byte, and the scanner after it.
    pub(crate) fn read(&self, byte: u8) -> Reading
        ensures op { option_map op_of result.op ≡ (byte_step self.now byte).0 }
        ensures next { result.next ≡ (byte_step self.now byte).1 }
    {
        let spelling = self.spelling.with(byte);
        let (op, stage, spelling) = match spelling.character() {
            Some(c) => {
                let (op, stage) = self.stage.step(c);
                (op, stage, Spelling::empty())
            }
            None => (None, self.stage, spelling.left_over()),
        };
        Reading {
            op,
            next: Scanner { stage, spelling },
        }
    }
}
