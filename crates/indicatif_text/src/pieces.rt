//! A text as colour sequences and the runs between them.
ghost use Rattle.std.specs.Prelude.{◌≡◌, ◌≤◌, ◌<◌, ◌∷◌, List, take, drop, length, chars, unwrap_or, None};
ghost use Rattle.std.specs.Str.{IsAscii, IsCharBoundary};
ghost use Rattle.std.specs.Iterator.{YieldsFirstBy, item_count};
ghost use Rattle.indicatif_text.specs.Columns.{colour_length, is_parameter, visible};
ghost use Rattle.indicatif_text.specs.Pieces.{TextPiece, pieces_of_text, text_piece};
ghost use Rattle.indicatif_text.specs.Inside.Pieces.{run_then};

use std::marker::Model;

/// A piece of a text: a colour sequence, or a longest run without one.
///
/// ```
/// let first = pieces("\u{1b}[1mb").next();
/// assert_eq!(first, Some(Piece { text: "\u{1b}[1m", colour: true }));
/// ```
#[derive(Clone, Copy, Debug, PartialEq, Eq)]
pub struct Piece<'a> {
    /// The text of the piece, a slice of the whole text.
    pub text: &'a str,
    /// Whether it is a colour sequence.
    pub colour: bool,
}

/// The pieces of a text, in order.
///
/// ```
/// for piece in pieces(text) {
///     if !piece.colour {
///         out.push_str(piece.text)?;
///     }
/// }
/// ```
#[derive(Drop)]
pub struct Pieces<'a> {
    rest: &'a str,
}

impl<'a> Model for Pieces<'a> {
    ghost use Rattle.std.specs.Prelude.{List, chars};
    ghost use Rattle.indicatif_text.specs.Pieces.{TextPiece, pieces_of_text};

    ghost Value = { List TextPiece };

    ghost view = { λ p. pieces_of_text (chars p.rest.now) };
}

impl<'a> Pieces<'a> {
    pub(crate) fn of(text: &'a str) -> Pieces<'a>
        ensures { result ≡ pieces_of_text (chars text.now) }
    {
        Pieces { rest: text }
    }
}

impl<'a> Iterator for Pieces<'a> {
    type Item = Piece<'a>;

    ghost next_gives = { YieldsFirstBy text_piece (λ left. left) };

    ghost remaining = { item_count (λ left. left) };

    fn next(&mut self) -> Option<Piece<'a>> {
        if self.rest.is_empty() {
            return None;
        }
        let (piece, rest) = split_piece(self.rest);
        self.rest = rest;
        Some(piece)
    }
}

/// The first piece of a text that is not empty, and the rest.
fn split_piece(text: &str) -> (Piece<'_>, &str)
    requires { 0 < length text.now }
    ensures { pieces_of_text (chars text.now)
        ≡ text_piece result.0 ∷ pieces_of_text (chars result.1.now) }
{
    let sequence = colour_len(text);
    if sequence > 0 {
        let (text, rest) = text.split_at(sequence);
        return (Piece { text, colour: true }, rest);
    }
    let (text, rest) = text.split_at(run_len(text));
    (
        Piece {
            text,
            colour: false,
        },
        rest,
    )
}

/// How many bytes precede the first colour sequence of a text.
fn run_len(text: &str) -> usize
    ensures boundary { IsCharBoundary text.now result }
    ensures pieces { pieces_of_text (chars text.now)
        ≡ run_then (chars (take result text.now)) (pieces_of_text (chars (drop result text.now))) }
    ensures some { 0 < length text.now → colour_length (chars text.now) ≡ None → 0 < result }
{
    let mut rest = text;
    while !rest.is_empty() && colour_len(rest) == 0 {
        let mut chars = rest.chars();
        chars.next();
        rest = chars.as_str();
    }
    text.len() - rest.len()
}

/// The text after the colour sequences at its front.
#[inline(always)]
pub(crate) fn after_colours(text: &str) -> &str
    ensures visible { visible (chars result.now) ≡ visible (chars text.now) }
    ensures front { colour_length (chars result.now) ≡ None }
{
    let mut rest = text;
    let mut len = colour_len(rest);
    while len > 0 {
        rest = &rest[len..];
        len = colour_len(rest);
    }
    rest
}

/// How many bytes the colour sequence at the front of a text takes; 0 if there is none.
///
/// ```
/// assert!(colour_len("\u{1b}[31mred") == 5 && colour_len("red") == 0);
/// ```
#[inline(always)]
pub fn colour_len(text: &str) -> usize
    ensures len { result ≡ unwrap_or (colour_length (chars text.now)) 0 }
    ensures fits { result ≤ length text.now }
    ensures ascii { IsAscii (take result text.now) }
    ensures boundary { IsCharBoundary text.now result }
{
    let bytes = text.as_bytes();
    if bytes.len() < 3 || bytes[0] != 0x1B || bytes[1] != b'[' {
        return 0;
    }
    let mut count: usize = 2;
    'parameters: while count < bytes.len() && is_parameter_byte(bytes[count]) {
        count += 1;
    }
    if count >= bytes.len() || bytes[count] != b'm' {
        return 0;
    }
    count + 1
}

/// Whether an ASCII byte belongs to the parameters, as `is_parameter`; false for any other byte.
///
/// ```
/// assert!(is_parameter_byte(b'7') && !is_parameter_byte(b'm'));
/// ```
#[inline(always)]
pub fn is_parameter_byte(byte: u8) -> bool
    ensures { result ≡ is_parameter byte }
{
    byte >= b'0' && byte <= b';' && byte != b':'
}

/// Whether a character belongs to the parameters of an escape sequence: a digit or a semicolon.
///
/// ```
/// assert!(is_parameter('7') && is_parameter(';') && !is_parameter('m'));
/// ```
pub fn is_parameter(c: char) -> bool
    ensures { result ≡ is_parameter c }
{
    c.is_ascii_digit() || c == ';'
}
