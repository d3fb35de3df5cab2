//! Cutting a text at the first character that doesn't belong to a run.
ghost use Rattle.std.specs.Prelude.{◌≡◌, ◌∷◌, [], chars, take_while, MatchOption, IfSome, IsUtf8};
ghost use Rattle.std.specs.List.{prefix_len};
ghost use Rattle.indicatif_text.specs.Inside.Spans.{belongs, bit_of};
ghost use Rattle.indicatif_text.specs.Template.{after_run};

/// How far the words of a style go. What ends them is always ASCII.
#[derive(Clone, Copy, Drop)]
pub(crate) enum Words {
    /// To the end of the text.
    All,
    /// Up to a slash or a closing brace.
    Style,
    /// Up to a closing brace.
    Alternative,
}

/// The characters that a run is made of. What ends a run is always ASCII.
#[derive(Clone, Copy, Drop)]
pub(crate) enum CharacterClass {
    /// All but braces and newlines.
    Literal,
    /// All but colons, closing braces and ASCII white space.
    Key,
    /// All but dots and what ends these words.
    Word(Words),
}

/// Which runs each byte ends, as a sum: 1 a literal run, 2 a key, 4 words that go to the end, 8 those of a style, 16 those of an
/// alternative one. Bytes past ASCII end none.
const ENDS: &[u8; 256] = &[
    0, 0, 0, 0, 0, 0, 0, 0, 0, 2, 3, 0, 2, 2, 0, 0, 0, 0, 0, 0, 0, 0, 0, 0, 0, 0, 0, 0, 0, 0, 0, 0,
    2, 0, 0, 0, 0, 0, 0, 0, 0, 0, 0, 0, 0, 0, 28, 8, 0, 0, 0, 0, 0, 0, 0, 0, 0, 0, 2, 0, 0, 0, 0,
    0, 0, 0, 0, 0, 0, 0, 0, 0, 0, 0, 0, 0, 0, 0, 0, 0, 0, 0, 0, 0, 0, 0, 0, 0, 0, 0, 0, 0, 0, 0, 0,
    0, 0, 0, 0, 0, 0, 0, 0, 0, 0, 0, 0, 0, 0, 0, 0, 0, 0, 0, 0, 0, 0, 0, 0, 0, 0, 0, 0, 1, 0, 27,
    0, 0, 0, 0, 0, 0, 0, 0, 0, 0, 0, 0, 0, 0, 0, 0, 0, 0, 0, 0, 0, 0, 0, 0, 0, 0, 0, 0, 0, 0, 0, 0,
    0, 0, 0, 0, 0, 0, 0, 0, 0, 0, 0, 0, 0, 0, 0, 0, 0, 0, 0, 0, 0, 0, 0, 0, 0, 0, 0, 0, 0, 0, 0, 0,
    0, 0, 0, 0, 0, 0, 0, 0, 0, 0, 0, 0, 0, 0, 0, 0, 0, 0, 0, 0, 0, 0, 0, 0, 0, 0, 0, 0, 0, 0, 0, 0,
    0, 0, 0, 0, 0, 0, 0, 0, 0, 0, 0, 0, 0, 0, 0, 0, 0, 0, 0, 0, 0, 0, 0, 0, 0, 0, 0, 0, 0, 0, 0, 0,
    0, 0,
];

/// The table's bit of the bytes that end this run.
#[inline(always)]
fn bit_of(run: CharacterClass) -> u8
    ensures { result ≡ bit_of run }
{
    match run {
        CharacterClass::Literal => 1,
        CharacterClass::Key => 2,
        CharacterClass::Word(Words::All) => 4,
        CharacterClass::Word(Words::Style) => 8,
        CharacterClass::Word(Words::Alternative) => 16,
    }
}

/// Whether a byte of a text belongs to the run; all bytes of a character past ASCII do, or none.
#[inline(always)]
fn belongs(run: CharacterClass, byte: u8) -> bool
    ensures { result ≡ belongs run byte }
{
    ENDS[usize::from(byte)] & bit_of(run) == 0
}

/// How many bytes in front belong to the run.
#[inline(always)]
fn span_len(bytes: &[u8], run: CharacterClass) -> usize
    ensures { result ≡ prefix_len (belongs run) bytes.now }
{
    let mut len: usize = 0;
    'bytes: while len < bytes.len() && belongs(run, bytes[len]) {
        len += 1;
    }
    len
}

/// The longest prefix of `text` that belongs to the run, and the rest.
#[inline(always)]
pub(crate) fn split_span(text: &str, run: CharacterClass) -> (&str, &str)
    ensures run { chars result.0.now ≡ take_while (belongs run) (chars text.now) }
    ensures rest { chars result.1.now ≡ after_run (belongs run) (chars text.now) }
    ensures utf8 { IsUtf8 result.1.now }
{
    let end = span_len(text.as_bytes(), run);
    text.split_at(end)
}

/// The first character of `text` and the rest; none if it is empty.
#[inline]
pub(crate) fn split_first(text: &str) -> Option<(char, &str)>
    ensures first { MatchOption result (chars text.now ≡ [])
        (λ r. chars text.now ≡ r.0 ∷ chars r.1.now) }
    ensures utf8 { IfSome result (λ r. IsUtf8 r.1.now) }
{
    let mut rest = text.chars();
    let first = rest.next()?;
    Some((first, rest.as_str()))
}
