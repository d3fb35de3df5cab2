//! Styles of text: the colours and attributes named by a dotted text, and what they write.
ghost use Rattle.std.specs.Prelude.{◌≡◌, ℕ, ◌+◌, ◌≤◌, ◌<◌, ◌||◌, ◌++◌, [], chars, bytes_eq, position, option_map, flat_map, take_while, IsUtf8, string_bytes, string_len, string_capacity, length, codes, nat_lt, OnOk, OnErr, IfErr, IfOk, IsTrue};
ghost use Rattle.std.specs.List.{list_all};
ghost use Rattle.indicatif_text.specs.StyleWords.{style_of, styled, opening_of, sequence_of, numbers_of, number_if, foreground_number, background_number, colour_place, colour_words, background_words};
ghost use Rattle.indicatif_text.specs.Inside.StyleWords.{AddsWord, closing_of, sequence_if, background_after};
ghost use Rattle.indicatif_text.specs.Inside.Spans.{in_words};
ghost use Rattle.indicatif_text.specs.Template.{after_run};

use crate::appending::append;
use crate::format::short_text::ShortText;
use crate::refusal::Refusal;
use crate::spans::{CharacterClass, Words, split_first, split_span};

/// One of the eight colours of a terminal, in the order of their numbers (ECMA-48, SGR 30 to 37 and 40 to 47).
#[derive(Clone, Copy, Debug, Drop, PartialEq, Eq)]
enum BasicColour {
    Black,
    Red,
    Green,
    Yellow,
    Blue,
    Magenta,
    Cyan,
    White,
}

impl BasicColour {
    /// The colour's place among the eight.
    fn place(self) -> u64
        ensures place { result ≡ colour_place self }
        ensures small { result < 8 }
    {
        match self {
            BasicColour::Black => 0,
            BasicColour::Red => 1,
            BasicColour::Green => 2,
            BasicColour::Yellow => 3,
            BasicColour::Blue => 4,
            BasicColour::Magenta => 5,
            BasicColour::Cyan => 6,
            BasicColour::White => 7,
        }
    }
}

/// How a text is coloured: at most one foreground, at most one background, and any attributes. Its words are those of the
/// documentation of the Rust crate `indicatif` 0.18.6, its sequences those of ECMA-48 (SGR).
///
/// ```
/// let style = Style::from_dotted_str("red.on_blue");
/// style.apply_to(true, " XXX ", &mut out)?;
/// assert_eq!(out.as_str(), "\x1b[31m\x1b[44m XXX \x1b[0m");
/// ```
#[derive(Clone, Copy, Debug, Drop, PartialEq, Eq)]
pub struct Style {
    foreground: Option<BasicColour>,
    background: Option<BasicColour>,
    bold: bool,
    dim: bool,
    underlined: bool,
    blink: bool,
    reverse: bool,
    hidden: bool,
}

impl Style {
    const PLAIN: Style = Style {
        foreground: None,
        background: None,
        bold: false,
        dim: false,
        underlined: false,
        blink: false,
        reverse: false,
        hidden: false,
    };

    /// A style without colours and attributes.
    ///
    /// ```
    /// assert_eq!(Style::new(), Style::from_dotted_str(""));
    /// ```
    pub fn new() -> Style
        ensures { numbers_of result ≡ [] }
    {
        Style::PLAIN
    }

    /// The style that `text` names: words separated by dots.
    ///
    /// The words are `black`, `red`, `green`, `yellow`, `blue`, `magenta`, `cyan` and `white`, each also with `on_` before for the
    /// background, and `bold`, `dim`, `underlined`, `blink`, `reverse` and `hidden`. A later foreground or background replaces an earlier
    /// one; other words are ignored. One pass; takes no memory.
    ///
    /// ```
    /// let style = Style::from_dotted_str("red.green");
    /// style.apply_to(true, "x", &mut out)?;
    /// assert_eq!(out.as_str(), "\x1b[32mx\x1b[0m");
    /// ```
    pub fn from_dotted_str(text: &str) -> Style
        ensures { numbers_of result ≡ style_of (chars text.now) }
    {
        Style::read(text, Words::All).0
    }

    /// The style named by the words at the front of `text`, and the rest.
    #[inline(always)]
    pub(crate) fn read(text: &str, words: Words) -> (Style, &str)
        ensures style { numbers_of result.0
            ≡ style_of (take_while (in_words words) (chars text.now)) }
        ensures rest { chars result.1.now ≡ after_run (in_words words) (chars text.now) }
        ensures utf8 { IsUtf8 result.1.now }
    {
        let (word, mut rest) = split_span(text, CharacterClass::Word(words));
        let mut style = Style::PLAIN;
        style.add_word(word);
        while let Some((end, left)) = split_first(rest) {
            if end != '.' {
                break;
            }
            let (word, more) = split_span(left, CharacterClass::Word(words));
            style.add_word(word);
            rest = more;
        }
        (style, rest)
    }

    /// Appends `text` in this style. With `colours` on, the sequences stand before it: foreground, background, then the attributes by
    /// rising number, each its own ESC `[` number `m` (ECMA-48, SGR); and ESC `[0m` after it, also after an empty text, but only if a
    /// sequence stands before. With `colours` off it is the text alone.
    ///
    /// Refused: `Memory`, only if `out` has no room for all of it; then `out` is unchanged.
    ///
    /// ```
    /// Style::from_dotted_str("hidden.bold.dim").apply_to(true, "", &mut out)?;
    /// assert_eq!(out.as_str(), "\x1b[1m\x1b[2m\x1b[8m\x1b[0m");
    /// ```
    pub fn apply_to(&self, colours: bool, text: &str, out: &mut String) -> Result<(), Refusal>
        ensures ok { OnOk result (string_bytes out.new
            ≡ string_bytes out.old ++ styled colours (numbers_of self.now) text.now) }
        ensures memory { IfErr result (λ e. e ≡ Refusal.Memory) }
        ensures err { OnErr result (string_bytes out.new ≡ string_bytes out.old) }
        ensures full { OnErr result (string_capacity out.old
            < string_len out.old + length (styled colours (numbers_of self.now) text.now)) }
    {
        let opening = self.opening(colours);
        let end = closing(opening.as_str());
        out.reserve(
            text.len()
                .saturating_add(opening.as_str().len() + end.len()),
        )?;
        append(out, opening.as_str());
        append(out, text);
        append(out, end);
        Ok(())
    }

    /// Appends the sequences that stand before a text in this style, and returns whether there are any: then ESC `[0m` belongs after the
    /// text.
    ///
    /// Refused: `Memory`, only if `out` has no room for them; then `out` is unchanged.
    ///
    /// ```
    /// let is_open = Style::from_dotted_str("red").open(true, &mut out)?;
    /// assert!(is_open);
    /// assert_eq!(out.as_str(), "\x1b[31m");
    /// ```
    pub fn open(&self, colours: bool, out: &mut String) -> Result<bool, Refusal>
        ensures bytes { OnOk result (string_bytes out.new
            ≡ string_bytes out.old ++ opening_of colours (numbers_of self.now)) }
        ensures some { IfOk result (λ some. some ≡ nat_lt 0 (length (opening_of colours (numbers_of self.now)))) }
        ensures memory { IfErr result (λ e. e ≡ Refusal.Memory) }
        ensures err { OnErr result (string_bytes out.new ≡ string_bytes out.old) }
        ensures full { OnErr result (string_capacity out.old
            < string_len out.old + length (opening_of colours (numbers_of self.now))) }
    {
        if !colours {
            return Ok(false);
        }
        let opening = self.opening(colours);
        out.push_str(opening.as_str())?;
        Ok(!opening.as_str().is_empty())
    }

    /// The sequences that stand before a text; none with `colours` off.
    fn opening(&self, colours: bool) -> ShortText
        ensures sequences { result ≡ opening_of colours (numbers_of self.now) }
        ensures short { length result ≤ 40 }
    {
        let mut text = ShortText::new();
        if !colours {
            return text;
        }
        prepend_attribute(&mut text, self.hidden, 8);
        prepend_attribute(&mut text, self.reverse, 7);
        prepend_attribute(&mut text, self.blink, 5);
        prepend_attribute(&mut text, self.underlined, 4);
        prepend_attribute(&mut text, self.dim, 2);
        prepend_attribute(&mut text, self.bold, 1);
        prepend_colour(&mut text, 40, self.background);
        prepend_colour(&mut text, 30, self.foreground);
        text
    }

    /// Adds a further word to the style, if it is one.
    #[inline(always)]
    fn add_word(&mut self, word: &str)
        ensures { AddsWord self.old (chars word.now) self.new }
    {
        if let Some(colour) = colour_of(word) {
            self.foreground = Some(colour);
            return;
        }
        *self = self.with_other_word(word);
    }

    /// The style with a further word that is no foreground, if it is one.
    #[inline(never)]
    fn with_other_word(self, word: &str) -> Style
        ensures foreground { foreground_number result ≡ foreground_number self }
        ensures background { background_number result
            ≡ background_after (background_number self) (chars word.now) }
        ensures bold { result.bold ≡ (self.bold || bytes_eq (chars word.now) (codes "bold")) }
        ensures dim { result.dim ≡ (self.dim || bytes_eq (chars word.now) (codes "dim")) }
        ensures underlined { result.underlined
            ≡ (self.underlined || bytes_eq (chars word.now) (codes "underlined")) }
        ensures blink { result.blink ≡ (self.blink || bytes_eq (chars word.now) (codes "blink")) }
        ensures reverse { result.reverse
            ≡ (self.reverse || bytes_eq (chars word.now) (codes "reverse")) }
        ensures hidden { result.hidden
            ≡ (self.hidden || bytes_eq (chars word.now) (codes "hidden")) }
    {
        Style {
            foreground: self.foreground,
            background: background_of(word).or(self.background),
            bold: self.bold || is_word(word, "bold"),
            dim: self.dim || is_word(word, "dim"),
            underlined: self.underlined || is_word(word, "underlined"),
            blink: self.blink || is_word(word, "blink"),
            reverse: self.reverse || is_word(word, "reverse"),
            hidden: self.hidden || is_word(word, "hidden"),
        }
    }
}

/// The colour that a word names.
#[inline(always)]
fn colour_of(word: &str) -> Option<BasicColour>
    ensures { option_map colour_place result ≡ position (bytes_eq (chars word.now)) colour_words }
{
    match word {
        "black" => Some(BasicColour::Black),
        "red" => Some(BasicColour::Red),
        "green" => Some(BasicColour::Green),
        "yellow" => Some(BasicColour::Yellow),
        "blue" => Some(BasicColour::Blue),
        "magenta" => Some(BasicColour::Magenta),
        "cyan" => Some(BasicColour::Cyan),
        "white" => Some(BasicColour::White),
        _ => None,
    }
}

/// The colour that a word names after `on_`.
fn background_of(word: &str) -> Option<BasicColour>
    ensures { option_map colour_place result ≡ position (bytes_eq (chars word.now)) background_words }
{
    colour_of(word.strip_prefix("on_")?)
}

/// Whether `word` is this ASCII name.
fn is_word(word: &str, name: &str) -> bool
    requires { IsTrue (list_all (λ b. nat_lt b 128) name.now) }
    ensures { result ≡ bytes_eq (chars word.now) name.now }
{
    word == name
}

/// What follows a text after these colour sequences.
fn closing(opening: &str) -> &'static str
    ensures { result.now ≡ closing_of opening.now }
{
    if opening.is_empty() { "" } else { "\x1b[0m" }
}

/// Puts the sequence of a colour in front, if there is one: its number is `base` and the colour's place.
fn prepend_colour(text: &mut ShortText, base: u64, colour: Option<BasicColour>)
    requires room { length text.old ≤ 35 }
    requires small { base ≤ 40 }
    ensures text { text.new ≡ sequence_if (option_map (λ c. base + colour_place c) colour) ++ text.old }
    ensures short { length text.new ≤ length text.old + 5 }
{
    if let Some(colour) = colour {
        prepend_sequence(text, base + colour.place());
    }
}

/// Puts the sequence of an attribute's number in front, if it is set.
fn prepend_attribute(text: &mut ShortText, set: bool, number: u64)
    requires room { length text.old ≤ 35 }
    requires small { number < 100 }
    ensures text { text.new ≡ flat_map sequence_of (number_if set number) ++ text.old }
    ensures short { length text.new ≤ length text.old + 5 }
{
    if set {
        prepend_sequence(text, number);
    }
}

/// Puts the colour sequence of a number in front.
fn prepend_sequence(text: &mut ShortText, number: u64)
    requires room { length text.old ≤ 35 }
    requires small { number < 100 }
    ensures text { text.new ≡ sequence_of number ++ text.old }
    ensures short { length text.new ≤ length text.old + 5 }
{
    text.prepend(b'm');
    text.prepend_number(number);
    text.prepend_str("\x1b[");
}
