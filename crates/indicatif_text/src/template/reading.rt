//! Reading at the front of a text. Nothing here takes memory.
ghost use Rattle.std.specs.Prelude.{◌≡◌, true, false, chars, option_map, take_while, MatchOption, IfOk, IsUtf8};
ghost use Rattle.indicatif_text.specs.Inside.Spans.{in_words};
ghost use Rattle.indicatif_text.specs.StyleWords.{numbers_of};
ghost use Rattle.indicatif_text.specs.Template.{Takes, after_run, is_width_char, style_named, alignment_of, with_alternative, with_style, with_width, with_options};
ghost use Rattle.indicatif_text.specs.Inside.Reading.{IsFrontRead, layout_of, IsMix, TakesUp};

use crate::refusal::TemplateState;
use crate::spans::{Words, split_first};
use crate::style_words::Style;
use crate::template::{Alignment, TemplateError};

/// The layout of a placeholder's text.
#[derive(Clone, Copy, Debug, Drop)]
pub(super) struct Options {
    pub align: Alignment,
    pub width: Option<u16>,
    pub truncate: bool,
    pub style: Option<Style>,
    pub alternative: Option<Style>,
}

impl Options {
    pub(super) const NONE: Options = Options {
        align: Alignment::Left,
        width: None,
        truncate: false,
        style: None,
        alternative: None,
    };
}

/// The style named by the words at the front of a text, and the rest; an empty text is no style.
#[inline(always)]
fn style_named<'a>(text: &'a str, words: Words) -> (Option<Style>, &'a str)
    ensures style { option_map numbers_of result.0
        ≡ style_named (take_while (in_words words) (chars text.now)) }
    ensures rest { chars result.1.now ≡ after_run (in_words words) (chars text.now) }
    ensures utf8 { IsUtf8 result.1.now }
{
    let (style, after) = Style::read(text, words);
    if after.len() == text.len() {
        return (None, after);
    }
    (Some(style), after)
}

/// Digits and exclamation marks, in any mix.
#[derive(Clone, Copy, Drop)]
struct Mix {
    /// The number of the digits, if there are any; it counts only if it isn't too large.
    width: Option<u16>,
    /// Whether the number is past 65,535.
    too_large: bool,
    /// Whether an exclamation mark stands among them.
    truncate: bool,
    /// The state of the character after them.
    state: TemplateState,
}

impl Mix {
    /// The mix with a further character; none if that is neither a digit nor an exclamation mark.
    fn with(self, c: char) -> Option<Mix>
        ensures { MatchOption result (is_width_char c ≡ false)
            (λ longer. (is_width_char c ≡ true) × TakesUp self c longer) }
    {
        let longer = Mix {
            state: TemplateState::Width,
            ..self
        };
        if c == '!' {
            return Some(Mix {
                truncate: true,
                ..longer
            });
        }
        if !c.is_ascii_digit() {
            return None;
        }
        let number = u32::from(self.width.unwrap_or(0)) * 10 + (c as u32 - 48);
        if number > 65_535 {
            return Some(Mix {
                too_large: true,
                ..longer
            });
        }
        let width = Some(number as u16);
        Some(Mix { width, ..longer })
    }
}

/// The digits and exclamation marks at the front of a text, whose first character is met in `state`, and the rest.
fn read_mix(state: TemplateState, text: &str) -> (Mix, &str)
    ensures mix { IsMix state (take_while is_width_char (chars text.now)) result.0 }
    ensures rest { chars result.1.now ≡ after_run is_width_char (chars text.now) }
    ensures utf8 { IsUtf8 result.1.now }
{
    let mut mix = Mix {
        width: None,
        too_large: false,
        truncate: false,
        state,
    };
    let mut rest = text;
    while let Some((c, after)) = split_first(rest) {
        let Some(longer) = mix.with(c) else {
            break;
        };
        mix = longer;
        rest = after;
    }
    (mix, rest)
}

/// The alignment that a character names.
fn alignment_of(c: char) -> Option<Alignment>
    ensures { result ≡ alignment_of c }
{
    match c {
        '<' => Some(Alignment::Left),
        '^' => Some(Alignment::Center),
        '>' => Some(Alignment::Right),
        _ => None,
    }
}

/// Reads an alternative style up to the closing brace into the options, and returns the rest.
fn with_alternative<'a>(options: &mut Options, text: &'a str) -> &'a str
    ensures value { with_alternative (layout_of options.old) (chars text.now)
        ≡ Takes (chars result.now) (layout_of options.new) }
    ensures utf8 { IsUtf8 result.now }
{
    let (alternative, after) = style_named(text, Words::Alternative);
    match split_first(after) {
        None => after,
        Some((_brace, rest)) => {
            options.alternative = alternative;
            rest
        }
    }
}

/// Reads a style up to the closing brace into the options, with an alternative one after a slash, and returns the rest.
#[inline(always)]
fn with_style<'a>(options: &mut Options, text: &'a str) -> &'a str
    ensures value { with_style (layout_of options.old) (chars text.now)
        ≡ Takes (chars result.now) (layout_of options.new) }
    ensures utf8 { IsUtf8 result.now }
{
    let (style, after) = style_named(text, Words::Style);
    match split_first(after) {
        None => after,
        Some((end, rest)) => {
            options.style = style;
            if end == '}' {
                rest
            } else {
                with_alternative(options, rest)
            }
        }
    }
}

/// Reads digits and exclamation marks into the options, and what may follow them up to the closing brace, and returns the rest.
///
/// Refused: `Unexpected` at a character that fits no case, in `state` if it is the first here; `WidthTooLarge`.
#[inline(never)]
fn with_width<'a>(
    options: &mut Options,
    state: TemplateState,
    text: &'a str,
) -> Result<&'a str, TemplateError>
    ensures { IsFrontRead (with_width (layout_of options.old) state (chars text.now)) (layout_of options.new) result }
{
    let (mix, after) = read_mix(state, text);
    options.truncate = mix.truncate;
    let Some((next, rest)) = split_first(after) else {
        return Ok(after);
    };
    if next != '}' && next != '.' {
        let state = mix.state;
        return Err(TemplateError::Unexpected { next, state });
    }
    if mix.too_large {
        return Err(TemplateError::WidthTooLarge);
    }
    options.width = mix.width;
    if next == '}' {
        return Ok(rest);
    }
    Ok(with_style(options, rest))
}

/// Reads the options of a placeholder up to the closing brace in place of these, and returns the rest.
///
/// Refused: `Unexpected` at a character that fits no case; `WidthTooLarge`.
pub(super) fn with_options<'a>(
    options: &mut Options,
    text: &'a str,
) -> Result<&'a str, TemplateError>
    ensures { IsFrontRead (with_options (chars text.now)) (layout_of options.new) result }
{
    *options = Options::NONE;
    match split_first(text) {
        None => Ok(text),
        Some(('.', rest)) => Ok(with_style(options, rest)),
        Some((first, rest)) => match alignment_of(first) {
            None => with_width(options, TemplateState::Align, text),
            Some(align) => {
                options.align = align;
                with_width(options, TemplateState::Width, rest)
            }
        },
    }
}
