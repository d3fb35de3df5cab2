//! Styles and their builders; the lines of bars in them, one bar a row; and long texts by their runs.
use crate::texts;
use indicatif_bar::state::BarState;
use indicatif_bar::style::{NoTracker, ProgressStyle};
use scripts::got::{Bad, Got, Outcome};
use scripts::lone::{Bar, push_lines, style_of};
use scripts::row::{At, Words, flag, headed, number, optional, tabbed, unescaped};

/// A style in a box: each way out of a function drops it by one call.
type Look = Box<ProgressStyle<NoTracker>>;

/// A style, which a builder that refuses drops.
#[derive(Drop)]
pub struct Styled(Option<Look>);

/// `style TEMPLATE`, `default_bar` or `default_spinner`: a new style.
pub fn begin(name: &str, rest: &str, at: At) -> Result<Styled, Bad> {
    Ok(Styled(Some(match name {
        "style" => style_of(at, rest)?,
        "default_bar" => at.boxed(ProgressStyle::default_bar(at.alloc)?)?,
        _ => at.boxed(ProgressStyle::default_spinner(at.alloc)?)?,
    })))
}

impl Styled {
    /// A builder, or a reading.
    pub fn step(&mut self, step: &str, at: At, got: &mut Got) -> Outcome {
        let look = self.0.take().ok_or(Bad::Step)?;
        self.0 = Some(match read(&look, headed(step), at, got)? {
            true => look,
            false => built(look, headed(step), at)?,
        });
        Ok(())
    }
}

/// The builder of a step: `template TEMPLATE`, `tick_chars CHARS`, `progress_chars CHARS`, `tick_strings` and each text after a tab,
/// `colours yes` or `no`, or `clone`, which continues with the clone.
fn built(look: Look, (name, rest): (&str, &str), at: At) -> Result<Look, Bad> {
    match name {
        "tick_strings" => with_tick_strings(look, rest, at),
        "colours" => with_colours(look, flag(rest)?, at),
        "clone" => at.boxed(look.try_clone()?),
        _ => with_text(look, (name, rest), at),
    }
}

/// The style with another template, other ticks or other characters of a bar, from a text with escapes.
fn with_text(look: Look, (name, text): (&str, &str), at: At) -> Result<Look, Bad> {
    let text = unescaped(at.alloc, text)?;
    let text = text.as_str();
    match name {
        "template" => at.boxed(Box::into_inner(look).template(text)?),
        "tick_chars" => at.boxed(Box::into_inner(look).tick_chars(text)?),
        "progress_chars" => at.boxed(Box::into_inner(look).progress_chars(text)?),
        _ => Err(Bad::Step),
    }
}

fn with_tick_strings(look: Look, rest: &str, at: At) -> Result<Look, Bad> {
    let mut texts = Vec::new(at.alloc);
    for text in rest.split('\t').skip(1) {
        texts.push(unescaped(at.alloc, text)?)?;
    }
    with_texts(look, &texts, at)
}

fn with_texts(look: Look, texts: &[String], at: At) -> Result<Look, Bad> {
    let mut strings = Vec::new(at.alloc);
    for text in texts {
        strings.push(text.as_str())?;
    }
    at.boxed(Box::into_inner(look).tick_strings(&strings)?)
}

/// Reads `tick TICKS` or `last_tick` of a style, texts of its spinner, or `lines COLS`, those of a new bar of 10; whether the step is a
/// reading.
fn read(look: &Look, (name, rest): (&str, &str), at: At, got: &mut Got) -> Result<bool, Bad> {
    match name {
        "last_tick" => got.text(look.get_final_tick_str()),
        "tick" => got.text(look.get_tick_str(number(rest)?)),
        "lines" => {
            let bar = in_style(at.boxed(look.try_clone()?)?, Some(10), at)?;
            push_lines(&bar, number(rest)?, at.now, got)?;
        }
        _ => return Ok(false),
    }
    Ok(true)
}

/// The style with colours, or without.
fn with_colours(look: Look, colours: bool, at: At) -> Result<Look, Bad> {
    at.boxed(Box::into_inner(look).with_colors(colours)?)
}

/// A new bar in this style.
fn in_style(look: Look, len: Option<u64>, at: At) -> Result<Box<Bar>, Bad> {
    let bar = BarState::styled(at.alloc, Box::into_inner(look), len, at.now)?;
    at.boxed(bar)
}

// ---- lines

/// Appends the lines of a bar that is made at 0, each followed by a newline. The fields are separated by tabs, except the first and those
/// that belong together. Texts have escapes.
///
/// - `said COLS TEMPLATE  MESSAGE`: of a bar without a length.
/// - `placed COLS TEMPLATE  CHARS  POS LEN`, with `-` for the characters of a new style and for no length.
/// - `coloured`, before one of these: with colours.
/// - `laid COLS  TEMPLATE  CHARS  COLOURS  TAB  POS  LEN  MESSAGE  PREFIX  NOW  FINISHED`: it ticks at the moment `NOW`. Flags are 1 for
///   yes and 0 for no.
pub fn laid_out(name: &str, rest: &str, at: At, got: &mut Got) -> Outcome {
    let at = At { now: 0, ..at };
    match name {
        "laid" => laid(rest, at, got),
        "coloured" => brief(headed(rest), true, at, got),
        _ => brief((name, rest), false, at, got),
    }
}

/// A bar with the most common fields.
fn brief((name, rest): (&str, &str), colours: bool, at: At, got: &mut Got) -> Outcome {
    let (columns, rest) = headed(rest);
    let (template, rest) = tabbed(rest);
    let bar = match name {
        "said" => {
            let mut bar = new_bar(template, ("-", colours), None, at)?;
            bar.with_message(unescaped(at.alloc, rest)?.as_str(), 0)?;
            bar
        }
        "placed" => {
            let (chars, rest) = tabbed(rest);
            let (position, len) = headed(rest);
            let mut bar = new_bar(template, (chars, colours), optional(len)?, at)?;
            bar.with_position(number(position)?, 0);
            bar
        }
        _ => return Err(Bad::Step),
    };
    push_lines(&bar, number(columns)?, 0, got)
}

/// A bar with all fields.
fn laid(rest: &str, at: At, got: &mut Got) -> Outcome {
    let mut fields = Words::in_fields(rest);
    let columns = fields.number()?;
    let (template, chars, colours) = (fields.word(), fields.word(), fields.word() == "1");
    let (tab, position): (usize, u64) = (fields.number()?, fields.number()?);
    let mut bar = new_bar(template, (chars, colours), fields.optional()?, at)?;
    bar.with_tab_width(tab, 0)?;
    bar.with_position(position, 0);
    bar.with_message(unescaped(at.alloc, fields.word())?.as_str(), 0)?;
    bar.with_prefix(unescaped(at.alloc, fields.word())?.as_str(), 0)?;
    let now = fields.number()?;
    bar.tick(now);
    if fields.word() == "1" {
        bar.finish(now);
    }
    push_lines(&bar, columns, now, got)
}

/// A bar with these characters, or with `-` those of a new style.
fn new_bar(
    template: &str,
    (chars, colours): (&str, bool),
    len: Option<u64>,
    at: At,
) -> Result<Box<Bar>, Bad> {
    let mut look = with_colours(style_of(at, template)?, colours, at)?;
    if chars != "-" {
        look = with_text(look, ("progress_chars", chars), at)?;
    }
    in_style(look, len, at)
}

/// Appends the result of a step by its runs of one character, separated by spaces: how often, and the character. `runs STEP`.
pub fn in_runs(rest: &str, at: At, got: &mut Got) -> Outcome {
    let (name, rest) = headed(rest);
    let mut long = Got::new(at.alloc);
    match name {
        "format" => texts::formatted(rest, &mut long)?,
        _ => laid_out(name, rest, at, &mut long)?,
    }
    push_runs(long.as_str(), got);
    Ok(())
}

fn push_runs(text: &str, got: &mut Got) {
    let mut rest = text;
    for _ in 0..text.len() {
        rest = push_run(rest, got);
    }
}

/// Appends the run at the front of a text, if there is one; the text behind it.
fn push_run<'a>(text: &'a str, got: &mut Got) -> &'a str {
    let Some(c) = text.chars().next() else {
        return "";
    };
    let behind = text.trim_start_matches(c);
    let count = text.len().saturating_sub(behind.len()) / c.len_utf8().max(1);
    got.between(" ");
    got.number(format_args!("{count} {c}"));
    behind
}
