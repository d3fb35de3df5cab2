//! What the parts of a template do, found once.
ghost use Rattle.std.specs.Prelude.{◌≡◌, ◌==◌, ◌&&◌, ◌++◌, nat_lt, length, not, is_some, [], List, Some, map, option_map, unwrap_or, OnOk, IfOk, IfErr, bytes_eq, position, string_bytes, chars, encode_utf8_all};
ghost use Rattle.std.specs.List.{slice_get};
ghost use Rattle.indicatif_text.specs.StyleWords.{numbers_of, opening_of};
ghost use Rattle.indicatif_text.specs.Template.{TemplatePart, part_of};
ghost use Rattle.indicatif_bar.specs.Styles.{bar_columns, is_bare_layout};
ghost use Rattle.indicatif_bar.specs.Inside.Steps.{wide_found, wide_source, placeholder_layout, names_of, literal_text, effect_of, effect_of_part, source_of};

use crate::style::keys::{BarKey, Key, TextKey, key_named};
use crate::tabs::{has_tab, push_expanded};
use indicatif_text::columns::{Refusal, Style};
use indicatif_text::template::{Alignment, Part, Template};
use std::alloc::{AllocError, Global};

/// The columns of a bar without a width.
pub(crate) const BAR_COLUMNS: u16 = 20;

/// Where the text of a placeholder comes from.
#[derive(Clone, Copy, Drop)]
pub(crate) enum Source {
    /// The tracker at this place.
    Tracker(usize),
    /// The library's key.
    Known(Key),
    /// Nowhere: the name is unknown.
    Nothing,
}

/// A placeholder.
#[derive(Clone, Copy, Drop)]
pub(crate) struct Placeholder {
    pub(crate) source: Source,
    pub(crate) align: Alignment,
    pub(crate) width: Option<u16>,
    pub(crate) truncate: bool,
    pub(crate) style: Option<Style>,
    pub(crate) alternative: Option<Style>,
}

/// The placeholder of a wide key.
#[derive(Clone, Copy, Drop)]
pub(crate) enum WideKey<'a> {
    /// Of a wide bar.
    Bar(BarKey, &'a Placeholder),
    /// Of a wide text.
    Text(TextKey, &'a Placeholder),
}

impl Placeholder {
    /// The wide key of the placeholder, if it is one.
    pub(crate) fn wide(&self) -> Option<WideKey<'_>>
        ensures { option_map wide_found result ≡ wide_source (placeholder_layout self.now) self.now.source }
    {
        match self.source {
            Source::Known(Key::WideBar(bar)) => Some(WideKey::Bar(bar, self)),
            Source::Known(Key::WideText(text)) => Some(WideKey::Text(text, self)),
            _ => None,
        }
    }

    /// Whether nothing is written around the placeholder's text, if that is empty.
    pub(crate) fn is_bare(&self, colours: bool) -> bool
        ensures { result ≡ is_bare_layout colours (placeholder_layout self.now) }
    {
        self.width.unwrap_or(0) == 0 && !(colours && self.style.is_some())
    }

    /// Whether a bar in the placeholder's place has no columns, and its rest no colours.
    pub(crate) fn is_bare_bar(&self, colours: bool) -> bool
        ensures { result ≡ ((unwrap_or self.now.width bar_columns == 0) && not (colours && is_some (placeholder_layout self.now).alternative)) }
    {
        self.width.unwrap_or(BAR_COLUMNS) == 0 && !(colours && self.alternative.is_some())
    }
}

/// Appends the sequences that stand before a text in a style, and returns whether there are any. The style isn't used if colours are off.
#[inline(always)]
pub(crate) fn open_style(
    style: &Option<Style>,
    colours: bool,
    out: &mut String,
) -> Result<bool, AllocError>
    ensures bytes { OnOk result (string_bytes out.new ≡ string_bytes out.old ++ opening_of colours (unwrap_or (option_map numbers_of style.now) [])) }
    ensures some { IfOk result (λ some. some ≡ nat_lt 0 (length (opening_of colours (unwrap_or (option_map numbers_of style.now) [])))) }
{
    if !colours {
        return Ok(false);
    }
    match style {
        Some(style) => match style.open(colours, out) {
            Ok(some) => Ok(some),
            Err(_) => Err(AllocError),
        },
        None => Ok(false),
    }
}

/// What a part of a template does.
#[derive(Drop)]
pub(crate) enum Step {
    /// It writes this text: a literal of the template, its tabs expanded.
    Text(String),
    /// It writes the template's literal at this place, which has no tabs.
    Literal(usize),
    /// It ends a line.
    Break,
    /// It writes the text of its source.
    Placeholder(Placeholder),
}

/// What each part of a template does, with trackers under these keys.
pub(crate) fn steps_of<K>(
    alloc: Global,
    template: &Template,
    keys: &[(String, K)],
    tab: usize,
) -> Result<Vec<Step>, Refusal>
    ensures steps { IfOk result (λ steps.
        map (effect_of template.now) steps.items ≡ map (effect_of_part (names_of keys.now) tab) template.now) }
    ensures memory { IfErr result (λ e. e ≡ Refusal.Memory) }
{
    let mut steps = Vec::with_capacity(alloc, template.part_count())?;
    'parts: while let Some(part) = template.part(steps.len()) {
        let step = step_of_part(alloc, part, steps.len(), keys, tab)?;
        steps.push(step)?;
    }
    Ok(steps)
}

/// What the part at a place does.
fn step_of_part<K>(
    alloc: Global,
    part: Part<'_>,
    place: usize,
    keys: &[(String, K)],
    tab: usize,
) -> Result<Step, Refusal>
    ensures step { IfOk result (λ step. (parts : List TemplatePart) → slice_get parts place ≡ Some (part_of part.entry) →
        effect_of parts step ≡ effect_of_part (names_of keys.now) tab (part_of part.entry)) }
    ensures memory { IfErr result (λ e. e ≡ Refusal.Memory) }
{
    match part {
        Part::Literal(text) => {
            let literal = spelt(text);
            if !has_tab(literal) {
                return Ok(Step::Literal(place));
            }
            let mut expanded = String::new(alloc);
            push_expanded(literal, tab, &mut expanded)?;
            Ok(Step::Text(expanded))
        }
        Part::NewLine => Ok(Step::Break),
        Part::Placeholder {
            key,
            align,
            width,
            truncate,
            style,
            alternative,
        } => {
            Ok(Step::Placeholder(Placeholder {
                source: source_of(spelt(key), keys),
                align,
                width,
                truncate,
                style,
                alternative,
            }))
        }
    }
}

/// The literal text at a place of a template; empty if there is none.
#[inline(always)]
pub(crate) fn literal_at(template: &Template, place: usize) -> &str
    ensures { result.now ≡ literal_text (slice_get template.now place) }
{
    match template.part(place) {
        Some(part) => literal_of(part),
        None => "",
    }
}

/// The text of a literal part; empty for any other part.
#[inline(always)]
fn literal_of(part: Part<'_>) -> &str
    ensures { result.now ≡ literal_text (Some (part_of part.entry)) }
{
    match part {
        Part::Literal(text) => spelt(text),
        Part::NewLine => "",
        Part::Placeholder { .. } => "",
    }
}

/// The text of a part itself: its bytes are those of its characters.
#[inline(always)]
fn spelt(text: &str) -> &str
    ensures { result.now ≡ encode_utf8_all (chars text.now) }
{
    let _read = text.len();
    text
}

/// Where the text of a name comes from.
fn source_of<K>(name: &str, keys: &[(String, K)]) -> Source
    ensures { result ≡ source_of (names_of keys.now) name.now }
{
    match tracker_named(name, keys) {
        Some(place) => Source::Tracker(place),
        None => match key_named(name) {
            Some(key) => Source::Known(key),
            None => Source::Nothing,
        },
    }
}

/// The place of the first tracker with a name.
fn tracker_named<K>(name: &str, keys: &[(String, K)]) -> Option<usize>
    ensures { result ≡ position (λ entry. bytes_eq name.now (string_bytes entry.0)) keys.now }
{
    keys.iter().position(|entry| name == entry.0.as_str())
}
