//! Templates: a text with placeholders, read into its parts.
//!
//! `Template`, `Part`, `Parts`, `Alignment` and `TemplateError` are here. The modules below are private:
//!
//! - `draft`: `Draft`, the parts that were read so far, and the literal text that comes next: literals, new lines, keys and placeholders
//!   are added. What does an opening or a closing brace begin?
//! - `reading`: `Options`, what stands behind a key's colon: alignment, width, style and alternative style are read at the front of a text.
//! - `stored_parts`: `StoredPart`, a part's kind, and the place where its text begins.
ghost use Rattle.std.specs.Prelude.{◌≡◌, ◌≢◌, ◌↔◌, ◌<◌, List, [], length, chars, codes, option_map, IfOk};
ghost use Rattle.std.specs.List.{slice_get};
ghost use Rattle.std.specs.Iterator.{YieldsFirstBy, item_count};
ghost use Rattle.indicatif_text.specs.declared.template.TemplateError.{TemplateError};
ghost use Rattle.indicatif_text.specs.Template.{TemplatePart, part_of, Parses, IsRefused};

use crate::refusal::{Refusal, TemplateState};
use crate::style_words::Style;
use crate::template::draft::Draft;
use crate::template::stored_parts::StoredPart;
use std::alloc::{AllocError, AllocFailed, Global};
use std::error::Error;
use std::fmt;
use std::marker::Model;

mod draft;
mod reading;
mod stored_parts;

/// The alignment of a placeholder's text in its width.
///
/// ```
/// // the placeholder of "{k:>2}" stands at the right of two columns
/// assert_eq!(align, Alignment::Right);
/// ```
#[derive(Clone, Copy, Debug, Drop, PartialEq, Eq)]
pub enum Alignment {
    /// At the left.
    Left,
    /// In the middle; an odd space stands at the right.
    Center,
    /// At the right.
    Right,
}

/// A part of a template. Its text is borrowed from the template.
///
/// ```
/// for part in template.parts() {
///     match part {
///         Part::Literal(text) => out.push_str(text)?,
///         Part::NewLine => out.push('\n')?,
///         Part::Placeholder { key, .. } => out.push_str(key)?,
///     }
/// }
/// ```
#[derive(Clone, Copy, Debug, Drop, PartialEq, Eq)]
pub enum Part<'a> {
    /// A literal text.
    Literal(&'a str),
    /// The end of a line.
    NewLine,
    /// The text of a key, laid out.
    Placeholder {
        /// The key; never empty.
        key: &'a str,
        /// The alignment of the text in its width.
        align: Alignment,
        /// The width in columns.
        width: Option<u16>,
        /// Whether a wider text is cut.
        truncate: bool,
        /// The colours of the text.
        style: Option<Style>,
        /// The colours of a bar's rest.
        alternative: Option<Style>,
    },
}

/// A text with placeholders, read into its parts. Neighbouring literal texts are one part. The rule is that of the documentation of the
/// Rust crate `indicatif` 0.18.6.
///
/// ```
/// let template = Template::parse(alloc, "{foo:5!3}")?;
/// assert_eq!(template.part_count(), 1);
/// ```
#[derive(Debug, Drop)]
pub struct Template {
    /// The texts of the parts, one after another.
    texts: String,
    parts: Vec<StoredPart>,
}

impl Model for Template {
    ghost use Rattle.std.specs.Prelude.{List, map, string_bytes};
    ghost use Rattle.indicatif_text.specs.Template.{TemplatePart};
    ghost use Rattle.indicatif_text.specs.Inside.StoredParts.{part_at, LieIn};

    ghost Value = { List TemplatePart };

    ghost view = { λ t. map (part_at (string_bytes t.texts)) t.parts.items };

    ghost invariant = { λ t. LieIn (string_bytes t.texts) t.parts.items };
}

impl Template {
    /// Reads a template.
    ///
    /// `{{` and `}}` are literal braces, and so is a `}` at the end. A `{`, any key characters and one ASCII white space are literal. Any
    /// other `{` begins a placeholder: a key of at least one character, which has no `:`, `}` or ASCII white space and doesn't begin with
    /// `{`; then a `}`, or a `:`, options and a `}`. The options are, in order: one of `<`, `^` and `>`, or none; digits, which join to the
    /// width, and `!`, which means that a longer text is cut, in any mix; a `.` and a style, or none, with a `/` and an alternative style
    /// after it, or none. A newline is its own part.
    ///
    /// A text that ends inside a placeholder is a template. A last `{` is dropped, with the literal text since the last newline,
    /// placeholder or `{` with a white space. An unfinished key is dropped alone. After the `:`, the placeholder has what was finished: a
    /// width, a style or an alternative style counts only if something ends it.
    ///
    /// One pass, with two blocks of memory: one for the texts of all parts, and one for the parts.
    ///
    /// Refused, at the first character in reading order: `Unexpected` if the character fits no case, with its state: `MaybeOpen` for a `}`
    /// or a `:` right after a `{`, `DoubleClose` for another character after a single `}`, `Align` right after the `:` of a placeholder,
    /// `Width` later in its options before a `.`; `WidthTooLarge` at the end of a width past 65,535. `Memory`, never for an empty text:
    /// nothing is made.
    ///
    /// ```
    /// assert_eq!(Template::parse(alloc, "{{x}}")?.part_count(), 1);
    /// assert_eq!(Template::parse(alloc, "{k:65536}").err(), Some(TemplateError::WidthTooLarge));
    /// ```
    pub fn parse(alloc: Global, text: &str) -> Result<Template, TemplateError>
        ensures parses { (parts : List TemplatePart) → result ≢ Err TemplateError.Memory →
            ((result ≡ Ok parts) ↔ Parses (chars text.now) parts) }
        ensures refused { (error : TemplateError) → result ≢ Err TemplateError.Memory →
            ((result ≡ Err error) ↔ IsRefused (chars text.now) error) }
        ensures memory { result ≡ Err TemplateError.Memory → 0 < length text.now }
    {
        if text.is_empty() {
            return Ok(Template::empty(alloc));
        }
        let mut draft = Draft::new(alloc, text.len())?;
        let mut rest = text;
        while !rest.is_empty() {
            rest = draft.read(rest)?;
        }
        let template = draft.finish()?;
        Ok(template)
    }

    /// A template without parts. Takes no memory.
    fn empty(alloc: Global) -> Template
        ensures { result ≡ [] }
    {
        Template {
            texts: String::new(alloc),
            parts: Vec::new(alloc),
        }
    }

    /// The template `{wide_bar} {pos}/{len}`, without reading it.
    ///
    /// Refused: want of memory.
    ///
    /// ```
    /// assert_eq!(Template::of_bar(alloc)?.part_count(), 5);
    /// ```
    pub fn of_bar(alloc: Global) -> Result<Template, AllocError>
        ensures { IfOk result (λ template. Parses (codes "{wide_bar} {pos}/{len}") template) }
    {
        let mut draft = Draft::new(alloc, 16)?;
        draft.push_key("wide_bar")?;
        draft.push_run(" ")?;
        draft.push_key("pos")?;
        draft.push_run("/")?;
        draft.push_key("len")?;
        draft.finish()
    }

    /// The template `{spinner} {msg}`, without reading it.
    ///
    /// Refused: want of memory.
    ///
    /// ```
    /// assert_eq!(Template::of_spinner(alloc)?.part_count(), 3);
    /// ```
    pub fn of_spinner(alloc: Global) -> Result<Template, AllocError>
        ensures { IfOk result (λ template. Parses (codes "{spinner} {msg}") template) }
    {
        let mut draft = Draft::new(alloc, 11)?;
        draft.push_key("spinner")?;
        draft.push_run(" ")?;
        draft.push_key("msg")?;
        draft.finish()
    }

    /// How many parts the template has.
    ///
    /// ```
    /// let lines = Template::parse(alloc, "a\nb")?;
    /// assert_eq!(lines.part_count(), 3);
    /// ```
    pub fn part_count(&self) -> usize
        ensures { result ≡ length self.now }
    {
        self.parts.len()
    }

    /// The part of the template at a place, counted from 0.
    ///
    /// ```
    /// let lines = Template::parse(alloc, "a\nb")?;
    /// assert_eq!(lines.part(2), Some(Part::Literal("b")));
    /// ```
    #[inline(always)]
    pub fn part(&self, place: usize) -> Option<Part<'_>>
        ensures { option_map part_of result ≡ slice_get self.now place }
    {
        match self.parts.get(place) {
            Some(stored) => Some(stored.part(self.texts.as_str())),
            None => None,
        }
    }

    /// The parts of the template, in order.
    ///
    /// ```
    /// let lines = Template::parse(alloc, "a\nb")?;
    /// assert_eq!(lines.parts().next(), Some(Part::Literal("a")));
    /// ```
    pub fn parts(&self) -> Parts<'_>
        ensures { result ≡ self.now }
    {
        Parts {
            texts: self.texts.as_str(),
            parts: self.parts.as_slice(),
        }
    }
}

/// Parts of a template, in order.
///
/// ```
/// let lines = Template::parse(alloc, "a\nb")?;
/// assert_eq!(lines.parts().count(), 3);
/// ```
#[derive(Drop)]
pub struct Parts<'a> {
    texts: &'a str,
    parts: &'a [StoredPart],
}

impl<'a> Model for Parts<'a> {
    ghost use Rattle.std.specs.Prelude.{List, map};
    ghost use Rattle.indicatif_text.specs.Template.{TemplatePart};
    ghost use Rattle.indicatif_text.specs.Inside.StoredParts.{part_at, LieIn};

    ghost Value = { List TemplatePart };

    ghost view = { λ p. map (part_at p.texts.now) p.parts.now };

    ghost invariant = { λ p. LieIn p.texts.now p.parts.now };
}

impl<'a> Iterator for Parts<'a> {
    type Item = Part<'a>;

    ghost next_gives = { YieldsFirstBy part_of (λ left. left) };

    ghost remaining = { item_count (λ left. left) };

    fn next(&mut self) -> Option<Part<'a>> {
        let (stored, parts) = self.parts.split_first()?;
        self.parts = parts;
        Some(stored.part(self.texts))
    }
}

/// Why a text isn't a template.
///
/// ```
/// let state = TemplateState::DoubleClose;
/// let error = TemplateError::Unexpected { next: 'x', state };
/// let text = "TemplateError: unexpected character 'x' in state DoubleClose";
/// assert_eq!(error.to_string(alloc)?.as_str(), text);
/// ```
#[derive(Clone, Copy, Debug, Drop, PartialEq, Eq)]
pub enum TemplateError {
    /// A character that fits no case of the grammar.
    Unexpected {
        /// The character.
        next: char,
        /// Where it stood.
        state: TemplateState,
    },
    /// A width past 65,535.
    WidthTooLarge,
    /// Memory was refused.
    Memory,
}

/// `TemplateError: `, and what was refused: `unexpected character 'x' in state DoubleClose`, `width too large` or `out of memory`. Format
/// options, such as a width in `{:>12}`, are ignored.
impl fmt::Display for TemplateError {
    ghost use Rattle.indicatif_text.specs.Template.{error_text};

    ghost output = { error_text };

    fn fmt<W: fmt::Write>(&self, f: &mut fmt::Formatter<W>) -> fmt::Result {
        match self {
            TemplateError::Unexpected { next, state } => {
                let state = state.name();
                write!(
                    f,
                    "TemplateError: unexpected character {next:?} in state {state}"
                )
            }
            TemplateError::WidthTooLarge => f.write_str("TemplateError: width too large"),
            TemplateError::Memory => f.write_str("TemplateError: out of memory"),
        }
    }
}

impl Error for TemplateError {}

/// Memory that was refused is `TemplateError::Memory`.
impl From<AllocError> for TemplateError {
    ghost use Rattle.indicatif_text.specs.declared.template.TemplateError.TheVariants.{Memory};

    ghost from_gives = { λ _ e. e ≡ Memory };

    fn from(_e: AllocError) -> TemplateError {
        TemplateError::Memory
    }
}

/// Memory that was refused for a value is `TemplateError::Memory`; the value is dropped.
impl<T: Drop> From<AllocFailed<T>> for TemplateError {
    ghost use Rattle.indicatif_text.specs.declared.template.TemplateError.TheVariants.{Memory};

    ghost from_gives = { λ _ e. e ≡ Memory };

    fn from(_e: AllocFailed<T>) -> TemplateError {
        TemplateError::Memory
    }
}

/// A template's error as a refusal: `Unexpected` is `Template`, the others have the same names.
impl From<TemplateError> for Refusal {
    ghost use Rattle.indicatif_text.specs.Template.{refusal_of};

    ghost from_gives = { λ e r. r ≡ refusal_of e };

    fn from(error: TemplateError) -> Refusal {
        match error {
            TemplateError::Unexpected { next, state } => Refusal::Template { next, state },
            TemplateError::WidthTooLarge => Refusal::WidthTooLarge,
            TemplateError::Memory => Refusal::Memory,
        }
    }
}
