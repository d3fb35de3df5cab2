//! A partly read template.
ghost use Rattle.std.specs.Prelude.{◌≡◌, ℕ, List, ◌∷◌, ◌++◌, [], ◌⊎◌, ◌<◌, chars, string_bytes, take, drop, length, OnOk, IfOk, IfErr, IsCharBoundary};
ghost use Rattle.indicatif_text.specs.Inside.StoredParts.{LieIn};

use crate::refusal::TemplateState;
use crate::spans::{CharacterClass, split_first, split_span};
use crate::template::reading::{Options, with_options};
use crate::template::stored_parts::{PartKind, StoredPart};
use crate::template::{Template, TemplateError};
use std::alloc::{AllocError, Global};

/// The most parts for which memory is taken in advance.
const FIRST_PARTS: usize = 16;

/// The parts so far, their texts up to the byte `start`, and after them the literal text that comes next. Its first `fixed` bytes stay in
/// any case; the others are the literal run, which an opening brace at the end would remove.
#[derive(Drop)]
pub(super) struct Draft {
    parts: Vec<StoredPart>,
    texts: String,
    start: usize,
    fixed: usize,
    ghost parts_in: { LieIn (take start (string_bytes texts)) parts.items },
    ghost start_whole: { IsCharBoundary (string_bytes texts) start },
    ghost fixed_whole: { IsCharBoundary (drop start (string_bytes texts)) fixed },
}

impl Draft {
    ghost use Rattle.indicatif_text.specs.Template.{LineBreak, Char, SpacedBrace, Keyed, LastBrace, plain_layout, with_options, keyed, unfinished, key_ends, opening_brace, closing_brace, IsRefused};
    ghost use Rattle.indicatif_text.specs.Inside.Reading.{layout_of};
    ghost use Rattle.indicatif_text.specs.Inside.Draft.{Sketch, ReadsOn, TakesIn, sketch_of, empty_sketch, sketched_parts, fixed_sketch, closed_sketch, parted_sketch, with_part, with_run, added};

    /// A draft of which nothing is read yet, with memory for the texts of a text of `len` bytes, and for one part for every four bytes, up
    /// to `FIRST_PARTS`.
    pub(super) fn new(alloc: Global, len: usize) -> Result<Draft, AllocError>
        ensures { IfOk result (λ draft. sketch_of draft ≡ empty_sketch) }
    {
        let parts = Vec::with_capacity(alloc, (len / 4 + 1).min(FIRST_PARTS))?;
        let texts = String::with_capacity(alloc, len)?;
        Ok(Draft {
            parts,
            texts,
            start: 0,
            fixed: 0,
        })
    }

    /// Moves the literal run to the text that stays.
    fn fix_run(&mut self)
        ensures { sketch_of self.new ≡ fixed_sketch (sketch_of self.old) }
    {
        self.fixed = self.texts.len() - self.start;
    }

    /// Makes the draft's text after its parts the text of a further part.
    #[inline]
    fn close(&mut self, kind: PartKind) -> Result<(), AllocError>
        ensures { OnOk result (sketch_of self.new ≡ parted_sketch (sketch_of self.old) kind) }
    {
        let start = self.start;
        let end = self.texts.len();
        self.parts.push(StoredPart { kind, start, end })?;
        self.start = end;
        self.fixed = 0;
        Ok(())
    }

    /// Makes a part of the literal text, if there is one.
    #[inline]
    fn close_literal(&mut self) -> Result<(), AllocError>
        ensures { OnOk result (sketch_of self.new ≡ closed_sketch (sketch_of self.old)) }
    {
        if self.texts.len() == self.start {
            return Ok(());
        }
        self.close(PartKind::Literal)
    }

    /// Adds the end of a line to the draft.
    #[inline(never)]
    fn push_new_line(&mut self) -> Result<(), AllocError>
        ensures { OnOk result (sketch_of self.new ≡ with_part (sketch_of self.old) LineBreak) }
    {
        self.close_literal()?;
        self.close(PartKind::NewLine)
    }

    /// Adds literal characters to the draft.
    #[inline]
    pub(super) fn push_run(&mut self, text: &str) -> Result<(), AllocError>
        ensures { OnOk result (sketch_of self.new ≡ with_run (sketch_of self.old) (chars text.now)) }
    {
        self.texts.push_str(text)?;
        Ok(())
    }

    /// Adds a literal character to the draft.
    #[inline(never)]
    fn push_literal(&mut self, c: char) -> Result<(), AllocError>
        ensures { OnOk result (sketch_of self.new ≡ added (sketch_of self.old) (Char c)) }
    {
        self.texts.push(c)?;
        Ok(())
    }

    /// Drops the run of literal characters that was read last.
    #[inline(never)]
    fn drop_run(&mut self)
        ensures { sketch_of self.new ≡ added (sketch_of self.old) LastBrace }
    {
        self.texts.truncate(self.start + self.fixed);
    }

    /// Adds an opening brace that is literal because of a white space.
    #[inline(never)]
    fn push_spaced(&mut self, key: &str, space: char) -> Result<(), AllocError>
        ensures { OnOk result (sketch_of self.new ≡ added (sketch_of self.old) (SpacedBrace ((0x7B ∷ chars key.now) ++ space ∷ []))) }
    {
        self.push_literal('{')?;
        self.push_run(key)?;
        self.push_literal(space)?;
        self.fix_run();
        Ok(())
    }

    /// Ends the literal text and begins the text of a placeholder.
    #[inline]
    fn push_name(&mut self, key: &str) -> Result<(), AllocError>
        ensures { OnOk result (sketch_of self.new ≡ with_run (closed_sketch (sketch_of self.old)) (chars key.now)) }
    {
        self.close_literal()?;
        self.push_run(key)
    }

    /// Adds a placeholder that has no options.
    #[inline]
    pub(super) fn push_key(&mut self, key: &str) -> Result<(), AllocError>
        ensures { OnOk result (sketch_of self.new ≡ added (sketch_of self.old) (Keyed (chars key.now) plain_layout)) }
    {
        self.push_name(key)?;
        self.close(PartKind::Key)
    }

    /// Reads the options of the placeholder that was begun, and adds it. Returns the rest of the text.
    ///
    /// Refused: as the options; `Memory`.
    #[inline(never)]
    fn read_options<'a>(&mut self, text: &'a str) -> Result<&'a str, TemplateError>
        ensures { (sketch : Sketch) (key : List ℕ) → sketch_of self.old ≡ with_run (closed_sketch sketch) key
            → TakesIn (keyed key (with_options (chars text.now))) sketch (sketch_of self.new) result }
    {
        let mut options = Options::NONE;
        let left = with_options(&mut options, text)?;
        self.close(PartKind::Placeholder(options))?;
        Ok(left)
    }

    /// Adds an opening brace and these key characters, at the end of the text.
    #[inline(never)]
    fn push_unfinished(&mut self, key: &str)
        ensures { sketch_of self.new ≡ added (sketch_of self.old) (unfinished (chars key.now)) }
    {
        if key.is_empty() {
            self.drop_run();
        }
    }

    /// Reads what an opening brace begins, by the key characters after it and the text after them, and returns the rest.
    ///
    /// Refused: `Unexpected` in `MaybeOpen` if there is no key; as the options; `Memory`.
    #[inline]
    fn read_key<'a>(&mut self, key: &'a str, after: &'a str) -> Result<&'a str, TemplateError>
        ensures { TakesIn (key_ends (chars key.now) (chars after.now)) (sketch_of self.old) (sketch_of self.new) result }
    {
        let Some((end, rest)) = split_first(after) else {
            self.push_unfinished(key);
            return Ok(after);
        };
        if end.is_ascii_whitespace() {
            self.push_spaced(key, end)?;
            return Ok(rest);
        }
        if key.is_empty() {
            let state = TemplateState::MaybeOpen;
            return Err(TemplateError::Unexpected { next: end, state });
        }
        self.push_name(key)?;
        if end != '}' {
            return self.read_options(rest);
        }
        self.close(PartKind::Key)?;
        Ok(rest)
    }

    /// Reads what an opening brace begins, by the text after it, and returns the rest.
    ///
    /// Refused: `Unexpected` in `MaybeOpen` if there is no key; as the options; `Memory`.
    #[inline]
    fn read_open<'a>(&mut self, text: &'a str) -> Result<&'a str, TemplateError>
        ensures { TakesIn (opening_brace (chars text.now)) (sketch_of self.old) (sketch_of self.new) result }
    {
        let Some((first, rest)) = split_first(text) else {
            self.drop_run();
            return Ok(text);
        };
        if first == '{' {
            self.push_literal('{')?;
            return Ok(rest);
        }
        let (key, after) = split_span(text, CharacterClass::Key);
        self.read_key(key, after)
    }

    /// Reads what a closing brace begins, by the text after it, and returns the rest.
    ///
    /// Refused: `Unexpected` in `DoubleClose` if another character follows; `Memory`.
    #[inline(never)]
    fn read_close<'a>(&mut self, text: &'a str) -> Result<&'a str, TemplateError>
        ensures { TakesIn (closing_brace (chars text.now)) (sketch_of self.old) (sketch_of self.new) result }
    {
        let Some((next, rest)) = split_first(text) else {
            self.push_literal('}')?;
            return Ok(text);
        };
        if next != '}' {
            let state = TemplateState::DoubleClose;
            return Err(TemplateError::Unexpected { next, state });
        }
        self.push_literal('}')?;
        Ok(rest)
    }

    /// Reads a run of literal characters and the piece after it, and returns the rest of the text.
    ///
    /// Refused: as the grammar says for this piece; `Memory`.
    #[inline]
    pub(super) fn read<'a>(&mut self, text: &'a str) -> Result<&'a str, TemplateError>
        ensures leads { IfOk result (λ rest. ReadsOn (sketch_of self.old) (chars text.now) (sketch_of self.new) (chars rest.now)) }
        ensures refused { IfErr result (λ e. (e ≡ TemplateError.Memory) ⊎ IsRefused (chars text.now) e) }
        ensures shorter { IfOk result (λ rest. 0 < length (chars text.now) → length (chars rest.now) < length (chars text.now)) }
    {
        let (run, behind) = split_span(text, CharacterClass::Literal);
        self.push_run(run)?;
        let Some((first, after)) = split_first(behind) else {
            return Ok(behind);
        };
        if first == '{' {
            return self.read_open(after);
        }
        if first == '}' {
            return self.read_close(after);
        }
        self.push_new_line()?;
        Ok(after)
    }

    /// The template of a text that was read to its end.
    pub(super) fn finish(mut self) -> Result<Template, AllocError>
        ensures { IfOk result (λ template. template ≡ sketched_parts (sketch_of self)) }
    {
        self.close_literal()?;
        let (texts, parts) = (self.texts, self.parts);
        Ok(Template { texts, parts })
    }
}
