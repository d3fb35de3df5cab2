//! The parts of a template as they are stored: their texts are one text, and each part has the place of its own.
ghost use Rattle.std.specs.Prelude.{◌≡◌};
ghost use Rattle.indicatif_text.specs.Template.{part_of};
ghost use Rattle.indicatif_text.specs.Inside.StoredParts.{LiesIn, part_at};

use crate::template::reading::Options;
use crate::template::{Alignment, Part};

/// A part of a template, except its text.
#[derive(Clone, Copy, Debug, Drop)]
pub(super) enum PartKind {
    /// A literal text.
    Literal,
    /// The end of a line.
    NewLine,
    /// A key without options.
    Key,
    /// The text of a key, laid out.
    Placeholder(Options),
}

/// A part of a template: its kind, and the byte at which its text begins. That of a newline is empty.
#[derive(Clone, Copy, Debug, Drop)]
pub(super) struct StoredPart {
    pub kind: PartKind,
    pub start: usize,
    pub end: usize,
}

impl StoredPart {
    /// The part, with its text from these texts.
    #[tactic(auto, unfolding(crate::specs::Template::part_of))]
    #[inline(always)]
    pub(super) fn part<'a>(&self, texts: &'a str) -> Part<'a>
        requires { LiesIn texts.now self.now }
        ensures { part_of result ≡ part_at texts.now self.now }
    {
        let text = &texts[self.start..self.end];
        match self.kind {
            PartKind::Literal => Part::Literal(text),
            PartKind::NewLine => Part::NewLine,
            PartKind::Key => Part::Placeholder {
                key: text,
                align: Alignment::Left,
                width: None,
                truncate: false,
                style: None,
                alternative: None,
            },
            PartKind::Placeholder(options) => Part::Placeholder {
                key: text,
                align: options.align,
                width: options.width,
                truncate: options.truncate,
                style: options.style,
                alternative: options.alternative,
            },
        }
    }
}
