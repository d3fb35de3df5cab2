//! A character and its joiners, as they are read from a row.
ghost use Rattle.std.specs.Prelude.{◌≡◌, [], reverse};

use std::alloc::Global;
use std::marker::Model;

/// A character, and the joiners joined to it.
#[derive(Drop)]
pub(crate) struct Glyph {
    base: char,
    newest_first: Vec<char>,
}

impl Model for Glyph {
    ghost use Rattle.indicatif_text.specs.Columns.{Glyph};

    ghost Value = { Glyph };

    ghost use Rattle.std.specs.Prelude.{reverse};

    ghost view = { λ g. record { base = g.base; joiners = reverse g.newest_first.items } };
}

impl Glyph {
    /// The glyph of a character without joiners. Takes no memory.
    pub(crate) fn plain(alloc: Global, base: char) -> Glyph
        ensures { result ≡ record { base = base; joiners = [] } }
    {
        Glyph {
            base,
            newest_first: Vec::new(alloc),
        }
    }

    /// The glyph of a character with these joiners, the last one first.
    pub(crate) fn joined(base: char, newest_first: Vec<char>) -> Glyph
        ensures { result ≡ record { base = base; joiners = reverse newest_first.items } }
    {
        Glyph { base, newest_first }
    }

    /// The glyph's character, without its joiners.
    pub(crate) fn base(&self) -> char
        ensures { result ≡ self.now.base }
    {
        self.base
    }

    /// The glyph's joiners, the last one first.
    pub(crate) fn joiners_reversed(&self) -> &[char]
        ensures { reverse result.now ≡ self.now.joiners }
    {
        &self.newest_first
    }
}
