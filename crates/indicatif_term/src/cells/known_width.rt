//! The columns of a character, remembered while it is repeated: a bar writes one many times in a row.
ghost use Rattle.std.specs.Prelude.{◌≡◌, false};
ghost use Rattle.unicode_width.specs.Width.{char_width};

use unicode_width::UnicodeWidthChar;

/// A character and its columns; none if it has no width.
#[derive(Drop)]
pub(crate) struct KnownWidth {
    of: char,
    columns: Option<usize>,
    ghost known: { columns ≡ char_width false of },
}

impl KnownWidth {
    /// The known width of a space.
    pub(crate) fn new() -> KnownWidth {
        KnownWidth {
            of: ' ',
            columns: ' '.width(),
        }
    }

    /// The columns of this character, which is then the remembered one.
    #[inline(always)]
    pub(crate) fn columns(&mut self, c: char) -> Option<usize>
        ensures { result ≡ char_width false c }
    {
        if c != self.of {
            self.columns = c.width();
            self.of = c;
        }
        self.columns
    }
}
