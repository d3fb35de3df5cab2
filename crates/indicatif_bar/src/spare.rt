//! Memory for lines that was taken before.
ghost use Rattle.std.specs.Prelude.{◌≡◌, [], Some, None, string_bytes, MatchOption};

use indicatif_term::target::LineType;
use std::alloc::Global;
use std::marker::Model;
use std::mem::replace;

/// Memory for the next lines, so that laying them out takes none. Its content doesn't matter: `BarState::lines_in` gives the same lines
/// with any of it, and contracts don't see it. One may serve many bars, one after another.
///
/// ```
/// let mut spare = SpareLines::new(alloc);
/// let before = bar.lines_in(&mut spare, 0, 80)?;
/// spare.store(before);
/// let lines = bar.lines_in(&mut spare, 1, 80)?; // in the room of those before
/// ```
pub struct SpareLines {
    alloc: Global,
    texts: Vec<String>,
    lines: Vec<LineType>,
}

impl Drop for SpareLines {
    fn drop(self) {
        let SpareLines {
            alloc: _,
            texts: _,
            lines: _,
        } = self;
    }
}

impl Model for SpareLines {
    ghost Value = { Unit };

    ghost view = { λ _. tt };
}

impl SpareLines {
    /// Spare lines without memory yet. It takes none.
    pub fn new(alloc: Global) -> SpareLines {
        SpareLines {
            alloc,
            texts: Vec::new(alloc),
            lines: Vec::new(alloc),
        }
    }

    /// An empty list of lines, in spare memory.
    pub(crate) fn lines(&mut self) -> Vec<LineType>
        ensures { result.items ≡ [] }
    {
        empty(&mut self.lines, &mut self.texts);
        replace(&mut self.lines, Vec::new(self.alloc))
    }

    /// An empty text for one line, in spare memory.
    pub(crate) fn text(&mut self) -> String
        ensures { string_bytes result ≡ [] }
    {
        match self.texts.pop() {
            Some(mut text) => {
                text.clear();
                text
            }
            None => String::new(self.alloc),
        }
    }

    /// Keeps the memory of an unused text, if there is room for it.
    pub(crate) fn store_text(&mut self, text: String) {
        let _ = self.texts.push(text);
    }

    /// Sets a text aside where what follows has a width, which is laid out in a text of its own.
    pub(crate) fn set_aside(&mut self, width: Option<u16>, out: &mut String) -> Option<Aside>
        ensures { MatchOption result ((width ≡ None) × (string_bytes out.new ≡ string_bytes out.old))
            (λ aside. (width ≡ Some aside.width) × (string_bytes aside.text ≡ string_bytes out.old) × (string_bytes out.new ≡ [])) }
    {
        match width {
            Some(width) => Some(Aside {
                text: replace(out, self.text()),
                width,
            }),
            None => None,
        }
    }

    /// Keeps the memory of unused lines, for the next ones. If there is none to store it in, it is freed.
    #[inline(always)]
    pub fn store(&mut self, lines: Vec<LineType>) {
        empty(&mut self.lines, &mut self.texts);
        self.lines = lines;
    }
}

/// A text that waits until what follows it is laid out at this width.
#[derive(Drop)]
pub(crate) struct Aside {
    pub(crate) text: String,
    pub(crate) width: u16,
}

/// Moves the texts of lines to other texts, as far as there is room for them.
#[inline(always)]
fn empty(lines: &mut Vec<LineType>, texts: &mut Vec<String>)
    ensures { lines.new.items ≡ [] }
{
    while let Some(line) = lines.pop() {
        if let LineType::Text(text) | LineType::Bar(text) = line {
            let _ = texts.push(text);
        }
    }
}
