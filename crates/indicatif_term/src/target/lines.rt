//! The lines that bars show.
ghost use Rattle.std.specs.Prelude.{◌≡◌, ◌↔◌, IsTrue};

use std::convert::AsStr;

/// A line that a bar shows, with no line end in it.
///
/// ```
/// let line = LineType::Text(String::from_str(alloc, "fetched")?);
/// line.is_text("fetched"); // true
/// ```
#[derive(Debug, Drop)]
pub enum LineType {
    /// A line of text alone.
    Text(String),
    /// A line with a bar in it.
    Bar(String),
    /// An empty line.
    Empty,
}

impl LineType {
    ghost use Rattle.indicatif_term.specs.Lines.{line_text};

    /// Whether the line's text is `text`, whatever its kind.
    pub fn is_text(&self, text: &str) -> bool
        ensures { IsTrue result ↔ (line_text self.now ≡ text.now) }
    {
        self.as_str() == text
    }
}

/// The line's text; that of an empty line is empty.
impl AsStr for LineType {
    ghost use Rattle.indicatif_term.specs.Lines.{line_text};

    ghost text = { line_text };

    fn as_str(&self) -> &str {
        match self {
            LineType::Text(text) | LineType::Bar(text) => text,
            LineType::Empty => "",
        }
    }
}

/// The lines of one bar.
///
/// ```
/// let frame = vec![in alloc; Segment { bar: 1, lines }]?; // the lines of bar 1, and of no other
/// ```
#[derive(Debug, Drop)]
pub struct Segment {
    /// The bar's number.
    pub bar: u64,
    /// Its lines, from the top.
    pub lines: Vec<LineType>,
}
