//! Text as a terminal shows it: colour sequences, columns and rows.
ghost use Rattle.std.specs.Prelude.{◌≡◌, ◌+◌, ◌*◌, ◌≤◌, ◌<◌, ◌⊎◌, ◌↔◌, chars, length, IsTrue, IfSome, IfOk, IfErr};
ghost use Rattle.indicatif_text.specs.Columns.{width_of, columns_of, rows_of, last_columns, has_wide};
ghost use Rattle.indicatif_text.specs.Pieces.{pieces_of_text};
ghost use Rattle.indicatif_text.specs.Inside.Runs.{EndsAt};

pub use crate::moment::{Clock, Moment, StepClock};
pub use crate::pieces::{Piece, Pieces, colour_len, is_parameter, is_parameter_byte};
pub use crate::range::write_ansi_range;
pub use crate::refusal::{Drawn, Refusal, TemplateState};
use crate::runs::{LastWidth, WidthRun, WidthRuns};
pub use crate::style_words::Style;
use unicode_width::UnicodeWidthChar;

/// The columns of one character by Unicode's East Asian Width (UAX #11): 0 to 3; 0 for one without a width, such as a control character.
///
/// ```
/// assert_eq!(width('国'), 2);
/// assert_eq!(width('\n'), 0);
/// ```
pub fn width(c: char) -> usize
    ensures { result ≡ width_of c }
{
    c.width().unwrap_or(0)
}

/// The pieces of a text: its colour sequences (ESC `[`, digits and semicolons, `m`), and the longest runs between them.
///
/// They come in order; each is a slice of the text, and joined they are the text. Takes no memory.
///
/// ```
/// let mut left = pieces("a\u{1b}[1mb");
/// assert_eq!(left.next(), Some(Piece { text: "a", colour: false }));
/// assert_eq!(left.next(), Some(Piece { text: "\u{1b}[1m", colour: true }));
/// assert_eq!(left.next(), Some(Piece { text: "b", colour: false }));
/// assert_eq!(left.next(), None);
/// ```
pub fn pieces(text: &str) -> Pieces<'_>
    ensures { result ≡ pieces_of_text (chars text.now) }
{
    Pieces::of(text)
}

/// The columns of a text: the sum of its characters' widths outside colour sequences.
///
/// Widths are those of Unicode's East Asian Width (UAX #11), character by character. One pass; takes no memory.
///
/// ```
/// assert_eq!(columns("\u{1b}[31mred\u{1b}[0m"), 3);
/// ```
pub fn columns(text: &str) -> usize
    ensures { result ≡ columns_of (chars text.now) }
{
    let mut rest = WidthRuns::of(text);
    let mut last = LastWidth::new();
    let mut columns: usize = 0;
    'rest: while let Some(run) = rest.next_run(&mut last) {
        columns += run.columns * run.count;
    }
    columns
}

/// How many rows a line takes on a terminal, and how many columns of the last row.
///
/// ```
/// let measured = Metrics { height: 3, last_line_width: 1 };
/// assert_eq!(wrapped("123456789国123456789", 10), Ok(measured));
/// ```
#[derive(Clone, Copy, Debug, Drop, PartialEq, Eq)]
pub struct Metrics {
    /// Rows; at least 1 if `wrapped` gives it.
    pub height: usize,
    /// Columns of the last row.
    pub last_line_width: usize,
}

/// How many rows `line` takes on a terminal of `width` columns, and how many columns of the last row.
///
/// Colour sequences (ESC `[`, digits and semicolons, `m`) take no columns. A zero-width character (a combining mark, a joiner) takes none
/// either, and joins the one before it. Widths are those of Unicode's East Asian Width (UAX #11), character by character. One pass; takes
/// no memory.
///
/// Refused: `NoColumns` if `width` is 0, `TooWide` if a visible character is wider than `width`.
///
/// ```
/// let line = "123456789国123456789";
/// assert_eq!(wrapped(line, 10), Ok(Metrics { height: 3, last_line_width: 1 }));
/// assert_eq!(wrapped(line, 1), Err(Refusal::TooWide));
/// assert_eq!(wrapped(line, 0), Err(Refusal::NoColumns));
/// ```
pub fn wrapped(line: &str, width: usize) -> Result<Metrics, Refusal>
    ensures height { IfOk result (λ m. m.height ≡ length (rows_of width (chars line.now))) }
    ensures last { IfOk result (λ m. m.last_line_width ≡ last_columns width (chars line.now)) }
    ensures no_columns { (result ≡ Err Refusal.NoColumns) ↔ (width ≡ 0) }
    ensures too_wide { (result ≡ Err Refusal.TooWide)
        ↔ ((0 < width) × IsTrue (has_wide width (chars line.now))) }
    ensures no_other { IfErr result (λ e. (e ≡ Refusal.NoColumns) ⊎ (e ≡ Refusal.TooWide)) }
{
    if width == 0 {
        return Err(Refusal::NoColumns);
    }
    match measured(line, width) {
        Some(metrics) => Ok(metrics),
        None => Err(Refusal::TooWide),
    }
}

/// The rows of a line; none if a character is wider than a row.
fn measured(line: &str, width: usize) -> Option<Metrics>
    requires { 0 < width }
    ensures none { (result ≡ None) ↔ IsTrue (has_wide width (chars line.now)) }
    ensures height { IfSome result (λ m. m.height ≡ length (rows_of width (chars line.now))) }
    ensures last { IfSome result (λ m. m.last_line_width ≡ last_columns width (chars line.now)) }
{
    let mut height: usize = 1;
    let mut column: usize = 0;
    let mut last = LastWidth::new();
    let mut rest = WidthRuns::of(line);
    'rest: while let Some(run) = rest.next_run(&mut last) {
        if run.columns > width {
            return None;
        }
        let (rows, place) = RowSoFar { width, column }.after(run);
        height += rows;
        column = place;
    }
    Some(Metrics {
        height,
        last_line_width: column,
    })
}

/// How many characters of `columns` columns fit in a room.
#[inline(always)]
fn fitting(room: usize, columns: usize) -> usize
    requires { 0 < columns }
    ensures fits { columns * result ≤ room }
    ensures full { room < columns * result + columns }
{
    match columns {
        1 => room,
        2 => room / 2,
        _ => room / columns,
    }
}

/// A row of this many columns, and how many of them are taken.
#[derive(Clone, Copy, Drop)]
struct RowSoFar {
    width: usize,
    column: usize,
}

impl RowSoFar {
    /// How many rows further on a terminal, and at which column, a run ends.
    #[inline(always)]
    fn after(self, run: WidthRun) -> (usize, usize)
        requires fits { run.columns ≤ self.width }
        requires within { self.column ≤ self.width }
        ensures ends { EndsAt self.width self.column run.columns run.count result.0 result.1 }
        ensures within { result.1 ≤ self.width }
        ensures few { result.0 ≤ run.count }
    {
        if run.columns == 0 {
            return (0, self.column);
        }
        let first = fitting(self.width - self.column, run.columns);
        if run.count <= first {
            return (0, self.column + run.columns * run.count);
        }
        let over = run.count - first - 1;
        let each = fitting(self.width, run.columns);
        (1 + over / each, run.columns * (over % each + 1))
    }
}
