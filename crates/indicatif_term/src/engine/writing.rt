//! A drawing, written from its first byte to its last.
ghost use Rattle.std.specs.Prelude.{◌≡◌, ◌<◌, ◌≤◌, ◌+◌, ◌-◌, [], ◌∷◌, ◌++◌, replicate, ℕ, List, if◌then◌else◌};
ghost use Rattle.indicatif_term.specs.Calls.{TermView, Writes, UP, DOWN, move_bytes, clear_bytes, anew_bytes};
ghost use Rattle.indicatif_term.specs.Inside.MoveBytes.{rows_down, reach_bytes, back_bytes, next_row, Puts, Sends};
ghost use Rattle.indicatif_term.specs.Inside.Writings.{CanWrite, is_inside, is_at_end, lower_lines, begin_bytes, inside_bytes, lower_bytes, writing_bytes};
ghost use Rattle.indicatif_term.specs.Standing.{texts};
ghost use Rattle.indicatif_term.specs.Inside.Plans.{logged_text};

use crate::engine::changing::{put_among, put_over};
use crate::engine::counts::Fresh;
use crate::engine::logged::Logged;
use crate::engine::remembered::StandingLine;
use crate::target::term_like::TermLike;
use std::io;
use std::io::ErrorKind;

/// What comes of calls of a terminal: of a failure the kind alone.
pub type Sent = Result<(), ErrorKind>;

/// What a drawing writes: a text that stays, and lines.
#[derive(Clone, Copy)]
pub struct Drawing<'a> {
    pub logged: Logged<'a>,
    pub lines: &'a [StandingLine],
}

/// Which of its lines come in the place of others; the rest come below all these.
#[derive(Clone, Copy)]
pub enum Manner {
    /// As many as the number says, from the front, in the rows above those that are taken back. Of these lines only what changes is written.
    Among(usize),
    /// All, whole, over this number of rows, of which none is emptied.
    Over(usize),
}

/// How a drawing is written.
#[derive(Clone, Copy)]
pub struct Writing {
    /// Whether it begins on a new row, which it empties.
    pub anew: bool,
    /// The rows that it is the first to reach, and empties.
    pub fresh: Fresh,
    /// Whether the cursor stands on the row after the last one that may change; else it is at the end of that.
    pub below: bool,
    /// The last rows, which are taken back.
    pub taken: usize,
    pub manner: Manner,
    /// The columns of the terminal.
    pub width: usize,
    /// Whether it ends at the front of the row after all these.
    pub ends_below: bool,
    /// How many spaces it writes last, behind its last line.
    pub fill: usize,
}

impl Writing {
    /// Whether the cursor is at the end of a row before the text and the lower lines are written.
    fn is_at_end(&self) -> bool
        ensures { result ≡ is_at_end self.now }
    {
        self.manner.is_inside() || !self.below && self.taken == 0
    }
}

impl Manner {
    /// Whether any line comes in the place of others.
    fn is_inside(self) -> bool
        ensures { result ≡ is_inside self }
    {
        match self {
            Manner::Among(count) => count > 0,
            Manner::Over(_) => true,
        }
    }

    /// The lines below all others.
    fn lower(self, lines: &[StandingLine]) -> &[StandingLine]
        requires { CanWrite self lines.now }
        ensures { result.now ≡ lower_lines self lines.now }
    {
        match self {
            Manner::Among(count) => &lines[count..],
            Manner::Over(_) => &[],
        }
    }
}

/// Writes a drawing: rows are emptied, lines written in the place of others, and below them a text and the rest of the lines; then it
/// goes below them, if asked, or fills the row.
pub fn write<T: TermLike>(term: &mut T, writing: &Writing, drawing: &Drawing<'_>) -> Sent
    requires { CanWrite writing.now.manner drawing.now.lines.now }
    ensures { Sends (writing_bytes writing.now (logged_text drawing.now.logged) drawing.now.lines.now) (T.view term.old) (T.view term.new) result }
{
    begin(term, writing)?;
    let lines = drawing.lines;
    match writing.manner {
        Manner::Among(count) => put_among(term, &lines[..count], writing.taken, writing.width)?,
        Manner::Over(rows) => put_over(term, rows, lines, writing.width)?,
    }
    put_rest(term, writing, drawing)
}

/// Begins on a new row, if asked, empties the rows that are reached for the first time, and takes back rows.
fn begin<T: TermLike>(term: &mut T, writing: &Writing) -> Sent
    ensures { Sends (begin_bytes writing.now) (T.view term.old) (T.view term.new) result }
{
    begin_anew(term, writing.anew)?;
    reach(term, writing.fresh)?;
    take_back(term, writing.below, writing.taken)
}

/// Begins on a new row, which it empties, if asked: whatever the terminal was about to read is over then.
fn begin_anew<T: TermLike>(term: &mut T, anew: bool) -> Sent
    ensures { Sends (if anew then anew_bytes else []) (T.view term.old) (T.view term.new) result }
{
    if !anew {
        return Ok(());
    }
    empty_next(term)
}

/// Writes a text and the lines below all others; then it goes below them, if asked, or fills the row.
fn put_rest<T: TermLike>(term: &mut T, writing: &Writing, drawing: &Drawing<'_>) -> Sent
    requires { CanWrite writing.now.manner drawing.now.lines.now }
    ensures { Sends (lower_bytes writing.now (logged_text drawing.now.logged) drawing.now.lines.now) (T.view term.old) (T.view term.new) result }
{
    let mut ended = writing.is_at_end();
    put_text(term, &mut ended, drawing.logged)?;
    put_lines(term, &mut ended, writing.manner.lower(drawing.lines))?;
    new_row(term, writing.ends_below & ended)?;
    put_spaces(term, writing.fill)?;
    told(term.flush())
}

/// Writes each line of the text that is logged, if any is, on a row of its own.
fn put_text<T: TermLike>(term: &mut T, ended: &mut bool, logged: Logged<'_>) -> Sent
    ensures { Puts ended.old (logged_text logged.entry) ended.new (T.view term.old) (T.view term.new) result }
{
    let text = match logged {
        Logged::Nothing => return Ok(()),
        Logged::Row(text) => return put(term, ended, text),
        Logged::Lines(text) => text,
    };
    for line in text.lines() {
        put(term, ended, line)?;
    }
    Ok(())
}

/// Writes each of these lines on a row of its own.
fn put_lines<T: TermLike>(term: &mut T, ended: &mut bool, lines: &[StandingLine]) -> Sent
    ensures { Puts ended.old (texts lines.now) ended.new (T.view term.old) (T.view term.new) result }
{
    for line in lines {
        put(term, ended, &line.text)?;
    }
    Ok(())
}

/// Writes a line on a row of its own: the next one, if the cursor is at the end of one. It is at the end of this one then.
fn put<T: TermLike>(term: &mut T, ended: &mut bool, line: &str) -> Sent
    ensures { Puts ended.old (line.now ∷ []) ended.new (T.view term.old) (T.view term.new) result }
{
    new_row(term, *ended)?;
    *ended = true;
    put_str(term, line)
}

/// Writes a text by a call of the terminal.
#[inline(always)]
pub fn put_str<T: TermLike>(term: &mut T, text: &str) -> Sent
    ensures { Sends text.now (T.view term.old) (T.view term.new) result }
{
    told(term.write_str(text))
}

/// What comes of a call of the terminal, without the error, which is large to hand up.
pub fn told(done: io::Result<()>) -> Sent
    ensures { (bytes : List ℕ) (before after : TermView) → Writes bytes before after done → Sends bytes before after result }
{
    match done {
        Ok(()) => Ok(()),
        Err(e) => Err(e.kind()),
    }
}

/// Goes to the front of the next row, if asked.
fn new_row<T: TermLike>(term: &mut T, asked: bool) -> Sent
    ensures { Sends (if asked then next_row else []) (T.view term.old) (T.view term.new) result }
{
    if asked {
        told(term.write_line(""))
    } else {
        Ok(())
    }
}

/// Empties rows that no drawing has reached, and comes back to the cursor's row; none is no call.
fn reach<T: TermLike>(term: &mut T, fresh: Fresh) -> Sent
    ensures { Sends (reach_bytes fresh.down fresh.rows) (T.view term.old) (T.view term.new) result }
{
    if fresh.rows == 0 {
        return Ok(());
    }
    go_down(term, fresh.down)?;
    empty_below(term, fresh.rows)?;
    go_up(term, fresh.down + fresh.rows)
}

/// Takes back rows, of which the last is the cursor's or the one above: empties them, and goes back to the first; none is no call.
fn take_back<T: TermLike>(term: &mut T, below: bool, rows: usize) -> Sent
    ensures { Sends (back_bytes below rows) (T.view term.old) (T.view term.new) result }
{
    if rows == 0 {
        return Ok(());
    }
    go_up(term, rows_to_first(below, rows))?;
    empty_down(term, rows - 1)?;
    go_up(term, rows - 1)
}

/// How far the first of some rows is above the cursor, which stands on the last of them or below it.
fn rows_to_first(below: bool, rows: usize) -> usize
    requires { 0 < rows }
    ensures { result ≡ (if below then rows else (rows - 1)) }
{
    if below { rows } else { rows - 1 }
}

/// Goes up `rows` rows by a call of the terminal; none is no call.
pub fn go_up<T: TermLike>(term: &mut T, rows: usize) -> Sent
    ensures { Sends (move_bytes UP rows) (T.view term.old) (T.view term.new) result }
{
    if rows == 0 {
        return Ok(());
    }
    told(term.move_cursor_up(rows))
}

/// Goes down `rows` rows by a call of the terminal; none is no call.
#[inline(always)]
pub fn go_down<T: TermLike>(term: &mut T, rows: usize) -> Sent
    ensures { Sends (move_bytes DOWN rows) (T.view term.old) (T.view term.new) result }
{
    if rows == 0 {
        return Ok(());
    }
    told(term.move_cursor_down(rows))
}

/// Empties the cursor's row and `more` below it.
pub fn empty_down<T: TermLike>(term: &mut T, more: usize) -> Sent
    ensures { Sends (clear_bytes ++ rows_down more) (T.view term.old) (T.view term.new) result }
{
    told(term.clear_line())?;
    empty_below(term, more)
}

/// Empties rows below the cursor's, and stays on the last of them.
fn empty_below<T: TermLike>(term: &mut T, rows: usize) -> Sent
    ensures { Sends (rows_down rows) (T.view term.old) (T.view term.new) result }
{
    for _ in 0..rows {
        empty_next(term)?;
    }
    Ok(())
}

/// Goes to the next row and empties it.
fn empty_next<T: TermLike>(term: &mut T) -> Sent
    ensures { Sends (next_row ++ clear_bytes) (T.view term.old) (T.view term.new) result }
{
    told(term.write_line(""))?;
    told(term.clear_line())
}

/// Writes `count` spaces, many by one call of the terminal.
pub fn put_spaces<T: TermLike>(term: &mut T, count: usize) -> Sent
    ensures { Sends (replicate count 0x20) (T.view term.old) (T.view term.new) result }
{
    let mut left = count;
    while left > 0 {
        let n = left.min(80);
        put_str(term, spaces(n))?;
        left -= n;
    }
    Ok(())
}

/// A text of spaces, cut from a run that takes no memory.
fn spaces(count: usize) -> &'static str
    requires { count ≤ 80 }
    ensures { result.now ≡ replicate count 0x20 }
{
    let run = "                                                                                ";
    &run[..count]
}
