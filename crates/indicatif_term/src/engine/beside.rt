//! The lines that stand, as a drawing finds them: beside its own, above them, and the room that they leave; and new lines in their place.
ghost use Rattle.std.specs.Prelude.{IfErr, IfOk, IfSome, IsTrue, List, [], get_or, length, min, option_map, string_bytes, ℕ, ◌+◌, ◌-◌, ◌<◌, ◌^◌, ◌∷◌, ◌≡◌, ◌⊎◌};
ghost use Rattle.indicatif_term.specs.Counts.{line_count, line_counts};
ghost use Rattle.indicatif_term.specs.Inside.Owned.{blank_count};
ghost use Rattle.indicatif_term.specs.Inside.Layouts.{AreBlank, IsFrameLaid};
ghost use Rattle.indicatif_term.specs.Inside.Changing.{PlacedLine, placed_height};
ghost use Rattle.indicatif_term.specs.Inside.Fills.{last_of};
ghost use Rattle.indicatif_term.specs.Inside.Places.{IsWithin};
ghost use Rattle.indicatif_term.specs.Standing.{AreLines, placed, texts};
ghost use Rattle.indicatif_term.specs.declared.target.lines.Segment.{Segment};
ghost use Rattle.indicatif_term.specs.Inside.Renewed.{FitsIn, AreFitting, AreInPlace, AreOver, renewed};

use crate::engine::comparing::{Step, Turn};
use crate::engine::layout::Laid;
use crate::engine::remembered::StandingLine;
use crate::engine::spare::Spare;
use indicatif_text::columns::Refusal;
use std::mem::replace;

/// The lines that stand where a frame is to be drawn, of which the first `blanks` are blank ones.
#[derive(Clone, Copy)]
pub struct Beside<'a> {
    pub lines: &'a [StandingLine],
    pub blanks: usize,
    /// The lines that are remembered there, also where none keeps its rows.
    pub known: &'a [StandingLine],
}

impl<'a> Beside<'a> {
    /// No line stands there.
    pub fn nothing() -> Beside<'a>
        ensures lines { result.lines.now ≡ [] }
        ensures none { result.blanks ≡ 0 }
        ensures known { result.known.now ≡ [] }
    {
        Beside {
            lines: &[],
            blanks: 0,
            known: &[],
        }
    }

    /// These lines, if the first `blanks` are blank ones; else nothing. None keeps its rows in a drawing that writes each line as a whole.
    pub fn of(lines: &'a [StandingLine], blanks: usize, whole: bool) -> Beside<'a>
        ensures lines { (result.lines.now ≡ []) ⊎ (result.lines.now ≡ lines.entry.now) }
        ensures blank { AreBlank result.blanks result.lines.now }
        ensures known { (result.known.now ≡ []) ⊎ (result.known.now ≡ lines.entry.now) }
        ensures whole { IsTrue whole → result.lines.now ≡ [] }
    {
        if whole {
            return Beside {
                known: lines,
                ..Beside::nothing()
            };
        }
        if !are_blank(lines, blanks) {
            return Beside::nothing();
        }
        Beside {
            lines,
            blanks,
            known: lines,
        }
    }
}

/// Whether the first `blanks` lines are blank.
fn are_blank(lines: &[StandingLine], blanks: usize) -> bool
    ensures { IsTrue result → AreBlank blanks lines.now }
{
    if lines.len() < blanks {
        return false;
    }
    for at in 0..blanks {
        if !is_blank(&lines[at]) {
            return false;
        }
    }
    true
}

/// Whether a line is a blank one.
fn is_blank(line: &StandingLine) -> bool
    ensures { IsTrue result → (string_bytes line.now.text ≡ []) × (line_count line.now ≡ blank_count) }
{
    line.bar == 0 && line.rows == 1 && line.text.is_empty()
}

/// How many lines of a drawing stand in rows that were there before, and how many of these rows they leave.
#[derive(Clone, Copy, Drop)]
pub struct Room {
    pub lines: usize,
    pub free: usize,
}

impl Room {
    /// This room, if any line stands in it.
    fn with_some(self) -> Option<Room>
        ensures { IfSome result (λ room. (room ≡ self) × (0 < self.lines)) }
    {
        if self.lines == 0 { None } else { Some(self) }
    }
}

/// The room of the lines from the front that take at most `rows` rows, if any does; the others stand below these rows. All take `height`.
pub fn lines_within(lines: &[StandingLine], height: usize, rows: usize) -> Option<Room>
    requires { height ≡ placed_height (placed lines.now) }
    ensures { IfSome result (λ room. IsWithin lines.now rows room) }
{
    if height <= rows {
        let room = Room {
            lines: lines.len(),
            free: rows - height,
        };
        return room.with_some();
    }
    let mut room = Room {
        lines: 0,
        free: rows,
    };
    for at in 0..lines.len() {
        let line = &lines[at];
        if line.rows > room.free {
            return room.with_some();
        }
        room = Room {
            lines: at + 1,
            free: room.free - line.rows,
        };
    }
    room.with_some()
}

/// How many rows lines that stand or are to stand take together, or 2^64 - 1 where there are more.
pub fn height_of(lines: &[StandingLine]) -> usize
    ensures { result ≡ min (placed_height (placed lines.now)) (2 ^ 64 - 1) }
{
    let mut rows = 0_usize;
    for line in lines {
        rows = rows.saturating_add(line.rows);
    }
    rows
}

/// How many columns the last of some lines takes of its last row, if there is a line.
pub fn last_column(lines: &[StandingLine]) -> Option<usize>
    ensures { result ≡ option_map (λ (p : PlacedLine). p.last) (last_of (placed lines.now)) }
{
    let count = lines.len();
    if count == 0 {
        return None;
    }
    Some(lines[count - 1].last)
}

/// A frame that was laid out beside nothing, below `blanks` blank lines.
pub fn below_blanks(spare: &mut Spare, laid: &mut Laid, blanks: usize) -> Result<(), Refusal>
    ensures memory { IfErr result (λ e. (e ≡ Refusal.Memory) × (0 < blanks)) }
    ensures blanks { IfOk result (λ _. laid.new.blanks ≡ blanks) }
    ensures laid { (w h pass : ℕ) (on : List StandingLine) (frame : List Segment) → IsFrameLaid w h pass [] frame laid.old → laid.old.blanks ≡ 0 →
        IfOk result (λ _. IsFrameLaid w h pass on frame laid.new) }
{
    for _ in 0..blanks {
        laid.more.push(StandingLine {
            bar: 0,
            text: spare.no_text(),
            before: spare.no_text(),
            rows: 1,
            last: 0,
            narrow: true,
            step: Step::Whole,
        })?;
    }
    laid.more.rotate_right(blanks);
    laid.blanks = blanks;
    Ok(())
}

/// A line that comes in the place of one that stands: the index of that, its text, and what becomes of the one that stands.
#[derive(Drop)]
pub struct NewLine {
    pub at: usize,
    pub text: String,
    pub turn: Turn,
}

/// Puts new lines in the place of those that stand, the room of which becomes spare; the others stay.
pub fn put_new(lines: &mut [StandingLine], spare: &mut Spare, changed: &mut Vec<NewLine>)
    requires within { (w : ℕ) × AreFitting w lines.old (length lines.old) changed.old.items }
    ensures texts { texts lines.new ≡ renewed (texts lines.old) changed.old.items }
    ensures counts { line_counts lines.new ≡ line_counts lines.old }
    ensures in_place { (w : ℕ) → AreLines w lines.old → AreFitting w lines.old (length lines.old) changed.old.items →
        AreInPlace w lines.old lines.new }
    ensures over { (w : ℕ) → AreFitting w lines.old (length lines.old) changed.old.items → AreOver w lines.old lines.new }
{
    leave_all(lines);
    while let Some(line) = changed.pop() {
        put_line(lines, spare, line);
    }
}

/// Marks all lines that stand as lines that stay.
fn leave_all(lines: &mut [StandingLine])
    ensures texts { texts lines.new ≡ texts lines.old }
    ensures counts { line_counts lines.new ≡ line_counts lines.old }
    ensures in_place { (w : ℕ) → AreLines w lines.old → AreInPlace w lines.old lines.new }
    ensures over { (w : ℕ) → AreOver w lines.old lines.new }
{
    for at in 0..lines.len() {
        lines[at].step = Step::Leave;
    }
}

/// Puts a new line in the place of the one that stands.
fn put_line(lines: &mut [StandingLine], spare: &mut Spare, line: NewLine)
    requires within { line.at < length lines.old }
    ensures texts { texts lines.new ≡ renewed (texts lines.old) (line ∷ []) }
    ensures counts { line_counts lines.new ≡ line_counts lines.old }
    ensures in_place { (w : ℕ) (on : List StandingLine) → AreInPlace w on lines.old → FitsIn w on (length on) line → AreInPlace w on lines.new }
    ensures over { (w : ℕ) (on : List StandingLine) → AreOver w on lines.old → FitsIn w on (length on) line →
        get_or (texts lines.old) line.at [] ≡ get_or (texts on) line.at [] → AreOver w on lines.new }
{
    let NewLine { at, text, turn } = line;
    let standing = &mut lines[at];
    let old = replace(&mut standing.text, text);
    let before = replace(&mut standing.before, old);
    standing.last = turn.last;
    standing.narrow = turn.narrow;
    standing.step = turn.step;
    spare.store_text(before);
}
