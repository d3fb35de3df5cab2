//! The lines that an engine remembers, so that it writes only those that change.
ghost use Rattle.std.specs.Prelude.{◌≡◌, ◌⊎◌, ◌+◌, ◌-◌, ◌^◌, ◌<◌, ◌≤◌, ◌==◌, ◌++◌, [], ℕ, List, take, drop, length, if◌then◌else◌, IsTrue, IfOk, IfErr};
ghost use Rattle.indicatif_term.specs.Standing.{AreLines};

use crate::engine::beside::{Beside, put_new};
use crate::engine::comparing::Step;
use crate::engine::layout::Laid;
use crate::engine::spare::Spare;
use indicatif_text::columns::Refusal;
use std::alloc::Global;
use std::marker::Model;

/// A line that stands on a terminal.
#[derive(Drop)]
pub struct StandingLine {
    /// The number of its bar; 0 where the line is a blank one.
    pub bar: u64,
    pub text: String,
    /// What stood in its place before the drawing that it is of, where a part of it was written.
    pub before: String,
    /// Its rows, and how many columns it takes of the last one.
    pub rows: usize,
    pub last: usize,
    /// Whether each visible character is known to take one column, in colours that can be edited.
    pub narrow: bool,
    /// What becomes of it in that drawing.
    pub step: Step,
}

/// Some lines, from one on and up to another.
#[derive(Clone, Copy, Drop)]
pub struct Span {
    pub from: usize,
    pub to: usize,
    pub ghost some: { from ≤ to },
}

/// Lines that stand on a terminal one below another. Contracts see nothing of their room.
#[derive(Drop)]
pub struct StandingLines {
    lines: Vec<StandingLine>,
}

impl Model for StandingLines {
    ghost use Rattle.std.specs.Prelude.{List};
    ghost use Rattle.indicatif_term.specs.declared.engine.remembered.StandingLine.{StandingLine};

    ghost Value = { List StandingLine };

    ghost view = { λ s. s.lines.items };
}

impl StandingLines {
    ghost use Rattle.indicatif_term.specs.Standing.{texts};
    ghost use Rattle.indicatif_term.specs.Counts.{line_counts};
    ghost use Rattle.indicatif_term.specs.Inside.Renewed.{AreFitting, AreInPlace, AreOver, renewed};

    /// These lines, as they stand on a terminal.
    pub fn of(lines: Vec<StandingLine>) -> StandingLines
        ensures { result ≡ lines.items }
    {
        StandingLines { lines }
    }

    /// All lines that stand.
    pub fn as_slice(&self) -> &[StandingLine]
        ensures { result.now ≡ self.now }
    {
        &self.lines
    }

    /// Leaves some lines, puts new ones in the place of some of these behind the first ones, and more below them; all others become spare.
    /// Refused: `Memory`, where there is a line below. All is unchanged then.
    pub fn put(
        &mut self,
        spare: &mut Spare,
        stays: Span,
        first: usize,
        laid: &mut Laid,
    ) -> Result<(), Refusal>
        requires within { stays.to ≤ length self.old }
        requires first { first ≤ stays.to - stays.from }
        requires fit { (w : ℕ) × (let on = drop first (drop stays.from (take stays.to self.old)) in AreFitting w on (length on) laid.old.changed.items) }
        ensures refused { IfErr result (λ e. (e ≡ Refusal.Memory) × (0 < length laid.old.more.items) × (self.new ≡ self.old)) }
        ensures small { length self.new ≤ 2 ^ 64 - 1 }
        ensures lines { let all = drop stays.from (take stays.to self.old) in
            let on = drop first all in
            IfOk result (λ _. (front : List StandingLine) × (self.new ≡ (take first all ++ front) ++ laid.old.more.items)
            × (texts front ≡ renewed (texts on) laid.old.changed.items)
            × (line_counts front ≡ line_counts on)
            × ((w : ℕ) → AreLines w on → AreFitting w on (length on) laid.old.changed.items → AreInPlace w on front)
            × ((w : ℕ) → AreFitting w on (length on) laid.old.changed.items → AreOver w on front)) }
    {
        if self.lines.reserve(laid.more.len()).is_err() {
            return Err(Refusal::Memory);
        }
        spare.store_around(&mut self.lines, stays);
        put_new(&mut self.lines[first..], spare, &mut laid.changed);
        let _ = self.lines.append(&mut laid.more);
        Ok(())
    }
}

/// Lines that stand on a terminal one below another, down to the last row of the last drawing: those of kept rows, as far as they
/// are remembered, and those of the live ones.
#[derive(Drop)]
pub struct Remembered {
    /// The columns of the terminal on which they stand as they are measured, or 0 where none is known.
    pub width: usize,
    pub lines: StandingLines,
    /// How many of the lines, from the front, stand in kept rows.
    pub kept: usize,
    pub ghost within: { kept ≤ length lines },
    pub ghost small: { length lines ≤ 2 ^ 64 - 1 },
    pub ghost right: { ∥ (0 < width → AreLines width lines) ∥₁ },
}

impl Remembered {
    ghost use Rattle.indicatif_term.specs.Lists.{Lists};
    ghost use Rattle.indicatif_term.specs.Remembered.{AreRemembered, live_lines};
    ghost use Rattle.indicatif_term.specs.Inside.Remembered.{StandAbove, IsNext, IsNothing};
    ghost use Rattle.indicatif_term.specs.Inside.Owned.{kept_below};
    ghost use Rattle.indicatif_term.specs.Inside.Layouts.{AreBlank, ArePut, CanPut};

    /// No line is remembered.
    pub fn nothing(alloc: Global) -> Remembered
        ensures { IsNothing result }
    {
        Remembered {
            width: 0,
            lines: StandingLines::of(Vec::new(alloc)),
            kept: 0,
        }
    }

    /// Lines of a terminal of `width` columns; the last `live` of them are live.
    pub fn of(width: usize, lines: Vec<StandingLine>, live: usize) -> Remembered
        requires right { 0 < width → AreLines width lines.items }
        ensures lines { result.lines ≡ lines.items }
        ensures width { result.width ≡ width }
        ensures live { result.kept ≡ length lines.items - live }
    {
        let kept = lines.len().saturating_sub(live);
        Remembered {
            width,
            lines: StandingLines::of(lines),
            kept,
        }
    }

    /// Where the first `count` live lines were kept, on a terminal of `width` columns: all stand where they stood, but blank rows may
    /// have other columns than then.
    pub fn keep(&mut self, width: usize, count: usize)
        requires within { count ≤ length (live_lines self.old) }
        ensures lines { self.new.lines ≡ self.old.lines }
        ensures kept { self.new.kept ≡ self.old.kept + count }
        ensures width { self.new.width ≡ (if self.old.width == width then width else 0) }
    {
        let left = self.live().len() - count;
        self.kept = self.lines.as_slice().len() - left;
        self.width = width_where(self.width == width, width);
    }

    /// The remembered lines behind the first `count`.
    pub fn behind(&self, count: usize) -> &[StandingLine]
        requires { count ≤ length self.now.lines }
        ensures { result.now ≡ drop count self.now.lines }
    {
        &self.lines.as_slice()[count..]
    }

    /// The remembered lines of the live rows.
    pub fn live(&self) -> &[StandingLine]
        ensures { result.now ≡ live_lines self.now }
    {
        self.behind(self.kept)
    }

    /// The lines of the live rows behind the first `blanks`.
    pub fn own(&self, blanks: usize) -> &[StandingLine]
        requires { blanks ≤ length (live_lines self.now) }
        ensures { result.now ≡ drop blanks (live_lines self.now) }
    {
        &self.live()[blanks..]
    }

    /// The remembered lines of the live rows of a terminal of `width` columns, of which the first `blanks` are blank; none if they aren't
    /// known. None keeps its rows in a drawing that writes each line as a whole.
    pub fn beside(&self, width: usize, blanks: usize, whole: bool) -> Beside<'_>
        ensures right { 0 < width → AreLines width result.lines.now }
        ensures blank { AreBlank result.blanks result.lines.now }
        ensures live { (result.lines.now ≡ []) ⊎ ((self.now.width ≡ width) × (result.lines.now ≡ live_lines self.now)) }
        ensures known { 0 < width → AreLines width result.known.now }
        ensures whole { IsTrue whole → result.lines.now ≡ [] }
    {
        if self.width == width {
            Beside::of(self.live(), blanks, whole)
        } else {
            Beside::nothing()
        }
    }

    /// The remembered lines in the last `rows` kept rows of a terminal of `width` columns.
    pub fn above(&self, width: usize, rows: usize) -> Span
        ensures within { result.to ≤ length self.now.lines }
        ensures known { self.now.width ≡ width → result.to ≡ self.now.kept }
        ensures right { 0 < width → AreLines width (drop result.from (take result.to self.now.lines)) }
        ensures above { (l : Lists) → 0 < width → AreRemembered self.now l →
            StandAbove width (drop result.from (take result.to self.now.lines)) l }
    {
        if self.width != width {
            return Span { from: 0, to: 0 };
        }
        let kept = &self.lines.as_slice()[..self.kept];
        Span {
            from: first_of_last(kept, rows),
            to: self.kept,
        }
    }

    /// Puts a frame that was laid out in the place of the live lines, below some remembered ones that stay, on a terminal of `width` columns;
    /// all others become spare. Refused: `Memory`, where there is a line below. All is unchanged then.
    pub fn put(
        &mut self,
        spare: &mut Spare,
        above: Span,
        laid: &mut Laid,
        width: usize,
    ) -> Result<(), Refusal>
        requires some { 0 < width }
        requires fits { CanPut width above self.old laid.old }
        ensures refused { IfErr result (λ e. (e ≡ Refusal.Memory) × (0 < length laid.old.more.items) × (self.new ≡ self.old)) }
        ensures next { IfOk result (λ _. (ls : List StandingLine) × ArePut width (live_lines self.old) laid.old ls
            × IsNext width (kept_below laid.old.plan laid.old.blanks) (drop above.from (take above.to self.old.lines)) ls self.new) }
    {
        let plan = laid.plan;
        let blanks = laid.blanks;
        let stays = Span {
            from: above.from,
            to: above.to + laid.at,
        };
        let first = above.to - above.from;
        self.lines.put(spare, stays, first, laid)?;
        self.width = width;
        self.kept = first + plan.kept_below(blanks);
        Ok(())
    }
}

/// The width for which lines are remembered, or 0 if none are.
fn width_where(known: bool, width: usize) -> usize
    ensures { result ≡ (if known then width else 0) }
{
    if known { width } else { 0 }
}

/// The index of the first of the last remembered lines that take at least `rows` rows together, or 0.
fn first_of_last(lines: &[StandingLine], rows: usize) -> usize
    ensures { result ≤ length lines.now }
{
    let mut at = lines.len();
    let mut found = 0_usize;
    while at > 0 && found < rows {
        at -= 1;
        found = found.saturating_add(lines[at].rows);
    }
    at
}
