//! Lines that are cut anew where a terminal gets another width: each of their rows becomes lines of one row. And the counts of those rows.
ghost use Rattle.std.specs.Prelude.{◌≡◌, ℕ, ◌+◌, ◌<◌, ◌≤◌, ◌∷◌, ◌++◌, [], true, map, filter, length, sum, take, chars, string_bytes, IfOk, IfErr, OnOk};
ghost use Rattle.std.specs.List.{list_all};
ghost use Rattle.indicatif_text.specs.Columns.{columns_in, glyphs_of, visible};
ghost use Rattle.indicatif_text.specs.PieceLaws.{run_text};
ghost use Rattle.indicatif_text.specs.Pieces.{text_piece};
ghost use Rattle.indicatif_term.specs.Lists.{Lists, live_rows};
ghost use Rattle.indicatif_term.specs.Counts.{CountsOf};
ghost use Rattle.indicatif_term.specs.Resizes.{has_place, recut_lists, settled_whole};
ghost use Rattle.indicatif_term.specs.Standing.{texts, IsLine, AreLines};
ghost use Rattle.indicatif_term.specs.Inside.Recutting.{guarded_char, without_spaces, fits_alone, keeps, IsFitting, new_pieces, cut_pieces, cut_line, cut_lines, line_bars, cut_bars, Gains, shown_line, shown_lines, row_line, HasMore, row_heights, end_row};

use crate::engine::comparing::Step;
use crate::engine::counts::Counts;
use crate::engine::remembered::{Remembered, StandingLine};
use indicatif_text::columns::{Piece, Refusal, pieces, width as width_of_char};
use std::alloc::Global;

/// The width that a terminal leaves, and the one that it gets.
#[derive(Clone, Copy, Drop)]
pub struct Widths {
    pub from: usize,
    pub to: usize,
}

/// Lines of one row each, and how many of them each row became that they were cut from.
#[derive(Drop)]
pub struct CutLines {
    pub lines: Vec<StandingLine>,
    pub heights: Vec<usize>,
}

impl CutLines {
    /// No cut lines yet.
    pub fn none(alloc: Global) -> CutLines
        ensures lines { result.lines.items ≡ [] }
        ensures heights { result.heights.items ≡ [] }
    {
        CutLines {
            lines: Vec::new(alloc),
            heights: Vec::new(alloc),
        }
    }

    /// Cuts these remembered lines too. Refused: `Memory`.
    pub fn add_lines(
        &mut self,
        alloc: Global,
        lines: &[StandingLine],
        widths: Widths,
    ) -> Result<(), Refusal>
        requires standing { AreLines widths.from lines.now }
        ensures added { OnOk result (HasMore self.old self.new (cut_lines widths.from widths.to (texts lines.now))) }
        ensures owned { OnOk result (line_bars self.new.lines.items ≡ line_bars self.old.lines.items ++ cut_bars widths.from widths.to lines.now) }
        ensures memory { IfErr result (λ e. e ≡ Refusal.Memory) }
    {
        for line in lines {
            self.add_line(alloc, line, widths)?;
        }
        Ok(())
    }

    /// Cuts one more remembered line. Refused: `Memory`.
    fn add_line(
        &mut self,
        alloc: Global,
        line: &StandingLine,
        widths: Widths,
    ) -> Result<(), Refusal>
        requires standing { IsLine widths.from line.now }
        ensures added { OnOk result (HasMore self.old self.new (cut_line widths.from widths.to (string_bytes line.now.text))) }
        ensures owned { OnOk result (Gains line.now.bar self.old.lines.items self.new.lines.items) }
        ensures memory { IfErr result (λ e. e ≡ Refusal.Memory) }
    {
        let seen = visible_chars(alloc, &line.text)?;
        self.add_rows(alloc, line.bar, &seen, widths)
    }

    /// Cuts the rows of a remembered line, by its visible characters. Refused: `Memory`.
    fn add_rows(
        &mut self,
        alloc: Global,
        bar: u64,
        seen: &[char],
        widths: Widths,
    ) -> Result<(), Refusal>
        requires placed { list_all (has_place widths.from) (glyphs_of seen.now) ≡ true }
        ensures added { OnOk result (HasMore self.old self.new (cut_pieces widths.from widths.to (glyphs_of seen.now))) }
        ensures owned { OnOk result (Gains bar self.old.lines.items self.new.lines.items) }
        ensures memory { IfErr result (λ e. e ≡ Refusal.Memory) }
    {
        let mut at = self.add_first_row(alloc, bar, seen, widths)?;
        while at < seen.len() {
            let next = self.add_first_row(alloc, bar, &seen[at..], widths)?;
            at += next;
        }
        Ok(())
    }

    /// Cuts the first row of characters, and says how many of them that has. Refused: `Memory`.
    fn add_first_row(
        &mut self,
        alloc: Global,
        bar: u64,
        seen: &[char],
        widths: Widths,
    ) -> Result<usize, Refusal>
        ensures fitting { IfOk result (λ n. IsFitting widths.from seen.now n) }
        ensures added { IfOk result (λ n. HasMore self.old self.new (new_pieces widths.to (glyphs_of (take n seen.now)) ∷ [])) }
        ensures owned { OnOk result (Gains bar self.old.lines.items self.new.lines.items) }
        ensures memory { IfErr result (λ e. e ≡ Refusal.Memory) }
    {
        let count = fitting_count(seen, widths.from);
        let before = self.lines.len();
        cut_row(alloc, bar, &mut self.lines, &seen[..count], widths.to)?;
        self.heights.push(self.lines.len() - before)?;
        Ok(count)
    }
}

impl Remembered {
    ghost use Rattle.indicatif_term.specs.Inside.Recutting.{IsShownCut};

    /// The remembered lines, each of their rows cut anew; none if those of that width aren't remembered. Refused: `Memory`.
    pub fn cut(&self, alloc: Global, widths: Widths) -> Result<CutLines, Refusal>
        ensures cut { IfOk result (λ c. IsShownCut widths.from widths.to self.now c) }
        ensures memory { IfErr result (λ e. e ≡ Refusal.Memory) }
    {
        if widths.from == 0 || self.width != widths.from {
            return Ok(CutLines::none(alloc));
        }
        let mut cut = CutLines::none(alloc);
        cut.add_lines(alloc, self.lines.as_slice(), widths)?;
        Ok(cut)
    }
}

/// The lines of one row that a row becomes when it is cut. Refused: `Memory`.
fn cut_row(
    alloc: Global,
    bar: u64,
    lines: &mut Vec<StandingLine>,
    row: &[char],
    width: usize,
) -> Result<(), Refusal>
    ensures cut { OnOk result (shown_lines lines.new.items ≡ shown_lines lines.old.items ++ map row_line (new_pieces width (glyphs_of row.now))) }
    ensures owned { OnOk result (Gains bar lines.old.items lines.new.items) }
    ensures memory { IfErr result (λ e. e ≡ Refusal.Memory) }
{
    let used = &row[..used_count(row)];
    let mut at = push_piece(alloc, bar, lines, used, width)?;
    while at < used.len() {
        let next = push_piece(alloc, bar, lines, &used[at..], width)?;
        at += next;
    }
    Ok(())
}

/// Adds one more line, of as many characters from the front as go into a row; and says how many they are. Refused: `Memory`.
fn push_piece(
    alloc: Global,
    bar: u64,
    lines: &mut Vec<StandingLine>,
    seen: &[char],
    width: usize,
) -> Result<usize, Refusal>
    ensures fitting { IfOk result (λ n. IsFitting width seen.now n) }
    ensures pushed { IfOk result (λ n. shown_lines lines.new.items ≡ shown_lines lines.old.items ++ row_line (filter (has_place width) (glyphs_of (take n seen.now))) ∷ []) }
    ensures owned { OnOk result (Gains bar lines.old.items lines.new.items) }
    ensures memory { IfErr result (λ e. e ≡ Refusal.Memory) }
{
    let count = fitting_count(seen, width);
    let line = line_of(alloc, bar, &seen[..count], width)?;
    lines.push(line)?;
    Ok(count)
}

/// The line of one row that has those of the characters for which a row has place, with their joiners. Refused: `Memory`.
fn line_of(alloc: Global, bar: u64, seen: &[char], width: usize) -> Result<StandingLine, Refusal>
    requires fits { columns_in (filter (has_place width) (glyphs_of seen.now)) ≤ width }
    ensures line { IfOk result (λ l. shown_line l ≡ row_line (filter (has_place width) (glyphs_of seen.now))) }
    ensures bar { IfOk result (λ l. l.bar ≡ bar) }
    ensures memory { IfErr result (λ e. e ≡ Refusal.Memory) }
{
    let mut text = String::new(alloc);
    let mut last = 0_usize;
    let mut kept = false;
    for c in seen {
        kept = keeps(*c, width, kept);
        if kept {
            push_guarded(&mut text, *c)?;
            last += width_of_char(*c);
        }
    }
    Ok(StandingLine {
        bar,
        text,
        before: String::new(alloc),
        rows: 1,
        last,
        narrow: false,
        step: Step::Whole,
    })
}

/// Whether a row of the new width has place for a character of a line that is cut: a joiner goes where the character before it does.
fn keeps(c: char, width: usize, before: bool) -> bool
    ensures { result ≡ keeps width before c }
{
    if width_of_char(c) == 0 {
        return before;
    }
    fits_alone(c, width)
}

/// Whether a character takes columns, and no more than a row has.
fn fits_alone(c: char, width: usize) -> bool
    ensures { result ≡ fits_alone width c }
{
    let columns = width_of_char(c);
    1 <= columns && columns <= width
}

/// How many characters from the front go into a row; joiners, and those that no row has place for, go along.
fn fitting_count(seen: &[char], width: usize) -> usize
    ensures { IsFitting width seen.now result }
{
    let mut taken = 0_usize;
    for at in 0..seen.len() {
        let c = seen[at];
        if fits_alone(c, width) {
            let columns = width_of_char(c);
            if columns > width - taken {
                return at;
            }
            taken += columns;
        }
    }
    seen.len()
}

/// How many characters there are up to the last one that is no space.
fn used_count(row: &[char]) -> usize
    ensures within { result ≤ length row.now }
    ensures used { glyphs_of (take result row.now) ≡ without_spaces (glyphs_of row.now) }
{
    let mut used = row.len();
    while used > 0 {
        if row[used - 1] != ' ' {
            return used;
        }
        used -= 1;
    }
    0
}

/// The characters of a text outside colour sequences. Refused: `Memory`.
fn visible_chars(alloc: Global, text: &str) -> Result<Vec<char>, Refusal>
    ensures read { IfOk result (λ cs. cs.items ≡ visible (chars text.now)) }
    ensures memory { IfErr result (λ e. e ≡ Refusal.Memory) }
{
    let mut seen = Vec::new(alloc);
    let mut rest = pieces(text);
    'pieces: while let Some(piece) = rest.next() {
        push_run(&mut seen, piece)?;
    }
    Ok(seen)
}

/// Appends the characters of a piece, if it is no colour sequence. Refused: `Memory`.
fn push_run(seen: &mut Vec<char>, piece: Piece<'_>) -> Result<(), Refusal>
    ensures pushed { OnOk result (seen.new.items ≡ seen.old.items ++ run_text (text_piece piece.entry)) }
    ensures memory { IfErr result (λ e. e ≡ Refusal.Memory) }
{
    if piece.colour {
        return Ok(());
    }
    push_chars(seen, piece.text)
}

/// Appends the characters of a text. Refused: `Memory`.
fn push_chars(seen: &mut Vec<char>, text: &str) -> Result<(), Refusal>
    ensures pushed { OnOk result (seen.new.items ≡ seen.old.items ++ chars text.now) }
    ensures memory { IfErr result (λ e. e ≡ Refusal.Memory) }
{
    for c in text.chars() {
        seen.push(c)?;
    }
    Ok(())
}

/// Appends a character to a text, so that it begins no colour sequence. Refused: `Memory`.
fn push_guarded(text: &mut String, c: char) -> Result<(), Refusal>
    ensures pushed { OnOk result (chars (string_bytes text.new) ≡ chars (string_bytes text.old) ++ guarded_char c) }
    ensures memory { IfErr result (λ e. e ≡ Refusal.Memory) }
{
    if c == '\u{1b}' {
        text.push_str("\u{1b}\u{1b}[m")?;
    } else {
        text.push(c)?;
    }
    Ok(())
}

impl Counts {
    /// The counts at another size, where each kept and each live row became some rows (`heights`), on a terminal of `height` rows. Those
    /// that have scrolled away join the rows above. Refused: `Memory`.
    pub fn recut(&self, heights: &[usize], height: usize) -> Result<Counts, Refusal>
        requires rows { length heights.now ≡ self.now.kept + self.now.live }
        requires some { 0 < height }
        requires small { height ≤ 65535 }
        ensures counts { IfOk result (λ c. (w w' : ℕ) (l : Lists) → CountsOf self.now l →
            heights.now ≡ row_heights w' (l.kept ++ live_rows w l.live) → CountsOf c (settled_whole w' height (recut_lists w' l))) }
        ensures memory { IfErr result (λ e. (e ≡ Refusal.Memory) × (0 < length heights.now)) }
    {
        let kept = rows_in(&heights[..self.kept])?;
        let live = self.blanks + rows_in(&heights[self.kept + self.blanks..])?;
        let end = rows_below(self.below);
        let gone = (live + end).saturating_sub(height);
        let reached = kept + live + end;
        let scrolled = reached.saturating_sub(height).min(kept + gone);
        Ok(Counts {
            kept: kept + gone - scrolled,
            blanks: self.blanks.saturating_sub(gone),
            live: live - gone,
            reached: reached - scrolled,
            below: self.below,
            under: self.under,
        })
    }
}

/// One row at another size, too, if the cursor rests below the lists; else none.
fn rows_below(below: bool) -> usize
    ensures { result ≡ end_row below }
{
    if below { 1 } else { 0 }
}

/// How many rows the cut rows are together. Refused: `Memory` where they are 2^32 or more: more than any terminal has.
fn rows_in(heights: &[usize]) -> Result<usize, Refusal>
    ensures rows { IfOk result (λ n. n ≡ sum heights.now) }
    ensures small { IfOk result (λ n. n ≤ 0xFFFF_FFFF) }
    ensures memory { IfErr result (λ e. (e ≡ Refusal.Memory) × (0 < length heights.now)) }
{
    let mut rows = 0_usize;
    for height in heights {
        if *height > 0xFFFF_FFFF - rows {
            return Err(Refusal::Memory);
        }
        rows += *height;
    }
    Ok(rows)
}
