//! The lines of a drawing in the place of those that stand: each stays, is edited, or is written as a whole; or all are written over those,
//! so that the cursor only moves.
ghost use Rattle.std.specs.Prelude.{length, ◌≡◌, ◌==◌, ◌&&◌, ◌+◌, ◌-◌, ◌*◌, ◌≤◌, ◌++◌, ◌∷◌, [], IsTrue, IfSome, chars, replicate, string_bytes};
ghost use Rattle.indicatif_text.specs.Columns.{visible};
ghost use Rattle.indicatif_term.specs.Calls.{DOWN, RIGHT, move_bytes};
ghost use Rattle.indicatif_term.specs.Inside.Changing.{placed_height, changed_bytes, filled_whole, last_bytes, all_stay, stays, free_behind, among_bytes, ends_plainly, last_byte, filled_bytes, moved_bytes, joins, IsEven, AreEven};
ghost use Rattle.indicatif_term.specs.Inside.MoveBytes.{Sends};
ghost use Rattle.indicatif_term.specs.Inside.Parting.{IsReady};
ghost use Rattle.indicatif_term.specs.Inside.Fills.{last_of};
ghost use Rattle.indicatif_term.specs.Standing.{placed_of, placed, AreReady};

use crate::engine::beside::height_of;
use crate::engine::comparing::Step;
use crate::engine::inks::{InkedText, NO_COLOURS, has_escape, next_cell};
use crate::engine::remembered::StandingLine;
use crate::engine::row_edits::{go_right, write_part};
use crate::engine::writing::{Sent, empty_down, go_down, go_up, put_spaces, put_str};
use crate::target::term_like::TermLike;
use indicatif_text::columns::{columns, width as width_of_char};

/// Writes lines in the place of others, from the first down: those that stay are skipped. Below their rows `taken` ones were taken back, and the
/// cursor is on the first of these; if there are none, it is at the end of the lines' last row. It comes to the end of that, and
/// nothing is written where all stay and no row was taken back.
pub fn put_among<T: TermLike>(
    term: &mut T,
    lines: &[StandingLine],
    taken: usize,
    width: usize,
) -> Sent
    requires small { placed_height (placed lines.now) ≤ 65535 }
    requires ready { AreReady lines.now }
    ensures { Sends (among_bytes width taken (placed lines.now)) (T.view term.old) (T.view term.new) result }
{
    if lines.is_empty() {
        return Ok(());
    }
    if is_nothing(lines, taken) {
        return Ok(());
    }
    let before = lines.len() - 1;
    let last = &lines[before];
    go_up(term, height_of(lines).saturating_sub(1) + taken.min(1))?;
    let mut down = 0;
    for line in &lines[..before] {
        match line.step {
            Step::Leave => down += line.rows,
            Step::Within(part) => {
                write_part(term, down, line, part)?;
                down = 1;
            }
            Step::Whole => {
                write_changed(term, down, line)?;
                down = 1;
            }
        }
    }
    write_last(term, down, last, width)
}

/// How many columns of its row the last of these lines leaves free; 0 if there is no line.
pub fn fill_behind(lines: &[StandingLine], width: usize) -> usize
    ensures { result ≡ free_behind width (last_of (placed lines.now)) }
{
    let count = lines.len();
    if count == 0 {
        return 0;
    }
    width.saturating_sub(lines[count - 1].last)
}

/// Whether all these lines stay, and no row was taken back, so that nothing is written.
fn is_nothing(lines: &[StandingLine], taken: usize) -> bool
    ensures { result ≡ ((taken == 0) && all_stay (placed lines.now)) }
{
    taken == 0 && all_standing(lines)
}

/// Whether all these lines stay where they stand, so that none is written.
fn all_standing(lines: &[StandingLine]) -> bool
    ensures { result ≡ all_stay (placed lines.now) }
{
    for line in lines {
        if !is_left(line) {
            return false;
        }
    }
    true
}

/// Whether a line stays where it stands, so that nothing of it is written.
fn is_left(line: &StandingLine) -> bool
    ensures { result ≡ stays (placed_of line.now).change }
{
    match line.step {
        Step::Leave => true,
        Step::Within(_) => false,
        Step::Whole => false,
    }
}

/// Goes `down` rows down, empties the rows of a line, and writes it as a whole.
fn write_changed<T: TermLike>(term: &mut T, down: usize, line: &StandingLine) -> Sent
    ensures { Sends (changed_bytes down line.now.rows (placed_of line.now).line) (T.view term.old) (T.view term.new) result }
{
    go_down(term, down)?;
    let more = line.rows.saturating_sub(1);
    empty_down(term, more)?;
    go_up(term, more)?;
    put_str(term, &line.text)
}

/// Passes the last line, from `down` rows above it; the cursor is behind the end of its row then.
fn write_last<T: TermLike>(term: &mut T, down: usize, line: &StandingLine, width: usize) -> Sent
    requires small { down + line.now.rows ≤ 65536 }
    requires ready { IsReady line.now.step (string_bytes line.now.before) (string_bytes line.now.text) }
    ensures { Sends (last_bytes width down (placed_of line.now)) (T.view term.old) (T.view term.new) result }
{
    match line.step {
        Step::Leave => write_left(term, down, line, width),
        Step::Within(part) => {
            if part.waits {
                write_part(term, down, line, part)
            } else {
                write_filled(term, down, line, width)
            }
        }
        Step::Whole => write_filled(term, down, line, width),
    }
}

/// Writes a line as a whole, with the spaces that fill its last row, in the place of another.
fn write_filled<T: TermLike>(term: &mut T, down: usize, line: &StandingLine, width: usize) -> Sent
    ensures { Sends (changed_bytes down line.now.rows (filled_whole width (placed_of line.now)).line) (T.view term.old) (T.view term.new) result }
{
    write_changed(term, down, line)?;
    put_spaces(term, width.saturating_sub(line.last))
}

/// Writes of a last line that stays its last column again, if that is free or shows plain ASCII; else the line.
fn write_left<T: TermLike>(term: &mut T, down: usize, line: &StandingLine, width: usize) -> Sent
    requires small { down + line.now.rows ≤ 65536 }
    requires stays { line.now.step ≡ Step.Leave }
    ensures { Sends (last_bytes width down (placed_of line.now)) (T.view term.old) (T.view term.new) result }
{
    let far = down + line.rows;
    if line.last < width {
        return write_end(term, far.saturating_sub(1), " ", width);
    }
    if ends_plainly(&line.text) {
        return write_end(term, far.saturating_sub(1), last_char(&line.text), width);
    }
    write_filled(term, down, line, width)
}

/// Goes `down` rows down, and writes a character into the last column.
fn write_end<T: TermLike>(term: &mut T, down: usize, text: &str, width: usize) -> Sent
    ensures { Sends (move_bytes DOWN down ++ ((0x0D ∷ []) ++ (move_bytes RIGHT (width - 1) ++ text.now))) (T.view term.old) (T.view term.new) result }
{
    go_down(term, down)?;
    put_str(term, "\r")?;
    go_right(term, width.saturating_sub(1))?;
    put_str(term, text)
}

/// Whether a line has no escape character, so no colours, and ends with printable ASCII, which no joiner joins.
fn ends_plainly(line: &str) -> bool
    ensures { result ≡ ends_plainly line.now }
{
    let bytes = line.as_bytes();
    let count = bytes.len();
    if count == 0 {
        return false;
    }
    let last = bytes[count - 1];
    last >= 0x20 && last <= 0x7E && !has_escape(bytes)
}

/// The last character of a line that ends plainly.
fn last_char(line: &str) -> &str
    requires { IsTrue (ends_plainly line.now) }
    ensures { result.now ≡ last_byte line.now }
{
    &line[line.len() - 1..]
}

/// Whether all rows of these lines but the last of each are full, and none of the lines joins the one before it.
pub fn are_even(lines: &[StandingLine], width: usize) -> bool
    ensures { IsTrue result → AreEven width lines.now }
{
    for line in lines {
        if !is_even(line, width) {
            return false;
        }
    }
    true
}

/// Whether all rows of one line but the last are full, and it joins no line before it.
fn is_even(line: &StandingLine, width: usize) -> bool
    ensures { IsTrue result → IsEven width line.now }
{
    match columns_of_rows(line, width) {
        Some(count) => columns(&line.text) == count && !joins(&line.text),
        None => false,
    }
}

/// How many columns a line takes if all its rows but the last are full.
fn columns_of_rows(line: &StandingLine, width: usize) -> Option<usize>
    ensures { IfSome result (λ n. n ≡ (line.now.rows - 1) * width + line.now.last) }
{
    let before = line.rows.saturating_sub(1).checked_mul(width)?;
    before.checked_add(line.last)
}

/// Whether the first visible character of a text takes no columns, so that it would join one before it.
fn joins(text: &str) -> bool
    ensures { result ≡ joins (visible (chars text.now)) }
{
    let mut reading = InkedText {
        text,
        ink: NO_COLOURS,
    };
    width_of_char(next_cell(&mut reading)) == 0
}

/// Writes lines over rows, on the last of which the cursor rests, or from its own row on if there are no rows. It goes up to the first of
/// them and to its front; no line end and no row is emptied.
pub fn put_over<T: TermLike>(
    term: &mut T,
    taken: usize,
    lines: &[StandingLine],
    width: usize,
) -> Sent
    ensures { Sends (moved_bytes width taken (placed lines.now)) (T.view term.old) (T.view term.new) result }
{
    go_up(term, taken.saturating_sub(1))?;
    put_str(term, "\r")?;
    for line in lines {
        put_filled(term, line, width)?;
    }
    Ok(())
}

/// Writes one line over rows, and the spaces that fill its last one.
fn put_filled<T: TermLike>(term: &mut T, line: &StandingLine, width: usize) -> Sent
    ensures { Sends (filled_bytes width (placed_of line.now)) (T.view term.old) (T.view term.new) result }
{
    put_str(term, &line.text)?;
    put_fill(term, width.saturating_sub(line.last))
}

/// Writes the spaces that fill a line's last row; an empty text if there are none.
fn put_fill<T: TermLike>(term: &mut T, count: usize) -> Sent
    ensures { Sends (replicate count 0x20) (T.view term.old) (T.view term.new) result }
{
    if count == 0 {
        return put_str(term, "");
    }
    put_spaces(term, count)
}
