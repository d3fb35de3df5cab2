//! A part of a row written again, character by character, among cells that stay.
ghost use Rattle.std.specs.Prelude.{◌≡◌, ◌+◌, ◌-◌, ◌≤◌, ◌<◌, ◌++◌, ◌==◌, ◌&&◌, not, ℕ, Bool, List, MatchResult, string_bytes};
ghost use Rattle.indicatif_term.specs.Calls.{LeadsOn, BreaksOff, DOWN, RIGHT, move_bytes};
ghost use Rattle.indicatif_term.specs.Inside.Inks.{colours_of, in_ink, is_alike};
ghost use Rattle.indicatif_term.specs.Inside.RowEdits.{edit_bytes, row_bytes, reset_bytes, ink_bytes};
ghost use Rattle.indicatif_term.specs.Inside.MoveBytes.{Sends};
ghost use Rattle.indicatif_term.specs.Inside.Parting.{HasPart, part_edits};
ghost use Rattle.indicatif_term.specs.Inside.Rests.{FitsRow, ink_of, left_bytes};

use crate::engine::comparing::Stretch;
use crate::engine::inks::{
    Colours, InkedText, NO_COLOURS, RESET, are_same, char_count, next_cell, split,
};
use crate::engine::remembered::StandingLine;
use crate::engine::writing::{Sent, go_down, put_str, told};
use crate::target::term_like::TermLike;

/// What is left of a row: the old and the new text, how many columns are left, how many columns the cursor is behind, and which colour
/// sequences are open.
#[derive(Clone, Copy)]
pub struct Rest<'a> {
    pub own: InkedText<'a>,
    pub other: InkedText<'a>,
    pub left: usize,
    pub gap: usize,
    pub ink: Colours<'a>,
}

/// Goes down to the last row of a line and to its front, and writes what differs in a part of it.
pub fn write_part<T: TermLike>(
    term: &mut T,
    down: usize,
    line: &StandingLine,
    part: Stretch,
) -> Sent
    requires small { down + line.now.rows ≤ 65536 }
    requires part { HasPart part (string_bytes line.now.before) (string_bytes line.now.text) }
    ensures { Sends (move_bytes DOWN (down + line.now.rows - 1) ++ row_bytes part.gap (part_edits part (string_bytes line.now.before) (string_bytes line.now.text)))
        (T.view term.old) (T.view term.new) result }
{
    let far = down + line.rows;
    go_down(term, far.saturating_sub(1))?;
    put_str(term, "\r")?;
    let mut now = all_of(line, part);
    'columns: while now.left > 0 {
        write_next(term, &mut now, part.waits)?;
        skip(&mut now);
    }
    close(term, &now.ink)
}

/// What is left of a row before a part of it is written: the whole part.
fn all_of(line: &StandingLine, part: Stretch) -> Rest<'_>
    requires { HasPart part (string_bytes line.now.before) (string_bytes line.now.text) }
    ensures room { FitsRow result }
    ensures bytes { left_bytes part.waits result ≡ edit_bytes part.gap (part_edits part (string_bytes line.now.before) (string_bytes line.now.text)) }
{
    Rest {
        own: InkedText {
            text: &line.before[part.from..],
            ink: NO_COLOURS,
        },
        other: InkedText {
            text: &line.text[part.from..],
            ink: NO_COLOURS,
        },
        left: part.left,
        gap: part.gap,
        ink: NO_COLOURS,
    }
}

/// Goes over one column of the row, which stays or gets its character in its colours.
fn write_next<T: TermLike>(term: &mut T, rest: &mut Rest<'_>, ends: bool) -> Sent
    requires some { 0 < rest.old.left }
    requires room { FitsRow rest.old }
    ensures { MatchResult result
        (λ _. (done : List ℕ) × LeadsOn done (T.view term.old) (T.view term.new) × (done ++ left_bytes ends rest.new ≡ left_bytes ends rest.old)
        × (rest.new.left < rest.old.left) × FitsRow rest.new)
        (λ k. BreaksOff (left_bytes ends rest.old) k (T.view term.old) (T.view term.new)) }
{
    let stands = next_cell(&mut rest.own);
    let c = next_cell(&mut rest.other);
    rest.left -= 1;
    if stays(stands, c, rest, ends) {
        rest.gap += 1;
        return Ok(());
    }
    recolour(term, &rest.ink, &rest.other.ink)?;
    go_right(term, rest.gap)?;
    rest.gap = 0;
    rest.ink = rest.other.ink;
    let mut bytes = [0u8; 4];
    put_str(term, c.encode_utf8(&mut bytes))
}

/// Whether a cell stays, in front of what is left, where its character is to be that one: it isn't the last one, if that is to be
/// written.
fn stays(stands: char, c: char, next: &Rest<'_>, ends: bool) -> bool
    ensures { result ≡ (is_alike (in_ink (ink_of next.now.own.ink) stands) (in_ink (ink_of next.now.other.ink) c) && not (ends && (next.now.left == 0))) }
{
    if stands != c || !are_same(&next.own.ink, &next.other.ink) {
        return false;
    }
    !(ends && next.left == 0)
}

/// Writes what changes the colours that are open to others.
fn recolour<T: TermLike>(term: &mut T, ink: &Colours<'_>, to: &Colours<'_>) -> Sent
    ensures { Sends (ink_bytes (ink_of ink.now) (ink_of to.now)) (T.view term.old) (T.view term.new) result }
{
    if are_same(ink, to) {
        return Ok(());
    }
    close(term, ink)?;
    put(term, to.base)?;
    put(term, to.group)
}

/// Writes colour sequences within the row; none is no call.
fn put<T: TermLike>(term: &mut T, sequences: &str) -> Sent
    ensures { Sends sequences.now (T.view term.old) (T.view term.new) result }
{
    if sequences.is_empty() {
        return Ok(());
    }
    put_str(term, sequences)
}

/// Closes all colours that an edit of the row left open, if any are.
fn close<T: TermLike>(term: &mut T, ink: &Colours<'_>) -> Sent
    ensures { Sends (reset_bytes (colours_of (ink_of ink.now))) (T.view term.old) (T.view term.new) result }
{
    if ink.base.is_empty() && ink.group.is_empty() {
        return Ok(());
    }
    put_str(term, RESET)
}

/// Skips the columns that both texts begin with alike, up to the last one of the row; where both end, all but that one, since they are free.
fn skip(rest: &mut Rest<'_>)
    requires room { FitsRow rest.old }
    ensures same { (ends : Bool) → left_bytes ends rest.new ≡ left_bytes ends rest.old }
    ensures left { rest.new.left ≤ rest.old.left }
    ensures room { FitsRow rest.new }
{
    if rest.left <= 1 || !are_same(&rest.own.ink, &rest.other.ink) {
        return;
    }
    let parts = split(rest.own.text, rest.other.text);
    let count = char_count(parts.front);
    if count >= rest.left {
        return;
    }
    let ended = parts.own.is_empty() & parts.other.is_empty();
    let columns = if ended { rest.left - 1 } else { count };
    rest.own.text = parts.own;
    rest.other.text = parts.other;
    rest.left -= columns;
    rest.gap += columns;
}

/// Goes right over columns of the row that stay; none is no call.
#[inline(always)]
pub fn go_right<T: TermLike>(term: &mut T, columns: usize) -> Sent
    ensures { Sends (move_bytes RIGHT columns) (T.view term.old) (T.view term.new) result }
{
    if columns == 0 {
        return Ok(());
    }
    told(term.move_cursor_right(columns))
}
