//! Which rows stand above lines that are drawn on a terminal of unknown width.
ghost use Rattle.std.specs.Prelude.{IsTrue, chars, ◌++◌};
ghost use Rattle.indicatif_text.specs.Columns.{is_plain};
ghost use Rattle.indicatif_term.specs.EndedRows.{OwnDraws};
ghost use Rattle.uses.specs.AnyWidth.{two_lines, in_place, RowsAboveStand};

use indicatif_term::laws::{how_far_calls_lead, what_own_rows_draw};
use indicatif_term::target::{OwnRows, TermLike};
use std::io;

/// Writes a line twice on a terminal of unknown width, goes up to the first, and writes another one over both.
///
/// Whatever the terminal's true width is, no row above the first line ever changes, not even between two bytes or if a call fails.
pub fn lines_in_place<T: TermLike>(
    term: T,
    first: &str,
    second: &str,
) -> (OwnRows<T>, io::Result<()>)
    requires first { IsTrue (is_plain (chars first.now)) }
    requires second { IsTrue (is_plain (chars second.now)) }
    ensures { RowsAboveStand T.view term result.0 }
{
    what_own_rows_draw::<T>();
    how_far_calls_lead();
    let _columns = term.width();
    let mut own = OwnRows::new(term);
    let drawn = draw(&mut own, first, second);
    (own, drawn)
}

/// Draws these lines on a new terminal.
fn draw<T: TermLike>(own: &mut OwnRows<T>, first: &str, second: &str) -> io::Result<()>
    requires first { IsTrue (is_plain (chars first.now)) }
    requires second { IsTrue (is_plain (chars second.now)) }
    ensures { OwnDraws T.view (two_lines first.now ++ in_place second.now) own.old own.new result }
{
    what_own_rows_draw::<T>();
    write_lines(own, first)?;
    write_in_place(own, second)
}

/// Writes a line twice.
fn write_lines<T: TermLike>(own: &mut OwnRows<T>, text: &str) -> io::Result<()>
    requires { IsTrue (is_plain (chars text.now)) }
    ensures { OwnDraws T.view (two_lines text.now) own.old own.new result }
{
    what_own_rows_draw::<T>();
    own.write_line(text)?;
    own.write_line(text)?;
    own.flush()
}

/// Goes up two rows, empties each, and writes a line there.
fn write_in_place<T: TermLike>(own: &mut OwnRows<T>, text: &str) -> io::Result<()>
    requires { IsTrue (is_plain (chars text.now)) }
    ensures { OwnDraws T.view (in_place text.now) own.old own.new result }
{
    what_own_rows_draw::<T>();
    own.move_cursor_up(2)?;
    own.clear_line()?;
    own.write_line(text)?;
    own.clear_line()?;
    own.write_line(text)?;
    own.flush()
}
