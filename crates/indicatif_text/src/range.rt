//! Text cut by columns.
ghost use Rattle.std.specs.Prelude.{◌≡◌, ◌+◌, ◌<◌, ◌≤◌, ◌^◌, chars, length, sum_by, encode_utf8_all, string_bytes, string_len, string_capacity, OnOk, OnErr, IfOk, IfErr};
ghost use Rattle.indicatif_text.specs.Columns.{width_of};
ghost use Rattle.indicatif_text.specs.Range.{Appends, ansi_range, run_within};
ghost use Rattle.indicatif_text.specs.Inside.Range.{Grows};

use crate::columns;
use crate::refusal::Refusal;
use std::alloc::AllocError;

/// Appends the part of `text` in the columns from `start` up to `end`.
///
/// Each colour sequence (ESC `[`, digits and semicolons, `m`; ECMA-48, SGR) stays, wherever it stands. A character stays if it lies wholly
/// within those columns, and the run between sequences that it belongs to begins before `end`. Columns are those of Unicode's East Asian
/// Width (UAX #11), counted from 0 over the text without its sequences.
///
/// Refused: `Memory`, only if `out` has no room for all of it; then `out` is unchanged.
///
/// # Examples
///
/// The range from 1 to 4 of `abcdef` is `bcd`.
pub fn write_ansi_range(
    text: &str,
    start: usize,
    end: usize,
    out: &mut String,
) -> Result<(), Refusal>
    ensures range { OnOk result (Appends (string_bytes out.old) (string_bytes out.new)
        (ansi_range (chars text.now) start end)) }
    ensures memory { IfErr result (λ e. e ≡ Refusal.Memory) }
    ensures unchanged { OnErr result (string_bytes out.new ≡ string_bytes out.old) }
    ensures full { OnErr result (string_capacity out.old
        < string_len out.old + length (encode_utf8_all (ansi_range (chars text.now) start end))) }
{
    let before = out.as_str().len();
    if push_range(text, start, end, out).is_err() {
        out.truncate(before);
        return Err(Refusal::Memory);
    }
    Ok(())
}

/// Appends a range of columns as `write_ansi_range`; if memory is refused, `out` may have grown.
fn push_range(text: &str, start: usize, end: usize, out: &mut String) -> Result<(), AllocError>
    ensures range { OnOk result (Appends (string_bytes out.old) (string_bytes out.new)
        (ansi_range (chars text.now) start end)) }
    ensures grown { Grows (string_bytes out.old) (string_bytes out.new) }
    ensures full { OnErr result (string_capacity out.old
        < string_len out.old + length (encode_utf8_all (ansi_range (chars text.now) start end))) }
{
    let mut column: usize = 0;
    let mut rest = columns::pieces(text);
    'pieces: while let Some(piece) = rest.next() {
        if piece.colour {
            push_piece(piece.text, out)?;
        } else {
            column = push_run(piece.text, (start, end), column, out)?;
        }
    }
    Ok(())
}

/// Appends the part of a run that begins at `column`, and returns the column after it.
fn push_run(
    run: &str,
    range: (usize, usize),
    column: usize,
    out: &mut String,
) -> Result<usize, AllocError>
    requires { column + sum_by width_of (chars run.now) < 2 ^ 64 }
    ensures column { IfOk result (λ n. n ≡ column + sum_by width_of (chars run.now)) }
    ensures text { OnOk result (Appends (string_bytes out.old) (string_bytes out.new)
        (run_within range.0 range.1 column (chars run.now))) }
    ensures grown { Grows (string_bytes out.old) (string_bytes out.new) }
    ensures capacity { string_capacity out.old ≤ string_capacity out.new }
    ensures full { OnErr result (string_capacity out.old
        < string_len out.old + length (encode_utf8_all (run_within range.0 range.1 column (chars run.now)))) }
{
    let (start, end) = range;
    let shown = column < end;
    let mut column = column;
    let mut rest = run.chars();
    'characters: while let Some(c) = rest.next() {
        let after = column + columns::width(c);
        let stands = shown & (start <= column) & (after <= end);
        if stands {
            out.push(c)?;
        }
        column = after;
    }
    Ok(column)
}

/// Appends a piece of the text, whole.
#[inline(always)]
fn push_piece(text: &str, out: &mut String) -> Result<(), AllocError>
    ensures text { OnOk result (Appends (string_bytes out.old) (string_bytes out.new) (chars text.now)) }
    ensures grown { Grows (string_bytes out.old) (string_bytes out.new) }
    ensures capacity { string_capacity out.old ≤ string_capacity out.new }
    ensures full { OnErr result (string_capacity out.old
        < string_len out.old + length (encode_utf8_all (chars text.now))) }
{
    out.push_str(text)?;
    Ok(())
}
