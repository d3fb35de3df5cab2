//! A text at a width.
ghost use Rattle.std.specs.Prelude.{◌≡◌, ◌≤◌, ◌++◌, ◌-◌, List, ℕ, string_bytes, OnOk, IfSome};
ghost use Rattle.indicatif_bar.specs.Layout.{padded, spaces, times, truncated, surrounded};

use indicatif_text::columns::{Refusal, columns, write_ansi_range};
use indicatif_text::template::Alignment;
use std::alloc::AllocError;

/// How a text stands in a width, and whether a longer one is cut.
#[derive(Clone, Copy, Drop)]
pub(crate) struct AtWidth {
    pub(crate) width: usize,
    pub(crate) align: Alignment,
    pub(crate) truncate: bool,
}

/// Appends `text` at a width: a longer one as it is or truncated, a shorter one with blanks.
pub(crate) fn push_padded(text: &str, place: AtWidth, out: &mut String) -> Result<(), AllocError>
    ensures { OnOk result (string_bytes out.new
        ≡ string_bytes out.old ++ padded text.now place.width place.align place.truncate) }
{
    let columns = columns(text);
    if columns <= place.width {
        push_surrounded(text, place.align, place.width - columns, out)?;
        return Ok(());
    }
    if place.truncate {
        let Ok(()) = push_truncated(text, columns, place, out) else {
            return Err(AllocError);
        };
        return Ok(());
    }
    out.push_str(text)?;
    Ok(())
}

/// Appends what fits of a text that takes more columns than there are.
fn push_truncated(
    text: &str,
    columns: usize,
    place: AtWidth,
    out: &mut String,
) -> Result<(), Refusal>
    requires { place.width ≤ columns }
    ensures text { OnOk result (string_bytes out.new
        ≡ string_bytes out.old ++ truncated text.now columns place.align place.width) }
{
    let excess = columns - place.width;
    match place.align {
        Alignment::Left => write_ansi_range(text, 0, place.width, out),
        Alignment::Right => write_ansi_range(text, excess, columns, out),
        Alignment::Center => {
            write_ansi_range(text, excess / 2, columns - (excess - excess / 2), out)
        }
    }
}

/// Appends a text with `blanks` blanks around it.
fn push_surrounded(
    text: &str,
    align: Alignment,
    blanks: usize,
    out: &mut String,
) -> Result<(), AllocError>
    ensures { OnOk result (string_bytes out.new
        ≡ string_bytes out.old ++ surrounded text.now align blanks) }
{
    let before = blanks_before(align, blanks);
    push_times(" ", before, out)?;
    out.push_str(text)?;
    push_times(" ", blanks - before, out)?;
    Ok(())
}

/// How many of the blanks stand before the text.
fn blanks_before(align: Alignment, blanks: usize) -> usize
    ensures text { (text : List ℕ) →
        surrounded text align blanks ≡ spaces result ++ text ++ spaces (blanks - result) }
    ensures within { result ≤ blanks }
{
    match align {
        Alignment::Left => 0,
        Alignment::Right => blanks,
        Alignment::Center => blanks / 2,
    }
}

/// Appends `text` `count` times, from a ready run or by repetition.
#[inline(always)]
pub(crate) fn push_times(text: &str, count: usize, out: &mut String) -> Result<(), AllocError>
    ensures { OnOk result (string_bytes out.new ≡ string_bytes out.old ++ times count text.now) }
{
    match ready_run(text) {
        Some(run) => push_ready(text, run, count, out),
        None => push_repeated(text, count, out),
    }
}

/// How often a ready run repeats its text.
const READY: usize = 64;

/// A text `READY` times, for the texts that most bars repeat: a blank, usual cells of ASCII, and the default cells.
fn ready_run(text: &str) -> Option<&'static str>
    ensures run { IfSome result (λ run. run.now ≡ times 64 text.now) }
{
    match text.as_bytes() {
        [b' '] => Some("                                                                "),
        [b'#'] => Some("################################################################"),
        [b'='] => Some("================================================================"),
        [b'-'] => Some("----------------------------------------------------------------"),
        [0xE2, 0x96, 0x88] => Some(
            "████████████████████████████████████████████████████████████████",
        ),
        [0xE2, 0x96, 0x91] => Some(
            "░░░░░░░░░░░░░░░░░░░░░░░░░░░░░░░░░░░░░░░░░░░░░░░░░░░░░░░░░░░░░░░░",
        ),
        _ => None,
    }
}

/// Appends `text` `count` times, from its ready run.
fn push_ready(text: &str, run: &str, count: usize, out: &mut String) -> Result<(), AllocError>
    requires run { run.now ≡ times 64 text.now }
    ensures { OnOk result (string_bytes out.new ≡ string_bytes out.old ++ times count text.now) }
{
    let mut left = count;
    'runs: while READY < left {
        out.push_str(run)?;
        left -= READY;
    }
    out.push_str(&run[..left * text.len()])?;
    Ok(())
}

/// Appends `text` `count` times, by appending again what was appended.
fn push_repeated(text: &str, count: usize, out: &mut String) -> Result<(), AllocError>
    ensures { OnOk result (string_bytes out.new ≡ string_bytes out.old ++ times count text.now) }
{
    if count == 0 {
        return Ok(());
    }
    let start = out.len();
    out.push_str(text)?;
    let mut done = 1;
    'times: while done < count {
        let more = done.min(count - done);
        let end = start + more * text.len();
        out.extend_from_within(start..end)?;
        done += more;
    }
    Ok(())
}
