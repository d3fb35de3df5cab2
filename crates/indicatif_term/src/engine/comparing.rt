//! A line that stands beside the one that is to stand there: does it stay, is a part of it written, or all?
ghost use Rattle.std.specs.Prelude.{◌≡◌, ◌≢◌, Err, ◌≤◌, ◌-◌, ◌∷◌, ◌^◌, [], ℕ, List, All, min, length, chars, IsTrue, IsFalse, ◌<◌, IfOk, IfSome, MatchResult, string_bytes};
ghost use Rattle.std.specs.Int.{IsInRange};
ghost use Rattle.indicatif_text.specs.Columns.{width_of, visible};
ghost use Rattle.indicatif_text.specs.Pieces.{TextPiece, text_piece};
ghost use Rattle.indicatif_text.specs.PieceLaws.{run_text};
ghost use Rattle.indicatif_term.specs.Standing.{IsLine};
ghost use Rattle.indicatif_term.specs.Inside.RowEdits.{AreSingle};
ghost use Rattle.indicatif_term.specs.Inside.Inks.{IsRead, is_tidy};
ghost use Rattle.indicatif_term.specs.Inside.Parting.{Parted, IsTurned};
ghost use Rattle.indicatif_term.specs.Inside.Rests.{ArePlain};
ghost use Rattle.indicatif_term.specs.Inside.Plans.{IsPlainRow, IsWithheld, MeasuredLine};
ghost use Rattle.indicatif_term.specs.Inside.Layouts.{IsSized};

use crate::engine::inks::{Alike, char_count, closes, has_escape, split};
use crate::engine::remembered::StandingLine;
use crate::target::window::Window;
use indicatif_text::columns::{Metrics, Piece, Refusal, pieces, width, wrapped};

/// What is written of a line whose text parts from the one that stands there at a byte: some columns from one on, and whether the cursor is
/// to wait behind the last of them; and how many columns the line takes then.
#[derive(Clone, Copy, Drop)]
pub struct Stretch {
    pub from: usize,
    pub gap: usize,
    pub left: usize,
    pub last: usize,
    pub waits: bool,
}

/// What becomes of a line: it stays, a part of it is written, or it is written as a whole.
#[derive(Clone, Copy, Drop)]
pub enum Step {
    Leave,
    Within(Stretch),
    Whole,
}

/// What becomes of the rows where a line comes: how many rows the line takes, how many columns of the last one, and whether each visible
/// character is known to take one, in colours that can be edited.
#[derive(Clone, Copy, Drop)]
pub struct Turn {
    pub step: Step,
    pub rows: usize,
    pub last: usize,
    pub narrow: bool,
}

/// What becomes of a line that stands where another text comes. Only lines of one row whose visible characters take one column each are
/// edited, and aren't measured; so a terminal that takes a character for wider or narrower shows its lines whole. Where the cursor
/// is to wait, edits leave it behind the end of the row.
pub fn compare(
    line: &StandingLine,
    text: &str,
    window: Window,
    waits: bool,
) -> Result<Turn, Refusal>
    requires line { IsLine window.columns line.now }
    ensures sized { MatchResult result (λ t. IsSized window.columns (chars text.now) t) (λ e. IsWithheld window.columns (chars text.now ∷ []) e) }
    ensures turned { IfOk result (λ t. IsTurned window.columns t.step (string_bytes line.now.text) text.now) }
{
    match parting(line, text, window.columns, waits) {
        Some(part) => Ok(Turn {
            step: Step::Within(part),
            rows: 1,
            last: part.last,
            narrow: true,
        }),
        None => measure(text, window),
    }
}

/// The part of a line that is written where another text comes, if both take one row, and the characters of both take one column each:
/// what follows the place where they part, in colours that are read right. Where the cursor is to wait behind the row, the part goes on to
/// its end, and is some column at least.
fn parting(line: &StandingLine, text: &str, width: usize, waits: bool) -> Option<Stretch>
    requires line { IsLine width line.now }
    ensures small { IfSome result (λ p. width ≤ 65535) }
    ensures row { IfSome result (λ p. line.now.rows ≡ 1) }
    ensures parted { IfSome result (λ p. Parted width waits (string_bytes line.now.text) text.now p) }
{
    if line.rows != 1 || width > 65535 || !begin_or_end_alike(&line.text, text) {
        return None;
    }
    let parts = split(&line.text, text);
    let olds = own_count(line, parts)?;
    let news = inked_count(parts.other)?;
    if olds > line.last || line.last > width {
        return None;
    }
    let gap = line.last - olds;
    let room = width - gap;
    if news > room {
        return None;
    }
    let left = if waits { room } else { olds.max(news) };
    if waits && left == 0 {
        return None;
    }
    Some(Stretch {
        from: parts.front.len(),
        gap,
        left,
        last: gap + news,
        waits,
    })
}

/// Whether two texts are short, or begin with the same byte, or end with it. Of others mostly each character differs, so that the line
/// takes fewer calls, and hardly more bytes, as a whole.
fn begin_or_end_alike(a: &str, b: &str) -> bool {
    let own = a.as_bytes();
    let other = b.as_bytes();
    own.len() < 8
        || other.len() < 8
        || own[0] == other[0]
        || own[own.len() - 1] == other[other.len() - 1]
}

/// What becomes of the rows of a line that is written as a whole: its text is measured.
pub fn measure(text: &str, window: Window) -> Result<Turn, Refusal>
    ensures sized { MatchResult result (λ t. IsSized window.columns (chars text.now) t) (λ e. IsWithheld window.columns (chars text.now ∷ []) e) }
    ensures whole { IfOk result (λ t. t.step ≡ Step.Whole) }
{
    if is_plain_row(text, window) {
        return Ok(Turn {
            step: Step::Whole,
            rows: 1,
            last: text.len(),
            narrow: true,
        });
    }
    let metrics = metrics_of(text, window)?;
    Ok(Turn {
        step: Step::Whole,
        rows: metrics.height,
        last: metrics.last_line_width,
        narrow: false,
    })
}

/// The rows of a line, and how many columns it takes of the last one.
pub fn metrics_of(line: &str, window: Window) -> Result<Metrics, Refusal>
    ensures measured { MeasuredLine window.columns (chars line.now) result }
    ensures no_memory { result ≢ Err Refusal.Memory }
{
    wrapped(line, window.columns)
}

/// How many columns the rest of a line that stands takes, if each visible character of the line takes one, in colours that are read right.
/// Where that was looked at before, the shorter of its parts is counted.
fn own_count(line: &StandingLine, parts: Alike<'_>) -> Option<usize>
    requires line { (w : ℕ) × IsLine w line.now }
    requires row { line.now.rows ≡ 1 }
    requires parts { (new : List ℕ) × ArePlain (string_bytes line.now.text) new parts }
    ensures count { IfSome result (λ n. n ≡ min (length (visible (chars parts.entry.own.now))) (2 ^ 64 - 1)) }
    ensures read { IfSome result (λ n. IsRead (chars parts.entry.own.now)) }
    ensures front { IfSome result (λ n. AreSingle (chars parts.entry.front.now)) }
{
    if line.narrow && parts.front.len() < parts.own.len() {
        return Some(line.last.saturating_sub(char_count(parts.front)));
    }
    if !line.narrow {
        narrow_count(parts.front)?;
    }
    inked_count(parts.own)
}

/// How many visible characters a text has, if each takes one column, in colours that are read right.
#[inline(always)]
pub fn inked_count(text: &str) -> Option<usize>
    ensures count { IfSome result (λ n. n ≡ min (length (visible (chars text.now))) (2 ^ 64 - 1)) }
    ensures read { IfSome result (λ n. IsRead (chars text.now)) }
{
    if is_printable(text.as_bytes()) {
        return Some(text.len());
    }
    if !has_escape(text.as_bytes()) {
        return narrow_count(text);
    }
    let mut depth = Depth {
        groups: 0,
        fresh: false,
    };
    let mut count: usize = 0;
    for piece in pieces(text) {
        let more = piece_count(piece)?;
        depth = behind(depth, piece)?;
        count = count.saturating_add(more);
    }
    if depth.groups > 0 {
        return None;
    }
    Some(count)
}

/// How many groups of colour sequences are open, each of sequences next to one another, and whether no character came since the last
/// sequence.
#[derive(Clone, Copy)]
struct Depth {
    groups: usize,
    fresh: bool,
}

/// How many characters a piece shows, if each takes one column.
fn piece_count(piece: Piece<'_>) -> Option<usize>
    ensures count { IfSome result (λ n. n ≡ min (length (run_text (text_piece piece.entry))) (2 ^ 64 - 1)) }
    ensures single { IfSome result (λ n. AreSingle (run_text (text_piece piece.entry))) }
{
    if piece.colour {
        return Some(0);
    }
    narrow_count(piece.text)
}

/// What is open behind a piece, if at most two groups are open.
fn behind(depth: Depth, piece: Piece<'_>) -> Option<Depth>
    ensures { IfSome result (λ d. (ps : List TextPiece) → is_tidy depth.fresh depth.groups (text_piece piece.entry ∷ ps) ≡ is_tidy d.fresh d.groups ps) }
{
    if !piece.colour {
        return Some(Depth {
            groups: depth.groups,
            fresh: false,
        });
    }
    if closes(piece.text) {
        return Some(Depth {
            groups: 0,
            fresh: true,
        });
    }
    if depth.fresh && depth.groups > 0 {
        return Some(depth);
    }
    if depth.groups >= 2 {
        return None;
    }
    Some(Depth {
        groups: depth.groups + 1,
        fresh: true,
    })
}

/// How many characters a text has, if each takes one column. Most are printable ASCII, which is looked at first.
pub fn narrow_count(text: &str) -> Option<usize>
    ensures { IfSome result (λ n. (n ≡ min (length (chars text.now)) (2 ^ 64 - 1)) × AreSingle (chars text.now)) }
{
    if is_printable(text.as_bytes()) {
        return Some(text.len());
    }
    let mut before = ' ';
    let mut count: usize = 0;
    for c in text.chars() {
        if !is_narrow(c, before) {
            return None;
        }
        before = c;
        count = count.saturating_add(1);
    }
    Some(count)
}

/// Whether a character takes one column, where the one before it does: bars have long runs of the same, and most others are printable ASCII.
fn is_narrow(c: char, before: char) -> bool
    requires { width_of before ≡ 1 }
    ensures { IsTrue result → width_of c ≡ 1 }
{
    if c == before {
        return true;
    }
    if c >= ' ' && c <= '~' {
        return true;
    }
    width(c) == 1
}

/// Whether a text is printable ASCII, and fits in a row.
pub fn is_plain_row(text: &str, window: Window) -> bool
    ensures row { IsTrue result → IsPlainRow window.columns text.now }
    ensures some { IsFalse result → 0 < length text.now }
{
    if text.is_empty() {
        return true;
    }
    if text.len() > window.columns {
        return false;
    }
    is_printable(text.as_bytes())
}

/// Whether all bytes are printable ASCII. They are looked at in blocks; the last block may begin within the one before.
#[inline(always)]
fn is_printable(bytes: &[u8]) -> bool
    ensures { IsTrue result → All (IsInRange 0x20 0x7E) bytes.now }
{
    let count = bytes.len();
    if count < 16 {
        return are_printable(bytes);
    }
    let last = count - 16;
    let mut at: usize = 0;
    'whole: while at < last && are_printable(&bytes[at..at + 16]) {
        at += 16;
    }
    at >= last && are_printable(&bytes[last..])
}

/// The same. It looks at each byte, so that many are compared at once.
#[inline(always)]
fn are_printable(bytes: &[u8]) -> bool
    ensures { IsTrue result → All (IsInRange 0x20 0x7E) bytes.now }
{
    let mut all = true;
    'bytes: for byte in bytes {
        all = all & (*byte >= 0x20) & (*byte <= 0x7E);
    }
    all
}
