//! Runs: visible characters of the same width, one after another.
ghost use Rattle.std.specs.Prelude.{IsTrue, ◌+◌, ◌++◌, encode_utf8, ◌*◌, ◌≡◌, ◌≤◌, ◌<◌, List, [], ℕ, take, drop, length, chars, get_or, All, MatchOption};
ghost use Rattle.std.specs.Str.{IsCharBoundary};
ghost use Rattle.indicatif_text.specs.Columns.{visible, width_of};
ghost use Rattle.indicatif_text.specs.Inside.Runs.{times_then, IsPrintable, PassesRun};

use crate::columns::width;
use crate::pieces::after_colours;
use crate::spans::split_first;
use std::marker::Model;

/// A number of characters of the same width.
#[derive(Clone, Copy, Drop)]
pub(crate) struct WidthRun {
    pub columns: usize,
    pub count: usize,
}

/// The characters of a text outside colour sequences, taken off the front in runs.
#[derive(Drop)]
pub(crate) struct WidthRuns<'a> {
    rest: &'a str,
}

impl<'a> Model for WidthRuns<'a> {
    ghost use Rattle.std.specs.Prelude.{List, ℕ, chars};
    ghost use Rattle.indicatif_text.specs.Columns.{visible};

    ghost Value = { List ℕ };

    ghost view = { λ r. visible (chars r.rest.now) };
}

impl<'a> WidthRuns<'a> {
    pub(crate) fn of(text: &'a str) -> WidthRuns<'a>
        ensures { result ≡ visible (chars text.now) }
    {
        WidthRuns { rest: text }
    }

    /// Takes a run off the front: printable ASCII, or another character; a character of three bytes with all its repetitions.
    #[inline(always)]
    pub(crate) fn next_run(&mut self, last: &mut LastWidth) -> Option<WidthRun>
        ensures { MatchOption result (self.old ≡ [])
            (λ r. (0 < r.count) × PassesRun r.columns self.old r.count self.new) }
    {
        let (run, rest) = first_run(self.rest, last)?;
        self.rest = rest;
        Some(run)
    }
}

/// A character and its columns, kept for when it comes again.
#[derive(Drop)]
pub(crate) struct LastWidth {
    of: char,
    columns: usize,
    ghost known: { columns ≡ width_of of },
}

impl LastWidth {
    pub(crate) fn new() -> LastWidth {
        LastWidth {
            of: ' ',
            columns: width(' '),
        }
    }

    #[inline(always)]
    fn width(&mut self, c: char) -> usize
        ensures { result ≡ width_of c }
    {
        if c != self.of {
            self.columns = width(c);
            self.of = c;
        }
        self.columns
    }
}

/// The first visible run of a text, and the rest; none if nothing is visible.
#[inline(always)]
fn first_run<'a>(text: &'a str, last: &mut LastWidth) -> Option<(WidthRun, &'a str)>
    ensures { MatchOption result (visible (chars text.now) ≡ [])
        (λ r. (0 < r.0.count) × PassesRun r.0.columns (visible (chars text.now)) r.0.count (visible (chars r.1.now))) }
{
    let text = after_colours(text);
    let printable = printable_len(text);
    if printable > 0 {
        let run = WidthRun {
            columns: 1,
            count: printable,
        };
        return Some((run, &text[printable..]));
    }
    let Some((c, rest)) = split_first(text) else {
        return None;
    };
    let repeats = repeats(rest, c);
    let run = WidthRun {
        columns: last.width(c),
        count: 1 + repeats,
    };
    Some((run, &rest[3 * repeats..]))
}

/// How often a character of three bytes is repeated at the front of a text; 0 for one of fewer or more bytes.
#[inline(always)]
fn repeats(text: &str, c: char) -> usize
    ensures repeats { text.now ≡ times_then result (encode_utf8 c) (drop (3 * result) text.now) }
    ensures fits { 3 * result ≤ length text.now }
    ensures boundary { IsCharBoundary text.now (3 * result) }
    ensures no_escape { 0 < result → c ≡ 0x1B → ⊥ }
{
    if c.len_utf8() != 3 {
        return 0;
    }
    let mut buffer = [0u8; 4];
    let unit = c.encode_utf8(&mut buffer).as_bytes();
    triples(text.as_bytes(), unit)
}

/// How often three bytes are repeated at the front.
#[inline(always)]
fn triples(bytes: &[u8], unit: &[u8]) -> usize
    requires { length unit.now ≡ 3 }
    ensures repeats { bytes.now ≡ times_then result unit.now (drop (3 * result) bytes.now) }
    ensures fits { 3 * result ≤ length bytes.now }
{
    let mut count = blocks_of_triples(bytes, unit);
    let mut at = 3 * count;
    'bytes: while stands_at(bytes, at, unit) {
        at += 3;
        count += 1;
    }
    count
}

/// How often three bytes are repeated at the front, in blocks of seventeen.
#[inline(always)]
fn blocks_of_triples(bytes: &[u8], unit: &[u8]) -> usize
    requires { length unit.now ≡ 3 }
    ensures repeats { bytes.now ≡ times_then result unit.now (drop (3 * result) bytes.now) }
    ensures fits { 3 * result ≤ length bytes.now }
{
    let mut at: usize = 0;
    let mut count: usize = 0;
    'bytes: while repeats_at(bytes, at, unit) {
        at += 51;
        count += 17;
    }
    count
}

/// Whether three bytes are repeated seventeen times at a place: then the 48 bytes after them equal those from them on.
#[inline(always)]
fn repeats_at(bytes: &[u8], at: usize, unit: &[u8]) -> bool
    requires three { length unit.now ≡ 3 }
    requires within { at ≤ length bytes.now }
    ensures stands { IsTrue result → drop at bytes.now ≡ times_then 17 unit.now (drop (at + 51) bytes.now) }
    ensures fits { IsTrue result → at + 51 ≤ length bytes.now }
{
    if bytes.len() - at < 51 || !stands_at(bytes, at, unit) {
        return false;
    }
    are_same(&bytes[at + 3..at + 51], &bytes[at..at + 48])
}

/// Whether two slices are equal. It looks at each byte, so that many are compared at once.
#[inline(always)]
fn are_same(a: &[u8], b: &[u8]) -> bool
    requires { length a.now ≡ length b.now }
    ensures { IsTrue result → a.now ≡ b.now }
{
    let mut same = true;
    for at in 0..a.len() {
        same = same & (a[at] == b[at]);
    }
    same
}

/// Whether three bytes stand at a place.
#[inline(always)]
fn stands_at(bytes: &[u8], at: usize, unit: &[u8]) -> bool
    requires three { length unit.now ≡ 3 }
    requires within { at ≤ length bytes.now }
    ensures stands { IsTrue result → drop at bytes.now ≡ unit.now ++ drop (at + 3) bytes.now }
    ensures fits { IsTrue result → at + 3 ≤ length bytes.now }
{
    bytes.len() - at >= 3
        && bytes[at] == unit[0]
        && bytes[at + 1] == unit[1]
        && bytes[at + 2] == unit[2]
}

/// The number of bytes that are looked at together.
const BLOCK: usize = 16;

/// Whether all bytes are printable ASCII. It looks at each, so that many are compared at once.
#[inline(always)]
fn all_printable(bytes: &[u8]) -> bool
    ensures { IsTrue result → All IsPrintable bytes.now }
{
    let mut all = true;
    'bytes: for byte in bytes {
        all = all & (*byte >= 0x20) & (*byte <= 0x7E);
    }
    all
}

/// Whether a block of printable ASCII stands at a place.
#[inline(always)]
fn block_stands_at(bytes: &[u8], at: usize) -> bool
    requires { at ≤ length bytes.now }
    ensures fits { IsTrue result → at + 16 ≤ length bytes.now }
    ensures printable { IsTrue result → All IsPrintable (take 16 (drop at bytes.now)) }
{
    if bytes.len() - at < BLOCK {
        return false;
    }
    all_printable(&bytes[at..at + BLOCK])
}

/// How many bytes of whole printable ASCII blocks stand at the front.
#[inline(always)]
fn blocks_len(bytes: &[u8]) -> usize
    ensures printable { All IsPrintable (take result bytes.now) }
    ensures fits { result ≤ length bytes.now }
{
    let mut count: usize = 0;
    'whole: while block_stands_at(bytes, count) {
        count += BLOCK;
    }
    count
}

/// Whether printable ASCII stands at a place.
#[inline(always)]
fn printable_at(bytes: &[u8], at: usize) -> bool
    ensures within { IsTrue result → at < length bytes.now }
    ensures printable { IsTrue result → IsPrintable (get_or bytes.now at 0) }
{
    at < bytes.len() && bytes[at] >= 0x20 && bytes[at] <= 0x7E
}

/// How many bytes of printable ASCII stand at the front; most are looked at in blocks.
#[inline(always)]
fn long_printable_len(bytes: &[u8]) -> usize
    ensures printable { All IsPrintable (take result bytes.now) }
    ensures fits { result ≤ length bytes.now }
{
    let mut count = blocks_len(bytes);
    'bytes: while printable_at(bytes, count) {
        count += 1;
    }
    count
}

/// How many bytes of printable ASCII stand at the front of a text. No block is looked at if the second byte isn't, as between colour
/// sequences.
#[inline(always)]
fn printable_len(text: &str) -> usize
    ensures printable { All IsPrintable (take result text.now) }
    ensures fits { result ≤ length text.now }
    ensures boundary { IsCharBoundary text.now result }
{
    let bytes = text.as_bytes();
    if printable_at(bytes, 1) {
        return long_printable_len(bytes);
    }
    if printable_at(bytes, 0) { 1 } else { 0 }
}
