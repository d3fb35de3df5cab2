//! Characters of one column, which are written into a row together.
ghost use Rattle.std.specs.Prelude.{◌≡◌, ◌+◌, ◌*◌, ◌≤◌, ◌<◌, ◌++◌, All, IsTrue, OnOk, OnErr, IfErr, length, take, drop, slice_index, replicate};
ghost use Rattle.std.specs.Int.{IsInRange};
ghost use Rattle.std.specs.List.{repeat};
ghost use Rattle.indicatif_term.specs.Inside.Runs.{run_chars, narrow_cells};

use crate::cells::cell::Cell;
use indicatif_text::columns::Refusal;

/// Characters of one column each.
#[derive(Clone, Copy, Drop)]
pub(crate) enum NarrowRun<'a> {
    /// Printable ASCII.
    Ascii(&'a [u8]),
    /// A character, and how often it is repeated.
    Repeated(char, usize),
}

impl NarrowRun<'_> {
    /// How many characters the run has.
    pub(crate) fn len(self) -> usize
        ensures { result ≡ length (run_chars self.entry) }
    {
        match self {
            NarrowRun::Ascii(text) => text.len(),
            NarrowRun::Repeated(_, count) => count,
        }
    }

    /// The first character of the run.
    pub(crate) fn first(self) -> char
        requires { 0 < length (run_chars self) }
        ensures { result ≡ slice_index (run_chars self.entry) 0 }
    {
        match self {
            NarrowRun::Ascii(text) => char::from(text[0]),
            NarrowRun::Repeated(c, _) => c,
        }
    }

    /// Appends the cells of the run's characters. Refused: `Memory`; then nothing has changed.
    pub(crate) fn append_to(self, cells: &mut Vec<Cell>) -> Result<(), Refusal>
        ensures appended { OnOk result (cells.new.items ≡ cells.old.items ++ narrow_cells (run_chars self.entry)) }
        ensures err { OnErr result (cells.new.items ≡ cells.old.items) }
        ensures refused { IfErr result (λ e. e ≡ Refusal.Memory) }
    {
        match self {
            NarrowRun::Ascii(text) => append_ascii(cells, text),
            NarrowRun::Repeated(c, count) => append_repeated(cells, c, count),
        }
    }
}

/// Appends the cells of a run of ASCII characters. Refused: `Memory`; then nothing has changed.
fn append_ascii(cells: &mut Vec<Cell>, text: &[u8]) -> Result<(), Refusal>
    ensures appended { OnOk result (cells.new.items ≡ cells.old.items ++ narrow_cells text.now) }
    ensures err { OnErr result (cells.new.items ≡ cells.old.items) }
    ensures refused { IfErr result (λ e. e ≡ Refusal.Memory) }
{
    cells.reserve(text.len())?;
    for byte in text {
        cells.push_reserved(Cell::plain(char::from(*byte)));
    }
    Ok(())
}

/// Appends the cell of a run's only character `count` times. Refused: `Memory`; then nothing has changed.
fn append_repeated(cells: &mut Vec<Cell>, c: char, count: usize) -> Result<(), Refusal>
    ensures appended { OnOk result (cells.new.items ≡ cells.old.items ++ narrow_cells (replicate count c)) }
    ensures err { OnErr result (cells.new.items ≡ cells.old.items) }
    ensures refused { IfErr result (λ e. e ≡ Refusal.Memory) }
{
    cells.reserve(count)?;
    for _turn in 0..count {
        cells.push_reserved(Cell::plain(c));
    }
    Ok(())
}

/// How many bytes of printable ASCII stand at the front, up to `most`.
pub(crate) fn printable_len(bytes: &[u8], most: usize) -> usize
    ensures within { result ≤ length bytes.now }
    ensures few { result ≤ most }
    ensures printable { All (IsInRange 0x20 0x7E) (take result bytes.now) }
{
    let mut count: usize = 0;
    'bytes: while count < most
        && count < bytes.len()
        && bytes[count] >= 0x20
        && bytes[count] <= 0x7E
    {
        count += 1;
    }
    count
}

/// How often the first three bytes are repeated at the front, up to `most`.
pub(crate) fn repeats_of_three(bytes: &[u8], most: usize) -> usize
    requires three { 3 ≤ length bytes.now }
    requires some { 0 < most }
    ensures some { 0 < result }
    ensures few { result ≤ most }
    ensures within { 3 * result ≤ length bytes.now }
    ensures repeats { take (3 * result) bytes.now ≡ repeat result (take 3 bytes.now) }
{
    let unit = &bytes[..3];
    let mut count: usize = 1;
    'bytes: while count < most && stands_at(bytes, 3 * count, unit) {
        count += 1;
    }
    count
}

/// Whether the three bytes that a run repeats stand at a place.
#[inline(always)]
fn stands_at(bytes: &[u8], at: usize, unit: &[u8]) -> bool
    requires three { length unit.now ≡ 3 }
    requires within { at ≤ length bytes.now }
    ensures stands { IsTrue result → take 3 (drop at bytes.now) ≡ unit.now }
    ensures fits { IsTrue result → at + 3 ≤ length bytes.now }
{
    bytes.len() - at >= 3
        && bytes[at] == unit[0]
        && bytes[at + 1] == unit[1]
        && bytes[at + 2] == unit[2]
}
