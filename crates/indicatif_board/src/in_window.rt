//! The bars of a board that its terminal may have rows for, and how they are put there.
ghost use Rattle.std.specs.Prelude.{◌≡◌, ◌⊎◌, ◌≤◌, Bool, Result, map, min, take, length};
ghost use Rattle.indicatif_term.specs.Lines.{all_lines, bar_lines};
ghost use Rattle.indicatif_term.specs.Target.{is_bottom};
ghost use Rattle.indicatif_term.specs.declared.engine.Engine.{Engine};
ghost use Rattle.indicatif_bar.specs.Shown.{PutsFrame};
ghost use Rattle.indicatif_bar.specs.Stages.{writing_as};
ghost use Rattle.indicatif_board.specs.Inside.InWindow.{drawn_from};
ghost use Rattle.indicatif_text.specs.declared.refusal.Refusal.{Refusal};

use indicatif_bar::stage::Writing;
use indicatif_term::target::{Engine, MultiProgressAlignment, Segment, TermLike};
use indicatif_text::columns::Refusal;

/// The width of the widest character. On a terminal with as many columns no line is too wide.
const WIDEST: u16 = 3;

/// How many bars from the front have to be considered, in a frame whose first `gone` bars are gone: what fits of these fits of all. Bars
/// below the terminal's last row aren't, unless one of their lines may be too wide: each line takes at least one row.
pub fn bars_in_window<T: TermLike + Drop>(
    engine: &Engine<T>,
    frame: &[Segment],
    gone: usize,
    writing: &Writing<'_>,
) -> usize
    requires { gone ≤ length frame.now }
    ensures within { result ≤ length frame.now }
    ensures sees { (bottom : Bool) (new : Engine T) (answer : Result Unit Refusal) →
        PutsFrame T.view (writing_as writing.now) bottom (min gone result) (map bar_lines (take result frame.now)) engine.now new answer →
        PutsFrame T.view (writing_as writing.now) bottom gone (map bar_lines frame.now) engine.now new answer }
{
    if engine.term().width() < WIDEST {
        return frame.len();
    }
    let rows = engine.term().height() as usize;
    let first = drawn_from(writing, gone);
    first + bars_with_lines(&frame[first..], rows)
}

/// The place of the first bar that is drawn: below a text those that are gone are left out.
fn drawn_from(writing: &Writing<'_>, gone: usize) -> usize
    ensures { result ≡ drawn_from (writing_as writing.now) gone }
{
    match writing {
        Writing::TextAndFrame(_) => gone,
        Writing::Frame | Writing::NoFrame => 0,
    }
}

/// How many bars from the front have `lines` lines together; all if they have fewer.
fn bars_with_lines(frame: &[Segment], lines: usize) -> usize
    ensures within { result ≤ length frame.now }
    ensures enough { (result ≡ length frame.now) ⊎ (lines ≤ length (all_lines (map bar_lines (take result frame.now)))) }
{
    let mut found = 0_usize;
    for (count, bar) in frame.iter().enumerate() {
        if lines <= found {
            return count;
        }
        found = found.saturating_add(bar.lines.len());
    }
    frame.len()
}

/// Writes on an engine's terminal; the first `gone` bars of the frame are those that are gone.
#[inline(always)]
pub fn put<T: TermLike + Drop>(
    engine: &mut Engine<T>,
    frame: &[Segment],
    gone: usize,
    alignment: MultiProgressAlignment,
    writing: Writing<'_>,
) -> Result<(), Refusal>
    requires { gone ≤ length frame.now }
    ensures { PutsFrame T.view (writing_as writing.entry) (is_bottom alignment) gone (map bar_lines frame.now) engine.old engine.new result }
{
    match writing {
        Writing::Frame => engine.draw(frame, gone, alignment),
        Writing::TextAndFrame(text) => engine.log(text, &frame[gone..], alignment),
        Writing::NoFrame => engine.clear(),
    }
}
