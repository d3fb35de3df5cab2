//! What engines show of one draw, and of fixed lines, also after a failure and over what it left; and how many draws a limiter allows at once.
ghost use Rattle.std.specs.Prelude.{◌≡◌, ◌⊎◌, ◌++◌, ◌∷◌, [], ℕ, ◌+◌, map, take, replicate, codes, false, IsTrue, IfOk, IfErr, string_bytes};
ghost use Rattle.indicatif_text.specs.Columns.{rows_of};
ghost use Rattle.indicatif_term.specs.Calls.{State};
ghost use Rattle.indicatif_term.specs.Engines.{Fits, engine_term};
ghost use Rattle.indicatif_term.specs.Lines.{all_lines, are_plain, bar_lines, is_fault};
ghost use Rattle.indicatif_term.specs.Lists.{Lists, all_rows, drawn, forgotten_lists, opening_lists};
ghost use Rattle.indicatif_term.specs.Pictures.{picture_text, row_text};
ghost use Rattle.indicatif_term.specs.Screen.{Screen};
ghost use Rattle.indicatif_term.specs.Shows.{Placed, Rests};
ghost use Rattle.indicatif_term.specs.Terminal.{Terminal, blank_terminal};
ghost use Rattle.uses.specs.Readings.{AreTextsOf, StandBelow};

use indicatif_term::cells::InMemoryTerm;
use indicatif_term::laws::{
    a_new_terminal_is_an_opening, what_is_known_again, what_is_shown_is_read,
    what_stands_over_the_rest,
};
use indicatif_term::target::{
    Engine, Keep, MultiProgressAlignment, RateLimiter, Segment, TermLike,
};
use indicatif_text::columns::Refusal;
use std::alloc::Global;
use std::io::ErrorKind;

/// The texts of the rows that bars show on a new terminal of this size.
pub fn rows_shown(alloc: Global, size: (u16, u16), bars: &[Segment]) -> Result<Vec<String>, Refusal>
    ensures { IfOk result (λ texts. let frame = map bar_lines bars.now in IsTrue (are_plain (all_lines frame)) →
        AreTextsOf (map (λ text. string_bytes text) texts.items)
        (all_rows size.1 (drawn size.1 size.0 false 0 frame opening_lists))) }
{
    let mut engine = Engine::new(alloc, InMemoryTerm::new(alloc, size.0, size.1)?);
    engine.draw(bars, 0, MultiProgressAlignment::Top)?;
    a_new_terminal_is_an_opening();
    what_is_shown_is_read();
    Ok(engine.term().picture()?)
}

/// Logs `a.txt` above three lines on a new terminal of 4 rows and 5 columns, and draws two lines in their place. The second of these stands
/// there already, fills its row and ends with a colour. Nothing is left of the other lines.
///
/// Refused: `Memory`, also as the terminal's own failure.
pub fn lines_in_place(
    engine: &mut Engine<InMemoryTerm>,
    first: &[Segment],
    second: &[Segment],
) -> Result<(), Refusal>
    requires new { Fits engine.old opening_lists × ((engine_term engine.old).terminal ≡ blank_terminal 4 5) }
    requires first { map bar_lines first.now
        ≡ record { bar = 1; lines = codes "x" ∷ (codes "b.txt" ++ 0x1B ∷ codes "[0m") ∷ codes "z" ∷ [] } ∷ [] }
    requires second { map bar_lines second.now
        ≡ record { bar = 1; lines = codes "y" ∷ (codes "b.txt" ++ 0x1B ∷ codes "[0m") ∷ [] } ∷ [] }
    ensures shown { IfOk result (λ _. (blank : ℕ) × (picture_text (engine_term engine.new).terminal.screen
        ≡ codes "a.txt" ∷ codes "y" ∷ codes "b.txt" ∷ replicate blank [])) }
    ensures refused { IfErr result (λ e. (e ≡ Refusal.Memory) ⊎ (e ≡ Refusal.Terminal ErrorKind.OutOfMemory)) }
{
    a_new_terminal_is_an_opening();
    what_is_shown_is_read();
    engine.log("a.txt", first, MultiProgressAlignment::Top)?;
    engine.draw(second, 0, MultiProgressAlignment::Top)
}

/// Two bars at the bottom of a new terminal of 4 rows and 5 columns. The second is dropped while the first stands above it, and the first
/// once it stands alone below two blank rows; then two more rows let one of these scroll away. It stays above `a.txt`, and nothing else
/// does. Returns whether the second bar's rows were kept.
pub fn rows_of_gone_bars(
    engine: &mut Engine<InMemoryTerm>,
    both: &[Segment],
    first: &[Segment],
    second: &[Segment],
) -> Result<Keep, Refusal>
    requires new { Fits engine.old opening_lists × ((engine_term engine.old).terminal ≡ blank_terminal 4 5) }
    requires both { map bar_lines both.now
        ≡ record { bar = 2; lines = codes "b" ∷ [] } ∷ record { bar = 1; lines = codes "x" ∷ codes "y" ∷ [] } ∷ [] }
    requires first { map bar_lines first.now ≡ record { bar = 2; lines = codes "b" ∷ [] } ∷ [] }
    requires second { map bar_lines second.now ≡ record { bar = 1; lines = codes "x" ∷ codes "y" ∷ [] } ∷ [] }
    ensures { IfOk result (λ fate. (fate ≡ Keep.Behind) × (blank : ℕ) × (picture_text (engine_term engine.new).terminal.screen
        ≡ [] ∷ codes "a.txt" ∷ [] ∷ [] ∷ codes "b" ∷ replicate blank [])) }
{
    a_new_terminal_is_an_opening();
    what_is_shown_is_read();
    engine.draw(both, 0, MultiProgressAlignment::Bottom)?;
    let fate = engine.keep(1);
    engine.draw(first, 0, MultiProgressAlignment::Bottom)?;
    let _passed = engine.keep(2);
    engine.draw(second, 0, MultiProgressAlignment::Bottom)?;
    engine.log("a.txt", first, MultiProgressAlignment::Bottom)?;
    Ok(fate)
}

/// Logs a name on a terminal of 4 rows and 10 columns that has failed. If a line end and an emptied row lead it to an opening, the name
/// stands on that row, and what stood above still does.
pub fn name_behind_a_failure<T: TermLike + Drop>(engine: &mut Engine<T>) -> Result<(), Refusal>
    requires failed { Fits engine.old forgotten_lists }
    requires columns { (T.view (engine_term engine.old)).columns ≡ 10 }
    requires rows { (T.view (engine_term engine.old)).rows ≡ 4 }
    ensures { IfOk result (λ _. (opening : Screen) (t : Terminal) →
        (T.view (engine_term engine.old)).told ≡ State t → Rests 10 4 opening forgotten_lists t →
        (next : Terminal) × (blank : ℕ) × ((T.view (engine_term engine.new)).told ≡ State next)
        × (picture_text next.screen ≡ map row_text (take opening.row opening.rows) ++ codes "a.txt" ∷ replicate blank [])) }
{
    what_is_shown_is_read();
    engine.log("a.txt", &[], MultiProgressAlignment::Top)
}

/// Logs two names on a terminal of 4 rows and 10 columns that has failed, and once more if it fails again. Wherever it broke off and whatever
/// stands below its cursor: names that were logged stand on rows of their own, below the rows that stood down to the cursor's.
pub fn names_logged_again<T: TermLike + Drop>(engine: &mut Engine<T>) -> Result<(), Refusal>
    requires failed { Fits engine.old forgotten_lists }
    requires columns { (T.view (engine_term engine.old)).columns ≡ 10 }
    requires rows { (T.view (engine_term engine.old)).rows ≡ 4 }
    ensures { IfOk result (λ _. (t : Terminal) → Placed 10 4 forgotten_lists t →
        (T.view (engine_term engine.old)).told ≡ State t →
        (next : Terminal) × ((T.view (engine_term engine.new)).told ≡ State next)
        × StandBelow (take (t.screen.row + 1) t.screen.rows)
        (rows_of 10 (codes "a.txt") ++ rows_of 10 (codes "b")) next.screen.rows) }
{
    what_is_known_again();
    what_stands_over_the_rest();
    match engine.log("a.txt\nb", &[], MultiProgressAlignment::Top) {
        Err(Refusal::Terminal(_)) => engine.log("a.txt\nb", &[], MultiProgressAlignment::Top),
        said => said,
    }
}

/// Draws on an engine. If its terminal fails, the engine remembers no line that it drew before.
pub fn forgotten_by_a_failure<T: TermLike + Drop>(
    engine: &mut Engine<T>,
    frame: &[Segment],
) -> Result<(), Refusal>
    ensures { (lists : Lists) → Fits engine.old lists → IfErr result (λ e. IsTrue (is_fault e) → Fits engine.new forgotten_lists) }
{
    engine.draw(frame, 0, MultiProgressAlignment::Top)
}

/// Whether a limiter of 20 draws a second allows one more at the moment of its making, after 20: it doesn't.
pub fn one_too_many() -> Result<bool, Refusal>
    ensures { IfOk result (λ allowed. allowed ≡ false) }
{
    let mut limiter = RateLimiter::new(20, 0)?;
    for _ in 0..20_u8 {
        let _allowed = limiter.allow(0);
    }
    Ok(limiter.allow(0))
}
