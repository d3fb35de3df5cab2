//! What an engine remembers of its rows: their counts, and how these go on.
ghost use Rattle.std.specs.Prelude.{◌≡◌, ◌⊎◌, ℕ, ◌+◌, ◌-◌, ◌<◌, ◌≤◌, ◌^◌, min, max, List, IsTrue, Bool};
ghost use Rattle.indicatif_term.specs.Lists.{blanks_for};

use crate::engine::layout::Plan;

/// What became of the rows of a bar that is gone.
///
/// ```
/// engine.keep(1); // Keep::Passed: its rows were the frame's first, and are kept rows now
/// ```
#[derive(Clone, Copy, Debug, Drop, PartialEq, Eq)]
pub enum Keep {
    /// It has no live row. Nothing changed.
    Absent,
    /// The first live rows were its own, and are kept rows now.
    Passed,
    /// Another bar's rows stand before its own. Nothing changed.
    Behind,
}

/// Rows that a drawing is the first to reach: how far the row above them is below the cursor's, and how many they are.
#[derive(Clone, Copy, Drop)]
pub struct Fresh {
    pub down: usize,
    pub rows: usize,
    pub ghost small: { down + rows ≤ 65535 },
}

impl Fresh {
    /// No fresh row.
    pub fn none() -> Fresh
        ensures { result.rows ≡ 0 }
    {
        Fresh { down: 0, rows: 0 }
    }
}

/// The counts of the rows that may still change.
#[derive(Clone, Copy, Drop)]
pub struct Counts {
    /// Rows of bars that are gone.
    pub kept: usize,
    /// Blank rows above the bars.
    pub blanks: usize,
    /// The blank rows and those of the bars.
    pub live: usize,
    /// The rows reached, counted from the first kept row.
    pub reached: usize,
    /// Whether the cursor rests at the front of the row after the lists.
    pub below: bool,
    /// Whether anything may stand in the rows that weren't reached: the terminal has failed, and not all of its window was reached since.
    pub under: bool,
    pub ghost blank: { blanks ≤ live },
    pub ghost fits: { kept + live ≤ reached },
    pub ghost small: { reached ≤ 65535 },
    pub ghost rests: { IsTrue below → kept + live < reached },
}

impl Counts {
    ghost use Rattle.indicatif_term.specs.Lists.{Lists, BarLines, opening_lists, forgotten_lists, drawn, logged, cleared, blanks_for};
    ghost use Rattle.indicatif_term.specs.Counts.{CountsOf};
    ghost use Rattle.indicatif_term.specs.Inside.Plans.{IsPlan, IsSummed, text_height};
    ghost use Rattle.indicatif_term.specs.Inside.Fills.{fill_columns};
    ghost use Rattle.indicatif_term.specs.Inside.Counts.{IsFresh, IsAtop, IsPassed};

    /// The counts before the first drawing: the cursor is on the first row, at its front.
    pub fn new() -> Counts
        ensures { CountsOf result opening_lists }
    {
        Counts {
            kept: 0,
            blanks: 0,
            live: 0,
            reached: 1,
            below: true,
            under: false,
        }
    }

    /// The counts after the terminal has failed, as before the first drawing: anything may stand below.
    pub fn forgotten() -> Counts
        ensures { CountsOf result forgotten_lists }
    {
        Counts {
            kept: 0,
            blanks: 0,
            live: 0,
            reached: 1,
            below: true,
            under: true,
        }
    }

    /// How many rows can be reached below those that were, so that the cursor's row stays in a window of `height` rows.
    fn room(&self, height: usize) -> usize
        ensures within { 0 < result → self.now.reached + result ≤ height }
        ensures atop { 0 < result → IsAtop self.now → self.now.reached + result < height }
        ensures all { (height ≤ self.now.reached + result) ⊎ (IsAtop self.now × (height ≤ self.now.reached + result + 1)) }
    {
        let room = height.saturating_sub(self.reached);
        if self.kept + self.live == 0 && !self.below {
            return room.saturating_sub(1);
        }
        room
    }

    /// The rows up to `end`, counted from the first kept one, that no drawing has reached, if anything may stand in them: as far as the
    /// cursor's row stays in a window of `height` rows. All others are below the window, and come blank.
    pub fn fresh(&self, end: usize, height: usize) -> Fresh
        requires small { height ≤ 65535 }
        ensures { IsFresh self.now end height result }
    {
        if !self.under {
            return Fresh::none();
        }
        let standing = self.kept + self.live;
        let more = end.saturating_sub(self.reached);
        let room = self.room(height);
        if more == 0 || room == 0 {
            return Fresh::none();
        }
        let free = self.reached - standing;
        let down = if self.below { free - 1 } else { free };
        Fresh {
            down,
            rows: more.min(room),
        }
    }

    /// The counts after a draw of this plan below blank rows, on a terminal of `height` rows.
    pub fn drawn(&self, plan: Plan, blanks: usize, height: usize) -> Counts
        requires plan { IsSummed height plan }
        requires small { height ≤ 65535 }
        requires room { blanks + plan.rows ≤ 65535 }
        ensures { (w pass : ℕ) (bottom : Bool) (frame : List BarLines) (l : Lists) →
            CountsOf self.now l → IsPlan w height pass frame plan →
            blanks ≡ blanks_for bottom self.now.live 0 plan.rows →
            CountsOf result (drawn w height bottom pass frame l) }
    {
        if plan.passing == 0 {
            let rows = NextRows {
                kept: self.kept,
                blanks,
                live: blanks + plan.rows,
                under: self.under,
            };
            return rows.settled(self.reached, height);
        }
        let rows = NextRows {
            kept: self.kept + (blanks + plan.passing_rows),
            blanks: 0,
            live: plan.rows - plan.passing_rows,
            under: self.under,
        };
        rows.settled(self.reached, height)
    }

    /// The counts after a log of a text above blank rows and this plan, on a terminal of `height` rows.
    pub fn logged(&self, text: usize, plan: Plan, blanks: usize, height: usize) -> Counts
        requires plan { IsSummed height plan }
        requires small { height ≤ 65535 }
        requires room { blanks + plan.rows ≤ 65535 }
        ensures { (w : ℕ) (bottom : Bool) (lines : List (List ℕ)) (frame : List BarLines) (l : Lists) →
            CountsOf self.now l → IsPlan w height 0 frame plan →
            text ≡ min (text_height w lines) (2 ^ 64 - 1) →
            blanks ≡ blanks_for bottom (self.now.kept + self.now.live) text plan.rows →
            CountsOf result (logged w height bottom lines frame l) }
    {
        let rows = NextRows {
            kept: 0,
            blanks,
            live: blanks + plan.rows,
            under: self.under,
        };
        rows.settled(self.reached.saturating_sub(text), height)
    }

    /// The counts after a clear: no row is kept or live.
    pub fn cleared(&self) -> Counts
        ensures { (l : Lists) → CountsOf self.now l → CountsOf result (cleared l) }
    {
        Counts {
            kept: 0,
            blanks: 0,
            live: 0,
            reached: self.reached,
            below: self.reached > 0,
            under: self.under,
        }
    }

    /// The counts after the blank rows and `rows` live ones below them became kept ones.
    pub fn passed(&self, rows: usize) -> Counts
        ensures { self.now.blanks + rows ≤ self.now.live → IsPassed self.now rows result }
    {
        let gone = self.blanks.saturating_add(rows).min(self.live);
        Counts {
            kept: self.kept + gone,
            blanks: 0,
            live: self.live - gone,
            reached: self.reached,
            below: self.below,
            under: self.under,
        }
    }

    /// How many spaces fill the row of a last line that takes `last` of the terminal's columns; none where there is no line, or the cursor
    /// goes below.
    pub fn fill(&self, last: Option<usize>, width: usize) -> usize
        ensures { result ≡ fill_columns self.now.below width last }
    {
        match last {
            Some(columns) if !self.below => width.saturating_sub(columns),
            _ => 0,
        }
    }
}

/// The blank rows of a bottom alignment: where bars show, the rows that are free and that they do not take.
pub fn blanks_of(bottom: bool, free: usize, bars: usize) -> usize
    ensures blanks { (taken text : ℕ) → free ≡ taken - text → result ≡ blanks_for bottom taken text bars }
    ensures room { result + bars ≤ max free bars }
{
    if bottom && bars > 0 {
        free.saturating_sub(bars)
    } else {
        0
    }
}

/// The rows after a drawing, before those that have scrolled away join the ones above.
#[derive(Clone, Copy, Drop)]
struct NextRows {
    kept: usize,
    blanks: usize,
    /// All rows of live.
    live: usize,
    /// Whether anything may stand in the rows that weren't reached.
    under: bool,
}

impl NextRows {
    ghost use Rattle.indicatif_term.specs.Inside.Counts.{SettledCounts};

    /// The counts where those kept rows that have scrolled away join those above. `reached` rows were reached before.
    fn settled(self, reached: usize, height: usize) -> Counts
        requires blank { self.blanks ≤ self.live }
        requires reached_small { reached ≤ 65535 }
        requires height_small { height ≤ 65535 }
        requires live_small { self.live ≤ 65535 }
        requires kept_small { self.kept ≤ reached + 65535 }
        ensures { SettledCounts reached height self.kept self.blanks self.live self.under result }
    {
        let reached = reached.max(self.kept + self.live);
        let gone = reached.saturating_sub(height).min(self.kept);
        let kept = self.kept - gone;
        let reached = reached - gone;
        Counts {
            kept,
            blanks: self.blanks,
            live: self.live,
            reached,
            below: self.live == 0 && kept < reached,
            under: self.under && reached < height,
        }
    }
}
