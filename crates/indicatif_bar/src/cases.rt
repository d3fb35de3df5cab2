//! Worked cases of the definitions: each clause computes.
ghost use Rattle.std.specs.Prelude.{ℕ};
ghost use Rattle.indicatif_bar.specs.Styles.{BarStyle};
ghost use Rattle.indicatif_bar.specs.CommandCases.{Fractions, Greatest, Rates, TwelveSteps, RateAndEta, Asks, ResetRates, WrapsAndStops, ElapsedTimes, TabWidths, Finishes, Resets};
ghost use Rattle.indicatif_bar.specs.StyleCases.{TrackersCases, WideBarCases, PercentCases, MessageCases, BarCases, TickCases, RateCases, LineCases, EmptyCases, FaultCases};
ghost use Rattle.indicatif_bar.specs.ScriptCases.{Dragged, ScrolledAway, LogsCut, HiddenSize, HowManyStand};
ghost use Rattle.indicatif_bar.specs.Cases.{Lines, ShorterMessage, EmptyMessage, WideCharacter, NoColumn, Nowhere, LogsAbove, WideLog, Cleared, LateElapsed, BrokenOff, BrokenBytes, EmptiedRow, LimitedDraws};

/// The lines of messages.
pub fn messages()
    ensures lines { Lines }
{}

/// The answers of lists of calls, and the rows that stand afterwards.
pub fn runs()
    ensures shorter_message { ShorterMessage }
    ensures empty_message { EmptyMessage }
    ensures wide_character { WideCharacter }
    ensures no_column { NoColumn }
    ensures nowhere { Nowhere }
    ensures logs_above { LogsAbove }
    ensures wide_log { WideLog }
    ensures cleared { Cleared }
    ensures late_elapsed { LateElapsed }
{}

/// The answers of scripts, that is, calls with changes of the terminal's size between them, and the rows that stand afterwards.
pub fn scripts()
    ensures dragged { Dragged }
    ensures scrolled_away { ScrolledAway }
    ensures logs_cut { LogsCut }
    ensures hidden_size { HiddenSize }
    ensures standing { HowManyStand }
{}

/// What a call that the terminal broke off leaves, and the next one.
pub fn failures()
    ensures broken_off { BrokenOff }
    ensures broken_bytes { BrokenBytes }
    ensures emptied_row { EmptiedRow }
{}

/// How often a limited bar is drawn.
pub fn limits()
    ensures limited_draws { LimitedDraws }
{}

/// Fractions, rates and times.
pub fn measures()
    ensures fractions { Fractions }
    ensures greatest { Greatest }
    ensures rates { Rates }
{}

/// The records after lists of commands, and the draws that they ask for.
pub fn commands()
    ensures twelve_steps { (style : BarStyle ℕ) → TwelveSteps style }
    ensures rate_and_eta { (style : BarStyle ℕ) → RateAndEta style }
    ensures asks { (style : BarStyle ℕ) → Asks style }
    ensures reset_rates { (style : BarStyle ℕ) → ResetRates style }
    ensures ends { (style : BarStyle ℕ) → WrapsAndStops style }
    ensures elapsed_times { (style : BarStyle ℕ) → ElapsedTimes style }
    ensures tab_widths { (style : BarStyle ℕ) → TabWidths style }
    ensures finishes { (style : BarStyle ℕ) → Finishes style }
    ensures resets { (style : BarStyle ℕ) → Resets style }
{}

/// The lines of styles.
pub fn lines()
    ensures trackers { TrackersCases }
    ensures wide_bars { WideBarCases }
    ensures percents { PercentCases }
    ensures messages { MessageCases }
    ensures bars { BarCases }
    ensures ticks { TickCases }
    ensures rates { RateCases }
    ensures lines { LineCases }
    ensures empty { EmptyCases }
    ensures faults { FaultCases }
{}
