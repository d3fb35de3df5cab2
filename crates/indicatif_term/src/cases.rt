//! Worked cases of the definitions: each clause computes.
ghost use Rattle.std.specs.Prelude.{◌≡◌, true, false, Some, None, [], ◌∷◌, ◌++◌, flat_map, codes};
ghost use Rattle.indicatif_text.specs.Columns.{Blank, Written, Continued, rows_of};
ghost use Rattle.indicatif_text.specs.ColumnCases.{cell};
ghost use Rattle.indicatif_term.specs.Calls.{move_bytes, line_bytes, clear_bytes, UP, DOWN, RIGHT, LEFT};
ghost use Rattle.indicatif_term.specs.Calm.{Character, Colours, Move, Empty, stroke_bytes, is_quiet};
ghost use Rattle.indicatif_term.specs.Shows.{look, looks_of};
ghost use Rattle.indicatif_term.specs.Lines.{logged_lines};
ghost use Rattle.indicatif_term.specs.Cells.{move_text, quoted_char, written_text};
ghost use Rattle.indicatif_term.specs.Terminal.{after};
ghost use Rattle.indicatif_term.specs.CellCases.{contents_after, cursor_after, picture_after, ESC};
ghost use Rattle.indicatif_term.specs.Cases.{LongLine, ThreeOnTwo, LogAbove, AtTheBottom, KeptScrollsAway, ClearLeavesAbove, FatesOfBars, LogScrolls};
ghost use Rattle.indicatif_term.specs.ModeCases.{OFF, ON, mode_picture, mode_cursor, wraps_then};
ghost use Rattle.indicatif_term.specs.Resizes.{resized_terminal};
ghost use Rattle.indicatif_term.specs.ResizeCases.{fed, picture_at, cursor_at, NotJoined, LiveRowsScrollAway, LogIsCut, RowsBelowDropped, ReachedBelow, KeptRowsScrollAway};
ghost use Rattle.indicatif_term.specs.Inside.Recutting.{glyphs_text, texts_then};
ghost use Rattle.indicatif_term.specs.Inside.Owned.{run_length, through};
ghost use Rattle.indicatif_term.specs.Target.{is_dumb};
ghost use Rattle.indicatif_term.specs.LimiterCases.{TwentyAtOnce, WholeMilliseconds, NoMoreInHand, NoneBefore};

/// The bytes of calls.
pub fn bytes_of_calls()
    ensures up { move_bytes UP 2 ≡ 0x1B ∷ 0x5B ∷ 0x32 ∷ 0x41 ∷ [] }
    ensures down { move_bytes DOWN 10 ≡ 0x1B ∷ 0x5B ∷ 0x31 ∷ 0x30 ∷ 0x42 ∷ [] }
    ensures right { move_bytes RIGHT 1 ≡ 0x1B ∷ 0x5B ∷ 0x31 ∷ 0x43 ∷ [] }
    ensures left { move_bytes LEFT 65535 ≡ 0x1B ∷ 0x5B ∷ 0x36 ∷ 0x35 ∷ 0x35 ∷ 0x33 ∷ 0x35 ∷ 0x44 ∷ [] }
    ensures by_none { move_bytes UP 0 ≡ [] }
    ensures empty_line { line_bytes [] ≡ 0x0D ∷ 0x0A ∷ [] }
    ensures in_turn { move_bytes UP 2 ++ move_bytes UP 0 ++ clear_bytes ++ codes "ab" ++ line_bytes (codes "c")
        ≡ 0x1B ∷ 0x5B ∷ 0x32 ∷ 0x41 ∷ 0x0D ∷ 0x1B ∷ 0x5B ∷ 0x32 ∷ 0x4B ∷ 0x61 ∷ 0x62 ∷ 0x63 ∷ 0x0D ∷ 0x0A ∷ [] }
{}

/// Strokes of a calm text, and some that have no bytes in it: BEL, ESC, DEL, a surrogate, a number past U+10FFFF and a move with another
/// letter; and bytes that aren't quiet, such as ESC `c`.
pub fn calm_texts()
    ensures text { flat_map stroke_bytes (Move UP 2 ∷ Character 0x0D ∷ Empty ∷ Colours (codes "1;31") ∷ Character 0x2588 ∷ Colours [] ∷ Character 0x0D ∷ Character 0x0A ∷ [])
        ≡ 0x1B ∷ (codes "[2A\r") ++ (0x1B ∷ codes "[2K") ++ (0x1B ∷ codes "[1;31m") ++ (0xE2 ∷ 0x96 ∷ 0x88 ∷ 0x1B ∷ codes "[m\r\n") }
    ensures letter { stroke_bytes (Character 0x61) ≡ 0x61 ∷ [] }
    ensures joiner { stroke_bytes (Character 0x308) ≡ 0xCC ∷ 0x88 ∷ [] }
    ensures bell { stroke_bytes (Character 0x07) ≡ [] }
    ensures escape { stroke_bytes (Character 0x1B) ≡ [] }
    ensures delete { stroke_bytes (Character 0x7F) ≡ [] }
    ensures surrogate { stroke_bytes (Character 0xD800) ≡ [] }
    ensures past { stroke_bytes (Character 0x110000) ≡ [] }
    ensures home { stroke_bytes (Move 0x48 1) ≡ [] }
    ensures quiet { is_quiet (codes "a\r\n") ≡ true }
    ensures broken { is_quiet (0x1B ∷ codes "\r\n") ≡ true }
    ensures rings { is_quiet (0x61 ∷ 0x07 ∷ []) ≡ false }
    ensures resets { is_quiet (0x1B ∷ codes "c") ≡ false }
    ensures renames { is_quiet (0x1B ∷ codes "]0;a") ≡ false }
{}

/// How cells look: a written space looks like an empty cell, unless a zero-width character is joined to it.
pub fn looks_of_cells()
    ensures space { look (cell 0x20) ≡ Blank }
    ensures empty { look Blank ≡ Blank }
    ensures letter { look (cell 0x61) ≡ cell 0x61 }
    ensures continued { look Continued ≡ Continued }
    ensures joiner { look (Written (record { base = 0x20; joiners = 0x308 ∷ [] }))
        ≡ Written (record { base = 0x20; joiners = 0x308 ∷ [] }) }
    ensures rows { looks_of (rows_of 3 (codes "a b "))
        ≡ (cell 0x61 ∷ Blank ∷ cell 0x62 ∷ []) ∷ (Blank ∷ Blank ∷ Blank ∷ []) ∷ [] }
{}

/// The lines of texts that are logged.
pub fn logged_texts()
    ensures empty { logged_lines (codes "") ≡ [] ∷ [] }
    ensures one { logged_lines (codes "a") ≡ codes "a" ∷ [] }
    ensures ended { logged_lines (codes "a\n") ≡ codes "a" ∷ [] }
    ensures carriage_return { logged_lines (codes "a\r\nb") ≡ codes "a" ∷ codes "b" ∷ [] }
    ensures blank { logged_lines (codes "a\n\nb") ≡ codes "a" ∷ [] ∷ codes "b" ∷ [] }
    ensures line_feed { logged_lines (codes "\n") ≡ [] ∷ [] }
    ensures bare_return { logged_lines (codes "a\rb\r") ≡ codes "a\rb\r" ∷ [] }
{}

/// Bars that are drawn, logged above, dropped and cleared.
pub fn drawings()
    ensures long_line { LongLine }
    ensures three_on_two { ThreeOnTwo }
    ensures log_above { LogAbove }
    ensures at_the_bottom { AtTheBottom }
    ensures kept_scrolls_away { KeptScrollsAway }
    ensures clear_leaves_above { ClearLeavesAbove }
    ensures fates_of_bars { FatesOfBars }
    ensures log_scrolls { LogScrolls }
{}

/// What a limiter allows.
pub fn limiters()
    ensures twenty_at_once { TwentyAtOnce }
    ensures whole_milliseconds { WholeMilliseconds }
    ensures no_more_in_hand { NoMoreInHand }
    ensures none_before { NoneBefore }
{}

/// Kinds of terminals without cursor moves.
pub fn kinds_of_terminals()
    ensures unset { is_dumb None ≡ true }
    ensures dumb { is_dumb (Some (codes "dumb")) ≡ true }
    ensures xterm { is_dumb (Some (codes "xterm")) ≡ false }
    ensures longer { is_dumb (Some (codes "dumb-color")) ≡ false }
    ensures empty { is_dumb (Some []) ≡ false }
{}

/// Lines that are longer than a row.
pub fn long_lines()
    ensures contents { contents_after 10 5 (codes "A\r\nB\r\nLonger than cols\r\n")
        ≡ codes "A\nB\nLonge\nr tha\nn col\ns" }
    ensures cursor { cursor_after 10 5 (codes "A\r\nB\r\nLonger than cols\r\n") ≡ (6, 0) }
{}

/// A cursor at the end of a full row waits: a move right leaves it there, a move left takes it back.
pub fn waiting()
    ensures waits { cursor_after 2 2 (codes "ab") ≡ (0, 2) }
    ensures right { contents_after 2 2 (codes "ab" ++ ESC ++ codes "[5Cc") ≡ codes "ab\nc" }
    ensures left { contents_after 2 2 (codes "ab" ++ ESC ++ codes "[1Dc") ≡ codes "ac" }
{}

/// Rows that scroll away stay in the picture; the contents are the window's. Spaces at a row's end are blanks, but a row with a written
/// space is a row.
pub fn scrolled()
    ensures picture { picture_after 2 3 (codes "a\r\nb\r\nc") ≡ codes "a" ∷ codes "b" ∷ codes "c" ∷ [] }
    ensures contents { contents_after 2 3 (codes "a\r\nb\r\nc") ≡ codes "b\nc" }
    ensures space { contents_after 3 3 (codes "a \r\n ") ≡ codes "a\n" }
    ensures blank { contents_after 3 3 (codes "a\r\n") ≡ codes "a" }
{}

/// A narrower terminal: rows are wrapped, and a wider one doesn't join them. A space within a row is a glyph, even if it was never written;
/// spaces at its end aren't. A character that is too wide is left out.
pub fn cut_rows()
    ensures narrower { picture_at 4 5 (fed 4 10 (codes "progress bars")) ≡ codes "progr" ∷ codes "ess b" ∷ codes "ars" ∷ [] ∷ [] }
    ensures not_joined { picture_at 4 20 (resized_terminal 5 4 (fed 4 10 (codes "progress bars")))
        ≡ codes "progr" ∷ codes "ess b" ∷ codes "ars" ∷ [] ∷ [] }
    ensures spaces { picture_at 2 2 (fed 2 6 (codes "a" ++ ESC ++ codes "[3Cb ")) ≡ codes "a" ∷ [] ∷ codes "b" ∷ [] }
    ensures wide { picture_at 2 3 (fed 2 4 (codes "ab" ++ 0xE5 ∷ 0x9B ∷ 0xBD ∷ [])) ≡ codes "ab" ∷ (0xE5 ∷ 0x9B ∷ 0xBD ∷ []) ∷ [] }
    ensures too_wide { picture_at 3 1 (fed 3 4 (codes "a" ++ 0xE5 ∷ 0x9B ∷ 0xBD ∷ codes "b")) ≡ codes "a" ∷ codes "b" ∷ [] ∷ [] }
    ensures joiner { picture_at 2 1 (fed 2 4 (codes "a" ++ 0xCC ∷ 0x88 ∷ codes "b")) ≡ (codes "a" ++ 0xCC ∷ 0x88 ∷ []) ∷ codes "b" ∷ [] }
{}

/// Rows that scroll away and come back, and those below the cursor's that are dropped, unless the size stays the same.
pub fn cut_windows()
    ensures scrolled { picture_at 2 5 (fed 2 10 (codes "progress bars")) ≡ codes "progr" ∷ codes "ess b" ∷ codes "ars" ∷ [] }
    ensures back { cursor_at 3 4 (fed 2 4 (codes "a\r\nb\r\nc")) ≡ (2, 1) }
    ensures dropped { picture_at 2 4 (fed 4 4 (codes "a")) ≡ codes "a" ∷ [] ∷ [] }
    ensures lasts { picture_at 2 4 (fed 4 4 (codes "a\r\n\r\nb" ++ ESC ++ codes "[2A")) ≡ codes "a" ∷ [] ∷ codes "b" ∷ [] }
    ensures same { resized_terminal 4 4 (fed 4 4 (codes "a")) ≡ fed 4 4 (codes "a") }
{}

/// Where the cursor goes: from a row's front to the front of the first row that it became; from within a row to that row, with its column
/// as far as possible; waiting at its end, to the end of the last. A cursor above the window goes to its first row.
pub fn cut_cursors()
    ensures front { cursor_at 4 5 (fed 4 10 (codes "progress\r")) ≡ (0, 0) }
    ensures within { cursor_at 4 5 (fed 4 10 (codes "progress" ++ ESC ++ codes "[5D")) ≡ (0, 3) }
    ensures too_far { cursor_at 4 5 (fed 4 10 (codes "progress")) ≡ (0, 5) }
    ensures waiting { cursor_at 4 4 (fed 4 10 (codes "progress b")) ≡ (2, 4) }
    ensures wider { cursor_at 4 12 (fed 4 10 (codes "progress b")) ≡ (0, 12) }
    ensures above { cursor_at 2 3 (fed 2 9 (codes "abcdef\r\nghijkl" ++ ESC ++ codes "[1A")) ≡ (0, 3) }
    ensures half_read { picture_at 1 4 (after (resized_terminal 5 1 (fed 1 4 (0xE5 ∷ 0x9B ∷ []))) (0xBD ∷ [])) ≡ (0xE5 ∷ 0x9B ∷ 0xBD ∷ []) ∷ [] }
{}

/// Lists on a terminal that gets another size.
pub fn cut_lists()
    ensures not_joined { NotJoined }
    ensures live_rows_scroll_away { LiveRowsScrollAway }
    ensures log_is_cut { LogIsCut }
    ensures rows_below_dropped { RowsBelowDropped }
    ensures reached_below { ReachedBelow }
    ensures kept_rows_scroll_away { KeptRowsScrollAway }
{}

/// The lines of one row that the rows of a line become, by their texts.
fn cut_lines()
    ensures each_row { texts_then 10 5 (codes "progress bars") ≡ (codes "progr" ∷ codes "ess b" ∷ []) ∷ (codes "ars" ∷ []) ∷ [] }
    ensures not_joined { texts_then 3 9 (codes "abcd") ≡ (codes "abc" ∷ []) ∷ (codes "d" ∷ []) ∷ [] }
    ensures spaces { texts_then 9 2 (codes " a b  ") ≡ (codes " a" ∷ codes " b" ∷ []) ∷ [] }
    ensures empty { texts_then 4 2 [] ≡ ([] ∷ []) ∷ [] }
    ensures colours { texts_then 4 3 (ESC ++ codes "[1mabc" ++ ESC ++ codes "[0md") ≡ (codes "abc" ∷ codes "d" ∷ []) ∷ [] }
    ensures escape { glyphs_text (record { base = 0x61; joiners = 0x1B ∷ [] } ∷ record { base = 0x5B; joiners = [] } ∷ []) ≡ codes "a" ++ ESC ++ ESC ++ codes "[m[" }
    ensures too_wide { texts_then 4 1 (codes "a" ++ 0xE5 ∷ 0x9B ∷ 0xBD ∷ codes "b") ≡ (codes "a" ∷ codes "b" ∷ []) ∷ [] }
{}

/// Lines of one bar, from the first one on, and those with the first ones.
fn lines_of_a_bar()
    ensures run { run_length 8 (record { bar = 8; rows = 3 } ∷ record { bar = 8; rows = 1 } ∷ record { bar = 9; rows = 3 } ∷ record { bar = 8; rows = 1 } ∷ []) ≡ 2 }
    ensures no_run { run_length 9 (record { bar = 8; rows = 3 } ∷ record { bar = 9; rows = 1 } ∷ []) ≡ 0 }
    ensures all_of_bar { through 1 (record { bar = 8; rows = 3 } ∷ record { bar = 8; rows = 1 } ∷ record { bar = 9; rows = 3 } ∷ []) ≡ 2 }
    ensures none { through 0 (record { bar = 8; rows = 3 } ∷ []) ≡ 0 }
{}

/// Sequences that are no moves, and bytes that are no character.
pub fn odd_sequences()
    ensures no_bracket { contents_after 1 4 (ESC ++ codes "Ma") ≡ codes "Ma" }
    ensures twice { contents_after 1 4 (codes "ab\r" ++ ESC ++ ESC ++ codes "[2Kc") ≡ codes "c" }
    ensures swallowed { contents_after 1 4 (ESC ++ codes "[?25l") ≡ codes "25l" }
    ensures semicolon { contents_after 2 4 (codes "a\r\nb" ++ ESC ++ codes "[1;1Ac") ≡ codes "a\nbc" }
    ensures zeros { contents_after 2 4 (codes "a\r\nb" ++ ESC ++ codes "[007Ac") ≡ codes "ac\nb" }
    ensures huge { contents_after 2 4 (codes "a\r\nb" ++ ESC ++ codes "[99999999999999999999999Ac") ≡ codes "ac\nb" }
    ensures cut_short { contents_after 1 4 (0xE5 ∷ 0x9B ∷ codes "a") ≡ codes "a" }
    ensures stray { contents_after 1 4 (codes "a" ++ 0x80 ∷ 0x80 ∷ 0x80 ∷ 0x80 ∷ 0x80 ∷ codes "b") ≡ codes "ab" }
{}

/// A terminal whose wrap is off: what doesn't fit on a row is written over its end, and the cursor never waits. With its wrap on again it
/// wraps.
pub fn unwrapped()
    ensures on { mode_picture 2 3 (codes "abcd") ≡ codes "abc" ∷ codes "d" ∷ [] }
    ensures off { mode_picture 2 3 (OFF ++ codes "abcd") ≡ codes "abd" ∷ [] ∷ [] }
    ensures cursor { mode_cursor 2 3 (OFF ++ codes "abcd") ≡ (0, 2) }
    ensures waits_no_more { mode_cursor 2 3 (codes "abc" ++ OFF) ≡ (0, 2) }
    ensures on_again { mode_picture 2 3 (OFF ++ codes "abcd" ++ ON ++ codes "ef") ≡ codes "abe" ∷ codes "f" ∷ [] }
    ensures wide { mode_picture 1 4 (OFF ++ codes "abc" ++ 0xE5 ∷ 0x9B ∷ 0xBD ∷ []) ≡ (codes "ab" ++ 0xE5 ∷ 0x9B ∷ 0xBD ∷ []) ∷ [] }
    ensures too_wide { mode_picture 1 1 (OFF ++ codes "a" ++ 0xE5 ∷ 0x9B ∷ 0xBD ∷ []) ≡ codes "a" ∷ [] }
    ensures next_row { mode_picture 2 3 (OFF ++ codes "abcd\r\ne") ≡ codes "abd" ∷ codes "e" ∷ [] }
{}

/// Private sequences: those of other modes change nothing, nor do several modes at once. The end of a row is emptied from the cursor on.
pub fn private_sequences()
    ensures updates { mode_picture 1 3 (ESC ++ codes "[?2026ha" ++ ESC ++ codes "[?2026lb") ≡ codes "ab" ∷ [] }
    ensures others { wraps_then 1 3 (ESC ++ codes "[?25l") ≡ true }
    ensures zeros { wraps_then 1 3 (ESC ++ codes "[?007l") ≡ false }
    ensures several { wraps_then 1 3 (ESC ++ codes "[?7;25l") ≡ true }
    ensures plain { wraps_then 1 3 (ESC ++ codes "[7l") ≡ true }
    ensures half_read { wraps_then 1 3 (ESC ++ codes "[?7") ≡ true }
    ensures end_emptied { mode_picture 1 4 (codes "abcd\r" ++ ESC ++ codes "[2C" ++ ESC ++ codes "[K") ≡ codes "ab" ∷ [] }
    ensures wide_emptied { mode_picture 1 4 (codes "a" ++ 0xE5 ∷ 0x9B ∷ 0xBD ∷ (codes "d\r" ++ ESC ++ codes "[2C" ++ ESC ++ codes "[K")) ≡ codes "a" ∷ [] }
    ensures row_emptied { mode_picture 1 4 (codes "abcd" ++ ESC ++ codes "[2K") ≡ [] ∷ [] }
{}

/// A wide character of which a cell is written over is emptied; one that doesn't fit goes to the next row; one that is
/// wider than the terminal is left out.
pub fn wide()
    ensures over { contents_after 1 4 (0xE5 ∷ 0x9B ∷ 0xBD ∷ (ESC ++ codes "[1Dx")) ≡ codes " x" }
    ensures next_row { picture_after 2 3 (codes "ab" ++ 0xE5 ∷ 0x9B ∷ 0xBD ∷ []) ≡ codes "ab" ∷ (0xE5 ∷ 0x9B ∷ 0xBD ∷ []) ∷ [] }
    ensures too_wide { cursor_after 2 1 (0xE5 ∷ 0x9B ∷ 0xBD ∷ []) ≡ (0, 0) }
    ensures three { cursor_after 1 4 (0xE1 ∷ 0x9F ∷ 0x98 ∷ []) ≡ (0, 3) }
{}

/// A zero-width character joins the one before the cursor; at the front of a row it is left out.
pub fn joiners()
    ensures joined { contents_after 1 4 (codes "a" ++ 0xCC ∷ 0x88 ∷ codes "b") ≡ codes "a" ++ 0xCC ∷ 0x88 ∷ codes "b" }
    ensures front { contents_after 1 4 (0xCC ∷ 0x88 ∷ codes "a") ≡ codes "a" }
    ensures after_empty { contents_after 1 4 (ESC ++ codes "[1C" ++ 0xCC ∷ 0x88 ∷ codes "a") ≡ codes " a" }
{}

/// The calls as text: the text between quotation marks is escaped as Rust escapes a string.
pub fn calls_as_text()
    ensures up { move_text (codes "Up") 2 ≡ codes "Up(2)\n" }
    ensures down { move_text (codes "Down") 10 ≡ codes "Down(10)\n" }
    ensures letter { quoted_char 0x61 ≡ 0x61 ∷ [] }
    ensures quote { quoted_char 0x22 ≡ 0x5C ∷ 0x22 ∷ [] }
    ensures backslash { quoted_char 0x5C ≡ 0x5C ∷ 0x5C ∷ [] }
    ensures line_feed { quoted_char 0x0A ≡ 0x5C ∷ 0x6E ∷ [] }
    ensures carriage_return { quoted_char 0x0D ≡ 0x5C ∷ 0x72 ∷ [] }
    ensures tab { quoted_char 0x09 ≡ 0x5C ∷ 0x74 ∷ [] }
    ensures nul { quoted_char 0x00 ≡ 0x5C ∷ 0x30 ∷ [] }
    ensures bell { quoted_char 0x07 ≡ 0x5C ∷ codes "u{7}" }
    ensures escape { quoted_char 0x1B ≡ 0x5C ∷ codes "u{1b}" }
    ensures delete { quoted_char 0x7F ≡ 0x5C ∷ codes "u{7f}" }
    ensures text { written_text (codes "ab") ≡ codes "Str(\"ab\")\n" }
    ensures escaped { written_text (codes "a\"\n" ++ 0x00 ∷ codes "b") ≡ codes "Str(\"a\\\"\\n\\0b\")\n" }
    ensures wide { written_text (0xE5 ∷ 0x9B ∷ 0xBD ∷ []) ≡ codes "Str(\"" ++ 0xE5 ∷ 0x9B ∷ 0xBD ∷ codes "\")\n" }
{}
