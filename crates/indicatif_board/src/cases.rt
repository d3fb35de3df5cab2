//! Worked cases of the definitions: each clause computes.
ghost use Rattle.indicatif_board.specs.ReceiptCases.{SecondOfTwo};
ghost use Rattle.indicatif_board.specs.SlotCases.{UsedAgain, FreedLastFirst, EachItsOwn};
ghost use Rattle.indicatif_board.specs.BoardCases.{TwoBars, ThreeBarsOnTwo, LeftAbove, BothDropped, BoardAtTheBottom, Ordered, EmptyLog, RemovedLater, WaitsBehind, LongLog, RemovedTwice, TooWideForAll, TwentyDrawsAtOnce, Unseen, DropRefused, BrokenBelow, LateOnBoard, OneIsLeft, OwnText, ClearedRows, ClearedHead, WithoutColumns};

use indicatif_bar::style::Tracks;

/// The rows after calls of a board.
pub fn rows()
    ensures two_bars { TwoBars }
    ensures three_on_two { ThreeBarsOnTwo }
    ensures left_above { LeftAbove }
    ensures both_dropped { BothDropped }
    ensures at_the_bottom { BoardAtTheBottom }
    ensures empty_log { EmptyLog }
    ensures removed_later { RemovedLater }
    ensures waits_behind { WaitsBehind }
    ensures long_log { LongLog }
{}

/// The rows after a text of one bar, and after the bars' rows were erased.
pub fn texts_and_clears()
    ensures own_text { OwnText }
    ensures cleared_rows { ClearedRows }
    ensures cleared_head { ClearedHead }
    ensures without_columns { WithoutColumns }
{}

/// The answers of a board's calls.
pub fn answers()
    ensures ordered { Ordered }
    ensures removed_twice { RemovedTwice }
    ensures too_wide_for_all { TooWideForAll }
    ensures twenty_at_once { TwentyDrawsAtOnce }
    ensures unseen { Unseen }
{}

/// A drop whose own draw is refused.
pub fn refused_drops()
    ensures { DropRefused }
{}

/// A draw that the terminal breaks off, with a text above the bars, and a text after it.
pub fn broken_draws()
    ensures { BrokenBelow }
{}

/// Real bars on a board.
pub fn bars()
    ensures late_on_board { LateOnBoard }
    ensures one_is_left { OneIsLeft }
{}

/// The slots of bars that come and go.
pub fn slots()
    ensures used_again { UsedAgain }
    ensures freed_last_first { FreedLastFirst }
    ensures each_its_own { EachItsOwn }
{}

/// Which receipts a history holds.
pub fn receipts<K: Tracks, T>()
    ensures { SecondOfTwo K T }
{}
