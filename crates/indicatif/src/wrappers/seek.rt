//! The position that a bar shows after moves and seeks of a reader.
//!
//! A reader that jumps back and forth would make a bar jump with it. So for some moves after a seek the greatest of the last places is
//! shown; after enough moves in a row, the bar follows the reader again.
ghost use Rattle.std.specs.Prelude.{◌≡◌, ◌<◌, ◌≤◌, ◌-◌, List, ℕ, [], ◌∷◌, Option, Some, None, option_map};
ghost use Rattle.indicatif.specs.Seek.{Seeks, no_seeks, after_move, after_seek};

use crate::wrappers::ring::MaxRingBuf;
use std::marker::Model;

/// The record of a reader's seeks: the last `HISTORY` places since a seek, from 1 to 255 of them, until there were `RESET` moves in a row.
/// The rule is that of the documentation of the Rust crate `indicatif` 0.18.6.
///
/// ```
/// let mut seeks = SeekMax::<5, 10>::new();
/// seeks.update_seek(100)      // 100
/// seeks.update_seq(100, 10)   // 110
/// seeks.update_seek(0)        // 110: the greatest of the last places
/// ```
#[derive(Drop, Debug)]
pub struct SeekMax<const RESET: u8, const HISTORY: usize> {
    history: Option<(MaxRingBuf<HISTORY>, u8)>,
}

impl<const RESET: u8, const HISTORY: usize> Model for SeekMax<RESET, HISTORY> {
    ghost use Rattle.std.specs.Prelude.{◌<◌};
    ghost use Rattle.indicatif.specs.Seek.{Seeks, seeks_of, HasFewMoves};

    ghost Value = { Seeks };

    ghost view = { λ s. seeks_of s.history };

    ghost invariant = { λ s. HasFewMoves s.history × (0 < HISTORY) × (HISTORY < 256) };
}

impl<const RESET: u8, const HISTORY: usize> SeekMax<RESET, HISTORY> {
    /// The record of no seek. A `HISTORY` of 0, or above 255, doesn't compile. Takes no memory.
    pub fn new() -> Self
        requires { (0 < HISTORY) × (HISTORY < 256) }
        ensures { result ≡ no_seeks }
    {
        SeekMax { history: None }
    }

    /// The place to show after a move of `n` from `previous`, the place that was shown: their sum, at most 2^64 - 1, or, for
    /// fewer than `RESET` moves in a row after a seek, the greatest of the last `HISTORY` places.
    pub fn update_seq(&mut self, previous: u64, n: u64) -> u64
        ensures { (result, self.new) ≡ after_move RESET HISTORY self.old previous n }
    {
        let place = previous.saturating_add(n);
        let Some((places, moves)) = &mut self.history else {
            return place;
        };
        if *moves + 1 >= RESET {
            self.history = None;
            return place;
        }
        *moves += 1;
        places.update(place);
        places.max()
    }

    /// The place to show after a seek to `place`: the greatest of the last `HISTORY` places, this one among them.
    pub fn update_seek(&mut self, place: u64) -> u64
        ensures { (result, self.new) ≡ after_seek HISTORY self.old place }
    {
        if self.history.is_none() {
            self.history = Some((MaxRingBuf::new(), 0));
        }
        match &mut self.history {
            Some((places, moves)) => {
                *moves = 0;
                places.update(place);
                places.max()
            }
            None => place,
        }
    }
}
