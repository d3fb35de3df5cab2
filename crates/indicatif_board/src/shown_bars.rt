//! The bars of a board with the lines that they show, and how these are laid out.
ghost use Rattle.std.specs.Prelude.{◌≡◌, ◌<◌, ◌≤◌, ◌^◌, MatchResult, ℕ, Option, Some, None, Ok, false, IsTrue, map, IfSome, IfOk, IfErr, OnErr};
ghost use Rattle.std.specs.VecDeque.{deque_len};
ghost use Rattle.indicatif_term.specs.Limiters.{Limiter};
ghost use Rattle.indicatif_bar.specs.Commands.{BarRecord};
ghost use Rattle.indicatif_bar.specs.Machines.{Target};
ghost use Rattle.indicatif_board.specs.Boards.{BoardState, Location, opening_board, index_of, taken_in, ownerless_on};
ghost use Rattle.indicatif_board.specs.Members.{place_of, without, is_head, said_of};
ghost use Rattle.indicatif_board.specs.Slots.{next_slot, seated, slot_of, unseated};
ghost use Rattle.indicatif_board.specs.Inside.ShownBars.{HasPlace, named_laid_out, named_layout_takes};

use crate::members::{Seated, queue_at, take_at};
use crate::slots::MultiState;
use indicatif_bar::stage::relay;
use indicatif_bar::state::{BarState, SpareLines};
use indicatif_bar::style::Tracks;
use indicatif_term::target::{MultiProgressAlignment, Segment};
use indicatif_text::columns::{Moment, Refusal};
use std::alloc::Global;
use std::collections::VecDeque;

/// Bars in their order, and their last laid-out lines.
pub struct ShownBars<K> {
    pub alloc: Global,
    /// The bars. In a queue, inserting or removing a bar at the head moves nothing.
    pub members: VecDeque<Seated<K>>,
    /// Their numbers and lines, at the same places.
    pub frame: VecDeque<Segment>,
    /// Memory of lines that were laid out before.
    pub spare: SpareLines,
    /// The same numbers with their slots.
    pub table: MultiState,
    pub alignment: MultiProgressAlignment,
    ghost even: { deque_len members ≡ deque_len frame },
    ghost seated: { map (λ s. s.bar) frame.items ≡ table.order },
}

impl<K: Drop> Drop for ShownBars<K> {
    fn drop(self) {
        let ShownBars {
            alloc: _,
            members: _,
            frame: _,
            spare: _,
            table: _,
            alignment: _,
        } = self;
    }
}

impl<K: Tracks> ShownBars<K> {
    ghost use Rattle.indicatif_board.specs.ShownBars.{AreShownAs, record_on};
    ghost use Rattle.indicatif_board.specs.Inside.Standing.{seat_of, StandsAt, AllStay, AllOthersStay};

    /// No shown bars, at the top. Takes no memory.
    pub fn new(alloc: Global) -> Self
        ensures state { (limiter : Option Limiter) → AreShownAs result (opening_board limiter) }
        ensures records { (number : ℕ) → record_on number result ≡ None }
    {
        ShownBars {
            alloc,
            members: VecDeque::new(alloc),
            frame: VecDeque::new(alloc),
            spare: SpareLines::new(alloc),
            table: MultiState::new(alloc),
            alignment: MultiProgressAlignment::Top,
        }
    }

    /// Inserts a shown bar after the first `at` bars, and returns its number. The bar comes back if there is no memory or no number left;
    /// then the others are unchanged.
    pub fn take_in(&mut self, at: usize, bar: BarState<K>) -> Result<u64, BarState<K>>
        requires within { at ≤ deque_len self.old.members }
        ensures taken { (s : BoardState (BarRecord K)) (spot : Location) → AreShownAs self.old s → at ≡ index_of spot s.members →
            MatchResult result (λ n. (s.made ≡ n) × (n < 2 ^ 64) × AreShownAs self.new (taken_in spot bar s)) (λ b. (b ≡ bar) × AreShownAs self.new s) }
        ensures bar { IfErr result (λ b. b ≡ bar) }
        ensures records { MatchResult result (λ n. (record_on n self.old ≡ None) × (record_on n self.new ≡ Some bar) × AllOthersStay n self.old self.new) (λ _. AllStay self.old self.new) }
        ensures slot { MatchResult result (λ n. (slot_of n self.new.table ≡ Some (next_slot self.old.table)) × (self.new.table ≡ seated at self.old.table))
            (λ _. self.new.table ≡ self.old.table) }
    {
        if self.members.reserve(1).is_err() {
            return Err(bar);
        }
        if self.frame.reserve(1).is_err() {
            return Err(bar);
        }
        let member = match Seated::new(self.alloc, bar) {
            Ok(member) => member,
            Err(bar) => return Err(bar),
        };
        let number = match self.table.insert(at) {
            Ok(number) => number,
            Err(_) => return Err(member.into_bar()),
        };
        queue_at(&mut self.members, at, member);
        let lines = Vec::new(self.alloc);
        queue_at(&mut self.frame, at, Segment { bar: number, lines });
        Ok(number)
    }

    /// Removes the shown bar at a place.
    pub fn take_out(&mut self, at: usize) -> BarState<K>
        requires within { at < deque_len self.old.members }
        ensures out { (s : BoardState (BarRecord K)) (number : ℕ) → AreShownAs self.old s → at ≡ place_of number s.members →
            AreShownAs self.new (record s { members = without number s.members }) }
        ensures bar { (s : BoardState (BarRecord K)) (number : ℕ) (other : BarRecord K) → AreShownAs self.old s → at ≡ place_of number s.members →
            result ≡ said_of other (λ bar. bar) number s.members }
        ensures slots { self.new.table ≡ unseated at self.old.table }
        ensures record { (number : ℕ) → StandsAt number at self.old → record_on number self.old ≡ Some result }
        ensures gone { (number : ℕ) → at ≡ seat_of number self.old.table.order → record_on number self.new ≡ None }
        ensures others { (number : ℕ) → at ≡ seat_of number self.old.table.order → AllOthersStay number self.old self.new }
    {
        let member = take_at(&mut self.members, at);
        take_at(&mut self.frame, at);
        self.table.remove(at);
        member.into_bar()
    }

    /// Whether a bar is the first that is shown.
    pub fn is_first(&self, number: u64) -> bool
        ensures first { (s : BoardState (BarRecord K)) → AreShownAs self.now s → result ≡ is_head number s.members }
        ensures some { IsTrue result → 0 < deque_len self.now.members }
        ensures seat { IsTrue result → 0 ≡ seat_of number self.now.table.order }
    {
        match self.frame.front() {
            Some(segment) => segment.bar == number,
            None => false,
        }
    }

    /// A bar's place among the shown ones; past the last one if it isn't there.
    pub fn place(&self, number: u64) -> usize
        ensures seat { result ≡ seat_of number self.now.table.order }
        ensures most { result ≤ deque_len self.now.members }
    {
        self.table.place(number)
    }

    /// Keeps the place of this shown bar, if one is named: it is looked for there first.
    pub fn note_place(&mut self, bar: Option<usize>)
        requires placed { IfSome bar (λ at. at < deque_len self.old.members) }
        ensures { self.new ≡ self.old }
    {
        if let Some(at) = bar {
            self.table.note_place(self.frame[at].bar, at);
        }
    }

    /// Marks a shown bar as ownerless, if it is there.
    pub fn set_ownerless(&mut self, number: u64)
        ensures ownerless { (s : BoardState (BarRecord K)) → AreShownAs self.old s → AreShownAs self.new (ownerless_on number s) }
        ensures slots { self.new.table ≡ self.old.table }
        ensures record { record_on number self.new ≡ None }
        ensures others { AllOthersStay number self.old self.new }
    {
        let at = self.place(number);
        if at < self.members.len() {
            self.members[at].set_ownerless();
        }
    }

    /// Lays a bar's lines out and stores them, if one is named, in the memory of the old ones.
    pub fn lay_out(&mut self, bar: Option<usize>, width: u16, now: Moment) -> Result<(), Refusal>
        requires placed { IfSome bar (λ at. at < deque_len self.old.members) }
        ensures memory { IfErr result (λ e. (e ≡ Refusal.Memory) × ((s : BoardState (BarRecord K)) (number : Option ℕ) →
            HasPlace number bar s.members → AreShownAs self.old s → IsTrue (named_layout_takes K.means number s))) }
        ensures unchanged { OnErr result (self.new ≡ self.old) }
        ensures slots { self.new.table ≡ self.old.table }
        ensures records { AllStay self.old self.new }
        ensures laid { IfOk result (λ _. (target : Target) (s : BoardState (BarRecord K)) (number : Option ℕ) →
            target.columns ≡ width → HasPlace number bar s.members → AreShownAs self.old s →
            AreShownAs self.new (named_laid_out K.means target now number s)) }
    {
        match bar {
            Some(at) => {
                let stored = &mut self.frame[at].lines;
                relay(self.members[at].bar(), stored, &mut self.spare, width, now)
            }
            None => Ok(()),
        }
    }
}
