//! The order of a board's bars, and a slot for each.
ghost use Rattle.std.specs.Prelude.{◌≡◌, ◌<◌, ◌+◌, ◌^◌, IfOk, IfErr, OnErr};
ghost use Rattle.indicatif_board.specs.Slots.{opening_slots, seated, unseated, head_unseated, made_by, slot_of, IsSeated};

use crate::members::{drop_front, move_front, place_of_bar, put_at, queue_at, take_at};
use crate::places::Places;
use indicatif_text::columns::Refusal;
use std::alloc::Global;
use std::collections::VecDeque;
use std::marker::Model;

/// The order of a board's bars by their numbers, and a slot for each.
///
/// Numbers are counted from 0 in the order of insertion, and never used again. Slots are used again: the one that was freed last first, and
/// a new one only if none is free, so there are never more than there were bars at a time. Each slot that was ever used has one bar or is
/// free. The rule is that of the documentation of the Rust crate `indicatif` 0.18.6.
///
/// ```
/// let mut state = MultiState::new(alloc);
/// let first = state.insert(0)?;
/// let second = state.insert(0)?; // stands before the first
/// assert_eq!(state.order(), [second, first].as_slice());
/// assert_eq!(state.slot(second), Some(1));
/// ```
pub struct MultiState {
    order: Vec<u64>,
    /// In a queue, inserting or removing a bar at the head moves nothing.
    slots: VecDeque<usize>,
    /// With room for all slots, so that none is lost.
    free: Vec<usize>,
    /// The number of the next bar; none if there is no number left.
    next: Option<u64>,
    /// Where bars are looked for first.
    places: Places,
}

impl Drop for MultiState {
    fn drop(self) {
        let MultiState {
            order: _,
            slots: _,
            free: _,
            next: _,
            places: _,
        } = self;
    }
}

/// Contracts see the bars' numbers in their order, their slots, the free slots, and how many bars were ever inserted.
impl Model for MultiState {
    ghost use Rattle.std.specs.Prelude.{◌≤◌, ◌+◌, vec_len, vec_capacity};
    ghost use Rattle.indicatif_board.specs.Slots.{SlotTable, IsSeated, made_by};
    ghost use Rattle.std.specs.VecDeque.{deque_len};

    ghost Value = { SlotTable };

    ghost view = { λ s. record { order = s.order.items; slots = s.slots.items; free = s.free.items; made = made_by s.next } };

    ghost invariant = { λ s. IsSeated (record { order = s.order.items; slots = s.slots.items; free = s.free.items; made = made_by s.next })
        × (deque_len s.slots + vec_len s.free ≤ vec_capacity s.free) };
}

impl MultiState {
    ghost use Rattle.indicatif_board.specs.Inside.Standing.{seat_of};

    /// No bars and no slots. Takes no memory.
    pub fn new(alloc: Global) -> MultiState
        ensures { result ≡ opening_slots }
    {
        MultiState {
            order: Vec::new(alloc),
            slots: VecDeque::new(alloc),
            free: Vec::new(alloc),
            next: Some(0),
            places: Places::new(alloc),
        }
    }

    /// The numbers in the order, from the top.
    pub fn order(&self) -> &[u64]
        ensures order { result.now ≡ self.now.order }
        ensures seated { IsSeated self.now }
    {
        &self.order
    }

    /// A bar's place in the order; past its end if it isn't there. It is looked for first at its last known place.
    pub(crate) fn place(&self, number: u64) -> usize
        ensures { result ≡ seat_of number self.now.order }
    {
        let at = self.places.last(number);
        if at < self.order.len() && self.order[at] == number {
            return at;
        }
        place_of_bar(&self.order, number)
    }

    /// Keeps a bar's place in the order, where it is looked for first.
    pub(crate) fn note_place(&mut self, number: u64, at: usize)
        ensures { self.new ≡ self.old }
    {
        self.places.note(number, at);
    }

    /// The slot of a bar's number; `None` if it isn't in the order.
    pub fn slot(&self, number: u64) -> Option<usize>
        ensures { result ≡ slot_of number self.now }
    {
        for (at, bar) in self.order.iter().enumerate() {
            if *bar == number {
                return Some(self.slots[at]);
            }
        }
        None
    }

    /// Inserts a bar after the first `at` bars, or after all others if there are fewer. Returns its number.
    ///
    /// Refused: `Memory`, also if there is no number left below 2^64; then nothing has changed.
    pub fn insert(&mut self, at: usize) -> Result<u64, Refusal>
        ensures number { IfOk result (λ n. n ≡ self.old.made) }
        ensures fits { IfOk result (λ n. n < 2 ^ 64) }
        ensures inserted { IfOk result (λ _. self.new ≡ seated at self.old) }
        ensures seated { IsSeated self.old }
        ensures memory { IfErr result (λ e. e ≡ Refusal.Memory) }
        ensures unchanged { OnErr result (self.new ≡ self.old) }
    {
        let Some(number) = self.next else {
            return Err(Refusal::Memory);
        };
        self.order.reserve(1)?;
        self.slots.reserve(1)?;
        self.free.reserve(self.slots.len() + 1)?;
        let slot = self.free.pop().unwrap_or(self.slots.len());
        let at = at.min(self.order.len());
        put_at(&mut self.order, at, number);
        queue_at(&mut self.slots, at, slot);
        self.next = number_after(number);
        self.places.fit(self.order.len());
        self.places.inserted(number, at);
        Ok(number)
    }

    /// Removes the bar at a place, if there is one. Its slot is used next. Takes no memory.
    pub fn remove(&mut self, at: usize)
        ensures removed { self.new ≡ unseated at self.old }
        ensures seated { IsSeated self.old }
    {
        if at < self.order.len() {
            self.order.remove(at);
            self.free.push_reserved(take_at(&mut self.slots, at));
            self.places.removed(at);
        }
    }

    /// Removes the first `count` bars, or all if there are fewer. Takes no memory.
    pub fn remove_first(&mut self, count: usize)
        ensures removed { self.new ≡ head_unseated count self.old }
        ensures seated { IsSeated self.old }
    {
        let count = count.min(self.order.len());
        move_front(&mut self.slots, count, &mut self.free);
        drop_front(&mut self.order, count);
        self.places.removed_first(count);
    }
}

/// The number of the bar after this one; none past 2^64 - 1.
fn number_after(number: u64) -> Option<u64>
    ensures { made_by result ≡ number + 1 }
{
    number.checked_add(1)
}
