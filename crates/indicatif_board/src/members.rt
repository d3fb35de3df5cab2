//! The members of a board: bars in their order, with their lines beside them.
ghost use Rattle.std.specs.Prelude.{◌≡◌, ◌<◌, ◌≤◌, ◌+◌, ◌++◌, ◌⊎◌, ◌↔◌, true, false, drop, take, length, vec_len, vec_capacity, slice_index_or, ◌==◌, Err, IfOk, IfErr, OnErr, IsTrue, IsFalse, MatchResult};
ghost use Rattle.std.specs.List.{insert, remove, prefix_len, position_or_len};
ghost use Rattle.std.specs.VecDeque.{deque_len, deque_capacity};
ghost use Rattle.indicatif_bar.specs.Progress.{is_finished};
ghost use Rattle.indicatif_bar.specs.Commands.{FinishUsingStyle, command_as, obeyed, after_drop, takes_memory, is_beyond_clock};

use indicatif_bar::state::{Ask, BarCommand, BarState, Text};
use indicatif_bar::style::Tracks;
use indicatif_text::columns::{Moment, Refusal};
use std::alloc::Global;
use std::collections::VecDeque;
use std::marker::Model;

/// A bar on a board. Its number and its lines stand at the same place of the board's frame.
#[derive(Drop)]
pub struct Member<K> {
    /// The bar's record.
    pub bar: BarState<K>,
    /// Whether its owner is gone.
    pub dropped: bool,
}

/// A member in its own allocation, so that inserting or removing one moves no other's record.
#[derive(Drop)]
pub struct Seated<K> {
    member: Box<Member<K>>,
}

/// Contracts see the member.
impl<K> Model for Seated<K> {
    ghost use Rattle.indicatif_board.specs.declared.members.Member.{Member};

    ghost Value = { Member K };

    ghost view = { λ s. s.member.value };
}

impl<K: Tracks> Seated<K> {
    /// A member of a board: a bar with its owner. It comes back if there is no memory for it.
    pub fn new(alloc: Global, bar: BarState<K>) -> Result<Seated<K>, BarState<K>>
        ensures { MatchResult result (λ m. m ≡ record { bar = bar; dropped = false }) (λ b. b ≡ bar) }
    {
        let dropped = false;
        match Box::new(alloc, Member { bar, dropped }) {
            Ok(member) => Ok(Seated { member }),
            Err(failed) => Err(failed.value.bar),
        }
    }

    /// The record of the member's bar.
    pub fn bar(&self) -> &BarState<K>
        ensures { result.now ≡ self.now.bar }
    {
        &self.member.bar
    }

    /// Takes the member's bar out.
    pub fn into_bar(self) -> BarState<K>
        ensures { result ≡ self.bar }
    {
        Box::into_inner(self.member).bar
    }

    /// Whether the member's owner is gone.
    pub fn is_dropped(&self) -> bool
        ensures { result ≡ self.now.dropped }
    {
        self.member.dropped
    }

    /// Makes a command of the member's bar, as `BarState::tell`.
    pub fn obey<S: Text>(&mut self, command: BarCommand<K, S>, now: Moment) -> Result<Ask, Refusal>
        ensures done { IfOk result (λ ask. (self.new.bar, ask) ≡ obeyed K.means (command_as S.bytes command) self.old.bar now) }
        ensures unchanged { OnErr result (self.new.bar ≡ self.old.bar) }
        ensures beyond { (result ≡ Err Refusal.ElapsedBeyondClock) ↔ IsTrue (is_beyond_clock (command_as S.bytes command) now) }
        ensures memory { result ≡ Err Refusal.Memory → IsTrue (takes_memory (command_as S.bytes command) self.old.bar) }
        ensures no_other { IfErr result (λ e. (e ≡ Refusal.ElapsedBeyondClock) ⊎ (e ≡ Refusal.Memory)) }
        ensures stays { self.new ≡ record self.old { bar = self.new.bar } }
    {
        self.member.bar.tell(command, now)
    }

    /// Finishes the member's bar as `BarState::dropped`; the member isn't marked as ownerless yet.
    pub fn lose_owner(&mut self, now: Moment) -> Result<Ask, Refusal>
        ensures done { IfOk result (λ ask. (self.new.bar, ask) ≡ after_drop self.old.bar now) }
        ensures unchanged { OnErr result (self.new.bar ≡ self.old.bar) }
        ensures memory { IfErr result (λ e. (e ≡ Refusal.Memory) × IsFalse (is_finished self.old.bar.progress)
            × IsTrue (takes_memory FinishUsingStyle self.old.bar)) }
        ensures stays { self.new ≡ record self.old { bar = self.new.bar } }
    {
        self.member.bar.dropped(now)
    }

    /// Marks the member as ownerless.
    pub fn set_ownerless(&mut self)
        ensures { self.new ≡ record self.old { dropped = true } }
    {
        self.member.dropped = true;
    }
}

/// How many members at the head are dropped.
pub fn leading<K: Tracks>(members: &VecDeque<Seated<K>>) -> usize
    ensures { result ≡ prefix_len (λ m. m.dropped) members.now.items }
{
    for count in 0..members.len() {
        if !members[count].is_dropped() {
            return count;
        }
    }
    members.len()
}

/// The place of a bar's number in an order; past its end if it isn't there.
pub fn place_of_bar(order: &[u64], bar: u64) -> usize
    ensures { result ≡ position_or_len (λ n. n == bar) order.now }
{
    for (count, number) in order.iter().enumerate() {
        if *number == bar {
            return count;
        }
    }
    order.len()
}

/// Removes the first `count` items of a list. Takes no memory.
pub fn drop_front<X: Drop>(items: &mut Vec<X>, count: usize)
    requires { count ≤ vec_len items.old }
    ensures { items.new.items ≡ drop count items.old.items }
{
    if count == 0 {
        return;
    }
    items.drain(..count);
}

/// Inserts an item into a list, in memory that was taken before.
pub fn put_at<X: Drop>(items: &mut Vec<X>, at: usize, item: X)
    requires within { at ≤ vec_len items.old }
    requires room { vec_len items.old < vec_capacity items.old }
    ensures { items.new.items ≡ insert items.old.items at item }
{
    match items.insert(at, item) {
        Ok(()) | Err(_) => (),
    }
}

/// Appends items to a list, in memory that was taken before.
fn put_behind(items: &mut Vec<usize>, more: &[usize])
    requires room { vec_len items.old + length more.now ≤ vec_capacity items.old }
    ensures items { items.new.items ≡ items.old.items ++ more.now }
    ensures room { vec_capacity items.old ≤ vec_capacity items.new }
{
    match items.extend_from_slice(more) {
        Ok(()) | Err(_) => (),
    }
}

// ---- queues, whose shorter side moves where one is put in or taken out

/// Inserts an item into a list, in memory that was taken before.
pub fn queue_at<X: Drop>(items: &mut VecDeque<X>, at: usize, item: X)
    requires within { at ≤ deque_len items.old }
    requires room { deque_len items.old < deque_capacity items.old }
    ensures { items.new.items ≡ insert items.old.items at item }
{
    if at == 0 {
        items.push_front_reserved(item);
        return;
    }
    match items.insert(at, item) {
        Ok(()) | Err(_) => (),
    }
}

/// Removes the item at a place of a list.
pub fn take_at<X: Drop>(items: &mut VecDeque<X>, at: usize) -> X
    requires within { at < deque_len items.old }
    ensures value { result ≡ slice_index_or items.old.items at result }
    ensures items { items.new.items ≡ remove items.old.items at }
{
    if at == 0 {
        return items.pop_front().unwrap();
    }
    items.remove(at).unwrap()
}

/// Removes the first `count` items of a list. Takes no memory.
pub fn take_front<X: Drop>(items: &mut VecDeque<X>, count: usize)
    requires { count ≤ deque_len items.old }
    ensures { items.new.items ≡ drop count items.old.items }
{
    if count == 0 {
        return;
    }
    items.drain(..count);
}

/// Moves the first `count` items of a list to the end of `others`, in memory that was taken before.
pub fn move_front(items: &mut VecDeque<usize>, count: usize, others: &mut Vec<usize>)
    requires within { count ≤ deque_len items.old }
    requires room { vec_len others.old + count ≤ vec_capacity others.old }
    ensures items { items.new.items ≡ drop count items.old.items }
    ensures others { others.new.items ≡ others.old.items ++ take count items.old.items }
    ensures room { vec_capacity others.old ≤ vec_capacity others.new }
{
    let all: &[usize] = items.make_contiguous();
    put_behind(others, &all[..count]);
    take_front(items, count);
}
