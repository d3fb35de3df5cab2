//! A sum that many threads add to without a lock.
//!
//! A `Done` is the sum, shared by reference. A `BarWorker` is the right to add to it: each thread has its own, made by splitting another.
//! Workers hold shares of the sum, which together are the whole; once all others are joined to one, it has the whole again, and can close
//! the sum and get its exact value.
//!
//!     let (done, worker) = Done::new(alloc)?;
//!     let (mut mine, mut theirs) = worker.split(&done)?;
//!     // in two threads:
//!     mine.add(&done, 2);
//!     theirs.add(&done, 3);
//!     // and in one again:
//!     let worker = mine.join(theirs, &done);
//!     done.close(worker) // 5
//!
//! Between any two steps of any threads the sum is that of all adds so far, modulo 2^64: `AddsUp` in `specs/Done.antt`.
ghost use Rattle.std.specs.Prelude.{◌≡◌, ℕ, ◌+◌, ◌-◌, ◌*◌, ◌<◌, ◌≤◌, ◌%◌, ◌^◌, ◌↔◌, List, [], ◌++◌, length, All, IfOk, IfErr, IsErr, IfSome, IsNone};
ghost use Rattle.indicatif_board.specs.Done.{whole_share, after_adding, ReadsSum, own_half, given_half, account_of_both, first_worker, with_account, split_into, shares_of, added_by, IsDivided, Worker};

use crate::sums::{Adds, Halves, Joins, Sums, Totals};
use atomic_table::{Seat, Table};
use indicatif_text::columns::Refusal;
use std::alloc::Global;
use std::marker::Model;

/// What a worker knows. Only contracts use it, with numbers of any size; no value of it is made.
///
/// ```
/// fn add_all(done: &Done, mut worker: BarWorker) -> BarWorker // adds 1 a thousand times
///     ensures added { result.account.added ≡ worker.account.added + 1000 }
/// ```
pub struct Account {
    /// Its share of the sum, in parts of the whole.
    pub parts: u64,
    /// What it added, with the workers that were joined to it.
    pub added: u64,
    /// The greatest sum that it knows of: at least its own adds, at most the sum.
    pub seen: u64,
}

/// A sum that workers add to. Contracts see its identity.
///
/// ```
/// let (done, mut worker) = Done::new(alloc)?;
/// worker.add(&done, 5);
/// done.close(worker); // 5
/// ```
#[derive(Drop)]
pub struct Done {
    table: Table<(), Account, (), Sums, Global>,
}

impl Model for Done {
    ghost use Rattle.std.specs.Prelude.{◌≡◌};
    ghost use Rattle.atomic_table.specs.Seated.{table_id_coded};
    ghost use Rattle.indicatif_board.specs.Done.{SumId};

    ghost Value = { SumId };

    ghost coded = { table_id_coded };

    ghost view = { λ d. d.table.shared.table_id };

    ghost invariant = { λ d. (d.table.shared.table_id.words ≡ 1) × (d.table.shared.table_id.slots ≡ 0) };
}

/// The right to add to a sum, and a share of it. Contracts see which sum it adds to, and what the worker knows of it. Pass that sum to each
/// call.
///
/// ```
/// let (mut first, mut second) = worker.split(&done)?;
/// first.add(&done, 5);
/// second.total(&done); // 5
/// ```
#[derive(Drop)]
pub struct BarWorker {
    splits: u64,
    seat: Seat<(), Account>,
}

impl Model for BarWorker {
    ghost use Rattle.std.specs.Prelude.{◌≡◌, ◌≤◌, ◌<◌, ◌^◌, []};
    ghost use Rattle.indicatif_board.specs.Done.{Worker, least_parts};

    ghost Value = { Worker };

    ghost view = { λ w. record { adds_to = w.seat.table_id; splits = w.splits; account = w.seat.me.0 } };

    ghost invariant = { λ w. (least_parts w.splits ≤ w.seat.me.0.parts) × (w.seat.me.1 ≡ []) };
}

impl Done {
    /// A sum of 0, and a worker with the whole share of it.
    ///
    /// Refused: `Memory`, nothing is made.
    pub fn new(alloc: Global) -> Result<(Done, BarWorker), Refusal>
        ensures worker { IfOk result (λ made. made.1 ≡ first_worker made.0) }
        ensures memory { IfErr result (λ e. e ≡ Refusal.Memory) }
    {
        let (table, seat) = Table::of_words(alloc, &[0], &())?;
        Ok((Done { table }, BarWorker { splits: 0, seat }))
    }

    /// Ends the sum, and returns its value, modulo 2^64. The worker must hold the whole share: every other worker of this sum was joined to
    /// it. No `total` that a worker read was greater than what was added.
    pub fn close(self, worker: BarWorker) -> u64
        requires of { worker.adds_to ≡ self }
        requires whole { worker.account.parts ≡ whole_share }
        ensures sum { result ≡ worker.account.added % 2 ^ 64 }
        ensures seen { worker.account.seen ≤ worker.account.added }
    {
        let closed = self.table.close_with(worker.seat);
        let sum = closed.word(0);
        closed.free();
        sum
    }
}

impl BarWorker {
    /// Adds `n` to the sum, modulo 2^64. Takes no memory and never waits.
    pub fn add(&mut self, done: &Done, n: u64)
        requires of { self.old.adds_to ≡ done.now }
        ensures added { self.new ≡ with_account (after_adding n self.old.account) self.old }
    {
        done.table.shared.fetch_add::<Adds>(&mut self.seat, 0, n);
    }

    /// The current sum, modulo 2^64: at least all that this worker had seen, including its own adds. Other workers may add more before you
    /// use the result. Takes no memory and never waits.
    pub fn total(&mut self, done: &Done) -> u64
        requires of { self.old.adds_to ≡ done.now }
        ensures sum { ReadsSum self.old.account result self.new.account }
        ensures same { self.new ≡ with_account self.new.account self.old }
    {
        done.table.shared.load::<Totals>(&mut self.seat, 0)
    }

    /// Splits this worker into two, each with half of its share. The first has all that was added; both have seen what this one had seen.
    ///
    /// Refused: `Memory`, after 2^64 - 1 splits in a row, which no program makes. Then the worker is dropped, and the sum can't be closed
    /// any more.
    pub fn split(self, done: &Done) -> Result<(BarWorker, BarWorker), Refusal>
        requires of { self.adds_to ≡ done.now }
        ensures first { IfOk result (λ halves. halves.0 ≡ split_into (own_half self.account) self) }
        ensures second { IfOk result (λ halves. halves.1 ≡ split_into (given_half self.account) self) }
        ensures refused { IsErr result ↔ (self.splits ≡ 2 ^ 64 - 1) }
        ensures memory { IfErr result (λ e. e ≡ Refusal.Memory) }
    {
        let BarWorker { splits, mut seat } = self;
        let splits = splits.checked_add(1).ok_or(Refusal::Memory)?;
        let given = done.table.shared.split_seat::<Halves>(&mut seat);
        Ok((
            BarWorker { splits, seat },
            BarWorker {
                splits,
                seat: given,
            },
        ))
    }

    /// Joins this worker and `other` into one, with both shares and all that either added or saw. Takes no memory and never waits.
    pub fn join(self, other: BarWorker, done: &Done) -> BarWorker
        requires of { self.adds_to ≡ done.now }
        requires other_of { other.adds_to ≡ done.now }
        ensures joined { result ≡ with_account (account_of_both self.account other.account) self }
    {
        let BarWorker { splits, mut seat } = self;
        done.table.shared.join_seat::<Joins>(&mut seat, other.seat);
        BarWorker { splits, seat }
    }

    /// Splits this worker into `count` workers, at least 1, by splitting halves of halves: shares don't run out.
    ///
    /// Refused: `Memory`, for want of memory for the list (or after some 2^64 splits in a row). Then the worker is dropped, and the sum
    /// can't be closed any more.
    pub fn split_among(
        self,
        alloc: Global,
        done: &Done,
        count: usize,
    ) -> Result<Vec<BarWorker>, Refusal>
        requires of { self.adds_to ≡ done.now }
        requires some { 0 < count }
        ensures count { IfOk result (λ workers. length workers.items ≡ count) }
        ensures divided { IfOk result (λ workers. IsDivided self workers.items) }
        ensures memory { IfErr result (λ e. e ≡ Refusal.Memory) }
    {
        let mut workers = Vec::with_capacity(alloc, count)?;
        divide(self, done, count, &mut workers)?;
        Ok(workers)
    }

    /// Joins all these workers into one, with all their shares and all that any of them added or saw; `None` if there are none.
    pub fn join_all(workers: Vec<BarWorker>, done: &Done) -> Option<BarWorker>
        requires of { All (λ w. w.adds_to ≡ done.now) workers.items }
        ensures none { IsNone result ↔ (workers.items ≡ []) }
        ensures of { IfSome result (λ w. w.adds_to ≡ done.now) }
        ensures parts { IfSome result (λ w. w.account.parts ≡ shares_of workers.items) }
        ensures added { IfSome result (λ w. w.account.added ≡ added_by workers.items) }
        ensures seen { IfSome result (λ w. All (λ one. one.account.seen ≤ w.account.seen) workers.items) }
    {
        let mut rest = workers.into_iter();
        let mut all = rest.next()?;
        for worker in rest {
            all = all.join(worker, done);
        }
        Some(all)
    }
}

// Puts `count` workers in place of `worker`, behind those of the list.
fn divide(
    worker: BarWorker,
    done: &Done,
    count: usize,
    workers: &mut Vec<BarWorker>,
) -> Result<(), Refusal>
    requires of { worker.adds_to ≡ done.now }
    requires some { 0 < count }
    ensures divided { IfOk result (λ _. (more : List Worker) × (workers.new.items ≡ workers.old.items ++ more) × (length more ≡ count) × IsDivided worker more) }
    ensures memory { IfErr result (λ e. e ≡ Refusal.Memory) }
{
    if count == 1 {
        workers.push(worker)?;
        return Ok(());
    }
    let (first, second) = worker.split(done)?;
    divide(first, done, count - count / 2, workers)?;
    divide(second, done, count / 2, workers)
}
