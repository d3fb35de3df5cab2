//! Lists that threads work on, with a bar.
//!
//! `ParallelProgressIterator` wraps a slice here; `map_collect` and `for_each` call a function with each of its items. The modules below:
//!
//! - `claims`: `Claims`, a list of which each thread takes the next part, and how many of its items were met.
//! - `course`: `Course`, a bar on its way along a list: it is advanced to an item or a part, block by block.
//! - `answers`: the answers of threads at all items.
//! - `part_answers`: `PartAnswers`, the answers at a part, and how parts are put in order.
//! - `visits`: items visited without answers.
//! - `workers`: pieces of work that threads do, `run_workers` and `Gate`.
ghost use Rattle.std.specs.Prelude.{◌≡◌, ◌==◌, ◌<◌, ◌≤◌, ℕ, Some, Ok, Err, IfOk, IfErr, OnOk, IsFalse, length};
ghost use Rattle.std.specs.List.{AllZip};
ghost use Rattle.std.specs.Fn.{FnReturnsAt};
ghost use Rattle.indicatif_bar.specs.Commands.{new_bar};
ghost use Rattle.indicatif.specs.Wrap.{inner_of, Wraps};
ghost use Rattle.indicatif.specs.Owned.{Begins, BeginsPlain};
ghost use Rattle.indicatif.specs.Parallel.{Blocks};

mod answers;
pub mod claims;
mod course;
pub mod part_answers;
mod visits;
pub mod workers;

use self::answers::map_in_threads;
use self::visits::visit_in_threads;
use crate::wrappers::moves::Moves;
use crate::wrappers::owned::OwnedBar;
use crate::wrappers::wrap::ProgressBarIter;
use indicatif_bar::style::{NoTracker, ProgressStyle, TICKS, Tracks};
use indicatif_term::target::{Setup, TermLike};
use indicatif_text::columns::{Clock, Refusal};
use std::alloc::Global;
use std::thread::Threads;

/// Wraps a slice, so that threads work on it with a bar (`map_collect`, `for_each`): a bar that you pass, or one that is made on a target
/// with a clock (`Setup`), in the style `{wide_bar} {pos}/{len}` or another. It draws nothing.
///
/// ```
/// let list = numbers.as_slice().progress_with(bar);
/// let (made, bar) = list.map_collect(&rt, alloc, |x: &u32| x.wrapping_mul(2));
/// ```
pub trait ParallelProgressIterator: Sized {
    /// The number of items.
    ghost count: { Self → ℕ };

    /// Wraps the slice with this bar.
    fn progress_with<P: Moves>(self, progress: P) -> ProgressBarIter<Self, P>
        ensures wraps { Wraps result self }
        ensures bar { result.progress ≡ progress };

    /// Wraps the slice with a bar of this length.
    ///
    /// Refused: `Memory`; nothing is made, and the arguments are dropped.
    fn progress_count<W: TermLike + Drop, C: Clock + Drop>(
        self,
        alloc: Global,
        len: u64,
        setup: Setup<W, C>,
    ) -> Result<ProgressBarIter<Self, OwnedBar<NoTracker, W, C>>, Refusal>
        ensures wraps { IfOk result (λ w. Wraps w self) }
        ensures bar { IfOk result (λ w. BeginsPlain w.progress TICKS.now (Some len) setup.target) }
        ensures memory { IfErr result (λ e. e ≡ Refusal.Memory) };

    /// Wraps the slice with a bar whose length is the number of items.
    ///
    /// Refused: `Memory`; nothing is made, and the arguments are dropped.
    fn progress<W: TermLike + Drop, C: Clock + Drop>(
        self,
        alloc: Global,
        setup: Setup<W, C>,
    ) -> Result<ProgressBarIter<Self, OwnedBar<NoTracker, W, C>>, Refusal>
        ensures wraps { IfOk result (λ w. Wraps w self) }
        ensures bar { IfOk result (λ w. BeginsPlain w.progress TICKS.now (Some (count self)) setup.target) }
        ensures memory { IfErr result (λ e. e ≡ Refusal.Memory) };

    /// Wraps the slice with a bar whose length is the number of items, in this style.
    ///
    /// Refused: `Memory`, only if the style has a tab width other than 8; nothing is made, and the arguments are dropped.
    fn progress_with_style<K: Tracks, W: TermLike + Drop, C: Clock + Drop>(
        self,
        alloc: Global,
        style: ProgressStyle<K>,
        setup: Setup<W, C>,
    ) -> Result<ProgressBarIter<Self, OwnedBar<K, W, C>>, Refusal>
        ensures wraps { IfOk result (λ w. Wraps w self) }
        ensures bar { IfOk result (λ w. (now : ℕ) × Begins w.progress (new_bar style (Some (count self)) now) setup.target) }
        ensures memory { IfErr result (λ e. (e ≡ Refusal.Memory) × IsFalse (8 == style.tab)) };
}

/// Every slice.
impl<'a, T> ParallelProgressIterator for &'a [T] {
    ghost count = { λ items. length items.now };

    fn progress_with<P: Moves>(self, progress: P) -> ProgressBarIter<&'a [T], P> {
        ProgressBarIter::new(self, progress)
    }

    fn progress_count<W: TermLike + Drop, C: Clock + Drop>(
        self,
        alloc: Global,
        len: u64,
        setup: Setup<W, C>,
    ) -> Result<ProgressBarIter<&'a [T], OwnedBar<NoTracker, W, C>>, Refusal> {
        let bar = OwnedBar::plain(alloc, Some(len), setup)?;
        Ok(ProgressBarIter::new(self, bar))
    }

    fn progress<W: TermLike + Drop, C: Clock + Drop>(
        self,
        alloc: Global,
        setup: Setup<W, C>,
    ) -> Result<ProgressBarIter<&'a [T], OwnedBar<NoTracker, W, C>>, Refusal> {
        let len = self.len() as u64;
        let bar = OwnedBar::plain(alloc, Some(len), setup)?;
        Ok(ProgressBarIter::new(self, bar))
    }

    fn progress_with_style<K: Tracks, W: TermLike + Drop, C: Clock + Drop>(
        self,
        alloc: Global,
        style: ProgressStyle<K>,
        setup: Setup<W, C>,
    ) -> Result<ProgressBarIter<&'a [T], OwnedBar<K, W, C>>, Refusal> {
        let len = self.len() as u64;
        let bar = OwnedBar::styled(alloc, style, Some(len), setup)?;
        Ok(ProgressBarIter::new(self, bar))
    }
}

/// Each of these works on the list with one thread for each processor, the caller among them. The threads are started once; each takes the
/// next part of the list, about a thousandth, until none is left. The caller's thread has the bar. After each of its parts it advances the
/// bar by the blocks that the met items fill, whichever items these are, and at the end by the rest. A block has 4,096 items; in a list
/// with no more, a tenth of them, and at least one for each processor. A bar that may stop within a block (`Moves::stops_within_blocks`),
/// such as a shared one, is advanced by all items that were met.
///
/// The bar comes back as it is then; it isn't finished. The answers of draws are dropped: an advance whose draw was refused still counts.
impl<'a, T: Sync, P: Moves + Drop> ProgressBarIter<&'a [T], P> {
    /// What `f` returns for each item, in the list's order.
    ///
    /// ```
    /// let (made, bar) = list.map_collect(&rt, alloc, |x: &u32| x.wrapping_mul(2)); // of 1, 2 and 3: 2, 4 and 6
    /// ```
    ///
    /// Refused: `Memory`, never for an empty list; the bar was already advanced by blocks of items that were met.
    pub fn map_collect<R: Threads + Sync, A: Send + Drop, F: Fn(&T) -> A + Sync + Drop>(
        self,
        rt: &R,
        alloc: Global,
        f: F,
    ) -> (Result<Vec<A>, Refusal>, P)
        requires { F.IsAlwaysCallable f }
        ensures list { IfOk result.0 (λ made. AllZip (FnReturnsAt F.Fn f) (inner_of self.entry).now made.items) }
        ensures bar { OnOk result.0 (Blocks P.stands P.leads self.entry.progress (length (inner_of self.entry).now) result.1) }
        ensures memory { IfErr result.0 (λ e. (e ≡ Refusal.Memory) × ((n : ℕ) × (n ≤ length (inner_of self.entry).now) × Blocks P.stands P.leads self.entry.progress n result.1)) }
        ensures some { result.0 ≡ Err Refusal.Memory → 0 < length (inner_of self.entry).now }
    {
        let (items, bar) = self.into_inner();
        map_in_threads(rt, alloc, items, bar, &f)
    }

    /// Calls `f` with each item once. It takes no memory, and always returns `Ok`.
    ///
    /// ```
    /// let (answer, bar) = list.for_each(&rt, |item: &AtomicU64| meet(item)); // `meet` may be called by several threads at once
    /// ```
    pub fn for_each<R: Threads + Sync, F: Fn(&T) + Sync + Drop>(
        self,
        rt: &R,
        f: F,
    ) -> (Result<(), Refusal>, P)
        requires { F.IsAlwaysCallable f }
        ensures always { result.0 ≡ Ok tt }
        ensures bar { Blocks P.stands P.leads self.entry.progress (length (inner_of self.entry).now) result.1 }
    {
        let (items, bar) = self.into_inner();
        (Ok(()), visit_in_threads(rt, items, bar, &f))
    }
}
