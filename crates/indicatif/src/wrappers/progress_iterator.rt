//! Iterators that make their own bar.
ghost use Rattle.std.specs.Prelude.{◌≡◌, ◌==◌, ℕ, IsFalse, Some, None, Ok, IfOk, IfErr, IfSome, IfNone, IsSome};
ghost use Rattle.std.specs.Iterator.{size, UpTo};
ghost use Rattle.indicatif_bar.specs.Commands.{new_bar};
ghost use Rattle.indicatif.specs.Wrap.{Wraps};
ghost use Rattle.indicatif.specs.Owned.{Begins, BeginsPlain};

use crate::wrappers::moves::Moves;
use crate::wrappers::owned::OwnedBar;
use crate::wrappers::wrap::ProgressBarIter;
use indicatif_bar::style::{NoTracker, ProgressStyle, TICKS, Tracks};
use indicatif_term::target::{Setup, TermLike};
use indicatif_text::columns::{Clock, Refusal};
use std::alloc::Global;

/// Wraps an iterator, so that it shows its progress: with a bar that you pass, or with one that is made on a target with a clock (`Setup`),
/// in the style `{wide_bar} {pos}/{len}` or another. It draws nothing.
///
/// ```
/// let setup = Setup { target: ProgressDrawTarget::term_like(term), clock };
/// let mut wrapped = list.into_iter().progress(alloc, setup)?;
/// while let Some(item) = wrapped.next() { .. }
/// ```
pub trait ProgressIterator: Iterator + Sized {
    /// Wraps the iterator with this bar.
    fn progress_with<P: Moves>(self, progress: P) -> ProgressBarIter<Self, P>
        ensures wraps { Wraps result self }
        ensures bar { result.progress ≡ progress };

    /// Wraps the iterator with a bar of this length.
    ///
    /// Refused: `Memory`; the iterator and the setup are dropped.
    fn progress_count<W: TermLike + Drop, C: Clock + Drop>(
        self,
        alloc: Global,
        len: u64,
        setup: Setup<W, C>,
    ) -> Result<ProgressBarIter<Self, OwnedBar<NoTracker, W, C>>, Refusal>
        ensures wraps { IfOk result (λ w. Wraps w self) }
        ensures bar { IfOk result (λ w. BeginsPlain w.progress TICKS.now (Some len) setup.target) }
        ensures memory { IfErr result (λ e. e ≡ Refusal.Memory) };

    /// Wraps the iterator with a bar whose length is the number of items left.
    ///
    /// Refused: `Memory`; the iterator and the setup are dropped.
    fn progress<W: TermLike + Drop, C: Clock + Drop>(
        self,
        alloc: Global,
        setup: Setup<W, C>,
    ) -> Result<ProgressBarIter<Self, OwnedBar<NoTracker, W, C>>, Refusal>
    where
        Self: ExactSizeIterator,
        ensures wraps { IfOk result (λ w. Wraps w self) }
        ensures bar { IfOk result (λ w. BeginsPlain w.progress TICKS.now (Some (size (Self.remaining self))) setup.target) }
        ensures memory { IfErr result (λ e. e ≡ Refusal.Memory) };

    /// Wraps the iterator with a bar whose length is the number of items left, in this style.
    ///
    /// Refused: `Memory`, only if the style has a tab width other than 8; the iterator and the setup are dropped.
    fn progress_with_style<K: Tracks, W: TermLike + Drop, C: Clock + Drop>(
        self,
        alloc: Global,
        style: ProgressStyle<K>,
        setup: Setup<W, C>,
    ) -> Result<ProgressBarIter<Self, OwnedBar<K, W, C>>, Refusal>
    where
        Self: ExactSizeIterator,
        ensures wraps { IfOk result (λ w. Wraps w self) }
        ensures bar { IfOk result (λ w. (now : ℕ) × Begins w.progress (new_bar style (Some (size (Self.remaining self))) now) setup.target) }
        ensures memory { IfErr result (λ e. (e ≡ Refusal.Memory) × IsFalse (8 == style.tab)) };

    /// Wraps the iterator with a bar whose length is the upper bound of the iterator's `size_hint`; if there is no such bound, `None`:
    /// nothing is made, and the iterator is dropped. So the bar's length is never below the number of items.
    ///
    /// ```
    /// let Some(mut wrapped) = list.into_iter().try_progress(alloc, setup)? else { .. }; // of 3 items: `0/3` at first
    /// ```
    ///
    /// Refused: `Memory`; the iterator and the setup are dropped.
    fn try_progress<W: TermLike + Drop, C: Clock + Drop>(
        self,
        alloc: Global,
        setup: Setup<W, C>,
    ) -> Result<Option<ProgressBarIter<Self, OwnedBar<NoTracker, W, C>>>, Refusal>
        ensures wraps { IfOk result (λ found. IfSome found (λ w. Wraps w self)) }
        ensures bar { IfOk result (λ found. IfSome found (λ w. (len : ℕ) × UpTo (Self.remaining self) len × BeginsPlain w.progress TICKS.now (Some len) setup.target)) }
        ensures memory { IfErr result (λ e. e ≡ Refusal.Memory) };
}

/// Every iterator.
impl<I: Iterator> ProgressIterator for I {
    fn progress_with<P: Moves>(self, progress: P) -> ProgressBarIter<I, P> {
        ProgressBarIter::new(self, progress)
    }

    fn progress_count<W: TermLike + Drop, C: Clock + Drop>(
        self,
        alloc: Global,
        len: u64,
        setup: Setup<W, C>,
    ) -> Result<ProgressBarIter<I, OwnedBar<NoTracker, W, C>>, Refusal> {
        let bar = OwnedBar::plain(alloc, Some(len), setup)?;
        Ok(ProgressBarIter::new(self, bar))
    }

    fn progress<W: TermLike + Drop, C: Clock + Drop>(
        self,
        alloc: Global,
        setup: Setup<W, C>,
    ) -> Result<ProgressBarIter<I, OwnedBar<NoTracker, W, C>>, Refusal>
    where
        I: ExactSizeIterator,
    {
        let len = self.len() as u64;
        let bar = OwnedBar::plain(alloc, Some(len), setup)?;
        Ok(ProgressBarIter::new(self, bar))
    }

    fn progress_with_style<K: Tracks, W: TermLike + Drop, C: Clock + Drop>(
        self,
        alloc: Global,
        style: ProgressStyle<K>,
        setup: Setup<W, C>,
    ) -> Result<ProgressBarIter<I, OwnedBar<K, W, C>>, Refusal>
    where
        I: ExactSizeIterator,
    {
        let len = self.len() as u64;
        let bar = OwnedBar::styled(alloc, style, Some(len), setup)?;
        Ok(ProgressBarIter::new(self, bar))
    }

    fn try_progress<W: TermLike + Drop, C: Clock + Drop>(
        self,
        alloc: Global,
        setup: Setup<W, C>,
    ) -> Result<Option<ProgressBarIter<I, OwnedBar<NoTracker, W, C>>>, Refusal> {
        let (_, most) = self.size_hint();
        bounded(self, most, alloc, setup)
    }
}

// Wraps it with a bar of this length; `None` if there is no length.
fn bounded<I: Drop, W: TermLike + Drop, C: Clock + Drop>(
    it: I,
    most: Option<usize>,
    alloc: Global,
    setup: Setup<W, C>,
) -> Result<Option<ProgressBarIter<I, OwnedBar<NoTracker, W, C>>>, Refusal>
    ensures none { IfNone most (result ≡ Ok None) }
    ensures some { IfSome most (λ _. IfOk result IsSome) }
    ensures wraps { IfOk result (λ found. IfSome found (λ w. Wraps w it)) }
    ensures bar { IfSome most (λ len. IfOk result (λ found. IfSome found (λ w. BeginsPlain w.progress TICKS.now (Some len) setup.target))) }
    ensures memory { IfErr result (λ e. e ≡ Refusal.Memory) }
{
    let Some(len) = most else {
        return Ok(None);
    };
    let bar = OwnedBar::plain(alloc, Some(len as u64), setup)?;
    Ok(Some(ProgressBarIter::new(it, bar)))
}
