//! Items from either end.
ghost use Rattle.std.specs.Prelude.{◌≡◌, Some, None, IfSome};
ghost use Rattle.indicatif.specs.Wrap.{inner_of, CountsItem};

use crate::wrappers::moves::Moves;
use crate::wrappers::wrap::ProgressBarIter;
use std::iter::FusedIterator;

impl<T, P: Moves> ProgressBarIter<T, P> {
    // Counts an item, or the end.
    fn counted(&mut self, is_item: bool)
        ensures it { (inner_of self.new) ≡ (inner_of self.old) }
        ensures counted { CountsItem P.stands P.leads is_item self.old self.new }
    {
        if is_item {
            self.last = Some(self.progress.advance(1));
        } else if !self.progress.finished() {
            self.last = Some(self.progress.finish());
        }
    }
}

/// The inner iterator's items; each advances the bar by 1, and the end finishes a bar that isn't finished.
impl<T: Iterator, P: Moves + Drop> Iterator for ProgressBarIter<T, P> {
    ghost use Rattle.indicatif.specs.Wrap.{inner_of, NextGives};

    type Item = T::Item;

    ghost can_next = { λ s. T.can_next (inner_of s) };

    ghost next_gives = { NextGives P.stands P.leads T.next_gives };

    ghost remaining = { λ s. T.remaining (inner_of s) };

    fn next(&mut self) -> Option<T::Item> {
        let item = self.it.next();
        self.counted(item.is_some());
        item
    }

    fn size_hint(&self) -> (usize, Option<usize>) {
        self.it.size_hint()
    }
}

/// The inner iterator's items from the back; each advances the bar by 1, and the end finishes a bar that isn't finished.
impl<T: DoubleEndedIterator, P: Moves + Drop> DoubleEndedIterator for ProgressBarIter<T, P> {
    ghost use Rattle.indicatif.specs.Wrap.{inner_of, NextGives};

    ghost can_next_back = { λ s. T.can_next_back (inner_of s) };

    ghost next_back_gives = { NextGives P.stands P.leads T.next_back_gives };

    fn next_back(&mut self) -> Option<T::Item> {
        let item = self.it.next_back();
        self.counted(item.is_some());
        item
    }
}

/// The number of items that the inner iterator has left.
impl<T: ExactSizeIterator, P: Moves + Drop> ExactSizeIterator for ProgressBarIter<T, P> {
    fn len(&self) -> usize {
        self.it.len()
    }
}

/// If the inner iterator stays at its end, so does the wrapper.
impl<T: FusedIterator, P: Moves + Drop> FusedIterator for ProgressBarIter<T, P> {}
