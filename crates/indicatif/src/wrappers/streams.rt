//! Streams.
ghost use Rattle.std.specs.Prelude.{◌≡◌, is_some, IfSome, OnSome, None, Some, []};
ghost use Rattle.futures.specs.Poll.{IfReady, OnPending};
ghost use Rattle.futures.specs.Runs.{After, Within};
ghost use Rattle.futures.specs.Task.{Covers, Keeps};
ghost use Rattle.indicatif.specs.Wrap.{inner_of, Polled, SameBar};

use crate::wrappers::moves::Moves;
use crate::wrappers::wrap::ProgressBarIter;
use futures::stream::Stream;
use futures::task::{Context, Poll};

impl<T, P: Moves> ProgressBarIter<T, P> {
    // Counts an item; at each end the bar is finished.
    fn polled(&mut self, is_item: bool)
        ensures it { (inner_of self.new) ≡ (inner_of self.old) }
        ensures polled { Polled P.stands P.leads is_item self.old self.new }
    {
        self.last = if is_item {
            Some(self.progress.advance(1))
        } else {
            Some(self.progress.finish())
        };
    }
}

/// The inner stream's items; each advances the bar by 1, each end finishes it, and a pending poll leaves it unchanged.
impl<T: Stream, P: Moves + Drop> Stream for ProgressBarIter<T, P> {
    type Item = T::Item;

    ghost can_poll = { λ s. T.can_poll (inner_of s) };

    ghost needs = { λ s. T.needs (inner_of s) };

    ghost yields = { λ s. T.yields (inner_of s) };

    fn poll_next(&mut self, cx: &mut Context<'_>) -> Poll<Option<T::Item>>
        requires { T.can_poll (inner_of self.old) }
        ensures value { IfReady result (T.yields (inner_of self.old) []) }
        ensures rest { IfReady result (λ o. IfSome o (λ x. After (T.yields (inner_of self.old)) x (T.yields (inner_of self.new)))) }
        ensures goes { IfReady result (λ o. OnSome o (T.can_poll (inner_of self.new))) }
        ensures again { OnPending result (T.can_poll (inner_of self.new)) }
        ensures same { OnPending result (Within (T.yields (inner_of self.old)) (T.yields (inner_of self.new))) }
        ensures registered { OnPending result (Covers cx.new (T.needs (inner_of self.new))) }
        ensures kept { Keeps cx.old cx.new }
        ensures polled { IfReady result (λ o. Polled P.stands P.leads (is_some o) self.old self.new) }
        ensures pending { OnPending result (SameBar self.old self.new) }
    {
        match self.it.poll_next(cx) {
            Poll::Ready(item) => {
                self.polled(item.is_some());
                Poll::Ready(item)
            }
            Poll::Pending => Poll::Pending,
        }
    }
}
