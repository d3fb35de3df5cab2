//! What a bar wraps.
use crate::checks::{Granted, Runtime};
use crate::fronts::{Bar, setup};
use futures::Stream;
use indicatif::{
    BarState, InMemoryTerm, LoneBar, Moves, NoTracker, OwnedBar, ProgressBarIter,
    ProgressDrawTarget, ProgressIterator, Setup, StepClock,
};
use tokio::io::{AsyncRead, AsyncWrite};

/// Wraps a stream, and what is read and written by polls. (Rows of data check each of them.)
pub fn polled<S: Stream + Drop, I: AsyncRead + Drop, O: AsyncWrite + Drop, R: Runtime>(
    rt: &R,
    bar: &Bar<R>,
    stream: S,
    (input, output): (I, O),
) {
    let mut wrapped = bar.wrap_stream(stream).expect(rt, "granted");
    let socket = input;
    let mut wrapped = bar.wrap_async_read(socket).expect(rt, "granted");
    let socket = output;
    let mut wrapped = bar.wrap_async_write(socket).expect(rt, "granted");
}

/// A bar of two steps with its own clock, made from parts.
fn own_of_two<R: Runtime>(rt: &R) -> OwnedBar<NoTracker, InMemoryTerm, StepClock> {
    let Setup { target, clock: _ } = setup(rt, 20);
    let state = BarState::new(rt.alloc(), Some(2), 0).granted(rt);
    let bar = OwnedBar::new(
        LoneBar::new(state, target),
        StepClock {
            next: 0,
            step: 1_000_000,
        },
    );
    bar
}

/// Two items, 7 and 8.
fn two_items<R: Runtime>(rt: &R) -> Vec<u64> {
    vec![in rt.alloc(); 7u64, 8].granted(rt)
}

/// Takes all items with a bar of any kind; how many there are, and the bar.
fn looped<P: Moves + Drop>(items: Vec<u64>, bar: P) -> (u64, P) {
    let mut wrapped = ProgressBarIter::new(items.into_iter(), bar);
    let mut count: u64 = 0;
    while let Some(item) = wrapped.next() {
        count = count.saturating_add(1);
    }
    let (_, bar) = wrapped.into_inner();
    (count, bar)
}

/// The first item, and a bar of any kind that has advanced by it.
fn first_of<P: Moves + Drop>(list: Vec<u64>, bar: P) -> (Option<u64>, P) {
    let mut wrapped = ProgressBarIter::new(list.into_iter(), bar);
    let first = wrapped.next();
    let (_, bar) = wrapped.into_inner();
    (first, bar)
}

#[test]
fn a_bar_of_its_own_is_moved(rt: HostRuntime) {
    let (first, mut bar) = first_of(two_items(&rt), own_of_two(&rt));
    same!(&rt; first, Some(7));
    same!(&rt; bar.position(), 1);
    bar.advance(1).granted(&rt);
    same!(&rt; bar.position(), 2);
    let (count, bar) = looped(two_items(&rt), own_of_two(&rt));
    same!(&rt; count, 2);
    same!(&rt; bar.position(), 2);
    holds!(&rt; bar.finished());
}

/// (Rows of data have all items of such lists.)
#[test]
fn first_item_of_a_list(rt: HostRuntime) {
    let (alloc, list) = (rt.alloc(), two_items(&rt));
    let term = InMemoryTerm::new(alloc, 4, 20).granted(&rt);
    let clock = StepClock { next: 0, step: 1 };
    let setup = Setup {
        target: ProgressDrawTarget::term_like(term),
        clock,
    };
    let mut wrapped = list
        .into_iter()
        .progress(alloc, setup)
        .expect(&rt, "granted");
    same!(&rt; wrapped.next(), Some(7));
}
