//! Iterators, and lists that threads work on, which get a bar when they are wrapped, or are handed one, on a terminal in memory.
use crate::checks::{Granted, Runtime};
use crate::fronts::{Led, setup};
use crate::gates::twice;
use indicatif::{
    InMemoryTerm, Moves, NoTracker, OwnedBar, ParallelProgressIterator, ProgressBar,
    ProgressBarIter, ProgressIterator, ProgressStyle, Refusal, StepClock,
};
use std::alloc::Global;
use std::iter::repeat;
use std::vec::IntoIter;

/// A value wrapped with its own bar.
type Wrapped<I> = ProgressBarIter<I, OwnedBar<NoTracker, InMemoryTerm, StepClock>>;

/// The length of the bar.
fn length<I>(wrapped: &Wrapped<I>) -> Option<u64> {
    wrapped.progress.bar().bar().state().len()
}

/// Up to 4 items come: `size_hint` is (0, Some(4)).
#[test]
fn a_length_by_the_upper_bound(rt: HostRuntime) {
    let (alloc, setup) = (rt.alloc(), setup(&rt, 20));
    let items = vec![in alloc; 1u32, 2, 3, 4].granted(&rt);
    let list = items.into_iter().filter(|x| *x % 2 == 0);
    let Some(mut wrapped) = list
        .into_iter()
        .try_progress(alloc, setup)
        .expect(&rt, "granted")
    else {
        panic!(rt; "no bar is made")
    };
    same!(&rt; length(&wrapped), Some(4));
    same!(&rt; wrapped.next(), Some(2));
}

/// An endless iterator gets no bar without a length, and one with a given length.
#[test]
fn no_length_no_bar(rt: HostRuntime) {
    let made = repeat(7u32).try_progress(rt.alloc(), setup(&rt, 20));
    holds!(&rt; made.expect(&rt, "granted").is_none());
    let made = repeat(7u32).progress_count(rt.alloc(), 2, setup(&rt, 20));
    same!(&rt; length(&made.expect(&rt, "granted")), Some(2));
}

/// Doubles what a list of 1, 2 and 3 gives, each by a closure.
fn doubles<R: Runtime, P: Moves + Drop>(rt: &R, items: ProgressBarIter<IntoIter<u32>, P>) {
    let mut doubled = items.map(|x: u32| x.wrapping_mul(2));
    for wanted in [Some(2), Some(4), Some(6), None] {
        same!(rt; doubled.next(), wanted);
    }
}

/// The list.
fn list<R: Runtime>(rt: &R) -> IntoIter<u32> {
    let items = vec![in rt.alloc(); 1u32, 2, 3].granted(rt);
    items.into_iter()
}

/// A bar of 3 for generic code to move.
fn led<R: Runtime>(rt: &R) -> Led<R> {
    let bar = ProgressBar::new(*rt, rt.alloc(), 3, setup(rt, 20)).expect(rt, "granted");
    Led { bar }
}

/// The style of the crate's tests of wrappers.
fn percents(alloc: Global) -> Result<ProgressStyle<NoTracker>, Refusal> {
    ProgressStyle::default_bar(alloc)?.template("{wide_bar:.red} {percent}/100%")
}

/// A test of the crate `indicatif` 0.18.6 with its own values.
#[test]
fn it_can_wrap_an_iterator(rt: HostRuntime) {
    let alloc = rt.alloc();
    let wrapped = list(&rt).progress(alloc, setup(&rt, 20));
    doubles(&rt, wrapped.expect(&rt, "granted"));
    let wrapped = list(&rt).progress_count(alloc, 3, setup(&rt, 20));
    doubles(&rt, wrapped.expect(&rt, "granted"));
    doubles(&rt, list(&rt).progress_with(led(&rt)));
    let style = percents(alloc).granted(&rt);
    let wrapped = list(&rt).progress_with_style(alloc, style, setup(&rt, 20));
    doubles(&rt, wrapped.expect(&rt, "granted"));
}

// ---- in threads

/// Doubles the items of the list 1, 2, 3, each by one of several threads; its bar then stands at 3.
fn doubles_all<R: Runtime, P: Moves + Drop>(rt: &R, list: ProgressBarIter<&[u32], P>) {
    let (made, bar) = list.map_collect(rt, rt.alloc(), twice);
    same!(rt; made.granted(rt).as_slice(), [2, 4, 6].as_slice());
    same!(rt; bar.position(), 3);
}

/// A test of the crate `indicatif` 0.18.6 with its own values; and before them a bar of the list's length, and one of another length.
#[test]
fn it_can_wrap_a_parallel_iterator(rt: HostRuntime) {
    let alloc = rt.alloc();
    let items = [1u32, 2, 3];
    let items = items.as_slice();
    let list = items.progress(alloc, setup(&rt, 20));
    doubles_all(&rt, list.expect(&rt, "granted"));
    for len in [5, 3] {
        let list = items.progress_count(alloc, len, setup(&rt, 20));
        doubles_all(&rt, list.expect(&rt, "granted"));
    }
    doubles_all(&rt, items.progress_with(led(&rt)));
    let style = percents(alloc).granted(&rt);
    let list = items.progress_with_style(alloc, style, setup(&rt, 20));
    doubles_all(&rt, list.expect(&rt, "granted"));
}
