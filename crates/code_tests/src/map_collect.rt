//! Lists in threads: the blocks by which a bar advances, and what a shared bar shows within one.
use crate::checks::{Granted, Runtime};
use crate::fronts::{Bar, another_of, hidden};
use crate::gates::{Meeting, Stepped, are_once, counts, new_bar, twice};
use indicatif::{Drawn, Gate, Moves, ParallelProgressIterator, ProgressBar, Refusal};
use std::sync::atomic::{AtomicU64, Ordering};
use std::thread::{available_parallelism, sleep};
use std::time::Duration;

/// The numbers below `count`.
fn numbers<R: Runtime>(rt: &R, count: u32) -> Vec<u32> {
    let mut items = Vec::new(rt.alloc());
    for k in 0..count {
        items.push(k).granted(rt);
    }
    items
}

/// Doubles `count` items: their bar goes to the end of the list by these steps. It isn't finished.
fn goes_by<R: Runtime>(rt: &R, count: u32, steps: &[u64]) {
    let items = numbers(rt, count);
    let list = items.as_slice().progress_with(new_bar(rt));
    let (made, bar) = list.map_collect(rt, rt.alloc(), twice);
    same!(rt; made.granted(rt).len(), count as usize);
    same!(rt; bar.steps.as_slice(), steps);
    same!(rt; bar.position, u64::from(count));
    holds!(rt; !bar.finished);
}

/// Ten thousand items are three blocks, the last of which is the rest; and there may be a whole block and one item more. A list that is no
/// longer than a block moves its bar by a tenth at a time: of 2,000 items by 200. One item is a block.
#[test]
fn blocks_and_tenths(rt: HostRuntime) {
    goes_by(&rt, 10_000, &[4096, 4096, 1808]);
    goes_by(&rt, 4097, &[4096, 1]);
    goes_by(&rt, 2000, &[200; 10]);
    goes_by(&rt, 1, &[1]);
}

/// Two items are worked on at the same time: each sees that the other has begun. (With one processor, or if their number is unknown, they
/// are worked on one after another.)
#[test]
fn pieces_of_a_list_run_at_the_same_time(rt: HostRuntime) {
    let alloc = rt.alloc();
    let gate = Meeting::of(rt, 2);
    let items = [0usize, 1];
    let list = items.as_slice().progress_with(new_bar(&rt));
    let (made, bar) = list.map_collect(&rt, alloc, |item: &usize| gate.pass(*item));
    same!(&rt; (made.granted(&rt).len(), bar.position), (2, 2));
    if has_processors(&rt) {
        same!(&rt; gate.saw_all.load(Ordering::SeqCst), 2);
        same!(&rt; bar.steps.as_slice(), [2].as_slice());
    }
}

/// Whether the machine reports more than one processor.
fn has_processors<R: Runtime>(rt: &R) -> bool {
    matches!(available_parallelism(rt), Ok(count) if count.get() > 1)
}

/// Does nothing with an item.
fn pass_over(_x: &u32) {}

/// Counts an item as met.
fn meet(times: &AtomicU64) {
    times.fetch_add(1, Ordering::SeqCst);
}

#[test]
fn each_item_is_met_once(rt: HostRuntime) {
    let met = counts(&rt, 10_000);
    let list = met.as_slice().progress_with(new_bar(&rt));
    let (answer, bar) = list.for_each(&rt, |item: &AtomicU64| meet(item));
    same!(&rt; answer, Ok(()));
    same!(&rt; bar.steps.as_slice(), [4096, 4096, 1808].as_slice());
    holds!(&rt; are_once(met.as_slice()));
}

/// A bar that may stop within a block, so its type doesn't state where it stands.
#[derive(Drop)]
struct Loose {
    bar: Stepped,
}

impl Moves for Loose {
    fn advance(&mut self, n: u64) -> Result<Drawn, Refusal> {
        self.bar.advance(n)
    }

    fn place(&mut self, place: u64) -> Result<Drawn, Refusal> {
        self.bar.place(place)
    }

    fn finish(&mut self) -> Result<Drawn, Refusal> {
        self.bar.finish()
    }

    fn stops_within_blocks(&self) -> bool {
        true
    }

    fn position(&self) -> u64 {
        self.bar.position
    }

    fn finished(&self) -> bool {
        self.bar.finished
    }
}

/// Whether a bar that made these steps stood at each of these places, the last of them in the end.
fn stood_at(steps: &[u64], places: &[u64]) -> bool {
    let mut position: u64 = 0;
    let mut passed = 0usize;
    for step in steps {
        position = position.wrapping_add(*step);
        if places.get(passed) == Some(&position) {
            passed = passed.saturating_add(1);
        }
    }
    passed == places.len() && places.last() == Some(&position)
}

/// Smaller steps add up, and each block's end is one of them. (Their number depends on the threads: only these, if the thread that has the
/// bar meets no item.)
#[test]
fn a_bar_that_stops_within_blocks_stops_behind_each(rt: HostRuntime) {
    let (alloc, numbers) = (rt.alloc(), numbers(&rt, 10_000));
    let bar = Loose { bar: new_bar(&rt) };
    let list = numbers.as_slice().progress_with(bar);
    let (made, bar) = list.map_collect(&rt, alloc, |x: &u32| x.wrapping_mul(2));
    same!(&rt; made.granted(&rt).len(), 10_000);
    holds!(&rt; stood_at(bar.bar.steps.as_slice(), &[4096, 8192, 10_000]));
}

/// How many milliseconds this item of a list watches a bar. Threads whose items take different times don't end together.
fn patience(item: u32) -> u32 {
    (item % 7).saturating_mul(5).saturating_add(5)
}

/// Whether this item, while it watches a shared bar, sees it within a block of four.
fn sees_within<R: Runtime>(rt: &R, bar: &Bar<R>, item: u32) -> bool {
    for _ in 0..patience(item) {
        if bar.position() % 4 != 0 {
            return true;
        }
        sleep(rt, Duration::from_millis(1));
    }
    false
}

/// A shared bar moves while threads work, by less than a block too. (Forty items are blocks of four, or of more with more processors. A
/// bar of any type that stops within blocks is moved by the same calls.) Another list goes on with it from there, and finishes nothing.
#[test]
fn a_shared_bar_moves_within_a_block(rt: HostRuntime) {
    let alloc = rt.alloc();
    let items = numbers(&rt, 40);
    let bar = ProgressBar::new(rt, alloc, 40, hidden()).expect(&rt, "granted");
    let list = items.as_slice().progress_with(another_of(&rt, &bar));
    let (seen, owner) = list.map_collect(&rt, alloc, |item: &u32| sees_within(&rt, &bar, *item));
    holds!(&rt; seen.granted(&rt).contains(&true));
    same!(&rt; bar.position(), 40);
    let list = items.as_slice().progress_with(owner);
    let (answer, owner) = list.for_each(&rt, pass_over);
    same!(&rt; answer, Ok(()));
    owner.bar.release();
    same!(&rt; bar.position(), 80);
    holds!(&rt; !bar.is_finished());
}
