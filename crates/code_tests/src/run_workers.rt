//! Pieces that threads work on: on a bar of the tests' own, and on shared bars, and what counts for these.
use crate::checks::{Granted, Runtime};
use crate::fronts::{Bar, alone, another_of};
use crate::gates::{Meeting, Open, Roll, are_once, new_bar, twice};
use indicatif::{run_workers, run_workers_with};
use std::sync::atomic::Ordering;
use std::thread::{available_parallelism, sleep};
use std::time::Duration;

/// `count` pieces, each of which has its number, and then these items.
fn numbered<R: Runtime>(rt: &R, count: u32, items: &[u32]) -> Vec<Vec<u32>> {
    let mut pieces = Vec::new(rt.alloc());
    for number in 0..count {
        let mut piece = vec![in rt.alloc(); number].granted(rt);
        piece.extend_from_slice(items).granted(rt);
        pieces.push(piece).granted(rt);
    }
    pieces
}

/// The given number of pieces of one item, each of which waits for all others: all see them come.
fn all_meet<R: Runtime>(rt: &R, count: u32) {
    let pieces = numbered(rt, count, &[]);
    let (mut bar, all) = (new_bar(rt), u64::from(count));
    let gate = Meeting::of(*rt, all);
    let made = run_workers_with(rt, rt.alloc(), pieces.as_slice(), twice, &gate, &mut bar);
    same!(rt; made.granted(rt).len(), count as usize);
    same!(rt; gate.saw_all.load(Ordering::SeqCst), all);
    same!(rt; bar.steps.as_slice(), [all].as_slice());
}

#[test]
fn pieces_that_wait_for_one_another_run_at_the_same_time(rt: HostRuntime) {
    for count in [1, 2, 300] {
        all_meet(&rt, count);
    }
}

/// The second item of each piece, no piece's number.
const LAST: u32 = 600;

/// Each of six hundred pieces has passed the gate, by its own number and once, before its first item is met, and no more are at work at the same
/// time than there are processors. So each runs once.
#[test]
fn six_hundred_pieces(rt: HostRuntime) {
    let pieces = numbered(&rt, LAST, &[LAST]);
    let (mut bar, roll) = (new_bar(&rt), Roll::of(&rt, LAST));
    let passed = |item: &u32| {
        if *item == LAST {
            sleep(&rt, Duration::from_millis(1));
            roll.leave();
        }
        roll.passed(*item)
    };
    let made = run_workers_with(&rt, rt.alloc(), pieces.as_slice(), passed, &roll, &mut bar);
    let made = made.granted(&rt);
    same!(&rt; (made.len(), bar.steps.as_slice()), (600, [1200].as_slice()));
    for answers in made.iter() {
        same!(&rt; answers.as_slice(), [1, 0].as_slice());
    }
    holds!(&rt; are_once(roll.passed.as_slice()));
    let processors = available_parallelism(&rt).granted(&rt).get();
    holds!(&rt; roll.most.load(Ordering::SeqCst) <= processors as u64);
}

// ---- shared bars

/// A bar without a length at this position.
fn bar_at<R: Runtime>(rt: &R, position: u64) -> Bar<R> {
    let bar = alone(rt, "{pos}");
    holds!(rt; bar.set_position(position).is_ok());
    bar
}

/// Absorbs 1 and 2, from 2^64 - 2 on.
#[test]
fn a_bar_absorbs_past_2_to_the_64(rt: HostRuntime) {
    let bar = bar_at(&rt, u64::MAX - 1);
    let (done, worker) = bar.worker().expect(&rt, "granted");
    let (mut mine, mut theirs) = worker.split(&done).expect(&rt, "granted");
    mine.add(&done, 1);
    theirs.add(&done, 2);
    same!(&rt; bar.position(), u64::MAX - 1);
    let whole = mine.join(theirs, &done);
    bar.absorb(done, whole).granted(&rt);
    same!(&rt; bar.position(), 1);
    holds!(&rt; !bar.is_finished());
}

#[test]
fn pieces_over_a_shared_bar(rt: HostRuntime) {
    let alloc = rt.alloc();
    let pieces = vec![in alloc;
        vec![in alloc; 1u32, 2].expect(&rt, "granted"),
        vec![in alloc; 3u32].expect(&rt, "granted"),
        Vec::new(alloc),
    ]
    .expect(&rt, "granted");
    let bar = bar_at(&rt, 0);
    let made = run_workers(
        &rt,
        alloc,
        pieces.as_slice(),
        |x: &u32| x.wrapping_mul(2),
        &Open,
        &bar,
    )
    .expect(&rt, "granted");
    same!(&rt; made[0].as_slice(), [2, 4].as_slice());
    same!(&rt; made[1].as_slice(), [6].as_slice());
    holds!(&rt; made[2].is_empty());
    same!(&rt; bar.position(), 3);
    let shared = bar;
    let mut bar = another_of(&rt, &shared);
    let made = run_workers_with(
        &rt,
        alloc,
        pieces.as_slice(),
        |x: &u32| x.wrapping_mul(2),
        &Open,
        &mut bar,
    )
    .expect(&rt, "granted");
    same!(&rt; (made.len(), shared.position()), (3, 6));
}
