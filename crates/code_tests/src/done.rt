//! Workers that add to one sum: in two threads, and one after another.
ghost use Rattle.std.specs.Prelude.{◌≡◌, ◌+◌};

use indicatif_board::done::{BarWorker, Done};
use std::thread::join;

/// A worker that added 1 a thousand times, and the total that it then read.
#[derive(Drop)]
struct Worked {
    worker: BarWorker,
    total: u64,
}

/// Adds 1 a thousand times, and reads the total.
fn a_thousand_times(done: &Done, mut worker: BarWorker) -> Worked
    requires of { worker.adds_to ≡ done.now }
    ensures of { result.worker.adds_to ≡ done.now }
    ensures parts { result.worker.account.parts ≡ worker.account.parts }
    ensures added { result.worker.account.added ≡ worker.account.added + 1000 }
{
    for _ in 0..1000u32 {
        worker.add(done, 1);
    }
    let total = worker.total(done);
    Worked { worker, total }
}

#[test]
fn two_threads_add_a_thousand_times(rt: HostRuntime) {
    let (done, worker) = Done::new(rt.alloc()).expect(&rt, "granted");
    let (mine, theirs) = worker.split(&done).expect(&rt, "granted");
    let (mine, theirs) = join(
        &rt,
        || a_thousand_times(&done, mine),
        || a_thousand_times(&done, theirs),
    );
    holds!(&rt; mine.total >= 1000 && theirs.total >= 1000);
    holds!(&rt; mine.total == 2000 || theirs.total == 2000);
    let worker = mine.worker.join(theirs.worker, &done);
    same!(&rt; done.close(worker), 2000);
}

/// Each worker reads what both have added, anew each time.
#[test]
fn a_total_is_read_from_the_shared_word(rt: HostRuntime) {
    let alloc = rt.alloc();
    let (done, mut worker) = Done::new(alloc).expect(&rt, "granted");
    worker.add(&done, 5);
    let (mut first, mut second) = worker.split(&done).expect(&rt, "granted");
    first.add(&done, 5);
    same!(&rt; second.total(&done), 10);
    second.add(&done, 2);
    same!(&rt; second.total(&done), 12);
    same!(&rt; first.total(&done), 12);
    let worker = second.join(first, &done);
    same!(&rt; done.close(worker), 12);
}
