//! Items of a list, each visited once by one of several threads.
ghost use Rattle.std.specs.Prelude.{◌≡◌, ◌≤◌, length};
ghost use Rattle.std.specs.Thread.{IsSync};
ghost use Rattle.indicatif.specs.Inside.Courses.{GoesOn};
ghost use Rattle.indicatif.specs.Parallel.{Blocks};

use crate::parallel::claims::Claims;
use crate::parallel::course::Course;
use crate::wrappers::moves::Moves;
use rayon::current_num_threads;
use std::thread::{Threads, join};

/// Calls `f` with each item, and returns the bar, which is moved while the threads work.
pub fn visit_in_threads<R: Threads + Sync, T: Sync, F: Fn(&T) + Sync, P: Moves + Drop>(
    rt: &R,
    items: &[T],
    bar: P,
    f: &F,
) -> P
    requires { F.IsAlwaysCallable f.now }
    ensures { Blocks P.stands P.leads bar (length items.now) result }
{
    let course = Course::new(rt, bar, items.len());
    let mut course = visited_by_all(rt, items, f, course);
    course.reach(items.len());
    course.bar
}

// Calls `f` with each item; how far the bar was moved meanwhile.
fn visited_by_all<R: Threads + Sync, T: Sync, F: Fn(&T) + Sync, P: Moves + Drop>(
    rt: &R,
    items: &[T],
    f: &F,
    course: Course<P>,
) -> Course<P>
    requires callable { F.IsAlwaysCallable f.now }
    requires front { course.done ≡ 0 }
    ensures course { GoesOn P.stands P.leads course.done course.bar result.done result.bar }
    ensures within { result.done ≤ length items.now }
{
    let claims = &Claims::new(items.len());
    let others = current_num_threads(rt).min(items.len()).saturating_sub(1);
    let theirs = ||
        requires { IsSync R.row × IsSync T.row × IsSync F.row × F.IsAlwaysCallable f.now × (claims.now.items ≡ length items.now) }
    { visited(rt, items, claims, others, f) };
    let mine = move || -> Course<P>
        requires { F.IsAlwaysCallable f.now × (claims.now.items ≡ length items.now) × (course.done ≤ claims.now.items) }
        ensures { GoesOn P.stands P.leads course.done course.bar result.done result.bar × (result.done ≤ claims.entry.now.items) }
    { own_visits(items, claims, f, course) };
    let (_, course) = join(rt, theirs, mine);
    course
}

// Calls `f` with the items of the parts that the thread with the bar takes. The bar is moved behind each part.
fn own_visits<T, F: Fn(&T), P: Moves + Drop>(
    items: &[T],
    claims: &Claims,
    f: &F,
    course: Course<P>,
) -> Course<P>
    requires callable { F.IsAlwaysCallable f.now }
    requires list { claims.now.items ≡ length items.now }
    requires within { course.done ≤ claims.now.items }
    ensures course { GoesOn P.stands P.leads course.done course.bar result.done result.bar }
    ensures within { result.done ≤ claims.now.items }
{
    let mut course = course;
    for _ in 0..claims.parts() {
        let Some(part) = claims.take() else {
            break;
        };
        visit(&items[part.start..part.end], f);
        course.follow_part(claims, &part);
    }
    course
}

// Calls `f` with the items of the parts that the given number of other threads take.
#[cycle(halves)]
fn visited<R: Threads + Sync, T: Sync, F: Fn(&T) + Sync>(
    rt: &R,
    items: &[T],
    claims: &Claims,
    threads: usize,
    f: &F,
)
    requires callable { F.IsAlwaysCallable f.now }
    requires list { claims.now.items ≡ length items.now }
{
    if threads < 2 {
        visit_parts(items, claims, f);
        return;
    }
    let half = threads / 2;
    let others = threads - half;
    let first = move ||
        requires { IsSync R.row × IsSync T.row × IsSync F.row × F.IsAlwaysCallable f.now × (claims.now.items ≡ length items.now) }
    { visited(rt, items, claims, half, f) };
    let second = move ||
        requires { IsSync R.row × IsSync T.row × IsSync F.row × F.IsAlwaysCallable f.now × (claims.now.items ≡ length items.now) }
    { visited(rt, items, claims, others, f) };
    join(rt, first, second);
}

// Calls `f` with the items of the parts that one thread takes.
fn visit_parts<T, F: Fn(&T)>(items: &[T], claims: &Claims, f: &F)
    requires callable { F.IsAlwaysCallable f.now }
    requires list { claims.now.items ≡ length items.now }
{
    for _ in 0..claims.parts() {
        let Some(part) = claims.take() else {
            break;
        };
        visit(&items[part.start..part.end], f);
        claims.tell(&part);
    }
}

// Calls `f` with items.
fn visit<T, F: Fn(&T)>(items: &[T], f: &F)
    requires { F.IsAlwaysCallable f.now }
{
    for item in items {
        f(item);
    }
}
