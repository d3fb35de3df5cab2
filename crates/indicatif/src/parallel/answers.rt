//! The answers of threads at the items of a list.
ghost use Rattle.std.specs.Prelude.{◌≡◌, ◌≤◌, ◌<◌, [], ℕ, Err, IfOk, IfErr, OnOk, length, All};
ghost use Rattle.std.specs.List.{AllZip};
ghost use Rattle.std.specs.Fn.{FnReturnsAt};
ghost use Rattle.std.specs.Thread.{IsSync, IsSend};
ghost use Rattle.indicatif.specs.Inside.Courses.{GoesOn};
ghost use Rattle.indicatif.specs.Inside.PartAnswers.{AnswersPart};
ghost use Rattle.indicatif.specs.Parallel.{Blocks};

use crate::parallel::claims::Claims;
use crate::parallel::course::Course;
use crate::parallel::part_answers::{PartAnswers, in_order, together};
use crate::wrappers::moves::Moves;
use indicatif_text::columns::Refusal;
use rayon::current_num_threads;
use std::alloc::{AllocError, Global};
use std::thread::{Threads, join};

/// The answers of `f` at each item. The bar is moved while the threads work.
pub fn map_in_threads<
    R: Threads + Sync,
    T: Sync,
    A: Send + Drop,
    F: Fn(&T) -> A + Sync,
    P: Moves + Drop,
>(rt: &R, alloc: Global, items: &[T], bar: P, f: &F) -> (Result<Vec<A>, Refusal>, P)
    requires { F.IsAlwaysCallable f.now }
    ensures list { IfOk result.0 (λ made. AllZip (FnReturnsAt F.Fn f.now) items.now made.items) }
    ensures bar { OnOk result.0 (Blocks P.stands P.leads bar (length items.now) result.1) }
    ensures memory { IfErr result.0 (λ e. (e ≡ Refusal.Memory) × ((n : ℕ) × (n ≤ length items.now) × Blocks P.stands P.leads bar n result.1)) }
    ensures some { result.0 ≡ Err Refusal.Memory → 0 < length items.now }
{
    if items.is_empty() {
        return (Ok(Vec::new(alloc)), bar);
    }
    let course = Course::new(rt, bar, items.len());
    let Ok(room) = Vec::with_capacity(alloc, items.len()) else {
        return (Err(Refusal::Memory), course.bar);
    };
    let (pieces, mut course) = pieces_of_all(rt, alloc, items, f, course);
    let made = whole(alloc, room, items, pieces, f);
    if made.is_ok() {
        course.reach(items.len());
    }
    (made, course.bar)
}

// The answers at all items, if those of the threads are there.
fn whole<T, A: Drop, F: Fn(&T) -> A>(
    alloc: Global,
    room: Vec<A>,
    items: &[T],
    pieces: Result<Vec<PartAnswers<A>>, AllocError>,
    f: &F,
) -> Result<Vec<A>, Refusal>
    requires callable { F.IsAlwaysCallable f.now }
    requires empty { room.items ≡ [] }
    requires pieces { IfOk pieces (λ made. All (AnswersPart (FnReturnsAt F.Fn f.now) items.now) made.items) }
    ensures list { IfOk result (λ made. AllZip (FnReturnsAt F.Fn f.now) items.now made.items) }
    ensures memory { IfErr result (λ e. e ≡ Refusal.Memory) }
{
    let made = in_order(alloc, room, items, pieces?, f)?;
    Ok(made)
}

// The answers at the parts that each thread took, and how far the bar was moved meanwhile.
fn pieces_of_all<
    R: Threads + Sync,
    T: Sync,
    A: Send + Drop,
    F: Fn(&T) -> A + Sync,
    P: Moves + Drop,
>(
    rt: &R,
    alloc: Global,
    items: &[T],
    f: &F,
    course: Course<P>,
) -> (Result<Vec<PartAnswers<A>>, AllocError>, Course<P>)
    requires callable { F.IsAlwaysCallable f.now }
    requires front { course.done ≡ 0 }
    ensures pieces { IfOk result.0 (λ made. All (AnswersPart (FnReturnsAt F.Fn f.now) items.now) made.items) }
    ensures course { GoesOn P.stands P.leads course.done course.bar result.1.done result.1.bar }
    ensures within { result.1.done ≤ length items.now }
{
    let claims = &Claims::new(items.len());
    let others = current_num_threads(rt).min(items.len()).saturating_sub(1);
    let theirs = || -> Result<Vec<PartAnswers<A>>, AllocError>
        requires { IsSync R.row × IsSync T.row × IsSync F.row × IsSend A.row × F.IsAlwaysCallable f.now × (claims.now.items ≡ length items.now) }
        ensures { IfOk result (λ made. All (AnswersPart (FnReturnsAt F.Fn f.entry.now) items.entry.now) made.items) }
    { pieces_of(rt, alloc, items, claims, others, f) };
    let mine = move || -> (Result<Vec<PartAnswers<A>>, AllocError>, Course<P>)
        requires { F.IsAlwaysCallable f.now × (claims.now.items ≡ length items.now) × (course.done ≤ claims.now.items) }
        ensures { IfOk result.0 (λ made. All (AnswersPart (FnReturnsAt F.Fn f.entry.now) items.entry.now) made.items)
            × GoesOn P.stands P.leads course.done course.bar result.1.done result.1.bar × (result.1.done ≤ claims.entry.now.items) }
    { own_pieces(alloc, items, claims, f, course) };
    let (rest, (made, course)) = join(rt, theirs, mine);
    (together(made, rest), course)
}

// The answers at the parts that the thread with the bar took. The bar is moved behind each part.
fn own_pieces<T, A: Drop, F: Fn(&T) -> A, P: Moves + Drop>(
    alloc: Global,
    items: &[T],
    claims: &Claims,
    f: &F,
    course: Course<P>,
) -> (Result<Vec<PartAnswers<A>>, AllocError>, Course<P>)
    requires callable { F.IsAlwaysCallable f.now }
    requires list { claims.now.items ≡ length items.now }
    requires within { course.done ≤ claims.now.items }
    ensures pieces { IfOk result.0 (λ made. All (AnswersPart (FnReturnsAt F.Fn f.now) items.now) made.items) }
    ensures course { GoesOn P.stands P.leads course.done course.bar result.1.done result.1.bar }
    ensures within { result.1.done ≤ claims.now.items }
{
    let mut course = course;
    let made = pieces_in_order(alloc, items, claims, f, &mut course);
    (made, course)
}

// The same of a bar that is lent.
fn pieces_in_order<T, A: Drop, F: Fn(&T) -> A, P: Moves + Drop>(
    alloc: Global,
    items: &[T],
    claims: &Claims,
    f: &F,
    course: &mut Course<P>,
) -> Result<Vec<PartAnswers<A>>, AllocError>
    requires callable { F.IsAlwaysCallable f.now }
    requires list { claims.now.items ≡ length items.now }
    requires within { course.old.done ≤ claims.now.items }
    ensures pieces { IfOk result (λ made. All (AnswersPart (FnReturnsAt F.Fn f.now) items.now) made.items) }
    ensures course { GoesOn P.stands P.leads course.old.done course.old.bar course.new.done course.new.bar }
    ensures within { course.new.done ≤ claims.now.items }
{
    let mut pieces = Vec::new(alloc);
    for _ in 0..claims.parts() {
        let Some(part) = claims.take() else {
            break;
        };
        pieces.push(PartAnswers::at(alloc, items, &part, f)?)?;
        course.follow_part(claims, &part);
    }
    Ok(pieces)
}

// The answers at the parts that the given number of other threads took.
#[cycle(halves)]
fn pieces_of<R: Threads + Sync, T: Sync, A: Send + Drop, F: Fn(&T) -> A + Sync>(
    rt: &R,
    alloc: Global,
    items: &[T],
    claims: &Claims,
    threads: usize,
    f: &F,
) -> Result<Vec<PartAnswers<A>>, AllocError>
    requires callable { F.IsAlwaysCallable f.now }
    requires list { claims.now.items ≡ length items.now }
    ensures { IfOk result (λ made. All (AnswersPart (FnReturnsAt F.Fn f.now) items.now) made.items) }
{
    if threads < 2 {
        return pieces_of_one(alloc, items, claims, f);
    }
    let half = threads / 2;
    let others = threads - half;
    let first = move || -> Result<Vec<PartAnswers<A>>, AllocError>
        requires { IsSync R.row × IsSync T.row × IsSync F.row × IsSend A.row × F.IsAlwaysCallable f.now × (claims.now.items ≡ length items.now) }
        ensures { IfOk result (λ made. All (AnswersPart (FnReturnsAt F.Fn f.entry.now) items.entry.now) made.items) }
    { pieces_of(rt, alloc, items, claims, half, f) };
    let second = move || -> Result<Vec<PartAnswers<A>>, AllocError>
        requires { IsSync R.row × IsSync T.row × IsSync F.row × IsSend A.row × F.IsAlwaysCallable f.now × (claims.now.items ≡ length items.now) }
        ensures { IfOk result (λ made. All (AnswersPart (FnReturnsAt F.Fn f.entry.now) items.entry.now) made.items) }
    { pieces_of(rt, alloc, items, claims, others, f) };
    let (a, b) = join(rt, first, second);
    together(a, b)
}

// The answers at the parts that one thread took.
fn pieces_of_one<T, A: Drop, F: Fn(&T) -> A>(
    alloc: Global,
    items: &[T],
    claims: &Claims,
    f: &F,
) -> Result<Vec<PartAnswers<A>>, AllocError>
    requires callable { F.IsAlwaysCallable f.now }
    requires list { claims.now.items ≡ length items.now }
    ensures { IfOk result (λ made. All (AnswersPart (FnReturnsAt F.Fn f.now) items.now) made.items) }
{
    let mut pieces = Vec::new(alloc);
    for _ in 0..claims.parts() {
        let Some(part) = claims.take() else {
            break;
        };
        pieces.push(PartAnswers::at(alloc, items, &part, f)?)?;
        claims.tell(&part);
    }
    Ok(pieces)
}
