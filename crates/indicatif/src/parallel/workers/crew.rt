//! Threads that do the same work at the same time.
ghost use Rattle.std.specs.Prelude.{◌≡◌, IfOk, All, []};

use crate::parallel::part_answers::together;
use std::alloc::{AllocError, Global};
use std::snapshot::Snapshot;
use std::sync::{RwLock, Wait};
use std::thread;
use std::thread::{Promise, PromisedHandle, Scope, Threads};

/// Work that several threads do at the same time.
pub trait Work: Sync {
    /// The type of its results.
    type Item: Send + Drop;

    /// When the work can be done.
    ghost can_work: { Self → Type 0 };

    /// What holds of each result.
    ghost gives: { Self → Self.Item → Type 0 };

    /// The results of one of the threads.
    fn work(&self, room: Vec<Self::Item>) -> Result<Vec<Self::Item>, AllocError>
        requires can { can_work self.now }
        requires empty { room.items ≡ [] }
        ensures { IfOk result (λ made. All (gives self.now) made.items) };
}

// What is known of all that a thread makes.
#[derive(Drop)]
struct Kept<K>(Snapshot<K>);

impl<K: Work> Promise<Result<Vec<K::Item>, AllocError>> for Kept<K> {
    ghost kept_by = { λ p r. IfOk r (λ made. All (K.gives p.0.value) made.items) };
}

/// The results of the given number of other threads and of the caller. All are started before one of them begins. If one can't be started,
/// none begins.
pub fn by_all<R: Threads + Wait + Sync, K: Work>(
    rt: &R,
    alloc: Global,
    others: usize,
    work: &K,
) -> Result<Vec<K::Item>, AllocError>
    requires { K.can_work work.now }
    ensures { IfOk result (λ made. All (K.gives work.now) made.items) }
{
    let start = &RwLock::new(false);
    thread::scope(
        thread::scope_env(),
        rt,
        |scope| -> Result<Vec<K::Item>, AllocError>
            requires { K.can_work work.now }
            ensures { IfOk result (λ made. All (K.gives work.entry.now) made.items) }
        {
            let room = Vec::with_capacity(alloc, 1)?;
            let threads = started(rt, alloc, scope, others, start, work)?;
            let mine = work.work(room);
            joined(rt, mine, threads, work)
        },
    )
}

// The given number of threads of this scope, which begin as soon as all are started.
fn started<'s, E, R: Threads + Wait + Sync, K: Work>(
    rt: &'s R,
    alloc: Global,
    scope: &'s Scope<'s, E>,
    others: usize,
    start: &'s RwLock<bool>,
    work: &'s K,
) -> Result<Vec<PromisedHandle<Result<Vec<K::Item>, AllocError>, Kept<K>>>, AllocError>
    requires { K.can_work work.now }
    ensures { IfOk result (λ threads. All (λ h. h.promise.0.value ≡ work.now) threads.items) }
{
    let mut threads = Vec::with_capacity(alloc, others)?;
    let mut starting = start.write(rt);
    for _ in 0..others {
        let promise = Kept(Snapshot::of(work));
        let room = Vec::with_capacity(alloc, 1)?;
        let part = move || -> Result<Vec<K::Item>, AllocError>
            requires { K.can_work work.now × (room.items ≡ []) }
            ensures { IfOk result (λ made. All (K.gives work.entry.now) made.items) }
        { begin(rt, start, work, room) };
        threads.push(scope.spawn_with(promise, part)?)?;
    }
    *starting = true;
    Ok(threads)
}

// One thread's part, if all threads were started.
fn begin<R: Wait, K: Work>(
    rt: &R,
    start: &RwLock<bool>,
    work: &K,
    room: Vec<K::Item>,
) -> Result<Vec<K::Item>, AllocError>
    requires can { K.can_work work.now }
    requires empty { room.items ≡ [] }
    ensures { IfOk result (λ made. All (K.gives work.now) made.items) }
{
    let begins = *start.read(rt);
    if !begins {
        return Err(AllocError);
    }
    work.work(room)
}

// All that they make together.
fn joined<R: Threads, K: Work>(
    rt: &R,
    mine: Result<Vec<K::Item>, AllocError>,
    threads: Vec<PromisedHandle<Result<Vec<K::Item>, AllocError>, Kept<K>>>,
    work: &K,
) -> Result<Vec<K::Item>, AllocError>
    requires mine { IfOk mine (λ made. All (K.gives work.now) made.items) }
    requires theirs { All (λ h. h.promise.0.value ≡ work.now) threads.items }
    ensures { IfOk result (λ made. All (K.gives work.now) made.items) }
{
    let mut all = mine;
    for thread in threads {
        all = together(all, thread.join(rt));
    }
    all
}
