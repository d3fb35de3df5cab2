//! Pieces of work that threads do, with a bar.
//!
//! `run_workers` and `Gate` are here. The modules below are private:
//!
//! - `crew`: `Work`, what several threads do at the same time: all are started before one begins, and joined.
//! - `pieces`: `PieceQueue`, of which each thread takes the next; their results, gathered and put in order.
ghost use Rattle.std.specs.Prelude.{◌≡◌, ◌≤◌, ℕ, IfOk, IfErr, OnOk, length, ◌⊎◌, ◌↔◌, Err};
ghost use Rattle.std.specs.List.{AllZip};
ghost use Rattle.std.specs.Fn.{FnReturnsAt};
ghost use Rattle.indicatif.specs.Workers.{items_in, Absorbed};
ghost use Rattle.indicatif.specs.Inside.Pieces.{CountsPieces};

mod crew;
mod pieces;

use self::crew::by_all;
use self::pieces::PieceQueue;
use crate::parallel::claims::Claims;
use crate::shared::ProgressBar;
use crate::wrappers::moves::Moves;
use indicatif_bar::style::Tracks;
use indicatif_term::target::TermLike;
use indicatif_text::columns::{Clock, Refusal};
use rayon::current_num_threads;
use std::alloc::Global;
use std::sync::Wait;
use std::thread::Threads;

/// What each piece passes once before its first item, in the thread that works on it: for tests of what runs at the same time, and for
/// pieces that have to begin in some order.
///
/// ```
/// struct Open;
/// impl Gate for Open { fn pass(&self, piece: usize) {} }
/// ```
pub trait Gate: Sync {
    /// Lets the piece with this number pass; the first is 0.
    fn pass(&self, piece: usize);

    /// Whether all pieces have to run at the same time. Return `true` if one piece waits for another: otherwise the other may come only
    /// after it, and both deadlock. The default is `false`.
    ///
    /// ```
    /// fn needs_all_at_once(&self) -> bool { true }
    /// ```
    fn needs_all_at_once(&self) -> bool {
        false
    }
}

/// What `f` returns for each item of each piece: the pieces in their order, and each one's answers in its items' order. At the end the bar
/// is advanced once, by all items that were met.
///
/// There are as many threads as processors, but no more than pieces; the caller is one of them. If the gate needs all pieces at once
/// (`Gate::needs_all_at_once`), there are as many threads as pieces. All threads are started before the first piece begins. Each takes the
/// next piece, until none is left.
///
/// ```
/// let made = run_workers(&rt, alloc, pieces.as_slice(), |x: &u32| x.wrapping_mul(2), &Open, &bar)?;
/// ```
///
/// Refused: `ZeroPieces` if there is no piece, and nothing is done. `Memory`. If a thread can't be started, no piece begins, the started
/// ones are joined, and the bar is unchanged. The same holds if there is no memory for the lists that are made before the first piece
/// begins; if a list that grows later gets none, the other threads go on first. If a piece gets none for its answers, the others go on, and
/// the bar is advanced by the items that were met.
pub fn run_workers<
    R: Threads + Wait + Sync,
    T: Sync,
    A: Send + Drop,
    F: Fn(&T) -> A + Sync + Drop,
    G: Gate,
    W: TermLike + Drop,
    C: Clock + Drop,
    B: Wait + Clone + Drop,
    K: Tracks,
>(
    rt: &R,
    alloc: Global,
    pieces: &[Vec<T>],
    f: F,
    gate: &G,
    bar: &ProgressBar<W, C, B, K>,
) -> Result<Vec<Vec<A>>, Refusal>
    requires { F.IsAlwaysCallable f }
    ensures answers { IfOk result (λ made. AllZip (λ piece answers. AllZip (FnReturnsAt F.Fn f) piece.items answers.items) pieces.now made.items) }
    ensures none { (result ≡ Err Refusal.ZeroPieces) ↔ (length pieces.now ≡ 0) }
    ensures refused { IfErr result (λ e. (e ≡ Refusal.ZeroPieces) ⊎ (e ≡ Refusal.Memory)) }
{
    if pieces.is_empty() {
        return Err(Refusal::ZeroPieces);
    }
    let (answers, met) = answered(rt, alloc, pieces, &f, gate)?;
    let _ = bar.inc(met);
    answers.ok_or(Refusal::Memory)
}

/// Works on pieces as `run_workers`, with a bar of your own type, or one that isn't shared.
///
/// ```
/// let made = run_workers_with(&rt, alloc, pieces.as_slice(), |x: &u32| x.wrapping_mul(2), &Open, &mut bar)?;
/// ```
///
/// Refused: as `run_workers`.
pub fn run_workers_with<
    R: Threads + Wait + Sync,
    T: Sync,
    A: Send + Drop,
    F: Fn(&T) -> A + Sync + Drop,
    G: Gate,
    P: Moves,
>(
    rt: &R,
    alloc: Global,
    pieces: &[Vec<T>],
    f: F,
    gate: &G,
    bar: &mut P,
) -> Result<Vec<Vec<A>>, Refusal>
    requires { F.IsAlwaysCallable f }
    ensures answers { IfOk result (λ made. AllZip (λ piece answers. AllZip (FnReturnsAt F.Fn f) piece.items answers.items) pieces.now made.items) }
    ensures bar { OnOk result (Absorbed P.stands P.leads bar.old (items_in pieces.now) bar.new) }
    ensures none { (result ≡ Err Refusal.ZeroPieces) ↔ (length pieces.now ≡ 0) }
    ensures refused { IfErr result (λ e.
        ((e ≡ Refusal.ZeroPieces) × (bar.new ≡ bar.old))
        ⊎ ((e ≡ Refusal.Memory) × ((bar.new ≡ bar.old) ⊎ ((met : ℕ) × (met ≤ items_in pieces.now) × Absorbed P.stands P.leads bar.old met bar.new)))) }
{
    if pieces.is_empty() {
        return Err(Refusal::ZeroPieces);
    }
    let (answers, met) = answered(rt, alloc, pieces, &f, gate)?;
    let _ = bar.advance(met);
    answers.ok_or(Refusal::Memory)
}

// The number of threads for `pieces` pieces.
fn threads_for<R: Threads, G: Gate>(rt: &R, gate: &G, pieces: usize) -> usize {
    if gate.needs_all_at_once() {
        return pieces;
    }
    current_num_threads(rt).min(pieces)
}

// The answers of all pieces, unless one found no memory for its own; and how many items were met.
fn answered<R: Threads + Wait + Sync, T: Sync, A: Send + Drop, F: Fn(&T) -> A + Sync, G: Gate>(
    rt: &R,
    alloc: Global,
    pieces: &[Vec<T>],
    f: &F,
    gate: &G,
) -> Result<(Option<Vec<Vec<A>>>, u64), Refusal>
    requires callable { F.IsAlwaysCallable f.now }
    ensures counts { IfOk result (λ r. CountsPieces (FnReturnsAt F.Fn f.now) pieces.now r.0 r.1) }
    ensures memory { IfErr result (λ e. e ≡ Refusal.Memory) }
{
    let room = Vec::with_capacity(alloc, pieces.len())?;
    let others = threads_for(rt, gate, pieces.len()).saturating_sub(1);
    let work = PieceQueue {
        alloc,
        pieces,
        claims: Claims::new(pieces.len()),
        f,
        gate,
    };
    let ended = by_all(rt, alloc, others, &work)?;
    Ok(work.in_order(ended, room))
}
