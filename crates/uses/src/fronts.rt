//! What is proved about shared bars and boards, about lists and pieces that threads work on, and about what threads add up to.
ghost use Rattle.std.specs.Prelude.{◌≡◌, ◌≢◌, ◌⊎◌, ◌<◌, ◌+◌, ◌*◌, ◌%◌, ◌^◌, IfOk, IfErr, IfSome, OnOk, Some, Ok, Err, length};
ghost use Rattle.std.specs.List.{AllZip};
ghost use Rattle.indicatif_text.specs.declared.refusal.Drawn.TheVariants.{Limited};
ghost use Rattle.indicatif_bar.specs.Commands.{Inc};
ghost use Rattle.indicatif_bar.specs.Lone.{Obey};
ghost use Rattle.indicatif.specs.Fronts.{CanAnswer};
ghost use Rattle.indicatif.specs.Moves.{after_bar_move, Advance};
ghost use Rattle.indicatif.specs.Wrap.{inner_of};

use indicatif::laws::blocks_add_up;
use indicatif::style::Tracks;
use indicatif::{
    Clock, Done, Drawn, Gate, Moves, MultiProgress, ParallelProgressIterator, ProgressBar,
    ProgressBarIter, Refusal, TermLike, run_workers,
};
use std::alloc::Global;
use std::sync::Wait;
use std::thread::Threads;

/// A forced draw, which no limiter puts off, wherever the bar stands.
#[tactic(auto, unfolding(indicatif::specs::Fronts::CanAnswer))]
pub fn drawn_now<T: TermLike + Drop, C: Clock + Drop, R: Wait + Clone + Drop, K: Tracks>(
    bar: &ProgressBar<T, C, R, K>,
) -> Result<Drawn, Refusal>
    ensures { result ≢ Ok Limited }
{
    bar.force_draw()
}

/// The number after this one, computed while the rows of a bar are cleared; if the bar's step is refused, it is with a refusal that a bar
/// can give.
pub fn next_beside<T: TermLike + Drop, C: Clock + Drop, R: Wait + Clone + Drop, K: Tracks>(
    bar: &ProgressBar<T, C, R, K>,
    number: u32,
) -> Result<u32, Refusal>
    ensures next { IfOk result (λ next. next ≡ (number + 1) % 2 ^ 32) }
    ensures refused { IfErr result (λ e. CanAnswer K (Obey (Inc 1)) (Err e)) }
{
    bar.inc(1)?;
    let add = || -> u32
        ensures { result ≡ (number + 1) % 2 ^ 32 }
    { number.wrapping_add(1) };
    Ok(bar.suspend(add).0)
}

/// The number after this one, computed while the rows of all bars of a board are cleared.
pub fn next_above<T: TermLike + Drop, C: Clock + Drop, R: Wait + Clone + Drop, K: Tracks>(
    board: &MultiProgress<T, C, R, K>,
    number: u32,
) -> u32
    ensures { result ≡ (number + 1) % 2 ^ 32 }
{
    let add = || -> u32
        ensures { result ≡ (number + 1) % 2 ^ 32 }
    { number.wrapping_add(1) };
    board.suspend(add).0
}

/// Each number of a list doubled, in order, by threads, whatever bar is moved; a bar whose position can be read has advanced by as many as
/// there are numbers, once each.
pub fn doubled<R: Threads + Sync, P: Moves + Drop>(
    rt: &R,
    alloc: Global,
    list: ProgressBarIter<&[u32], P>,
) -> (Result<Vec<u32>, Refusal>, P)
    ensures numbers { IfOk result.0 (λ made. AllZip (λ x y. y ≡ x * 2 % 2 ^ 32) (inner_of list.entry).now made.items) }
    ensures bar { OnOk result.0 (IfSome (P.stands list.entry.progress) (λ bar. bar.position < 2 ^ 64 →
        P.stands result.1 ≡ Some (after_bar_move bar (Advance (length (inner_of list.entry).now))))) }
{
    blocks_add_up::<P>();
    let double = |x: &u32| -> u32
        ensures { result ≡ x.now * 2 % 2 ^ 32 }
    { x.wrapping_mul(2) };
    list.map_collect(rt, alloc, double)
}

/// Each number of each piece doubled, in order, by threads that count for a shared bar; only `ZeroPieces` and `Memory` are refused.
pub fn doubled_pieces<
    R: Threads + Wait + Sync,
    G: Gate,
    T: TermLike + Drop,
    C: Clock + Drop,
    B: Wait + Clone + Drop,
    K: Tracks,
>(
    rt: &R,
    alloc: Global,
    pieces: &[Vec<u32>],
    gate: &G,
    bar: &ProgressBar<T, C, B, K>,
) -> Result<Vec<Vec<u32>>, Refusal>
    ensures made { IfOk result (λ made. AllZip (λ piece answers. AllZip (λ x y. y ≡ x * 2 % 2 ^ 32) piece.items answers.items) pieces.now made.items) }
    ensures refused { IfErr result (λ e. (e ≡ Refusal.ZeroPieces) ⊎ (e ≡ Refusal.Memory)) }
{
    let double = |x: &u32| -> u32
        ensures { result ≡ x.now * 2 % 2 ^ 32 }
    { x.wrapping_mul(2) };
    run_workers(rt, alloc, pieces, double, gate, bar)
}

/// What two workers of one sum add, modulo 2^64, whichever adds first.
pub fn sum_of_two(alloc: Global, first: u64, second: u64) -> Result<u64, Refusal>
    ensures sum { IfOk result (λ sum. sum ≡ (first + second) % 2 ^ 64) }
    ensures memory { IfErr result (λ e. e ≡ Refusal.Memory) }
{
    let (done, worker) = Done::new(alloc)?;
    let (mut mine, mut theirs) = worker.split(&done)?;
    theirs.add(&done, second);
    mine.add(&done, first);
    let whole = mine.join(theirs, &done);
    Ok(done.close(whole))
}

/// What the only worker of a sum reads once it added a number: that number, and not one more.
pub fn read_back(alloc: Global, number: u64) -> Result<u64, Refusal>
    ensures { IfOk result (λ read. read ≡ number) }
{
    let (done, mut worker) = Done::new(alloc)?;
    worker.add(&done, number);
    let read = worker.total(&done);
    done.close(worker);
    Ok(read)
}
