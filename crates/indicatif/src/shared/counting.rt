//! Threads that count for a shared bar, without its lock.
ghost use Rattle.std.specs.Prelude.{◌≡◌, ◌%◌, ◌^◌, IfOk, IfErr};
ghost use Rattle.indicatif_board.specs.Done.{first_worker, whole_share};
ghost use Rattle.indicatif_bar.specs.Commands as Command;
ghost use Rattle.indicatif_bar.specs.Lone as Lone;
ghost use Rattle.indicatif.specs.Fronts.{CanAnswer};

use crate::shared::ProgressBar;
use indicatif_bar::style::Tracks;
use indicatif_board::done::{BarWorker, Done};
use indicatif_term::target::TermLike;
use indicatif_text::columns::{Clock, Drawn, Refusal};
use std::sync::Wait;

/// Threads that count for this bar. Each call of a shared bar takes its lock; a worker's `add` takes none, and the bar moves once, when it
/// absorbs the sum.
impl<T: TermLike + Drop, C: Clock + Drop, R: Wait + Clone + Drop, K: Tracks> ProgressBar<
    T,
    C,
    R,
    K,
> {
    /// A sum of 0, and a worker that holds the whole share of it; split off a worker for each thread. The bar doesn't change until it
    /// absorbs the sum, and it needn't absorb it: the sum isn't part of the bar.
    ///
    /// Refused: `Memory`, nothing is made.
    ///
    /// ```
    /// let (done, worker) = bar.worker()?;
    /// let (mut mine, mut theirs) = worker.split(&done)?;
    /// // in two threads: mine.add(&done, 1); theirs.add(&done, 2);
    /// let whole = mine.join(theirs, &done);
    /// bar.absorb(done, whole)?; // the position goes up by 3
    /// ```
    pub fn worker(&self) -> Result<(Done, BarWorker), Refusal>
        ensures worker { IfOk result (λ made. made.1 ≡ first_worker made.0) }
        ensures memory { IfErr result (λ e. e ≡ Refusal.Memory) }
    {
        Done::new(self.alloc)
    }

    /// Adds what workers have counted to the position, modulo 2^64; otherwise as `inc`. The sum is closed. The worker must hold the whole
    /// share: every other worker of this sum was joined to it. The sum may come from another bar.
    pub fn absorb(&self, done: Done, worker: BarWorker) -> Result<Drawn, Refusal>
        requires of { worker.adds_to ≡ done }
        requires whole { worker.account.parts ≡ whole_share }
        ensures { CanAnswer K (Lone.Obey (Command.Inc (worker.account.added % 2 ^ 64))) result }
    {
        self.inc(done.close(worker))
    }
}
