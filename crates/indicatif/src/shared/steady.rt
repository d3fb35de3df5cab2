//! The thread that ticks a bar.
ghost use Rattle.std.specs.Prelude.{◌≡◌, ◌⊎◌, true, false, IsTrue, is_ok, IfErr, Err};
ghost use Rattle.indicatif_bar.specs.Commands as Command;
ghost use Rattle.indicatif_bar.specs.Commands.{SetTicker};
ghost use Rattle.indicatif_bar.specs.Lone as Lone;
ghost use Rattle.indicatif.specs.Fronts.{CanAnswer};

use crate::shared::ProgressBar;
use crate::shared::request::Tried;
use crate::shared::shared_bar::{SharedBar, wait_for_board};
use indicatif_bar::lone::LoneCall;
use indicatif_bar::state::BarCommand;
use indicatif_bar::style::Tracks;
use indicatif_term::target::TermLike;
use indicatif_text::columns::{Clock, Refusal};
use std::sync::{Arc, Wait};
use std::thread::Threads;
use std::time::Duration;
use std::{thread, time};

/// Ticks until this ticker is no longer installed, or the bar is finished or has no owner. Between two ticks it waits the whole interval:
/// if it wakes earlier without reason to end, for instance because another ticker ended, it goes on waiting.
fn run_ticker<K: Tracks, T: TermLike + Drop, C: Clock + Drop, R: Wait + time::Clock>(
    rt: &R,
    cell: &SharedBar<K, T, C>,
    number: u64,
    interval: Duration,
) {
    for _ in rt.forever() {
        let mut locked = cell.turn(rt);
        if !locked.ticks_by(rt, number) {
            break;
        }
        let tick: LoneCall<K> = LoneCall::Bar(BarCommand::TickerTick);
        match locked.tell(rt, tick) {
            Tried::Made(_) => {
                let (locked, _) = cell
                    .changed
                    .wait_timeout_while(rt, locked, interval, |locked| locked.awaits(number));
                drop(locked);
            }
            Tried::ComeAgain(_) => wait_for_board(rt, locked),
        }
    }
}

impl<
    T: TermLike + Drop + Send + 'static,
    C: Clock + Drop + Send + 'static,
    R: Wait + Threads + time::Clock + Clone + Drop + Send + 'static,
    K: Tracks + Send + 'static,
> ProgressBar<T, C, R, K> {
    /// Starts a thread that ticks the bar, at once and then each `nanos` nanoseconds, in place of any other ticker; calls of `tick` do
    /// nothing meanwhile. An interval of 0 changes nothing.
    ///
    /// It ends once it is disabled or another is enabled, or the bar is finished or its last owner is gone; it stays installed until it is
    /// disabled.
    ///
    /// ```
    /// bar.enable_steady_tick(100_000_000)?; // ten times a second
    /// bar.disable_steady_tick()?;
    /// ```
    ///
    /// Refused: `Memory`, if no thread can be started or the history of the bar's board gets no memory; `NotMember`, if `tick` is, on a
    /// board. Then the installed ticker goes on.
    #[tactic(auto, using(crate::proofs::FrontLemmas::place_answers))]
    pub fn enable_steady_tick(&self, nanos: u64) -> Result<(), Refusal>
        ensures idle { nanos ≡ 0 → IsTrue (is_ok result) }
        ensures refused { IfErr result (λ e. (e ≡ Refusal.Memory) ⊎ CanAnswer K (Lone.Obey (SetTicker true)) (Err e)) }
    {
        if nanos == 0 {
            return Ok(());
        }
        let interval = Duration::from_nanos(nanos);
        let Ok(cell) = Arc::try_clone(&self.state) else {
            return Err(Refusal::Memory);
        };
        let Ok(rt) = self.rt.clone() else {
            return Err(Refusal::Memory);
        };
        let mut locked = self.state.turn(&self.rt);
        let Some(number) = locked.ticker.begin() else {
            return Err(Refusal::Memory);
        };
        let run = move || run_ticker(&rt, &*cell, number, interval);
        match thread::spawn(&self.rt, run) {
            Ok(thread) => {
                drop(thread);
                if let Err(refusal) = locked.install_ticker(&self.rt, number) {
                    return Err(refusal);
                }
                drop(locked);
                self.state.changed.notify_all();
                Ok(())
            }
            Err(_) => Err(Refusal::Memory),
        }
    }
}

impl<T: TermLike + Drop, C: Clock + Drop, R: Wait + Clone + Drop, K: Tracks> ProgressBar<
    T,
    C,
    R,
    K,
> {
    /// Stops the steady ticker. Its thread ends by itself; this doesn't wait for it.
    ///
    /// Refused: `Memory`, if the history of the bar's board gets no memory; `NotMember`, if `tick` is, on a board. Then the installed
    /// ticker goes on.
    #[tactic(auto, using(crate::proofs::FrontLemmas::place_answers))]
    pub fn disable_steady_tick(&self) -> Result<(), Refusal>
        ensures { IfErr result (λ e. CanAnswer K (Lone.Obey (Command.SetTicker false)) (Err e)) }
    {
        let mut locked = self.state.turn(&self.rt);
        if let Err(refusal) = locked.disable_ticker(&self.rt) {
            return Err(refusal);
        }
        drop(locked);
        self.state.changed.notify_all();
        Ok(())
    }
}
