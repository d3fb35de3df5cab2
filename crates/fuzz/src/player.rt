//! The calls of a thread.
use crate::faults::settled;
use crate::numbers::Numbers;
use indicatif::machine::MachineClock;
use indicatif::{
    Change, InMemoryTerm, MultiProgress, MultiProgressAlignment, ProgressBar, Refusal,
};
use std::sync::Wait;
use std::thread::{Threads, sleep};
use std::time::{Clock, Duration};

/// What it needs from the runtime.
pub trait Plays: AllocGlobal + Threads + Wait + Clock + Sync + Send + Copy + Drop + 'static {}

impl<R: AllocGlobal + Threads + Wait + Clock + Sync + Send + Copy + Drop + 'static> Plays for R {}

pub type Bar<R> = ProgressBar<InMemoryTerm, MachineClock<R>, R>;

pub type Multi<R> = MultiProgress<InMemoryTerm, MachineClock<R>, R>;

/// A millisecond.
const OFTEN: u64 = 1_000_000;

/// How many kinds of calls log a line; they are the first ones.
const LOGS: usize = 2;

/// Random calls of threads on a board: their seed, and how many each makes.
#[derive(Drop)]
pub struct Random {
    pub seed: u64,
    pub steps: u64,
}

/// A thread with its number, and what its calls use. The last bar is only for `tosses`.
#[derive(Drop)]
pub struct Player<'a, R: Plays> {
    pub rt: R,
    pub board: &'a Multi<R>,
    pub bars: &'a [Bar<R>],
    pub number: u64,
    pub random: &'a Random,
}

impl<R: Plays> Player<'_, R> {
    /// Makes its calls, before some of which it waits up to a fifth of a millisecond; how many lines it logged.
    pub fn plays(&self) -> Result<u64, Refusal> {
        let mut numbers = Numbers::new(self.random.seed, self.number);
        let mut logged: u64 = 0;
        for step in 0..self.random.steps {
            if numbers.one_in(3) {
                let nanos = u64::from(numbers.next() % 200_000);
                sleep(&self.rt, Duration::from_nanos(nanos));
            }
            let deed = numbers.below(20);
            if deed < LOGS {
                logged = logged.wrapping_add(1);
            }
            let pick = numbers.below(self.bars.len().saturating_sub(1));
            if let Some(bar) = self.bars.get(pick) {
                self.makes(deed, bar, step)?;
            }
        }
        Ok(logged)
    }

    /// Makes the call with this number below 20, of a bar if it is one of a bar.
    fn makes(&self, deed: usize, bar: &Bar<R>, step: u64) -> Result<(), Refusal> {
        settled(match deed {
            0 => self.board.println(self.text("log", step)?.as_str()),
            1 => bar.println(self.text("log", step)?.as_str()),
            2 => return bar.enable_steady_tick(OFTEN),
            3 => return bar.disable_steady_tick(),
            4 => bar.set_message(self.text("m", step)?.as_str()),
            5 => self.board.suspend(|| 1u8).1,
            6 => self.board.clear(),
            7 => bar.finish(),
            8 => bar.reset(),
            9 => bar.set_length(step),
            10 => bar.suspend(|| 1u8).1,
            11 => return self.comes_and_goes(),
            12 => return self.in_and_out(),
            13 => bar.finish_and_clear(),
            14 => bar.update(|state| Change {
                pos: Some(state.pos().wrapping_add(1)),
                len: None,
            }),
            15 => return self.tosses(),
            16 => return self.board.set_alignment(MultiProgressAlignment::Bottom),
            17 => return self.board.set_alignment(MultiProgressAlignment::Top),
            18 => bar.force_draw(),
            _ => bar.inc(1),
        })
    }

    /// A text of this thread at this step.
    fn text(&self, word: &str, step: u64) -> Result<String, Refusal> {
        Ok(format!(in self.rt.alloc(); "{word} {} {step}", self.number)?)
    }

    /// A bar is added at the end of the board, ticks and steps, and goes with its ticker.
    fn comes_and_goes(&self) -> Result<(), Refusal> {
        let bar = self.board.new_spinner()?;
        bar.enable_steady_tick(500_000)?;
        bar.inc(1)?;
        bar.tick()?;
        Ok(())
    }

    /// A bar that was on no board is inserted as the second one, and removed.
    fn in_and_out(&self) -> Result<(), Refusal> {
        let bar = ProgressBar::hidden(self.rt, self.rt.alloc(), MachineClock::new(self.rt))?;
        let bar = self.board.insert(1, bar)?;
        bar.tick()?;
        self.board.remove(&bar)
    }

    /// A bar that all threads share is removed, changed while it stands alone, and inserted before all others. (It logs no line: one that
    /// is logged meanwhile goes to no board.)
    fn tosses(&self) -> Result<(), Refusal> {
        let Some(bar) = self.bars.last() else {
            return Ok(());
        };
        self.board.remove(bar)?;
        bar.inc(1)?;
        self.board.insert(0, bar.clone()?)?;
        Ok(())
    }
}
