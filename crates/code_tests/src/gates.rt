//! Pieces and lists that threads work on: gates, counts, and a bar of the tests' own.
use crate::checks::{Granted, Runtime};
use indicatif::{Drawn, Gate, Moves, Refusal};
use std::sync::atomic::{AtomicU64, Ordering};
use std::thread::sleep;
use std::time::{Clock, Duration};

/// Lets every piece pass. (This is the example of `Gate`.)
#[derive(Drop)]
pub struct Open;

impl Gate for Open {
    fn pass(&self, piece: usize) {}
}

/// `count` counts of 0.
pub fn counts<R: Runtime>(rt: &R, count: u32) -> Vec<AtomicU64> {
    let mut counts = Vec::new(rt.alloc());
    for _ in 0..count {
        counts.push(AtomicU64::new(0)).granted(rt);
    }
    counts
}

/// Whether each of these counts is 1.
pub fn are_once(counts: &[AtomicU64]) -> bool {
    for times in counts {
        if times.load(Ordering::SeqCst) != 1 {
            return false;
        }
    }
    true
}

/// Counts of each piece how often it passes; how many are at work, and the most that were at work at the same time.
#[derive(Drop)]
pub struct Roll {
    pub passed: Vec<AtomicU64>,
    at_work: AtomicU64,
    pub most: AtomicU64,
}

impl Roll {
    /// For the given number of pieces.
    pub fn of<R: Runtime>(rt: &R, pieces: u32) -> Roll {
        Roll {
            passed: counts(rt, pieces),
            at_work: AtomicU64::new(0),
            most: AtomicU64::new(0),
        }
    }

    /// How often this piece has passed.
    pub fn passed(&self, piece: u32) -> u64 {
        match self.passed.get(piece as usize) {
            Some(passed) => passed.load(Ordering::SeqCst),
            None => 0,
        }
    }

    /// A piece is at its last item.
    pub fn leave(&self) {
        self.at_work.fetch_sub(1, Ordering::SeqCst);
    }
}

impl Gate for Roll {
    fn pass(&self, piece: usize) {
        if let Some(passed) = self.passed.get(piece) {
            passed.fetch_add(1, Ordering::SeqCst);
        }
        let others = self.at_work.fetch_add(1, Ordering::SeqCst);
        self.most
            .fetch_max(others.wrapping_add(1), Ordering::SeqCst);
    }
}

/// How many milliseconds a piece waits for the others.
const PATIENCE: u32 = 10_000;

/// Holds each piece until all have come, or for a limited time.
#[derive(Drop)]
pub struct Meeting<C> {
    clock: C,
    all: u64,
    come: AtomicU64,
    pub saw_all: AtomicU64,
}

impl<C: Clock> Meeting<C> {
    /// For `all` pieces.
    pub fn of(clock: C, all: u64) -> Meeting<C> {
        Meeting {
            clock,
            all,
            come: AtomicU64::new(0),
            saw_all: AtomicU64::new(0),
        }
    }
}

impl<C: Clock + Sync> Gate for Meeting<C> {
    fn pass(&self, piece: usize) {
        self.come.fetch_add(1, Ordering::SeqCst);
        for _ in 0..PATIENCE {
            if self.come.load(Ordering::SeqCst) == self.all {
                self.saw_all.fetch_add(1, Ordering::SeqCst);
                return;
            }
            sleep(&self.clock, Duration::from_millis(1));
        }
    }

    fn needs_all_at_once(&self) -> bool {
        true
    }
}

// ---- a bar whose position can be read, and which keeps its advances

/// A bar without a length, so that finishing leaves its position.
#[derive(Drop)]
pub struct Stepped {
    pub position: u64,
    pub finished: bool,
    pub steps: Vec<u64>,
}

impl Moves for Stepped {
    ghost use Rattle.std.specs.Prelude.{Some, None};

    ghost stands = { λ bar. Some (record { position = bar.position; finished = bar.finished; ends_at = None }) };

    fn advance(&mut self, n: u64) -> Result<Drawn, Refusal> {
        self.position = self.position.wrapping_add(n);
        self.steps.push(n)?;
        Ok(Drawn::Limited)
    }

    fn place(&mut self, place: u64) -> Result<Drawn, Refusal> {
        self.position = place;
        Ok(Drawn::Limited)
    }

    fn finish(&mut self) -> Result<Drawn, Refusal> {
        self.finished = true;
        Ok(Drawn::Yes)
    }

    fn position(&self) -> u64 {
        self.position
    }

    fn finished(&self) -> bool {
        self.finished
    }
}

/// A bar at 0, without advances.
pub fn new_bar<R: Runtime>(rt: &R) -> Stepped {
    Stepped {
        position: 0,
        finished: false,
        steps: Vec::new(rt.alloc()),
    }
}

/// Twice an item.
pub fn twice(x: &u32) -> u32 {
    x.wrapping_mul(2)
}
