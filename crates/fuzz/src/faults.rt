//! What may be wrong with a run, and how many runs have a fault.
use indicatif_text::columns::Refusal;
use std::alloc::{AllocError, AllocFailed};
use std::fmt::Debug;

/// What is wrong with a run.
#[derive(Clone, Copy, Debug, Drop)]
pub enum Fault {
    /// A line has a newline or a tab.
    Line,
    /// With colours other characters are visible.
    Colours,
    /// A new board that makes the calls of a history gives other answers, or shows something else.
    Replay,
    /// A row above the bars has changed.
    Above,
    /// A logged text isn't above the bars.
    Lost,
    /// The first draw after a failure doesn't begin on a new row.
    Beginning,
    /// A row that was written after a failure holds something else beside its text.
    Beside,
    /// A call has a wrong answer.
    Answer,
    /// A call that failed left other bars in the order.
    Order,
    /// A call that got no memory wrote something.
    Written,
    /// Another number of the writer's calls failed than had to.
    Failures,
    /// Something was refused that must not be.
    Refused(Refusal),
}

/// Whether all is well.
pub type Held = Result<(), Fault>;

impl Fault {
    /// This fault, unless a test holds.
    pub fn unless(self, holds: bool) -> Held {
        match holds {
            true => Ok(()),
            false => Err(self),
        }
    }
}

/// An answer without what it holds.
pub fn settled<V: Drop>(answer: Result<V, Refusal>) -> Result<(), Refusal> {
    answer?;
    Ok(())
}

impl From<Refusal> for Fault {
    fn from(refusal: Refusal) -> Fault {
        Fault::Refused(refusal)
    }
}

impl From<AllocError> for Fault {
    fn from(_: AllocError) -> Fault {
        Fault::Refused(Refusal::Memory)
    }
}

impl<V: Drop> From<AllocFailed<V>> for Fault {
    fn from(_: AllocFailed<V>) -> Fault {
        Fault::Refused(Refusal::Memory)
    }
}

/// How many runs there were, how many had a fault, and the first of these.
#[derive(Drop)]
pub struct Tally<C> {
    pub runs: u64,
    pub faulty: u64,
    first: Option<(C, Fault)>,
}

impl<C: Debug + Drop> Tally<C> {
    /// No runs yet.
    pub fn new() -> Tally<C> {
        Tally {
            runs: 0,
            faulty: 0,
            first: None,
        }
    }

    /// Counts a run; what it gives, or a default if it has a fault.
    pub fn count<V: Default>(&mut self, case: C, run: Result<V, Fault>) -> V {
        self.runs = self.runs.saturating_add(1);
        match run {
            Ok(given) => given,
            Err(fault) => {
                self.faulty = self.faulty.saturating_add(1);
                self.first.get_or_insert((case, fault));
                V::default()
            }
        }
    }

    /// Prints the first run with a fault.
    pub fn print_first<R: Print>(&self, rt: &R) -> anyhow::Result<()> {
        if let Some((case, fault)) = &self.first {
            println!(rt; "  the first is {case:?}: {fault:?}")?;
        }
        Ok(())
    }
}
