//! A shared board that makes the calls of a script.
use crate::faults::settled;
use crate::sweeps::local::{MARK, done, still};
use crate::sweeps::record::{Behind, Record};
use crate::sweeps::script::{Said, Step};
use crate::sweeps::sweep::Runs;
use indicatif::ProgressFinish::AndLeave;
use indicatif::{
    Drawn, MultiProgress, MultiProgressAlignment, ProgressBar, ProgressDrawTarget, ProgressStyle,
    Refusal, StepClock,
};
use std::rc::Rc;

type Bar<R> = ProgressBar<Behind, StepClock, R>;

/// A shared board, its bars in the order of insertion, and what its terminal's writer got.
#[derive(Drop)]
pub struct OnShared<R: Runs> {
    rt: R,
    board: MultiProgress<Behind, StepClock, R>,
    bars: Vec<Option<Bar<R>>>,
    record: Rc<Record>,
}

impl<R: Runs> OnShared<R> {
    /// A board without bars on this terminal.
    pub fn new(rt: R, term: Behind, record: &Rc<Record>) -> Result<OnShared<R>, Refusal> {
        let record = record.clone()?;
        let bars = Vec::with_capacity(rt.alloc(), 8)?;
        let setup = still(ProgressDrawTarget::term_like(term));
        Ok(OnShared {
            rt,
            board: MultiProgress::new(rt, rt.alloc(), setup, MARK)?,
            bars,
            record,
        })
    }

    /// A bar with this message that stands on no board.
    fn saying(&self, text: &str) -> Result<Bar<R>, Refusal> {
        let style = ProgressStyle::with_template(self.rt.alloc(), "{msg}")?;
        let setup = still(ProgressDrawTarget::hidden());
        ProgressBar::styled(self.rt, self.rt.alloc(), style, None, setup)?.with_message(text)
    }

    fn bar(&self, number: u64) -> Result<&Bar<R>, Refusal> {
        match self.bars.get(number as usize) {
            Some(Some(bar)) => Ok(bar),
            _ => Err(Refusal::NotMember),
        }
    }

    /// Adds a new bar with this message before another, or last.
    fn add(&mut self, anchor: Option<u64>, text: &str) -> Result<(), Refusal> {
        let new = self.saying(text)?;
        let taken = match anchor {
            Some(anchor) => self.board.insert_before(self.bar(anchor)?, new),
            None => self.board.add(new),
        };
        Ok(self.bars.push(Some(taken?))?)
    }

    /// Drops the last owner of a bar, which has no answer: it counts as drawn if the writer didn't fail.
    fn drop_bar(&mut self, number: u64) -> Said {
        let before = self.record.point();
        if let Some(bar) = self.bars.get_mut(number as usize) {
            *bar = None;
        }
        match self.record.point().failure_since(before) {
            None => Ok(Drawn::Yes),
            Some(kind) => Err(Refusal::Terminal(kind)),
        }
    }

    fn settle(&mut self, step: Step) -> Result<(), Refusal> {
        match step {
            Step::Add(text) => self.add(None, text),
            Step::Before(anchor, text) => self.add(Some(anchor), text),
            Step::Told(bar, text) => settled(self.bar(bar)?.clone()?.with_message(text)),
            Step::Keep(bar) => settled(self.bar(bar)?.clone()?.with_finish(AndLeave)),
            Step::Remove(bar) => self.board.remove(self.bar(bar)?),
            Step::Bottom => self.board.set_alignment(MultiProgressAlignment::Bottom),
            Step::Top => self.board.set_alignment(MultiProgressAlignment::Top),
            _ => Err(Refusal::NotMember),
        }
    }

    /// Makes a call.
    pub fn make(&mut self, step: Step) -> Said {
        match step {
            Step::Tick(bar) => self.bar(bar)?.tick(),
            Step::Message(bar, text) => self.bar(bar)?.set_message(text),
            Step::Finish(bar) => self.bar(bar)?.finish(),
            Step::Drop(bar) => self.drop_bar(bar),
            Step::Log(text) => self.board.println(text),
            Step::BarLog(bar, text) => self.bar(bar)?.println(text),
            Step::Clear => self.board.clear(),
            Step::Suspend => self.board.suspend(|| ()).1,
            _ => done(self.settle(step)),
        }
    }
}
