//! A script that is played: what its calls do is noted in memory that was taken before, and looked at after the last one.
use crate::faults::{Fault, Held};
use crate::sweeps::judge::{Judge, Look};
use crate::sweeps::players::{Kind, Player};
use crate::sweeps::record::{Point, Record, Size};
use crate::sweeps::script::{Said, Step};
use crate::sweeps::sweep::{Case, Runs};
use indicatif_text::columns::{Drawn, Refusal};
use std::alloc::Global;
use std::io::ErrorKind;
use std::rc::Rc;

/// A call, and which one of the script's it is, if it is one.
pub type Turn = (Option<usize>, Step);

/// What a call did.
#[derive(Clone, Copy, Drop)]
pub struct Note {
    pub place: Option<usize>,
    pub step: Step,
    pub said: Said,
    /// How much the terminal got before it, and by its end.
    between: (Point, Point),
    keeps_order: bool,
}

impl Note {
    /// Whether it is a call of the script, this one or a later one, which wasn't refused memory.
    fn is_compared(&self, from: usize) -> bool {
        self.place.is_some_and(|at| from <= at) && self.said != Err(Refusal::Memory)
    }
}

/// Where memory was refused, in calls counted from 0.
#[derive(Clone, Copy, Drop)]
pub enum Where {
    /// No call was refused memory.
    Nowhere,
    /// The player wasn't made.
    Unmade,
    /// This call answered `Memory`.
    Call(usize),
    /// The terminal's own memory was refused in this call, which answered `Terminal`.
    Terminal(usize),
}

/// Calls that were made on a terminal of this size: what was written, and what each did.
#[derive(Drop)]
pub struct Play {
    pub alloc: Global,
    pub kind: Kind,
    pub size: Size,
    pub record: Rc<Record>,
    pub calls: Vec<Note>,
    /// The order after the last one.
    pub order: Vec<u64>,
}

impl Play {
    /// No calls yet, on a terminal that fails as planned, with room for 40 of them and for `room` bytes.
    pub fn new(alloc: Global, kind: Kind, case: Case, room: usize) -> Result<Play, Fault> {
        Ok(Play {
            alloc,
            kind,
            size: case.size,
            record: Record::new(alloc, case.plan, room)?,
            calls: Vec::with_capacity(alloc, 40)?,
            order: Vec::with_capacity(alloc, 40)?,
        })
    }

    /// Has a player make the calls of a script.
    pub fn plays<R: Runs>(&mut self, player: &mut Player<R>, script: &[Step]) -> Held {
        for (at, step) in script.iter().enumerate() {
            self.takes(player, (Some(at), player.own(*step)))?;
        }
        Ok(())
    }

    /// Has a player make a call, and notes what it does.
    pub fn takes<R: Runs>(&mut self, player: &mut Player<R>, turn: Turn) -> Held {
        let said = player.make(self.alloc, turn.1);
        self.notes(turn, said, player.order())
    }

    /// Notes the answer of a call, and the order after it.
    pub fn notes(&mut self, (place, step): Turn, said: Said, order: &[u64]) -> Held {
        let last = self.calls.last();
        let before = last.map_or(Point::default(), |note| note.between.1);
        let note = Note {
            place,
            step,
            said,
            between: (before, self.record.point()),
            keeps_order: self.order.as_slice() == order,
        };
        self.calls.push(note)?;
        self.order.clear();
        Ok(self.order.extend_from_slice(order)?)
    }

    /// What a call wrote.
    fn bytes_of(&self, note: &Note) -> Result<Vec<u8>, Refusal> {
        self.record.between(self.alloc, note.between)
    }

    /// All that was written.
    pub fn bytes(&self) -> Result<Vec<u8>, Refusal> {
        let all = (Point::default(), self.record.point());
        self.record.between(self.alloc, all)
    }

    /// Looks at each call: where memory was refused, if all is as defined.
    ///
    /// Each call answers as if nothing had failed, unless the terminal fails, or memory is refused, to one call at most: then it answers
    /// `Terminal` with the kind of that failure, or `Memory`, and leaves the order unchanged. A call with `Memory` writes nothing. What the
    /// calls after that one answer is compared elsewhere.
    pub fn looked_at(&self, look: Look) -> Result<Where, Fault> {
        let mut judge = Judge::new(self.alloc, self.size, look)?;
        let mut found = Where::Nowhere;
        for (at, note) in self.calls.iter().enumerate() {
            self.looks(&mut judge, (at, note), &mut found)?;
        }
        Ok(found)
    }

    /// Looks at a call.
    fn looks(&self, judge: &mut Judge, (at, note): (usize, &Note), found: &mut Where) -> Held {
        let bytes = self.bytes_of(note)?;
        let failure = note.between.1.failure_since(note.between.0);
        judge.reads(&bytes, failure.is_some())?;
        let step = note.step;
        match (note.said, failure) {
            (said, None) if said == step.wanted() => return follows(judge, (step, said), &bytes),
            (Err(Refusal::Terminal(said)), Some(kind)) if said == kind => {
                if kind == ErrorKind::OutOfMemory {
                    Fault::Answer.unless(matches!(*found, Where::Nowhere))?;
                    *found = Where::Terminal(at);
                }
            }
            (Err(Refusal::Memory), None) if matches!(*found, Where::Nowhere) => {
                Fault::Written.unless(bytes.is_empty() || matches!(step, Step::Suspend))?;
                *found = Where::Call(at);
            }
            (Err(Refusal::Memory), _) => return Err(Fault::Answer),
            (_, None) if matches!(*found, Where::Call(_)) => return Ok(()),
            _ => return Err(Fault::Answer),
        }
        Fault::Order.unless(note.keeps_order)
    }

    /// The answers of the calls that are compared from this one on, the rows after each of these that drew, and those after the last call.
    /// The draw of a bar's drop may be lost: the next draw shows it.
    pub fn seen(&self, from: usize) -> Result<Vec<(Said, Vec<String>)>, Fault> {
        let mut judge = Judge::new(self.alloc, self.size, Look::EachCall)?;
        let mut seen = Vec::new(self.alloc);
        for note in &self.calls {
            judge.takes(&self.bytes_of(note)?)?;
            resized(&mut judge, (note.step, note.said), &[])?;
            let has_drawn = note.said == Ok(Drawn::Yes) && !matches!(note.step, Step::Drop(_));
            let rows = match has_drawn {
                true => judge.rows()?,
                false => Vec::new(self.alloc),
            };
            if note.is_compared(from) {
                seen.push((note.said, rows))?;
            }
        }
        seen.push((Ok(Drawn::Limited), judge.rows()?))?;
        Ok(seen)
    }
}

/// What is so after a call with the wanted answer: a logged text stands above the bars, and the terminal has the size that it was given.
fn follows(judge: &mut Judge, (step, said): (Step, Said), bytes: &[u8]) -> Held {
    resized(judge, (step, said), bytes)?;
    match step.logged() {
        Some(text) => judge.logged(text),
        None => Ok(()),
    }
}

/// A size writes nothing, and the terminal has it from then on, unless it is refused.
fn resized(judge: &mut Judge, (step, said): (Step, Said), bytes: &[u8]) -> Held {
    match (step, said) {
        (Step::Size(..), _) if !bytes.is_empty() => Err(Fault::Written),
        (Step::Size(rows, cols), Ok(_)) => judge.resizes(Size { rows, cols }),
        _ => Ok(()),
    }
}
