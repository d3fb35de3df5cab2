//! The history of a board: its order, its calls, and whether a new board that makes them gives the same answers and the same picture.
use crate::front::bars::{Room, Shared, Told};
use indicatif::{Answer, Drawn, Entry, InMemoryTerm, NoTracker, RecordReader, Recorded};
use scripts::boards::push_call;
use scripts::got::Got;
use scripts::replay::is_one_run;
use std::alloc::Global;
use std::sync::Wait;

/// A question to a board with its history.
#[derive(Drop)]
pub enum Question {
    /// Its bars, in order.
    Order,
    /// The moments of its calls.
    Moments,
    /// The calls from this one on, of which the last had this answer, if that is known.
    Added { from: usize, answer: Option<Told> },
}

/// A question, and the setup of a new board.
#[derive(Drop)]
pub struct Look {
    pub alloc: Global,
    pub room: Room,
    pub question: Question,
}

impl<R: Wait + Copy + Clone + Drop> Shared<R> {
    /// Appends the answer to a question; how many calls the board has kept.
    pub fn answer_question(&self, look: Look, got: &mut Got) -> usize {
        let (said, kept) = self.0.with_record(look);
        got.text(said.as_str());
        kept
    }
}

/// A board with its history.
type History = Recorded<NoTracker, InMemoryTerm>;

impl RecordReader<InMemoryTerm, NoTracker> for Look {
    type Found = (Got, usize);

    /// The answer, and how many calls were kept.
    fn read(self, record: Option<&History>) -> (Got, usize) {
        let mut said = Got::new(self.alloc);
        let kept = match record {
            Some(record) => answer(&self, record, &mut said),
            None => {
                said.text("no history");
                0
            }
        };
        (said, kept)
    }
}

fn answer(look: &Look, record: &History, said: &mut Got) -> usize {
    match look.question {
        Question::Order => said.numbers(record.board().order()),
        Question::Moments => push_moments(record.entries(), said),
        Question::Added { from, answer } => {
            let added = record.entries().get(from..).unwrap_or(&[]);
            push_calls(added, said);
            if !is_answered(added.last(), answer) {
                said.text(" !answer");
            }
            if !is_replayed(look, record) {
                said.text(" !run");
            }
        }
    }
    record.entries().len()
}

fn push_moments(entries: &[Entry<NoTracker>], said: &mut Got) {
    for entry in entries {
        said.between(" ");
        said.number(entry.now);
    }
}

fn push_calls(entries: &[Entry<NoTracker>], said: &mut Got) {
    for entry in entries {
        said.between(", ");
        push_call(&entry.call, said);
    }
}

/// Whether a call had this answer; one that neither draws nor is refused counts as `Limited`.
fn is_answered(entry: Option<&Entry<NoTracker>>, wanted: Option<Told>) -> bool {
    let (Some(entry), Some(wanted)) = (entry, wanted) else {
        return true;
    };
    match &entry.answer {
        Answer::Id(_) | Answer::Accepted => wanted == Ok(Drawn::Limited),
        Answer::Drawn(drawn) => wanted == Ok(*drawn),
        Answer::Refused(refusal) => wanted == Err(*refusal),
    }
}

/// Whether a new board makes the kept calls with the same answers, and then shows the same rows.
fn is_replayed(look: &Look, record: &History) -> bool {
    match look.room.target(look.alloc) {
        Ok(target) => is_one_run(look.alloc, record, target) == Ok(true),
        Err(_) => false,
    }
}
