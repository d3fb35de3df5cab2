//! A board and a lone bar that make the calls of a script, all at the moment 0.
use crate::faults::settled;
use crate::sweeps::record::Behind;
use crate::sweeps::script::{Said, Step};
use indicatif::{ProgressDrawTarget, Setup, StepClock};
use indicatif_bar::lone::LoneBar;
use indicatif_bar::state::{BarCommand, BarState, ProgressFinish};
use indicatif_bar::style::{NoTracker, ProgressStyle};
use indicatif_board::multi::{BarId, Board, Candidate, Turned};
use indicatif_term::target::MultiProgressAlignment;
use indicatif_text::columns::{Drawn, Refusal};
use std::alloc::Global;

pub type OnBoard = Board<NoTracker, Behind>;

pub type OnBar = LoneBar<NoTracker, Behind>;

/// The board's mark.
pub const MARK: u64 = 1;

fn id(number: u64) -> BarId {
    BarId { mark: MARK, number }
}

/// A bar with this message.
pub fn saying(alloc: Global, text: &str) -> Result<BarState<NoTracker>, Refusal> {
    let style = ProgressStyle::with_template(alloc, "{msg}")?;
    let mut bar = BarState::styled(alloc, style, None, 0)?;
    bar.with_message(text, 0)?;
    Ok(bar)
}

/// A target with a clock that stands still.
pub fn still(target: ProgressDrawTarget<Behind>) -> Setup<Behind, StepClock> {
    let clock = StepClock { next: 0, step: 0 };
    Setup { target, clock }
}

/// The answer of a call that draws nothing.
pub fn done(answer: Result<(), Refusal>) -> Said {
    answer?;
    Ok(Drawn::Limited)
}

/// Makes a call of a lone bar.
pub fn of_bar(bar: &mut OnBar, step: Step) -> Said {
    match step {
        Step::Tick(_) => bar.tick(0),
        Step::Message(_, text) => bar.set_message(text, 0),
        Step::Told(_, text) => bar.with_message(text, 0),
        Step::Finish(_) => bar.finish(0),
        Step::Log(text) | Step::BarLog(_, text) => bar.println(text, 0),
        Step::Clear => bar.clear(0),
        Step::Suspend => bar.suspend(0, || ()).1,
        Step::Size(rows, cols) => done(bar.resize(rows, cols)),
        _ => Err(Refusal::NotMember),
    }
}

/// Makes a call of a board.
pub fn of_board(board: &mut OnBoard, alloc: Global, step: Step) -> Said {
    match step {
        Step::Drop(bar) => board.drop_bar(id(bar), 0),
        Step::BarLog(bar, text) => board.bar_println(id(bar), text, 0),
        Step::Log(text) => board.println(text, 0),
        Step::Clear => board.clear(0),
        Step::Redraw => board.redraw(0),
        Step::Suspend => board.suspend(0, || ()).1,
        Step::Tick(bar)
        | Step::Message(bar, _)
        | Step::Told(bar, _)
        | Step::Keep(bar)
        | Step::Finish(bar) => board.command(id(bar), command(alloc, step)?, 0),
        _ => done(settle(board, alloc, step)),
    }
}

/// The command of a bar that a call is.
fn command(alloc: Global, step: Step) -> Result<BarCommand<NoTracker>, Refusal> {
    Ok(match step {
        Step::Message(_, text) => BarCommand::SetMessage(String::from_str(alloc, text)?),
        Step::Told(_, text) => BarCommand::WithMessage(String::from_str(alloc, text)?),
        Step::Keep(_) => BarCommand::WithFinish(ProgressFinish::AndLeave),
        Step::Finish(_) => BarCommand::Finish(ProgressFinish::AndLeave),
        _ => BarCommand::Tick,
    })
}

/// Makes a call of a board that draws nothing.
fn settle(board: &mut OnBoard, alloc: Global, step: Step) -> Result<(), Refusal> {
    match step {
        Step::Add(text) => added(board.add(Candidate::New(saying(alloc, text)?))),
        Step::Before(anchor, text) => {
            added(board.insert_before(id(anchor), Candidate::New(saying(alloc, text)?)))
        }
        Step::Remove(bar) => settled(board.remove(id(bar))),
        Step::Bottom => Ok(board.set_alignment(MultiProgressAlignment::Bottom)),
        Step::Top => Ok(board.set_alignment(MultiProgressAlignment::Top)),
        Step::Size(rows, cols) => board.resize(rows, cols),
        _ => Err(Refusal::NotMember),
    }
}

/// Whether a bar was added.
fn added(taken: Result<BarId, Turned<NoTracker>>) -> Result<(), Refusal> {
    settled(taken.map_err(|turned| turned.refusal))
}
