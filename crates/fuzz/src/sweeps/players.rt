//! What plays a script.
use crate::sweeps::local::{self, MARK, OnBar, OnBoard, saying, still};
use crate::sweeps::on_shared::OnShared;
use crate::sweeps::play::Play;
use crate::sweeps::record::{Behind, Size, Wire};
use crate::sweeps::script::{BOARD, LONE, SIZED_BOARD, SIZED_LONE, Said, Step};
use crate::sweeps::sweep::Runs;
use indicatif::{
    Drawn, NoTracker, OwnedBar, ProgressBarIter, ProgressDrawTarget, Refusal, Setup, StepClock,
};
use indicatif_term::target::Term;
use std::alloc::Global;
use std::ops::Range;

/// What plays a script.
#[derive(Clone, Copy, Drop)]
pub enum Kind {
    Board,
    /// A board whose cursor only moves.
    Moving,
    /// A board whose terminal is resized.
    Sized,
    Lone,
    /// A lone bar whose terminal is resized.
    SizedLone,
    Shared,
    Loop,
}

/// All parts.
pub const KINDS: &[Kind] = &[
    Kind::Board,
    Kind::Moving,
    Kind::Sized,
    Kind::Lone,
    Kind::SizedLone,
    Kind::Shared,
    Kind::Loop,
];

/// The calls of a loop over five items, the last of which is its end.
const LOOP: &[Step] = &[Step::Tick(0); 6];

impl Kind {
    /// Its name, its script, and the draw after that.
    pub fn parts(self) -> (&'static str, &'static [Step], &'static [Step]) {
        match self {
            Kind::Board => ("board", BOARD, &[Step::Tick(2)]),
            Kind::Moving => ("board whose cursor moves", BOARD, &[Step::Tick(2)]),
            Kind::Sized => ("board that is resized", SIZED_BOARD, &[Step::Tick(3)]),
            Kind::Lone => ("lone bar", LONE, &[Step::Tick(0)]),
            Kind::SizedLone => ("lone bar that is resized", SIZED_LONE, &[Step::Tick(0)]),
            Kind::Shared => ("shared board", BOARD, &[Step::Tick(2)]),
            Kind::Loop => ("loop", LOOP, &[]),
        }
    }
}

/// A loop over five items with a bar.
type Items = ProgressBarIter<Range<u64>, OwnedBar<NoTracker, Behind, StepClock>>;

/// Makes the calls of a script.
#[derive(Drop)]
pub enum Player<R: Runs> {
    Board(Box<OnBoard>),
    Bar(Box<OnBar>),
    Shared(OnShared<R>),
    Loop(Box<Items>),
}

impl<R: Runs> Player<R> {
    /// A new one on the terminal of a play.
    pub fn new(rt: R, play: &Play) -> Result<Player<R>, Refusal> {
        let alloc = rt.alloc();
        let Size { rows, cols } = play.size;
        let term = Term::new(Wire(play.record.clone()?), rows, cols);
        if let Kind::Shared = play.kind {
            return Ok(Player::Shared(OnShared::new(rt, term, &play.record)?));
        }
        let target = ProgressDrawTarget::term_like(term);
        Ok(match play.kind {
            Kind::Loop => {
                let bar = OwnedBar::plain(alloc, Some(5), still(target))?;
                Player::Loop(Box::new(alloc, ProgressBarIter::new(0..5, bar))?)
            }
            Kind::Lone | Kind::SizedLone => {
                let bar = OnBar::new(saying(alloc, "a")?, target);
                Player::Bar(Box::new(alloc, bar)?)
            }
            _ => {
                let mut board = Box::new(alloc, OnBoard::new(alloc, target, MARK))?;
                board.set_move_cursor(matches!(play.kind, Kind::Moving));
                Player::Board(board)
            }
        })
    }

    /// Makes a call.
    pub fn make(&mut self, alloc: Global, step: Step) -> Said {
        match self {
            Player::Board(board) => local::of_board(board, alloc, step),
            Player::Bar(bar) => local::of_bar(bar, step),
            Player::Shared(board) => board.make(step),
            Player::Loop(items) => {
                let _ = items.next();
                items.last_draw().unwrap_or(Ok(Drawn::Limited))
            }
        }
    }

    /// The call that it makes in place of this one: a shared board pauses instead of a redraw, which it doesn't have.
    pub fn own(&self, step: Step) -> Step {
        match (self, step) {
            (Player::Shared(_), Step::Redraw) => Step::Suspend,
            _ => step,
        }
    }

    /// The numbers of its bars in order; none if it can't tell them.
    pub fn order(&self) -> &[u64] {
        match self {
            Player::Board(board) => board.order(),
            Player::Bar(_) | Player::Shared(_) | Player::Loop(_) => &[],
        }
    }
}
