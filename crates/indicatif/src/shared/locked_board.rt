//! What the lock of a shared board protects.
ghost use Rattle.std.specs.Prelude.{◌≡◌, IfOk, IfErr, Err};
ghost use Rattle.indicatif_board.specs.Boards.{Clear, Redraw};
ghost use Rattle.indicatif.specs.Fronts.{CanDraw};
ghost use Rattle.indicatif.specs.Inside.AnyBoard.{BoardDraws};

use crate::shared::any_board::AnyBoard;
use crate::shared::pause::Pause;
use indicatif_bar::style::Tracks;
use indicatif_board::multi::Call;
use indicatif_term::target::TermLike;
use indicatif_text::columns::{Clock, Drawn, Moment, Refusal};

/// A board, its clock, and whether it is in a pause.
#[derive(Drop)]
pub struct LockedBoard<K: Tracks, T: Drop, C> {
    pub board: AnyBoard<K, T>,
    clock: C,
    paused: bool,
}

impl<K: Tracks, T: Drop, C> LockedBoard<K, T, C> {
    /// A board with its clock.
    pub fn new(board: AnyBoard<K, T>, clock: C) -> LockedBoard<K, T, C> {
        LockedBoard {
            board,
            clock,
            paused: false,
        }
    }

    /// Whether the board is in a pause: then calls that draw wait.
    pub fn is_paused(&self) -> bool {
        self.paused
    }
}

impl<K: Tracks, T: Drop, C: Drop> LockedBoard<K, T, C> {
    /// Takes the board out of what its lock protects; its clock is dropped.
    pub fn into_board(self) -> AnyBoard<K, T>
        ensures { result ≡ self.board }
    {
        let LockedBoard {
            board,
            clock: _,
            paused: _,
        } = self;
        board
    }
}

impl<K: Tracks, T: Drop, C: Clone> LockedBoard<K, T, C> {
    /// A copy of the board's clock.
    ///
    /// Refused: `Memory`.
    pub fn clock(&self) -> Result<C, Refusal>
        ensures { IfErr result (λ e. e ≡ Refusal.Memory) }
    {
        Ok(self.clock.clone()?)
    }
}

impl<K: Tracks, T: TermLike + Drop, C: Clock + Drop> LockedBoard<K, T, C> {
    /// The moment of the board's clock.
    pub fn now(&mut self) -> Moment
        ensures { self.new.board ≡ self.old.board }
    {
        self.clock.now()
    }

    /// Begins a pause of the board: the bars' rows are cleared.
    pub fn pause(&mut self) -> Pause
        ensures { BoardDraws K.means T.view self.old.board Clear result.now result.cleared self.new.board }
    {
        let now = self.clock.now();
        self.pause_at(now)
    }

    /// Begins a pause of the board at this moment, as `pause`.
    #[tactic(auto, unfolding(crate::specs::Inside::SharedBoards::SharedDraws))]
    pub fn pause_at(&mut self, now: Moment) -> Pause
        ensures made { BoardDraws K.means T.view self.old.board Clear now result.cleared self.new.board }
        ensures now { result.now ≡ now }
    {
        let cleared = self.board.draw(Call::Clear, now);
        self.paused = true;
        Pause { now, cleared }
    }

    /// Ends a pause of the board by a forced draw, at the moment at which the pause began. If the clear was refused, nothing is drawn, and
    /// the answer is that refusal.
    #[tactic(auto, using(crate::proofs::AnswerLemmas::clear_is_draw), unfolding(crate::specs::Inside::SharedBoards::SharedDraws))]
    pub fn resume(&mut self, pause: Pause) -> Result<Drawn, Refusal>
        ensures drawn { IfOk pause.cleared (λ _. BoardDraws K.means T.view self.old.board Redraw pause.now result self.new.board) }
        ensures refused { IfErr pause.cleared (λ e. (result ≡ Err e) × (self.new.board ≡ self.old.board)) }
        ensures can { CanDraw result }
    {
        let Pause { now, cleared } = pause;
        self.paused = false;
        match cleared {
            Ok(_) => self.board.draw(Call::Redraw, now),
            Err(refusal) => Err(refusal),
        }
    }
}
