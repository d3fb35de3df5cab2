//! A shared bar on a board.
ghost use Rattle.std.specs.Prelude.{◌≡◌, ℕ, Err, MatchResult};
ghost use Rattle.std.specs.Fn.{FnOnceReturnsAt};
ghost use Rattle.indicatif_bar.specs.Commands.{Update, SetPosition, SetTicker};
ghost use Rattle.indicatif_bar.specs.Progress.{Progress};
ghost use Rattle.indicatif_board.specs.Boards.{Tell, Drop as Dropped};
ghost use Rattle.indicatif_board.specs.BarIds.{id_of};
ghost use Rattle.indicatif.specs.Fronts.{CanDraw, CanUpdate};
ghost use Rattle.indicatif.specs.Inside.PositionChange.{position_command};
ghost use Rattle.indicatif.specs.Inside.Requests.{IfMade, LeavesSo, MatchTried};
ghost use Rattle.indicatif.specs.Inside.SharedBoards.{SharedDraws};
ghost use Rattle.indicatif.specs.Seek.{after_move};

use crate::shared::any_board::AnyBoard;
use crate::shared::board_cell::SharedBoard;
use crate::shared::position_change::PositionChange;
use crate::shared::request::Tried;
use crate::wrappers::seek::SeekMax;
use indicatif_bar::lone::LoneCall;
use indicatif_bar::state::{BarCommand, BarState, Change, ProgressState};
use indicatif_bar::style::Tracks;
use indicatif_board::multi::{BarId, Call};
use indicatif_term::target::TermLike;
use indicatif_text::columns::{Clock, Drawn, Moment, Refusal};
use std::alloc::Global;
use std::sync::Wait;

/// A bar on a board: the board, the bar's number there, and the allocator for copies of its texts in a history.
pub struct MemberBar<K: Tracks, T: Drop, C> {
    pub board: SharedBoard<K, T, C>,
    pub id: BarId,
    pub alloc: Global,
}

impl<K: Tracks, T: Drop, C: Drop> Drop for MemberBar<K, T, C> {
    fn drop(self) {
        let MemberBar {
            board: _,
            id: _,
            alloc: _,
        } = self;
    }
}

/// The changes that a closure returns for the state of a board's bar, or why the board hasn't it.
fn change_by<K: Tracks, F: FnOnce(&ProgressState) -> Change>(
    bar: Result<&BarState<K>, Refusal>,
    f: F,
) -> Result<Change, Refusal>
    requires { F.IsAlwaysCallable f }
    ensures { MatchResult result (λ change. (shown : Progress) × FnOnceReturnsAt F.FnOnce f shown change) (λ e. bar.entry ≡ Err e) }
{
    match bar {
        Ok(bar) => Ok(told_of(bar.state(), f)),
        Err(refusal) => Err(refusal),
    }
}

/// Tells a bar of a board a change, if there is one.
fn tell_change<K: Tracks, T: TermLike + Drop>(
    board: &mut AnyBoard<K, T>,
    id: BarId,
    change: Result<Change, Refusal>,
    alloc: Global,
    now: Moment,
) -> Result<Drawn, Refusal>
    ensures { MatchResult change (λ asked. SharedDraws K (Tell (id_of id) (Update asked.pos asked.len)) result) (λ e. result ≡ Err e) }
{
    match change {
        Ok(change) => {
            let call: LoneCall<K> = LoneCall::Bar(BarCommand::Update(change));
            board.tell(id, call, alloc, now)
        }
        Err(refusal) => Err(refusal),
    }
}

/// Tells a bar of a board the changes that a closure returns for its state.
fn updated<K: Tracks, T: TermLike + Drop, F: FnOnce(&ProgressState) -> Change>(
    board: &mut AnyBoard<K, T>,
    id: BarId,
    f: F,
    alloc: Global,
    now: Moment,
) -> Result<Drawn, Refusal>
    requires { F.IsAlwaysCallable f }
    ensures { CanUpdate K (FnOnceReturnsAt F.FnOnce f) result }
{
    let change = change_by(board.as_board().bar(id), f);
    tell_change(board, id, change, alloc, now)
}

/// The position of a board's bar, or 0 if there is no bar.
fn position_of<K: Tracks>(bar: Result<&BarState<K>, Refusal>) -> u64 {
    match bar {
        Ok(bar) => bar.state().pos(),
        Err(_) => 0,
    }
}

/// What a closure returns for the state of a board's bar.
pub fn told_of<F: FnOnce(&ProgressState) -> A, A>(shown: &ProgressState, f: F) -> A
    requires { F.IsAlwaysCallable f }
    ensures { FnOnceReturnsAt F.FnOnce f shown.now result }
{
    f(shown)
}

/// The result for a bar that is to leave its board.
pub enum Leaving<K: Tracks> {
    /// It has left; the answer of the draw of the others.
    Left(BarState<K>, Result<Drawn, Refusal>),
    /// It can't leave.
    Stays(Refusal),
    /// The board is in a pause. Nothing has changed.
    Later,
}

/// Each call is handed back if the board is in a pause.
impl<K: Tracks, T: TermLike + Drop, C: Clock + Drop> MemberBar<K, T, C> {
    /// Tells the board whether a ticker of the bar is installed, also in a pause, since it asks for no draw.
    pub fn set_ticker<R: Wait>(
        &self,
        rt: &R,
        installed: bool,
        now: Moment,
    ) -> Result<Drawn, Refusal>
        ensures { SharedDraws K (Tell (id_of self.now.id) (SetTicker installed)) result }
    {
        let call: LoneCall<K> = LoneCall::Bar(BarCommand::SetTicker(installed));
        self.board
            .lock(rt)
            .board
            .tell(self.id, call, self.alloc, now)
    }

    /// Forces a draw of the board's bars, also in a pause.
    #[tactic(auto, unfolding(crate::specs::Inside::SharedBoards::SharedDraws))]
    pub fn redraw<R: Wait>(&self, rt: &R, now: Moment) -> Result<Drawn, Refusal>
        ensures { CanDraw result }
    {
        self.board.lock(rt).board.draw(Call::Redraw, now)
    }

    /// Makes the changes that the closure returns for the state of a board's bar. If the board hasn't the bar, the closure isn't called.
    pub fn update<R: Wait, F: FnOnce(&ProgressState) -> Change>(
        &self,
        rt: &R,
        f: F,
        now: Moment,
    ) -> Tried<Result<Drawn, Refusal>, F>
        requires { F.IsAlwaysCallable f }
        ensures { MatchTried result (CanUpdate K (FnOnceReturnsAt F.FnOnce f)) (λ again. again ≡ f) }
    {
        match self.board.try_turn(rt) {
            Some(mut locked) => {
                Tried::Made(updated(&mut locked.board, self.id, f, self.alloc, now))
            }
            None => Tried::ComeAgain(f),
        }
    }

    /// Changes the position of a board's bar. It isn't inlined, so that a step of a bar that stands alone clears no room for a command.
    #[inline(never)]
    pub fn move_by<R: Wait>(
        &self,
        rt: &R,
        change: PositionChange,
        now: Moment,
    ) -> Tried<Result<Drawn, Refusal>, ()>
        ensures { IfMade result (λ answer. SharedDraws K (Tell (id_of self.now.id) (position_command change)) answer) }
    {
        match self.board.try_turn(rt) {
            Some(mut locked) => {
                let call: LoneCall<K> = LoneCall::Bar(change.command());
                Tried::Made(locked.board.tell(self.id, call, self.alloc, now))
            }
            None => Tried::ComeAgain(()),
        }
    }

    /// Moves the position of a board's bar `n` further, as `seeks` says; counts from 0 if the board hasn't the bar.
    pub fn place_after<R: Wait>(
        &self,
        rt: &R,
        seeks: &mut SeekMax<5, 10>,
        n: u64,
        now: Moment,
    ) -> Tried<Result<Drawn, Refusal>, ()>
        ensures { MatchTried result (λ answer. (position : ℕ) × (place : ℕ) × ((place, seeks.new) ≡ after_move 5 10 seeks.old position n)
            × SharedDraws K (Tell (id_of self.now.id) (SetPosition place)) answer) (λ _. seeks.new ≡ seeks.old) }
    {
        match self.board.try_turn(rt) {
            Some(mut locked) => {
                let position = position_of(locked.board.as_board().bar(self.id));
                let place = seeks.update_seq(position, n);
                let call: LoneCall<K> = LoneCall::Bar(BarCommand::SetPosition(place));
                Tried::Made(locked.board.tell(self.id, call, self.alloc, now))
            }
            None => Tried::ComeAgain(()),
        }
    }

    /// Tells the board that the bar has no owner left.
    pub fn lose_owner<R: Wait>(&self, rt: &R, now: Moment) -> Tried<Result<Drawn, Refusal>, ()>
        ensures { IfMade result (λ answer. SharedDraws K (Dropped (id_of self.now.id)) answer) }
    {
        match self.board.try_turn(rt) {
            Some(mut locked) => Tried::Made(locked.board.draw(Call::Drop(self.id), now)),
            None => Tried::ComeAgain(()),
        }
    }

    /// Removes the bar from its board's order and forces a draw of the others.
    pub fn leave<R: Wait>(&self, rt: &R, now: Moment) -> Leaving<K>
        ensures { LeavesSo result }
    {
        match self.board.try_turn(rt) {
            Some(mut locked) => left(&mut locked.board, self.id, now),
            None => Leaving::Later,
        }
    }
}

/// Removes a bar from a board's order and forces a draw of the others.
#[tactic(auto, using(crate::proofs::AnswerLemmas::stays_so), unfolding(crate::specs::Inside::SharedBoards::SharedDraws))]
fn left<K: Tracks, T: TermLike + Drop>(
    board: &mut AnyBoard<K, T>,
    id: BarId,
    now: Moment,
) -> Leaving<K>
    ensures { LeavesSo result }
{
    match board.remove(id, now) {
        Ok(Some(bar)) => {
            let drawn = board.draw(Call::Redraw, now);
            Leaving::Left(bar, drawn)
        }
        Ok(None) => Leaving::Stays(Refusal::NotMember),
        Err(refusal) => Leaving::Stays(refusal),
    }
}
