//! A bar's lock, its pauses, and what waits for them.
ghost use Rattle.std.specs.Prelude.{◌≡◌, ℕ};
ghost use Rattle.std.specs.Fn.{FnOnceReturnsAt};
ghost use Rattle.indicatif.specs.Fronts.{CanDraw, CanMove, CanTurn, CanUpdate};
ghost use Rattle.indicatif.specs.Seek.{after_move};

use crate::shared::locked_bar::{Halt, LockedBar};
use crate::shared::request::Tried;
use crate::wrappers::seek::SeekMax;
use indicatif_bar::state::{Change, ProgressState};
use indicatif_bar::style::Tracks;
use indicatif_term::target::{ProgressDrawTarget, TermLike};
use indicatif_text::columns::{Clock, Drawn, Refusal};
use std::sync::{Condvar, Mutex, MutexGuard, Wait};
use std::thread;

/// The lock of a bar, and what waits for the bar to change or for the end of its pause. The lock is free while the closure of a pause runs,
/// and while a call waits for the end of a pause, of the bar or of its board: so readings answer meanwhile.
#[derive(Drop)]
pub struct SharedBar<K: Tracks, T: Drop, C> {
    pub lock: Mutex<LockedBar<K, T, C>>,
    pub changed: Condvar,
}

impl<K: Tracks, T: TermLike + Drop, C: Clock + Drop> SharedBar<K, T, C> {
    /// Waits for the bar's turn, until it isn't in a pause of its own, and locks it: for calls that draw or change it.
    pub fn turn<R: Wait>(&self, rt: &R) -> MutexGuard<'_, LockedBar<K, T, C>> {
        let locked = self.lock.lock(rt);
        if !locked.is_paused() {
            return locked;
        }
        self.changed
            .wait_while(rt, locked, |locked| locked.is_paused())
    }

    /// Waits for the bar's turn, and makes the changes that the closure returns for the bar's state; then as a tick.
    pub fn update<R: Wait, F: FnOnce(&ProgressState) -> Change>(
        &self,
        rt: &R,
        f: F,
    ) -> Result<Drawn, Refusal>
        requires { F.IsAlwaysCallable f }
        ensures { CanUpdate K (FnOnceReturnsAt F.FnOnce f) result }
    {
        let mut left = f;
        for _ in rt.forever() {
            let mut locked = self.turn(rt);
            match locked.update(rt, left) {
                Tried::Made(answer) => return answer,
                Tried::ComeAgain(again) => left = again,
            }
            wait_for_board(rt, locked);
        }
        unreachable!()
    }

    /// Waits for the bar's turn, and moves the position `n` further, as `seeks` says.
    pub fn place_after<R: Wait>(
        &self,
        rt: &R,
        seeks: &mut SeekMax<5, 10>,
        n: u64,
    ) -> Result<Drawn, Refusal>
        ensures { (position : ℕ) × (place : ℕ) × ((place, seeks.new) ≡ after_move 5 10 seeks.old position n) }
    {
        for _ in rt.forever() {
            let mut locked = self.turn(rt);
            match locked.place_after(rt, seeks, n) {
                Tried::Made(answer) => return answer,
                Tried::ComeAgain(()) => wait_for_board(rt, locked),
            }
        }
        unreachable!()
    }

    /// Waits for the bar's turn, and sets the target; the rows on the old one stay.
    #[tactic(auto, using(crate::proofs::FrontLemmas::place_turns))]
    pub fn set_draw_target<R: Wait>(
        &self,
        rt: &R,
        target: ProgressDrawTarget<T>,
    ) -> Result<Drawn, Refusal>
        ensures { CanTurn result }
    {
        let mut left = target;
        for _ in rt.forever() {
            let mut locked = self.turn(rt);
            match locked.set_draw_target(rt, left) {
                Tried::Made(answer) => return answer,
                Tried::ComeAgain(again) => left = again,
            }
            wait_for_board(rt, locked);
        }
        unreachable!()
    }

    /// Waits for the bar's turn, and sets the target; the rows on the old one are cleared.
    #[tactic(auto, using(crate::proofs::FrontLemmas::place_moves))]
    pub fn move_to<R: Wait>(&self, rt: &R, target: ProgressDrawTarget<T>) -> Result<Drawn, Refusal>
        ensures { CanMove result }
    {
        let mut left = target;
        for _ in rt.forever() {
            let mut locked = self.turn(rt);
            match locked.move_to(rt, left) {
                Tried::Made(answer) => return answer,
                Tried::ComeAgain(again) => left = again,
            }
            wait_for_board(rt, locked);
        }
        unreachable!()
    }

    /// Removes an owner, and returns whether it was the last; then the bar ends as soon as its board isn't in a pause.
    pub fn release<R: Wait>(&self, rt: &R) -> bool {
        for _ in rt.forever() {
            let mut locked = self.lock.lock(rt);
            match locked.release(rt) {
                Tried::Made(last) => return last,
                Tried::ComeAgain(()) => wait_for_board(rt, locked),
            }
        }
        unreachable!()
    }

    /// Clears the rows of the bar, or of all bars of its board, calls `f`, and draws them again.
    pub fn suspend<R: Wait, F: FnOnce() -> A, A>(&self, rt: &R, f: F) -> (A, Result<Drawn, Refusal>)
        requires { F.pre f }
        ensures value { F.post f result.0 }
        ensures drawn { CanDraw result.1 }
    {
        let halt = self.turn(rt).halt();
        match halt {
            Halt::Alone(pause) => {
                let value = f();
                let drawn = self.lock.lock(rt).resume(rt, pause);
                self.changed.notify_all();
                (value, drawn)
            }
            Halt::OnBoard(now, board) => board.suspend_at(rt, now, f),
            Halt::NoMemory => (f(), Err(Refusal::Memory)),
        }
    }
}

/// Unlocks a bar and waits until its board isn't in a pause.
pub fn wait_for_board<K: Tracks, T: TermLike + Drop, C: Clock + Drop, R: Wait>(
    rt: &R,
    locked: MutexGuard<'_, LockedBar<K, T, C>>,
) {
    let board = locked.bar().board();
    drop(locked);
    match board {
        Some(board) => drop(board.turn(rt)),
        None => thread::yield_now(),
    }
}
