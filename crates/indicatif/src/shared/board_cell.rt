//! A board's lock, and its pauses.
ghost use Rattle.indicatif.specs.Fronts.{CanDraw};

use crate::shared::locked_board::LockedBoard;
use crate::shared::pause::Pause;
use indicatif_bar::style::Tracks;
use indicatif_term::target::TermLike;
use indicatif_text::columns::{Clock, Drawn, Moment, Refusal};
use std::alloc::Global;
use std::sync::{Arc, Condvar, Mutex, MutexGuard, Wait};

/// A board's lock, and what waits for the end of a pause. The lock is free while the closure of a pause runs, and while a call waits for
/// the end of a pause: so readings answer meanwhile.
#[derive(Drop)]
pub struct BoardCell<K: Tracks, T: Drop, C> {
    lock: Mutex<LockedBoard<K, T, C>>,
    resumed: Condvar,
}

/// A board that bars and others share.
pub type SharedBoard<K, T, C> = Arc<BoardCell<K, T, C>, Global>;

impl<K: Tracks, T: Drop, C> BoardCell<K, T, C> {
    /// Puts a board into its lock, with what waits for a pause.
    pub fn new(board: LockedBoard<K, T, C>) -> BoardCell<K, T, C> {
        BoardCell {
            lock: Mutex::new(board),
            resumed: Condvar::new(),
        }
    }

    /// Takes the board out of its `BoardCell`.
    pub fn into_inner(self) -> LockedBoard<K, T, C> {
        let BoardCell { lock, resumed: _ } = self;
        lock.into_inner()
    }

    /// Locks the board, also in a pause: for calls that draw nothing.
    pub fn lock<R: Wait>(&self, rt: &R) -> MutexGuard<'_, LockedBoard<K, T, C>> {
        self.lock.lock(rt)
    }

    /// Waits until the board isn't in a pause, and locks it.
    pub fn turn<R: Wait>(&self, rt: &R) -> MutexGuard<'_, LockedBoard<K, T, C>> {
        let locked = self.lock.lock(rt);
        if !locked.is_paused() {
            return locked;
        }
        self.resumed
            .wait_while(rt, locked, |locked| locked.is_paused())
    }

    /// Locks the board, unless it is in a pause.
    pub fn try_turn<R: Wait>(&self, rt: &R) -> Option<MutexGuard<'_, LockedBoard<K, T, C>>> {
        let locked = self.lock.lock(rt);
        if locked.is_paused() {
            None
        } else {
            Some(locked)
        }
    }
}

impl<K: Tracks, T: TermLike + Drop, C: Clock + Drop> BoardCell<K, T, C> {
    /// Clears the board, calls `f`, and draws the board again.
    pub fn suspend<R: Wait, F: FnOnce() -> A, A>(&self, rt: &R, f: F) -> (A, Result<Drawn, Refusal>)
        requires { F.pre f }
        ensures value { F.post f result.0 }
        ensures drawn { CanDraw result.1 }
    {
        let pause = self.turn(rt).pause();
        self.run(rt, pause, f)
    }

    /// Clears the board, calls `f`, and draws the board again, at this moment.
    pub fn suspend_at<R: Wait, F: FnOnce() -> A, A>(
        &self,
        rt: &R,
        now: Moment,
        f: F,
    ) -> (A, Result<Drawn, Refusal>)
        requires { F.pre f }
        ensures value { F.post f result.0 }
        ensures drawn { CanDraw result.1 }
    {
        let pause = self.turn(rt).pause_at(now);
        self.run(rt, pause, f)
    }

    /// Calls `f` in a pause, and ends the pause.
    fn run<R: Wait, F: FnOnce() -> A, A>(
        &self,
        rt: &R,
        pause: Pause,
        f: F,
    ) -> (A, Result<Drawn, Refusal>)
        requires { F.pre f }
        ensures value { F.post f result.0 }
        ensures drawn { CanDraw result.1 }
    {
        let value = f();
        let drawn = self.lock.lock(rt).resume(pause);
        self.resumed.notify_all();
        (value, drawn)
    }
}
