//! What the lock of a shared bar protects.
//!
//! - `told`: the bar's plain line, if its target is hidden and a line is due.
ghost use Rattle.std.specs.Prelude.{◌≡◌, ◌≢◌, ◌<◌, ◌-◌, ℕ, Some, None, Ok, Err, true, false, IsTrue, IsFalse, IfOk, IfErr, MatchResult};
ghost use Rattle.std.specs.Fn.{FnOnceReturnsAt};
ghost use Rattle.indicatif_term.specs.Target.{term_of};
ghost use Rattle.indicatif_bar.specs.Commands.{SetTicker, SetPosition, FinishUsingStyle};
ghost use Rattle.indicatif_bar.specs.Lone as Lone;
ghost use Rattle.indicatif_bar.specs.LoneBars.{lone_call_as, record_of};
ghost use Rattle.indicatif_bar.specs.Progress.{eta, per_sec, duration, elapsed, is_finished};
ghost use Rattle.indicatif.specs.Fronts.{IsMissing, MemoryOrForeign};
ghost use Rattle.indicatif.specs.Inside.Requests.{BarTries, BarHalts, BarRedraws, BarMovesTo, IfMade, LeavesSo, MatchTried};
ghost use Rattle.indicatif.specs.Inside.AnyBar.{MadeBy, BarMakes, BarEnds, BarLeaves, BarTurns, BarUpdates, IsUnfinished, Measures};
ghost use Rattle.indicatif.specs.Inside.LockedBar.{OwnerJoins, OwnerLeaves};
ghost use Rattle.indicatif.specs.Inside.PositionChange.{position_command};
ghost use Rattle.indicatif.specs.Seek.{after_move};

mod told;

use crate::shared::any_bar::AnyBar;
use crate::shared::board_cell::{BoardCell, SharedBoard};
use crate::shared::member_bar::{Leaving, MemberBar};
use crate::shared::pause::Pause;
use crate::shared::position_change::PositionChange;
use crate::shared::request::Tried;
use crate::shared::ticker::Ticker;
use crate::wrappers::seek::SeekMax;
use indicatif_bar::lone::{LoneBar, LoneCall};
use indicatif_bar::state::{BarCommand, Change, ProgressState, Rate, Text};
use indicatif_bar::style::Tracks;
use indicatif_board::multi::InsertLocation;
use indicatif_term::target::{ProgressDrawTarget, TermLike};
use indicatif_text::columns::{Clock, Drawn, Moment, Refusal};
use std::alloc::Global;
use std::sync::{Arc, Wait};

/// A bar, its clock and ticker, its number of owners, and whether it is in a pause of its own.
pub struct LockedBar<K: Tracks, T: Drop, C> {
    owners: u64,
    pub ticker: Ticker,
    clock: C,
    paused: bool,
    bar: AnyBar<K, T, C>,
}

impl<K: Tracks, T: Drop, C: Drop> Drop for LockedBar<K, T, C> {
    fn drop(self) {
        let LockedBar {
            owners: _,
            ticker: _,
            clock: _,
            paused: _,
            bar: _,
        } = self;
    }
}

impl<K: Tracks, T: Drop, C> LockedBar<K, T, C> {
    /// A bar with its first owner.
    pub fn owned(bar: LoneBar<K, T>, clock: C) -> LockedBar<K, T, C>
        ensures { (result.owners ≡ 1) × (result.bar ≡ AnyBar.Alone bar) × (result.clock ≡ clock) }
    {
        LockedBar {
            owners: 1,
            ticker: Ticker::new(),
            clock,
            paused: false,
            bar: AnyBar::Alone(bar),
        }
    }

    /// Whether the bar is in a pause of its own: then calls that draw wait.
    pub fn is_paused(&self) -> bool {
        self.paused
    }

    /// Adds an owner of the bar; refuses if there is none left, or the count is at its maximum.
    pub fn join(&mut self) -> bool
        ensures { OwnerJoins result self.old.owners self.new.owners }
    {
        if self.owners == 0 || self.owners == u64::MAX {
            return false;
        }
        self.owners += 1;
        true
    }

    /// Removes an owner of the bar.
    fn leave(&mut self)
        ensures owners { self.new.owners ≡ self.old.owners - 1 }
        ensures bar { self.new.bar ≡ self.old.bar }
    {
        self.owners = self.owners.saturating_sub(1);
    }
}

/// How a pause of a bar begins.
pub enum Halt<K: Tracks, T: Drop, C> {
    /// The bar stands alone, and its pause has begun.
    Alone(Pause),
    /// The bar stands on this board, whose pause has to begin at this moment.
    OnBoard(Moment, SharedBoard<K, T, C>),
    /// There is no memory for another owner of its board.
    NoMemory,
}

/// A call of a bar that stands alone follows one of `bar`, which tells that it is in some state: clauses speak of that.
impl<K: Tracks, T: TermLike + Drop, C: Clock + Drop> LockedBar<K, T, C> {
    /// Makes a call of the bar under the lock.
    pub fn tell<R: Wait, S: Text>(
        &mut self,
        rt: &R,
        call: LoneCall<K, S>,
    ) -> Tried<Result<Drawn, Refusal>, LoneCall<K, S>>
        ensures bar { BarTries K.means T.view self.old.bar (lone_call_as S.bytes call) result call self.new.bar }
        ensures ticker { self.new.ticker ≡ self.old.ticker }
    {
        let now = self.clock.now();
        match &mut self.bar {
            AnyBar::Alone(bar) => {
                bar.bar();
                Tried::Made(bar.tell(call, now))
            }
            AnyBar::Member(member) => match member.board.try_turn(rt) {
                Some(mut locked) => {
                    Tried::Made(locked.board.tell(member.id, call, member.alloc, now))
                }
                None => Tried::ComeAgain(call),
            },
        }
    }

    /// Sets whether a ticker is installed on the bar under the lock. It asks for no draw, and so doesn't wait for the end of a pause of its
    /// board.
    fn set_ticker<R: Wait>(&mut self, rt: &R, installed: bool) -> Result<Drawn, Refusal>
        ensures bar { BarMakes K.means T.view self.old.bar (Lone.Obey (SetTicker installed)) result self.new.bar }
        ensures ticker { self.new.ticker ≡ self.old.ticker }
    {
        let now = self.clock.now();
        match &mut self.bar {
            AnyBar::Alone(bar) => {
                bar.bar();
                bar.call(LoneCall::Bar(BarCommand::SetTicker(installed)), now)
            }
            AnyBar::Member(member) => member.set_ticker(rt, installed, now),
        }
    }

    /// Changes the position of the bar under the lock, unless the bar or its board is in a pause.
    #[inline(always)]
    pub fn move_by<R: Wait>(
        &mut self,
        rt: &R,
        change: PositionChange,
    ) -> Tried<Result<Drawn, Refusal>, ()>
        ensures { IfMade result (λ answer. BarMakes K.means T.view self.old.bar (Lone.Obey (position_command change)) answer self.new.bar) }
    {
        if self.paused {
            return Tried::ComeAgain(());
        }
        let now = self.clock.now();
        match &mut self.bar {
            AnyBar::Alone(bar) => {
                bar.bar();
                Tried::Made(change.apply_to(bar, now))
            }
            AnyBar::Member(member) => member.move_by(rt, change, now),
        }
    }

    /// Moves the position of the bar under the lock `n` further, as `seeks` says; counts from 0 if its board hasn't the bar.
    pub fn place_after<R: Wait>(
        &mut self,
        rt: &R,
        seeks: &mut SeekMax<5, 10>,
        n: u64,
    ) -> Tried<Result<Drawn, Refusal>, ()>
        ensures { MatchTried result (λ answer. (position : ℕ) × (place : ℕ) × ((place, seeks.new) ≡ after_move 5 10 seeks.old position n)
            × BarMakes K.means T.view self.old.bar (Lone.Obey (SetPosition place)) answer self.new.bar) (λ _. seeks.new ≡ seeks.old) }
    {
        let now = self.clock.now();
        match &mut self.bar {
            AnyBar::Alone(bar) => {
                let place = seeks.update_seq(bar.bar().state().pos(), n);
                Tried::Made(PositionChange::To(place).apply_to(bar, now))
            }
            AnyBar::Member(member) => member.place_after(rt, seeks, n, now),
        }
    }

    /// Makes the changes that the closure returns for the bar's state; then as a tick. If its board hasn't the bar, the closure isn't
    /// called.
    pub fn update<R: Wait, F: FnOnce(&ProgressState) -> Change>(
        &mut self,
        rt: &R,
        f: F,
    ) -> Tried<Result<Drawn, Refusal>, F>
        requires { F.IsAlwaysCallable f }
        ensures { MatchTried result (λ answer. BarUpdates K.means T.view (FnOnceReturnsAt F.FnOnce f) self.old.bar answer self.new.bar) (λ again. again ≡ f) }
    {
        let now = self.clock.now();
        match &mut self.bar {
            AnyBar::Alone(bar) => {
                bar.bar();
                Tried::Made(bar.update(f, now))
            }
            AnyBar::Member(member) => member.update(rt, f, now),
        }
    }

    /// Begins a pause of a bar that stands alone: its rows are cleared. For a board's bar the board is returned, for a pause of that.
    pub fn halt(&mut self) -> Halt<K, T, C>
        ensures { BarHalts K.means T.view self.old.bar result self.new.bar }
    {
        let now = self.clock.now();
        match &mut self.bar {
            AnyBar::Alone(bar) => {
                self.paused = true;
                Halt::Alone(pause_of(bar, now))
            }
            AnyBar::Member(member) => match Arc::try_clone(&member.board) {
                Ok(board) => Halt::OnBoard(now, board),
                Err(_) => Halt::NoMemory,
            },
        }
    }

    /// Ends the pause of a bar that stands alone, by a forced draw at the moment at which the pause began. If the clear was refused,
    /// nothing is drawn, and the answer is that refusal.
    pub fn resume<R: Wait>(&mut self, rt: &R, pause: Pause) -> Result<Drawn, Refusal>
        ensures { MatchResult pause.cleared (λ _. BarRedraws K.means T.view self.old.bar result self.new.bar)
            (λ e. (result ≡ Err e) × (self.new.bar ≡ self.old.bar)) }
    {
        let Pause { now, cleared } = pause;
        self.paused = false;
        match cleared {
            Ok(_) => self.redraw(rt, now),
            Err(refusal) => Err(refusal),
        }
    }

    /// Forces a draw of the bar under the lock, or of all bars of its board.
    fn redraw<R: Wait>(&mut self, rt: &R, now: Moment) -> Result<Drawn, Refusal>
        ensures { BarRedraws K.means T.view self.old.bar result self.new.bar }
    {
        match &mut self.bar {
            AnyBar::Alone(bar) => {
                bar.bar();
                bar.force_draw(now)
            }
            AnyBar::Member(member) => member.redraw(rt, now),
        }
    }

    /// Removes an owner, and returns whether it was the last; then the bar ends too.
    pub fn release<R: Wait>(&mut self, rt: &R) -> Tried<bool, ()>
        ensures owners { MatchTried result (λ last. OwnerLeaves last self.old.owners self.new.owners) (λ _. self.new.owners ≡ self.old.owners) }
        ensures last { result ≡ Tried.Made true → (answer : _) × BarEnds K.means T.view self.old.bar answer self.new.bar }
        ensures others { (result ≢ Tried.Made true) → self.new.bar ≡ self.old.bar }
    {
        if self.owners != 1 {
            self.leave();
            return Tried::Made(false);
        }
        match self.end(rt) {
            Tried::Made(_) => {
                self.leave();
                Tried::Made(true)
            }
            Tried::ComeAgain(()) => Tried::ComeAgain(()),
        }
    }

    /// Ends the bar with its last owner: a bar that stands alone and isn't finished is finished by its stored finish, a board's bar is
    /// dropped.
    fn end<R: Wait>(&mut self, rt: &R) -> Tried<Result<Drawn, Refusal>, ()>
        ensures ends { MatchTried result (λ answer. BarEnds K.means T.view self.old.bar answer self.new.bar) (λ _. self.new.bar ≡ self.old.bar) }
        ensures owners { self.new.owners ≡ self.old.owners }
    {
        let now = self.clock.now();
        match &mut self.bar {
            AnyBar::Alone(bar) => Tried::Made(finish_unfinished(bar, now)),
            AnyBar::Member(member) => member.lose_owner(rt, now),
        }
    }

    /// Installs the ticker with this number on the bar under the lock, in place of any other. If that is refused, the ticker stays as it
    /// is.
    pub fn install_ticker<R: Wait>(&mut self, rt: &R, number: u64) -> Result<(), Refusal>
        requires { number < self.old.ticker.next }
        ensures installed { IfOk result (λ _. (self.new.ticker.installed ≡ Some number)
            × ((drawn : _) × BarMakes K.means T.view self.old.bar (Lone.Obey (SetTicker true)) (Ok drawn) self.new.bar)) }
        ensures refused { IfErr result (λ e. (self.new.ticker ≡ self.old.ticker)
            × BarMakes K.means T.view self.old.bar (Lone.Obey (SetTicker true)) (Err e) self.new.bar) }
    {
        self.set_ticker(rt, true)?;
        self.ticker.install(number);
        Ok(())
    }

    /// Removes the ticker of the bar under the lock. If that is refused, the ticker stays as it is.
    pub fn disable_ticker<R: Wait>(&mut self, rt: &R) -> Result<(), Refusal>
        ensures disabled { IfOk result (λ _. (self.new.ticker.installed ≡ None)
            × ((drawn : _) × BarMakes K.means T.view self.old.bar (Lone.Obey (SetTicker false)) (Ok drawn) self.new.bar)) }
        ensures refused { IfErr result (λ e. (self.new.ticker ≡ self.old.ticker)
            × BarMakes K.means T.view self.old.bar (Lone.Obey (SetTicker false)) (Err e) self.new.bar) }
    {
        self.set_ticker(rt, false)?;
        self.ticker.disable();
        Ok(())
    }

    /// Whether the ticker with this number goes on to tick the bar under the lock: it is the installed one, the bar is not finished, and it
    /// has an owner.
    pub fn ticks_by<R: Wait>(&self, rt: &R, number: u64) -> bool
        ensures installed { (result ≡ true) → self.now.ticker.installed ≡ Some number }
        ensures owned { (result ≡ true) → 0 < self.now.owners }
        ensures unfinished { (result ≡ true) → IsUnfinished self.now.bar }
    {
        self.awaits(number) && !self.bar.is_finished(rt)
    }

    /// Whether the ticker with this number waits for the next tick of the bar under the lock: it is the installed one, and the bar has an
    /// owner.
    pub fn awaits(&self, number: u64) -> bool
        ensures installed { (result ≡ true) → self.now.ticker.installed ≡ Some number }
        ensures owned { (result ≡ true) → 0 < self.now.owners }
    {
        self.ticker.is_installed(number) && self.owners > 0
    }

    /// The bar under the lock.
    pub fn bar(&self) -> &AnyBar<K, T, C>
        ensures { result.now ≡ self.now.bar }
    {
        &self.bar
    }

    /// The nanoseconds that are left, at the rate up to the moment of the bar's clock.
    #[tactic(auto, using(crate::proofs::FrontLemmas::no_eta))]
    pub fn eta<R: Wait>(&mut self, rt: &R) -> u64
        ensures measure { Measures eta self.old.bar result }
        ensures bar { self.new.bar ≡ self.old.bar }
    {
        let now = self.clock.now();
        let told = self.bar.read(rt, |state| state.eta(now));
        told.unwrap_or(0)
    }

    /// The rate up to the moment of the bar's clock.
    #[tactic(auto, using(crate::proofs::FrontLemmas::no_rate))]
    pub fn per_sec<R: Wait>(&mut self, rt: &R) -> Rate
        ensures measure { Measures per_sec self.old.bar result }
        ensures bar { self.new.bar ≡ self.old.bar }
    {
        let now = self.clock.now();
        let told = self.bar.read(rt, |state| state.per_sec(now));
        told.unwrap_or(NO_RATE)
    }

    /// The nanoseconds that the whole work takes, at the rate up to the moment of the bar's clock.
    #[tactic(auto, using(crate::proofs::FrontLemmas::no_duration))]
    pub fn duration<R: Wait>(&mut self, rt: &R) -> u64
        ensures measure { Measures duration self.old.bar result }
        ensures bar { self.new.bar ≡ self.old.bar }
    {
        let now = self.clock.now();
        let told = self.bar.read(rt, |state| state.duration(now));
        told.unwrap_or(0)
    }

    /// The nanoseconds from the start to the moment of the bar's clock.
    #[tactic(auto, using(crate::proofs::FrontLemmas::no_elapsed))]
    pub fn elapsed<R: Wait>(&mut self, rt: &R) -> u64
        ensures measure { Measures elapsed self.old.bar result }
        ensures bar { self.new.bar ≡ self.old.bar }
    {
        let now = self.clock.now();
        let told = self.bar.read(rt, |state| state.elapsed(now));
        told.unwrap_or(0)
    }

    /// Replaces the bar under the lock; the old one is dropped.
    fn stand(&mut self, bar: AnyBar<K, T, C>)
        ensures { self.new.bar ≡ bar }
    {
        self.bar = bar;
    }

    /// Sets the target of the bar under the lock; the old one is dropped. A board's bar leaves its board first, whose other bars a forced
    /// draw shows, and stands alone afterwards; the answer is that of the draw. If it can't leave, it keeps its place.
    pub fn set_draw_target<R: Wait>(
        &mut self,
        rt: &R,
        target: ProgressDrawTarget<T>,
    ) -> Tried<Result<Drawn, Refusal>, ProgressDrawTarget<T>>
        ensures { MatchTried result (λ answer. BarTurns self.old.bar (term_of target) answer self.new.bar)
            (λ again. (again ≡ target) × (self.new.bar ≡ self.old.bar)) }
    {
        match &mut self.bar {
            AnyBar::Alone(bar) => {
                let _ = bar.set_draw_target(target);
                Tried::Made(Ok(Drawn::Limited))
            }
            AnyBar::Member(member) => {
                let now = self.clock.now();
                let leaving = member.leave(rt, now);
                self.stand_after(leaving, target)
            }
        }
    }

    /// Sets the target of the bar under the lock as `set_draw_target`, but a bar that stands alone is cleared first, whatever the clear
    /// answers; the answer is that of the clear.
    pub fn move_to<R: Wait>(
        &mut self,
        rt: &R,
        target: ProgressDrawTarget<T>,
    ) -> Tried<Result<Drawn, Refusal>, ProgressDrawTarget<T>>
        ensures { MatchTried result (λ answer. BarMovesTo K.means T.view self.old.bar (term_of target) answer self.new.bar)
            (λ again. (again ≡ target) × (self.new.bar ≡ self.old.bar)) }
    {
        let now = self.clock.now();
        match &mut self.bar {
            AnyBar::Alone(bar) => {
                bar.bar();
                let cleared = bar.clear(now);
                let _ = bar.set_draw_target(target);
                Tried::Made(cleared)
            }
            AnyBar::Member(member) => {
                let leaving = member.leave(rt, now);
                self.stand_after(leaving, target)
            }
        }
    }

    /// A bar that has left its board stands alone on this target.
    fn stand_after(
        &mut self,
        leaving: Leaving<K>,
        target: ProgressDrawTarget<T>,
    ) -> Tried<Result<Drawn, Refusal>, ProgressDrawTarget<T>>
        requires { LeavesSo leaving }
        ensures { MatchTried result (λ answer. BarLeaves self.old.bar (term_of target) answer self.new.bar)
            (λ again. (again ≡ target) × (self.new.bar ≡ self.old.bar)) }
    {
        match leaving {
            Leaving::Left(bar, drawn) => {
                self.stand(AnyBar::Alone(LoneBar::new(bar, target)));
                Tried::Made(drawn)
            }
            Leaving::Stays(refusal) => Tried::Made(Err(refusal)),
            Leaving::Later => Tried::ComeAgain(target),
        }
    }

    /// Inserts the bar under the lock on a board. A bar that is on one keeps its place.
    #[tactic(auto, using(crate::proofs::AnswerLemmas::not_taken, crate::proofs::FrontLemmas::memory_missing))]
    pub fn take_in<R: Wait>(
        &mut self,
        rt: &R,
        board: SharedBoard<K, T, C>,
        at: InsertLocation,
        alloc: Global,
    ) -> Result<(), Refusal>
        ensures { IfErr result IsMissing }
    {
        let Ok(candidate) = self.bar.candidate() else {
            return Err(Refusal::Memory);
        };
        let mut locked = board.lock(rt);
        let now = locked.now();
        let taken = locked.board.insert(at, candidate, now);
        drop(locked);
        let id = taken?;
        if self.bar.id().is_none() {
            self.stand(AnyBar::Member(MemberBar { board, id, alloc }));
        }
        Ok(())
    }

    /// Removes the bar under the lock from a board; it stands alone afterwards, and is hidden. One that stands alone is unchanged.
    #[tactic(auto, using(crate::proofs::AnswerLemmas::removed_so))]
    pub fn take_out<R: Wait>(&mut self, rt: &R, board: &BoardCell<K, T, C>) -> Result<(), Refusal>
        ensures { IfErr result MemoryOrForeign }
    {
        let Some(id) = self.bar.id() else {
            return Ok(());
        };
        let mut locked = board.lock(rt);
        let now = locked.now();
        let removed = locked.board.remove(id, now);
        drop(locked);
        if let Some(bar) = removed? {
            let alone = LoneBar::new(bar, ProgressDrawTarget::hidden());
            self.stand(AnyBar::Alone(alone));
        }
        Ok(())
    }
}

impl<K: Tracks, T: Drop, C: Drop> LockedBar<K, T, C> {
    /// Takes the bar out of what its lock protects; its clock is dropped.
    pub fn into_bar(self) -> AnyBar<K, T, C>
        ensures { result ≡ self.bar }
    {
        let LockedBar {
            owners: _,
            ticker: _,
            clock: _,
            paused: _,
            bar,
        } = self;
        bar
    }
}

/// Begins a pause of a bar that stands alone: clears its rows.
fn pause_of<K: Tracks, T: TermLike + Drop>(bar: &mut LoneBar<K, T>, now: Moment) -> Pause
    ensures made { MadeBy K.means T.view bar.old bar.new Lone.Clear now result.cleared }
    ensures now { result.now ≡ now }
{
    bar.bar();
    let cleared = bar.clear(now);
    Pause { now, cleared }
}

/// Finishes a bar that stands alone and isn't finished by its stored finish.
fn finish_unfinished<K: Tracks, T: TermLike + Drop>(
    bar: &mut LoneBar<K, T>,
    now: Moment,
) -> Result<Drawn, Refusal>
    ensures finished { IsTrue (is_finished (record_of bar.old).progress) → bar.new ≡ bar.old }
    ensures unfinished { IsFalse (is_finished (record_of bar.old).progress) → MadeBy K.means T.view bar.old bar.new (Lone.Obey FinishUsingStyle) now result }
{
    if bar.bar().state().is_finished() {
        return Ok(Drawn::Limited);
    }
    bar.call(LoneCall::Bar(BarCommand::FinishUsingStyle), now)
}

/// The rate of a bar that the board hasn't: no steps.
const NO_RATE: Rate = Rate { steps: 0, nanos: 1 };
