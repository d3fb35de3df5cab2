//! A shared bar as it stands: alone on its target, or on a board.
ghost use Rattle.std.specs.Prelude.{◌≡◌, Some, None, MatchResult, IfOk, IfErr, false};
ghost use Rattle.std.specs.Fn.{FnOnceReturnsAt};
ghost use Rattle.indicatif.specs.Inside.AnyBar.{ReadsBy, LooksSo, IsUnfinished, IsUntold};

use crate::shared::board_cell::SharedBoard;
use crate::shared::member_bar::{MemberBar, told_of};
use indicatif_bar::lone::LoneBar;
use indicatif_bar::state::{BarState, ProgressState};
use indicatif_bar::style::{ProgressStyle, Tracks};
use indicatif_board::multi::{BarId, Candidate};
use indicatif_term::target::TermLike;
use indicatif_text::columns::{Clock, Refusal};
use std::alloc::Global;
use std::sync::{Arc, Wait};

/// A bar alone, or on a board.
#[derive(Drop)]
pub enum AnyBar<K: Tracks, T: Drop, C> {
    /// Alone on its target.
    Alone(LoneBar<K, T>),
    /// On a board.
    Member(MemberBar<K, T, C>),
}

/// What a closure returns for a bar's state, if there is a bar.
fn found_of<K: Tracks, F: FnOnce(&ProgressState) -> A, A>(
    bar: Result<&BarState<K>, Refusal>,
    f: F,
) -> Option<A>
    requires { F.IsAlwaysCallable f }
    ensures { MatchResult bar.entry (λ b. (a : A) × (result ≡ Some a) × FnOnceReturnsAt F.FnOnce f b.now.progress a) (λ _. result ≡ None) }
{
    match bar {
        Ok(bar) => Some(told_of(bar.state(), f)),
        Err(_) => None,
    }
}

impl<K: Tracks, T: TermLike + Drop, C: Clock + Drop> AnyBar<K, T, C> {
    /// What the closure returns for the state of the bar there; `None` if its board hasn't the bar.
    pub fn read<R: Wait, F: FnOnce(&ProgressState) -> A, A>(&self, rt: &R, f: F) -> Option<A>
        requires { F.IsAlwaysCallable f }
        ensures { ReadsBy (FnOnceReturnsAt F.FnOnce f) self.now result }
    {
        match self {
            AnyBar::Alone(bar) => found_of(Ok(bar.bar()), f),
            AnyBar::Member(member) => {
                let locked = member.board.lock(rt);
                found_of(locked.board.as_board().bar(member.id), f)
            }
        }
    }

    /// Whether the bar there is finished, or its board hasn't it.
    pub fn is_finished<R: Wait>(&self, rt: &R) -> bool
        ensures { (result ≡ false) → IsUnfinished self.now }
    {
        let finished = self.read(rt, |state| state.is_finished());
        finished.unwrap_or(true)
    }

    /// The tab width of the bar there; 8 if its board hasn't the bar.
    pub fn tab_width<R: Wait>(&self, rt: &R) -> usize {
        match self {
            AnyBar::Alone(bar) => bar.bar().tab_width(),
            AnyBar::Member(member) => match member.board.lock(rt).board.as_board().bar(member.id) {
                Ok(bar) => bar.tab_width(),
                Err(_) => 8,
            },
        }
    }

    /// A copy of the message of the bar there.
    pub fn message<R: Wait>(&self, rt: &R, alloc: Global) -> Result<String, Refusal>
        ensures { IfErr result (λ e. IsUntold self.now e) }
    {
        match self {
            AnyBar::Alone(bar) => Ok(String::from_str(alloc, bar.bar().message())?),
            AnyBar::Member(member) => {
                let locked = member.board.lock(rt);
                let bar = locked.board.as_board().bar(member.id)?;
                Ok(String::from_str(alloc, bar.message())?)
            }
        }
    }

    /// A copy of the prefix of the bar there.
    pub fn prefix<R: Wait>(&self, rt: &R, alloc: Global) -> Result<String, Refusal>
        ensures { IfErr result (λ e. IsUntold self.now e) }
    {
        match self {
            AnyBar::Alone(bar) => Ok(String::from_str(alloc, bar.bar().prefix())?),
            AnyBar::Member(member) => {
                let locked = member.board.lock(rt);
                let bar = locked.board.as_board().bar(member.id)?;
                Ok(String::from_str(alloc, bar.prefix())?)
            }
        }
    }

    /// A style equal to that of the bar there; that of a new bar if its board hasn't the bar.
    pub fn style<R: Wait>(&self, rt: &R, alloc: Global) -> Result<ProgressStyle<K>, Refusal>
        ensures style { IfOk result (λ style. LooksSo self.now style) }
        ensures memory { IfErr result (λ e. e ≡ Refusal.Memory) }
    {
        match self {
            AnyBar::Alone(bar) => bar.bar().style().try_clone(),
            AnyBar::Member(member) => match member.board.lock(rt).board.as_board().bar(member.id) {
                Ok(bar) => bar.style().try_clone(),
                Err(_) => ProgressStyle::default_bar(alloc),
            },
        }
    }

    /// Whether the target of the bar there is hidden; on a board, the board's target.
    pub fn is_hidden<R: Wait>(&self, rt: &R) -> bool {
        match self {
            AnyBar::Alone(bar) => bar.is_hidden(),
            AnyBar::Member(member) => member.board.lock(rt).board.as_board().is_hidden(),
        }
    }

    /// Lends the terminal of the bar there to `f`; `None` if the target is hidden.
    pub fn with_term<R: Wait, F: FnOnce(Option<&T>) -> A, A>(&self, rt: &R, f: F) -> A
        requires { F.IsAlwaysCallable f }
        ensures { (shown : _) × F.post f shown result }
    {
        match self {
            AnyBar::Alone(bar) => {
                let shown = bar.term();
                f(shown)
            }
            AnyBar::Member(member) => {
                let locked = member.board.lock(rt);
                let shown = locked.board.as_board().term();
                f(shown)
            }
        }
    }

    /// The number of the bar there on its board; `None` if it stands alone.
    pub fn id(&self) -> Option<BarId> {
        match self {
            AnyBar::Alone(_) => None,
            AnyBar::Member(member) => Some(member.id),
        }
    }

    /// The board of the bar there; `None` if it stands alone, or there is no memory for another owner of the board.
    pub fn board(&self) -> Option<SharedBoard<K, T, C>> {
        match self {
            AnyBar::Alone(_) => None,
            AnyBar::Member(member) => Arc::try_clone(&member.board).ok(),
        }
    }

    /// What to insert on a board: the bar that stands on one, or another bar equal to this one.
    pub fn candidate(&self) -> Result<Candidate<K>, Refusal>
        ensures { IfErr result (λ e. e ≡ Refusal.Memory) }
    {
        match self {
            AnyBar::Alone(bar) => Ok(Candidate::New(bar.bar().try_clone()?)),
            AnyBar::Member(member) => Ok(Candidate::Member(member.id)),
        }
    }
}
