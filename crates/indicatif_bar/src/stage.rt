//! What bars draw on, a lone one and those of a board. It is public for boards, whose crate is another: programs use `LoneBar` and `Board`,
//! which each have a private stage.
ghost use Rattle.std.specs.Prelude.{◌≡◌, ◌⊎◌, None, Err, Option, option_map, map, IsTrue, ◌↔◌, IfOk, IfErr, IfSome, OnErr, false};
ghost use Rattle.std.specs.List.{list_all};
ghost use Rattle.indicatif_term.specs.Lines.{line_text};
ghost use Rattle.indicatif_bar.specs.Bars.{lines_of_bar, lines_take_memory, is_bar_line};
ghost use Rattle.indicatif_term.specs.Limiters.{Limiter};
ghost use Rattle.indicatif_term.specs.Lists.{Lists, opening_lists};
ghost use Rattle.indicatif_term.specs.Target.{term_of, limiter_of};

use crate::spare::SpareLines;
use crate::state::BarState;
use crate::tracker::Tracks;
use indicatif_term::target::{Engine, LineType, ProgressDrawTarget, RateLimiter, Resize, TermLike};
use indicatif_text::columns::{Moment, Refusal};
use std::alloc::Global;
use std::mem::replace;

/// What a draw writes.
#[derive(Clone, Copy)]
pub enum Writing<'a> {
    /// The bars' lines.
    Frame,
    /// A text, which stays, and the bars' lines below it.
    TextAndFrame(&'a str),
    /// Nothing, in place of the old rows.
    NoFrame,
}

/// Lays a bar's lines out in the place of those that are stored, whose memory becomes the next spare one.
///
/// Refused: as `BarState::lines_in`; then the stored lines are unchanged.
pub fn relay<K: Tracks>(
    bar: &BarState<K>,
    stored: &mut Vec<LineType>,
    spare: &mut SpareLines,
    width: u16,
    now: Moment,
) -> Result<(), Refusal>
    ensures lines { IfOk result (λ _. map line_text stored.new.items ≡ lines_of_bar K.means bar.now now width) }
    ensures kind { IfOk result (λ _. IsTrue (list_all is_bar_line stored.new.items)) }
    ensures memory { IfErr result (λ e. (e ≡ Refusal.Memory) × IsTrue (lines_take_memory bar.now)) }
    ensures unchanged { OnErr result (stored.new ≡ stored.old) }
{
    if bar.state().is_hidden() {
        spare.store(replace(stored, Vec::new(bar.alloc())));
        return Ok(());
    }
    let lines = bar.style().lines_in(spare, bar.state(), now, width)?;
    spare.store(replace(stored, lines));
    Ok(())
}

/// A target to draw on: its terminal, with what stands there, and the limiter of unforced draws.
pub struct Stage<T: Drop> {
    /// The engine on the terminal; none if the target is hidden.
    pub engine: Option<Engine<T>>,
    /// The limiter; none if each draw is made.
    pub limiter: Option<RateLimiter>,
}

impl<T: Drop> Drop for Stage<T> {
    fn drop(self) {
        let Stage {
            engine: _,
            limiter: _,
        } = self;
    }
}

impl<T: TermLike + Drop> Stage<T> {
    ghost use Rattle.indicatif_bar.specs.Stages.{stage_terminal, stage_moves, IsStaged};

    /// A stage on this target, on which nothing is drawn. It takes no memory and writes nothing.
    pub fn new(alloc: Global, target: ProgressDrawTarget<T>) -> Self
        ensures terminal { stage_terminal result ≡ term_of target }
        ensures moves { IfSome (stage_moves result) (λ moves. moves ≡ false) }
        ensures staged { IsStaged result (limiter_of target) opening_lists }
    {
        let (engine, limiter) = Engine::opened_on(alloc, target);
        Stage { engine, limiter }
    }

    /// The stage's terminal; `None` if the target is hidden.
    pub fn term(&self) -> Option<&T>
        ensures { option_map (λ t. t.now) result ≡ stage_terminal self.now }
    {
        match &self.engine {
            Some(engine) => Some(engine.term()),
            None => None,
        }
    }

    /// The stage's terminal, with what stands on it; `None` if the target is hidden. Nothing is written.
    pub fn into_term(mut self) -> Option<T>
        ensures { result ≡ stage_terminal self }
    {
        match replace(&mut self.engine, None) {
            Some(engine) => Some(engine.into_term()),
            None => None,
        }
    }

    /// Whether the stage's target is hidden.
    pub fn is_hidden(&self) -> bool
        ensures { IsTrue result ↔ (stage_terminal self.now ≡ None) }
    {
        self.engine.is_none()
    }

    /// Sets the stage's target, on which nothing is drawn, and returns the old one, with its limiter as the draws left it. Nothing is
    /// written to either.
    pub fn set_draw_target(
        &mut self,
        alloc: Global,
        target: ProgressDrawTarget<T>,
    ) -> ProgressDrawTarget<T>
        ensures old { term_of result ≡ stage_terminal self.old }
        ensures old_limiter { IfSome result (λ t. t.1 ≡ self.old.limiter) }
        ensures new { stage_terminal self.new ≡ term_of target }
        ensures moves { IfSome (stage_moves self.new) (λ moves. moves ≡ false) }
        ensures staged { IsStaged self.new (limiter_of target) opening_lists }
    {
        let (engine, limiter) = Engine::opened_on(alloc, target);
        let limiter = replace(&mut self.limiter, limiter);
        match replace(&mut self.engine, engine) {
            Some(engine) => ProgressDrawTarget::from_parts(Some((engine.into_term(), limiter))),
            None => ProgressDrawTarget::hidden(),
        }
    }

    /// Sets whether draws on the stage write their lines over the old ones: `Engine::set_move_cursor`. On a hidden target this does
    /// nothing.
    pub fn set_move_cursor(&mut self, on: bool)
        ensures terminal { stage_terminal self.new ≡ stage_terminal self.old }
        ensures moves { IfSome (stage_moves self.new) (λ moves. moves ≡ on) }
        ensures staged { (limiter : Option Limiter) (l : Lists) → IsStaged self.old limiter l → IsStaged self.new limiter l }
    {
        if let Some(engine) = &mut self.engine {
            engine.set_move_cursor(on);
        }
    }
}

impl<T: Resize + Drop> Stage<T> {
    ghost use Rattle.indicatif_bar.specs.Machines.{target_of};
    ghost use Rattle.indicatif_bar.specs.Scripts.{IsAnotherSize, SizedOn, sized_lists};
    ghost use Rattle.indicatif_bar.specs.Stages.{stage_terminal, stage_known, stage_moves, IsStaged};
    ghost use Rattle.indicatif_term.specs.Resizes.{SizeTakes};

    /// Tells the stage that the terminal has `rows` rows and `cols` columns now, and how its rows are wrapped then: `Engine::resize`. On a
    /// hidden target this does nothing.
    ///
    /// Refused: `ZeroSize` if `rows` or `cols` is 0, also on a hidden target; `Memory`, never there, nor at the size that the terminal has,
    /// and only if a kept or a live row stands, or the terminal takes some for a size. Then nothing has changed.
    pub fn resize(&mut self, rows: u16, cols: u16) -> Result<(), Refusal>
        ensures sized { IfOk result (λ _. SizedOn cols rows (stage_known T.view self.old) (stage_known T.view self.new)) }
        ensures staged { IfOk result (λ _. (limiter : Option Limiter) (l : Lists) → IsStaged self.old limiter l →
            IsStaged self.new limiter (sized_lists cols rows (target_of (stage_known T.view self.old)) l)) }
        ensures moves { stage_moves self.new ≡ stage_moves self.old }
        ensures hidden { stage_terminal self.old ≡ None → self.new ≡ self.old }
        ensures unchanged { OnErr result (self.new ≡ self.old) }
        ensures zero_size { (result ≡ Err Refusal.ZeroSize) ↔ ((rows ≡ 0) ⊎ (cols ≡ 0)) }
        ensures no_other { IfErr result (λ e. (e ≡ Refusal.ZeroSize) ⊎ (e ≡ Refusal.Memory)) }
        ensures memory { result ≡ Err Refusal.Memory → IsAnotherSize cols rows (stage_known T.view self.old) }
        ensures takes { result ≡ Err Refusal.Memory → (limiter : Option Limiter) (l : Lists) → IsStaged self.old limiter l → SizeTakes T.takes_memory l }
    {
        if rows == 0 || cols == 0 {
            return Err(Refusal::ZeroSize);
        }
        match &mut self.engine {
            Some(engine) => engine.resize(rows, cols),
            None => Ok(()),
        }
    }
}
