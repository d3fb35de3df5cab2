//! A board's calls as values, one or a list.
ghost use Rattle.std.specs.Prelude.{◌≡◌, ℕ, Some, IsTrue, IsFalse, IfOk, IfErr, map, OnErr, is_ok, vec_len};
ghost use Rattle.std.specs.List.{list_any};
ghost use Rattle.indicatif_bar.specs.Commands.{BarRecord};
ghost use Rattle.indicatif_bar.specs.Runs.{wrote, Runs, Headline};
ghost use Rattle.indicatif_board.specs.BoardBars.{board_bars};
ghost use Rattle.indicatif_board.specs.Boards.{BoardState, drawn_of, board};
ghost use Rattle.indicatif_board.specs.Slots.{slot_of};
ghost use Rattle.indicatif_board.specs.Recorded.{handed_back};
ghost use Rattle.indicatif_board.specs.Calls.{answer_of, call_of, timed, NamesForeign, AreTurnedAway, acts_on};
ghost use Rattle.indicatif_board.specs.Multi.{IsIn, Keeps, TurnsAway, mark_of, SlotsChange, StaysInSlot, RecordsChange, StaysOrComes, LeadsBy, known, slots_of};

use crate::calls::{Answer, Call, draw_answer, insertion_answer, removal_answer};
use crate::multi::Board;
use indicatif_bar::state::BarState;
use indicatif_bar::style::Tracks;
use indicatif_term::target::TermLike;
use indicatif_text::columns::{Moment, Refusal};

impl<K: Tracks, T: TermLike + Drop> Board<K, T> {
    /// Makes a call that is a value: what the method that `Call` names does and refuses. It also returns the bar that was removed, or the
    /// new one that was refused.
    ///
    /// ```
    /// let (answer, removed) = board.apply(Call::Remove(id), now); // Answer::Accepted, and the bar
    /// ```
    #[inline(always)]
    pub fn apply(&mut self, call: Call<K>, now: Moment) -> (Answer, Option<BarState<K>>)
        ensures keeps { Keeps T.view (wrote (drawn_of (answer_of result.0))) self.old self.new }
        ensures leads { LeadsBy K.means T.view self.old self.new (call_of call) now (answer_of result.0) }
        ensures foreign { NamesForeign (mark_of self.old) (call_of call) → TurnsAway Refusal.ForeignBar (answer_of result.0) self.old self.new }
        ensures slots { SlotsChange (call_of call) (answer_of result.0) self.old self.new }
        ensures records { RecordsChange K.means (call_of call) now (answer_of result.0) self.old self.new }
        ensures back { (mark : ℕ) (s : BoardState (BarRecord K)) (other : BarRecord K) → IsIn mark self.old s →
            result.1 ≡ handed_back (call_of call) (answer_of result.0) other s.members }
    {
        match call {
            Call::Insert { at, candidate } => insertion_answer(self.insert_by(at, candidate)),
            Call::Remove(id) => removal_answer(self.remove(id)),
            Call::Drop(id) => (draw_answer(self.drop_bar(id, now)), None),
            Call::Log(text) => (draw_answer(self.println(text.as_str(), now)), None),
            Call::BarLog(id, text) => (draw_answer(self.bar_println(id, text.as_str(), now)), None),
            Call::Clear => (draw_answer(self.clear(now)), None),
            Call::Redraw => (draw_answer(self.redraw(now)), None),
            Call::Align(alignment) => {
                self.set_alignment(alignment);
                (Answer::Accepted, None)
            }
            Call::Bar(id, command) => (draw_answer(self.command(id, command, now)), None),
        }
    }

    /// Makes a call as `apply`, but a bar that is removed or refused is dropped.
    pub fn call(&mut self, call: Call<K>, now: Moment) -> Answer
        ensures keeps { Keeps T.view (wrote (drawn_of (answer_of result))) self.old self.new }
        ensures leads { LeadsBy K.means T.view self.old self.new (call_of call) now (answer_of result) }
        ensures foreign { NamesForeign (mark_of self.old) (call_of call) → TurnsAway Refusal.ForeignBar (answer_of result) self.old self.new }
        ensures slots { SlotsChange (call_of call) (answer_of result) self.old self.new }
        ensures records { RecordsChange K.means (call_of call) now (answer_of result) self.old self.new }
    {
        self.apply(call, now).0
    }

    /// Makes the calls one after another, each at its moment, and returns their answers. An empty list changes nothing, and is never
    /// refused. A call that names another board's bar (for an insertion beside an anchor, that anchor) is answered `ForeignBar`, and
    /// changes nothing. A bar that none of the calls removes, drops or commands keeps its record. Each bar keeps its slot as long as it
    /// stands in the order. Bars that are removed or refused are dropped.
    ///
    /// Refused: `Memory`, only for the answers, and nothing is run; the calls are dropped.
    pub fn run(&mut self, calls: Vec<(Call<K>, Moment)>) -> Result<Vec<Answer>, Refusal>
        ensures run { (mark : ℕ) (s : BoardState (BarRecord K)) → IsIn mark self.old s →
            let old = known T.view self.old in let new = known T.view self.new in
            IfOk result (λ answers. (next : BoardState (BarRecord K)) × IsIn mark self.new next
            × (run : Runs (board (board_bars K.means) mark) (map timed calls.items) (map answer_of answers.items) old s new next)
            × Headline (board (board_bars K.means) mark) (map timed calls.items) (map answer_of answers.items) old s new next run) }
        ensures count { IfOk result (λ answers. vec_len answers ≡ vec_len calls) }
        ensures keeps { IfOk result (λ answers. Keeps T.view (list_any (λ answer. wrote (drawn_of (answer_of answer))) answers.items) self.old self.new) }
        ensures foreign { IfOk result (λ answers. AreTurnedAway (mark_of self.old) (map timed calls.items) (map answer_of answers.items)) }
        ensures records { (number : ℕ) → IsFalse (list_any (λ call. acts_on (mark_of self.old) number (call_of call.0)) calls.items) →
            IfOk result (λ answers. StaysOrComes number answers.items self.old self.new) }
        ensures slots { (number slot : ℕ) → slot_of number (slots_of self.old) ≡ Some slot → StaysInSlot number slot self.new }
        ensures idle { vec_len calls ≡ 0 → IsTrue (is_ok result) × (self.new ≡ self.old) }
        ensures memory { IfErr result (λ e. e ≡ Refusal.Memory) }
        ensures unrun { OnErr result (self.new ≡ self.old) }
    {
        let alloc = self.shown.alloc;
        if calls.is_empty() {
            return Ok(Vec::new(alloc));
        }
        let mut answers = Vec::with_capacity(alloc, calls.len())?;
        // What `order` says of the slots is for the proof of `slots` alone: before the first call, and before each.
        self.order();
        for (call, now) in calls {
            self.order();
            let answer = self.call(call, now);
            answers.push_reserved(answer);
        }
        Ok(answers)
    }
}
