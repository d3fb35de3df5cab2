//! How bars leave a board: removed, or dropped by their owner.
ghost use Rattle.std.specs.Prelude.{◌≡◌, ◌≢◌, ◌↔◌, ℕ, false, Some, None, Ok, Err, IsFalse, IfOk, if◌then◌else◌};
ghost use Rattle.indicatif_term.specs.Lists.{fate, kept_of};
ghost use Rattle.indicatif_bar.specs.Commands.{BarRecord};
ghost use Rattle.indicatif_bar.specs.Machines.{target_of};
ghost use Rattle.indicatif_bar.specs.Runs.{wrote};
ghost use Rattle.indicatif_board.specs.Boards.{BoardState, Remove, Drop, says, drawn_of};
ghost use Rattle.indicatif_board.specs.BarIds.{id_of};
ghost use Rattle.indicatif_board.specs.Members.{is_member, said_of};
ghost use Rattle.indicatif_board.specs.Inside.Leaving.{parted, RestsOn};
ghost use Rattle.indicatif_board.specs.Calls.{removal};
ghost use Rattle.indicatif_board.specs.Multi.{IsIn, Keeps, mark_of, record_at, OtherRecordsStay, SlotsGive, SlotsLeft, LeadsBy, known};

use crate::bar_id::BarId;
use crate::calls::is_undisturbed;
use crate::multi::Board;
use indicatif_bar::stage::Writing;
use indicatif_bar::state::BarState;
use indicatif_bar::style::Tracks;
use indicatif_term::target::{Keep, TermLike};
use indicatif_text::columns::{Drawn, Moment, Refusal};

impl<K: Tracks, T: TermLike + Drop> Board<K, T> {
    /// Removes a bar from the order and returns it; `None` if it was removed, dropped or never given. Its rows stay until the next draw.
    ///
    /// Refused: `ForeignBar`, exactly if the bar has another board's mark.
    pub fn remove(&mut self, id: BarId) -> Result<Option<BarState<K>>, Refusal>
        ensures keeps { Keeps T.view false self.old self.new }
        ensures quiet { IsFalse (wrote (drawn_of (removal result))) }
        ensures leads { (now : ℕ) → LeadsBy K.means T.view self.old self.new (Remove (id_of id)) now (removal result) }
        ensures foreign { id.mark ≢ mark_of self.old → (result ≡ Err Refusal.ForeignBar) × (self.new ≡ self.old) }
        ensures bar { (mark : ℕ) (s : BoardState (BarRecord K)) (other : BarRecord K) → IsIn mark self.old s →
            IfOk result (λ bar. bar ≡ (if is_member id.number s.members then Some (said_of other (λ b. b) id.number s.members) else None)) }
        ensures record { id.mark ≡ mark_of self.old → result ≡ Ok (record_at id.number self.old) }
        ensures gone { id.mark ≡ mark_of self.old → record_at id.number self.new ≡ None }
        ensures slots { IfOk result (λ bar. SlotsGive bar self.old self.new) }
        ensures others { OtherRecordsStay id.number self.old self.new }
    {
        if id.mark != self.mark {
            return Err(Refusal::ForeignBar);
        }
        match self.find(id) {
            Ok(at) => Ok(Some(self.shown.take_out(at))),
            Err(_) => Ok(None),
        }
    }

    /// Tells the board that a bar's owner is gone: one that isn't finished is finished by its stored finish, and a draw is forced. Then it
    /// leaves the order, if it is the first there and no other bar's rows stand above its own: its rows stay until a text, a clear or a
    /// suspend erases them. Otherwise it stays without an owner, and leaves with the draw that finds only such bars before it. No call may
    /// name it afterwards.
    ///
    /// Refused: `ForeignBar`, `NotMember`, `NoColumns`, `TooWide`, `Terminal` or `Memory`, as `Board` says. After `Terminal` or `Memory`
    /// the bar is ownerless and stays, even if it is the first: it is unchanged if the text of its finish got no memory, and finished if
    /// its lines got none. After `NoColumns` or `TooWide` it has left or is ownerless, as if it had been drawn.
    pub fn drop_bar(&mut self, id: BarId, now: Moment) -> Result<Drawn, Refusal>
        ensures keeps { Keeps T.view (wrote result) self.old self.new }
        ensures leads { LeadsBy K.means T.view self.old self.new (Drop (id_of id)) now (says result) }
        ensures foreign { id.mark ≢ mark_of self.old → (result ≡ Err Refusal.ForeignBar) × (self.new ≡ self.old) }
        ensures not_member { id.mark ≡ mark_of self.old → (result ≡ Err Refusal.NotMember) ↔ (record_at id.number self.old ≡ None) }
        ensures unchanged { result ≡ Err Refusal.NotMember → self.new ≡ self.old }
        ensures gone { id.mark ≡ mark_of self.old → record_at id.number self.new ≡ None }
        ensures slots { SlotsLeft self.old self.new }
        ensures others { OtherRecordsStay id.number self.old self.new }
    {
        let at = self.find(id)?;
        let shown = &mut self.shown;
        match shown.members[at].lose_owner(now) {
            Ok(ask) => {
                let drawn = self.draw(ask, Some(at), Writing::Frame, now);
                self.part(id.number, &drawn);
                drawn
            }
            Err(refusal) => {
                self.shown.set_ownerless(id.number);
                Err(refusal)
            }
        }
    }

    /// Lets a bar leave, or marks it as ownerless, after its last draw or the refusal of it.
    fn part(&mut self, number: u64, drawn: &Result<Drawn, Refusal>)
        ensures keeps { Keeps T.view false self.old self.new }
        ensures parted { (mark : ℕ) (s : BoardState (BarRecord K)) → IsIn mark self.old s →
            let target = target_of (known T.view self.old) in
            let next = parted target number drawn.now s in
            IsIn mark self.new next × RestsOn target.columns s.lists next.lists }
        ensures slots { SlotsLeft self.old self.new }
        ensures gone { record_at number self.new ≡ None }
        ensures others { OtherRecordsStay number self.old self.new }
    {
        if !is_undisturbed(drawn) {
            self.shown.set_ownerless(number);
            return;
        }
        if !self.shown.is_first(number) {
            self.shown.set_ownerless(number);
            return;
        }
        match self.keep(number) {
            Keep::Behind => self.shown.set_ownerless(number),
            Keep::Absent | Keep::Passed => {
                self.shown.take_out(0);
            }
        }
    }

    /// Whether a bar's rows are kept: if they are the first that are live.
    fn keep(&mut self, number: u64) -> Keep
        ensures shown { self.new.shown ≡ self.old.shown }
        ensures keeps { Keeps T.view false self.old self.new }
        ensures kept { (mark : ℕ) (s : BoardState (BarRecord K)) → IsIn mark self.old s →
            let columns = (target_of (known T.view self.old)).columns in
            let lists = kept_of columns number s.lists in
            (result ≡ fate number s.lists) × IsIn mark self.new (record s { lists = lists }) × RestsOn columns s.lists lists }
    {
        match &mut self.stage.engine {
            Some(engine) => engine.keep(number),
            None => Keep::Absent,
        }
    }
}
