//! How bars enter a board's order.
ghost use Rattle.std.specs.Prelude.{◌≡◌, ◌≤◌, ℕ, None, false, Some, Err, IsFalse, IfOk, IfErr, MatchResult};
ghost use Rattle.std.specs.VecDeque.{deque_len};
ghost use Rattle.indicatif_bar.specs.Commands.{BarRecord};
ghost use Rattle.indicatif_bar.specs.Machines.{Target, Leads};
ghost use Rattle.indicatif_bar.specs.Runs.{wrote};
ghost use Rattle.indicatif_board.specs.BoardBars.{board_bars};
ghost use Rattle.indicatif_board.specs.Boards.{BoardState, Location, End, Index, FromBack, Before, After, anchor_turned_away, drawn_of, index_of, inserted, board};
ghost use Rattle.indicatif_board.specs.BarIds.{id_of};
ghost use Rattle.indicatif_board.specs.Calls.{entrant_of, given, place_at, IsForeign};
ghost use Rattle.indicatif_board.specs.Insertions.{Inserts, HasAnchor};
ghost use Rattle.indicatif_board.specs.Inside.Insertions.{LacksAnchor};
ghost use Rattle.indicatif_board.specs.Multi.{IsIn, EntersAbsent, TurnsAway, Keeps, mark_of, seat_in, RecordsTake, SlotsTake, slots_of};

use crate::bar_id::BarId;
use crate::calls::{Candidate, InsertLocation, Turned};
use crate::multi::Board;
use indicatif_bar::style::Tracks;
use indicatif_term::target::TermLike;
use indicatif_text::columns::Refusal;

impl<K: Tracks, T: TermLike + Drop> Board<K, T> {
    /// Inserts a bar after all others. One that is there already keeps its place.
    ///
    /// Refused, with the candidate handed back and nothing changed: `ForeignBar` or `NotMember` for a bar that is not this board's;
    /// `Memory`, also if there is no number left below 2^64.
    pub fn add(&mut self, candidate: Candidate<K>) -> Result<BarId, Turned<K>>
        ensures { Inserts K.means T.view End candidate result self.old self.new }
    {
        self.insert_by(InsertLocation::End, candidate)
    }

    /// Inserts a bar after the first `index` bars, or after all others if there are fewer. One that is there already keeps its place.
    ///
    /// Refused: as `add`.
    pub fn insert(&mut self, index: usize, candidate: Candidate<K>) -> Result<BarId, Turned<K>>
        ensures { Inserts K.means T.view (Index index) candidate result self.old self.new }
    {
        self.insert_by(InsertLocation::Index(index), candidate)
    }

    /// Inserts a bar before the last `count` bars, or before all others if there are fewer. One that is there already keeps its place.
    ///
    /// Refused: as `add`.
    pub fn insert_from_back(
        &mut self,
        count: usize,
        candidate: Candidate<K>,
    ) -> Result<BarId, Turned<K>>
        ensures { Inserts K.means T.view (FromBack count) candidate result self.old self.new }
    {
        self.insert_by(InsertLocation::FromBack(count), candidate)
    }

    /// Inserts a bar right before the anchor. One that is there already keeps its place.
    ///
    /// Refused, with the candidate handed back and nothing changed: `ForeignBar` or `NotMember` for the anchor, then as `add`.
    pub fn insert_before(
        &mut self,
        anchor: BarId,
        candidate: Candidate<K>,
    ) -> Result<BarId, Turned<K>>
        ensures { Inserts K.means T.view (Before (id_of anchor)) candidate result self.old self.new }
    {
        self.insert_by(InsertLocation::Before(anchor), candidate)
    }

    /// Inserts a bar right after the anchor. One that is there already keeps its place.
    ///
    /// Refused: as `insert_before`.
    pub fn insert_after(
        &mut self,
        anchor: BarId,
        candidate: Candidate<K>,
    ) -> Result<BarId, Turned<K>>
        ensures { Inserts K.means T.view (After (id_of anchor)) candidate result self.old self.new }
    {
        self.insert_by(InsertLocation::After(anchor), candidate)
    }

    /// Inserts a bar at a place.
    pub(super) fn insert_by(
        &mut self,
        at: InsertLocation,
        candidate: Candidate<K>,
    ) -> Result<BarId, Turned<K>>
        ensures { Inserts K.means T.view (place_at at) candidate result self.old self.new }
    {
        match self.seat(at) {
            Ok(seat) => self.insert_at(seat, candidate),
            Err(refusal) => Err(Turned { candidate, refusal }),
        }
    }

    /// How many bars stand before a place. If it has an anchor, that is looked for.
    fn seat(&self, at: InsertLocation) -> Result<usize, Refusal>
        ensures within { IfOk result (λ seat. seat ≤ deque_len self.now.shown.members) }
        ensures seat { IfOk result (λ seat. seat ≡ seat_in (place_at at) (slots_of self.now).order) }
        ensures found { (mark : ℕ) (s : BoardState (BarRecord K)) → IsIn mark self.now s →
            MatchResult result (λ seat. (anchor_turned_away mark (place_at at) s ≡ None) × (seat ≡ index_of (place_at at) s.members))
            (λ e. anchor_turned_away mark (place_at at) s ≡ Some e) }
        ensures anchor { MatchResult result (λ _. HasAnchor self.now (place_at at)) (λ e. LacksAnchor self.now (place_at at) e) }
        ensures quiet { IfErr result (λ e. IsFalse (wrote (Err e))) }
    {
        let bars = self.shown.members.len();
        match at {
            InsertLocation::End => Ok(bars),
            InsertLocation::Index(index) => Ok(index.min(bars)),
            InsertLocation::FromBack(count) => Ok(bars.saturating_sub(count)),
            InsertLocation::Before(anchor) => self.find(anchor),
            InsertLocation::After(anchor) => match self.find(anchor) {
                Ok(at) => Ok(at + 1),
                Err(refusal) => Err(refusal),
            },
        }
    }

    /// Inserts a bar after the first `at` bars.
    fn insert_at(&mut self, at: usize, candidate: Candidate<K>) -> Result<BarId, Turned<K>>
        requires within { at ≤ deque_len self.old.shown.members }
        ensures keeps { Keeps T.view false self.old self.new }
        ensures turned { IfErr result (λ t. t.candidate ≡ candidate) }
        ensures quiet { IsFalse (wrote (drawn_of (given result))) }
        ensures foreign { IsForeign (mark_of self.old) (entrant_of candidate) → TurnsAway Refusal.ForeignBar (given result) self.old self.new }
        ensures not_member { EntersAbsent self.old (entrant_of candidate) → TurnsAway Refusal.NotMember (given result) self.old self.new }
        ensures records { RecordsTake (entrant_of candidate) (given result) self.old self.new }
        ensures slot { (spot : Location) → at ≡ seat_in spot (slots_of self.old).order → SlotsTake spot (entrant_of candidate) (given result) self.old self.new }
        ensures inserted { (mark : ℕ) (s : BoardState (BarRecord K)) (spot : Location) → IsIn mark self.old s → at ≡ index_of spot s.members →
            (next : BoardState (BarRecord K)) × IsIn mark self.new next × (next.lists ≡ s.lists)
            × ((target : Target) → Leads (board (board_bars K.means) mark) target s (inserted mark spot (entrant_of candidate) s) (given result) next) }
    {
        match candidate {
            Candidate::Member(id) => match self.find(id) {
                Ok(_) => Ok(id),
                Err(refusal) => {
                    let candidate = Candidate::Member(id);
                    Err(Turned { candidate, refusal })
                }
            },
            Candidate::New(bar) => match self.shown.take_in(at, bar) {
                Ok(number) => {
                    let mark = self.mark;
                    Ok(BarId { mark, number })
                }
                Err(bar) => {
                    let candidate = Candidate::New(bar);
                    let refusal = Refusal::Memory;
                    Err(Turned { candidate, refusal })
                }
            },
        }
    }
}
