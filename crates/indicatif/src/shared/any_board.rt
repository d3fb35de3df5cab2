//! A board without its history, or with it.
ghost use Rattle.std.specs.Prelude.{◌≡◌, ◌⊎◌, ℕ, Some, None, IfOk, IfErr, IfSome, Ok, Err, MatchResult};
ghost use Rattle.indicatif_bar.specs.LoneBars.{lone_call_as};
ghost use Rattle.indicatif_board.specs.Boards.{Insert, Log, Remove, Refused, drawn_of};
ghost use Rattle.indicatif_board.specs.BarIds.{id_of};
ghost use Rattle.indicatif_board.specs.Calls.{call_of, answer_of, entrant_of, place_at};
ghost use Rattle.indicatif_board.specs.Recorded.{IsOneRun};
ghost use Rattle.indicatif.specs.Fronts.{CanClear};
ghost use Rattle.indicatif.specs.Receipts.{IsReceipt};
ghost use Rattle.indicatif.specs.Inside.AnyBoard.{BoardMakes, BoardDraws, BoardRemoves, BoardTakes, BoardTurns, BoardMoves, BoardMovesTo, refused_with};
ghost use Rattle.indicatif_board.specs.LoneLaws.{on_board};
ghost use Rattle.indicatif.specs.Inside.SharedBoards.{SharedAnswers, SharedDraws, given_by};

use indicatif_bar::lone::LoneCall;
use indicatif_bar::state::{BarState, Text, own_text};
use indicatif_bar::style::Tracks;
use indicatif_board::multi::{
    Answer, BarId, Board, Call, Candidate, InsertLocation, Receipt, Recorded,
};
use indicatif_term::target::{ProgressDrawTarget, TermLike};
use indicatif_text::columns::{Drawn, Moment, Refusal};
use std::alloc::Global;

/// A board, with its history or without.
#[derive(Drop)]
pub enum AnyBoard<K: Tracks, T: Drop> {
    /// It keeps no history.
    Open(Board<K, T>),
    /// It keeps its history.
    Recorded(Recorded<K, T>),
}

/// A call follows one of `order`, or of `replays`, which tells that the board is in some state: clauses speak of that.
impl<K: Tracks, T: TermLike + Drop> AnyBoard<K, T> {
    /// Makes a call of the board there. A bar that is removed or refused is dropped.
    pub fn call(&mut self, call: Call<K>, now: Moment) -> Answer
        ensures made { BoardMakes K.means T.view self.old (call_of call) now (answer_of result) self.new }
        ensures can { SharedAnswers K (call_of call) (answer_of result) }
    {
        match self {
            AnyBoard::Open(board) => {
                board.order();
                board.call(call, now)
            }
            AnyBoard::Recorded(record) => {
                record.replays();
                answer_alone(record.apply(call, now))
            }
        }
    }

    /// Makes a call that draws, of the board there.
    pub fn draw(&mut self, call: Call<K>, now: Moment) -> Result<Drawn, Refusal>
        ensures made { BoardDraws K.means T.view self.old (call_of call) now result self.new }
        ensures can { SharedDraws K (call_of call) result }
    {
        drawn_of(self.call(call, now))
    }

    /// Makes a call of a bar on the board there. Its text is copied, by `alloc`, only if a history keeps it.
    pub fn tell<S: Text>(
        &mut self,
        id: BarId,
        call: LoneCall<K, S>,
        alloc: Global,
        now: Moment,
    ) -> Result<Drawn, Refusal>
        ensures made { BoardDraws K.means T.view self.old (on_board (id_of id) (lone_call_as S.bytes call)) now result self.new }
        ensures can { SharedDraws K (on_board (id_of id) (lone_call_as S.bytes call)) result }
    {
        match self {
            AnyBoard::Open(board) => {
                board.order();
                match call {
                    LoneCall::Bar(command) => board.tell(id, command, now),
                    LoneCall::Log(text) => board.bar_println(id, text.as_text(), now),
                    LoneCall::Clear => board.clear(now),
                }
            }
            AnyBoard::Recorded(_) => {
                let kept = call_of_bar(id, &call, alloc);
                drop(call);
                self.draw_kept(kept, now)
            }
        }
    }

    /// Writes lines of text above the bars of the board there. The text is copied, by `alloc`, only if a history keeps it.
    pub fn println(&mut self, text: &str, alloc: Global, now: Moment) -> Result<Drawn, Refusal>
        ensures made { BoardDraws K.means T.view self.old (Log text.now) now result self.new }
        ensures can { SharedDraws K (Log text.now) result }
    {
        match self {
            AnyBoard::Open(board) => {
                board.order();
                board.println(text, now)
            }
            AnyBoard::Recorded(_) => self.draw_kept(log_of(text, alloc), now),
        }
    }

    /// Logs a text, and hands out a receipt if a history keeps the entry.
    pub fn println_with_receipt(
        &mut self,
        text: &str,
        alloc: Global,
        now: Moment,
    ) -> (Result<Drawn, Refusal>, Option<Receipt>)
        ensures made { BoardDraws K.means T.view self.old (Log text.now) now result.0 self.new }
        ensures can { SharedDraws K (Log text.now) result.0 }
        ensures receipt { IfSome result.1 (IsReceipt T K.means text.now result.0) }
    {
        match self {
            AnyBoard::Open(board) => {
                board.order();
                (board.println(text, now), None)
            }
            AnyBoard::Recorded(record) => logged(record, text, alloc, now),
        }
    }

    /// Makes a call that a history keeps, if there was memory for it: otherwise nothing is done.
    fn draw_kept(&mut self, kept: Result<Call<K>, Refusal>, now: Moment) -> Result<Drawn, Refusal>
        ensures made { IfOk kept (λ call. BoardDraws K.means T.view self.old (call_of call) now result self.new) }
        ensures can { IfOk kept (λ call. SharedDraws K (call_of call) result) }
        ensures refused { IfErr kept (λ e. (result ≡ Err Refusal.Memory) × (self.new ≡ self.old)) }
    {
        match kept {
            Ok(call) => self.draw(call, now),
            Err(_) => Err(Refusal::Memory),
        }
    }

    /// Inserts a bar on the board there.
    pub fn insert(
        &mut self,
        at: InsertLocation,
        candidate: Candidate<K>,
        now: Moment,
    ) -> Result<BarId, Refusal>
        ensures made { MatchResult result (λ id. BoardTakes K.means T.view self.old (place_at at) (entrant_of candidate) now (Ok (id_of id)) self.new)
            (λ e. BoardTakes K.means T.view self.old (place_at at) (entrant_of candidate) now (Err e) self.new) }
        ensures can { IfErr result (λ e. SharedAnswers K (Insert (place_at at) (entrant_of candidate)) (Refused e)) }
    {
        id_given(self.call(Call::Insert { at, candidate }, now))
    }

    /// Removes a bar from the order of the board there and returns it; `None` if it isn't there.
    pub fn remove(&mut self, id: BarId, now: Moment) -> Result<Option<BarState<K>>, Refusal>
        ensures made { MatchResult result (λ _. BoardRemoves K.means T.view self.old (id_of id) now None self.new) (λ e. BoardRemoves K.means T.view self.old (id_of id) now (Some e) self.new) }
        ensures can { IfErr result (λ e. SharedAnswers K (Remove (id_of id)) (Refused e)) }
    {
        match self {
            AnyBoard::Open(board) => {
                board.order();
                board.remove(id)
            }
            AnyBoard::Recorded(record) => {
                record.replays();
                bar_unless_refused(record.apply(Call::Remove(id), now))
            }
        }
    }

    /// Sets the target; the old one is dropped. A board with its history keeps its target.
    pub fn set_draw_target(&mut self, target: ProgressDrawTarget<T>) -> Result<(), Refusal>
        ensures turns { BoardTurns self.old target result self.new }
        ensures refused { IfErr result (λ e. (e ≡ Refusal.RecordedTarget) × (self.new ≡ self.old)) }
    {
        match self {
            AnyBoard::Open(board) => {
                let _ = board.set_draw_target(target);
                Ok(())
            }
            AnyBoard::Recorded(_) => Err(Refusal::RecordedTarget),
        }
    }

    /// Clears the bars' rows and sets the target, whatever the clear answers; the old target is dropped. A board with its history keeps its
    /// rows and its target.
    #[tactic(auto, unfolding(crate::specs::Inside::SharedBoards::SharedDraws))]
    pub fn move_to(&mut self, target: ProgressDrawTarget<T>, now: Moment) -> Result<Drawn, Refusal>
        ensures moves { BoardMovesTo K.means T.view self.old target now result self.new }
        ensures can { CanClear result ⊎ (result ≡ Err Refusal.RecordedTarget) }
    {
        if let AnyBoard::Recorded(_) = self {
            return Err(Refusal::RecordedTarget);
        }
        let cleared = self.draw(Call::Clear, now);
        let _ = self.set_draw_target(target);
        cleared
    }

    /// Sets whether draws write over what stands, by cursor moves alone. A board with its history refuses.
    pub fn set_move_cursor(&mut self, on: bool) -> Result<(), Refusal>
        ensures moves { BoardMoves self.old on result self.new }
        ensures refused { IfErr result (λ e. (e ≡ Refusal.RecordedTarget) × (self.new ≡ self.old)) }
    {
        match self {
            AnyBoard::Open(board) => {
                board.set_move_cursor(on);
                Ok(())
            }
            AnyBoard::Recorded(_) => Err(Refusal::RecordedTarget),
        }
    }

    /// The board there, its history aside.
    pub fn as_board(&self) -> &Board<K, T> {
        match self {
            AnyBoard::Open(board) => board,
            AnyBoard::Recorded(record) => record.board(),
        }
    }

    /// The board with its history, which is one run; `None` if it keeps none.
    pub fn as_recorded(&self) -> Option<&Recorded<K, T>>
        ensures run { IfSome result (λ r. IsOneRun K.means r.now) }
    {
        match self {
            AnyBoard::Open(_) => None,
            AnyBoard::Recorded(record) => {
                record.replays();
                Some(record)
            }
        }
    }
}

/// Lines of text above the bars of a board with its history, and the receipt of its entry; nothing is done where there is no memory for
/// the text.
fn logged<K: Tracks, T: TermLike + Drop>(
    record: &mut Recorded<K, T>,
    text: &str,
    alloc: Global,
    now: Moment,
) -> (Result<Drawn, Refusal>, Option<Receipt>)
    ensures made { BoardDraws K.means T.view (AnyBoard.Recorded record.old) (Log text.now) now result.0 (AnyBoard.Recorded record.new) }
    ensures can { SharedDraws K (Log text.now) result.0 }
    ensures receipt { IfSome result.1 (IsReceipt T K.means text.now result.0) }
{
    record.replays();
    let Ok(text) = String::from_str(alloc, text) else {
        return (Err(Refusal::Memory), None);
    };
    let (answer, receipt) = record.println_with_receipt(text, now);
    record.replays();
    (drawn_of(answer), receipt)
}

/// Lines above the bars, as a value that a history keeps.
fn log_of<K: Tracks>(text: &str, alloc: Global) -> Result<Call<K>, Refusal>
    ensures { IfOk result (λ kept. call_of kept ≡ Log text.now) }
{
    Ok(Call::Log(String::from_str(alloc, text)?))
}

/// A bar's call, as a value that a history keeps, with its own text.
fn call_of_bar<K: Tracks, S: Text>(
    id: BarId,
    call: &LoneCall<K, S>,
    alloc: Global,
) -> Result<Call<K>, Refusal>
    ensures { IfOk result (λ kept. call_of kept ≡ on_board (id_of id) (lone_call_as S.bytes call.now)) }
{
    Ok(match call {
        LoneCall::Bar(command) => Call::Bar(id, command.try_clone(alloc)?),
        LoneCall::Log(text) => Call::BarLog(id, own_text(alloc, text)?),
        LoneCall::Clear => Call::Clear,
    })
}

/// What a board with its history answered.
type Answered<K> = (Answer, Option<BarState<K>>);

/// The answer of a board with its history; a bar that came back is dropped.
fn answer_alone<K: Drop>(answered: Answered<K>) -> Answer
    ensures { result ≡ answered.0 }
{
    answered.0
}

/// The bar that came back, unless the call was refused.
fn bar_unless_refused<K: Drop>(answered: Answered<K>) -> Result<Option<BarState<K>>, Refusal>
    ensures { MatchResult result (λ _. refused_with (answer_of answered.0) ≡ None) (λ e. answered.0 ≡ Answer.Refused e) }
{
    let (answer, bar) = answered;
    match answer {
        Answer::Refused(refusal) => Err(refusal),
        Answer::Id(_) | Answer::Accepted | Answer::Drawn(_) => Ok(bar),
    }
}

/// What an answer says of a draw.
fn drawn_of(answer: Answer) -> Result<Drawn, Refusal>
    ensures { result ≡ drawn_of (answer_of answer) }
{
    match answer {
        Answer::Id(_) | Answer::Accepted => Ok(Drawn::Limited),
        Answer::Drawn(drawn) => Ok(drawn),
        Answer::Refused(refusal) => Err(refusal),
    }
}

/// What an answer says of a bar to insert; an insertion gives a bar or a refusal.
fn id_given(answer: Answer) -> Result<BarId, Refusal>
    ensures ok { IfOk result (λ id. given_by (answer_of answer) ≡ Ok (id_of id)) }
    ensures err { IfErr result (λ e. given_by (answer_of answer) ≡ Err e) }
{
    match answer {
        Answer::Id(id) => Ok(id),
        Answer::Refused(refusal) => Err(refusal),
        Answer::Accepted | Answer::Drawn(_) => Err(Refusal::Memory),
    }
}
