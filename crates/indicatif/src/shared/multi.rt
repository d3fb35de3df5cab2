//! Several bars on one target, which threads share.
ghost use Rattle.std.specs.Prelude.{◌≡◌, ◌⊎◌, Err, IfErr, IfSome, Option, option_map};
ghost use Rattle.indicatif_board.specs.Recorded.{IsOneRun, Record};
ghost use Rattle.indicatif.specs.Fronts.{CanClear, CanDraw, IsMissing, MemoryOrForeign};
ghost use Rattle.indicatif.specs.Receipts.{IsReceipt};

use crate::shared::ProgressBar;
use crate::shared::any_board::AnyBoard;
use crate::shared::board_cell::{BoardCell, SharedBoard};
use crate::shared::locked_board::LockedBoard;
use indicatif_bar::style::{NoTracker, Tracks};
use indicatif_board::multi::{Board, Call, InsertLocation, Receipt, Recorded};
use indicatif_term::target::{MultiProgressAlignment, ProgressDrawTarget, Setup, TermLike};
use indicatif_text::columns::{Clock, Drawn, Refusal};
use std::alloc::{AllocError, Global};
use std::fmt::{self, Debug, Formatter};
use std::sync::{Arc, Wait};

/// A board that threads share: several bars on one target, in an order. A clone is the same board.
///
/// Each call locks the board, makes the same call of the `Board` in it, at the moment of the board's clock, and returns its answer; what a
/// call does and refuses is described there. A bar's own calls use the bar's clock. A call of a bar takes the bar's lock first and then the
/// board's; no call takes them in the other order.
///
/// Boards are told apart by their marks alone: give boards that exist at the same time different marks.
///
/// Only a board that keeps its history (`recorded`) takes memory for each call: one entry. If its history has no room, the call returns
/// `Memory`, and nothing has changed. On any other board a call takes what `Board` says.
///
/// The clauses say which answers a call can give, whatever the board is. They don't see which boards keep a history, so they allow `Memory`
/// for each call. That the board under the lock changes accordingly is tested, not proved.
///
/// ```
/// let board = MultiProgress::new(rt, rt.alloc(), setup, 1)?;
/// let bar = board.add(ProgressBar::hidden(rt, rt.alloc(), clock)?)?;
/// board.println("a.txt")?; // stands above the bars from now on
/// ```
pub struct MultiProgress<
    T: TermLike + Drop,
    C: Clock + Drop,
    R: Wait + Clone + Drop,
    K: Tracks = NoTracker,
> {
    pub(crate) board: SharedBoard<K, T, C>,
    pub(crate) alloc: Global,
    pub(crate) rt: R,
}

impl<T: TermLike + Drop, C: Clock + Drop, R: Wait + Clone + Drop, K: Tracks> Drop
    for MultiProgress<T, C, R, K> {
    fn drop(self) {
        let MultiProgress {
            board: _,
            alloc: _,
            rt: _,
        } = self;
    }
}

/// Boards whose bars have no keys of your own.
impl<T: TermLike + Drop, C: Clock + Drop, R: Wait + Clone + Drop> MultiProgress<T, C, R> {
    /// A board without bars, with this mark. It writes nothing yet. Add bars with `new_bar`, `new_spinner` and `add`.
    ///
    /// Refused: `Memory`; nothing is made, and the arguments are dropped.
    pub fn new(rt: R, alloc: Global, setup: Setup<T, C>, mark: u64) -> Result<Self, Refusal>
        ensures { IfErr result (λ e. e ≡ Refusal.Memory) }
    {
        let Setup { target, clock } = setup;
        MultiProgress::with_draw_target(rt, alloc, target, clock, mark)
    }

    /// A board without bars on this target, with this clock and this mark.
    ///
    /// Refused: `Memory`; nothing is made, and the arguments are dropped.
    pub fn with_draw_target(
        rt: R,
        alloc: Global,
        target: ProgressDrawTarget<T>,
        clock: C,
        mark: u64,
    ) -> Result<Self, Refusal>
        ensures { IfErr result (λ e. e ≡ Refusal.Memory) }
    {
        MultiProgress::keyed(rt, alloc, Setup { target, clock }, mark)
    }

    /// A board as `new` makes it, but it keeps its history, which grows with each call; `with_record` lends it.
    ///
    /// Refused: `Memory`; nothing is made, and the arguments are dropped.
    pub fn recorded(
        rt: R,
        alloc: Global,
        target: ProgressDrawTarget<T>,
        clock: C,
        mark: u64,
    ) -> Result<Self, Refusal>
        ensures { IfErr result (λ e. e ≡ Refusal.Memory) }
    {
        MultiProgress::keyed_recorded(rt, alloc, Setup { target, clock }, mark)
    }
}

impl<T: TermLike + Drop, C: Clock + Drop, R: Wait + Clone + Drop, K: Tracks> MultiProgress<
    T,
    C,
    R,
    K,
> {
    /// A board as `new` makes it, for bars whose styles have keys of your own.
    ///
    /// ```
    /// let board: Several<R> = MultiProgress::keyed(rt, alloc, setup(alloc)?, 1)?; // MultiProgress<InMemoryTerm, StepClock, R, Left>
    /// ```
    ///
    /// Refused: `Memory`; nothing is made, and the arguments are dropped.
    pub fn keyed(rt: R, alloc: Global, setup: Setup<T, C>, mark: u64) -> Result<Self, Refusal>
        ensures { IfErr result (λ e. e ≡ Refusal.Memory) }
    {
        let Setup { target, clock } = setup;
        let board = AnyBoard::Open(Board::new(alloc, target, mark));
        MultiProgress::shared(rt, alloc, LockedBoard::new(board, clock))
    }

    /// A board as `keyed` makes it, but it keeps its history, which grows with each call; `with_record` lends it.
    ///
    /// Refused: `Memory`; nothing is made, and the arguments are dropped.
    pub fn keyed_recorded(
        rt: R,
        alloc: Global,
        setup: Setup<T, C>,
        mark: u64,
    ) -> Result<Self, Refusal>
        ensures { IfErr result (λ e. e ≡ Refusal.Memory) }
    {
        let Setup { target, clock } = setup;
        let board = AnyBoard::Recorded(Recorded::new(alloc, target, mark));
        MultiProgress::shared(rt, alloc, LockedBoard::new(board, clock))
    }

    /// The allocator of the board's texts.
    pub(crate) fn alloc(&self) -> Global {
        self.alloc
    }

    /// Its board, the allocator of its texts, and its runtime.
    pub(crate) fn into_parts(self) -> (SharedBoard<K, T, C>, Global, R)
        ensures { (result.0 ≡ self.board) × (result.1 ≡ self.alloc) × (result.2 ≡ self.rt) }
    {
        let MultiProgress { board, alloc, rt } = self;
        (board, alloc, rt)
    }

    /// A board that threads share, put into its lock.
    fn shared(rt: R, alloc: Global, board: LockedBoard<K, T, C>) -> Result<Self, Refusal>
        ensures { IfErr result (λ e. e ≡ Refusal.Memory) }
    {
        match Arc::new(alloc, BoardCell::new(board)) {
            Ok(board) => Ok(MultiProgress { board, alloc, rt }),
            Err(_) => Err(Refusal::Memory),
        }
    }

    /// Adds a bar after all others, and returns its owner. A bar that stood alone leaves its target, and what it drew there stays. A bar
    /// that is already on this board keeps its place.
    ///
    /// Refused: `ForeignBar` for a bar of another board; `NotMember` if that board has the same mark, or if the bar was lost to such a
    /// board; `Memory`. Then the board is unchanged, and this owner is dropped as by `ProgressBar::release`: if it was the only one, its
    /// bar is finished by its stored finish, and leaves the board that has it.
    ///
    /// ```
    /// let bar = board.add(bar)?; // it is drawn among the board's bars from now on
    /// ```
    pub fn add(&self, bar: ProgressBar<T, C, R, K>) -> Result<ProgressBar<T, C, R, K>, Refusal>
        ensures { IfErr result IsMissing }
    {
        self.take_in(InsertLocation::End, bar)
    }

    /// Inserts a bar after the first `index` bars, or after all others if there are fewer; otherwise as `add`.
    pub fn insert(
        &self,
        index: usize,
        bar: ProgressBar<T, C, R, K>,
    ) -> Result<ProgressBar<T, C, R, K>, Refusal>
        ensures { IfErr result IsMissing }
    {
        self.take_in(InsertLocation::Index(index), bar)
    }

    /// Inserts a bar before the last `count` bars, or before all others if there are fewer; otherwise as `add`.
    pub fn insert_from_back(
        &self,
        count: usize,
        bar: ProgressBar<T, C, R, K>,
    ) -> Result<ProgressBar<T, C, R, K>, Refusal>
        ensures { IfErr result IsMissing }
    {
        self.take_in(InsertLocation::FromBack(count), bar)
    }

    /// Inserts a bar right before the anchor; otherwise as `add`.
    ///
    /// Also refused: `ForeignBar` for an anchor of another board, `NotMember` for an anchor that stands alone.
    pub fn insert_before(
        &self,
        anchor: &ProgressBar<T, C, R, K>,
        bar: ProgressBar<T, C, R, K>,
    ) -> Result<ProgressBar<T, C, R, K>, Refusal>
        ensures { IfErr result IsMissing }
    {
        match anchor.id() {
            Some(id) => self.take_in(InsertLocation::Before(id), bar),
            None => Err(Refusal::NotMember),
        }
    }

    /// Inserts a bar right after the anchor; otherwise as `insert_before`.
    pub fn insert_after(
        &self,
        anchor: &ProgressBar<T, C, R, K>,
        bar: ProgressBar<T, C, R, K>,
    ) -> Result<ProgressBar<T, C, R, K>, Refusal>
        ensures { IfErr result IsMissing }
    {
        match anchor.id() {
            Some(id) => self.take_in(InsertLocation::After(id), bar),
            None => Err(Refusal::NotMember),
        }
    }

    /// Inserts a bar at a place of the board's order.
    #[tactic(auto, using(crate::proofs::FrontLemmas::memory_missing))]
    fn take_in(
        &self,
        at: InsertLocation,
        bar: ProgressBar<T, C, R, K>,
    ) -> Result<ProgressBar<T, C, R, K>, Refusal>
        ensures { IfErr result IsMissing }
    {
        let Ok(board) = Arc::try_clone(&self.board) else {
            return Err(Refusal::Memory);
        };
        bar.take_in(board, at)?;
        Ok(bar)
    }

    /// Removes a bar from the order: it stands alone afterwards, and is hidden. Its rows stay until the next draw. A bar that stands alone
    /// is unchanged.
    ///
    /// Refused: `ForeignBar` for a bar of another board; `Memory`, only on a board that keeps its history, if that has no room. Then
    /// nothing has changed.
    pub fn remove(&self, bar: &ProgressBar<T, C, R, K>) -> Result<(), Refusal>
        ensures { IfErr result MemoryOrForeign }
    {
        bar.take_out(&self.board)
    }

    /// Writes the text's lines above the bars, whatever the rate says; the bars go on below them. On a hidden target the text is dropped:
    /// `println_or` writes it elsewhere there.
    ///
    /// Refused: as `Board::println`; `Memory` also if a board that keeps its history has no room for the call. Then nothing has changed.
    #[tactic(auto, unfolding(crate::specs::Inside::SharedBoards::SharedDraws))]
    pub fn println(&self, text: &str) -> Result<Drawn, Refusal>
        ensures { CanDraw result }
    {
        let mut locked = self.board.turn(&self.rt);
        let now = locked.now();
        locked.board.println(text, self.alloc, now)
    }

    /// Writes the text's lines above the bars, as `println`, and returns a receipt of the entry that the board's history keeps of it,
    /// whatever was answered; `None` where the board keeps no history, or this has no room for the entry. The history tells whether it
    /// holds a receipt (`Recorded::holds`), also once other threads have logged: to one who asks in `with_record`, or behind `into_inner`.
    /// What follows then says law `what_a_receipt_says`.
    ///
    /// ```
    /// let (drawn, receipt) = board.println_with_receipt("a.txt");
    /// ```
    ///
    /// Refused: as `println`; `Memory` also where there is no room for the receipt. Nothing has changed then.
    #[tactic(auto, unfolding(crate::specs::Inside::SharedBoards::SharedDraws))]
    pub fn println_with_receipt(&self, text: &str) -> (Result<Drawn, Refusal>, Option<Receipt>)
        ensures drawn { CanDraw result.0 }
        ensures receipt { IfSome result.1 (IsReceipt T K.means text.now result.0) }
    {
        let mut locked = self.board.turn(&self.rt);
        let now = locked.now();
        locked.board.println_with_receipt(text, self.alloc, now)
    }

    /// Clears the bars' rows, whatever the rate says. The next draw shows the bars again, but for those that were dropped.
    ///
    /// Refused: as `Board::clear`, which takes no memory; `Memory`, only on a board that keeps its history, if that has no room. Then
    /// nothing has changed.
    #[tactic(auto, unfolding(crate::specs::Inside::SharedBoards::SharedDraws))]
    pub fn clear(&self) -> Result<Drawn, Refusal>
        ensures { CanClear result }
    {
        let mut locked = self.board.turn(&self.rt);
        let now = locked.now();
        locked.board.draw(Call::Clear, now)
    }

    /// Clears the bars' rows, calls `f` once, and forces a draw, at the moment of the clear. It returns what `f` returned, and the answer
    /// of the draw. If the clear was refused, `f` is still called, no draw is made, and the answer is that refusal.
    ///
    /// It is a pause of the board. Meanwhile the readings of the board and of its bars answer, also inside `f`. A call that draws, or
    /// changes a bar or how the board is drawn, waits for the end of the pause: a call from another thread goes on then; one inside `f`, of
    /// this board or of any bar of it, deadlocks. So do another pause of this board inside `f`, and the drop of a bar's last owner.
    /// Inserting and removing bars and setting a steady ticker don't wait, and nothing is drawn before the pause ends.
    ///
    /// ```
    /// let (position, drawn) = board.suspend(move || other.position()); // another owner of the bar
    /// ```
    pub fn suspend<F: FnOnce() -> A, A>(&self, f: F) -> (A, Result<Drawn, Refusal>)
        requires { F.pre f }
        ensures value { F.post f result.0 }
        ensures drawn { CanDraw result.1 }
    {
        self.board.suspend(&self.rt, f)
    }

    /// Sets whether the next draws put the bars at the top or at the bottom of the rows that they clear.
    ///
    /// Refused: `Memory`, only on a board that keeps its history, if that has no room; then nothing has changed.
    #[tactic(auto, using(crate::proofs::AnswerLemmas::aligned_so))]
    pub fn set_alignment(&self, alignment: MultiProgressAlignment) -> Result<(), Refusal>
        ensures { IfErr result (λ e. e ≡ Refusal.Memory) }
    {
        let mut locked = self.board.turn(&self.rt);
        let now = locked.now();
        locked.board.draw(Call::Align(alignment), now)?;
        Ok(())
    }

    /// Sets the target. The bars begin there with their next draw, and the old target is dropped. Nothing is written to either.
    ///
    /// Refused: `RecordedTarget` on a board that keeps its history; then nothing has changed, and the new target is dropped.
    pub fn set_draw_target(&self, target: ProgressDrawTarget<T>) -> Result<(), Refusal>
        ensures { IfErr result (λ e. e ≡ Refusal.RecordedTarget) }
    {
        self.board.turn(&self.rt).board.set_draw_target(target)
    }

    /// Clears the bars' rows and sets the target, in one call: no other thread draws on the old target in between, and nothing of the bars
    /// stays there. The bars begin on the new target with their next draw; the old one is dropped. The answer is that of the clear;
    /// whatever it is, the board stands on the new target.
    ///
    /// ```
    /// board.move_to(ProgressDrawTarget::hidden())?; // the bars are gone from the terminal
    /// ```
    ///
    /// Refused: as `clear`; `RecordedTarget` on a board that keeps its history: then nothing has changed, and the new target is dropped.
    pub fn move_to(&self, target: ProgressDrawTarget<T>) -> Result<Drawn, Refusal>
        ensures { CanClear result ⊎ (result ≡ Err Refusal.RecordedTarget) }
    {
        let mut locked = self.board.turn(&self.rt);
        let now = locked.now();
        locked.board.move_to(target, now)
    }

    /// Sets whether draws write the bars' lines over the old ones, by cursor moves alone: up to the first row, to its front, and each line
    /// with the spaces that fill its last row. It is off at first, and off again on another target. A draw ignores it if the screen would
    /// differ: if it has fewer rows than the last one, or a row that ends early for a wide character. Logs and clears ignore it, too. On a
    /// hidden target this does nothing.
    ///
    /// ```
    /// board.set_move_cursor(true)?; // for a terminal that flickers where rows are emptied
    /// ```
    ///
    /// Refused: `RecordedTarget` on a board that keeps its history; then nothing has changed.
    pub fn set_move_cursor(&self, on: bool) -> Result<(), Refusal>
        ensures { IfErr result (λ e. e ≡ Refusal.RecordedTarget) }
    {
        self.board.turn(&self.rt).board.set_move_cursor(on)
    }

    /// Whether the board's target is hidden: nothing is drawn until another is set.
    pub fn is_hidden(&self) -> bool {
        self.board.lock(&self.rt).board.as_board().is_hidden()
    }

    /// Lends the terminal to `f` under the lock; `None` if the target is hidden. A call of this board inside `f`, or of any bar of it,
    /// deadlocks.
    pub fn with_term<F: FnOnce(Option<&T>) -> A, A>(&self, f: F) -> A
        requires { F.IsAlwaysCallable f }
        ensures { (shown : _) × F.post f shown result }
    {
        let locked = self.board.lock(&self.rt);
        let shown = locked.board.as_board().term();
        f(shown)
    }

    /// Lends the board with its history to the reader under the lock; `None` if it keeps none. The history is one run, and the reader
    /// states what it finds in it (`RecordReader`). A call of this board inside the reader, or of any bar of it, deadlocks.
    pub fn with_record<F: RecordReader<T, K>>(&self, reader: F) -> F::Found
        ensures { (history : Option (Record K T)) × IfSome history (λ r. IsOneRun K.means r) × F.finds reader history result }
    {
        let locked = self.board.lock(&self.rt);
        reader.read(locked.board.as_recorded())
    }
}

/// Bars that are made for the board, each with a copy of the board's clock.
impl<T: TermLike + Drop, C: Clock + Clone + Drop, R: Wait + Clone + Drop, K: Tracks> MultiProgress<
    T,
    C,
    R,
    K,
> {
    /// A bar with this length after all others, in the style `{wide_bar} {pos}/{len}`, which draws nothing yet. Keep the owner as long as
    /// the bar should be visible: dropping the last one clears a bar that wasn't finished.
    ///
    /// ```
    /// let bar = board.new_bar(100)?;
    /// ```
    ///
    /// Refused: `Memory`; then nothing has changed.
    pub fn new_bar(&self, len: u64) -> Result<ProgressBar<T, C, R, K>, Refusal>
        ensures { IfErr result (λ e. e ≡ Refusal.Memory) }
    {
        let Ok((rt, setup)) = self.setup() else {
            return Err(Refusal::Memory);
        };
        match ProgressBar::plain(rt, self.alloc, Some(len), setup) {
            Ok(bar) => self.add_new(bar),
            Err(_) => Err(Refusal::Memory),
        }
    }

    /// A bar without a length after all others, in the style `{spinner} {msg}`, which draws nothing yet.
    ///
    /// Refused: `Memory`; then nothing has changed.
    pub fn new_spinner(&self) -> Result<ProgressBar<T, C, R, K>, Refusal>
        ensures { IfErr result (λ e. e ≡ Refusal.Memory) }
    {
        let Ok((rt, setup)) = self.setup() else {
            return Err(Refusal::Memory);
        };
        match ProgressBar::spinning(rt, self.alloc, setup) {
            Ok(bar) => self.add_new(bar),
            Err(_) => Err(Refusal::Memory),
        }
    }

    /// Adds a new bar after all others: it is on no board, so only memory can be refused to it.
    fn add_new(&self, bar: ProgressBar<T, C, R, K>) -> Result<ProgressBar<T, C, R, K>, Refusal>
        ensures { IfErr result (λ e. e ≡ Refusal.Memory) }
    {
        match self.add(bar) {
            Ok(bar) => Ok(bar),
            Err(_) => Err(Refusal::Memory),
        }
    }

    /// The setup of a bar that is on no board yet.
    fn setup(&self) -> Result<(R, Setup<T, C>), Refusal>
        ensures { IfErr result (λ e. e ≡ Refusal.Memory) }
    {
        let clock = self.board.lock(&self.rt).clock()?;
        let rt = self.rt.clone()?;
        let target = ProgressDrawTarget::hidden();
        Ok((rt, Setup { target, clock }))
    }
}

/// Reads a board's history: a closure as a type, with its captures as fields. What it is lent is a history of one run, from the board's
/// opening on (`IsOneRun`), whichever threads made the calls. The law `what_a_history_says` says what follows from that; your own type,
/// with an invariant, takes it out of the lock.
///
/// ```
/// #[derive(Drop)]
/// struct Length;
///
/// impl<T: TermLike + Drop, K: Tracks> RecordReader<T, K> for Length {
///     type Found = usize;
///
///     fn read(self, record: Option<&Recorded<K, T>>) -> usize {
///         record.map_or(0, |record| record.entries().len())
///     }
/// }
/// ```
pub trait RecordReader<T: Drop, K: Tracks> {
    ghost use Rattle.std.specs.Prelude.{Option};
    ghost use Rattle.indicatif_board.specs.Recorded.{Record};

    /// The type of what it finds.
    type Found;

    /// What it states about what it finds in a history, if there is one; nothing by default.
    ghost finds: { Self → Option (Record K T) → Self.Found → Type 0 } = { λ _ _ _. Unit {0} };

    /// What a `RecordReader` finds in the history that it is lent, if there is one.
    fn read(self, history: Option<&Recorded<K, T>>) -> Self::Found
        requires { IfSome history (λ r. IsOneRun K.means r.now) }
        ensures { finds self (option_map (λ r. r.now) history.entry) result };
}

/// The same board. Refused: want of memory.
impl<T: TermLike + Drop, C: Clock + Drop, R: Wait + Clone + Drop, K: Tracks> Clone
    for MultiProgress<T, C, R, K> {
    fn clone(&self) -> Result<MultiProgress<T, C, R, K>, AllocError> {
        Ok(MultiProgress {
            board: Arc::try_clone(&self.board)?,
            alloc: self.alloc,
            rt: self.rt.clone()?,
        })
    }
}

impl<T: TermLike + Drop, C: Clock + Drop, R: Wait + Clone + Drop, K: Tracks> Debug
    for MultiProgress<T, C, R, K> {
    fn fmt<W: fmt::Write>(&self, f: &mut Formatter<W>) -> fmt::Result {
        f.write_str("MultiProgress")
    }
}
