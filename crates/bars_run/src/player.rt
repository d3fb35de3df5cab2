//! A board in memory, and the effect of a command on it.
ghost use Rattle.std.specs.Prelude.{◌≡◌, ◌⊎◌, ℕ, suc, [], map, Some, IfErr, IfOk, IfSome, OnOk, string_bytes};
ghost use Rattle.indicatif_term.specs.Cells.{view_of};
ghost use Rattle.indicatif_term.specs.Pictures.{picture_text};
ghost use Rattle.indicatif_bar.specs.Scripts.{Size as NewSize};
ghost use Rattle.indicatif_bar.specs.Trackers.{writes_nothing};
ghost use Rattle.indicatif_board.specs.Boards.{Refused};
ghost use Rattle.indicatif_board.specs.BarIds.{id_of};
ghost use Rattle.indicatif_board.specs.Bridge.{bridge_bytes};
ghost use Rattle.indicatif_board.specs.Calls.{call_of as call_as};
ghost use Rattle.indicatif_board.specs.Multi.{LeadsBy, terminal_of};
ghost use Rattle.bars_run.specs.Arguments.{HasCells};
ghost use Rattle.bars_run.specs.Commands.{Add, Log, Warn, OfBar, command_of, action_of};
ghost use Rattle.bars_run.specs.Player.{bar_at, bar_with_message as saying, call_on, calling};
ghost use Rattle.bars_run.specs.Inside.Players.{Obeys, Makes, HasPlayed};

use crate::arguments::{Asked, Size};
use crate::commands::{BarAction, Command};
use indicatif_bar::state::{BarCommand, BarState, ProgressFinish};
use indicatif_bar::style::{NoTracker, ProgressStyle};
use indicatif_board::bridge::bridge_line;
use indicatif_board::multi::{Answer, BarId, Board, Call, Candidate, InsertLocation};
use indicatif_term::cells::InMemoryTerm;
use indicatif_term::target::ProgressDrawTarget;
use indicatif_text::columns::{Moment, Refusal};
use indicatif_text::laws::template_or_refused;
use log::Level;
use std::alloc::Global;

/// A board on a terminal in memory, without a limiter, and its number of bars. Everything happens at the moment 0.
#[derive(Drop)]
pub struct Player {
    alloc: Global,
    board: Board<NoTracker, InMemoryTerm>,
    given: u64,
}

/// The board's mark; there is no other board.
const MARK: u64 = 0;

/// The moment of all calls.
const NOW: Moment = 0;

impl Player {
    /// A board without bars on an empty terminal.
    ///
    /// Refused: `ZeroSize` if the terminal would have no cells, or `Memory`.
    pub fn new(alloc: Global, asked: Asked) -> Result<Player, Refusal>
        ensures played { IfOk result (λ player. HasPlayed asked [] player.board) }
        ensures refused { IfErr result (λ e. (e ≡ Refusal.Memory) ⊎ ((e ≡ Refusal.ZeroSize) × (HasCells asked.size → ⊥))) }
    {
        let term = InMemoryTerm::new(alloc, asked.size.rows, asked.size.columns)?;
        let board = Board::new(alloc, ProgressDrawTarget::term_like(term), MARK);
        let mut player = Player {
            alloc,
            board,
            given: 0,
        };
        player.make(Call::Align(asked.alignment))?;
        Ok(player)
    }

    /// Makes a command.
    ///
    /// Refused: as the board, `NotMember` also for a number that was never given, and `Memory`.
    pub fn obey(&mut self, command: Command<'_>) -> Result<(), Refusal>
        ensures { OnOk result (Obeys (command_of command.entry) self.old.board self.new.board) }
    {
        match command {
            Command::Size(size) => self.resize(size),
            Command::Add(text) => self.add(text),
            Command::Log(text) => self.log(text),
            Command::Warn(text) => self.warn(text),
            Command::Clear => self.make(Call::Clear),
            Command::Bar(number, action) => self.tell(number, action),
        }
    }

    /// The rows that scrolled away, then those of the window, each without the blanks at its end.
    pub fn picture(&self) -> Result<Vec<String>, Refusal>
        ensures refused { IfErr result (λ e. e ≡ Refusal.Memory) }
        ensures picture { IfOk result (λ rows. IfSome (terminal_of self.now.board) (λ term. map (λ row. string_bytes row) rows.items ≡ picture_text term.terminal.screen)) }
    {
        match self.board.term() {
            Some(term) => term.picture(),
            None => Ok(Vec::new(self.alloc)),
        }
    }

    /// Makes a call of the board.
    fn make(&mut self, call: Call<NoTracker>) -> Result<(), Refusal>
        ensures made { OnOk result (Makes (calling (call_as call)) self.old.board self.new.board) }
        ensures refused { IfErr result (λ e. LeadsBy writes_nothing view_of self.old.board self.new.board (call_as call) 0 (Refused e)) }
    {
        match self.board.call(call, NOW) {
            Answer::Refused(refusal) => Err(refusal),
            Answer::Id(_) => {
                self.given = self.given.saturating_add(1);
                Ok(())
            }
            Answer::Accepted | Answer::Drawn(_) => Ok(()),
        }
    }

    /// Gives the terminal another size.
    fn resize(&mut self, size: Size) -> Result<(), Refusal>
        ensures { OnOk result (Makes (NewSize size.columns size.rows) self.old.board self.new.board) }
    {
        self.board.resize(size.rows, size.columns)
    }

    /// Adds a bar with this message.
    fn add(&mut self, text: &str) -> Result<(), Refusal>
        ensures { OnOk result (Obeys (Add text.now) self.old.board self.new.board) }
    {
        let bar = bar_with_message(self.alloc, text)?;
        self.make(Call::Insert {
            at: InsertLocation::End,
            candidate: Candidate::New(bar),
        })
    }

    /// Logs this text above the bars.
    fn log(&mut self, text: &str) -> Result<(), Refusal>
        ensures { OnOk result (Obeys (Log text.now) self.old.board self.new.board) }
    {
        let line = String::from_str(self.alloc, text)?;
        self.make(Call::Log(line))
    }

    /// Logs a text as a warning.
    fn warn(&mut self, text: &str) -> Result<(), Refusal>
        ensures { OnOk result (Obeys (Warn text.now) self.old.board self.new.board) }
    {
        let line = warning(self.alloc, text)?;
        self.make(Call::Log(line))
    }

    /// Makes an action on the bar with a number.
    fn tell(&mut self, number: Option<u64>, action: BarAction<'_>) -> Result<(), Refusal>
        ensures { OnOk result (Obeys (OfBar number (action_of action.entry)) self.old.board self.new.board) }
    {
        let id = self.id_of(number)?;
        let call = bar_call(self.alloc, id, action)?;
        self.make(call)
    }

    /// The bar with this number, counted from 1.
    fn id_of(&self, number: Option<u64>) -> Result<BarId, Refusal>
        ensures { IfOk result (λ id. (n : ℕ) × (number ≡ Some (suc n)) × (id_of id ≡ bar_at n)) }
    {
        match number {
            Some(number) if 0 < number && number <= self.given => Ok(BarId {
                mark: MARK,
                number: number - 1,
            }),
            _ => Err(Refusal::NotMember),
        }
    }
}

/// The log line of a warning.
fn warning(alloc: Global, text: &str) -> Result<String, Refusal>
    ensures { IfOk result (λ line. string_bytes line ≡ bridge_bytes Level.Warn text.now) }
{
    let mut line = String::new(alloc);
    bridge_line(Level::Warn, text, &mut line)?;
    Ok(line)
}

/// The board's call for an action on a bar.
fn bar_call(alloc: Global, id: BarId, action: BarAction<'_>) -> Result<Call<NoTracker>, Refusal>
    ensures { IfOk result (λ call. call_as call ≡ call_on (id_of id) (action_of action.entry)) }
{
    let command = match action {
        BarAction::Drop => return Ok(Call::Drop(id)),
        BarAction::Remove => return Ok(Call::Remove(id)),
        BarAction::Message(text) => BarCommand::SetMessage(String::from_str(alloc, text)?),
        BarAction::Tick => BarCommand::Tick,
        BarAction::Finish => BarCommand::Finish(ProgressFinish::AndLeave),
        BarAction::Hide => BarCommand::Finish(ProgressFinish::AndClear),
        BarAction::Abandon => BarCommand::Finish(ProgressFinish::Abandon),
    };
    Ok(Call::Bar(id, command))
}

/// A bar that shows this message.
fn bar_with_message(alloc: Global, text: &str) -> Result<BarState<NoTracker>, Refusal>
    ensures { IfOk result (λ bar. bar ≡ saying text.now) }
{
    let style = ProgressStyle::with_template(alloc, "{msg}")?;
    let mut bar = BarState::styled(alloc, style, None, NOW)?;
    bar.with_message(text, NOW)?;
    template_or_refused();
    Ok(bar)
}
