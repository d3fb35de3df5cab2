//! Bars and boards that leave their locks, once they have one owner.
use crate::checks::{Granted, Runtime};
use crate::fronts::{Bar, Shared, alone, bar_on, contents, open, recorded, setup};
use indicatif::{
    Answer, BarCommand, BarId, Call, Drawn, InMemoryTerm, NoTracker, Recorded, Refusal,
    UnlockedBar, UnlockedBoard,
};
use std::thread;

/// Ends the test if something else stands on a terminal.
fn shows<R: Runtime>(rt: &R, term: Option<&InMemoryTerm>, wanted: &str) {
    same!(rt; contents(term).granted(rt).as_str(), wanted);
}

/// The history of a board that has no other owner.
fn history_of<R: Runtime>(rt: &R, board: Shared<R>) -> Recorded<NoTracker, InMemoryTerm> {
    let Ok(UnlockedBoard::Recorded(record)) = board.into_inner() else {
        panic!(*rt; "no history, or another owner")
    };
    let entries = record.entries();
    holds!(rt; entries.len() > 0);
    record
}

/// The number of a bar on its board.
fn number_of<R: Runtime>(rt: &R, bar: Bar<R>) -> BarId {
    match bar.into_inner() {
        Ok(UnlockedBar::OnBoard(id)) => id,
        _ => panic!(*rt; "it stands on no board, or has another owner"),
    }
}

/// Logs a text, and drops the owner.
fn logs_and_goes<R: Runtime>(board: Shared<R>, text: &str) -> Result<Drawn, Refusal> {
    let drawn = board.println(text);
    drop(board);
    drawn
}

/// What was logged in two threads is one history, which goes on without a lock.
#[test]
fn a_history_leaves_its_lock(rt: HostRuntime) {
    let board = recorded(&rt);
    let other = board.clone().expect(&rt, "granted");
    let child = thread::spawn(&rt, move || logs_and_goes(other, "theirs")).granted(&rt);
    same!(&rt; child.join(&rt), Ok(Drawn::Yes));
    same!(&rt; board.println("mine"), Ok(Drawn::Yes));
    let mut record = history_of(&rt, board);
    same!(&rt; record.entries().len(), 2);
    let text = String::from_str(rt.alloc(), "last").granted(&rt);
    let (answer, _) = record.apply(Call::Log(text), 100);
    same!(&rt; &answer, &Answer::Drawn(Drawn::Yes));
    shows(&rt, record.board().term(), "theirs\nmine\nlast");
}

/// Other owners keep a board in its lock: clones, and bars that stand on it. A bar that leaves its own lock stays on the board, which goes on
/// with it.
#[test]
fn a_board_stays_in_its_lock(rt: HostRuntime) {
    let board = recorded(&rt);
    let other = board.clone().expect(&rt, "granted");
    let board = board.into_inner().err().expect(&rt, "another owner");
    drop(other);
    let bar = bar_on(&rt, &board, "{pos}");
    let board = board.into_inner().err().expect(&rt, "another owner");
    let id = number_of(&rt, bar);
    let mut record = history_of(&rt, board);
    let (answer, _) = record.apply(Call::Bar(id, BarCommand::Inc(3)), 100);
    same!(&rt; &answer, &Answer::Drawn(Drawn::Yes));
    shows(&rt, record.board().term(), "3");
}

/// A board without a history.
#[test]
fn an_open_board_leaves_its_lock(rt: HostRuntime) {
    let board = open(&rt, setup(&rt, 10));
    same!(&rt; board.println("mine"), Ok(Drawn::Yes));
    let Ok(UnlockedBoard::Open(mut open)) = board.into_inner() else {
        panic!(rt; "a history, or another owner")
    };
    same!(&rt; open.println("last", 100), Ok(Drawn::Yes));
    shows(&rt, open.term(), "mine\nlast");
}

/// Moves a bar, and drops the owner.
fn moves_and_goes<R: Runtime>(bar: Bar<R>) -> Result<Drawn, Refusal> {
    let drawn = bar.inc(4);
    drop(bar);
    drawn
}

/// Other owners keep a bar in its lock, also one in another thread, and so does a weak reference. It isn't finished as it leaves.
#[test]
fn a_bar_leaves_its_lock(rt: HostRuntime) {
    let bar = alone(&rt, "{pos}");
    let other = bar.clone().expect(&rt, "granted");
    let bar = bar.into_inner().err().expect(&rt, "another owner");
    let child = thread::spawn(&rt, move || moves_and_goes(other)).granted(&rt);
    same!(&rt; child.join(&rt), Ok(Drawn::Yes));
    let weak = bar.downgrade().expect(&rt, "granted");
    let bar = bar.into_inner().err().expect(&rt, "another owner");
    drop(weak);
    let Ok(UnlockedBar::Alone(mut lone)) = bar.into_inner() else {
        panic!(rt; "a board, or another owner")
    };
    lone.inc(2, 50).granted(&rt);
    same!(&rt; lone.bar().state().pos(), 6);
    holds!(&rt; !lone.bar().state().is_finished());
    shows(&rt, lone.term(), "6");
}
