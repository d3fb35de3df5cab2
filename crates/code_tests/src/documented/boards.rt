//! Examples of a board.
use crate::checks::{Granted, Runtime};
use crate::fronts;
use indicatif::bridge::{bridge_line, emit};
use indicatif::{
    Answer, BarCommand, BarId, BarState, Board, Call, Candidate, Drawn, Entry, InMemoryTerm,
    InsertLocation, MultiState, NoTracker, ProgressDrawTarget, ProgressStyle, Recorded, Refusal,
    Size,
};
use log::Level;

type Bars = Board<NoTracker, InMemoryTerm>;

/// A terminal of 4 rows and 10 columns.
fn new_term(rt: &impl Runtime) -> InMemoryTerm {
    InMemoryTerm::new(rt.alloc(), 4, 10).granted(rt)
}

/// A board on such a terminal, a text above its bars.
fn board_of(rt: &impl Runtime) -> Bars {
    let (alloc, now, term) = (rt.alloc(), 0, new_term(rt));
    let mut board: Board<NoTracker, _> = Board::new(alloc, ProgressDrawTarget::term_like(term), 1);
    board.println("a.txt", now).granted(rt);
    board
}

/// A bar with this text.
fn bar_saying(rt: &impl Runtime, text: &str) -> BarState<NoTracker> {
    let style = ProgressStyle::with_template(rt.alloc(), text).granted(rt);
    BarState::styled(rt.alloc(), style, None, 0).granted(rt)
}

/// Both texts stand on two rows each.
#[test]
fn texts_on_fewer_columns(rt: HostRuntime) {
    let (mut board, now) = (board_of(&rt), 0);
    board.println("hello", now).granted(&rt);
    board.resize(4, 3).granted(&rt); // it stands on two rows from now on: `hel`, `lo`
    same!(&rt; fronts::contents(board.term()).granted(&rt).as_str(), "a.t\nxt\nhel\nlo");
}

/// A candidate is copied, and a bar of another board isn't removed.
#[test]
fn order_of_bars(rt: HostRuntime) {
    let mut board = board_of(&rt);
    board.set_move_cursor(true);
    let id = take_in(&rt, &mut board);
    let candidate = Candidate::<NoTracker>::Member(id);
    let again = candidate.try_clone().granted(&rt);
    holds!(&rt; matches!(again, Candidate::Member(_)));
    turn_away(&rt, &mut board);
    stack(&rt, &mut board);
    same!(&rt; board.order(), [0, 2, 1].as_slice());
    let elsewhere = BarId { mark: 0, number: 1 };
    holds!(&rt; matches!(board.remove(elsewhere), Err(Refusal::ForeignBar)));
}

/// Inserts a bar, which stays first when it is inserted there again.
fn take_in(rt: &impl Runtime, board: &mut Bars) -> BarId {
    let bar = bar_saying(rt, "a");
    let id = board
        .add(Candidate::New(bar))
        .map_err(|turned| turned.refusal)
        .granted(rt);
    holds!(rt; board.insert(0, Candidate::Member(id)).is_ok_and(|again| again == id));
    id
}

/// Refuses a bar after one of another board.
fn turn_away(rt: &impl Runtime, board: &mut Bars) {
    let (bar, id) = (bar_saying(rt, "b"), BarId { mark: 9, number: 0 });
    if let Err(turned) = board.insert_after(id, Candidate::New(bar)) {
        let returned = turned.candidate;
    }
}

/// Inserts a bar, and then one above it.
fn stack(rt: &impl Runtime, board: &mut Bars) {
    let (bar, other, now) = (bar_saying(rt, "lower"), bar_saying(rt, "upper"), 0);
    let first = board
        .add(Candidate::New(bar))
        .map_err(|turned| turned.refusal)
        .granted(rt);
    board.call(
        Call::Insert {
            at: InsertLocation::Before(first),
            candidate: Candidate::New(other),
        },
        now,
    );
}

#[test]
fn answers_of_calls(rt: HostRuntime) {
    let (mut board, now) = (board_of(&rt), 0);
    let id = take_in(&rt, &mut board);
    board
        .tell(id, BarCommand::SetMessage("copying"), now)
        .granted(&rt);
    same!(&rt; board.bar(id).granted(&rt).message(), "copying");
    log_and_clear(&rt, &mut board);
    let (answer, removed) = board.apply(Call::Remove(id), now);
    same!(&rt; answer, Answer::Accepted);
    holds!(&rt; removed.is_some());
    same!(&rt; board.call(Call::Remove(id), now), Answer::Accepted);
}

fn log_and_clear(rt: &impl Runtime, board: &mut Bars) {
    let (alloc, now) = (rt.alloc(), 0);
    let text = String::from_str(alloc, "log").granted(rt);
    same!(rt; board.call(Call::Log(text), now), Answer::Drawn(Drawn::Yes));
    let call = Call::<NoTracker>::Clear;
    let again = call.try_clone(alloc).granted(rt);
    same!(rt; board.call(again, now), Answer::Drawn(Drawn::Yes));
    let answer = board.call(Call::Clear, now);
    let again = answer.same();
    same!(rt; answer, Answer::Drawn(Drawn::Yes));
    same!(rt; again, Answer::Drawn(Drawn::Yes));
}

/// A history that begins on a terminal with a rate, and one with an entry.
#[test]
fn histories(rt: HostRuntime) {
    let (alloc, now, term) = (rt.alloc(), 5, new_term(&rt));
    let target = ProgressDrawTarget::term_like_with_hz(term, 20, 0).granted(&rt);
    let record: Recorded<NoTracker, _> = Recorded::new(alloc, target, 7);
    same!(&rt; record.opening().size, Some(Size { columns: 10, rows: 4 }));
    let opening = record.opening();
    same!(&rt; (opening.mark, opening.limiter.is_some()), (7, true));
    let term = new_term(&rt);
    let mut record = Recorded::new(alloc, ProgressDrawTarget::term_like(term), 1);
    let (answer, none) = record.apply(Call::Clear, now);
    let recorded = record.entries();
    let entries: &[Entry<NoTracker>] = recorded;
    same!(&rt; (entries.len(), answer), (1, Answer::Drawn(Drawn::Yes)));
}

/// The order of slots.
#[test]
fn slots_in_their_order(rt: HostRuntime) {
    let alloc = rt.alloc();
    let mut state = MultiState::new(alloc);
    let first = state.insert(0).granted(&rt);
    let second = state.insert(0).granted(&rt);
    same!(&rt; state.order(), [second, first].as_slice());
    same!(&rt; state.slot(second), Some(1));
}

/// A line of a log, above the bars and as a text.
#[test]
fn lines_of_a_log(rt: HostRuntime) {
    let (alloc, mut board, now) = (rt.alloc(), board_of(&rt), 0);
    let drawn = emit(alloc, &mut board, Level::Error, "no such file", now).granted(&rt);
    same!(&rt; drawn, Drawn::Yes);
    same!(&rt; fronts::contents(board.term()).granted(&rt).as_str(), "a.txt\nERROR no s\nuch file");
    let mut out = String::new(alloc);
    bridge_line(Level::Warn, "low disk", &mut out).granted(&rt);
    same!(&rt; out.as_str(), "WARN  low disk");
}
