//! Boards: one whose calls are made by their names, one that keeps its history, whose calls are values, and the order of bars and their
//! slots as a table alone.
use indicatif_bar::style::NoTracker;
use indicatif_board::multi::{
    BarId, Board, Call, Candidate, InsertLocation, MultiState, Recorded, Turned,
};
use indicatif_term::target::MultiProgressAlignment;
use indicatif_text::columns::Moment;
use scripts::boards::{MARK, bar_id, board_call, of_bar, push_answer, push_id};
use scripts::got::{Bad, Got, Outcome};
use scripts::lone::read_bar;
use scripts::row::{At, flag, headed, number};
use scripts::screen::{Behind, Target};

/// A board on the terminal of a screen.
pub type OnTerm = Board<NoTracker, Behind>;

/// One that keeps its history.
pub type Recording = Recorded<NoTracker, Behind>;

/// A board on this target, whose bars stand at the bottom if the word is `bottom`.
pub fn begin(target: Target, word: &str, at: At) -> Result<Box<OnTerm>, Bad> {
    let mut board = at.boxed(Board::new(at.alloc, target.0, MARK))?;
    match word {
        "" => (),
        "bottom" => board.set_alignment(MultiProgressAlignment::Bottom),
        _ => return Err(Bad::Step),
    }
    Ok(board)
}

/// Makes a call of the board or of one of its bars by its name, or after `call ` as a value; `move yes` or `move no`; or reads the board or
/// a bar.
pub fn step(board: &mut OnTerm, step: &str, at: At, got: &mut Got) -> Outcome {
    if reads(board, step, at.now, got)? {
        return Ok(());
    }
    match headed(step) {
        ("call", text) => push_answer(board.call(board_call(at, text)?, at.now), got),
        ("move", word) => board.set_move_cursor(flag(word)?),
        _ => by_name(board, board_call(at, step)?, at.now, got),
    }
    Ok(())
}

/// Reads the board or a bar: `order`, `slot BAR`, `BAR: READING`; whether the step asks for that, and the board has the bar.
fn reads(board: &OnTerm, step: &str, now: Moment, got: &mut Got) -> Result<bool, Bad> {
    match (headed(step), of_bar(step)) {
        (("order", ""), _) => got.numbers(board.order()),
        (("slot", bar), _) => got.optional(board.slot(bar_id(bar)?)),
        (_, Some((id, text))) => match board.bar(id) {
            Ok(bar) => return read_bar(bar, text, now, got),
            Err(_) => return Ok(false),
        },
        _ => return Ok(false),
    }
    Ok(true)
}

/// Makes a call by its name, and appends what that gives.
fn by_name(board: &mut OnTerm, call: Call<NoTracker>, now: Moment, got: &mut Got) {
    match call {
        Call::Insert { at, candidate } => push_taken(insert(board, at, candidate), got),
        Call::Remove(id) => match board.remove(id) {
            Ok(found) => got.flag(found.is_some()),
            Err(refusal) => got.refusal(refusal),
        },
        Call::Drop(id) => got.answer(board.drop_bar(id, now)),
        Call::Log(text) => got.answer(board.println(text.as_str(), now)),
        Call::BarLog(id, text) => got.answer(board.bar_println(id, text.as_str(), now)),
        Call::Bar(id, command) => got.answer(board.command(id, command, now)),
        Call::Clear => got.answer(board.clear(now)),
        Call::Redraw => got.answer(board.redraw(now)),
        Call::Align(alignment) => board.set_alignment(alignment),
    }
}

/// What a bar's insertion gives.
type Taken = Result<BarId, Turned<NoTracker>>;

fn insert(board: &mut OnTerm, place: InsertLocation, bar: Candidate<NoTracker>) -> Taken {
    match place {
        InsertLocation::End => board.add(bar),
        InsertLocation::Index(index) => board.insert(index, bar),
        InsertLocation::FromBack(count) => board.insert_from_back(count, bar),
        InsertLocation::Before(anchor) => board.insert_before(anchor, bar),
        InsertLocation::After(anchor) => board.insert_after(anchor, bar),
    }
}

/// Appends a bar's number; or why it wasn't inserted, and what came back: a new bar by its message, after `'`, or the number of one that may
/// be there, after `=`, with `x` before it for a bar of another board.
fn push_taken(taken: Taken, got: &mut Got) {
    let turned = match taken {
        Ok(id) => return got.number(id.number),
        Err(turned) => turned,
    };
    got.refusal(turned.refusal);
    match &turned.candidate {
        Candidate::New(bar) => got.number(format_args!(" '{}", bar.message())),
        Candidate::Member(id) => {
            got.text(" =");
            push_id(*id, got);
        }
    }
}

// ---- a board that keeps its history

/// Makes a call as a value, and appends its answer, with the message of a bar that comes back; `entries`, how many calls the history has;
/// or reads the board or a bar.
pub fn record(board: &mut Recording, step: &str, at: At, got: &mut Got) -> Outcome {
    if reads(board.board(), step, at.now, got)? {
        return Ok(());
    }
    if step == "entries" {
        got.number(board.entries().len());
        return Ok(());
    }
    let (answer, back) = board.apply(board_call(at, step)?, at.now);
    push_answer(answer, got);
    if let Some(bar) = back {
        got.number(format_args!(" '{}", bar.message()));
    }
    Ok(())
}

// ---- a table

/// Makes a step of a table, `table`, which begins without bars: `insert PLACE`, `remove PLACE`, `remove_first COUNT`; `order`, `slots` in
/// that order, `slot NUMBER`.
pub fn of_table(table: &mut MultiState, step: &str, got: &mut Got) -> Outcome {
    match headed(step) {
        ("order", "") => got.numbers(table.order()),
        ("slots", "") => push_slots(table, got),
        ("insert", place) => match table.insert(number(place)?) {
            Ok(number) => got.number(number),
            Err(refusal) => got.refusal(refusal),
        },
        ("remove", place) => table.remove(number(place)?),
        ("remove_first", count) => table.remove_first(number(count)?),
        ("slot", bar) => got.optional(table.slot(number(bar)?)),
        _ => return Err(Bad::Step),
    }
    Ok(())
}

fn push_slots(table: &MultiState, got: &mut Got) {
    for number in table.order() {
        got.between(" ");
        got.optional(table.slot(*number));
    }
}
