//! A terminal of unknown width, `OwnRows`: the bytes of its calls, and its sizes. (Rows of data have what boards show there.)
use crate::checks::Granted;
use indicatif::machine::{UntilGone, facts_of, own_stderr};
use indicatif::{InMemoryTerm, OwnRow, OwnRows, ProgressDrawTarget, Resize, Term, TermLike};
use std::io::BufWriter;
use std::process::Abort;

type Own = OwnRows<Term<Vec<u8>>>;

/// Ends the test if a draw of two letters gives other bytes.
fn draws<R: Abort>(rt: &R, term: Own, wanted: &str) {
    let mut own = term;
    own.write_str("ab").granted(rt);
    own.flush().granted(rt);
    is_written(rt, &own, wanted);
}

fn is_written<R: Abort>(rt: &R, own: &Own, wanted: &str) {
    let writer = own.term().writer();
    same!(rt; writer.as_slice(), wanted.as_bytes());
}

/// Two letters, without a synchronized update; the same where the terminal ends the rows; and on the second of three rows, which goes up by one
/// and back, and empties its row after the given columns before that.
#[test]
fn two_letters(rt: HostRuntime) {
    let alloc = rt.alloc();
    let writer: Vec<u8> = Vec::new(alloc);
    let term = OwnRows::new(Term::new(writer, 24, 79)).unsynchronized();
    draws(&rt, term, "\u{1b}[?7lab\u{1b}[?7h\u{1b}[9999C ");
    let writer: Vec<u8> = Vec::new(alloc);
    let term = OwnRows::left_to_terminal(Term::new(writer, 24, 80));
    draws(&rt, term, "ab");
    let writer: Vec<u8> = Vec::new(alloc);
    let row = OwnRow::new(2, 3); // the second of three
    let row = row.expect(&rt, "a row");
    let term = OwnRows::on_row(Term::new(writer, 1, 79), row);
    let beside =
        "\u{1b}[?2026h\u{1b}[?7l\u{1b}[1A\rab\u{1b}[?7h\r\u{1b}[79C\u{1b}[K\u{1b}[1B\u{1b}[9999C \u{1b}[?2026l";
    draws(&rt, term, beside);
}

/// A row that is left for the one above is emptied after the given columns, and the cursor stays in its column. A cursor that was at the
/// front of a row is there when the draw has ended.
#[test]
fn rows_that_are_left(rt: HostRuntime) {
    let writer: Vec<u8> = Vec::new(rt.alloc());
    let mut own = OwnRows::new(Term::new(writer, 24, 79)).unsynchronized();
    own.write_str("ab").granted(&rt);
    own.move_cursor_up(1).granted(&rt);
    own.write_str("c").granted(&rt);
    own.write_str("\r").granted(&rt);
    own.move_cursor_down(1).granted(&rt);
    own.flush().granted(&rt);
    let left =
        "\u{1b}[?7lab\r\u{1b}[79C\u{1b}[K\u{1b}[1A\r\u{1b}[2Cc\r\r\u{1b}[79C\u{1b}[K\u{1b}[1B\u{1b}[?7h\r";
    is_written(&rt, &own, left);
}

/// Other sizes; what `Debug` prints; and a target that is hidden, since the terminal has no name, and one on standard error, if it is one.
#[test]
fn sizes_and_targets(rt: HostRuntime) {
    let (alloc, now) = (rt.alloc(), 0);
    let mut own = OwnRows::new(Term::new(Vec::new(alloc), 24, 79));
    own.resize(50, 131).granted(&rt);
    same!(&rt; own.width(), 131);
    let writer = BufWriter::new(alloc, UntilGone::new(rt.stderr())).granted(&rt);
    let mut term = Term::new(writer, 24, 80);
    holds!(&rt; term.resize(24, 79).is_ok());
    let own = OwnRows::new(InMemoryTerm::new(alloc, 2, 3).granted(&rt));
    let text = format!(in alloc; "{own:?}").granted(&rt);
    holds!(&rt; text.as_str().starts_with("OwnRows { term: InMemoryTerm { "));
    let (writer, mut facts) = (Vec::new(alloc), facts_of(&rt, &rt.stderr()).granted(&rt));
    facts.term = None;
    let term = OwnRows::new(Term::new(writer, 24, 79));
    let target = ProgressDrawTarget::term(term, facts, 20, now).granted(&rt);
    holds!(&rt; target.is_hidden());
    let mut facts = facts_of(&rt, &rt.stderr()).granted(&rt);
    facts.cols = 59; // of 60
    let hides = facts.hides();
    let target = own_stderr(&rt, rt.stderr(), facts, None).granted(&rt);
    same!(&rt; target.is_hidden(), hides);
}
