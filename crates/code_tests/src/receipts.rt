//! Receipts of logged texts and of a log's records: which claims a history holds; texts that two threads log on one board, also through a
//! bridge, and the picture at the end.
use crate::checks::{Granted, Runtime};
use crate::fronts::{Shared, board_shows, hidden, open, recorded, setup};
use indicatif::bridge::{LogBridge, emit_with_receipt};
use indicatif::{
    Answer, Drawn, InMemoryTerm, MultiProgress, NoTracker, Receipt, RecordReader, Recorded,
    Refusal, Setup, StepClock,
};
use log::sink::Memory;
use log::{Level, LevelFilter, Record};
use std::thread::{self, join};

/// Whether a history holds a receipt, and the text stands in the picture in the row of the entry's number: so it is where all entries are
/// texts of one row.
#[derive(Drop)]
struct InItsRow<'a> {
    receipt: &'a Receipt,
}

impl RecordReader<InMemoryTerm, NoTracker> for InItsRow<'_> {
    type Found = bool;

    fn read(self, history: Option<&Recorded<NoTracker, InMemoryTerm>>) -> bool {
        match history {
            Some(record) => record.holds(self.receipt)
                && has_row(record, self.receipt) == Some(true),
            None => false,
        }
    }
}

/// Whether a receipt's text stands in the row of its number, if there is one.
fn has_row(record: &Recorded<NoTracker, InMemoryTerm>, receipt: &Receipt) -> Option<bool> {
    let rows = record.board().term()?.picture().ok()?;
    Some(rows.get(receipt.number)?.as_str() == receipt.text.as_str())
}

/// Each of two threads got two receipts, in their order. Whichever thread came first, each receipt is held, and its text stands in the row of
/// its number.
fn stand<R: Runtime>(rt: &R, board: &Shared<R>, receipts: [&(Receipt, Receipt); 2]) {
    for (one, other) in receipts {
        holds!(rt; one.number < other.number);
        holds!(rt; board.with_record(InItsRow { receipt: one }));
        holds!(rt; board.with_record(InItsRow { receipt: other }));
    }
}

/// Logs a text that is drawn; its receipt.
fn logged<R: Runtime>(rt: &R, board: &Shared<R>, text: &str) -> Receipt {
    let (drawn, receipt) = board.println_with_receipt(text);
    same!(rt; drawn, Ok(Drawn::Yes));
    receipt.granted(rt)
}

/// A thread's two texts.
fn logs_two<R: Runtime>(rt: &R, board: &Shared<R>, texts: (&str, &str)) -> (Receipt, Receipt) {
    (logged(rt, board, texts.0), logged(rt, board, texts.1))
}

/// Two texts from each of two threads on a terminal of four rows.
#[test]
fn two_threads_and_a_picture(rt: HostRuntime) {
    let (own, rt) = (rt, &rt);
    let board = recorded(rt);
    let other = board.clone().expect(rt, "granted");
    let logs = move || logs_two(&own, &other, ("theirs 1", "theirs 2"));
    let child = thread::spawn(rt, logs).granted(rt);
    let mine = logs_two(rt, &board, ("mine 1", "mine 2"));
    let theirs = child.join(rt);
    stand(rt, &board, [&mine, &theirs]);
}

// ---- records of a log

type Bridge<R> = LogBridge<InMemoryTerm, StepClock, R>;

/// Logs a warning that is drawn; its receipt.
fn warned<R: Runtime>(rt: &R, bridge: &Bridge<R>, text: &str) -> Receipt {
    let record = Record::builder().level(Level::Warn).args(text).build();
    let (drawn, receipt) = bridge.log_with_receipt(&record);
    same!(rt; drawn, Ok(Drawn::Yes));
    receipt.granted(rt)
}

/// A thread's two warnings.
fn warns_two<R: Runtime>(rt: &R, bridge: &Bridge<R>, texts: (&str, &str)) -> (Receipt, Receipt) {
    (warned(rt, bridge, texts.0), warned(rt, bridge, texts.1))
}

/// Two warnings from each of two threads through one bridge: each receipt is of the record's line.
#[test]
fn two_threads_and_a_bridge(rt: HostRuntime) {
    let board = recorded(&rt);
    let bridge = LogBridge::new(board.clone().expect(&rt, "granted"));
    let bridge = &bridge;
    let (mine, theirs) = join(
        &rt,
        || warns_two(&rt, bridge, ("m1", "m2")),
        || warns_two(&rt, bridge, ("t1", "t2")),
    );
    same!(&rt; mine.0.text.as_str(), "WARN  m1");
    same!(&rt; theirs.1.text.as_str(), "WARN  t2");
    stand(&rt, &board, [&mine, &theirs]);
    same!(&rt; bridge.missed(), 0);
}

/// A board that keeps no history hands out no receipt for a text or a record, and draws it all the same. There is none either for a record that
/// a filter drops.
#[test]
fn no_history_no_receipt(rt: HostRuntime) {
    let board = open(&rt, setup(&rt, 20));
    let (drawn, receipt) = board.println_with_receipt("a.txt");
    same!(&rt; (drawn, receipt.is_none()), (Ok(Drawn::Yes), true));
    let bridge = LogBridge::new(board.clone().expect(&rt, "granted")).with_filter(
        LevelFilter::Warn,
    );
    let table = [
        (Level::Info, "copied", Drawn::Limited),
        (Level::Warn, "low disk", Drawn::Yes),
    ];
    for (level, text, wanted) in table {
        let record = Record::builder().level(level).args(text).build();
        let (drawn, receipt) = bridge.log_with_receipt(&record);
        same!(&rt; (drawn, receipt.is_none()), (Ok(wanted), true));
    }
    same!(&rt; bridge.missed(), 0);
    board_shows(&rt, &board, "a.txt\nWARN  low disk");
}

/// On a hidden board with a history the receipt says so, and the other sink has the record.
#[test]
fn a_record_on_a_hidden_board(rt: HostRuntime) {
    let Setup { target, clock } = hidden();
    let board = MultiProgress::recorded(rt, rt.alloc(), target, clock, 1).expect(&rt, "granted");
    let others = Memory::new(rt.alloc());
    let bridge = LogBridge::over(board, &others);
    let record = Record::builder()
        .level(Level::Warn)
        .args("low disk")
        .build();
    let (drawn, receipt) = bridge.log_with_receipt(&record);
    same!(&rt; drawn, Ok(Drawn::Hidden));
    holds!(&rt; receipt.granted(&rt).answer == Answer::Drawn(Drawn::Hidden));
    same!(&rt; bridge.missed(), 0);
    drop(bridge);
    let lines = others.into_lines();
    same!(&rt; lines.len(), 1);
    same!(&rt; lines.as_slice().first().granted(&rt).as_str(), "[WARN ] low disk");
}

// ---- without threads

/// The receipts of a text and of a line of a log are held, also after another call; the line has the level and the text. (Which other claims
/// are held is proved.)
#[test]
fn receipts_of_a_text_and_a_line(rt: HostRuntime) {
    let alloc = rt.alloc();
    let mut record: Recorded<NoTracker, _> = Recorded::new(alloc, setup(&rt, 20).target, 1);
    let text = String::from_str(alloc, "a").granted(&rt);
    let (answer, receipt) = record.println_with_receipt(text, 5);
    let receipt = receipt.ok_or(Refusal::Memory).granted(&rt);
    holds!(&rt; record.holds(&receipt) && receipt.number == 0 && receipt.answer == answer);
    let (mut history, text, now) = (record, receipt, 5);
    let (answer, receipt) = emit_with_receipt(alloc, &mut history, Level::Warn, "low disk", now);
    let receipt = receipt.ok_or(Refusal::Memory).granted(&rt);
    same!(&rt; receipt.text.as_str(), "WARN  low disk");
    holds!(&rt; answer == Answer::Drawn(Drawn::Yes));
    holds!(&rt; history.holds(&text) && history.holds(&receipt));
}
