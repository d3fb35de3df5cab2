//! Boards that keep their history: what they have kept, and two of one id. (Threads share them in `receipts`, `log_bridge` and `fuzz`; tickers are
//! in rows of data.)
use crate::checks::{Granted, Runtime};
use crate::fronts::{Bar, Shared, bar_on, recorded, target};
use crate::tickers::MILLISECOND;
use indicatif::style::Tracks;
use indicatif::{
    Call, InMemoryTerm, MultiProgress, NoTracker, ProgressDrawTarget, ProgressFinish, RecordReader,
    Recorded, Refusal, Size, StepClock,
};
use scripts::replay::is_one_run;
use std::alloc::Global;
use std::process::Abort;

/// The size of the terminals.
const SIZE: Option<Size> = Some(Size {
    columns: 10,
    rows: 4,
});

/// Counts calls: the logs of a text above all bars, or, without a text, all calls.
#[derive(Drop)]
struct Counted<'a> {
    log: Option<&'a str>,
}

impl RecordReader<InMemoryTerm, NoTracker> for Counted<'_> {
    type Found = u64;

    fn read(self, record: Option<&Recorded<NoTracker, InMemoryTerm>>) -> u64 {
        match record {
            Some(recorded) if recorded.opening().size == SIZE => count(recorded, self.log),
            _ => 0,
        }
    }
}

fn count(recorded: &Recorded<NoTracker, InMemoryTerm>, log: Option<&str>) -> u64 {
    let mut found: u64 = 0;
    for entry in recorded.entries() {
        found = found.saturating_add(match (&entry.call, log) {
            (Call::Log(text), Some(wanted)) => u64::from(text.as_str() == wanted),
            (_, log) => u64::from(log.is_none()),
        });
    }
    found
}

/// How many calls a board has kept, on a terminal of 4 rows and 10 columns.
pub fn kept<R: Runtime>(board: &Shared<R>) -> u64 {
    board.with_record(Counted { log: None })
}

/// How often it has logged this text.
pub fn logged<R: Runtime>(board: &Shared<R>, text: &str) -> u64 {
    board.with_record(Counted { log: Some(text) })
}

/// A new board makes the kept calls with the same answers, and then shows the same rows.
#[derive(Drop)]
struct RunsAgain<R: Abort + Drop> {
    rt: R,
    alloc: Global,
}

impl<R: Abort + Drop, K: Tracks> RecordReader<InMemoryTerm, K> for RunsAgain<R> {
    type Found = ();

    fn read(self, record: Option<&Recorded<K, InMemoryTerm>>) {
        let rt = &self.rt;
        let recorded = record.expect(rt, "a history");
        let target = target(self.alloc).granted(rt);
        same!(rt; is_one_run(self.alloc, recorded, target), Ok(true));
    }
}

/// Ends the test if what a board has kept isn't one run: a new board that makes those calls gives the same answers, and shows the same.
pub fn replays<R: Runtime, K: Tracks>(
    rt: &R,
    board: &MultiProgress<InMemoryTerm, StepClock, R, K>,
) {
    let (rt, alloc) = (*rt, rt.alloc());
    board.with_record(RunsAgain { rt, alloc });
}

// ---- two boards of one id

const LOST: Option<Refusal> = Some(Refusal::NotMember);

/// Another owner of a bar, which a builder drops.
fn owner<R: Runtime>(rt: &R, bar: &Bar<R>) -> Bar<R> {
    bar.clone().expect(rt, "granted")
}

/// The board of this bar hasn't it: each command is refused, also one that asks for no draw.
fn is_lost<R: Runtime>(rt: &R, bar: &Bar<R>) {
    same!(rt; bar.tick().err(), LOST);
    same!(rt; owner(rt, bar).with_position(3).err(), LOST);
    same!(rt; owner(rt, bar).with_finish(ProgressFinish::AndLeave).err(), LOST);
    same!(rt; bar.message().err(), LOST);
    same!(rt; (bar.position(), bar.length()), (0, None));
    same!(rt; (bar.is_finished(), bar.tab_width()), (true, 8));
}

/// Removing the other board's bar removes the bar here that has its number.
#[test]
fn a_bar_that_its_board_has_lost(rt: HostRuntime) {
    let (board, twin) = (recorded(&rt), recorded(&rt));
    let bar = bar_on(&rt, &board, "a");
    let other = bar_on(&rt, &twin, "b");
    same!(&rt; board.remove(&other), Ok(()));
    is_lost(&rt, &bar);
    same!(&rt; bar.enable_steady_tick(MILLISECOND).err(), LOST);
    same!(&rt; bar.set_draw_target(ProgressDrawTarget::hidden()).err(), LOST);
    same!(&rt; board.add(bar).err(), LOST);
}
