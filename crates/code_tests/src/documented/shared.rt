//! Shared bars, a board and its history, and the places of wrapped readers.
use crate::checks::{Granted, Runtime};
use crate::fronts::{Bar, Shared, board_shows, setup};
use indicatif::style::Tracks;
use indicatif::{
    Drawn, MaxRingBuf, MultiProgress, ProgressBar, ProgressBarIter, RecordReader, Recorded,
    SeekMax, StepClock, TermLike,
};
use std::io::Write;

/// One owner's changes are seen by another; a writer, a template, a weak owner and a ticker.
#[test]
fn owners_of_a_bar(rt: HostRuntime) {
    let (alloc, setup) = (rt.alloc(), setup(&rt, 20));
    let bar = ProgressBar::new(rt, alloc, 100, setup).expect(&rt, "granted");
    let other = bar.clone().expect(&rt, "granted");
    let mut wrapped = bar.wrap_write(Vec::new(alloc)).expect(&rt, "granted");
    let writer: &mut ProgressBarIter<Vec<u8>, Bar<HostRuntime>> = &mut wrapped;
    same!(&rt; writer.write(b"abc").granted(&rt), 3);
    same!(&rt; bar.position(), 3);
    bar.inc(1).granted(&rt);
    same!(&rt; other.position(), 4);
    let style = bar.style().granted(&rt).template("{pos}").granted(&rt);
    let drawn = bar.set_style(style).granted(&rt);
    same!(&rt; drawn, Drawn::Limited);
    let weak = bar.downgrade().expect(&rt, "granted");
    if let Some(bar) = weak.upgrade().expect(&rt, "granted") {
        bar.set_position(3).granted(&rt);
    }
    same!(&rt; other.position(), 3);
    bar.enable_steady_tick(100_000_000).granted(&rt);
    bar.disable_steady_tick().granted(&rt);
}

// ---- a board, and its history

#[derive(Drop)]
struct Length;

impl<T: TermLike + Drop, K: Tracks> RecordReader<T, K> for Length {
    type Found = usize;

    fn read(self, record: Option<&Recorded<K, T>>) -> usize {
        record.map_or(0, |record| record.entries().len())
    }
}

/// A board that keeps no history, and its bar.
fn board_with_a_bar<R: Runtime>(rt: &R) -> (Shared<R>, Bar<R>) {
    let (alloc, setup) = (rt.alloc(), setup(rt, 20));
    let board = MultiProgress::new(*rt, alloc, setup, 1).expect(rt, "granted");
    let clock = StepClock { next: 0, step: 1 };
    let bar = board
        .add(ProgressBar::hidden(*rt, alloc, clock).expect(rt, "granted"))
        .expect(rt, "granted");
    (board, bar)
}

/// A line above a bar, which is read while a closure runs.
#[test]
fn lines_and_pauses(rt: HostRuntime) {
    let (board, bar) = board_with_a_bar(&rt);
    holds!(&rt; !bar.is_hidden());
    board.println("a.txt").granted(&rt);
    board.set_move_cursor(true).granted(&rt);
    board_shows(&rt, &board, "a.txt");
    same!(&rt; board.with_record(Length), 0);
    let text = format!(in rt.alloc(); "{board:?}").granted(&rt);
    same!(&rt; text.as_str(), "MultiProgress");
    let other = bar.clone().expect(&rt, "granted");
    let (position, drawn) = board.suspend(move || other.position());
    same!(&rt; (position, drawn), (0, Ok(Drawn::Yes)));
    let other = bar.clone().expect(&rt, "granted");
    let (position, drawn) = bar.suspend(move || other.position());
    same!(&rt; (position, drawn), (0, Ok(Drawn::Yes)));
}

// ---- places

/// The greatest of the last place, and of the last of seeks.
#[test]
fn the_greatest_of_places(rt: HostRuntime) {
    let mut places = MaxRingBuf::<1>::new();
    places.update(7);
    places.update(3);
    same!(&rt; places.max(), 3);
    let mut seeks = SeekMax::<5, 10>::new();
    same!(&rt; seeks.update_seek(100), 100);
    same!(&rt; seeks.update_seq(100, 10), 110);
    same!(&rt; seeks.update_seek(0), 110);
}
