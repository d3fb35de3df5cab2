//! What a terminal passes to its writer, also one in a box.
use crate::checks::{Granted, Runtime};
use indicatif::{
    BarState, Drawn, LoneBar, NoTracker, ProgressDrawTarget, ProgressStyle, Refusal, Term, TermLike,
};
use std::cell::Cell;
use std::io::{self, BufWriter, Write};
use std::rc::Rc;

/// How often a writer was written to, and flushed.
type Counts = (u64, u64);

/// Takes all bytes, and counts its calls where its maker can read them.
#[derive(Drop)]
struct Counted(Rc<Cell<Counts>>);

impl Write for Counted {
    fn write(&mut self, buf: &[u8]) -> io::Result<usize> {
        let (writes, flushes) = self.0.get();
        self.0.set((writes.saturating_add(1), flushes));
        Ok(buf.len())
    }

    fn flush(&mut self) -> io::Result<()> {
        let (writes, flushes) = self.0.get();
        self.0.set((writes, flushes.saturating_add(1)));
        Ok(())
    }
}

/// A terminal of a kind that only its maker knows.
type Boxed = Box<dyn TermLike + Drop>;

/// A terminal in a box, whose buffer writes to such a writer.
fn boxed(rt: &impl Runtime, count: &Rc<Cell<Counts>>) -> Boxed {
    let count = count.clone().granted(rt);
    let writer = BufWriter::new(rt.alloc(), Counted(count)).granted(rt);
    Box::new(rt.alloc(), Term::new(writer, 6, 10)).granted(rt)
}

/// A bar with the message `ab` on this terminal, in a box, so that each way out of a test drops it by one call.
fn bar_on(rt: &impl Runtime, term: Boxed) -> Result<Box<LoneBar<NoTracker, Boxed>>, Refusal> {
    let style = ProgressStyle::with_template(rt.alloc(), "{msg}")?;
    let mut state = BarState::styled(rt.alloc(), style, None, 0)?;
    state.set_message("ab", 0)?;
    let bar = LoneBar::new(state, ProgressDrawTarget::term_like(term));
    Ok(Box::new(rt.alloc(), bar)?)
}

/// Ends the test if a call didn't draw, or made other writes than these, and one flush.
fn drew(rt: &impl Runtime, count: &Cell<Counts>, drawn: Result<Drawn, Refusal>, writes: u64) {
    same!(rt; (drawn, count.replace((0, 0))), (Ok(Drawn::Yes), (writes, 1)));
}

/// A line isn't flushed, and a flush is counted once. Behind a `BufWriter` each draw that changes a line is one write, and one that changes
/// none makes none; each is flushed once.
#[test]
fn a_drawing_is_one_write_and_one_flush(rt: HostRuntime) {
    let count = Rc::new(rt.alloc(), Cell::new((0, 0))).granted(&rt);
    let mut boxed = boxed(&rt, &count);
    same!(&rt; (boxed.write_line("ab").is_ok(), count.get()), (true, (0, 0)));
    same!(&rt; (boxed.flush().is_ok(), count.replace((0, 0))), (true, (1, 1)));
    let mut bar = bar_on(&rt, boxed).granted(&rt);
    drew(&rt, &count, bar.tick(0), 1);
    drew(&rt, &count, bar.println("l1", 0), 1);
    drew(&rt, &count, bar.set_message("c\nd", 0), 1);
    drew(&rt, &count, bar.println("l2", 0), 1);
    drew(&rt, &count, bar.tick(0), 0); // the log before it wrote all lines
    drew(&rt, &count, bar.set_message("e", 0), 1);
}
