//! A terminal that others see, also while something is drawn there, and bars and boards on it; and a writer that fails.
use crate::checks::{Granted, Runtime};
use indicatif::{
    Cells, MultiProgress, ProgressBar, ProgressDrawTarget, ProgressStyle, Setup, StepClock, Term,
};
use std::alloc::Global;
use std::io::{self, Write};
use std::sync::{Arc, Mutex, Wait};

/// A writer that fails each call, with this number of the system's.
#[derive(Drop)]
pub struct Broken(pub i32);

impl Write for Broken {
    fn write(&mut self, _buf: &[u8]) -> io::Result<usize> {
        Err(io::Error::from_raw_os_error(self.0))
    }

    fn flush(&mut self) -> io::Result<()> {
        Ok(())
    }
}

/// A terminal of 4 rows and 10 columns: a writer whose bytes are behind a lock.
#[derive(Drop)]
pub struct Screen<R: Wait + Drop> {
    rt: R,
    bytes: Arc<Mutex<Vec<u8>>, Global>,
}

impl<R: Wait + Drop> Write for Screen<R> {
    fn write(&mut self, buf: &[u8]) -> io::Result<usize> {
        let mut bytes = self.bytes.lock(&self.rt);
        match bytes.extend_from_slice(buf) {
            Ok(()) => Ok(buf.len()),
            Err(_) => Err(io::Error::from(io::ErrorKind::OutOfMemory)),
        }
    }

    fn flush(&mut self) -> io::Result<()> {
        Ok(())
    }
}

/// A bar on such a terminal.
pub type Bar<R> = ProgressBar<Term<Screen<R>>, StepClock, R>;

/// A board on such a terminal.
pub type Board<R> = MultiProgress<Term<Screen<R>>, StepClock, R>;

impl<R: Runtime> Screen<R> {
    /// Nothing stands there yet.
    pub fn new(rt: &R) -> Screen<R> {
        let bytes = Mutex::new(Vec::new(rt.alloc()));
        let bytes = Arc::new(rt.alloc(), bytes).granted(rt);
        Screen { rt: *rt, bytes }
    }

    /// A target there, with a clock that advances by 1 with each reading.
    pub fn setup(&self) -> Setup<Term<Screen<R>>, StepClock> {
        let rt = self.rt;
        let bytes = Arc::try_clone(&self.bytes).granted(&rt);
        let term = Term::new(Screen { rt, bytes }, 4, 10);
        Setup {
            target: ProgressDrawTarget::term_like(term),
            clock: StepClock { next: 0, step: 1 },
        }
    }

    /// A bar there, with this template and a length of 10.
    pub fn bar(&self, template: &str) -> Bar<R> {
        let rt = &self.rt;
        let style = ProgressStyle::with_template(rt.alloc(), template).granted(rt);
        let bar = ProgressBar::styled(*rt, rt.alloc(), style, Some(10), self.setup());
        bar.expect(rt, "granted")
    }

    /// A board there.
    pub fn board(&self) -> Board<R> {
        let rt = &self.rt;
        MultiProgress::new(*rt, rt.alloc(), self.setup(), 1).expect(rt, "granted")
    }

    /// Ends the test if something else stands there.
    pub fn shows(&self, wanted: &str) {
        let (rt, alloc) = (&self.rt, self.rt.alloc());
        let cells = Cells::new(alloc, 4, 10).granted(rt);
        let mut cells = Box::new(alloc, cells).granted(rt);
        let is_fed = cells.feed(self.bytes.lock(rt).as_slice()).is_ok();
        holds!(rt; is_fed);
        same!(rt; cells.contents().granted(rt).as_str(), wanted);
    }
}

/// A bar of the board, in the style of a template; it isn't drawn yet.
pub fn bar_of<R: Runtime>(rt: &R, board: &Board<R>, template: &str) -> Bar<R> {
    let bar = Screen::new(rt).bar(template);
    board.add(bar).expect(rt, "granted")
}
