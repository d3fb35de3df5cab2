//! Bars to look at, for about ten seconds: a download, three workers with a total and lines above them, a spinner. They are drawn on the
//! terminal; if there is none, what one would show is printed each two seconds.
//!
//! - `screen`: the terminal's own file, or cells instead.
mod screen;

use crate::show::screen::{Screen, on_cells, on_terminal};
use bars_run::fault::Fault;
use indicatif::machine::StreamTerm;
use indicatif::{
    BarCommand, BarId, BarState, Board, Candidate, Clock, Moment, NoTracker, ProgressDrawTarget,
    ProgressFinish, ProgressStyle, Refusal,
};
use std::alloc::Global;
use std::thread::sleep;
use std::time::Duration;

/// The terminal that bars are drawn on.
type Shown = StreamTerm<Screen>;

/// A frame's nanoseconds: there are twenty a second.
const FRAME: u64 = 50_000_000;

const DOWNLOAD: &str =
    "{spinner:.green} [{elapsed_precise}] [{wide_bar:.cyan/blue}] {bytes}/{total_bytes} ({bytes_per_sec}, {eta})";

const PART: &str = "{prefix:>8} [{bar:30.cyan/blue}] {pos:>3}/{len}";

const WORK: &str = "{spinner:.green} {msg} {elapsed}";

/// The bytes of the download.
const BYTES: u64 = 23_123_123;

/// The file of each worker, and its number of parts.
const WORKERS: &[(&str, u64)] = &[("a.iso", 36), ("b.iso", 54), ("c.iso", 72)];

/// A board, the moment of its first frame, the current frame, and whether it is on a terminal.
#[derive(Drop)]
struct Show {
    rt: HostRuntime,
    board: Board<NoTracker, Shown>,
    opened: Moment,
    frame: u64,
    is_live: bool,
}

/// Shows everything.
pub fn play(rt: HostRuntime) -> Result<(), Fault> {
    let shown = on_terminal(&rt)?;
    let is_live = shown.is_some();
    let (target, opened) = match shown {
        Some(mut setup) => (setup.target, setup.clock.now()),
        None => (ProgressDrawTarget::term_like(on_cells(rt.alloc())?), 0),
    };
    let mut show = Show {
        rt,
        board: Board::new(rt.alloc(), target, 1),
        opened,
        frame: 0,
        is_live,
    };
    download(&mut show)?;
    work(&mut show)?;
    spin(&mut show)
}

impl Show {
    /// The moment of the frame. (On a terminal's target moments come from its clock: it refuses draws before the moment at which it was
    /// made.)
    fn now(&self) -> Moment {
        self.opened.saturating_add(self.frame.saturating_mul(FRAME))
    }

    /// A bar below all others.
    fn add(&mut self, template: &str, len: Option<u64>, name: &str) -> Result<BarId, Refusal> {
        let alloc = self.rt.alloc();
        let style = ProgressStyle::with_template(alloc, template)?.progress_chars("#>-")?;
        let style = style.with_colors(self.is_live)?;
        let now = self.now();
        let bar = BarState::styled(alloc, style, len, now)?;
        match self.board.add(Candidate::New(bar)) {
            Ok(bar) => {
                let name = String::from_str(alloc, name)?;
                self.tell(bar, BarCommand::WithPrefix(name))?;
                Ok(bar)
            }
            Err(turned) => Err(turned.refusal),
        }
    }

    /// Makes a command of a bar.
    fn tell(&mut self, bar: BarId, command: BarCommand<NoTracker>) -> Result<(), Refusal> {
        let now = self.now();
        self.board.command(bar, command, now)?;
        Ok(())
    }

    /// Advances by a frame, which takes its time on a terminal. If there is none, each fortieth is printed.
    fn go_on(&mut self) -> Result<(), Fault> {
        self.frame = self.frame.saturating_add(1);
        if self.is_live {
            sleep(&self.rt, Duration::from_nanos(FRAME));
            return Ok(());
        }
        if self.frame % 40 == 0 {
            return self.print();
        }
        Ok(())
    }

    /// Prints what a terminal would show now.
    fn print(&self) -> Result<(), Fault> {
        let text = match self.board.term() {
            Some(rows) => rows
                .term()
                .writer()
                .get_ref()
                .get_ref()
                .contents(self.rt.alloc())?,
            None => String::new(self.rt.alloc()),
        };
        let seconds = self.frame / 20;
        match println!(self.rt; "== after {seconds} seconds\n{text}") {
            Ok(()) => Ok(()),
            Err(_) => Err(Fault::Output),
        }
    }
}

/// A download with its bytes, its rate and the time left: four seconds.
fn download(show: &mut Show) -> Result<(), Fault> {
    let bar = show.add(DOWNLOAD, Some(BYTES), "")?;
    for frame in 1..81u64 {
        show.tell(
            bar,
            BarCommand::SetPosition(frame.saturating_mul(BYTES) / 80),
        )?;
        show.go_on()?;
    }
    show.tell(bar, BarCommand::Finish(ProgressFinish::AndLeave))?;
    Ok(())
}

/// Three workers, the last of which takes some four seconds, and a total of their parts.
fn work(show: &mut Show) -> Result<(), Fault> {
    let total = show.add(PART, Some(162), "total")?;
    let workers = added(show)?;
    for frame in 1..73u64 {
        work_on(show, total, workers.as_slice(), frame)?;
        show.go_on()?;
    }
    show.tell(total, BarCommand::Finish(ProgressFinish::AndLeave))?;
    Ok(())
}

/// The workers' bars.
fn added(show: &mut Show) -> Result<Vec<BarId>, Refusal> {
    let mut bars = Vec::new(show.rt.alloc());
    for (name, parts) in WORKERS {
        bars.push(show.add(PART, Some(*parts), name)?)?;
    }
    Ok(bars)
}

/// A frame of the workers: each that isn't done has copied one more part.
fn work_on(show: &mut Show, total: BarId, workers: &[BarId], frame: u64) -> Result<(), Fault> {
    for (bar, (name, parts)) in workers.iter().zip(WORKERS.iter()) {
        if frame <= *parts {
            show.tell(*bar, BarCommand::Inc(1))?;
            show.tell(total, BarCommand::Inc(1))?;
        }
        if frame == *parts {
            show.tell(*bar, BarCommand::Finish(ProgressFinish::AndLeave))?;
            log(show, name)?;
        }
    }
    Ok(())
}

/// Logs a line above the bars: this was copied.
fn log(show: &mut Show, name: &str) -> Result<(), Fault> {
    let now = show.now();
    let Ok(line) = format!(in show.rt.alloc(); "copied {name}") else {
        return Err(Fault::Refused(Refusal::Memory));
    };
    show.board.println(line.as_str(), now)?;
    Ok(())
}

/// A spinner: two and a half seconds.
fn spin(show: &mut Show) -> Result<(), Fault> {
    let alloc = show.rt.alloc();
    let bar = show.add(WORK, None, "")?;
    let (doing, done) = (text(alloc, "indexing")?, text(alloc, "indexed")?);
    show.tell(bar, BarCommand::WithMessage(doing))?;
    for _ in 0..47u32 {
        show.tell(bar, BarCommand::Tick)?;
        show.go_on()?;
    }
    show.tell(bar, BarCommand::Finish(ProgressFinish::WithMessage(done)))?;
    show.go_on()
}

/// A copy of a text.
fn text(alloc: Global, text: &str) -> Result<String, Refusal> {
    Ok(String::from_str(alloc, text)?)
}
