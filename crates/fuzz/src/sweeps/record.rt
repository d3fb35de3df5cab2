//! A writer that keeps its bytes and fails as planned.
use indicatif_term::target::Term;
use indicatif_text::columns::Refusal;
use std::alloc::Global;
use std::cell::{Cell, RefCell};
use std::io::{self, Error, ErrorKind, Write};
use std::rc::Rc;

/// When the writer fails, with `BrokenPipe`. Its calls are counted from 1, including flushes.
#[derive(Clone, Copy, Debug, Drop)]
pub enum Plan {
    /// Never.
    Never,
    /// The call with this number fails, and takes nothing.
    Call(u64),
    /// After this many bytes the next one isn't taken, once.
    Byte(usize),
    /// The two calls with these numbers fail, and take nothing.
    Both(u64, u64),
    /// This call and each one after it fail.
    From(u64),
}

/// How much a writer got so far.
#[derive(Clone, Copy, Default, Drop)]
pub struct Point {
    /// Bytes.
    pub bytes: usize,
    /// Calls.
    pub calls: u64,
    /// Calls that failed.
    pub failures: u64,
    /// The number of the last of these, and how it failed.
    pub last: Option<(u64, ErrorKind)>,
}

impl Point {
    /// How the last call failed that did since an earlier point.
    pub fn failure_since(self, before: Point) -> Option<ErrorKind> {
        match self.last {
            Some((_, kind)) if self.failures > before.failures => Some(kind),
            _ => None,
        }
    }
}

impl Plan {
    /// How many of `count` bytes the writer takes in the call that it has just counted, unless that one fails.
    fn room(self, point: Point, count: usize) -> Option<usize> {
        let is_failing = match self {
            Plan::Never => false,
            Plan::Call(at) => point.calls == at,
            Plan::Both(one, other) => point.calls == one || point.calls == other,
            Plan::From(at) => point.calls >= at,
            Plan::Byte(at) => point.bytes == at && point.failures == 0 && count > 0,
        };
        match self {
            _ if is_failing => None,
            Plan::Byte(at) if point.bytes < at => Some(count.min(at - point.bytes)),
            _ => Some(count),
        }
    }

    /// Whether this number of the writer's calls may have failed.
    pub fn admits(self, failures: u64) -> bool {
        match self {
            Plan::Never => failures == 0,
            Plan::Call(_) | Plan::Byte(_) => failures == 1,
            Plan::Both(..) => failures == 1 || failures == 2,
            Plan::From(_) => failures > 0,
        }
    }
}

/// The bytes of a writer, and how it fails.
#[derive(Drop)]
pub struct Record {
    plan: Cell<Plan>,
    point: Cell<Point>,
    taken: RefCell<Vec<u8>>,
}

impl Record {
    /// No bytes yet, with room for `room` bytes.
    pub fn new(alloc: Global, plan: Plan, room: usize) -> Result<Rc<Record>, Refusal> {
        let record = Record {
            plan: Cell::new(plan),
            point: Cell::new(Point::default()),
            taken: RefCell::new(Vec::with_capacity(alloc, room)?),
        };
        Ok(Rc::new(alloc, record)?)
    }

    /// Stops it from failing.
    pub fn heal(&self) {
        self.plan.set(Plan::Never);
    }

    /// How much it got so far.
    pub fn point(&self) -> Point {
        self.point.get()
    }

    /// The bytes that it took between two points.
    pub fn between(&self, alloc: Global, (from, to): (Point, Point)) -> Result<Vec<u8>, Refusal> {
        let Ok(taken) = self.taken.try_borrow() else {
            return Err(Refusal::Memory);
        };
        let bytes = taken.get(from.bytes..to.bytes).unwrap_or(&[]);
        Ok(Vec::from_slice(alloc, bytes)?)
    }

    /// Makes a call with these bytes, none for a flush: how many it takes.
    fn call(&self, bytes: &[u8]) -> io::Result<usize> {
        let mut point = self.point.get();
        point.calls = point.calls.saturating_add(1);
        let kind = match self.plan.get().room(point, bytes.len()) {
            Some(room) if self.takes(bytes.get(..room).unwrap_or(bytes)) => {
                point.bytes = point.bytes.saturating_add(room);
                self.point.set(point);
                return Ok(room);
            }
            Some(_) => ErrorKind::OutOfMemory,
            None => ErrorKind::BrokenPipe,
        };
        point.failures = point.failures.saturating_add(1);
        point.last = Some((point.calls, kind));
        self.point.set(point);
        Err(Error::from(kind))
    }

    /// Takes these bytes, if there is memory for them.
    fn takes(&self, bytes: &[u8]) -> bool {
        match self.taken.try_borrow_mut() {
            Ok(mut taken) => taken.extend_from_slice(bytes).is_ok(),
            Err(_) => false,
        }
    }
}

/// The writer of a record.
#[derive(Drop)]
pub struct Wire(pub Rc<Record>);

impl Write for Wire {
    fn write(&mut self, buf: &[u8]) -> io::Result<usize> {
        let taken = self.0.call(buf)?;
        Ok(taken.min(buf.len()))
    }

    fn flush(&mut self) -> io::Result<()> {
        self.0.call(&[])?;
        Ok(())
    }
}

/// A terminal behind such a writer.
pub type Behind = Term<Wire>;

/// The size of a terminal.
#[derive(Clone, Copy, Debug, Drop, PartialEq, Eq)]
pub struct Size {
    /// Rows.
    pub rows: u16,
    /// Columns.
    pub cols: u16,
}
