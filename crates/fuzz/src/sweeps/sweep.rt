//! The runs of a script, one for each place where its terminal can fail.
use crate::faults::{Fault, Tally};
use crate::sweeps::judge::Look;
use crate::sweeps::play::{Play, Where};
use crate::sweeps::players::{Kind, Player};
use crate::sweeps::printing;
use crate::sweeps::record::{Plan, Point, Size};
use crate::sweeps::refused::ROOM;
use std::sync::Wait;

/// What it needs from the runtime.
pub trait Runs: AllocGlobal + Wait + Copy + Clone + Drop {}

impl<R: AllocGlobal + Wait + Copy + Clone + Drop> Runs for R {}

/// A run: on a terminal of this size that fails as planned.
#[derive(Clone, Copy, Debug, Drop)]
pub struct Case {
    pub size: Size,
    pub plan: Plan,
}

impl Case {
    /// A run on a terminal of this size that doesn't fail.
    pub fn unbroken(size: Size) -> Case {
        let plan = Plan::Never;
        Case { size, plan }
    }
}

/// The first plans of the sweeps that are made at each size.
pub const AT_EACH_SIZE: &[Plan] = &[Plan::Call(1), Plan::Byte(0), Plan::From(1)];

/// The first plan of the sweep of each two calls.
pub const EACH_PAIR: Plan = Plan::Both(1, 2);

/// The size of the largest terminal.
pub const LARGEST: Size = Size { rows: 4, cols: 6 };

/// How many sizes terminals have: one to four rows, and one to six columns.
pub const SIZES: u16 = 24;

/// The size with a number below that.
pub fn size_of(number: u16) -> Size {
    Size {
        rows: (number / LARGEST.cols).saturating_add(1),
        cols: (number % LARGEST.cols).saturating_add(1),
    }
}

impl Plan {
    /// The name of a sweep of such plans.
    pub fn name(self) -> &'static str {
        match self {
            Plan::Never => "nothing fails",
            Plan::Call(_) => "each call fails",
            Plan::Byte(_) => "each byte fails",
            Plan::From(_) => "from each call on all fail",
            Plan::Both(..) => "each two calls fail",
        }
    }

    /// Whether there is such a place in a run without a failure, in which the writer gets this much.
    fn is_in(self, whole: Point) -> bool {
        match self {
            Plan::Never => false,
            Plan::Call(at) | Plan::From(at) | Plan::Both(_, at) => at <= whole.calls,
            Plan::Byte(at) => at < whole.bytes,
        }
    }

    /// The next plan of a sweep.
    fn next(self, whole: Point) -> Plan {
        match self {
            Plan::Never => Plan::Never,
            Plan::Call(at) => Plan::Call(at.saturating_add(1)),
            Plan::From(at) => Plan::From(at.saturating_add(1)),
            Plan::Byte(at) => Plan::Byte(at.saturating_add(1)),
            Plan::Both(one, other) if other < whole.calls => Plan::Both(one, other + 1),
            Plan::Both(one, _) => Plan::Both(one.saturating_add(1), one.saturating_add(2)),
        }
    }
}

/// Makes the runs of a script, or of `bars run`, at one size, and counts them: one without a failure, and those by this plan and the next
/// ones. If two calls fail, rows are checked after each call; otherwise after each byte from the first failure on, but on smaller terminals
/// only until a failure is drawn over.
pub fn sweep_at<R: Runs>(
    rt: R,
    kind: Option<Kind>,
    Case { size, mut plan }: Case,
    tally: &mut Tally<Case>,
) {
    let look = match plan {
        Plan::Both(..) => Look::EachCall,
        _ if size == LARGEST => Look::FromFailure,
        _ => Look::AtFailure,
    };
    let never = Case::unbroken(size);
    let whole = tally.count(never, run(rt, kind, (never, Look::EachByte)));
    for _ in 0..u64::MAX {
        if !plan.is_in(whole) {
            return;
        }
        let case = Case { size, plan };
        tally.count(case, run(rt, kind, (case, look)));
        plan = plan.next(whole);
    }
}

/// Makes a run; how much the writer got.
fn run<R: Runs>(rt: R, kind: Option<Kind>, (case, look): (Case, Look)) -> Result<Point, Fault> {
    match kind {
        Some(kind) => run_script(rt, kind, (case, look)),
        None => printing::run(rt.alloc(), case),
    }
}

/// Plays a script on a terminal that fails as planned, and the draw after it on one that doesn't; how much the writer got by then.
fn run_script<R: Runs>(rt: R, kind: Kind, (case, look): (Case, Look)) -> Result<Point, Fault> {
    let mut play = Play::new(rt.alloc(), kind, case, ROOM)?;
    let mut player = Player::new(rt, &play)?;
    let (_, script, last) = kind.parts();
    play.plays(&mut player, script)?;
    let point = play.record.point();
    play.record.heal();
    play.plays(&mut player, last)?;
    match play.looked_at(look)? {
        Where::Nowhere if case.plan.admits(point.failures) => Ok(point),
        Where::Nowhere => Err(Fault::Failures),
        _ => Err(Fault::Answer),
    }
}
