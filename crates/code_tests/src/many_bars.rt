//! A board of many bars: a draw looks only at those that fit in the window.
use crate::checks::Granted;
use indicatif::machine::MachineClock;
use indicatif::{
    BarCommand, BarId, BarState, Board, Candidate, Clock, Drawn, NoTracker, ProgressDrawTarget,
    ProgressFinish, ProgressStyle, Refusal, Term,
};
use std::alloc::Global;

/// How many bars there are.
const BARS: u64 = 20_000;

/// Half a minute, in nanoseconds. On the machine on which the bars take a quarter of a second, a draw that looks at each of them would take
/// two milliseconds, and all draws together three quarters of a minute.
const BOUND: u64 = 30_000_000_000;

type Many = Board<NoTracker, Term<Vec<u8>>>;

/// Inserts `BARS` bars.
fn added(alloc: Global, board: &mut Many) -> Result<Vec<BarId>, Refusal> {
    let mut bars = Vec::new(alloc);
    for _ in 0..BARS {
        let style = ProgressStyle::with_template(alloc, "{pos}")?;
        let bar = BarState::styled(alloc, style, Some(1), 0)?;
        let bar = board.add(Candidate::New(bar));
        bars.push(bar.map_err(|turned| turned.refusal)?)?;
    }
    Ok(bars)
}

/// Finishes each of them; how many of these calls draw.
fn finished(board: &mut Many, bars: &[BarId]) -> Result<u64, Refusal> {
    let mut drawn: u64 = 0;
    for bar in bars {
        let finish = BarCommand::Finish(ProgressFinish::AndLeave);
        if board.command(*bar, finish, 0)? == Drawn::Yes {
            drawn = drawn.saturating_add(1);
        }
    }
    Ok(drawn)
}

/// Each of twenty thousand bars is finished and drawn, in a time that doesn't depend on all of them at each draw.
#[test]
fn twenty_thousand_bars(rt: HostRuntime) {
    let alloc = rt.alloc();
    let target = ProgressDrawTarget::term_like(Term::new(Vec::new(alloc), 24, 80));
    let mut board = Board::new(alloc, target, 1);
    let bars = added(alloc, &mut board).granted(&rt);
    let mut clock = MachineClock::new(rt);
    let begun = clock.now();
    same!(&rt; finished(&mut board, bars.as_slice()), Ok(BARS));
    holds!(&rt; clock.now().saturating_sub(begun) < BOUND);
}
