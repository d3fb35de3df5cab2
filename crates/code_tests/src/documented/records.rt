//! Examples of a bar's record, its lines, its style and a tracker. `shared_keys` has that of a key of one's own.
ghost use Rattle.std.specs.Prelude.{◌-◌, if◌then◌else◌, codes, decimal, nat_lt, string_bytes};

use crate::checks::{Granted, Runtime, is_line};
use indicatif::style::ProgressTracker;
use indicatif::{
    Ask, BarCommand, BarState, Change, FnTracker, Moment, MultiProgressAlignment, NoTracker,
    ProgressFinish, ProgressState, ProgressStyle, Refusal, SpareLines, TellsText,
};
use std::alloc::Global;

/// A bar of four steps, at this position.
fn bar_at(rt: &impl Runtime, position: u64) -> Box<BarState<NoTracker>> {
    let alloc = rt.alloc();
    let style: ProgressStyle<NoTracker> = ProgressStyle::with_template(
        alloc,
        "{bar:10} {pos}/{len}",
    ).granted(rt)
        .progress_chars("=> ")
        .granted(rt);
    let bar = BarState::styled(alloc, style, Some(4), 0).granted(rt);
    let mut bar = Box::new(alloc, bar).granted(rt);
    bar.set_position(position, 0);
    bar
}

/// Ends the test if a bar has other lines than this one.
fn says<K: ProgressTracker>(rt: &impl Runtime, bar: &BarState<K>, text: &str) {
    is_line(rt, &bar.lines(0, 80).granted(rt), text);
}

/// A copy of a command. The command itself is dropped.
fn copy_of(rt: &impl Runtime, command: BarCommand<NoTracker>) -> BarCommand<NoTracker> {
    let alloc = rt.alloc();
    let again = command.try_clone(alloc).granted(rt);
    again
}

/// A command as a value and a copy of it; a change of both numbers; and a copy of the bar, which stays where it was.
#[test]
fn commands_and_copies(rt: HostRuntime) {
    let (alloc, now) = (rt.alloc(), 0);
    let mut bar = bar_at(&rt, 3);
    let ask = bar.apply(BarCommand::Inc(2), now).granted(&rt);
    same!(&rt; (bar.state().pos(), ask), (5, Ask::Unforced));
    let again = copy_of(&rt, BarCommand::Inc(2));
    bar.apply(again, now).granted(&rt);
    same!(&rt; bar.state().pos(), 7);
    bar.set_length(10, 0);
    let change = Change {
        pos: Some(3),
        len: Some(4),
    };
    bar.apply(BarCommand::Update(change), 0).granted(&rt);
    same!(&rt; (bar.state().pos(), bar.state().len()), (3, Some(4)));
    let text = format!(in alloc; "{:?}", bar.state()).granted(&rt);
    same!(&rt; text.as_str(), "ProgressState { position: 3, len: Some(4), .. }");
    let before = bar.try_clone().granted(&rt);
    bar.inc(1, now);
    same!(&rt; (before.state().pos(), bar.state().pos()), (3, 4));
    let ask = bar
        .tell(BarCommand::SetMessage("copying"), now)
        .granted(&rt);
    same!(&rt; (bar.message(), ask), ("copying", Ask::Unforced));
}

/// The rate since a reset; commands that ask for draws; and a finish that leaves the bar.
#[test]
fn rate_draws_and_finish(rt: HostRuntime) {
    let now = 2_000_000_000;
    let mut bar = bar_at(&rt, 0);
    bar.set_position(2, 1_000_000_000);
    bar.reset_eta(1_000_000_000);
    bar.set_position(3, 2_000_000_000);
    let rate = bar.state().per_sec(2_000_000_000);
    same!(&rt; (rate.steps, rate.nanos), (1, 1_000_000_000));
    same!(&rt; bar.tick(now), Ask::Unforced);
    same!(&rt; bar.force_draw(now), Ask::Forced);
    bar.with_finish(ProgressFinish::AndLeave, now);
    bar.finish_using_style(now).granted(&rt);
    same!(&rt; (bar.state().pos(), bar.state().is_finished()), (4, true));
    says(&rt, &bar, "========== 4/4");
}

/// What an ask allows without a rate; and that a bar is cleared when it finishes, and the bars of a board stand at the top, by default.
#[test]
fn asks_and_defaults(rt: HostRuntime) {
    let mut limiter = None;
    holds!(&rt; Ask::Unforced.allows(&mut limiter, 0));
    holds!(&rt; Ask::No.is_no() && !Ask::Forced.is_no());
    let finish: ProgressFinish = ProgressFinish::default();
    holds!(&rt; matches!(finish, ProgressFinish::AndClear));
    same!(&rt; MultiProgressAlignment::default(), MultiProgressAlignment::Top);
}

/// A style that is made from a bar's, and the first step in it.
#[test]
fn style_made_from_another(rt: HostRuntime) {
    let (alloc, bar) = (rt.alloc(), bar_at(&rt, 4));
    let style = bar
        .style()
        .try_clone()
        .granted(&rt)
        .template("{pos}")
        .granted(&rt);
    let mut bar = BarState::styled(alloc, style, Some(10), 0).granted(&rt);
    says(&rt, &bar, "0");
    let ask = bar.inc(1, 0);
    same!(&rt; ask, Ask::Unforced);
}

/// A bar's lines in the room of those before.
#[test]
fn spare_lines(rt: HostRuntime) {
    let (now, bar) = (0, bar_at(&rt, 4));
    let alloc = rt.alloc();
    let mut spare = SpareLines::new(alloc);
    let before = bar.lines_in(&mut spare, 0, 80).granted(&rt);
    is_line(&rt, &before, "========== 4/4");
    spare.store(before);
    let lines = bar.lines_in(&mut spare, 1, 80).granted(&rt);
    is_line(&rt, &lines, "========== 4/4");
    let lines = bar.lines_in(&mut spare, now, 80).granted(&rt);
    is_line(&rt, &lines, "========== 4/4");
}

/// Always gives the same text.
#[derive(Drop)]
pub struct Always {
    text: String,
}

impl TellsText for Always {
    ghost told_text = { λ always p now. string_bytes always.text };

    fn tell(&self, _state: &ProgressState, _now: Moment) -> Result<String, Refusal> {
        Ok(self.text.clone()?)
    }
}

/// A key that gives this text.
pub fn saying(rt: &impl Runtime, text: &str) -> FnTracker<Always> {
    let text = String::from_str(rt.alloc(), text).granted(rt);
    FnTracker::new(rt.alloc(), Always { text }).granted(rt)
}

/// A bar that shows such a text.
#[test]
fn key_with_a_text(rt: HostRuntime) {
    let alloc = rt.alloc();
    let tracker = FnTracker::new(
        alloc,
        Always {
            text: String::from_str(alloc, "ready").granted(&rt),
        },
    )
    .granted(&rt);
    let style = ProgressStyle::with_template(alloc, "{word}!")
        .granted(&rt)
        .with_key("word", tracker)
        .granted(&rt);
    let bar = BarState::styled(alloc, style, None, 0).granted(&rt);
    says(&rt, &bar, "ready!");
}

/// Says how many of the files are left, and `done` after the last.
#[derive(Drop)]
struct FilesLeft {
    alloc: Global,
    of: u64,
}

impl TellsText for FilesLeft {
    ghost told_text = { λ files p now. if nat_lt p.position files.of then decimal (files.of - p.position) else codes "done" };

    fn tell(&self, state: &ProgressState, _now: Moment) -> Result<String, Refusal> {
        if state.pos() < self.of {
            return Ok(format!(in self.alloc; "{}", self.of - state.pos())?);
        }
        Ok(String::from_str(self.alloc, "done")?)
    }
}

/// A bar that shows this at three positions.
#[test]
fn key_with_a_condition(rt: HostRuntime) {
    let alloc = rt.alloc();
    let left = FnTracker::new(alloc, FilesLeft { alloc, of: 10 }).granted(&rt);
    let style = ProgressStyle::with_template(alloc, "{left}").granted(&rt);
    let style = style.with_key("left", left).expect(&rt, "granted");
    let mut bar = BarState::styled(alloc, style, Some(10), 0).granted(&rt);
    says(&rt, &bar, "10");
    bar.set_position(9, 0);
    says(&rt, &bar, "1");
    bar.set_position(11, 0);
    says(&rt, &bar, "done");
}
