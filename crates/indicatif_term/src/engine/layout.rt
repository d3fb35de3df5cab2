//! A frame laid out beside the lines that stand: which of these stay, which new ones come in their place, and which are written below them.
ghost use Rattle.std.specs.Prelude.{◌≡◌, ◌≢◌, IsTrue, Err, ◌==◌, ◌<◌, ◌≤◌, ◌+◌, ◌-◌, ◌^◌, ◌∷◌, [], min, map, length, take, chars, get_or, List, IfOk, IfSome, MatchResult, false, if◌then◌else◌};
ghost use Rattle.indicatif_term.specs.Lists.{lines_of};
ghost use Rattle.indicatif_term.specs.Lines.{bar_lines, line_text, all_lines};
ghost use Rattle.indicatif_term.specs.Standing.{placed, AreLines};
ghost use Rattle.indicatif_term.specs.Inside.Changing.{placed_height};
ghost use Rattle.indicatif_term.specs.Inside.Plans.{IsSummed, IsWithheld};
ghost use Rattle.indicatif_term.specs.Inside.Layouts.{IsSized, IsBeside, AreBlank, AreBlanksFor, own_lines, FrontLaid, IsOnlyLine, LaidOn, LineLaidOn, IsNoneLaid, IsFrameLaid, FrameLaid, PlannedFor};
ghost use Rattle.indicatif_term.specs.Counts.{line_counts};
ghost use Rattle.indicatif_term.specs.Inside.Owned.{run_length, through, kept_below, no_plan};

use crate::engine::beside::{Beside, NewLine, below_blanks};
use crate::engine::comparing::{Step, Turn, compare, measure};
use crate::engine::counts::blanks_of;
use crate::engine::inks::leaves_open;
use crate::engine::remembered::{Remembered, StandingLine};
use crate::engine::spare::Spare;
use crate::target::lines::{LineType, Segment};
use crate::target::window::Window;
use indicatif_text::columns::Refusal;
use std::convert::AsStr;

/// What a frame shows: how many lines and rows of which bars.
#[derive(Clone, Copy, Drop)]
pub struct Plan {
    /// The rows and the lines.
    pub rows: usize,
    pub lines: usize,
    /// Whether a line did not fit, so that none after it is shown.
    pub full: bool,
    /// The lines of the members to be dropped, with those below them of the same bar as the last one, and their rows.
    pub passing: usize,
    pub passing_rows: usize,
}

impl Plan {
    /// Nothing shown yet.
    pub fn none() -> Plan
        ensures { result ≡ no_plan }
    {
        Plan {
            rows: 0,
            lines: 0,
            full: false,
            passing: 0,
            passing_rows: 0,
        }
    }

    /// How many lines become kept ones if it is drawn below `blanks` blank lines.
    pub fn kept_below(self, blanks: usize) -> usize
        requires { blanks + self.passing ≤ 2 ^ 64 - 1 }
        ensures { result ≡ kept_below self blanks }
    {
        if self.passing == 0 {
            0
        } else {
            blanks + self.passing
        }
    }
}

/// A frame beside the lines that stand. The first `at` of these keep their rows, `blanks` of them as blank ones, with new lines in the place of
/// some; the others are written below them.
#[derive(Drop)]
pub struct Laid {
    pub plan: Plan,
    pub blanks: usize,
    pub at: usize,
    pub changed: Vec<NewLine>,
    pub more: Vec<StandingLine>,
    /// Whether a new line leaves colours open.
    pub leaves_open: bool,
}

/// What a drawing has to show: bars, of which the first `pass` are dropped, in the place of what stands.
#[derive(Clone, Copy)]
pub struct Asked<'a> {
    pub frame: &'a [Segment],
    pub pass: usize,
    /// Whether blank rows above the bars fill the rows that are taken back.
    pub bottom: bool,
    /// Whether each line is written as a whole, also where it stands already.
    pub whole: bool,
    /// How many blank lines are the first live ones, and how many rows are taken back for the bars.
    pub blanks: usize,
    pub taken: usize,
}

/// Lays a frame out for a terminal's window, beside the lines that are remembered of the terminal. New lines stand in spare room, which is kept
/// where they are refused.
pub fn plan_drawing(
    shown: &Remembered,
    spare: &mut Spare,
    laid: &mut Laid,
    asked: &Asked<'_>,
    window: Window,
) -> Result<(), Refusal>
    requires { IsNoneLaid laid.old }
    ensures planned { PlannedFor window.columns window.rows asked.now.pass asked.now.bottom asked.now.frame.now asked.now.taken shown.now laid.new result }
    ensures whole { IfOk result (λ _. IsTrue asked.now.whole → laid.new.at ≡ 0) }
    ensures memory { result ≡ Err Refusal.Memory → 0 < length (all_lines (map bar_lines asked.now.frame.now)) }
{
    let beside = shown.beside(window.columns, asked.blanks, asked.whole);
    match lay_out(spare, laid, &beside, asked, window) {
        Ok(()) => Ok(()),
        Err(e) => {
            spare.store_laid(laid);
            Err(e)
        }
    }
}

/// Lays a frame out beside some lines, below blank ones. Where other blank lines stand then, or a new line leaves colours open, which go on in
/// the lines below it, it is laid out anew, with nothing beside it.
fn lay_out(
    spare: &mut Spare,
    laid: &mut Laid,
    beside: &Beside<'_>,
    asked: &Asked<'_>,
    window: Window,
) -> Result<(), Refusal>
    requires none { IsNoneLaid laid.old }
    requires standing { AreLines window.columns beside.now.lines.now }
    requires known { AreLines window.columns beside.now.known.now }
    requires blank { AreBlank beside.now.blanks beside.now.lines.now }
    ensures laid { FrameLaid window.columns window.rows asked.now.pass beside.now.lines.now asked.now.frame.now laid.new result }
    ensures blanks { IfOk result (λ _. AreBlanksFor asked.now.bottom asked.now.taken laid.new) }
    ensures memory { result ≡ Err Refusal.Memory → 0 < length (all_lines (map bar_lines asked.now.frame.now)) }
{
    lay_frame(spare, laid, beside, asked, window)?;
    let blanks = blanks_of(asked.bottom, asked.taken, laid.plan.rows);
    if laid.blanks == blanks && !laid.leaves_open {
        return Ok(());
    }
    beside_nothing(spare, laid, asked, window)?;
    below_blanks(spare, laid, blanks)
}

/// A frame of which no line keeps its rows, as it was laid out, or else laid out anew.
fn beside_nothing(
    spare: &mut Spare,
    laid: &mut Laid,
    asked: &Asked<'_>,
    window: Window,
) -> Result<(), Refusal>
    ensures laid { (on : List StandingLine) → IsFrameLaid window.columns window.rows asked.now.pass on asked.now.frame.now laid.old →
        FrameLaid window.columns window.rows asked.now.pass [] asked.now.frame.now laid.new result }
    ensures blanks { IfOk result (λ _. laid.new.blanks ≡ 0) }
    ensures memory { result ≡ Err Refusal.Memory → 0 < length (all_lines (map bar_lines asked.now.frame.now)) }
{
    if laid.at == 0 && laid.blanks == 0 {
        return Ok(());
    }
    spare.empty(laid);
    lay_frame(spare, laid, &Beside::nothing(), asked, window)
}

/// Lays out the members of a frame beside some lines, below as many blank ones as stand there.
fn lay_frame(
    spare: &mut Spare,
    laid: &mut Laid,
    beside: &Beside<'_>,
    asked: &Asked<'_>,
    window: Window,
) -> Result<(), Refusal>
    requires none { IsNoneLaid laid.old }
    requires standing { AreLines window.columns beside.now.lines.now }
    requires known { AreLines window.columns beside.now.known.now }
    requires blank { AreBlank beside.now.blanks beside.now.lines.now }
    ensures laid { FrameLaid window.columns window.rows asked.now.pass beside.now.lines.now asked.now.frame.now laid.new result }
    ensures blanks { IfOk result (λ _. laid.new.blanks ≡ beside.now.blanks) }
    ensures memory { result ≡ Err Refusal.Memory → 0 < length (all_lines (map bar_lines asked.now.frame.now)) }
{
    laid.blanks = beside.blanks;
    laid.at = beside.blanks;
    let frame = asked.frame;
    let mut at: usize = 0;
    'members: while at < frame.len() {
        lay_member(laid, spare, beside, &frame[at], window)?;
        laid.plan.passing = passing_behind(&laid.plan, at < asked.pass);
        at = pass_standing(laid, beside.lines, asked, at + 1, window);
    }
    let passing = through_run(laid, beside.lines);
    laid.plan.passing_rows = height_passing(laid, beside.lines, passing);
    laid.plan.passing = passing;
    Ok(())
}

/// How many lines of members to be dropped there are so far, behind one that is to be dropped, or isn't.
#[inline(always)]
fn passing_behind(plan: &Plan, drops: bool) -> usize
    ensures { result ≡ (if drops then plan.now.lines else plan.now.passing) }
{
    if drops { plan.lines } else { plan.passing }
}

/// Passes the members of one line that stand as they are, from one on, behind those to be dropped. Returns the index of the first that doesn't.
#[inline(never)]
fn pass_standing(
    laid: &mut Laid,
    standing: &[StandingLine],
    asked: &Asked<'_>,
    from: usize,
    window: Window,
) -> usize
    requires standing { AreLines window.columns standing.now }
    requires within { from ≤ length asked.now.frame.now }
    requires front { FrontLaid window.columns window.rows asked.now.pass standing.now asked.now.frame.now from laid.old }
    ensures within { (from ≤ result) × (result ≤ length asked.now.frame.now) }
    ensures front { FrontLaid window.columns window.rows asked.now.pass standing.now asked.now.frame.now result laid.new }
    ensures blanks { laid.new.blanks ≡ laid.old.blanks }
{
    if from < asked.pass {
        return from;
    }
    let frame = asked.frame;
    for at in from..frame.len() {
        match line_as_it_is(laid, standing, &frame[at], window) {
            Some(line) => go_on(laid, line.rows),
            None => return at,
        }
    }
    frame.len()
}

/// The line that stands where a member's line is to stand, if the member has just that line, and it stands as it is.
#[inline(always)]
fn line_as_it_is<'a>(
    laid: &Laid,
    standing: &'a [StandingLine],
    member: &Segment,
    window: Window,
) -> Option<&'a StandingLine>
    requires { IsSummed window.rows laid.now.plan }
    ensures { IfSome result (λ line. IsBeside window.rows standing.now laid.now member.now.bar line.now × IsOnlyLine member.now line.now) }
{
    let lines: &[LineType] = &member.lines;
    if lines.len() != 1 {
        return None;
    }
    let Some(line) = next_beside(laid, standing, member.bar, window) else {
        return None;
    };
    if line.text.as_str() == lines[0].as_str() {
        return Some(line);
    }
    None
}

/// Lays out the lines of one member of the frame.
fn lay_member(
    laid: &mut Laid,
    spare: &mut Spare,
    beside: &Beside<'_>,
    member: &Segment,
    window: Window,
) -> Result<(), Refusal>
    requires summed { IsSummed window.rows laid.old.plan }
    requires standing { AreLines window.columns beside.now.lines.now }
    requires known { AreLines window.columns beside.now.known.now }
    ensures laid { LaidOn window.columns window.rows beside.now.lines.now (map line_text member.now.lines.items) (bar_lines member.now).lines
        (lines_of window.columns (bar_lines member.now ∷ [])) laid.old laid.new result }
    ensures memory { result ≡ Err Refusal.Memory → 0 < length (bar_lines member.now).lines }
{
    for line in &member.lines {
        let own = OwnLine {
            bar: member.bar,
            text: line.as_str(),
        };
        lay_line(laid, spare, beside, own, window)?;
    }
    Ok(())
}

/// A line with its bar.
#[derive(Clone, Copy)]
pub struct OwnLine<'a> {
    pub bar: u64,
    pub text: &'a str,
}

/// Lays out one more line of a bar: where it stands already, or as a new one.
#[inline(always)]
fn lay_line(
    laid: &mut Laid,
    spare: &mut Spare,
    beside: &Beside<'_>,
    own: OwnLine<'_>,
    window: Window,
) -> Result<(), Refusal>
    requires summed { IsSummed window.rows laid.old.plan }
    requires standing { AreLines window.columns beside.now.lines.now }
    requires known { AreLines window.columns beside.now.known.now }
    ensures laid { LineLaidOn window.columns window.rows beside.now.lines.now own.entry laid.old laid.new result }
{
    let Some(line) = next_beside(laid, beside.lines, own.bar, window) else {
        return lay_new(laid, spare, beside.known, own, window);
    };
    if is_same(line.text.as_str(), own.text) {
        go_on(laid, line.rows);
        return Ok(());
    }
    lay_changed(laid, spare, beside.lines, own, window)
}

/// Whether two texts are the same. Most lines change near their end, which is looked at first.
#[inline(always)]
fn is_same(a: &str, b: &str) -> bool
    ensures { IsTrue result → a.now ≡ b.now }
{
    let count = a.len();
    if count != b.len() {
        return false;
    }
    if count >= 16 && !are_alike(&a.as_bytes()[count - 16..], &b.as_bytes()[count - 16..]) {
        return false;
    }
    a == b
}

/// Whether two slices are the same. It looks at each byte, so that many are compared at once.
#[inline(always)]
fn are_alike(a: &[u8], b: &[u8]) -> bool
    requires { length a.now ≡ length b.now }
{
    let mut same = true;
    for at in 0..a.len() {
        same = same & (a[at] == b[at]);
    }
    same
}

/// Lays out one more line in the place of the one that stands there, if it has as many rows, else below.
#[inline(never)]
fn lay_changed(
    laid: &mut Laid,
    spare: &mut Spare,
    standing: &[StandingLine],
    own: OwnLine<'_>,
    window: Window,
) -> Result<(), Refusal>
    requires summed { IsSummed window.rows laid.old.plan }
    requires standing { AreLines window.columns standing.now }
    requires within { laid.old.at < length standing.now }
    requires beside { (x : StandingLine) × IsBeside window.rows standing.now laid.old own.bar x }
    ensures laid { LineLaidOn window.columns window.rows standing.now own.entry laid.old laid.new result }
{
    let line = &standing[laid.at];
    let waits = laid.at + 1 == standing.len();
    let turn = compare(line, own.text, window, waits)?;
    if turn.rows != line.rows {
        return lay_below(laid, spare, own, turn, window);
    }
    let text = spare.copied(own.text)?;
    let new = NewLine {
        at: laid.at,
        text,
        turn,
    };
    laid.changed.push(new)?;
    laid.leaves_open = laid.leaves_open | is_left_open(own.text, turn.narrow);
    go_on(laid, turn.rows);
    Ok(())
}

/// Lays out one more line that is written as a whole, below those that keep their rows.
#[inline(never)]
fn lay_new(
    laid: &mut Laid,
    spare: &mut Spare,
    known: &[StandingLine],
    own: OwnLine<'_>,
    window: Window,
) -> Result<(), Refusal>
    requires summed { IsSummed window.rows laid.old.plan }
    requires known { AreLines window.columns known.now }
    ensures laid { (on : List StandingLine) → LineLaidOn window.columns window.rows on own.entry laid.old laid.new result }
{
    let turn = measure_beside(known, laid.plan.lines, own.text, window)?;
    lay_below(laid, spare, own, turn, window)
}

/// What becomes of the rows of a line that is written as a whole. It isn't measured where the line that is remembered at its place has its text.
fn measure_beside(
    known: &[StandingLine],
    place: usize,
    text: &str,
    window: Window,
) -> Result<Turn, Refusal>
    requires { AreLines window.columns known.now }
    ensures { MatchResult result (λ t. IsSized window.columns (chars text.now) t) (λ e. IsWithheld window.columns (chars text.now ∷ []) e) }
{
    if place >= known.len() {
        return measure(text, window);
    }
    let line = &known[place];
    if line.text.as_str() == text {
        return Ok(Turn {
            step: Step::Whole,
            rows: line.rows,
            last: line.last,
            narrow: line.narrow,
        });
    }
    measure(text, window)
}

/// The line that stands where the next one of this bar is to stand, if it is of the same bar, its rows fit, and all lines before it keep their
/// rows.
#[inline(always)]
fn next_beside<'a>(
    laid: &Laid,
    standing: &'a [StandingLine],
    bar: u64,
    window: Window,
) -> Option<&'a StandingLine>
    requires { IsSummed window.rows laid.now.plan }
    ensures { IfSome result (λ line. IsBeside window.rows standing.now laid.now bar line.now) }
{
    let at = laid.at;
    if !laid.more.is_empty() || laid.plan.full || at >= standing.len() {
        return None;
    }
    let line = &standing[at];
    if line.bar != bar || window.rows - laid.plan.rows < line.rows {
        return None;
    }
    Some(line)
}

/// Passes a line that keeps its `rows` rows.
fn go_on(laid: &mut Laid, rows: usize)
    requires rows { laid.old.plan.rows + rows ≤ 65535 }
    requires lines { laid.old.plan.lines ≤ 65535 }
    requires room { laid.old.at < 2 ^ 64 - 1 }
    ensures { laid.new ≡ record laid.old { plan = record laid.old.plan { rows = laid.old.plan.rows + rows; lines = laid.old.plan.lines + 1 }; at = laid.old.at + 1 } }
{
    laid.plan.rows += rows;
    laid.plan.lines += 1;
    laid.at += 1;
}

/// Lays out one more line that is written as a whole, if its rows fit.
fn lay_below(
    laid: &mut Laid,
    spare: &mut Spare,
    own: OwnLine<'_>,
    turn: Turn,
    window: Window,
) -> Result<(), Refusal>
    requires summed { IsSummed window.rows laid.old.plan }
    requires sized { IsSized window.columns (chars own.text.now) turn }
    ensures laid { (on : List StandingLine) → LineLaidOn window.columns window.rows on own.entry laid.old laid.new result }
{
    if laid.plan.full || window.rows - laid.plan.rows < turn.rows {
        laid.plan.full = true;
        return Ok(());
    }
    let text = spare.copied(own.text)?;
    laid.more.push(StandingLine {
        bar: own.bar,
        text,
        before: spare.no_text(),
        rows: turn.rows,
        last: turn.last,
        narrow: turn.narrow,
        step: Step::Whole,
    })?;
    laid.leaves_open = laid.leaves_open | is_left_open(own.text, turn.narrow);
    laid.plan.rows += turn.rows;
    laid.plan.lines += 1;
    Ok(())
}

/// Whether a line of this text leaves colours open. One that is known to be narrow leaves none.
fn is_left_open(text: &str, narrow: bool) -> bool {
    !narrow && leaves_open(text)
}

/// The line at this place of those of the frame.
fn own_line<'a>(laid: &'a Laid, standing: &'a [StandingLine], place: usize) -> &'a StandingLine
    requires in_lines { laid.now.at ≤ length standing.now }
    requires within { laid.now.blanks + place < laid.now.at + length laid.now.more.items }
    ensures { get_or (own_lines standing.now laid.now) place result.now ≡ result.now }
{
    let at = laid.blanks + place;
    if at < laid.at {
        &standing[at]
    } else {
        &laid.more[at - laid.at]
    }
}

/// How many lines those of the members to be dropped are, with those below them of the same bar as the last one.
fn through_run(laid: &Laid, standing: &[StandingLine]) -> usize
    requires in_lines { laid.now.at ≤ length standing.now }
    requires all { laid.now.blanks + laid.now.plan.lines ≡ laid.now.at + length laid.now.more.items }
    requires within { laid.now.plan.passing ≤ laid.now.plan.lines }
    ensures run { result ≡ through laid.now.plan.passing (line_counts (own_lines standing.now laid.now)) }
    ensures within { result ≤ laid.now.plan.lines }
{
    let count = laid.plan.passing;
    if count == 0 {
        return 0;
    }
    let bar = own_line(laid, standing, count - 1).bar;
    for at in count..laid.plan.lines {
        if own_line(laid, standing, at).bar != bar {
            return at;
        }
    }
    laid.plan.lines
}

/// How many rows the first `count` lines take, or 2^64 - 1 where there are more.
fn height_passing(laid: &Laid, standing: &[StandingLine], count: usize) -> usize
    requires in_lines { laid.now.at ≤ length standing.now }
    requires within { laid.now.blanks + count ≤ laid.now.at + length laid.now.more.items }
    ensures { result ≡ min (placed_height (placed (take count (own_lines standing.now laid.now)))) (2 ^ 64 - 1) }
{
    let mut rows = 0_usize;
    for at in 0..count {
        rows = rows.saturating_add(own_line(laid, standing, at).rows);
    }
    rows
}

/// How many of these lines are of this bar, from the first one on.
pub fn run_of(lines: &[StandingLine], bar: u64) -> usize
    ensures run { result ≡ run_length bar (line_counts lines.now) }
    ensures within { result ≤ length lines.now }
{
    for at in 0..lines.len() {
        if lines[at].bar != bar {
            return at;
        }
    }
    lines.len()
}
