//! What bars need from the machine: the time, and whether a stream is a terminal and how wide. Nothing else in this library uses the
//! machine, so a program that finds these itself needs nothing from this module.
//!
//! Here are the clock, the facts about a stream, which variables tell (size, colours), terminals and writers behind streams, and setups and
//! targets on these, with short names for their types. The modules below are private:
//!
//! - `stderr_term`: `StderrTerm`, the terminal behind standard error.
//! - `until_gone`: `UntilGone`, a writer whose reader may go away before the program ends.
//! - `made`: shared bars on standard error, in a style or hidden.
ghost use Rattle.std.specs.Prelude.{◌≡◌, ◌⊎◌, ◌↔◌, ◌≤◌, ◌<◌, ℕ, Bool, chars, IfOk, IfErr, IfSome};
ghost use Rattle.indicatif_text.specs.declared.template.TemplateError.{TemplateError};
ghost use Rattle.indicatif_text.specs.Template.{Parses, IsRefused, refusal_of};
ghost use Rattle.indicatif_term.specs.OwnRows.{own_rows};
ghost use Rattle.indicatif_bar.specs.Builders.{first_style};
ghost use Rattle.indicatif.specs.Machine.{IsBehind, IsTermBehind, IsOwnTarget, IsOnStream, IsSizedTarget, IsOwnStderr, IsOnStderr, IsSizedStderr, own_columns};

mod made;
mod stderr_term;
mod until_gone;

pub use crate::machine::made::{hidden_bar, styled_on_stderr};
pub use crate::machine::stderr_term::StderrTerm;
pub use crate::machine::until_gone::UntilGone;
use crate::shared::{MultiProgress, ProgressBar};
use indicatif_bar::style::{NoTracker, ProgressStyle, TICKS, Tracks};
use indicatif_term::target::{
    DEFAULT_RATE, Facts, OwnRow, OwnRows, ProgressDrawTarget, Setup, Term,
};
use indicatif_text::columns::{Clock, Moment, Refusal};
use std::env::{self, Env, VarError};
use std::io::{BufWriter, IsTerminal, Stderr, Stdout, Write};
use std::marker::Model;
use std::sync::Wait;
use std::thread::Threads;
use std::time::{self, Duration};

/// The machine's clock: the nanoseconds of its monotonic time, counted from a start that all clocks of the machine share, usually when it
/// was booted. So a bar that is made after its board has no later start. Contracts see the last moment that it gave, 0 before the first. If
/// the machine refuses to give the time, the clock stands still.
///
/// ```
/// let mut clock = MachineClock::new(rt);
/// let opened = clock.now(); // of a machine that was booted an hour ago, some 3,600,000,000,000
/// ```
#[derive(Clone, Drop)]
pub struct MachineClock<R> {
    machine: R,
    told: Moment,
}

impl<R> Model for MachineClock<R> {
    ghost use Rattle.std.specs.Prelude.{ℕ};

    ghost Value = { ℕ };

    ghost view = { λ clock. clock.told };
}

impl<R: time::Clock> MachineClock<R> {
    /// The clock of this machine; it reads no time yet.
    pub fn new(machine: R) -> MachineClock<R>
        ensures { result ≡ 0 }
    {
        MachineClock { machine, told: 0 }
    }
}

/// A second in nanoseconds.
const SECOND: u64 = 1_000_000_000;

/// A time in nanoseconds; 2^64 - 1 from second 18,446,744,073 on, after 584 years.
#[inline(always)]
fn nanos_of(time: Duration) -> u64 {
    let secs = time.as_secs();
    if secs >= u64::MAX / SECOND {
        return u64::MAX;
    }
    secs * SECOND + u64::from(time.subsec_nanos())
}

/// It never goes back.
impl<R: time::Clock> Clock for MachineClock<R> {
    #[inline(always)]
    fn now(&mut self) -> Moment
        ensures told { self.new ≡ result }
        ensures forward { self.old ≤ result }
    {
        if let Ok(time) = self.machine.monotonic() {
            self.told = self.told.max(nanos_of(time));
        }
        self.told
    }
}

/// The rows of a terminal whose size is unknown.
const ROWS: u16 = 24;

/// The columns of a terminal whose size is unknown.
const COLUMNS: u16 = 80;

/// The facts about a stream: whether it is a terminal, its kind by the variable `TERM`, and its size by `LINES` and `COLUMNS`, if these are
/// numbers from 1 to 65,535; otherwise 24 rows and 80 columns. A program that knows better changes the result.
///
/// ```
/// let mut facts = facts_of(&rt, &rt.stderr())?;
/// facts.cols = 20;
/// ```
///
/// Refused: `Memory`.
pub fn facts_of<R: Env + AllocGlobal>(rt: &R, stream: &impl IsTerminal) -> Result<Facts, Refusal>
    ensures rows { IfOk result (λ facts. 0 < facts.rows) }
    ensures columns { IfOk result (λ facts. 0 < facts.cols) }
    ensures memory { IfErr result (λ e. e ≡ Refusal.Memory) }
{
    Ok(Facts {
        rows: number_said(rt, "LINES")?.unwrap_or(ROWS),
        cols: number_said(rt, "COLUMNS")?.unwrap_or(COLUMNS),
        attended: stream.is_terminal(),
        term: text_said(rt, "TERM")?,
    })
}

/// The value of a variable, if it is a number above 0.
fn number_said<R: Env + AllocGlobal>(rt: &R, name: &str) -> Result<Option<u16>, Refusal>
    ensures some { IfOk result (λ said. IfSome said (λ n. 0 < n)) }
    ensures memory { IfErr result (λ e. e ≡ Refusal.Memory) }
{
    let Some(text) = text_said(rt, name)? else {
        return Ok(None);
    };
    match text.as_str().parse::<u16>() {
        Ok(0) | Err(_) => Ok(None),
        Ok(number) => Ok(Some(number)),
    }
}

/// The value of a variable, if it is set and is UTF-8.
fn text_said<R: Env + AllocGlobal>(rt: &R, name: &str) -> Result<Option<String>, Refusal>
    ensures memory { IfErr result (λ e. e ≡ Refusal.Memory) }
{
    match env::var(rt, name) {
        Ok(text) => Ok(Some(text)),
        Err(VarError::OutOfMemory) => Err(Refusal::Memory),
        Err(_) => Ok(None),
    }
}

/// Whether colours are wanted on a stream, by the rule of the Rust crate `console`: yes if `CLICOLOR_FORCE` is set and not `0`; otherwise
/// on a terminal with cursor moves (`TERM` set and not `dumb`), if `NO_COLOR` isn't set and `CLICOLOR` isn't `0`.
///
/// ```
/// let style = style.with_colors(wants_colors(&rt, &rt.stderr())?)?;
/// ```
///
/// Refused: `Memory`.
pub fn wants_colors<R: Env + AllocGlobal>(rt: &R, stream: &impl IsTerminal) -> Result<bool, Refusal>
    ensures { IfErr result (λ e. e ≡ Refusal.Memory) }
{
    let forced = text_said(rt, "CLICOLOR_FORCE")?;
    let kind = text_said(rt, "TERM")?;
    let asked = text_said(rt, "CLICOLOR")?;
    let forbidden = text_said(rt, "NO_COLOR")?;
    if forced.is_some_and(|text| text.as_str() != "0") {
        return Ok(true);
    }
    let shows = stream.is_terminal() && kind.is_some_and(|text| text.as_str() != "dumb");
    let switched_off = asked.is_some_and(|text| text.as_str() == "0");
    Ok(shows && forbidden.is_none() && !switched_off)
}

/// A style with this template for standard error, with colours if they are wanted there (`wants_colors`).
///
/// ```
/// let style = style_on_stderr(&rt, "[{bar:40.cyan/blue}] {pos}/{len} {msg}")?;
/// ```
///
/// Refused: as `ProgressStyle::with_template`.
pub fn style_on_stderr<K: Tracks>(
    rt: &HostRuntime,
    template: &str,
) -> Result<ProgressStyle<K>, Refusal>
    ensures parts { IfOk result (λ style. Parses (chars template.now) style.parts) }
    ensures style { IfOk result (λ style. (colours : Bool) × (style ≡ record (first_style TICKS.now style.parts) { colours = colours })) }
    ensures refused { IfErr result (λ e. (e ≡ Refusal.Memory)
        ⊎ ((error : TemplateError) × IsRefused (chars template.now) error × (e ≡ refusal_of error))) }
{
    let style = ProgressStyle::with_template(rt.alloc(), template)?;
    style.with_colors(wants_colors(rt, &rt.stderr())?)
}

/// The setup of a bar on a terminal behind a writer, with the machine's clock.
///
/// ```
/// let setup: TerminalSetup<Stderr> = told_setup(&rt, rt.stderr(), facts)?;
/// let bar = LoneBar::new(bar, setup.target);
/// ```
pub type TerminalSetup<W> = Setup<Term<BufWriter<UntilGone<W>>>, MachineClock<HostRuntime>>;

/// The terminal behind standard output or another stream, as `on_stdout` and `on_stream` make it. `on_stderr` makes a `StderrTerm`.
///
/// ```
/// fn is_shown<R: Shares>(bar: &ProgressBar<StreamTerm<Stdout>, MachineClock<HostRuntime>, R>) -> bool {
///     !bar.is_hidden()
/// }
/// ```
pub type StreamTerm<W> = OwnRows<Term<BufWriter<UntilGone<W>>>>;

/// The setup of a bar on that terminal; `R` is the runtime that gives the time.
///
/// ```
/// let setup: StreamSetup<Stdout> = on_stdout(&rt)?;
/// ```
pub type StreamSetup<W, R = HostRuntime> = Setup<StreamTerm<W>, MachineClock<R>>;

/// The setup of a bar on standard error.
///
/// ```
/// let setup: StderrSetup = on_stderr(&rt)?;
/// let bar = LoneBar::new(bar, setup.target);
/// ```
pub type StderrSetup = Setup<StderrTerm, MachineClock<HostRuntime>>;

/// A shared bar on standard error, as `on_stderr` sets it up; `R` is the runtime of the function that has it.
///
/// ```
/// fn copy<R: Shares>(bar: &StderrBar<R>) -> Result<Drawn, Refusal> {
///     bar.inc(1)
/// }
/// ```
pub type StderrBar<R, K = NoTracker> = ProgressBar<StderrTerm, MachineClock<HostRuntime>, R, K>;

/// A shared board on standard error.
///
/// ```
/// fn board_on<R: Shares>(rt: R, setup: StderrSetup) -> Result<StderrBoard<R>, Refusal> {
///     MultiProgress::new(rt, rt.alloc(), setup, 1)
/// }
/// ```
pub type StderrBoard<R, K = NoTracker> = MultiProgress<StderrTerm, MachineClock<HostRuntime>, R, K>;

/// What functions over shared bars need from the runtime: memory, locks, threads and the time. The runtime that `main` gets has it.
///
/// ```
/// fn work<R: Shares>(rt: &R, bar: &StderrBar<R>, steps: u64) -> Result<(), Refusal> { .. } // may lock, sleep and start threads
/// ```
pub trait Shares: AllocGlobal
    + Wait
    + Threads
    + time::Clock
    + Sync
    + Send
    + Copy
    + Drop
    + 'static {}

impl<R: AllocGlobal + Wait + Threads + time::Clock + Sync + Send + Copy + Drop + 'static> Shares
    for R {}

/// The setup of a bar on standard error, where bars usually stand, so that standard output is the program's own: 20 draws a second by the
/// machine's clock. It is hidden if standard error is no terminal, or one without cursor moves (`facts_of`).
///
/// No draw erases a row that isn't the bars' own, however wide the terminal is (`OwnRows`): bars have one column less than `COLUMNS`, 79 if
/// that isn't set, and logged lines are cut there too. A program that knows its terminal's size uses `sized_stderr`.
///
/// ```
/// let mut wrapped = list.into_iter().progress(rt.alloc(), on_stderr(&rt)?)?;
/// ```
///
/// Refused: `Memory`.
pub fn on_stderr(rt: &HostRuntime) -> Result<StderrSetup, Refusal>
    ensures target { IfOk result (λ setup. (told : ℕ) × (facts : Facts) × IsOnStderr setup.target told facts) }
    ensures memory { IfErr result (λ e. e ≡ Refusal.Memory) }
{
    let Setup { target, clock } = on_stream(rt, rt.stderr())?;
    Ok(Setup {
        target: StderrTerm::target(target),
        clock,
    })
}

/// The setup of a bar on standard output, otherwise as `on_stderr`.
///
/// Refused: `Memory`.
pub fn on_stdout(rt: &HostRuntime) -> Result<StreamSetup<Stdout>, Refusal>
    ensures target { IfOk result (λ setup. (told : ℕ) × (facts : Facts) × IsOnStream setup.target told facts) }
    ensures memory { IfErr result (λ e. e ≡ Refusal.Memory) }
{
    on_stream(rt, rt.stdout())
}

/// The setup of a bar on any stream that can tell whether it is a terminal, with the variables and the clock of any runtime; otherwise as
/// `on_stderr`.
///
/// ```
/// let setup = on_stream(&rt, rt.stdout())?; // what `on_stdout(&rt)?` makes
/// ```
///
/// A `StderrBar` takes the setup of `on_stderr`: what this call makes on standard error has another type.
///
/// Refused: `Memory`; the stream is dropped.
pub fn on_stream<R: Env + AllocGlobal + time::Clock + Copy, W: Write + IsTerminal + Drop>(
    rt: &R,
    stream: W,
) -> Result<StreamSetup<W, R>, Refusal>
    ensures target { IfOk result (λ setup. (told : ℕ) × (facts : Facts) × IsOnStream setup.target told facts) }
    ensures memory { IfErr result (λ e. e ≡ Refusal.Memory) }
{
    let told = facts_of(rt, &stream)?;
    let facts = Facts {
        cols: own_columns(told.cols),
        ..told
    };
    let target = own_target(rt, stream, facts, None)?;
    let clock = MachineClock::new(*rt);
    Ok(Setup { target, clock })
}

/// A target on standard error with the facts that the program found: bars have all its columns, and no draw erases a row that isn't theirs,
/// whatever the terminal's width is (`OwnRows`). So give it one column less than the terminal has. With a row it is one row of several
/// (`OwnRow`), where other programs draw on the others.
///
/// ```
/// let mut facts = facts_of(&rt, &rt.stderr())?;
/// facts.cols = 59; // of 60
/// let target = own_stderr(&rt, rt.stderr(), facts, None)?;
/// ```
///
/// Refused: `Memory`.
pub fn own_stderr<R: AllocGlobal + time::Clock + Copy>(
    rt: &R,
    errors: Stderr,
    facts: Facts,
    row: Option<OwnRow>,
) -> Result<ProgressDrawTarget<StderrTerm>, Refusal>
    ensures target { IfOk result (λ target. IsOwnStderr target row facts) }
    ensures memory { IfErr result (λ e. e ≡ Refusal.Memory) }
{
    let target = own_target(rt, errors, facts, row)?;
    Ok(StderrTerm::target(target))
}

/// A target on any stream, as `own_stderr`.
fn own_target<R: AllocGlobal + time::Clock + Copy, W: Write + Drop>(
    rt: &R,
    stream: W,
    facts: Facts,
    row: Option<OwnRow>,
) -> Result<ProgressDrawTarget<StreamTerm<W>>, Refusal>
    ensures target { IfOk result (λ target. IsOwnTarget target row facts) }
    ensures memory { IfErr result (λ e. e ≡ Refusal.Memory) }
{
    let mut clock = MachineClock::new(*rt);
    let behind = term_on(rt, stream, &facts)?;
    ProgressDrawTarget::term(rows_on(behind, row), facts, DEFAULT_RATE, clock.now())
}

/// A terminal whose full rows the program ends, or one row of it.
fn rows_on<T>(term: T, row: Option<OwnRow>) -> OwnRows<T>
    ensures { result ≡ own_rows term row }
{
    match row {
        None => OwnRows::new(term),
        Some(row) => OwnRows::on_row(term, row),
    }
}

/// A target on standard error, of a terminal with this size. So a program that learns of another size passes it on to a shared bar or
/// board: nothing here asks the terminal, and `LINES` and `COLUMNS` keep the values they had when the program began.
///
/// The size isn't checked: bars have all `cols` columns. The target is hidden if that of `on_stderr` is, and has the same rate. Bars
/// begin there with their next draw, and that has to be at the front of an empty row. If bars have rows, `move_to` clears them and leaves
/// the cursor there. If only logged lines stand, or nothing is to be cleared, end the line and call `set_draw_target`.
///
/// ```
/// board.move_to(sized_stderr(&rt, 50, 132)?)?; // its rows are taken back, and stand on 132 columns from the next draw on
/// ```
///
/// Refused: `ZeroSize` if `rows` or `cols` is 0; `Memory`.
pub fn sized_stderr(
    rt: &HostRuntime,
    rows: u16,
    cols: u16,
) -> Result<ProgressDrawTarget<StderrTerm>, Refusal>
    ensures target { IfOk result (λ target. (facts : Facts) × (facts.rows ≡ rows) × (facts.cols ≡ cols) × IsSizedStderr target facts) }
    ensures zero_size { (result ≡ Err Refusal.ZeroSize) ↔ ((rows ≡ 0) ⊎ (cols ≡ 0)) }
    ensures no_other { IfErr result (λ e. (e ≡ Refusal.ZeroSize) ⊎ (e ≡ Refusal.Memory)) }
{
    let target = sized_target(rt, rt.stderr(), rows, cols)?;
    Ok(StderrTerm::target(target))
}

/// A target on any stream, of a terminal with this size, as `sized_stderr`.
///
/// ```
/// let target = sized_target(&rt, rt.stdout(), 50, 132)?;
/// ```
///
/// Bars that `on_stderr` made take a target of `sized_stderr`: what this call makes on standard error has another type.
///
/// Refused: `ZeroSize` if `rows` or `cols` is 0; `Memory`. The stream is dropped.
pub fn sized_target<R: Env + AllocGlobal + time::Clock + Copy, W: Write + IsTerminal + Drop>(
    rt: &R,
    stream: W,
    rows: u16,
    cols: u16,
) -> Result<ProgressDrawTarget<StreamTerm<W>>, Refusal>
    ensures target { IfOk result (λ target. (facts : Facts) × (facts.rows ≡ rows) × (facts.cols ≡ cols) × IsSizedTarget target facts) }
    ensures zero_size { (result ≡ Err Refusal.ZeroSize) ↔ ((rows ≡ 0) ⊎ (cols ≡ 0)) }
    ensures no_other { IfErr result (λ e. (e ≡ Refusal.ZeroSize) ⊎ (e ≡ Refusal.Memory)) }
{
    if rows == 0 || cols == 0 {
        return Err(Refusal::ZeroSize);
    }
    let facts = Facts {
        rows,
        cols,
        ..facts_of(rt, &stream)?
    };
    let mut clock = MachineClock::new(*rt);
    let behind = term_on(rt, stream, &facts)?;
    ProgressDrawTarget::term(
        OwnRows::left_to_terminal(behind),
        facts,
        DEFAULT_RATE,
        clock.now(),
    )
}

/// The terminal behind a stream, with these facts.
fn term_on<R: AllocGlobal, W: Write + Drop>(
    rt: &R,
    stream: W,
    facts: &Facts,
) -> Result<Term<BufWriter<UntilGone<W>>>, Refusal>
    ensures term { IfOk result (λ term. IsTermBehind term facts.now) }
    ensures memory { IfErr result (λ e. e ≡ Refusal.Memory) }
{
    Ok(Term::new(buffered(rt, stream)?, facts.rows, facts.cols))
}

/// The setup of a bar behind any writer, on a terminal with these facts.
///
/// ```
/// let mut facts = facts_of(&rt, &rt.stderr())?;
/// facts.cols = 20;
/// let setup = told_setup(&rt, rt.stderr(), facts)?;
/// ```
///
/// Refused: `Memory`.
pub fn told_setup<W: Write + Drop>(
    rt: &HostRuntime,
    writer: W,
    facts: Facts,
) -> Result<TerminalSetup<W>, Refusal>
    ensures target { IfOk result (λ setup. IsBehind setup.target facts) }
    ensures memory { IfErr result (λ e. e ≡ Refusal.Memory) }
{
    let mut clock = MachineClock::new(*rt);
    let target = ProgressDrawTarget::stderr(buffered(rt, writer)?, facts, clock.now());
    Ok(Setup { target, clock })
}

/// The columns of rows that the program ends.
fn own_columns(told: u16) -> u16
    ensures { result ≡ own_columns told }
{
    told.saturating_sub(1).max(1)
}

/// A buffered writer to a terminal that may go away.
fn buffered<R: AllocGlobal, W: Write + Drop>(
    rt: &R,
    writer: W,
) -> Result<BufWriter<UntilGone<W>>, Refusal>
    ensures { IfErr result (λ e. e ≡ Refusal.Memory) }
{
    match BufWriter::new(rt.alloc(), UntilGone::new(writer)) {
        Ok(buffered) => Ok(buffered),
        Err(_) => Err(Refusal::Memory),
    }
}
