//! Lines of a log above the bars of a board: a sink of the crate `log`.
ghost use Rattle.std.specs.Prelude.{◌≡◌, ◌++◌, ℕ, List, [], true, false, Ok, IfOk, IfErr, IfSome, IsNone, OnOk, string_bytes};
ghost use Rattle.log.specs.Level.{allows};
ghost use Rattle.log.specs.Line.{header_text};
ghost use Rattle.indicatif.specs.Bridge.{AreLinesOf, record_level, record_text};
ghost use Rattle.indicatif.specs.Fronts.{CanDraw};
ghost use Rattle.indicatif.specs.Receipts.{IsReceipt};

use crate::machine::{MachineClock, Shares, StderrBoard, StderrTerm};
use crate::shared::MultiProgress;
use indicatif_bar::style::{NoTracker, Tracks};
pub use indicatif_board::bridge::{bridge_line, emit, emit_with_receipt};
use indicatif_board::multi::Receipt;
use indicatif_term::target::TermLike;
use indicatif_text::columns::{Clock, Drawn, Refusal};
use log::kv::Source;
use log::sink::{Console, Discard};
use log::span::Spans;
use log::{Level, LevelFilter, Line, Log, Logged, Metadata, Record};
use std::alloc::Global;
use std::fmt::Display;
use std::sync::Wait;
use std::sync::atomic::{AtomicU64, Ordering};

/// How a record is laid out as lines. Its text is the message, with the spans before it and the key-value pairs after it: `request{id=7}:
/// started rows=3`. A form may state its lines (`lays`); then it is proved which lines a record's receipt is of.
///
/// ```
/// struct TextAlone;
/// impl LineForm for TextAlone {
///     fn push_line(&self, _level: Level, text: &str, out: &mut String) -> Result<(), Refusal> {
///         Ok(out.push_str(text)?)
///     }
/// }
/// ```
pub trait LineForm {
    ghost use Rattle.std.specs.Prelude.{◌≡◌, ◌++◌, ℕ, List, Option, None, IfSome, OnOk, string_bytes};
    ghost use Rattle.log.specs.declared.level.Level.{Level as LogLevel};

    /// The lines that it appends for a level and a text; `None`, the default, where it doesn't say.
    ghost lays: { Self → LogLevel → List ℕ → Option (List ℕ) } = { λ _ _ _. None };

    /// Appends the lines of a record with this level and text to `out`.
    ///
    /// Refused: `Memory`; the record then counts as missed.
    fn push_line(&self, level: Level, text: &str, out: &mut String) -> Result<(), Refusal>
        ensures { OnOk result (IfSome (lays self.now level text.now) (λ lines. string_bytes out.new ≡ string_bytes out.old ++ lines)) };
}

/// The level once, before the text (`bridge_line`): further lines of the text stand as they are. `LogBridge::new` takes this form.
///
/// ```
/// let bridge = LogBridge::new(board.clone()?); // `e\nf` stands as `ERROR e` and `f`
/// ```
#[derive(Clone, Copy, Debug, Default, Drop, PartialEq, Eq)]
pub struct LevelOnce;

impl LineForm for LevelOnce {
    ghost use Rattle.std.specs.Prelude.{Some};
    ghost use Rattle.indicatif_board.specs.Bridge.{bridge_bytes};

    ghost lays = { λ _ level text. Some (bridge_bytes level text) };

    fn push_line(&self, level: Level, text: &str, out: &mut String) -> Result<(), Refusal> {
        bridge_line(level, text, out)
    }
}

/// The level before each line of the text.
///
/// ```
/// let bridge = LogBridge::new(board.clone()?).with_form(LevelOnEachLine); // `e\nf` stands as `ERROR e` and `ERROR f`
/// ```
#[derive(Clone, Copy, Debug, Default, Drop, PartialEq, Eq)]
pub struct LevelOnEachLine;

impl LineForm for LevelOnEachLine {
    ghost use Rattle.std.specs.Prelude.{Some};
    ghost use Rattle.indicatif.specs.Bridge.{each_line};

    ghost lays = { λ _ level text. Some (each_line level text) };

    fn push_line(&self, level: Level, text: &str, out: &mut String) -> Result<(), Refusal> {
        let mut started = false;
        for line in text.split('\n') {
            if started {
                out.push('\n')?;
            }
            bridge_line(level, line, out)?;
            started = true;
        }
        Ok(())
    }
}

/// A sink of the crate `log` that writes each record above the bars of a board: one `MultiProgress::println` a record. Spans stand before
/// the message and pairs behind it, as in the lines of the kit's console.
///
/// Where the board is hidden, as where standard error is no terminal, a record goes whole to another sink (`over`). Without one (`new`)
/// it is dropped there.
///
/// A caller that logs gets no error. Records that the board refuses, for instance because the terminal fails, are counted (`missed`).
///
/// A record that is logged while the closure of a `suspend` runs, of the board or of any of its bars, waits until the closure returns. One
/// that is logged inside the closure, or inside that of an `update`, a `with_term` or a `with_record`, deadlocks.
///
/// ```
/// let bridge = LogBridge::over(board.clone()?, Console(*host));
/// let rt = Logged::new(rt, Level::Info, bridge);
/// warn!(rt; "low disk"); // `WARN  low disk` stands above the bars; where they are hidden, the console has the record
/// ```
#[derive(Drop)]
pub struct LogBridge<
    T: TermLike + Drop,
    C: Clock + Drop,
    R: Wait + Clone + Drop,
    F = LevelOnce,
    K: Tracks = NoTracker,
    L = Discard,
> {
    board: MultiProgress<T, C, R, K>,
    most: LevelFilter,
    form: F,
    inner: L,
    missed: AtomicU64,
}

impl<T: TermLike + Drop, C: Clock + Drop, R: Wait + Clone + Drop, K: Tracks> LogBridge<
    T,
    C,
    R,
    LevelOnce,
    K,
> {
    /// A sink over this board, for records of each level, with the level once before the text. Where the board is hidden, records are
    /// dropped.
    pub fn new(board: MultiProgress<T, C, R, K>) -> Self {
        LogBridge::over(board, Discard)
    }
}

impl<
    T: TermLike + Drop,
    C: Clock + Drop,
    R: Wait + Clone + Drop,
    K: Tracks,
    L: Log + Drop,
> LogBridge<T, C, R, LevelOnce, K, L> {
    /// A sink as `new` makes it, but where the board is hidden `inner` gets the records: none is lost.
    ///
    /// ```
    /// let bridge = LogBridge::over(board.clone()?, Console(*host)); // where bars are hidden, `[WARN  app] low disk` on standard error
    /// ```
    pub fn over(board: MultiProgress<T, C, R, K>, inner: L) -> Self {
        LogBridge {
            board,
            most: LevelFilter::Trace,
            form: LevelOnce,
            inner,
            missed: AtomicU64::new(0),
        }
    }
}

impl<
    T: TermLike + Drop,
    C: Clock + Drop,
    R: Wait + Clone + Drop,
    F: LineForm + Drop,
    K: Tracks,
    L: Log + Drop,
> LogBridge<T, C, R, F, K, L> {
    /// The sink with lines of this form above the bars.
    ///
    /// ```
    /// let bridge = LogBridge::new(board.clone()?).with_form(LevelOnEachLine);
    /// ```
    pub fn with_form<G: LineForm + Drop>(self, form: G) -> LogBridge<T, C, R, G, K, L> {
        let LogBridge {
            board,
            most,
            form: _,
            inner,
            missed,
        } = self;
        LogBridge {
            board,
            most,
            form,
            inner,
            missed,
        }
    }

    /// The sink for the records that the filter lets through; others are dropped, and not counted.
    ///
    /// ```
    /// let bridge = LogBridge::new(board.clone()?).with_filter(LevelFilter::Warn); // warnings and errors
    /// ```
    pub fn with_filter(self, most: LevelFilter) -> Self {
        let LogBridge {
            board,
            form,
            inner,
            missed,
            ..
        } = self;
        LogBridge {
            board,
            most,
            form,
            inner,
            missed,
        }
    }

    /// The number of records that the board refused, or that got no memory for their lines, modulo 2^64.
    pub fn missed(&self) -> u64 {
        self.missed.load(Ordering::SeqCst)
    }

    /// Logs a record, as `log` does, for a caller that wants to know whether it stands: it returns what `MultiProgress::println_with_receipt`
    /// returns for the record's lines. There is no receipt where the board keeps no history, or memory is refused.
    ///
    /// A record that the filter drops is answered with `Limited`, without a receipt. One that meets a hidden board is answered with
    /// `Hidden`, and goes to the other sink; so says its receipt, if there is a history. A refused one is counted as missed.
    ///
    /// ```
    /// let record = Record::builder().level(Level::Warn).args("low disk").build();
    /// let (drawn, receipt) = bridge.log_with_receipt(&record); // the receipt's text is `WARN  low disk`
    /// ```
    ///
    /// Refused: as `MultiProgress::println_with_receipt`; `Memory` also for the lines.
    pub fn log_with_receipt<D: Display, V: Source, S: Spans>(
        &self,
        record: &Record<'_, D, V, S>,
    ) -> (Result<Drawn, Refusal>, Option<Receipt>)
        ensures receipt { IfSome result.1 (λ receipt. IsReceipt T K.means (string_bytes receipt.text) result.0 receipt) }
        ensures lines { IfSome result.1 (λ receipt. AreLinesOf (F.lays self.now.form) (record_level record.now) (record_text D.output V.pairs S.scopes record.now) (string_bytes receipt.text)) }
        ensures filtered { allows self.now.most (record_level record.now) ≡ false → (result.0 ≡ Ok Drawn.Limited) × IsNone result.1 }
        ensures drawn { allows self.now.most (record_level record.now) ≡ true → CanDraw result.0 }
    {
        if !self.most.allows(record.level()) {
            return (Ok(Drawn::Limited), None);
        }
        let (drawn, receipt) = self.print(record);
        match drawn {
            Ok(Drawn::Hidden) => self.inner.log(record),
            Ok(_) => {}
            Err(_) => {
                self.missed.fetch_add(1, Ordering::SeqCst);
            }
        }
        (drawn, receipt)
    }

    /// Writes a record's lines above the bars.
    fn print<D: Display, V: Source, S: Spans>(
        &self,
        record: &Record<'_, D, V, S>,
    ) -> (Result<Drawn, Refusal>, Option<Receipt>)
        ensures receipt { IfSome result.1 (λ receipt. IsReceipt T K.means (string_bytes receipt.text) result.0 receipt) }
        ensures lines { IfSome result.1 (λ receipt. AreLinesOf (F.lays self.now.form) (record_level record.now) (record_text D.output V.pairs S.scopes record.now) (string_bytes receipt.text)) }
        ensures drawn { CanDraw result.0 }
    {
        match lines_by_form(self.board.alloc(), &self.form, record) {
            Ok(lines) => self.board.println_with_receipt(lines.as_str()),
            Err(refusal) => (Err(refusal), None),
        }
    }
}

/// What a function that logs above the bars of standard error takes: what `logger_above` gives.
///
/// ```
/// fn copy<R: Shares>(log: &StderrLogger<R>) {
///     info!(log; "copied a.txt");
/// }
/// ```
pub type StderrLogger<R, K = NoTracker> = Logged<
    R,
    LogBridge<StderrTerm, MachineClock<HostRuntime>, R, LevelOnce, K, Console<HostRuntime>>,
>;

/// A logger for records up to this level, which writes them above the bars of a board on standard error. Where the bars are hidden, it
/// writes the lines to standard error as the kit's console does.
///
/// ```
/// let log = logger_above(rt, host, &board, Level::Info)?;
/// ```
///
/// Refused: `Memory`.
pub fn logger_above<R: Shares, K: Tracks>(
    rt: R,
    host: &HostRuntime,
    board: &StderrBoard<R, K>,
    level: Level,
) -> Result<StderrLogger<R, K>, Refusal> {
    let bridge = LogBridge::over(board.clone()?, Console(*host));
    Ok(Logged::new(rt, level, bridge))
}

/// A record's lines in a form.
fn lines_by_form<F: LineForm, D: Display, V: Source, S: Spans>(
    alloc: Global,
    form: &F,
    record: &Record<'_, D, V, S>,
) -> Result<String, Refusal>
    ensures lines { IfOk result (λ lines. AreLinesOf (F.lays form.now) (record_level record.now) (record_text D.output V.pairs S.scopes record.now) (string_bytes lines)) }
    ensures memory { IfErr result (λ e. e ≡ Refusal.Memory) }
{
    let line = plain_line(alloc, record)?;
    let text = behind_level(record.level(), line.as_str());
    let mut lines = String::new(alloc);
    match form.push_line(record.level(), text, &mut lines) {
        Ok(()) => Ok(lines),
        Err(_) => Err(Refusal::Memory),
    }
}

/// A record's line as the kit's console writes it, without its target: `[INFO ] request{id=7}: started rows=3`.
fn plain_line<D: Display, V: Source, S: Spans>(
    alloc: Global,
    record: &Record<'_, D, V, S>,
) -> Result<String, Refusal>
    ensures line { IfOk result (λ line. IfSome (record_text D.output V.pairs S.scopes record.now) (λ text. string_bytes line ≡ header_text (record_level record.now) [] ++ text)) }
    ensures memory { IfErr result (λ e. e ≡ Refusal.Memory) }
{
    let metadata = Metadata::new(record.level(), "");
    let plain = Record::new(metadata, record.args(), record.key_values(), record.spans());
    Ok(String::format(alloc, Line::new(&plain))?)
}

/// What follows the level in a record's line.
fn behind_level(level: Level, line: &str) -> &str
    ensures { (text : List ℕ) → line.now ≡ header_text level [] ++ text → result.now ≡ text }
{
    match line.strip_prefix(header_of(level)) {
        Some(text) => text,
        None => line,
    }
}

/// What a record's line begins with.
fn header_of(level: Level) -> &'static str
    ensures { result.now ≡ header_text level [] }
{
    match level {
        Level::Error => "[ERROR] ",
        Level::Warn => "[WARN ] ",
        Level::Info => "[INFO ] ",
        Level::Debug => "[DEBUG] ",
        Level::Trace => "[TRACE] ",
    }
}

impl<
    T: TermLike + Drop,
    C: Clock + Drop,
    R: Wait + Clone + Drop,
    F: LineForm + Drop,
    K: Tracks,
    L: Log + Drop,
> Log for LogBridge<T, C, R, F, K, L> {
    ghost use Rattle.std.specs.Prelude.{Some};
    ghost use Rattle.log.specs.Level.{allows};

    ghost enables = { λ bridge level _. Some (allows bridge.most level) };

    ghost target_of = { λ bridge. L.target_of bridge.inner };

    fn enabled(&self, metadata: &Metadata<'_>) -> bool {
        self.most.allows(metadata.level())
    }

    fn log<D: Display, V: Source, S: Spans>(&self, record: &Record<'_, D, V, S>) {
        let _ = self.log_with_receipt(record);
    }

    fn flush(&self) {
        self.inner.flush();
    }

    fn target(&self) -> &str {
        self.inner.target()
    }
}
