//! Lines above bars, and beside them where they are hidden.
ghost use Rattle.std.specs.Prelude.{◌≡◌, ◌≢◌, ◌⊎◌, ◌++◌, ◌∷◌, [], IfOk, IfErr, Ok, Err};
ghost use Rattle.std.specs.Io.KnownBytes.{Appends};
ghost use Rattle.indicatif_bar.specs.Lone as Lone;
ghost use Rattle.indicatif.specs.Fronts.{CanAnswer, CanDraw};

use crate::shared::{MultiProgress, ProgressBar};
use indicatif_bar::style::Tracks;
use indicatif_term::target::{TermLike, write_whole};
use indicatif_text::columns::{Clock, Drawn, Refusal};
use std::alloc::Global;
use std::io::Write;
use std::sync::Wait;

/// Passes on what a call of `println` returned; if that is `Hidden`, writes its text to `out`, with a line end and in one write: so no line
/// is lost. For a bar or a board without a lock; a shared one has `println_or`.
///
/// ```
/// let drawn = board.println("a.txt", now);
/// let drawn = written_if_hidden(alloc, drawn, "a.txt", &mut out)?; // `a.txt` stands above the bars, or in `out`
/// ```
///
/// Refused: as `drawn`; if that is `Hidden`, `Memory` for the line, or `Terminal` with the kind of the writer's failure.
pub fn written_if_hidden<W: Write>(
    alloc: Global,
    drawn: Result<Drawn, Refusal>,
    text: &str,
    out: &mut W,
) -> Result<Drawn, Refusal>
    ensures shown { drawn ≢ Ok Drawn.Hidden → (result ≡ drawn) × (out.new ≡ out.old) }
    ensures written { result ≡ Ok Drawn.Hidden → Appends (W.contents out.old) (W.contents out.new) (text.now ++ 0x0a ∷ []) }
    ensures hidden { drawn ≡ Ok Drawn.Hidden → IfOk result (λ d. d ≡ Drawn.Hidden) }
    ensures alike { (result ≡ drawn) ⊎ CanDraw result }
{
    if drawn == Ok(Drawn::Hidden) {
        write_line(alloc, text, out)?;
    }
    drawn
}

/// Writes a text and a line end to a writer, in one write if the writer takes all.
fn write_line<W: Write>(alloc: Global, text: &str, out: &mut W) -> Result<(), Refusal>
    ensures written { IfOk result (λ _. Appends (W.contents out.old) (W.contents out.new) (text.now ++ 0x0a ∷ [])) }
    ensures refused { IfErr result (λ e. CanDraw (Err e)) }
{
    let line = format!(in alloc; "{text}\n")?;
    match write_whole(out, line.as_bytes()) {
        Ok(()) => Ok(()),
        Err(e) => Err(Refusal::Terminal(e.kind())),
    }
}

impl<T: TermLike + Drop, C: Clock + Drop, R: Wait + Clone + Drop, K: Tracks> MultiProgress<
    T,
    C,
    R,
    K,
> {
    /// Writes the text's lines above the bars, as `println`. If the target is hidden they go to `out`, with a line end: so a program's own
    /// lines aren't lost if standard error is no terminal.
    ///
    /// ```
    /// board.println_or("five files are copied", &mut host.stderr())?; // above the bars, or a line of its own
    /// ```
    ///
    /// Refused: as `println`; if the target is hidden, `Terminal` with the kind of the writer's failure.
    #[tactic(auto, using(crate::proofs::FrontLemmas::line_drawn))]
    pub fn println_or<W: Write>(&self, text: &str, out: &mut W) -> Result<Drawn, Refusal>
        ensures drawn { CanDraw result }
        ensures above { result ≡ Ok Drawn.Yes → out.new ≡ out.old }
        ensures written { result ≡ Ok Drawn.Hidden → Appends (W.contents out.old) (W.contents out.new) (text.now ++ 0x0a ∷ []) }
    {
        written_if_hidden(self.alloc(), self.println(text), text, out)
    }
}

impl<T: TermLike + Drop, C: Clock + Drop, R: Wait + Clone + Drop, K: Tracks> ProgressBar<
    T,
    C,
    R,
    K,
> {
    /// Writes the text's lines above the bar, as `println`. If the target is hidden they go to `out`, with a line end.
    ///
    /// ```
    /// bar.println_or("a.txt is copied", &mut host.stderr())?; // above the bar, or a line of its own
    /// ```
    ///
    /// Refused: as `println`; if the target is hidden, `Terminal` with the kind of the writer's failure.
    #[tactic(auto, using(crate::proofs::FrontLemmas::line_answers))]
    pub fn println_or<W: Write>(&self, text: &str, out: &mut W) -> Result<Drawn, Refusal>
        ensures drawn { CanAnswer K (Lone.Log text.now) result }
        ensures above { result ≡ Ok Drawn.Yes → out.new ≡ out.old }
        ensures written { result ≡ Ok Drawn.Hidden → Appends (W.contents out.old) (W.contents out.new) (text.now ++ 0x0a ∷ []) }
    {
        written_if_hidden(self.alloc, self.println(text), text, out)
    }
}
