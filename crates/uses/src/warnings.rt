//! That a warning on a board is one log of its line, and nothing else; and that a line is written above the bars or elsewhere.
ghost use Rattle.std.specs.Prelude.{◌≡◌, ◌⊎◌, ◌++◌, ◌∷◌, [], Ok, Err, codes};
ghost use Rattle.std.specs.Io.KnownBytes.{Appends};
ghost use Rattle.indicatif_board.specs.Boards.{Log, says};
ghost use Rattle.indicatif_board.specs.Bridge.{bridge_bytes};
ghost use Rattle.indicatif_board.specs.Multi.{LeadsBy, RecordsStay, mark_of};

use indicatif::written_if_hidden;
use indicatif_bar::style::ProgressTracker;
use indicatif_board::bridge::emit;
use indicatif_board::multi::Board;
use indicatif_term::target::TermLike;
use indicatif_text::columns::{Drawn, Moment, Refusal};
use log::Level;
use std::alloc::Global;
use std::io::Write;

/// Logs a warning above the bars of a board that the disk is low: the line `WARN  low disk` is logged, or memory was refused for it and
/// nothing has changed; each bar's record is unchanged.
pub fn warn_of_low_disk<K: ProgressTracker, T: TermLike + Drop>(
    alloc: Global,
    board: &mut Board<K, T>,
    now: Moment,
) -> Result<Drawn, Refusal>
    ensures line { bridge_bytes Level.Warn (codes "low disk") ≡ codes "WARN  low disk" }
    ensures logged { LeadsBy K.means T.view board.old board.new (Log (codes "WARN  low disk")) now (says result)
        ⊎ ((result ≡ Err Refusal.Memory) × (board.new ≡ board.old)) }
    ensures records { RecordsStay board.old board.new }
    ensures mark { mark_of board.new ≡ mark_of board.old }
{
    emit(alloc, board, Level::Warn, "low disk", now)
}

/// Writes a line above the bars of a board, or to a writer if they are hidden. After `Yes` the line was logged, and the writer is
/// unchanged; after `Hidden` the writer got it, if its bytes can be read. So a line is lost only if the call is refused.
pub fn say<K: ProgressTracker, T: TermLike + Drop, W: Write>(
    alloc: Global,
    board: &mut Board<K, T>,
    line: &str,
    now: Moment,
    out: &mut W,
) -> Result<Drawn, Refusal>
    ensures above { result ≡ Ok Drawn.Yes → LeadsBy K.means T.view board.old board.new (Log line.now) now (says (Ok Drawn.Yes)) × (out.new ≡ out.old) }
    ensures written { result ≡ Ok Drawn.Hidden → Appends (W.contents out.old) (W.contents out.new) (line.now ++ 0x0a ∷ []) }
{
    let drawn = board.println(line, now);
    written_if_hidden(alloc, drawn, line, out)
}
