//! What moves a bar's position.
ghost use Rattle.std.specs.Prelude.{◌≡◌, ℕ, List};
ghost use Rattle.indicatif_bar.specs.Commands.{command_as};
ghost use Rattle.indicatif_bar.specs.LoneBars.{Obeys};
ghost use Rattle.indicatif.specs.Inside.PositionChange.{position_command};

use indicatif_bar::lone::LoneBar;
use indicatif_bar::state::BarCommand;
use indicatif_bar::style::Tracks;
use indicatif_term::target::TermLike;
use indicatif_text::columns::{Drawn, Moment, Refusal};

/// What moves a bar's position. It is the most frequent call: no command is made of it if the bar stands alone.
#[derive(Clone, Copy, Drop)]
pub enum PositionChange {
    /// It goes up, modulo 2^64.
    Up(u64),
    /// It goes down, modulo 2^64.
    Down(u64),
    /// It is set.
    To(u64),
}

impl PositionChange {
    /// The change of the position, as the command of a bar on a board.
    pub fn command<K, S>(self) -> BarCommand<K, S>
        ensures { (bytes : S → List ℕ) → command_as bytes result ≡ position_command self }
    {
        match self {
            PositionChange::Up(delta) => BarCommand::Inc(delta),
            PositionChange::Down(delta) => BarCommand::Dec(delta),
            PositionChange::To(position) => BarCommand::SetPosition(position),
        }
    }

    /// Makes the change of the position, of a bar that stands alone.
    #[inline(always)]
    pub fn apply_to<K: Tracks, T: TermLike + Drop>(
        self,
        bar: &mut LoneBar<K, T>,
        now: Moment,
    ) -> Result<Drawn, Refusal>
        ensures { Obeys K.means T.view bar.old bar.new (position_command self) now result }
    {
        match self {
            PositionChange::Up(delta) => bar.inc(delta, now),
            PositionChange::Down(delta) => bar.dec(delta, now),
            PositionChange::To(position) => bar.set_position(position, now),
        }
    }
}
